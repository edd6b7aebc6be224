//! The steps of a line: what each event tells, and what it changed.

ghost use Rattle.std.specs.Prelude.{◌≡◌, [], IfOk, OnOk};
ghost use Rattle.cics_picture.specs.Page.Recording.{told_by, told_in};

use crate::RowKind;
use crate::draw::{fault_text, kind_of, text_of};
use crate::page::kinds::is_woken;
use crate::page::notes::Note;
use crate::page::viewer::Viewer;
use cics_dispatch::{Event, Region, Request};
use cics_names::{Items, Name8, NoMemory, Record};
use cics_run::stage::{Fault, Observer, Stage};
use std::alloc::Global;

/// A line of the journal, and what its event changed.
#[derive(Drop)]
pub struct PageStep {
    /// The kind of the event; a fault has none.
    pub kind: Option<RowKind>,
    /// Whether a waiting command is answered.
    pub is_woken: bool,
    /// The line of the journal, without its LF.
    pub text: Record,
    pub notes: Items<Note>,
}

/// Keeps the steps of a line, and views the region after each.
#[derive(Drop)]
pub struct Pager {
    pub viewer: Viewer,
    pub steps: Vec<PageStep>,
}

// Returns a step with the circles of deadlocks behind its notes.
fn with_rings(step: PageStep, rings: Items<Items<Name8>>) -> Result<PageStep, NoMemory>
    ensures { IfOk result (λ ringed. told_by ringed ≡ told_by step) }
{
    let mut step = step;
    for ring in rings.into_vec() {
        step.notes.push(Note::Ring(ring))?;
    }
    Ok(step)
}

impl Pager {
    /// Returns a pager before the first line.
    pub fn new(alloc: Global) -> Pager {
        Pager {
            viewer: Viewer::new(alloc),
            steps: Vec::new(alloc),
        }
    }

    /// Takes a line that is run next. It has no steps yet.
    ///
    /// Errors: `NoMemory`.
    pub fn begin_line(&mut self, line: &[u8]) -> Result<(), NoMemory>
        ensures { told_in self.new ≡ [] }
    {
        self.steps.clear();
        self.viewer.expect(line)
    }

    /// Adds the deadlocks that a line brought to its last step, if it has one.
    ///
    /// Errors: `NoMemory`.
    pub fn end_line(&mut self, stage: &Stage) -> Result<(), NoMemory>
        ensures { OnOk result (told_in self.new ≡ told_in self.old) }
    {
        let Stage::Running(region) = stage else {
            return Ok(());
        };
        let rings = self.viewer.rings_of(region)?;
        let Some(last) = self.steps.pop() else {
            return Ok(());
        };
        self.steps.push(with_rings(last, rings)?)?;
        Ok(())
    }
}

impl Observer for Pager {
    ghost use Rattle.std.specs.Prelude.{List};
    ghost use Rattle.cics_picture.specs.Page.Recording.{Told, told_in, page_sight};

    ghost Seen = { List Told };

    ghost seen = { told_in };

    ghost sight = { page_sight };

    fn sees_requests(&self) -> bool {
        false
    }

    fn see_request(
        &mut self,
        _number: u64,
        _request: &Request,
        _region: &Region,
    ) -> Result<(), NoMemory> {
        Ok(())
    }

    fn see(&mut self, _number: u64, event: &Event, region: &Region) -> Result<(), NoMemory> {
        let alloc = *self.steps.allocator();
        let notes = self.viewer.notes_of(event, region)?;
        self.steps.push(PageStep {
            kind: Some(kind_of(event)),
            is_woken: is_woken(event),
            text: text_of(alloc, event)?,
            notes,
        })?;
        Ok(())
    }

    fn see_fault(&mut self, number: u64, fault: Fault) -> Result<(), NoMemory> {
        let alloc = *self.steps.allocator();
        self.steps.push(PageStep {
            kind: None,
            is_woken: false,
            text: fault_text(alloc, number, fault)?,
            notes: Items::new(alloc),
        })?;
        Ok(())
    }
}
