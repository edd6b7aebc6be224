//! The journal of a run, as it is printed.

ghost use Rattle.std.specs.Prelude.{◌≡◌, [], false, OnOk};
ghost use Rattle.std.specs.List.{fold};
ghost use Rattle.cics_run.specs.Messages.Remarks.{no_remarks, with_notice};
ghost use Rattle.cics_run.specs.Stage.Printed.{printed_in};

use crate::messages::{Remarks, keep_alone};
use crate::reads::Watcher;
use crate::stage::amiss::is_amiss;
use crate::stage::journal::{push_event, push_fault};
use crate::stage::notices::{Notice, names_undefined, push_noted};
use crate::stage::{Fault, Observer, Stage};
use cics_dispatch::{Event, Region, Request};
use cics_names::NoMemory;
use std::alloc::Global;

/// Prints what it sees.
#[derive(Drop)]
pub struct Journal {
    /// Text that is printed and not yet written.
    pub text: Vec<u8>,
    /// Whether an event was amiss.
    pub is_amiss: bool,
    /// What is told of the events of the last line.
    pub notices: Vec<Notice>,
    /// What is told of the events of the lines before.
    pub told: Remarks,
    /// The numbers of lines whose command has RESP2 alone, and whose condition is told: at most 64.
    pub alone: Vec<u64>,
    /// The steps of the run, if they are wanted.
    pub watcher: Option<Watcher>,
}

impl Journal {
    /// Returns an empty journal.
    pub fn new(alloc: Global) -> Journal
        ensures { printed_in result ≡ record {
          text = [];
          is_amiss = false;
          notices = [];
          told = no_remarks (record { strict = false; why = false });
          watched = None;
        } }
    {
        Journal {
            text: Vec::new(alloc),
            is_amiss: false,
            notices: Vec::new(alloc),
            told: Remarks::new(alloc),
            alone: Vec::new(alloc),
            watcher: None,
        }
    }

    /// Adds the remarks on the last line, which has this number and led to this stage. `notices`
    /// has to be cleared before each line.
    ///
    /// Errors: `NoMemory`.
    #[inline(always)]
    pub fn keep_remarks(&mut self, stage: &Stage, number: u64, line: &[u8]) -> Result<(), NoMemory>
        ensures { OnOk result (printed_in self.new ≡ record (printed_in self.old) {
          told = fold (with_notice stage.now number line.now) self.old.told self.old.notices.items;
        }) }
    {
        let notices = self.notices.as_slice();
        if notices.is_empty() {
            return Ok(());
        }
        self.told.add_all(stage, number, line, notices)?;
        keep_alone(&mut self.alone, number, line, notices)
    }
}

impl Observer for Journal {
    ghost use Rattle.cics_run.specs.Stage.Printed.{Printed, journal_sight, printed_in};

    ghost Seen = { Printed };

    ghost seen = { printed_in };

    ghost sight = { journal_sight };

    fn sees_requests(&self) -> bool {
        self.watcher.is_some()
    }

    fn see_request(
        &mut self,
        number: u64,
        request: &Request,
        region: &Region,
    ) -> Result<(), NoMemory> {
        match &mut self.watcher {
            Some(watcher) => watcher.see_request(number, request, region),
            None => Ok(()),
        }
    }

    fn see(&mut self, number: u64, event: &Event, region: &Region) -> Result<(), NoMemory> {
        if let Some(watcher) = &mut self.watcher {
            watcher.see(number, event, region)?;
        }
        let is_amiss = is_amiss(event);
        self.is_amiss |= is_amiss;
        if is_amiss || self.told.scope.why || names_undefined(event) {
            push_noted(&mut self.notices, self.told.scope, event)?;
        }
        push_event(&mut self.text, event)
    }

    fn see_fault(&mut self, number: u64, fault: Fault) -> Result<(), NoMemory> {
        push_fault(&mut self.text, number, fault)
    }
}
