//! A view of a region that follows its events, and tells what each of them changed.

ghost use Rattle.std.specs.Prelude.{◌≡◌, [], IfOk};
ghost use Rattle.cics_picture.specs.contracts.page.notes.CellOrd.TheImpl as order;
ghost use Rattle.cics_picture.specs.Page.Views.{IsTold};

use crate::page::following::Following;
use crate::page::notes::{Cell, Change, Note};
use cics_dispatch::deadlocks::deadlocks;
use cics_dispatch::{Event, Region};
use cics_names::{Items, Name8, NoMemory, Verb};
use cics_script::{LineFault, read_line};
use std::alloc::Global;
use std::collections::BTreeSet;
use std::marker::Model;
use std::mem;

/// What a region shows: the texts of files and queues, NEXT cursors, open units and what they own.
/// It follows the lines and events of a run, and tells what each of them changed.
///
/// Contracts see the texts of files and queues alone, each with its cell, in the order of cells.
///
/// Cost of an event: O(c * log n), c the cells that it changes and n all cells. If a unit ends,
/// also O(resources that open units own).
#[derive(Drop)]
pub struct Viewer {
    following: Following,
    // The deadlocks after the line before.
    rings: Items<Items<Name8>>,
    alloc: Global,
}

impl Model for Viewer {
    ghost use Rattle.cics_picture.specs.Page.Views.{Texts};

    ghost Value = { Texts };

    ghost view = { λ v. v.following.cells.texts.entries };
}

// Returns a copy of the labels of a deadlock.
fn copy_of(alloc: Global, ring: &Items<Name8>) -> Result<Items<Name8>, NoMemory> {
    let mut copy = Items::new(alloc);
    for label in ring.as_slice() {
        copy.push(*label)?;
    }
    Ok(copy)
}

// Returns whether a deadlock was told before.
fn was_told(rings: &[Items<Name8>], ring: &Items<Name8>) -> bool {
    for told in rings {
        if told.as_slice() == ring.as_slice() {
            return true;
        }
    }
    false
}

// Returns whether a task waits for itself, through others.
fn leads_back(alloc: Global, region: &Region, first: Name8) -> Result<bool, NoMemory> {
    let mut found = BTreeSet::new(alloc);
    let mut rest = Vec::new(alloc);
    rest.push(first)?;
    for _step in 0..region.task_count() {
        let Some(label) = rest.pop() else {
            break;
        };
        let blockers = region.blockers(&label)?;
        for blocker in blockers.as_slice() {
            if *blocker == first {
                return Ok(true);
            }
            if found.insert(*blocker)? {
                rest.push(*blocker)?;
            }
        }
    }
    Ok(false)
}

impl Viewer {
    /// Returns the view before the first line.
    pub fn new(alloc: Global) -> Viewer
        ensures { result ≡ [] }
    {
        Viewer {
            following: Following::new(alloc),
            rings: Items::new(alloc),
            alloc,
        }
    }

    /// Takes a line that is run next: what its command asks for, and how long a task that it
    /// attaches may wait.
    ///
    /// Errors: `NoMemory`.
    pub fn expect(&mut self, line: &[u8]) -> Result<(), NoMemory>
        ensures { self.new ≡ self.old }
    {
        self.following.expect_nothing();
        match read_line(self.alloc, line) {
            Ok(line) => self.following.expect(line),
            Err(LineFault::NoMemory) => Err(NoMemory),
            Err(_) => Ok(()),
        }
    }

    /// Takes the note of a record that was loaded.
    ///
    /// Errors: `NoMemory`.
    pub fn load(&mut self, note: &Note) -> Result<(), NoMemory> {
        match note {
            Note::Set {
                cell,
                change: Change::Added(text),
                ..
            } => self.following.cells.load(cell.copy()?, text.copy()?),
            _ => Ok(()),
        }
    }

    /// Returns what an event changed, in the order in which it is told. The region is the one after
    /// the event.
    ///
    /// - `texts`: the texts of this view before the event, changed as the notes tell, are its texts
    ///   after it. No clause says that they are the region's.
    ///
    /// Errors: `NoMemory`.
    pub fn notes_of(&mut self, event: &Event, region: &Region) -> Result<Items<Note>, NoMemory>
        ensures texts { IfOk result (λ notes. IsTold order.ghosts.cmp self.old notes self.new) }
    {
        self.following.notes_of(event, region)
    }

    // Returns whether a waiting READQ TD waits for itself, through others.
    fn any_reader_leads_back(&self, region: &Region) -> Result<bool, NoMemory> {
        for (label, command) in self.following.waits.iter() {
            if matches!(command.verb, Verb::ReadqTd { .. })
                && leads_back(self.alloc, region, *label)?
            {
                return Ok(true);
            }
        }
        Ok(false)
    }

    // Returns whether there may be other deadlocks than after the line before. Each new one has the
    // task whose wait began, or a READQ TD that waits for a writer once the unit of a reader ended.
    fn may_ring(&mut self, region: &Region) -> Result<bool, NoMemory> {
        let has_ended = mem::replace(&mut self.following.has_ended, false);
        let unit_ended = mem::replace(&mut self.following.unit_ended, false);
        let began = self.following.began.take();
        if has_ended && !self.rings.is_empty() {
            return Ok(true);
        }
        if unit_ended && self.any_reader_leads_back(region)? {
            return Ok(true);
        }
        match began {
            Some(label) => leads_back(self.alloc, region, label),
            None => Ok(false),
        }
    }

    /// Returns the circle of each deadlock whose circle wasn't there before the line. The region is
    /// the one after the last event of the line.
    ///
    /// Errors: `NoMemory`. Cost: that of `Region::blockers` for each task that the one whose wait
    /// began waits for, through others; so for each READQ TD that waits, if a unit has ended. If
    /// that leads back to it, also that of `deadlocks`; so if there was a deadlock and a wait has
    /// ended.
    pub fn rings_of(&mut self, region: &Region) -> Result<Items<Items<Name8>>, NoMemory> {
        let mut rings = Items::new(self.alloc);
        if !self.may_ring(region)? {
            return Ok(rings);
        }
        let found = deadlocks(self.alloc, region)?;
        for ring in found.as_slice() {
            if !was_told(self.rings.as_slice(), ring) {
                rings.push(copy_of(self.alloc, ring)?)?;
            }
        }
        self.rings = found;
        Ok(rings)
    }
}
