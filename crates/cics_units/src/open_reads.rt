//! The records that the units of work have read for update, and not yet rewritten, deleted or
//! unlocked.

mod unit_reads;

ghost use Rattle.std.specs.Prelude.{◌≡◌, ◌==◌, ◌++◌, not, filter, [], None, OnOk, OnErr};
ghost use Rattle.std.specs.Option.{option_copied};
ghost use Rattle.cics_names.specs.Stamps.{list_stamp};
ghost use Rattle.cics_history.specs.Execution.{is_read_of, read_at, with_read};
ghost use Rattle.cics_history.specs.Stamps.{read_stamp};
ghost use Rattle.cics_units.specs.OpenReads.{is_read_key, is_read_under};

use cics_history::UnitId;
use cics_names::{Name8, NoMemory, Record, stamp_number};
use std::alloc::Global;
use std::marker::Model;
use unit_reads::UnitReads;

/// The update reads that are open: at most one for each unit and file.
///
/// Contracts see them in the order of their units, and those of a unit in the order of their files'
/// names. A unit has a row by its number, which is empty if none of its reads is open.
///
/// Cost: a unit's row is found in O(1), and searched in O(the unit's open update reads).
#[derive(Drop)]
pub(crate) struct OpenReads {
    rows: Vec<UnitReads>,
    alloc: Global,
}

impl Model for OpenReads {
    ghost use Rattle.std.specs.Prelude.{List};
    ghost use Rattle.cics_history.specs.State.{UpdateRead};
    ghost use Rattle.cics_units.specs.OpenReads.{reads_from};

    ghost Value = { List UpdateRead };

    ghost view = { λ r. reads_from 0 r.rows.items };
}

impl OpenReads {
    /// Returns a table in which no update read is open. `alloc` gives the memory for those that are
    /// opened.
    pub(crate) fn new(alloc: Global) -> OpenReads
        ensures { result ≡ [] }
    {
        OpenReads {
            rows: Vec::new(alloc),
            alloc,
        }
    }

    /// Returns the key of the record that a unit has read for update in a file, if it has.
    pub(crate) fn key(&self, unit: UnitId, file: &Name8) -> Option<&Record>
        ensures { option_copied result ≡ read_at self.now unit file.now }
    {
        let at = unit.number() as usize;
        self.rows.get(at)?.key(file)
    }

    /// Appends the stamp of a unit's open update reads, in the order of their files.
    ///
    /// Errors: `NoMemory`.
    pub(crate) fn stamp(&self, unit: UnitId, out: &mut Vec<u8>) -> Result<(), NoMemory>
        ensures { OnOk result (out.new.items
            ≡ out.old.items ++ list_stamp read_stamp (filter (λ r. r.unit == unit) self.now)) }
    {
        let at = unit.number() as usize;
        match self.rows.get(at) {
            Some(reads) => reads.stamp(out),
            None => stamp_number(out, 0),
        }
    }

    /// Opens a unit's update read of the record of a key in a file.
    ///
    /// The unit must have none open in that file. Unchanged on error.
    ///
    /// Cost: beside the search, a row for each unit up to this one that has none, once.
    pub(crate) fn open(&mut self, unit: UnitId, file: Name8, key: Record) -> Result<(), NoMemory>
        requires { read_at self.old unit file ≡ None }
        ensures reads { OnOk result (self.new
            ≡ with_read (record { unit = unit; file = file; key = key }) self.old) }
        ensures err { OnErr result (self.new ≡ self.old) }
    {
        let at = unit.number() as usize;
        while self.rows.len() <= at {
            self.rows.push(UnitReads::new(self.alloc))?;
        }
        self.rows[at].open(file, key)
    }

    /// Returns whether a unit has an update read of a file, and it is of this key.
    pub(crate) fn is_of_key(&self, unit: UnitId, file: &Name8, key: &[u8]) -> bool
        ensures { result ≡ is_read_key (read_at self.now unit file.now) key.now }
    {
        match self.key(unit, file) {
            Some(read) => read.bytes() == key,
            None => false,
        }
    }

    /// Returns whether a unit has an update read of a file, and its key begins with this prefix.
    pub(crate) fn is_under(&self, unit: UnitId, file: &Name8, prefix: &[u8]) -> bool
        ensures { result ≡ is_read_under (read_at self.now unit file.now) prefix.now }
    {
        match self.key(unit, file) {
            Some(read) => read.bytes().starts_with(prefix),
            None => false,
        }
    }

    /// Ends a unit's update read of a file, and returns its key, if there was one.
    ///
    /// This takes no memory.
    pub(crate) fn close(&mut self, unit: UnitId, file: &Name8) -> Option<Record>
        ensures reads { self.new ≡ filter (λ r. not (is_read_of unit file.now r)) self.old }
        ensures key { result ≡ read_at self.old unit file.now }
    {
        let at = unit.number() as usize;
        self.rows.get_mut(at)?.close(file)
    }

    /// Ends all update reads of a unit. This takes no memory.
    pub(crate) fn end(&mut self, unit: UnitId)
        ensures { self.new ≡ filter (λ r. not (r.unit == unit)) self.old }
    {
        let at = unit.number() as usize;
        if let Some(reads) = self.rows.get_mut(at) {
            *reads = UnitReads::new(self.alloc);
        }
    }
}
