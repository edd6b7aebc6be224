//! The records that one unit of work has read for update.

ghost use Rattle.std.specs.Prelude.{◌≡◌, ◌++◌, [], None, IfSome, IfNone, OnOk, OnErr};
ghost use Rattle.std.specs.Option.{option_copied};
ghost use Rattle.cics_names.specs.Keyed.{value_at, with_value, without};
ghost use Rattle.cics_names.specs.Stamps.{list_stamp};
ghost use Rattle.cics_history.specs.Stamps.{record_stamp};
ghost use Rattle.cics_units.specs.OpenReads.{place_of, IsFoundAt};

use cics_names::{Name8, NoMemory, Record, stamp_number, stamp_text};
use std::alloc::Global;
use std::marker::Model;

/// The open update reads of one unit: the key of the record that it has read, by file.
///
/// Contracts see them as a map. They stand in one list, in the order of the files' names, since a
/// unit seldom has more than a few open. Unchanged on error.
///
/// Cost: each call searches the list from its front, O(the unit's open update reads).
#[derive(Drop)]
pub(crate) struct UnitReads {
    entries: Vec<(Name8, Record)>,
}

impl Model for UnitReads {
    ghost use Rattle.std.specs.Prelude.{T};
    ghost use Rattle.cics_names.specs.Keyed.{Bytes, Map, is_rising};

    ghost Value = { Map Bytes };

    ghost view = { λ r. r.entries.items };

    ghost invariant = { λ r. T (is_rising r.entries.items) };
}

impl UnitReads {
    /// Returns an empty map. This takes no memory.
    pub(crate) fn new(alloc: Global) -> UnitReads
        ensures { result ≡ [] }
    {
        UnitReads {
            entries: Vec::new(alloc),
        }
    }

    /// Appends the stamp of the list of its entries.
    ///
    /// Errors: `NoMemory`.
    pub(crate) fn stamp(&self, out: &mut Vec<u8>) -> Result<(), NoMemory>
        ensures { OnOk result (out.new.items
            ≡ out.old.items ++ list_stamp record_stamp self.now) }
    {
        for (file, key) in self.entries.as_slice() {
            stamp_number(out, 1)?;
            stamp_text(out, &file.bytes())?;
            stamp_text(out, key.bytes())?;
        }
        stamp_number(out, 0)
    }

    // Returns how many entries have files that come before this one.
    fn place(&self, file: &Name8) -> usize
        ensures { result ≡ place_of file.now self.now }
    {
        let mut at = 0;
        while at < self.entries.len() && self.entries[at].0.cmp(file).is_lt() {
            at += 1;
        }
        at
    }

    // Returns the index of the entry of a file, if there is one.
    fn find(&self, file: &Name8) -> Option<usize>
        ensures found { IfSome result (λ at. IsFoundAt file.now self.now at) }
        ensures none { IfNone result (value_at file.now self.now ≡ None) }
    {
        let at = self.place(file);
        let (name, _) = self.entries.get(at)?;
        if file == name { Some(at) } else { None }
    }

    /// Returns the key of the record that is read in a file, if one is.
    pub(crate) fn key(&self, file: &Name8) -> Option<&Record>
        ensures { option_copied result ≡ value_at file.now self.now }
    {
        let at = self.find(file)?;
        Some(&self.entries[at].1)
    }

    /// Opens the update read of a file that has none open.
    pub(crate) fn open(&mut self, file: Name8, key: Record) -> Result<(), NoMemory>
        requires { value_at file self.old ≡ None }
        ensures reads { OnOk result (self.new ≡ with_value file key self.old) }
        ensures err { OnErr result (self.new ≡ self.old) }
    {
        let at = self.place(&file);
        self.entries.insert(at, (file, key))?;
        Ok(())
    }

    /// Ends the update read of a file, and returns its key, if it had one. This takes no memory.
    pub(crate) fn close(&mut self, file: &Name8) -> Option<Record>
        ensures reads { self.new ≡ without file.now self.old }
        ensures key { result ≡ value_at file.now self.old }
    {
        let at = self.find(file)?;
        Some(self.entries.remove(at).1)
    }
}
