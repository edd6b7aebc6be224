//! The browses of a task, by file.

ghost use Rattle.std.specs.Prelude.{◌≡◌, ◌++◌, [], OnOk, OnErr, IfOk};
ghost use Rattle.std.specs.Borrow.{sem};
ghost use Rattle.std.specs.Option.{option_copied, option_copied_mut};
ghost use Rattle.cics_names.specs.Keyed.{value_at, with_value, without};
ghost use Rattle.cics_names.specs.Stamps.{list_stamp};
ghost use Rattle.cics_dispatch.specs.Machine.Browses.{read_on, after_read_on};
ghost use Rattle.cics_dispatch.specs.Machine.BrowseLoans.{LendsBrowse};
ghost use Rattle.cics_dispatch.specs.Machine.Stamps.{browse_stamp};

use cics_browse::{Browse, Browsed};
use cics_ksds::File;
use cics_names::{Name8, NoMemory, Record, stamp_number, stamp_text};
use std::alloc::Global;
use std::collections::BTreeMap;
use std::marker::Model;

/// The start of a browse that STARTBR or RESETBR asks for.
#[derive(Drop)]
pub struct BrowseStart {
    /// The key, or with GENERIC the first bytes of it.
    pub key: Record,
    /// Whether it has GENERIC.
    pub generic: bool,
    /// Whether it has EQUAL: no greater key will do.
    pub equal: bool,
}

/// The direction in which a browse reads on.
#[derive(Clone, Copy)]
pub enum Direction {
    /// READNEXT: towards the greater keys.
    Forward,
    /// READPREV: towards the lesser keys.
    Back,
}

/// Reads on in a browse, as `Browse::next` or `Browse::prev` does. `file` is the browse's own file
/// as it stands. On error the position stays.
pub fn read_on(browse: &mut Browse, file: &File, direction: Direction) -> Result<Browsed, NoMemory>
    ensures reply { IfOk result (λ reply. reply
        ≡ read_on direction file.now.records browse.old) }
    ensures position { OnOk result (browse.new
        ≡ after_read_on direction file.now.records browse.old) }
    ensures err { OnErr result (browse.new ≡ browse.old) }
{
    match direction {
        Direction::Forward => browse.next(file),
        Direction::Back => browse.prev(file),
    }
}

/// The open browses of a task, each under the name of its file. A task has at most one of a file.
///
/// Contracts see them as a map from the names to the positions, in the order of the names.
///
/// Cost: O(log browses) to find one.
#[derive(Drop)]
pub struct Browses {
    rows: BTreeMap<Name8, Browse>,
}

impl Model for Browses {
    ghost use Rattle.std.specs.Prelude.{T};
    ghost use Rattle.cics_names.specs.Keyed.{Map, is_rising};
    ghost use Rattle.cics_browse.specs.Positions.{Position};

    ghost Value = { Map Position };

    ghost view = { λ b. b.rows.entries };

    ghost invariant = { λ b. T (is_rising b.rows.entries) };
}

impl Browses {
    /// Returns no browses. `alloc` gives the memory for those to come.
    pub fn new(alloc: Global) -> Browses
        ensures { result ≡ [] }
    {
        Browses {
            rows: BTreeMap::new(alloc),
        }
    }

    /// Returns the browse of a file, if one is open.
    pub fn get(&self, file: &Name8) -> Option<&Browse>
        ensures { option_copied result ≡ value_at file.now self.now }
    {
        self.rows.get(file)
    }

    /// Returns the browse of a file, to be moved, if one is open. If it is left where it was, no
    /// browse changes.
    pub fn get_mut(&mut self, file: &Name8) -> Option<&mut Browse>
        ensures* writes_back { sem 𝓛 (LendsBrowse self.entry file.now result) }
        ensures browse { option_copied_mut result ≡ value_at file.now self.old }
    {
        self.rows.get_mut(file)
    }

    /// Adds a browse of a file, or replaces the one that is open.
    ///
    /// On error all browses stay as they were, and the new one is dropped.
    pub fn put(&mut self, file: Name8, browse: Browse) -> Result<(), NoMemory>
        ensures ok { OnOk result (self.new ≡ with_value file browse self.old) }
        ensures err { OnErr result (self.new ≡ self.old) }
    {
        self.rows.insert(file, browse)?;
        Ok(())
    }

    /// Ends the browse of a file, if one is open. Takes no memory.
    pub fn end(&mut self, file: &Name8)
        ensures { self.new ≡ without file.now self.old }
    {
        self.rows.remove(file);
    }

    /// Appends their stamp: of each, in the order of the names, its file's name and its position.
    ///
    /// Errors: `NoMemory`. Cost: O(browses).
    pub fn stamp(&self, out: &mut Vec<u8>) -> Result<(), NoMemory>
        ensures { OnOk result (out.new.items
            ≡ out.old.items ++ list_stamp browse_stamp self.now) }
    {
        for (file, browse) in &self.rows {
            stamp_number(out, 1)?;
            stamp_text(out, &file.bytes())?;
            browse.stamp(out)?;
        }
        stamp_number(out, 0)
    }

    /// Ends every browse. Takes no memory.
    pub fn end_all(&mut self)
        ensures { self.new ≡ [] }
    {
        self.rows.clear();
    }
}
