//! The notes by wait groups, and the lists of what each unit blocks.

ghost use Rattle.std.specs.Prelude.{◌≡◌, ◌<◌, ℕ, length, Some};
ghost use Rattle.std.specs.Prelude.{is_some, IfSome, IfNone, OnOk, true, slice_get};
ghost use Rattle.std.specs.BTreeSet.{BTreeSet as Places};
ghost use Rattle.cics_dispatch.specs.declared.notes.groups.WaitNote.{WaitNote as NoteValue};
ghost use Rattle.cics_dispatch.specs.declared.notes.groups.Parked.{Parked as ParkedValue};
ghost use Rattle.cics_dispatch.specs.declared.notes.groups.Parked.TheVariants.{Group as OfGroup};
ghost use Rattle.cics_dispatch.specs.Notes.Notes.{of_group, blocker_in, AreClosed, IsOpenAt};
ghost use Rattle.cics_dispatch.specs.Notes.Filed.{has, AreShown, IsFirstShown, IsLeft, IsParked, KeepParked};
ghost use Rattle.cics_dispatch.specs.Notes.Filed.{Reopens, IsAlone, IsNotOf};

use crate::notes::firsts::Firsts;
use cics_history::UnitId;
use cics_names::{Name8, NoMemory};
use indexmap::IndexMap;
use std::collections::BTreeSet;

/// What is known of a waiting command.
#[derive(Clone, Copy)]
pub struct WaitNote {
    /// The label of its task.
    pub label: Name8,
    /// The index of its wait group. `None` if it is in none.
    pub group: Option<usize>,
    /// Its blocker, if it is in no wait group and its blocker is known. Else `None`.
    pub blocker: Option<UnitId>,
}

// What a unit blocks.
#[derive(Clone, Copy)]
pub(crate) enum Parked {
    // A wait group, by its index.
    Group(usize),
    // A command in no wait group, by the index of its note.
    Row(usize),
}

// The notes with their wait groups, and which commands must be looked at.
#[derive(Drop)]
pub(crate) struct Groups {
    // The notes, and None for each command that waits no more.
    pub(crate) rows: Vec<Option<WaitNote>>,
    // The blocker of each wait group. None if its commands must be looked at.
    pub(crate) blockers: Vec<Option<UnitId>>,
    // The indexes of the notes of each wait group.
    pub(crate) members: Vec<BTreeSet<usize>>,
    // For each index LOOK if the command must be looked at, and is in no wait group or the first of
    // its group. Else WAIT, or perhaps LOOK.
    pub(crate) keys: Firsts,
}

// The lists of what each unit blocks, and perhaps of what it blocked before.
pub(crate) type Lists = IndexMap<UnitId, Vec<Parked>>;

// The key of a command that must be looked at.
pub(crate) const LOOK: u64 = 0;

// The key of every other command.
pub(crate) const WAIT: u64 = 1;

// Returns the blocker of a note's command, or of its wait group, if it is known.
fn blocker_in(blockers: &[Option<UnitId>], note: &WaitNote) -> Option<UnitId>
    ensures { result ≡ blocker_in blockers.now note.now }
{
    let Some(group) = note.group else {
        return note.blocker;
    };
    match blockers.get(group) {
        Some(blocker) => *blocker,
        None => None,
    }
}

// Returns a note, if there is one and its command must be looked at.
fn open_note(blockers: &[Option<UnitId>], row: Option<WaitNote>) -> Option<WaitNote>
    ensures some { IfSome result (λ n. (row ≡ Some n) × (blocker_in blockers.now n ≡ None)) }
    ensures none { IfNone result ((n : NoteValue) → row ≡ Some n
        → is_some (blocker_in blockers.now n) ≡ true) }
{
    let note = row?;
    match blocker_in(blockers, &note) {
        Some(_) => None,
        None => Some(note),
    }
}

// Sets the key of a wait group's first command to LOOK, if the group's blocker isn't known.
fn show_first(keys: &mut Firsts, blocker: Option<UnitId>, members: &BTreeSet<usize>)
    requires within { (i : ℕ) → has members.now i ≡ true → i < length keys.old }
    ensures { IsFirstShown blocker members.now keys.old keys.new }
{
    if blocker.is_some() {
        return;
    }
    if let Some(first) = members.first() {
        keys.set(*first, LOOK);
    }
}

impl Groups {
    // Returns the index and the note of the first command that must be looked at. Sets the key of
    // each that it passes over to WAIT.
    pub(crate) fn first_open(&mut self) -> Option<(usize, WaitNote)>
        requires { AreShown self.old }
        ensures shown { AreShown self.new }
        ensures rows { self.new.rows ≡ self.old.rows }
        ensures blockers { self.new.blockers ≡ self.old.blockers }
        ensures first { IfSome result (λ p.
            IsOpenAt self.new.rows.items self.new.blockers.items p.0 p.1) }
        ensures none { IfNone result (AreClosed self.new.blockers.items self.new.rows.items) }
    {
        while let Some(at) = self.keys.first_below(WAIT) {
            if let Some(note) = open_note(self.blockers.as_slice(), self.rows[at]) {
                return Some((at, note));
            }
            self.keys.set(at, WAIT);
        }
        None
    }

    // Takes the command of the note at an index out of its wait group, if it is in one.
    pub(crate) fn leave(&mut self, at: usize, note: &WaitNote)
        requires group { IfSome note.now.group (λ g. g < length self.old.members.items) }
        requires even { length self.old.members.items ≡ length self.old.blockers.items }
        requires within { (g : ℕ) (s : Places ℕ) (i : ℕ)
            → slice_get self.old.members.items g ≡ Some s → has s i ≡ true
            → i < length self.old.keys }
        ensures rows { self.new.rows ≡ self.old.rows }
        ensures blockers { self.new.blockers ≡ self.old.blockers }
        ensures left { IsLeft at note.now.group self.old.blockers.items self.old.members.items
            self.old.keys self.new.members.items self.new.keys }
    {
        let Some(group) = note.group else {
            return;
        };
        self.members[group].remove(&at);
        show_first(&mut self.keys, self.blockers[group], &self.members[group]);
    }

    // Forgets the blocker of a wait group, if it is this unit. The group must then be looked at.
    fn reopen_group(&mut self, group: usize, unit: UnitId)
        requires { AreShown self.old }
        ensures shown { AreShown self.new }
        ensures reopening { Reopens unit self.old self.new }
        ensures opened { of_group self.new.blockers.items group ≡ Some unit → ⊥ }
    {
        if group >= self.blockers.len() {
            return;
        }
        if self.blockers[group] == Some(unit) {
            self.blockers[group] = None;
            show_first(&mut self.keys, None, &self.members[group]);
        }
    }

    // Forgets the blocker of a command in no wait group, if it is this unit. The command must then
    // be looked at.
    fn reopen_row(&mut self, at: usize, unit: UnitId)
        requires { AreShown self.old }
        ensures shown { AreShown self.new }
        ensures reopening { Reopens unit self.old self.new }
        ensures opened { IsAlone self.new.rows.items at unit → ⊥ }
    {
        if at >= self.rows.len() {
            return;
        }
        let Some(note) = self.rows[at] else {
            return;
        };
        if note.blocker == Some(unit) {
            self.rows[at] = Some(WaitNote {
                blocker: None,
                ..note
            });
            self.keys.set(at, LOOK);
        }
    }

    // Forgets a unit as the blocker of an entry of its list.
    fn reopen_one(&mut self, what: Parked, unit: UnitId)
        requires { AreShown self.old }
        ensures shown { AreShown self.new }
        ensures reopening { Reopens unit self.old self.new }
        ensures opened { IsNotOf self.new.rows.items self.new.blockers.items unit what }
    {
        match what {
            Parked::Group(group) => self.reopen_group(group, unit),
            Parked::Row(at) => self.reopen_row(at, unit),
        }
    }

    // Forgets a unit as the blocker of each entry of its list.
    pub(crate) fn reopen(&mut self, parked: &[Parked], unit: UnitId)
        requires { AreShown self.old }
        ensures shown { AreShown self.new }
        ensures reopening { Reopens unit self.old self.new }
        ensures opened { (k : ℕ) (p : ParkedValue) → slice_get parked.now k ≡ Some p
            → IsNotOf self.new.rows.items self.new.blockers.items unit p }
    {
        for place in 0..parked.len() {
            self.reopen_one(parked[place], unit);
        }
    }
}

// Adds to the list of what a unit blocks. On error every list keeps what it has.
pub(crate) fn park(parked: &mut Lists, unit: UnitId, what: Parked) -> Result<(), NoMemory>
    ensures added { OnOk result (IsParked parked.new.entries unit what) }
    ensures kept { KeepParked parked.old.entries parked.new.entries }
{
    let none = Vec::new(*parked.allocator());
    parked.entry(unit)?.or_insert(none).push(what)?;
    Ok(())
}

// Adds a wait group to what a unit blocks, unless `blocker`, the group's blocker, is that unit.
pub(crate) fn park_group(
    parked: &mut Lists,
    group: usize,
    blocker: Option<UnitId>,
    unit: UnitId,
) -> Result<(), NoMemory>
    requires { blocker ≡ Some unit → IsParked parked.old.entries unit (OfGroup group) }
    ensures added { OnOk result (IsParked parked.new.entries unit (OfGroup group)) }
    ensures kept { KeepParked parked.old.entries parked.new.entries }
{
    if blocker == Some(unit) {
        return Ok(());
    }
    park(parked, unit, Parked::Group(group))
}
