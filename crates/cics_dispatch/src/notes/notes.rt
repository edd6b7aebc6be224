//! What is known of the waiting commands: the blocker and the deadline of each.

ghost use Rattle.std.specs.Prelude.{◌≡◌, ◌<◌, ◌≤◌, [], ◌∷◌, ◌++◌, length, map, All, None, Some};
ghost use Rattle.std.specs.Prelude.{IfSome, IfNone, MatchOption, is_ok, IfOk};
ghost use Rattle.std.specs.Prelude.{true, false, if◌then◌else◌, slice_get, slice_set};
ghost use Rattle.cics_dispatch.specs.declared.notes.groups.WaitNote.{WaitNote as NoteValue};
ghost use Rattle.cics_dispatch.specs.Notes.Notes.{new_note, alone, in_group, count, of_group};
ghost use Rattle.cics_dispatch.specs.Notes.Notes.{AreClosed, IsFirstOpen, IsNoteAt};
ghost use Rattle.cics_dispatch.specs.Notes.Notes.{forgotten, given_up, never, without, without_deadline};
ghost use Rattle.cics_dispatch.specs.Notes.Notes.{KeepsResources, KeepsBlockers};
ghost use Rattle.cics_dispatch.specs.Notes.Filed.{has};
ghost use Rattle.cics_dispatch.specs.Notes.Firsts.{IsFirstBelow};

use crate::notes::firsts::{Firsts, push_each};
use crate::notes::groups::{Groups, LOOK, Lists, Parked, WAIT, WaitNote, park, park_group};
use cics_history::{Resource, UnitId};
use cics_names::{Name8, NoMemory};
use indexmap::{IndexMap, IndexSet};
use std::alloc::Global;
use std::collections::BTreeSet;
use std::marker::Model;

/// Notes of the earliest waiting commands, in the order in which the waits began.
///
/// A command's blocker is a unit that it must wait for, as long as that releases nothing. A command
/// whose blocker isn't known must be looked at. The commands of a wait group use the same one
/// resource and nothing else, and share their blocker.
///
/// On `NoMemory` all notes stay as they are.
///
/// Cost: O(log commands) to find the first command that must be looked at, to add a command, to
/// note its blocker, and to drop it. To forget a unit costs as much for each wait group, and each
/// command in none, that was noted as blocked by it.
#[derive(Drop)]
pub struct Notes {
    groups: Groups,
    // How many notes there are.
    count: usize,
    // The resource of each wait group.
    resources: IndexSet<Resource>,
    parked: Lists,
    // For each index the last clock at which the task hasn't waited too long. u64::MAX if the task
    // may wait without limit, or the command waits no more.
    deadlines: Firsts,
}

impl Model for Notes {
    ghost use Rattle.cics_dispatch.specs.Notes.Notes.{NotesValue};
    ghost use Rattle.cics_dispatch.specs.Notes.Filed.{IsFiled};

    ghost Value = { NotesValue };

    ghost view = { λ n. record {
      rows = n.groups.rows.items;
      resources = n.resources.keys;
      blockers = n.groups.blockers.items;
      deadlines = n.deadlines;
    } };

    ghost invariant = { λ n. IsFiled n.groups.rows.items n.count n.resources.keys
        n.groups.blockers.items n.groups.members.items n.parked.entries n.groups.keys };
}

impl Notes {
    /// Returns empty notes. `alloc` gives the memory for those to come.
    pub fn new(alloc: Global) -> Notes
        ensures rows { result.rows ≡ [] }
        ensures deadlines { result.deadlines ≡ [] }
    {
        Notes {
            groups: Groups {
                rows: Vec::new(alloc),
                blockers: Vec::new(alloc),
                members: Vec::new(alloc),
                keys: Firsts::new(alloc),
            },
            count: 0,
            resources: IndexSet::new(alloc),
            parked: IndexMap::new(alloc),
            deadlines: Firsts::new(alloc),
        }
    }

    /// Returns how many commands have a note.
    pub fn count(&self) -> usize
        ensures { result ≡ count self.now.rows }
    {
        self.count
    }

    /// Returns whether most indexes are of commands that wait no more. It is so if an eighth of the
    /// indexes is more than `waits`, the number of waiting commands, plus 1,000. To clear all notes
    /// and add them anew then costs little for each command that came and went.
    pub fn have_grown(&self, waits: usize) -> bool {
        self.groups.rows.len() / 8 > waits.saturating_add(1000)
    }

    /// Drops all notes and wait groups. Takes no memory.
    pub fn clear(&mut self)
        ensures rows { self.new.rows ≡ [] }
        ensures deadlines { self.new.deadlines ≡ [] }
    {
        self.groups.rows.clear();
        self.groups.blockers.clear();
        self.groups.members.clear();
        self.groups.keys.clear();
        self.count = 0;
        self.resources.clear();
        self.parked.clear();
        self.deadlines.clear();
    }

    /// Adds the note of a command of a label's task, last of all. The command must be looked at.
    /// `deadline` is the last clock at which the task hasn't waited too long.
    pub fn push(&mut self, label: Name8, deadline: u64) -> Result<(), NoMemory>
        ensures rows { self.new.rows ≡ (if is_ok result
            then self.old.rows ++ Some (new_note label) ∷ [] else self.old.rows) }
        ensures deadlines { self.new.deadlines ≡ (if is_ok result
            then self.old.deadlines ++ deadline ∷ [] else self.old.deadlines) }
        ensures resources { self.new.resources ≡ self.old.resources }
        ensures blockers { self.new.blockers ≡ self.old.blockers }
    {
        let Some(count) = self.count.checked_add(1) else {
            return Err(NoMemory);
        };
        self.groups.rows.reserve(1)?;
        push_each(&mut self.groups.keys, LOOK, &mut self.deadlines, deadline)?;
        self.groups.rows.push_reserved(Some(WaitNote {
            label,
            group: None,
            blocker: None,
        }));
        self.count = count;
        Ok(())
    }

    /// Returns the index and the note of the first command that must be looked at, if there is one.
    pub fn first_open(&mut self) -> Option<(usize, WaitNote)>
        ensures first { IfSome result (λ p. IsFirstOpen self.new p.0 p.1) }
        ensures none { IfNone result (AreClosed self.new.blockers self.new.rows) }
        ensures same { self.new ≡ self.old }
    {
        self.groups.first_open()
    }

    /// Returns the index of the first note whose deadline is below the clock `now`, if there is
    /// one: its task has waited too long.
    pub fn first_late(&self, now: u64) -> Option<usize>
        ensures { MatchOption result (All (λ key. now ≤ key) self.now.deadlines)
            (λ at. IsFirstBelow self.now.deadlines now at) }
    {
        self.deadlines.first_below(now)
    }

    /// Returns the label of the note at an index.
    pub fn label_at(&self, at: usize) -> Name8
        requires there { (n : NoteValue) × (slice_get self.now.rows at ≡ Some (Some n)) }
        ensures { (n : NoteValue) → slice_get self.now.rows at ≡ Some (Some n)
            → result ≡ n.label }
    {
        match self.groups.rows[at] {
            Some(note) => note.label,
            None => unreachable!(),
        }
    }

    /// Drops the note at an index, if one is given: its command waits no more. Takes no memory.
    pub fn remove_any(&mut self, at: Option<usize>)
        requires { IfSome at (IsNoteAt self.old) }
        ensures rows { self.new.rows ≡ without self.old.rows at }
        ensures deadlines { self.new.deadlines ≡ without_deadline self.old.deadlines at }
        ensures resources { self.new.resources ≡ self.old.resources }
        ensures blockers { self.new.blockers ≡ self.old.blockers }
    {
        let Some(at) = at else {
            return;
        };
        self.remove(at);
    }

    /// Drops the note at an index: its command waits no more. Takes no memory.
    pub fn remove(&mut self, at: usize)
        requires there { (n : NoteValue) × (slice_get self.old.rows at ≡ Some (Some n)) }
        requires timed { at < length self.old.deadlines }
        ensures rows { self.new.rows ≡ slice_set self.old.rows at None }
        ensures deadlines { self.new.deadlines ≡ slice_set self.old.deadlines at never }
        ensures resources { self.new.resources ≡ self.old.resources }
        ensures blockers { self.new.blockers ≡ self.old.blockers }
    {
        let Some(note) = self.groups.rows[at] else {
            unreachable!();
        };
        self.groups.leave(at, &note);
        self.groups.rows[at] = None;
        self.count -= 1;
        self.deadlines.set(at, u64::MAX);
    }

    /// Forgets a unit, if one is given, as a blocker: it may have released something. The commands
    /// that it blocked must then be looked at again. Returns false only if it blocked none. Takes
    /// no memory.
    pub fn forget(&mut self, unit: Option<UnitId>) -> bool
        ensures rows { self.new.rows ≡ map (forgotten unit) self.old.rows }
        ensures blockers { self.new.blockers ≡ map (given_up unit) self.old.blockers }
        ensures none { result ≡ false → (self.new.rows ≡ self.old.rows)
            × (self.new.blockers ≡ self.old.blockers) }
        ensures resources { self.new.resources ≡ self.old.resources }
        ensures deadlines { self.new.deadlines ≡ self.old.deadlines }
    {
        let Some(unit) = unit else {
            return false;
        };
        let Some(parked) = self.parked.swap_remove(&unit) else {
            return false;
        };
        self.groups.reopen(parked.as_slice(), unit);
        true
    }

    /// Returns the index of the wait group of a resource. Adds the group, without a command, if
    /// there is none.
    pub fn group_of(&mut self, resource: Resource) -> Result<usize, NoMemory>
        ensures group { IfOk result (λ g. slice_get self.new.resources g ≡ Some resource) }
        ensures within { IfOk result (λ g. g < length self.new.blockers) }
        ensures rows { self.new.rows ≡ self.old.rows }
        ensures resources { KeepsResources self.old.resources self.new.resources }
        ensures blockers { KeepsBlockers self.old.blockers self.new.blockers }
        ensures deadlines { self.new.deadlines ≡ self.old.deadlines }
    {
        self.groups.blockers.reserve(1)?;
        self.groups.members.reserve(1)?;
        let (group, is_new) = self.resources.insert_full(resource)?;
        if is_new {
            let members = BTreeSet::new(*self.parked.allocator());
            self.groups.blockers.push_reserved(None);
            self.groups.members.push_reserved(members);
        }
        Ok(group)
    }

    /// Returns whether a wait group is that of a resource.
    pub fn is_group_of(&self, group: usize, resource: &Resource) -> bool
        ensures { slice_get self.now.resources group ≡ Some resource.now → result ≡ true }
    {
        match self.resources.get_index(group) {
            Some(own) => own == resource,
            None => false,
        }
    }

    /// Returns the blocker of a wait group, if it is known.
    pub fn group_blocker(&self, group: usize) -> Option<UnitId>
        requires { group < length self.now.blockers }
        ensures { result ≡ of_group self.now.blockers group }
    {
        self.groups.blockers[group]
    }

    /// Notes a unit as the blocker of the command of the note at an index, which leaves its wait
    /// group, if it is in one.
    pub fn set_alone(&mut self, at: usize, note: &WaitNote, unit: UnitId) -> Result<(), NoMemory>
        requires there { slice_get self.old.rows at ≡ Some (Some note.now) }
        ensures rows { self.new.rows ≡ (if is_ok result
            then slice_set self.old.rows at (Some (alone unit note.now)) else self.old.rows) }
        ensures resources { self.new.resources ≡ self.old.resources }
        ensures deadlines { self.new.deadlines ≡ self.old.deadlines }
        ensures blockers { self.new.blockers ≡ self.old.blockers }
    {
        park(&mut self.parked, unit, Parked::Row(at))?;
        self.groups.leave(at, note);
        self.groups.rows[at] = Some(WaitNote {
            label: note.label,
            group: None,
            blocker: Some(unit),
        });
        Ok(())
    }

    /// Notes a unit as the blocker of a wait group, and puts the command of the note at an index
    /// into the group. That command is in no other group.
    pub fn close(
        &mut self,
        at: usize,
        note: &WaitNote,
        group: usize,
        unit: UnitId,
    ) -> Result<(), NoMemory>
        requires there { slice_get self.old.rows at ≡ Some (Some note.now) }
        requires within { group < length self.old.blockers }
        requires only { IfSome note.now.group (λ g. g ≡ group) }
        ensures rows { self.new.rows ≡ (if is_ok result
            then slice_set self.old.rows at (Some (in_group group note.now)) else self.old.rows) }
        ensures blockers { self.new.blockers ≡ (if is_ok result
            then slice_set self.old.blockers group (Some unit) else self.old.blockers) }
        ensures resources { self.new.resources ≡ self.old.resources }
        ensures deadlines { self.new.deadlines ≡ self.old.deadlines }
    {
        park_group(&mut self.parked, group, self.groups.blockers[group], unit)?;
        self.groups.members[group].insert(at)?;
        self.groups.blockers[group] = Some(unit);
        self.groups.rows[at] = Some(WaitNote {
            label: note.label,
            group: Some(group),
            blocker: None,
        });
        self.groups.keys.set(at, WAIT);
        Ok(())
    }
}
