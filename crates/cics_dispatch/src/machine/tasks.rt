//! The tasks of a region.

ghost use Rattle.std.specs.Prelude.{◌≡◌, ◌<◌, ℕ, [], ◌∷◌, ◌++◌, Some, None, length, slice_get};
ghost use Rattle.std.specs.Prelude.{unwrap_or, OnOk, OnErr, IfSome, IfNone};
ghost use Rattle.std.specs.Borrow.{sem};
ghost use Rattle.std.specs.Map.{values_of};
ghost use Rattle.cics_dispatch.specs.Machine.Machine.{Task as TaskValue, task_at, label_of, with_unit};
ghost use Rattle.cics_dispatch.specs.Machine.Steps.{new_task};
ghost use Rattle.cics_dispatch.specs.Machine.Tasks.{own_unit, IsOwn, HasNoOwner};
ghost use Rattle.cics_dispatch.specs.Machine.Tasks.{HasRoomForUnits, AreOwnersKept};
ghost use Rattle.cics_dispatch.specs.Machine.TasksLoans.{LendsBrowsesAt};
ghost use Rattle.cics_dispatch.specs.Machine.Calls.{OfTask, HasChanged};

use crate::machine::browses::Browses;
use crate::machine::task::Task;
use cics_history::UnitId;
use cics_names::{Name8, NoMemory};
use indexmap::IndexMap;
use std::alloc::Global;
use std::marker::Model;

/// The tasks of a region, in the order of attach, those that have ended included.
///
/// A task has an index, from 0 on, which stays. It is found by its label, and by its unit of work,
/// without a look at the others.
#[derive(Drop)]
pub struct Tasks {
    rows: IndexMap<Name8, Task>,
    // The index of each open unit's task. A unit that has ended stays, with None, until the map is
    // full. By the map's contract, removing an entry need not free room. Then the map is filled
    // anew. It has room for twice as many units as tasks, less one, so that is seldom.
    owners: IndexMap<UnitId, Option<usize>>,
    alloc: Global,
}

impl Model for Tasks {
    ghost use Rattle.std.specs.Prelude.{List};
    ghost use Rattle.std.specs.Map.{values_of};
    ghost use Rattle.cics_dispatch.specs.Machine.Machine.{Task as TaskValue};
    ghost use Rattle.cics_dispatch.specs.Machine.Tasks.{AreTaskRowsKept, AreOwnersKept};

    ghost Value = { List TaskValue };

    ghost view = { λ t. values_of t.rows.entries };

    ghost invariant = { λ t. AreTaskRowsKept t.rows.entries
        × AreOwnersKept (values_of t.rows.entries) t.owners };
}

// Fills `owners` anew, from the units of the tasks. Takes no memory.
fn enter_all(rows: &IndexMap<Name8, Task>, owners: &mut IndexMap<UnitId, Option<usize>>)
    requires units { IsOwn own_unit (values_of rows.now.entries) }
    requires room { HasRoomForUnits (values_of rows.now.entries) owners.old }
    ensures { AreOwnersKept (values_of rows.now.entries) owners.new }
{
    owners.clear();
    for at in 0..rows.len() {
        let Some(unit) = rows[at].unit() else {
            continue;
        };
        let Ok(_) = owners.insert(unit, Some(at)) else {
            unreachable!();
        };
    }
}

impl Tasks {
    /// Returns no tasks. `alloc` gives the memory for tasks and their browses.
    pub fn new(alloc: Global) -> Tasks
        ensures { result ≡ [] }
    {
        Tasks {
            rows: IndexMap::new(alloc),
            owners: IndexMap::new(alloc),
            alloc,
        }
    }

    /// Returns how many tasks were attached. That is less than `usize::MAX`.
    pub fn len(&self) -> usize
        ensures length { result ≡ length self.now }
        ensures fits { length self.now < 0xFFFFFFFFFFFFFFFF }
    {
        self.rows.len()
    }

    /// Begins a task, last of all. No task has its label. `dtimout` is the seconds that it may
    /// wait, 0 for no limit. Reserves room for its units too. On error no task begins.
    pub fn attach(&mut self, label: Name8, dtimout: u64) -> Result<(), NoMemory>
        requires { task_at self.old label ≡ None }
        ensures ok { OnOk result (self.new ≡ self.old ++ new_task label dtimout ∷ []) }
        ensures err { OnErr result (self.new ≡ self.old) }
    {
        let tasks = self.rows.len();
        let room = (tasks + tasks + 1).saturating_sub(self.owners.len());
        self.owners.reserve(room)?;
        let task = Task::new(self.alloc, label, dtimout);
        self.rows.insert(label, task)?;
        Ok(())
    }

    /// Returns the index of the task of a label, if there is one.
    pub fn find(&self, label: &Name8) -> Option<usize>
        ensures task { IfSome result (λ at. slice_get self.now at ≡ task_at self.now label.now) }
        ensures within { IfSome result (λ at. at < length self.now) }
        ensures none { IfNone result (task_at self.now label.now ≡ None) }
    {
        self.rows.get_index_of(label)
    }

    /// Returns the task at an index.
    pub fn get(&self, at: usize) -> &Task
        requires { at < length self.now }
        ensures { slice_get self.now at ≡ Some result.now }
    {
        &self.rows[at]
    }

    /// Returns the label of the task whose open unit of work this is, if it is a task's.
    pub fn label_of(&self, unit: UnitId) -> Option<Name8>
        ensures label { unwrap_or result [] ≡ label_of self.now unit }
        ensures none { IfNone result (HasNoOwner self.now unit) }
    {
        let at = (*self.owners.get(&unit)?)?;
        Some(self.get(at).label())
    }

    /// Gives the task at an index a unit, unless it has it already. No other task has it. Takes no
    /// memory.
    #[inline(always)]
    pub fn own_unit(&mut self, at: usize, unit: UnitId)
        requires within { at < length self.old }
        requires free { OfTask self.old at (λ t. t.unit ≡ None → HasNoOwner self.old unit) }
        requires own { (t : TaskValue) (u : ℕ) →
            slice_get self.old at ≡ Some t → t.unit ≡ Some u → u ≡ unit }
        ensures { HasChanged self.old at (λ t. with_unit t unit) self.new }
    {
        if self.rows[at].unit().is_some() {
            return;
        }
        self.rows[at].begin_unit(unit);
        // The unit is new, but that isn't known here. Nor is it known that an entry that replaces
        // another takes no room.
        if self.owners.len() == self.owners.capacity() || self.owners.contains_key(&unit) {
            enter_all(&self.rows, &mut self.owners);
            return;
        }
        let Ok(_) = self.owners.insert(unit, Some(at)) else {
            unreachable!();
        };
    }

    /// Takes the unit of the task at an index away, if it has one, and returns it. Ends all the
    /// task's browses, and if `has_ended` the task too. Takes no memory.
    pub fn close_unit(&mut self, at: usize, has_ended: bool) -> Option<UnitId>
        requires { at < length self.old }
        ensures unit { (t : TaskValue) → slice_get self.old at ≡ Some t → result ≡ t.unit }
        ensures task { HasChanged self.old at
            (λ t. record t { unit = None; browses = []; has_ended = has_ended }) self.new }
    {
        let unit = self.rows[at].close_unit(has_ended)?;
        let Some(owner) = self.owners.get_mut(&unit) else {
            unreachable!();
        };
        *owner = None;
        Some(unit)
    }

    /// Returns the browses of the task at an index, to be changed. The task isn't lent whole: its
    /// label and unit lead to its index, and must stay.
    pub fn browses_mut(&mut self, at: usize) -> &mut Browses
        requires { at < length self.old }
        ensures* writes_back { sem 𝓛 (LendsBrowsesAt self.entry at result) }
        ensures browses { OfTask self.old at (λ t. result.now ≡ t.browses) }
    {
        self.rows[at].browses_mut()
    }
}
