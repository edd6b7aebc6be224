//! A task.

ghost use Rattle.std.specs.Prelude.{◌≡◌, [], None};
ghost use Rattle.std.specs.Borrow.{sem};
ghost use Rattle.cics_dispatch.specs.Machine.Machine.{with_unit};
ghost use Rattle.cics_dispatch.specs.Machine.Deadlines.{deadline_of};
ghost use Rattle.cics_dispatch.specs.Machine.Steps.{new_task};
ghost use Rattle.cics_dispatch.specs.Machine.TaskLoans.{LendsBrowses};

use crate::machine::browses::Browses;
use cics_history::UnitId;
use cics_names::Name8;
use std::alloc::Global;
use std::marker::Model;

/// A task: its label, how long it may wait, its open unit of work, its browses, and whether it has
/// ended.
#[derive(Drop)]
pub struct Task {
    label: Name8,
    dtimout: u64,
    unit: Option<UnitId>,
    browses: Browses,
    has_ended: bool,
}

impl Model for Task {
    ghost use Rattle.cics_dispatch.specs.Machine.Machine.{Task as TaskValue};

    ghost Value = { TaskValue };

    ghost view = { λ t. record {
      label = t.label;
      dtimout = t.dtimout;
      unit = t.unit;
      browses = t.browses;
      has_ended = t.has_ended;
    } };
}

impl Task {
    /// Returns a task without a unit or a browse. `alloc` gives the memory for its browses.
    /// `dtimout` is the seconds that it may wait, 0 for no limit.
    pub fn new(alloc: Global, label: Name8, dtimout: u64) -> Task
        ensures { result ≡ new_task label dtimout }
    {
        Task {
            label,
            dtimout,
            unit: None,
            browses: Browses::new(alloc),
            has_ended: false,
        }
    }

    /// Returns its label.
    pub fn label(&self) -> Name8
        ensures { result ≡ self.now.label }
    {
        self.label
    }

    /// Returns the seconds that it may wait, 0 for no limit.
    pub fn dtimout(&self) -> u64
        ensures { result ≡ self.now.dtimout }
    {
        self.dtimout
    }

    /// Returns the last clock, in seconds, at which a wait of it that began at `since` isn't too
    /// long: `since + dtimout - 1`, or `u64::MAX` if that is less or the task may wait without
    /// limit.
    pub fn deadline(&self, since: u64) -> u64
        ensures { result ≡ deadline_of self.now since }
    {
        match self.dtimout.checked_sub(1) {
            Some(seconds) => since.saturating_add(seconds),
            None => u64::MAX,
        }
    }

    /// Returns its open unit of work, if it has one.
    pub fn unit(&self) -> Option<UnitId>
        ensures { result ≡ self.now.unit }
    {
        self.unit
    }

    /// Returns whether it has ended.
    pub fn has_ended(&self) -> bool
        ensures { result ≡ self.now.has_ended }
    {
        self.has_ended
    }

    /// Returns its browses.
    pub fn browses(&self) -> &Browses
        ensures { result.now ≡ self.now.browses }
    {
        &self.browses
    }

    /// Returns its browses, to be changed.
    pub fn browses_mut(&mut self) -> &mut Browses
        ensures* writes_back { sem 𝓛 (LendsBrowses self.entry result) }
        ensures browses { result.now ≡ self.old.browses }
    {
        &mut self.browses
    }

    /// Gives it a unit.
    pub fn begin_unit(&mut self, unit: UnitId)
        ensures { self.new ≡ with_unit self.old unit }
    {
        self.unit = Some(unit);
    }

    /// Takes its unit away, if it has one, and returns it. Ends all its browses, and if `has_ended`
    /// the task too.
    pub fn close_unit(&mut self, has_ended: bool) -> Option<UnitId>
        ensures unit { result ≡ self.old.unit }
        ensures task { self.new
            ≡ record self.old { unit = None; browses = []; has_ended = has_ended } }
    {
        let unit = self.unit;
        self.unit = None;
        self.browses.end_all();
        self.has_ended = has_ended;
        unit
    }
}
