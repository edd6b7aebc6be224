//! The end of a region: SHUTDOWN IMMEDIATE.

ghost use Rattle.std.specs.Prelude.{◌≡◌, ℕ, [], None, Ok, false, slice_get};
ghost use Rattle.cics_history.specs.Events.{is_live};
ghost use Rattle.cics_dispatch.specs.Machine.Machine.{Task as TaskValue};
ghost use Rattle.cics_dispatch.specs.Machine.Steps.{with_outcome};
ghost use Rattle.cics_dispatch.specs.Machine.Shutdown.{units_of, all_ended, shut_down};
ghost use Rattle.cics_dispatch.specs.Machine.Calls.{KeepsRegion};

use crate::dispatcher::Dispatcher;
use crate::machine::{UnitEnding, Waits};

impl Dispatcher {
    // Ends each task, in the order of attach, and backs its unit out. Returns how many units there
    // were.
    fn end_tasks(&mut self) -> u64
        requires alone { self.old.machine.waiting ≡ [] }
        ensures machine { self.new.machine ≡ all_ended self.old.machine self.old.machine.tasks }
        ensures count { result ≡ units_of self.old.machine.tasks }
        ensures none { (i : ℕ) (t : TaskValue) →
            slice_get self.new.machine.tasks i ≡ Some t → t.unit ≡ None }
        ensures kept { KeepsRegion self.old self.new }
    {
        let mut count = 0;
        for at in 0..self.tasks.len() {
            if self.tasks.get(at).unit().is_some() {
                count += 1;
            }
            self.close(at, UnitEnding::Backout, true);
        }
        count
    }

    /// Shuts the region down, and returns how many units were backed out: SHUTDOWN IMMEDIATE. Takes
    /// no memory.
    pub fn shut_down(&mut self) -> u64
        ensures machine { with_outcome (Ok result) self.new.machine ≡ shut_down self.old.machine }
        ensures none_open { (u : ℕ) → is_live self.new.machine.units u ≡ false }
        ensures kept { KeepsRegion self.old self.new }
    {
        self.waits = Waits::new(self.alloc);
        let count = self.end_tasks();
        self.is_down = true;
        count
    }
}
