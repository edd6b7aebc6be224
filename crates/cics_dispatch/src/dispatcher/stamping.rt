//! The stamp of a region: bytes that tell all of its future.

ghost use Rattle.std.specs.Prelude.{◌≡◌, ◌++◌, OnOk};
ghost use Rattle.cics_names.specs.Stamps.{option_stamp, list_stamp};
ghost use Rattle.cics_history.specs.Stamps.{unit_stamp};
ghost use Rattle.cics_dispatch.specs.Machine.Stamps.{task_stamp, wait_stamp, region_stamp};

use crate::dispatcher::Dispatcher;
use crate::machine::{Suspended, Task, Tasks, Waits};
use cics_history::{UnitId, stamp_op};
use cics_names::{NoMemory, stamp_flag, stamp_number, stamp_text};
use cics_units::{OpRef, Units};

// Appends the stamp of a task's unit, if it has one.
fn stamp_unit(units: &Units, unit: Option<UnitId>, out: &mut Vec<u8>) -> Result<(), NoMemory>
    ensures { OnOk result (out.new.items
        ≡ out.old.items ++ option_stamp (unit_stamp units.now.state) unit) }
{
    let Some(unit) = unit else {
        return stamp_number(out, 0);
    };
    stamp_number(out, 1)?;
    units.stamp_unit(unit, out)
}

// Appends the stamp of a task.
#[tactic(auto, unfolding(crate::specs::Machine::Stamps::task_stamp))]
fn stamp_task(units: &Units, task: &Task, out: &mut Vec<u8>) -> Result<(), NoMemory>
    ensures { OnOk result (out.new.items
        ≡ out.old.items ++ task_stamp units.now.state task.now) }
{
    stamp_text(out, &task.label().bytes())?;
    stamp_number(out, task.dtimout())?;
    stamp_flag(out, task.has_ended())?;
    stamp_unit(units, task.unit(), out)?;
    task.browses().stamp(out)
}

// Appends the stamp of all tasks, in the order of attach.
fn stamp_tasks(units: &Units, tasks: &Tasks, out: &mut Vec<u8>) -> Result<(), NoMemory>
    ensures { OnOk result (out.new.items
        ≡ out.old.items ++ list_stamp (task_stamp units.now.state) tasks.now) }
{
    for at in 0..tasks.len() {
        stamp_number(out, 1)?;
        stamp_task(units, tasks.get(at), out)?;
    }
    stamp_number(out, 0)
}

// Appends the stamp of a waiting command.
#[tactic(auto, unfolding(crate::specs::Machine::Stamps::wait_stamp))]
fn stamp_wait(wait: &Suspended, out: &mut Vec<u8>) -> Result<(), NoMemory>
    ensures { OnOk result (out.new.items ≡ out.old.items ++ wait_stamp wait.now) }
{
    stamp_text(out, &wait.label().bytes())?;
    stamp_number(out, wait.since())?;
    let Some(op) = wait.op() else {
        return stamp_number(out, 0);
    };
    stamp_number(out, 1)?;
    stamp_op(&OpRef::of(op), out)
}

// Appends the stamp of all waiting commands, in the order in which the waits began.
fn stamp_waits(waits: &Waits, out: &mut Vec<u8>) -> Result<(), NoMemory>
    ensures { OnOk result (out.new.items ≡ out.old.items ++ list_stamp wait_stamp waits.now) }
{
    for wait in waits.iter() {
        stamp_number(out, 1)?;
        stamp_wait(wait, out)?;
    }
    stamp_number(out, 0)
}

impl Dispatcher {
    /// Appends the stamp of the region, as `Region::stamp` does.
    #[tactic(auto, unfolding(crate::specs::Machine::Stamps::region_stamp))]
    pub(crate) fn stamp(&self, out: &mut Vec<u8>) -> Result<(), NoMemory>
        ensures { OnOk result (out.new.items ≡ out.old.items ++ region_stamp self.now.machine) }
    {
        stamp_tasks(&self.units, &self.tasks, out)?;
        stamp_waits(&self.waits, out)?;
        stamp_number(out, self.clock)?;
        stamp_flag(out, self.is_down)?;
        self.units.stamp_shared(out)
    }
}
