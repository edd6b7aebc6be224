//! ENQ and DEQ of the tasks of a region.

ghost use Rattle.std.specs.Prelude.{◌≡◌, ◌<◌, ◌≤◌, None, length};
ghost use Rattle.cics_names.specs.declared.conditions.Condition.TheVariants.{Normal};
ghost use Rattle.cics_history.specs.Execution.{IsOpenOrNone};
ghost use Rattle.cics_dispatch.specs.Machine.Replies.{plain};
ghost use Rattle.cics_dispatch.specs.Machine.Steps.{answered, dequeued, units_dequeued};
ghost use Rattle.cics_dispatch.specs.Machine.Calls.{IsAwake, HasReady, IsStepOf, IsStepOrRefused};
ghost use Rattle.cics_dispatch.specs.Machine.Calls.{IsAttempt, going_on};
ghost use Rattle.cics_dispatch.specs.Machine.Regions.{ArePromised};

use crate::dispatcher::Dispatcher;
use crate::machine::{Attempt, Outcome, plain_reply};
use cics_history::UnitId;
use cics_names::{Command, Condition, NoMemory, Verb};
use cics_units::{Enqueued, Units};

// Releases a value once for a unit, if there is one.
fn free_value(units: &mut Units, unit: Option<UnitId>, value: &[u8])
    requires is_open { IsOpenOrNone units.old.state unit }
    requires most { length value.now ≤ 255 }
    requires promised { ArePromised units.old }
    ensures state { units.new.state ≡ units_dequeued units.old.state unit value.now }
    ensures promised { ArePromised units.new }
{
    let Some(unit) = unit else {
        return;
    };
    units.deq(unit, value);
}

impl Dispatcher {
    // Acquires the value of an ENQ of the task at an index, unless another unit owns it.
    pub(super) fn take_value(&mut self, at: usize, command: &Command) -> Result<Attempt, NoMemory>
        requires within { at < length self.old.machine.tasks }
        requires awake { IsAwake self.old.machine at }
        requires ready { HasReady self.old.machine at command.now.verb None }
        ensures attempt { IsAttempt self.old at command.now None result self.new }
    {
        let Verb::Enq {
            resource,
            length,
            ..
        } = &command.verb
        else {
            unreachable!();
        };
        let unit = self.tasks.get(at).unit();
        match self.units.enq(unit, &resource.bytes()[..*length as usize])? {
            Enqueued::MustWait(holder) => Ok(Attempt::MustWait(holder, None)),
            Enqueued::CountFull => {
                let reply = plain_reply(Condition::Invreq);
                Ok(Attempt::Told(self.answer(at, command.resp, reply)))
            }
            Enqueued::Taken(unit) => {
                self.tasks.own_unit(at, unit);
                let reply = plain_reply(Condition::Normal);
                Ok(Attempt::Told(self.answer(at, command.resp, reply)))
            }
        }
    }

    // Executes ENQ.
    pub(super) fn enqueue(&mut self, at: usize, command: Command) -> Result<Outcome, NoMemory>
        requires within { at < length self.old.machine.tasks }
        requires awake { IsAwake self.old.machine at }
        requires ready { HasReady self.old.machine at command.verb None }
        ensures step { IsStepOrRefused self.old at
            (going_on self.old.machine command None) result self.new }
    {
        match self.take_value(at, &command)? {
            Attempt::Told(outcome) => Ok(outcome),
            Attempt::MustWait(holder, op) => self.make_wait(at, command, op, holder),
        }
    }

    // Executes DEQ of a value.
    pub(super) fn dequeue(&mut self, at: usize, resp: bool, value: &[u8]) -> Outcome
        requires within { at < length self.old.machine.tasks }
        requires awake { IsAwake self.old.machine at }
        requires most { length value.now ≤ 255 }
        ensures step { IsStepOf self.old at
            (λ t. answered (dequeued self.old.machine t.unit value.now) t resp (plain Normal))
            result self.new }
    {
        let unit = self.tasks.get(at).unit();
        free_value(&mut self.units, unit, value);
        self.answer(at, resp, plain_reply(Condition::Normal))
    }
}
