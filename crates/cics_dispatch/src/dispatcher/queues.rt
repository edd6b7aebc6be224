//! Temporary storage and transient data of the tasks of a region: their checks, and READQ TS.

ghost use Rattle.std.specs.Prelude.{◌≡◌, ◌<◌, length};
ghost use Rattle.cics_names.specs.Commands.{length_of};
ghost use Rattle.cics_dispatch.specs.Machine.Checks.{queue_reason, other_reason};
ghost use Rattle.cics_dispatch.specs.Machine.Calls.{IsAwake, IsStepOrRefused, reading_item};

use crate::dispatcher::Dispatcher;
use crate::machine::{Outcome, Reason, item_reason, reply_of_item, value_reason};
use cics_names::{Command, Name4, Name8, NoMemory, Verb};

impl Dispatcher {
    // Returns the check that fails if a transient data queue isn't defined.
    fn queue_reason(&self, queue: &Name4) -> Option<Reason>
        ensures { result ≡ queue_reason self.now.machine queue.now }
    {
        match self.units.td_recovery(queue) {
            Some(_) => None,
            None => Some(Reason::QueueNotDefined),
        }
    }

    // Returns the first check that fails of a command that names no file.
    pub(super) fn other_reason(&self, verb: &Verb) -> Option<Reason>
        ensures { result ≡ other_reason self.now.machine verb.now }
    {
        match verb {
            Verb::WriteqTs { from, length, .. } => item_reason(from.bytes(), *length),
            Verb::WriteqTd {
                queue,
                from,
                length,
            } => match self.queue_reason(queue) {
                Some(reason) => Some(reason),
                None => item_reason(from.bytes(), *length),
            },
            Verb::ReadqTd { queue, .. } | Verb::DeleteqTd { queue } => self.queue_reason(queue),
            _ => value_reason(verb),
        }
    }

    // Executes READQ TS.
    pub(super) fn read_item(
        &mut self,
        at: usize,
        queue: &Name8,
        command: &Command,
        item: Option<u64>,
    ) -> Result<Outcome, NoMemory>
        requires within { at < length self.old.machine.tasks }
        requires awake { IsAwake self.old.machine at }
        ensures step { IsStepOrRefused self.old at
            (reading_item self.old.machine command.now.resp queue.now
            (length_of command.now.verb) item) result self.new }
    {
        let limit = command.verb.length();
        let answer = self.units.read_ts(queue, item)?;
        Ok(self.answer(at, command.resp, reply_of_item(answer, limit)))
    }
}
