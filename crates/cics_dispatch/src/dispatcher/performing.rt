//! The commands of the tasks of a region: issued, checked, and performed once the checks passed.

ghost use Rattle.std.specs.Prelude.{◌≡◌, ◌<◌, true, false, None, is_some, length, slice_get};
ghost use Rattle.std.specs.Prelude.{IsTrue, IfOk, OnErr};
ghost use Rattle.cics_names.specs.Commands.{file_named};
ghost use Rattle.cics_dispatch.specs.Machine.Machine.{task_at};
ghost use Rattle.cics_dispatch.specs.Machine.Checks.{reason_for};
ghost use Rattle.cics_dispatch.specs.Machine.Steps.{code_of, issued};
ghost use Rattle.cics_dispatch.specs.Machine.Answers.{is_growing, may_want, IsStep};
ghost use Rattle.cics_dispatch.specs.Machine.Calls.{MayPerform, KeepsRegion};
ghost use Rattle.cics_dispatch.specs.Machine.Calls.{IsStepOrRefused, going_on, reads_or_unlocks};

use crate::dispatcher::Dispatcher;
use crate::machine::{
    Attempt, BrowseStart, Direction, Outcome, Reason, Refused, UnitEnding, plain_reply, refill,
    take, take_op,
};
use cics_names::{AbendCode, Command, Condition, Name4, Name8, NoMemory, Verb};

// Returns the code of an ABEND: four question marks if it gives none.
fn abend_code(code: Option<Name4>) -> AbendCode
    ensures { result ≡ code_of code }
{
    match code {
        Some(code) => AbendCode(code),
        None => match Name4::new(b"????") {
            Ok(code) => AbendCode(code),
            Err(_) => unreachable!(),
        },
    }
}

impl Dispatcher {
    // Executes a command of the task at an index that names a file and asks for no updating
    // command.
    #[inline(never)]
    fn perform_on_file(&mut self, at: usize, command: Command) -> Result<Outcome, NoMemory>
        requires within { at < length self.old.machine.tasks }
        requires may { MayPerform self.old.machine at command.verb }
        requires named { is_some (file_named command.verb) ≡ true }
        ensures step { IsStepOrRefused self.old at
            (going_on self.old.machine command None) result self.new }
        ensures growing { OnErr result (IsTrue (is_growing command.verb)) }
    {
        let resp = command.resp;
        match &command.verb {
            Verb::Read { file, .. } => self.read(at, file, &command),
            Verb::Unlock { file } => Ok(self.unlock(at, resp, file)),
            _ => self.perform_on_browse(at, command),
        }
    }

    // Executes a command of the task at an index that begins, moves or ends a browse. Answers
    // INVREQ to any other that names a file.
    #[inline(never)]
    fn perform_on_browse(&mut self, at: usize, mut command: Command) -> Result<Outcome, NoMemory>
        requires within { at < length self.old.machine.tasks }
        requires may { MayPerform self.old.machine at command.verb }
        requires named { is_some (file_named command.verb) ≡ true }
        requires other { reads_or_unlocks command.verb ≡ false }
        ensures step { IsStepOrRefused self.old at
            (going_on self.old.machine command None) result self.new }
        ensures growing { OnErr result (IsTrue (is_growing command.verb)) }
    {
        let resp = command.resp;
        let alloc = self.alloc;
        match &mut command.verb {
            Verb::StartBr {
                file,
                ridfld: key,
                generic,
                equal,
                ..
            } => {
                let start = BrowseStart {
                    key: take(alloc, key),
                    generic: *generic,
                    equal: *equal,
                };
                self.start_browse(at, resp, *file, start)
            }
            Verb::ResetBr {
                file,
                ridfld: key,
                generic,
                equal,
                ..
            } => {
                let start = BrowseStart {
                    key: take(alloc, key),
                    generic: *generic,
                    equal: *equal,
                };
                Ok(self.reset_browse(at, resp, file, start))
            }
            Verb::ReadNext { file, .. } => self.read_on(at, *file, &command, Direction::Forward),
            Verb::ReadPrev { file, .. } => self.read_on(at, *file, &command, Direction::Back),
            Verb::EndBr { file } => Ok(self.end_browse(at, resp, file)),
            _ => Ok(self.answer(at, resp, plain_reply(Condition::Invreq))),
        }
    }

    // Executes a command of the task at an index that names no file and asks for no updating
    // command.
    #[inline(never)]
    fn perform_on_no_file(&mut self, at: usize, command: Command) -> Result<Outcome, NoMemory>
        requires within { at < length self.old.machine.tasks }
        requires may { MayPerform self.old.machine at command.verb }
        requires named { is_some (file_named command.verb) ≡ false }
        ensures step { IsStepOrRefused self.old at
            (going_on self.old.machine command None) result self.new }
        ensures growing { OnErr result (IsTrue (is_growing command.verb)) }
    {
        if let Verb::Enq { .. } = &command.verb {
            return self.enqueue(at, command);
        }
        let resp = command.resp;
        match &command.verb {
            Verb::ReadqTs { queue, item, .. } => self.read_item(at, queue, &command, *item),
            Verb::Deq { resource, length } => {
                Ok(self.dequeue(at, resp, &resource.bytes()[..*length as usize]))
            }
            Verb::Syncpoint => {
                self.close(at, UnitEnding::Commit, false);
                Ok(Outcome::Replied(plain_reply(Condition::Normal)))
            }
            Verb::Rollback => {
                self.close(at, UnitEnding::Backout, false);
                Ok(Outcome::Replied(plain_reply(Condition::Normal)))
            }
            Verb::Return => {
                self.close(at, UnitEnding::Commit, true);
                Ok(Outcome::Ended)
            }
            Verb::Abend { code } => {
                self.abend(at);
                Ok(Outcome::Abended(abend_code(*code), None))
            }
            _ => Ok(self.answer(at, resp, plain_reply(Condition::Invreq))),
        }
    }

    /// Issues a command of the task of a label, which is at an index: it is answered, or it
    /// waits, or its task ends. Writes `reason` if a check of the command fails.
    ///
    /// Errors, in this order: `TaskEnded`, `TaskWaiting`, and once the command's checks have passed
    /// `NoMemory`.
    pub fn issue(
        &mut self,
        at: usize,
        label: Name8,
        mut command: Command,
        reason: &mut Option<Reason>,
    ) -> Result<Outcome, Refused>
        requires task { slice_get self.old.machine.tasks at ≡ task_at self.old.machine.tasks label }
        requires within { at < length self.old.machine.tasks }
        requires blank { reason.old ≡ None }
        ensures step { IsStep (may_want self.old.machine label command) self.old
            (issued self.old.machine label command) result self.new }
        ensures reason { IfOk result (λ _. reason.new
            ≡ reason_for self.old.machine label command.verb) }
        ensures kept { KeepsRegion self.old self.new }
    {
        if self.tasks.get(at).has_ended() {
            return Err(Refused::TaskEnded);
        }
        if self.waits.is_waiting(&label) {
            return Err(Refused::TaskWaiting);
        }
        let open_key = self.open_key(at, &command.verb);
        if let Some(failed) = self.failed_check(at, &command.verb, open_key) {
            *reason = Some(failed);
            return Ok(self.answer(at, command.resp, plain_reply(failed.condition())));
        }
        let Some(op) = take_op(self.alloc, &mut command.verb, open_key)? else {
            if command.verb.file().is_some() {
                return Ok(self.perform_on_file(at, command)?);
            }
            return Ok(self.perform_on_no_file(at, command)?);
        };
        match self.execute(at, &command, op)? {
            Attempt::Told(outcome) => Ok(outcome),
            Attempt::MustWait(holder, op) => {
                let command = refill(self.alloc, command, &op)?;
                Ok(self.make_wait(at, command, op, holder)?)
            }
        }
    }
}
