//! The parts of a region, and its steps.
//!
//! This file has what several steps share: the checks, the end of a unit, an answer, a wait,
//! an updating command. `performing` issues commands. `browsing`, `enqueuing` and `queues` execute
//! those on files, values and queues that ask for no updating command. `waking` resumes waiting
//! commands and times tasks out. `blocking`, `listing`, `shutdown` and `stamping` have the other
//! calls.

mod blocking;
mod browsing;
mod enqueuing;
mod listing;
mod performing;
mod queues;
mod shutdown;
mod stamping;
mod waking;

ghost use Rattle.std.specs.Prelude.{◌≡◌, ◌<◌, ◌≤◌, true, false, Option, Some, None, length, IfOk};
ghost use Rattle.std.specs.Prelude.{slice_get, IfErr, IfSome, IfNone, Result, Ok, Err};
ghost use Rattle.std.specs.Option.{option_copied};
ghost use Rattle.cics_names.specs.declared.commands.Verb.{Verb as VerbValue};
ghost use Rattle.cics_dispatch.specs.Words.{task_ended, definition_of, RegionValue};
ghost use Rattle.cics_dispatch.specs.Words.{initial_region, task_at, abended, is_waiting};
ghost use Rattle.cics_dispatch.specs.Words.{unit_closed, state_after, reason_of, IsOpenUnit};
ghost use Rattle.cics_dispatch.specs.Words.{key_of, answered, attached, busy_of};
ghost use Rattle.cics_dispatch.specs.Words.{key_read, op_of, clock_set};
ghost use Rattle.cics_dispatch.specs.Words.{file_recoverable, IsRegionKept};
ghost use Rattle.cics_dispatch.specs.Words.{is_keeping, unit_of, IsStep, attach_may_want};
ghost use Rattle.cics_dispatch.specs.Words.{file_named, OfTask, IsAwake, HasReady};
ghost use Rattle.cics_dispatch.specs.Words.{KeepsRegion, IsStepOf, IsStepOrRefused, IsAttempt};
ghost use Rattle.cics_dispatch.specs.Words.{waiting_for, AreToldAlike, is_key};

use crate::machine::{
    Attempt, Outcome, Reason, Refused, Reply, Tasks, UnitEnding, Waits, file_reason, plain_reply,
    reply_of_answer,
};
use cics_history::UnitId;
use cics_ksds::FileDef;
use cics_names::{Command, Condition, Name4, Name8, NoMemory, Verb};
use cics_units::{Op, Opening, Submitted, Units};
use std::alloc::Global;
use std::marker::Model;

/// The parts of a region: its tasks, their waiting commands, and the files, queues and units of
/// work that they share.
///
/// Each call that changes it is a step of the region's machine: it returns the step's outcome, and
/// leaves its state. On error nothing changes. `Region` has calls of the same names, refuses them
/// after a shutdown, and remembers what looks at waits found.
#[derive(Drop)]
pub(crate) struct Dispatcher {
    units: Units,
    tasks: Tasks,
    waits: Waits,
    clock: u64,
    is_down: bool,
    alloc: Global,
}

impl Model for Dispatcher {
    ghost use Rattle.cics_dispatch.specs.Machine.Machine.{RegionValue};
    ghost use Rattle.cics_dispatch.specs.Machine.Regions.{region_of, IsRegionKept};

    ghost Value = { RegionValue };

    ghost view = { λ r. region_of r.units r.tasks r.waits r.clock r.is_down };

    ghost invariant = { λ r. IsRegionKept (region_of r.units r.tasks r.waits r.clock r.is_down) };
}

// Returns the condition that answers a command with NOSUSPEND in place of a wait.
fn busy_condition(verb: &Verb) -> Option<Condition>
    ensures { result ≡ busy_of verb.now }
{
    match verb {
        Verb::ReadqTd { nosuspend, .. } => nosuspend.then_some(Condition::Qbusy),
        Verb::Enq { nosuspend, .. } => nosuspend.then_some(Condition::Enqbusy),
        _ => None,
    }
}

impl Dispatcher {
    /// Returns the region of an opening, as `Region::new` does.
    pub fn new(opening: Opening) -> Result<Dispatcher, Opening>
        ensures machine { IfOk result (λ region. region.machine ≡ initial_region opening) }
        ensures kept { IfOk result IsRegionKept }
        ensures err { IfErr result (λ back. back ≡ opening) }
    {
        let alloc = opening.allocator();
        let units = Units::start(opening)?;
        Ok(Dispatcher {
            units,
            tasks: Tasks::new(alloc),
            waits: Waits::new(alloc),
            clock: 0,
            is_down: false,
            alloc,
        })
    }

    /// Returns whether the region is shut down.
    pub(crate) fn is_down(&self) -> bool
        ensures { result ≡ self.now.machine.is_down }
    {
        self.is_down
    }

    /// Returns whether a command of a label's task waits.
    pub(crate) fn is_waiting(&self, label: &Name8) -> bool
        ensures { result ≡ is_waiting self.now.machine.waiting label.now }
    {
        self.waits.is_waiting(label)
    }

    /// Returns the index of the task of a label, if there is one.
    pub(crate) fn find(&self, label: &Name8) -> Option<usize>
        ensures task { IfSome result (λ at. slice_get self.now.machine.tasks at
            ≡ task_at self.now.machine.tasks label.now) }
        ensures within { IfSome result (λ at. at < length self.now.machine.tasks) }
        ensures none { IfNone result (task_at self.now.machine.tasks label.now ≡ None) }
    {
        self.tasks.find(label)
    }

    /// Returns the open unit of work of the task of a label, if there is one.
    pub(crate) fn unit_of(&self, label: &Name8) -> Option<UnitId>
        ensures { result ≡ unit_of self.now.machine label.now }
    {
        let at = self.find(label)?;
        self.unit_at(at)
    }

    /// Returns the open unit of work of the task at an index, if there is one.
    pub(crate) fn unit_at(&self, at: usize) -> Option<UnitId>
        requires within { at < length self.now.machine.tasks }
        ensures unit { OfTask self.now.machine.tasks at (λ t. result ≡ t.unit) }
    {
        self.tasks.get(at).unit()
    }

    /// Returns whether the task of a label has ended. `false` if no task has the label.
    pub(crate) fn has_ended(&self, label: &Name8) -> bool
        ensures { result ≡ task_ended self.now.machine label.now }
    {
        match self.find(label) {
            Some(at) => self.tasks.get(at).has_ended(),
            None => false,
        }
    }

    /// Returns true only if a command releases nothing of its task's unit, unless the task is
    /// abended.
    pub(crate) fn is_keeping(&self, verb: &Verb) -> bool
        ensures { result ≡ is_keeping self.now.machine.units.opening verb.now }
    {
        match verb {
            Verb::Read { .. }
            | Verb::Write { .. }
            | Verb::StartBr { .. }
            | Verb::ResetBr { .. }
            | Verb::ReadNext { .. }
            | Verb::ReadPrev { .. }
            | Verb::EndBr { .. }
            | Verb::WriteqTs { .. }
            | Verb::ReadqTs { .. }
            | Verb::DeleteqTs { .. }
            | Verb::WriteqTd { .. }
            | Verb::ReadqTd { .. }
            | Verb::DeleteqTd { .. }
            | Verb::Enq { .. } => true,
            Verb::Rewrite { file, .. } | Verb::Delete { file, .. } | Verb::Unlock { file } => {
                self.is_recoverable(file)
            }
            _ => false,
        }
    }

    // Returns whether a file is defined and recoverable.
    fn is_recoverable(&self, name: &Name8) -> bool
        ensures { result ≡ file_recoverable self.now.machine.units.opening name.now }
    {
        match self.definition(name) {
            Some(definition) => definition.recoverable,
            None => false,
        }
    }

    /// Begins the task of a label: ATTACH.
    ///
    /// Errors, in this order: `DuplicateLabel` if a task has or had the label, and `NoMemory`.
    pub fn attach(&mut self, label: Name8, _transaction: Name4, dtimout: u64) -> Result<(), Refused>
        ensures step { IsStep (attach_may_want self.old.machine label) self.old
            (attached self.old.machine label dtimout) result self.new }
        ensures kept { KeepsRegion self.old self.new }
    {
        if self.tasks.find(&label).is_some() {
            return Err(Refused::DuplicateLabel);
        }
        self.tasks.attach(label, dtimout)?;
        Ok(())
    }

    /// Sets the clock to `now`, in seconds.
    ///
    /// Errors: `ClockBack` if the clock would go back.
    pub fn set_clock(&mut self, now: u64) -> Result<(), Refused>
        ensures step { IsStep false self.old (clock_set self.old.machine now) result self.new }
        ensures kept { KeepsRegion self.old self.new }
    {
        if now < self.clock {
            return Err(Refused::ClockBack);
        }
        self.clock = now;
        Ok(())
    }

    // Returns the key of the record that the task at an index has read for update in a command's
    // file, if there is one.
    fn open_key(&self, at: usize, verb: &Verb) -> Option<&[u8]>
        requires within { at < length self.now.machine.tasks }
        ensures key { OfTask self.now.machine.tasks at
            (λ t. option_copied result ≡ key_read self.now.machine t (file_named verb.now)) }
        ensures most { IfSome result (λ key. length key.now ≤ 255) }
    {
        let file = verb.file()?;
        let unit = self.tasks.get(at).unit()?;
        self.units.open_read(unit, file)
    }

    // Returns the definition of a file, if it is defined. It is lawful: its keys have at most 255
    // bytes.
    fn definition(&self, name: &Name8) -> Option<FileDef>
        ensures definition { result ≡ definition_of self.now.machine name.now }
        ensures lawful { IfSome result (λ d. is_key d ≡ true) }
    {
        let file = self.units.file(name)?;
        Some(file.definition())
    }

    // Returns the first check that fails of a command of the task at an index. `open_key` is the
    // key of the task's open update read of the command's file.
    #[inline(never)]
    fn failed_check(&self, at: usize, verb: &Verb, open_key: Option<&[u8]>) -> Option<Reason>
        requires within { at < length self.now.machine.tasks }
        requires key { OfTask self.now.machine.tasks at
            (λ t. option_copied open_key ≡ key_read self.now.machine t (file_named verb.now)) }
        requires most { IfSome open_key (λ key. length key.now ≤ 255) }
        ensures reason { OfTask self.now.machine.tasks at
            (λ t. result ≡ reason_of self.now.machine t verb.now) }
        ensures short { IfNone result (OfTask self.now.machine.tasks at
            (λ t. IfSome (op_of self.now.machine t verb.now) (λ o. length (key_of o) ≤ 255))) }
    {
        let Some(name) = verb.file() else {
            return self.other_reason(verb);
        };
        let Some(definition) = self.definition(name) else {
            return Some(Reason::FileNotDefined);
        };
        let browse = self.tasks.get(at).browses().get(name);
        file_reason(definition, open_key, browse, verb)
    }

    // Ends the unit of the task at an index and its browses, and if `has_ended` the task too.
    fn close(&mut self, at: usize, ending: UnitEnding, has_ended: bool)
        requires within { at < length self.old.machine.tasks }
        requires awake { IsAwake self.old.machine at }
        ensures machine { OfTask self.old.machine.tasks at
            (λ t. self.new.machine
            ≡ unit_closed self.old.machine t (state_after ending) has_ended) }
        ensures kept { KeepsRegion self.old self.new }
    {
        let Some(unit) = self.tasks.close_unit(at, has_ended) else {
            return;
        };
        match ending {
            UnitEnding::Commit => self.units.commit(unit),
            UnitEnding::Backout => self.units.back_out(unit),
        }
    }

    // Abends the task at an index: its unit is backed out, its wait ends, and so does the task.
    fn abend(&mut self, at: usize)
        requires within { at < length self.old.machine.tasks }
        ensures machine { OfTask self.old.machine.tasks at
            (λ t. self.new.machine ≡ abended self.old.machine t) }
        ensures kept { KeepsRegion self.old self.new }
    {
        let label = self.tasks.get(at).label();
        self.waits.remove(&label);
        self.close(at, UnitEnding::Backout, true);
    }

    // Answers a command of the task at an index, or abends the task for a condition that nothing
    // handles.
    fn answer(&mut self, at: usize, resp: bool, reply: Reply) -> Outcome
        requires within { at < length self.old.machine.tasks }
        ensures step { IsStepOf self.old at
            (λ t. answered self.old.machine t resp reply) result self.new }
    {
        match reply.condition.default_abend() {
            Some(code) if !resp => {
                self.abend(at);
                Outcome::Abended(code, Some(reply))
            }
            _ => Outcome::Replied(reply),
        }
    }

    // Makes a command of the task at an index wait, last of all, for the open unit `holder`. It
    // answers the command QBUSY or ENQBUSY if that has NOSUSPEND. `op` is the command's updating
    // command, if it has one.
    #[cold]
    fn make_wait(
        &mut self,
        at: usize,
        command: Command,
        op: Option<Op>,
        holder: UnitId,
    ) -> Result<Outcome, NoMemory>
        requires within { at < length self.old.machine.tasks }
        requires awake { IsAwake self.old.machine at }
        requires ready { HasReady self.old.machine at command.verb op }
        requires is_open { IsOpenUnit self.old.machine.units holder }
        ensures step { IsStepOrRefused self.old at
            (waiting_for self.old.machine command op holder) result self.new }
    {
        if let Some(busy) = busy_condition(&command.verb) {
            return Ok(self.answer(at, command.resp, plain_reply(busy)));
        }
        let label = self.tasks.get(at).label();
        let Some(owner) = self.tasks.label_of(holder) else {
            unreachable!();
        };
        self.waits.begin(label, command, op, self.clock)?;
        Ok(Outcome::Waiting(owner))
    }

    // Executes the updating command that `command` of the task at an index asks for, or returns it
    // if it must wait. `command` may lack the key and FROM that `op` was given.
    fn execute(&mut self, at: usize, command: &Command, op: Op) -> Result<Attempt, NoMemory>
        requires within { at < length self.old.machine.tasks }
        requires awake { IsAwake self.old.machine at }
        requires ready { HasReady self.old.machine at command.now.verb (Some op) }
        ensures attempt { (verb : VerbValue) → AreToldAlike command.now.verb verb
            → IsAttempt self.old at (record command.now { verb = verb }) (Some op) result self.new }
    {
        let unit = self.tasks.get(at).unit();
        match self.units.submit(unit, op)? {
            Submitted::MustWait(holder, op) => Ok(Attempt::MustWait(holder, Some(op))),
            Submitted::Answered(unit, answer) => {
                self.tasks.own_unit(at, unit);
                let reply = reply_of_answer(answer, &command.verb);
                Ok(Attempt::Told(self.answer(at, command.resp, reply)))
            }
        }
    }
}
