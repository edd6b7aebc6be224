//! The events of a region: a request or a turn of draining as one call.

ghost use Rattle.std.specs.Prelude.{◌≡◌, ◌&&◌, if◌then◌else◌, None, IsTrue, IfOk, OnOk, OnErr};
ghost use Rattle.cics_dispatch.specs.Machine.Answers.{IsHeadlineRegion, IsSerializableRegion};
ghost use Rattle.cics_dispatch.specs.Machine.Events.{played, may_want_memory, IsTurn};
ghost use Rattle.cics_dispatch.specs.Machine.Events.{IsAsBeforeIfRefused};
ghost use Rattle.cics_dispatch.specs.Words.{goes_on};
ghost use Rattle.cics_dispatch.specs.declared.machine.events.Event.TheVariants.{Refused as RefusedEvent};
ghost use Rattle.cics_dispatch.specs.declared.machine.outcomes.Refused.TheVariants.{NoMemory as Wanting};

use crate::machine::{Event, Outcome, Refused, Request, Subject};
use crate::regions::Region;
use cics_history::UnitId;
use cics_names::NoMemory;

// Returns the unit of a command's task if the command may have released something of it. A command
// releases nothing if its verb `keeps` what the unit owns and its task hasn't ended.
fn giving_up(keeps: bool, outcome: &Outcome, unit: Option<UnitId>) -> Option<UnitId>
    ensures { result ≡ (if keeps && goes_on outcome.now then None else unit) }
{
    if !keeps {
        return unit;
    }
    match outcome {
        Outcome::Replied(_) | Outcome::Waiting(_) => None,
        Outcome::Abended(_, _) | Outcome::Ended => unit,
    }
}

// Returns the event of a refused request.
fn refused(subject: Subject, refusal: Refused) -> Result<Event, NoMemory>
    ensures event { IfOk result (λ event. event ≡ RefusedEvent subject refusal) }
    ensures other { OnOk result (refusal ≡ Wanting → ⊥) }
    ensures memory { OnErr result (refusal ≡ Wanting) }
{
    match refusal {
        Refused::NoMemory => Err(NoMemory),
        _ => Ok(Event::Refused(subject, refusal)),
    }
}

impl Region {
    /// Plays a request: attaches a task, sets the clock, issues a command, or shuts the region
    /// down. Returns its event. That of a command names the first check that failed, if one did.
    ///
    /// Errors: `NoMemory`, which changes nothing. Any other refusal is an event, and is that of
    /// `attach`, `set_clock`, `issue` or `shutdown`.
    #[inline(always)]
    pub fn play(&mut self, request: Request) -> Result<Event, NoMemory>
        ensures played { IfOk result (λ event. (event ≡ (played self.old.machine request).event)
            × (self.new.machine ≡ (played self.old.machine request).machine)) }
        ensures refused { IfOk result (IsAsBeforeIfRefused self.old self.new) }
        ensures err { OnErr result (self.new ≡ self.old) }
        ensures memory { OnErr result (IsTrue (may_want_memory self.old.machine request)) }
        ensures headline { IsHeadlineRegion self.new }
        ensures serializable { IsSerializableRegion self.new }
    {
        match request {
            Request::Attach {
                label,
                transaction,
                dtimout,
            } => match self.attach(label, transaction, dtimout) {
                Ok(()) => Ok(Event::Attached(label, transaction)),
                Err(refusal) => refused(Subject::Task(label), refusal),
            },
            Request::Clock(seconds) => match self.set_clock(seconds) {
                Ok(()) => Ok(Event::ClockSet(seconds)),
                Err(refusal) => refused(Subject::Clock, refusal),
            },
            Request::Issue(label, command) => {
                // First of all: after a shutdown a label is told nothing else, not even `NoTask`.
                if let Err(refusal) = self.refuse_if_down() {
                    return refused(Subject::Task(label), refusal);
                }
                let Some(at) = self.dispatcher.find(&label) else {
                    return refused(Subject::Task(label), Refused::NoTask);
                };
                let unit = self.dispatcher.unit_at(at);
                let keeps = self.dispatcher.is_keeping(&command.verb);
                let mut reason = None;
                match self.dispatcher.issue(at, label, command, &mut reason) {
                    Ok(outcome) => {
                        let was_blocker = self.notes.forget(giving_up(keeps, &outcome, unit));
                        let waits = self.dispatcher.is_waiting(&label);
                        // It doesn't wait, and released nothing that another waits for.
                        self.is_settled &= !was_blocker & !waits;
                        Ok(Event::Issued(label, outcome, reason))
                    }
                    Err(refusal) => refused(Subject::Task(label), refusal),
                }
            }
            Request::Shutdown => match self.shutdown() {
                Ok(units) => Ok(Event::ShutDown(units)),
                Err(refusal) => refused(Subject::Shutdown, refusal),
            },
        }
    }

    /// Takes one turn of draining: resumes the earliest waiting command that no longer has to wait,
    /// or else abends the first task that has waited too long. Returns its event, or `None` if
    /// neither applies.
    ///
    /// Errors: `NoMemory`, which changes nothing.
    ///
    /// Cost: that of `wake` and `expire`.
    pub fn drain_step(&mut self) -> Result<Option<Event>, NoMemory>
        ensures turn { IfOk result (λ told. IsTurn self.old.machine told self.new.machine) }
        ensures err { OnErr result (self.new ≡ self.old) }
        ensures headline { IsHeadlineRegion self.new }
        ensures serializable { IsSerializableRegion self.new }
    {
        match self.wake() {
            Ok(Some(woken)) => Ok(Some(Event::Woken(woken))),
            Ok(None) => match self.expire() {
                Some(expired) => Ok(Some(Event::Expired(expired))),
                None => Ok(None),
            },
            Err(_) => Err(NoMemory),
        }
    }
}
