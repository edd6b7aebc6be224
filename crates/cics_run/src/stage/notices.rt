//! Which events of a run are told to a person at its end.

ghost use Rattle.std.specs.Prelude.{◌≡◌, OnOk};
ghost use Rattle.cics_run.specs.Stage.Notices.{raised_by, noted_abend, noted_late, noted_refusal};
ghost use Rattle.cics_run.specs.Stage.Notices.{noted_on, with_notice};
ghost use Rattle.cics_run.specs.Stage.Notices.{is_undefined, names_undefined};

use crate::stage::amiss::is_time_out;
use cics_dispatch::{Event, Outcome, Reason, Refused, Subject};
use cics_names::{AbendCode, Condition, Name4, Name8, NoMemory};

/// Which events are told beside those of any run: abends by a condition, commands of no task, and
/// names that aren't defined.
#[derive(Clone, Copy, PartialEq, Eq)]
pub struct Scope {
    /// Every event that is amiss.
    pub strict: bool,
    /// Conditions that their tasks handle.
    pub why: bool,
}

/// A condition that came up, and the check that failed, if one did.
#[derive(Clone, Copy, PartialEq, Eq)]
pub struct Raised {
    pub condition: Condition,
    pub reason: Option<Reason>,
}

/// What is told of an event.
#[derive(Clone, Copy, PartialEq, Eq)]
pub enum Notice {
    /// A condition came up as a task issued the line's command.
    Issued(Raised),
    /// A condition came up as the waiting command of a task resumed.
    Resumed(Name8, Condition),
    /// A task was abended with the code of a time-out.
    TimedOut(Name8),
    /// A request of a task was refused.
    Refused(Name8, Refused),
    /// A command of temporary storage has the name of this queue of transient data. Only a check
    /// notes it.
    Meant(Name4),
    /// The clock was refused.
    ClockRefused(Refused),
    /// The shutdown was refused.
    ShutdownRefused(Refused),
}

// Returns the condition of a command's outcome, if it is another than NORMAL.
fn raised_by(outcome: &Outcome) -> Option<Condition>
    ensures { result ≡ raised_by outcome.now }
{
    match outcome {
        Outcome::Replied(reply) => match reply.condition {
            Condition::Normal => None,
            condition => Some(condition),
        },
        Outcome::Abended(_, Some(reply)) => Some(reply.condition),
        _ => None,
    }
}

// Returns the notice on an abend without a condition.
fn noted_abend(scope: Scope, label: Name8, code: AbendCode) -> Option<Notice>
    ensures { result ≡ noted_abend scope label code }
{
    if scope.strict && is_time_out(code) {
        Some(Notice::TimedOut(label))
    } else {
        None
    }
}

// Returns the notice on an outcome without a condition.
fn noted_late(scope: Scope, label: Name8, outcome: &Outcome) -> Option<Notice>
    ensures { result ≡ noted_late scope label outcome.now }
{
    match outcome {
        Outcome::Abended(code, None) => noted_abend(scope, label, *code),
        _ => None,
    }
}

// Returns the notice on a refused request, if it is told.
fn noted_refusal(scope: Scope, subject: Subject, refusal: Refused) -> Option<Notice>
    ensures { result ≡ noted_refusal scope subject refusal }
{
    if !scope.strict && !matches!(refusal, Refused::NoTask) {
        return None;
    }
    Some(match subject {
        Subject::Task(label) => Notice::Refused(label, refusal),
        Subject::Clock => Notice::ClockRefused(refusal),
        Subject::Shutdown => Notice::ShutdownRefused(refusal),
    })
}

// Returns what is told of an event that is amiss, or of one of a run with `why`.
fn noted_on(scope: Scope, event: &Event) -> Option<Notice>
    ensures { result ≡ noted_on scope event.now }
{
    match event {
        Event::Issued(label, outcome, reason) => match raised_by(outcome) {
            Some(condition) => Some(Notice::Issued(Raised {
                condition,
                reason: *reason,
            })),
            None => noted_late(scope, *label, outcome),
        },
        Event::Woken(woken) => match raised_by(&woken.outcome) {
            Some(condition) => Some(Notice::Resumed(woken.label, condition)),
            None => noted_late(scope, woken.label, &woken.outcome),
        },
        Event::Expired(expired) => noted_abend(scope, expired.label, expired.code),
        Event::Refused(subject, refusal) => noted_refusal(scope, *subject, *refusal),
        Event::Attached(_, _) | Event::ClockSet(_) | Event::ShutDown(_) => None,
    }
}

// Returns whether a check failed since a file or a queue of transient data isn't defined.
fn is_undefined(reason: &Option<Reason>) -> bool
    ensures { result ≡ is_undefined reason.now }
{
    matches!(
        reason,
        Some(Reason::FileNotDefined | Reason::QueueNotDefined)
    )
}

/// Returns whether a command names a file or a queue of transient data that isn't defined.
pub fn names_undefined(event: &Event) -> bool
    ensures { result ≡ names_undefined event.now }
{
    match event {
        Event::Issued(_, _, reason) => is_undefined(reason),
        _ => false,
    }
}

/// Adds what is told of an event that is amiss, of a name that isn't defined, or of a run with
/// `why`:
///
/// - always an abend by a condition, a command of no task, and a name that isn't defined;
/// - with `strict` any other refused request, and an abend with the code of a time-out;
/// - with `why` also a condition other than NORMAL that a task handles.
#[cold]
pub fn push_noted(notices: &mut Vec<Notice>, scope: Scope, event: &Event) -> Result<(), NoMemory>
    ensures { OnOk result (notices.new.items ≡ with_notice notices.old.items (noted_on scope event.now)) }
{
    if let Some(notice) = noted_on(scope, event) {
        notices.push(notice)?;
    }
    Ok(())
}
