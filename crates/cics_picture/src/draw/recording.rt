//! What a line of a script leads to, kept for its rows.

ghost use Rattle.std.specs.Prelude.{◌≡◌, List, ℕ, IfOk};
ghost use Rattle.cics_run.specs.Stage.Journal.{event_text};
ghost use Rattle.cics_run.specs.Stage.Journal.{line as line_of};
ghost use Rattle.cics_picture.specs.Draw.Recording.{outcome_kind, woken_kind, kind_of};
ghost use Rattle.cics_picture.specs.Draw.Recording.{answered_as, marked_kind};
ghost use Rattle.cics_picture.specs.Draw.Recording.{refused_task, task_of, blocker_in, told_of};
ghost use Rattle.cics_picture.specs.Draw.Recording.{fault_told, told_fault, gives_data, given_by};
ghost use Rattle.cics_picture.specs.Draw.Recording.{recorded_in, nothing_recorded};

use crate::draw::notes::note_of;
use crate::{RowKind, Told};
use cics_dispatch::{Event, Outcome, Region, Request, Subject};
use cics_names::{Condition, Name8, NoMemory, Record, Verb};
use cics_run::stage::journal::{push_event, push_fault};
use cics_run::stage::{Fault, Observer};
use std::alloc::Global;

/// What a read was given.
#[derive(Drop)]
pub struct Given {
    /// The key of the record, if the command didn't name it.
    pub key: Option<Record>,
}

/// Keeps what the rows of a line tell, and what its read was given.
#[derive(Drop)]
pub struct Recorder {
    /// What the row of each event tells, and that of a fault.
    pub told: Vec<Told>,
    /// What the line's command was given, if that is data.
    pub given: Option<Given>,
    /// The kind of the answer NORMAL to what the line asks.
    pub normal: RowKind,
}

fn outcome_kind(outcome: &Outcome) -> RowKind
    ensures { result ≡ outcome_kind outcome.now }
{
    match outcome {
        Outcome::Replied(reply) if reply.condition == Condition::Normal => RowKind::Normal,
        Outcome::Replied(_) => RowKind::Condition,
        Outcome::Waiting(_) => RowKind::Waiting,
        Outcome::Abended(_, _) => RowKind::Abended,
        Outcome::Ended => RowKind::Ended,
    }
}

// Returns the kind of a waiting command's outcome.
fn woken_kind(kind: RowKind) -> RowKind
    ensures { result ≡ woken_kind kind }
{
    match kind {
        RowKind::Normal => RowKind::Woken,
        other => other,
    }
}

/// Returns the kind of an event.
pub fn kind_of(event: &Event) -> RowKind
    ensures { result ≡ kind_of event.now }
{
    match event {
        Event::Attached(_, _) => RowKind::Attached,
        Event::Issued(_, outcome, _) => outcome_kind(outcome),
        Event::Woken(woken) => woken_kind(outcome_kind(&woken.outcome)),
        Event::Expired(_) => RowKind::Abended,
        Event::ClockSet(_) => RowKind::Clock,
        Event::ShutDown(_) => RowKind::Down,
        Event::Refused(_, _) => RowKind::Refused,
    }
}

// Returns the kind of the answer NORMAL to a request: SYNCPOINT and ROLLBACK have kinds of their own.
fn answered_as(request: &Request) -> RowKind
    ensures { result ≡ answered_as request.now }
{
    match request {
        Request::Issue(_, command) => match command.verb {
            Verb::Syncpoint => RowKind::Committed,
            Verb::Rollback => RowKind::BackedOut,
            _ => RowKind::Normal,
        },
        _ => RowKind::Normal,
    }
}

// Returns the kind of a row, by that of its event and that of the answer NORMAL.
fn marked_kind(normal: RowKind, kind: RowKind) -> RowKind
    ensures { result ≡ marked_kind normal kind }
{
    match kind {
        RowKind::Normal => normal,
        other => other,
    }
}

// Returns the task for which a request was refused, if it was for one.
fn refused_task(subject: Subject) -> Option<Name8>
    ensures { result ≡ refused_task subject }
{
    match subject {
        Subject::Task(label) => Some(label),
        Subject::Clock | Subject::Shutdown => None,
    }
}

fn task_of(event: &Event) -> Option<Name8>
    ensures { result ≡ task_of event.now }
{
    match event {
        Event::Attached(label, _) | Event::Issued(label, _, _) => Some(*label),
        Event::Woken(woken) => Some(woken.label),
        Event::Expired(expired) => Some(expired.label),
        Event::Refused(subject, _) => refused_task(*subject),
        Event::ClockSet(_) | Event::ShutDown(_) => None,
    }
}

// Returns the task that an event names as the blocker.
fn blocker_in(event: &Event) -> Option<Name8>
    ensures { result ≡ blocker_in event.now }
{
    match event {
        Event::Issued(_, Outcome::Waiting(holder), _) => Some(*holder),
        _ => None,
    }
}

// Returns a line of the journal without its LF.
fn without_lf(line: Vec<u8>) -> Record
    ensures { (text : List ℕ) → line.items ≡ line_of text → result ≡ text }
{
    let len = line.len();
    Record::new(line).first(len.saturating_sub(1))
}

/// Returns the line that an event prints, without its LF.
pub fn text_of(alloc: Global, event: &Event) -> Result<Record, NoMemory>
    ensures { IfOk result (λ text. text ≡ event_text event.now) }
{
    let mut line = Vec::new(alloc);
    push_event(&mut line, event)?;
    Ok(without_lf(line))
}

// Returns what the row of an event tells. `normal` is the kind of the answer NORMAL.
fn told_of(alloc: Global, normal: RowKind, event: &Event) -> Result<Told, NoMemory>
    ensures { IfOk result (λ told. told ≡ told_of normal event.now) }
{
    Ok(Told {
        kind: marked_kind(normal, kind_of(event)),
        task: task_of(event),
        blocker: blocker_in(event),
        text: text_of(alloc, event)?,
        note: note_of(alloc, event)?,
    })
}

/// Returns the line that a fault of the script's line with this number prints, without its LF.
pub fn fault_text(alloc: Global, number: u64, fault: Fault) -> Result<Record, NoMemory>
    ensures { IfOk result (λ text. text ≡ told_fault number fault) }
{
    let mut line = Vec::new(alloc);
    push_fault(&mut line, number, fault)?;
    Ok(without_lf(line))
}

// Returns what the row of a fault tells, of the script's line with this number.
fn fault_told(alloc: Global, number: u64, fault: Fault) -> Result<Told, NoMemory>
    ensures { IfOk result (λ told. told ≡ fault_told number fault) }
{
    Ok(Told {
        kind: RowKind::Down,
        task: None,
        blocker: None,
        text: fault_text(alloc, number, fault)?,
        note: Record::new(Vec::new(alloc)),
    })
}

// Returns whether a read gives data with a condition.
fn gives_data(condition: Condition) -> bool
    ensures { result ≡ gives_data condition }
{
    matches!(condition, Condition::Normal | Condition::Lengerr)
}

// Returns another key with the same bytes, if there is one.
fn copy_of(key: &Option<Record>) -> Result<Option<Record>, NoMemory>
    ensures { IfOk result (λ copy. copy ≡ key.now) }
{
    match key {
        Some(key) => Ok(Some(key.copy()?)),
        None => Ok(None),
    }
}

// Returns what a command was given as it was issued, if that is data.
fn given_by(event: &Event) -> Result<Option<Given>, NoMemory>
    ensures { IfOk result (λ given. given ≡ given_by event.now) }
{
    match event {
        Event::Issued(_, Outcome::Replied(reply), _) if gives_data(reply.condition) => {
            Ok(Some(Given {
                key: copy_of(&reply.key)?,
            }))
        }
        _ => Ok(None),
    }
}

impl Recorder {
    /// Returns a recorder before a line.
    pub fn new(alloc: Global) -> Recorder
        ensures { recorded_in result ≡ nothing_recorded }
    {
        Recorder {
            told: Vec::new(alloc),
            given: None,
            normal: RowKind::Normal,
        }
    }
}

impl Observer for Recorder {
    ghost use Rattle.cics_picture.specs.Draw.Recording.{Recorded, recorded_in, recorder_sight};

    ghost Seen = { Recorded };

    ghost seen = { recorded_in };

    ghost sight = { recorder_sight };

    fn sees_requests(&self) -> bool {
        true
    }

    fn see_request(
        &mut self,
        _number: u64,
        request: &Request,
        _region: &Region,
    ) -> Result<(), NoMemory> {
        self.normal = answered_as(request);
        Ok(())
    }

    fn see(&mut self, _number: u64, event: &Event, _region: &Region) -> Result<(), NoMemory> {
        if let Some(given) = given_by(event)? {
            self.given = Some(given);
        }
        let told = told_of(*self.told.allocator(), self.normal, event)?;
        self.told.push(told)?;
        Ok(())
    }

    fn see_fault(&mut self, number: u64, fault: Fault) -> Result<(), NoMemory> {
        let told = fault_told(*self.told.allocator(), number, fault)?;
        self.told.push(told)?;
        Ok(())
    }
}
