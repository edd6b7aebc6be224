//! The lines of the journal: the only text of events. Each public call appends one, and its only
//! error is `NoMemory`.

ghost use Rattle.std.specs.Prelude.{◌≡◌, ◌++◌, OnOk};
ghost use Rattle.std.specs.Option.{option_copied};
ghost use Rattle.cics_run.specs.Stage.Journal.{numbered, condition_text, part, number_part, reply_text};
ghost use Rattle.cics_run.specs.Stage.Journal.{abend_text, outcome_text, issued_text, outcome_line};
ghost use Rattle.cics_run.specs.Stage.Journal.{refusal_title, subject_text, define_title};
ghost use Rattle.cics_run.specs.Stage.Journal.{event_text, event_line, fault_text, fault_line};
ghost use Rattle.cics_run.specs.Stage.Journal.{script_line};

use crate::stage::Fault;
use cics_dispatch::{Event, Number, Outcome, Refused, Reply, Subject};
use cics_names::{AbendCode, Condition, Name8, NoMemory, Record};
use cics_script::spelling::{push_bare, push_name, push_number, push_str, push_text};
use cics_units::DefineFault;

/// Appends a line of the script, which its journal lines follow.
pub fn push_script_line(out: &mut Vec<u8>, line: &[u8]) -> Result<(), NoMemory>
    ensures { OnOk result (out.new.items ≡ out.old.items ++ script_line line.now) }
{
    push_str(out, "> ")?;
    out.extend_from_slice(line)?;
    push_str(out, "\n")
}

/// Appends the line of an event.
#[inline(always)]
pub fn push_event(out: &mut Vec<u8>, event: &Event) -> Result<(), NoMemory>
    ensures { OnOk result (out.new.items ≡ out.old.items ++ event_line event.now) }
{
    push_event_text(out, event)?;
    push_str(out, "\n")
}

/// Appends the line of a command that was issued, with its outcome.
pub fn push_outcome(out: &mut Vec<u8>, label: Name8, outcome: &Outcome) -> Result<(), NoMemory>
    ensures { OnOk result (out.new.items ≡ out.old.items ++ outcome_line label outcome.now) }
{
    push_issued(out, label, outcome)?;
    push_str(out, "\n")
}

/// Appends the line of a fault, of the script's line with this number.
#[cold]
pub fn push_fault(out: &mut Vec<u8>, number: u64, fault: Fault) -> Result<(), NoMemory>
    ensures { OnOk result (out.new.items ≡ out.old.items ++ fault_line number fault) }
{
    push_str(out, "LINE ")?;
    push_number(out, number)?;
    push_fault_text(out, fault)?;
    push_str(out, "\n")
}

fn push_fault_text(out: &mut Vec<u8>, fault: Fault) -> Result<(), NoMemory>
    ensures { OnOk result (out.new.items ≡ out.old.items ++ fault_text fault) }
{
    match fault {
        Fault::Line(fault) => {
            push_str(out, " FAULT ")?;
            push_numbered(out, fault.number(), fault.name())
        }
        Fault::Definition(fault) => {
            push_str(out, " DEFINE ")?;
            push_numbered(out, fault.number(), define_title(fault))
        }
    }
}

#[inline(always)]
fn push_event_text(out: &mut Vec<u8>, event: &Event) -> Result<(), NoMemory>
    ensures { OnOk result (out.new.items ≡ out.old.items ++ event_text event.now) }
{
    match event {
        Event::Issued(label, outcome, _) => push_issued(out, *label, outcome),
        Event::Attached(label, transaction) => {
            push_bare(out, &label.bytes())?;
            push_str(out, " ATTACHED ")?;
            push_name(out, &transaction.bytes())
        }
        Event::Woken(woken) => {
            push_bare(out, &woken.label.bytes())?;
            push_str(out, " WOKEN ")?;
            push_what_came(out, &woken.outcome)
        }
        Event::Expired(expired) => {
            push_bare(out, &expired.label.bytes())?;
            push_str(out, " ")?;
            push_abend(out, expired.code, None)
        }
        Event::ClockSet(seconds) => {
            push_str(out, "CLOCK ")?;
            push_number(out, *seconds)
        }
        Event::ShutDown(units) => {
            push_str(out, "SHUTDOWN ")?;
            push_number(out, *units)
        }
        Event::Refused(subject, refusal) => {
            push_subject(out, *subject)?;
            push_str(out, " REFUSED ")?;
            push_numbered(out, refusal.number(), refusal_title(*refusal))
        }
    }
}

// Appends a task and the outcome of a command that it issued.
#[inline(always)]
fn push_issued(out: &mut Vec<u8>, label: Name8, outcome: &Outcome) -> Result<(), NoMemory>
    ensures { OnOk result (out.new.items ≡ out.old.items ++ issued_text label outcome.now) }
{
    push_bare(out, &label.bytes())?;
    push_str(out, " ")?;
    push_what_came(out, outcome)
}

fn push_subject(out: &mut Vec<u8>, subject: Subject) -> Result<(), NoMemory>
    ensures { OnOk result (out.new.items ≡ out.old.items ++ subject_text subject) }
{
    match subject {
        Subject::Task(label) => push_bare(out, &label.bytes()),
        Subject::Clock => push_str(out, "CLOCK"),
        Subject::Shutdown => push_str(out, "SHUTDOWN"),
    }
}

// Appends a number and its name.
fn push_numbered(out: &mut Vec<u8>, number: u64, title: &str) -> Result<(), NoMemory>
    ensures { OnOk result (out.new.items ≡ out.old.items ++ numbered number title.now) }
{
    push_number(out, number)?;
    push_str(out, " ")?;
    push_str(out, title)
}

fn push_condition(out: &mut Vec<u8>, condition: Condition) -> Result<(), NoMemory>
    ensures { OnOk result (out.new.items ≡ out.old.items ++ condition_text condition) }
{
    // Most conditions are this one.
    if let Condition::Normal = condition {
        return push_str(out, "NORMAL 0");
    }
    push_str(out, condition.name())?;
    push_str(out, " ")?;
    push_number(out, condition.number())
}

fn push_part(out: &mut Vec<u8>, title: &str, bytes: &Option<Record>) -> Result<(), NoMemory>
    ensures { OnOk result (out.new.items ≡ out.old.items ++ part title.now bytes.now) }
{
    if let Some(bytes) = bytes {
        push_str(out, title)?;
        push_text(out, bytes.bytes())?;
    }
    Ok(())
}

fn push_number_part(out: &mut Vec<u8>, number: Option<Number>) -> Result<(), NoMemory>
    ensures { OnOk result (out.new.items ≡ out.old.items ++ number_part number) }
{
    match number {
        Some(Number::Item(item)) => {
            push_str(out, " ITEM ")?;
            push_number(out, item)
        }
        Some(Number::Numrec(records)) => {
            push_str(out, " NUMREC ")?;
            push_number(out, records)
        }
        None => Ok(()),
    }
}

fn push_reply(out: &mut Vec<u8>, reply: &Reply) -> Result<(), NoMemory>
    ensures { OnOk result (out.new.items ≡ out.old.items ++ reply_text reply.now) }
{
    push_condition(out, reply.condition)?;
    push_part(out, " KEY ", &reply.key)?;
    push_number_part(out, reply.number)?;
    push_part(out, " DATA ", &reply.content)
}

fn push_abend(out: &mut Vec<u8>, code: AbendCode, reply: Option<&Reply>) -> Result<(), NoMemory>
    ensures { OnOk result (out.new.items
        ≡ out.old.items ++ abend_text code (option_copied reply.entry)) }
{
    push_str(out, "ABEND ")?;
    push_bare(out, &code.0.bytes())?;
    if let Some(reply) = reply {
        push_str(out, " ")?;
        push_condition(out, reply.condition)?;
    }
    Ok(())
}

// Appends the outcome of a command that was issued or resumed.
#[inline(always)]
fn push_what_came(out: &mut Vec<u8>, outcome: &Outcome) -> Result<(), NoMemory>
    ensures { OnOk result (out.new.items ≡ out.old.items ++ outcome_text outcome.now) }
{
    match outcome {
        Outcome::Replied(reply) => push_reply(out, reply),
        Outcome::Waiting(holder) => {
            push_str(out, "WAITING ")?;
            push_bare(out, &holder.bytes())
        }
        Outcome::Abended(code, reply) => push_abend(out, *code, reply.as_ref()),
        Outcome::Ended => push_str(out, "ENDED"),
    }
}

fn refusal_title(refusal: Refused) -> &'static str
    ensures { result.now ≡ refusal_title refusal }
{
    match refusal {
        Refused::NoMemory => "NoMemory",
        Refused::NoTask => "NoTask",
        Refused::TaskWaiting => "TaskWaiting",
        Refused::TaskEnded => "TaskEnded",
        Refused::DuplicateLabel => "DuplicateLabel",
        Refused::ClockBack => "ClockBack",
        Refused::RegionDown => "RegionDown",
    }
}

fn define_title(fault: DefineFault) -> &'static str
    ensures { result.now ≡ define_title fault }
{
    match fault {
        DefineFault::Duplicate => "Duplicate",
        DefineFault::BadKey => "BadKey",
        DefineFault::BadLength => "BadLength",
        DefineFault::NotThere => "NotThere",
        DefineFault::NoMemory => "NoMemory",
    }
}
