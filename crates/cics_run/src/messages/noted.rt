//! What is told of an event that was noted.

ghost use Rattle.std.specs.Prelude.{◌≡◌, ◌++◌, Some, None, OnOk};
ghost use Rattle.cics_run.specs.Messages.Noted.{definition_in, raised_text};
ghost use Rattle.cics_run.specs.Messages.Noted.{issued_text, resumed_text, refusal_words};
ghost use Rattle.cics_run.specs.Messages.Noted.{reason_or_cause, refused_text, notice_text};
ghost use Rattle.cics_script.specs.Lines.{line as line_of};

use crate::messages::causes::{general_text, push_cause};
use crate::messages::instead::{meant_words, push_instead, push_instead_in};
use crate::messages::nearest::nearest_label;
use crate::messages::reasons::push_reason;
use crate::stage::{Notice, Raised, Stage};
use cics_dispatch::Refused;
use cics_ksds::FileDef;
use cics_names::{Condition, Name8, NoMemory, Verb};
use cics_script::spelling::Part::{Bare, Str};
use cics_script::spelling::{push_parts, push_str};
use cics_script::{Line, LineFault, read_line};

// The definition that stands for an undefined file.
const UNDEFINED: FileDef = FileDef {
    key_length: 0,
    key_offset: 0,
    record_size: 0,
    recoverable: false,
};

// Returns the definition of the file that a command names.
fn definition_in(stage: &Stage, verb: &Verb) -> FileDef
    ensures { result ≡ definition_in stage.now verb.now }
{
    let Stage::Running(region) = stage else {
        return UNDEFINED;
    };
    let Some(name) = verb.file() else {
        return UNDEFINED;
    };
    match region.units().file(name) {
        Some(file) => file.definition(),
        None => UNDEFINED,
    }
}

// Appends the check that a command failed, or what came up as it was executed.
fn push_reason_or_cause(
    out: &mut Vec<u8>,
    stage: &Stage,
    verb: &Verb,
    raised: Raised,
) -> Result<(), NoMemory>
    ensures { OnOk result (out.new.items
        ≡ out.old.items ++ reason_or_cause stage.now verb.now raised.condition raised.reason) }
{
    match raised.reason {
        Some(reason) => push_reason(out, definition_in(stage, verb), verb, reason),
        None => push_cause(out, verb, raised.condition),
    }
}

// Appends what is told of a condition that a command was answered.
fn push_raised(
    out: &mut Vec<u8>,
    stage: &Stage,
    verb: &Verb,
    raised: Raised,
) -> Result<(), NoMemory>
    ensures { OnOk result (out.new.items
        ≡ out.old.items ++ raised_text stage.now verb.now raised) }
{
    push_reason_or_cause(out, stage, verb, raised)?;
    push_instead_in(out, stage, verb, raised.condition)
}

// Appends what is told of a condition that the command of a line was answered.
fn push_issued(
    out: &mut Vec<u8>,
    stage: &Stage,
    line: &[u8],
    raised: Raised,
) -> Result<(), NoMemory>
    ensures { OnOk result (out.new.items
        ≡ out.old.items ++ issued_text stage.now (line_of line.now) raised) }
{
    push_parts(out, &[Str(raised.condition.name()), Str(": ")])?;
    match read_line(stage.allocator(), line) {
        Ok(Line::Issue(_, command)) => push_raised(out, stage, &command.verb, raised),
        Err(LineFault::NoMemory) => Err(NoMemory),
        _ => push_str(out, general_text(raised.condition)),
    }
}

// Appends what is told of a condition that a command was answered as it resumed.
fn push_resumed(out: &mut Vec<u8>, label: &[u8], condition: Condition) -> Result<(), NoMemory>
    ensures { OnOk result (out.new.items ≡ out.old.items ++ resumed_text label.now condition) }
{
    push_parts(
        out,
        &[
            Bare(label),
            Str("'s command resumed: "),
            Str(condition.name()),
            Str(": "),
            Str(general_text(condition)),
        ],
    )
}

// Returns why a request was refused, behind its subject.
fn refusal_words(refusal: Refused) -> &'static str
    ensures { result.now ≡ refusal_words refusal }
{
    match refusal {
        Refused::NoMemory => " had no memory",
        Refused::NoTask => " was never attached",
        Refused::TaskWaiting => " still waits, and issues no command",
        Refused::TaskEnded => " has ended",
        Refused::DuplicateLabel => " was attached before",
        Refused::ClockBack => " doesn't go back",
        Refused::RegionDown => " comes after the shutdown",
    }
}

// Appends what is told of a refused request of a task. If no task has the label, it appends the
// nearest one that was attached.
fn push_refused(
    out: &mut Vec<u8>,
    stage: &Stage,
    label: &Name8,
    refusal: Refused,
) -> Result<(), NoMemory>
    ensures { OnOk result (out.new.items
        ≡ out.old.items ++ refused_text stage.now label.now refusal) }
{
    push_parts(out, &[Bare(&label.bytes()), Str(refusal_words(refusal))])?;
    match (refusal, stage) {
        (Refused::NoTask, Stage::Running(region)) => {
            push_instead(out, nearest_label(region, label), " was")
        }
        _ => Ok(()),
    }
}

/// Appends what is told of an event of a line. The stage is that behind the line.
pub fn push_notice(
    out: &mut Vec<u8>,
    stage: &Stage,
    line: &[u8],
    notice: &Notice,
) -> Result<(), NoMemory>
    ensures { OnOk result (out.new.items
        ≡ out.old.items ++ notice_text stage.now line.now notice.now) }
{
    match notice {
        Notice::Issued(raised) => push_issued(out, stage, line, *raised),
        Notice::Resumed(label, condition) => push_resumed(out, &label.bytes(), *condition),
        Notice::TimedOut(label) => push_parts(
            out,
            &[
                Bare(&label.bytes()),
                Str(" was abended with AKCS, as by a time-out"),
            ],
        ),
        Notice::Refused(label, refusal) => push_refused(out, stage, label, *refusal),
        Notice::Meant(queue) => push_parts(out, &[Bare(&queue.bytes()), Str(meant_words())]),
        Notice::ClockRefused(refusal) => push_parts(
            out,
            &[Str("CLOCK"), Str(refusal_words(*refusal))],
        ),
        Notice::ShutdownRefused(refusal) => push_parts(
            out,
            &[Str("SHUTDOWN"), Str(refusal_words(*refusal))],
        ),
    }
}
