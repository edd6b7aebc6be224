//! Which tasks may leave their unit open.

ghost use Rattle.std.specs.Prelude.{◌≡◌, ◌++◌, false, IfOk, OnOk};
ghost use Rattle.std.specs.List.{flat_map};
ghost use Rattle.cics_orders.specs.Report.Open.{may_begin, ends_task, may_be_open, may_leave};
ghost use Rattle.cics_orders.specs.Report.Open.{open_text};

use crate::plans::{TaskPlan, read};
use crate::turns::is_syncpoint;
use cics_names::{NoMemory, Record, Verb};
use cics_script::spelling::{Part, push_parts};
use cics_script::{Line, LineFault};
use std::alloc::Global;

// Returns whether a verb may begin a unit of work.
fn may_begin(verb: &Verb) -> bool
    ensures { result ≡ may_begin verb.now }
{
    match verb {
        Verb::Read { update, .. } => *update,
        Verb::Write { .. }
        | Verb::Rewrite { .. }
        | Verb::Delete { .. }
        | Verb::WriteqTs { .. }
        | Verb::DeleteqTs { .. }
        | Verb::WriteqTd { .. }
        | Verb::ReadqTd { .. }
        | Verb::DeleteqTd { .. }
        | Verb::Enq { .. } => true,
        _ => false,
    }
}

// Returns whether a line ends its task: RETURN or ABEND.
fn ends_task(says: &Result<Line, LineFault>) -> bool
    ensures { result ≡ ends_task says.now }
{
    match says {
        Ok(Line::Issue(_, command)) => matches!(command.verb, Verb::Return | Verb::Abend { .. }),
        _ => false,
    }
}

// Returns whether a unit may be open behind a line, by whether one may be before it.
fn may_be_open(before: bool, says: &Result<Line, LineFault>) -> bool
    ensures { result ≡ may_be_open before says.now }
{
    match says {
        Ok(Line::Issue(_, command)) => {
            !is_syncpoint(&command.verb) && (before || may_begin(&command.verb))
        }
        _ => before,
    }
}

// Returns whether lines of a task may leave its unit open.
fn may_leave(alloc: Global, lines: &[(u64, Record)]) -> Result<bool, NoMemory>
    ensures { IfOk result (λ may. may ≡ may_leave false lines.now) }
{
    let mut is_open = false;
    for (_, bytes) in lines {
        let says = read(alloc, bytes.bytes())?;
        if ends_task(&says) {
            return Ok(false);
        }
        is_open = may_be_open(is_open, &says);
    }
    Ok(is_open)
}

// Appends the line on a task, if it may leave its unit open.
#[tactic(auto, unfolding(crate::specs::Report::Open::open_words))]
fn push_open_task(out: &mut Vec<u8>, task: &TaskPlan) -> Result<(), NoMemory>
    ensures { OnOk result (out.new.items ≡ out.old.items ++ open_text task.now) }
{
    if !may_leave(*out.allocator(), task.lines.as_slice())? {
        return Ok(());
    }
    let parts = [
        Part::Str("TASK "),
        Part::Bare(&task.label.bytes()),
        Part::Str(" MAY LEAVE ITS UNIT OPEN\n"),
    ];
    push_parts(out, &parts)
}

/// Appends a line for each task that may leave its unit open.
pub(crate) fn push_open_tasks(out: &mut Vec<u8>, tasks: &[TaskPlan]) -> Result<(), NoMemory>
    ensures { OnOk result (out.new.items ≡ out.old.items ++ flat_map open_text tasks.now) }
{
    for task in tasks {
        push_open_task(out, task)?;
    }
    Ok(())
}
