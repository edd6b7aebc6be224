//! Whether a run leaves a task waiting, and what is told of that.

ghost use Rattle.std.specs.Prelude.{◌≡◌, ◌++◌, OnOk};
ghost use Rattle.cics_run.specs.Messages.Waiting.{waiting_at, first_waiting};
ghost use Rattle.cics_run.specs.Messages.Waiting.{is_left_waiting, waiter_text};
ghost use Rattle.cics_run.specs.Messages.Waiting.{waiting_line};

use crate::messages::deadlocked::push_wait;
use crate::session::Session;
use crate::stage::Stage;
use cics_dispatch::Region;
use cics_dispatch::deadlocks::waiting_count;
use cics_names::{Name8, NoMemory};
use cics_script::spelling::Part::{Number, Str};
use cics_script::spelling::{push_bare, push_parts, push_str};

// Returns the label of the task of a number, if it waits.
fn waiting_at(region: &Region, number: usize) -> Option<Name8>
    ensures { result ≡ waiting_at region.now.machine number }
{
    let label = region.label_at(number)?;
    if region.waiting_command(&label).is_some() {
        Some(label)
    } else {
        None
    }
}

// Returns the label of the first task that waits.
fn first_waiting(region: &Region) -> Option<Name8>
    ensures { result ≡ first_waiting region.now.machine }
{
    let mut first = None;
    for number in 0..region.task_count() {
        if first.is_none() {
            first = waiting_at(region, number);
        }
    }
    first
}

/// Returns whether a task still waits at the end of a run. The session is the one that was run.
///
/// Cost: O(tasks).
pub fn is_left_waiting(session: &Session) -> bool
    ensures { result ≡ is_left_waiting session.now.stage }
{
    match &session.stage {
        Stage::Running(region) => first_waiting(region).is_some(),
        Stage::Opening(_) => false,
    }
}

// Appends a task that waits, and for whom and what, if another one blocks it.
fn push_waiter(out: &mut Vec<u8>, region: &Region, label: &Name8) -> Result<(), NoMemory>
    ensures { OnOk result (out.new.items
        ≡ out.old.items ++ waiter_text region.now.machine label.now) }
{
    match region.blocker(label) {
        Some(blocker) => push_wait(out, region, label, &blocker),
        None => push_bare(out, &label.bytes()),
    }
}

/// Appends how many tasks of a region wait, and for whom and what the first does. Appends nothing
/// if none waits.
///
/// Cost: that of `waiting_count`.
pub fn push_waiting(out: &mut Vec<u8>, region: &Region) -> Result<(), NoMemory>
    ensures { OnOk result (out.new.items ≡ out.old.items ++ waiting_line region.now.machine) }
{
    let Some(label) = first_waiting(region) else {
        return Ok(());
    };
    push_parts(
        out,
        &[
            Str("cicsrun: still waiting at the end: "),
            Number(waiting_count(region) as u64),
            Str("; "),
        ],
    )?;
    push_waiter(out, region, &label)?;
    push_str(out, "\n")
}
