//! The lines on the deadlocks in which a run leaves its tasks.

ghost use Rattle.std.specs.Prelude.{◌≡◌, ◌++◌, OnOk, codes};
ghost use Rattle.cics_run.specs.Messages.Deadlocked.{keys_text, resource_text};
ghost use Rattle.cics_run.specs.Messages.Deadlocked.{wait_text, waits_text};
ghost use Rattle.cics_run.specs.Messages.Deadlocked.{deadlock_line, deadlock_lines};

use crate::messages::parts::first_bytes;
use cics_dispatch::Region;
use cics_dispatch::deadlocks::deadlocks;
use cics_names::{Name8, NoMemory, Record, Verb};
use cics_script::spelling::Part::{Bare, Name, Str, Text};
use cics_script::spelling::{push_parts, push_str};

// Appends a record of a file, or the records whose keys have a prefix, in parentheses.
fn push_keys<'a>(
    out: &mut Vec<u8>,
    what: &'a str,
    key: &'a Record,
    file: &Name8,
) -> Result<(), NoMemory>
    ensures { OnOk result (out.new.items
        ≡ out.old.items ++ (codes " (" ++ (keys_text what.now key.now file.now ++ codes ")"))) }
{
    // Made first: behind parts of two lifetimes a list takes no new part that borrows nothing.
    let end = Str(")");
    push_parts(
        out,
        &[
            Str(" ("),
            Str(what),
            Text(key.bytes()),
            Str(" of "),
            Bare(&file.bytes()),
            end,
        ],
    )
}

// Appends what a command waits for, in parentheses: a record, a prefix, a queue or a value.
fn push_awaited(out: &mut Vec<u8>, verb: &Verb) -> Result<(), NoMemory>
    ensures { OnOk result (out.new.items
        ≡ out.old.items ++ (codes " (" ++ (resource_text verb.now ++ codes ")"))) }
{
    match verb {
        Verb::Read { file, ridfld, .. } | Verb::Write { file, ridfld, .. } => {
            push_keys(out, "record ", ridfld, file)
        }
        Verb::Delete {
            file,
            ridfld: Some(key),
            generic,
            ..
        } => {
            let what = if *generic { "prefix " } else { "record " };
            push_keys(out, what, key, file)
        }
        Verb::WriteqTs { queue, .. } | Verb::DeleteqTs { queue } => {
            push_parts(out, &[Str(" (queue "), Name(&queue.bytes()), Str(")")])
        }
        Verb::WriteqTd { queue, .. } | Verb::ReadqTd { queue, .. } | Verb::DeleteqTd { queue } => {
            push_parts(out, &[Str(" (queue "), Name(&queue.bytes()), Str(")")])
        }
        Verb::Enq {
            resource,
            length,
            ..
        } => {
            let value = first_bytes(resource.bytes(), Some(*length));
            push_parts(out, &[Str(" (value "), Text(value), Str(")")])
        }
        _ => push_str(out, " (what it uses)"),
    }
}

/// Appends a task, another one that blocks it, and what it waits for.
pub fn push_wait(
    out: &mut Vec<u8>,
    region: &Region,
    label: &Name8,
    blocker: &Name8,
) -> Result<(), NoMemory>
    ensures { OnOk result (out.new.items
        ≡ out.old.items ++ wait_text region.now.machine label.now blocker.now) }
{
    push_parts(
        out,
        &[
            Bare(&label.bytes()),
            Str(" waits for "),
            Bare(&blocker.bytes()),
        ],
    )?;
    match region.waiting_command(label) {
        Some(command) => push_awaited(out, &command.verb),
        None => Ok(()),
    }
}

// Appends tasks that wait for each other: each for the next one, the last for the first.
fn push_waits(
    out: &mut Vec<u8>,
    region: &Region,
    first: &Name8,
    others: &[Name8],
) -> Result<(), NoMemory>
    ensures { OnOk result (out.new.items
        ≡ out.old.items ++ waits_text region.now.machine first.now others.now first.now) }
{
    let mut at = *first;
    for next in others {
        push_wait(out, region, &at, next)?;
        push_str(out, ", ")?;
        at = *next;
    }
    push_wait(out, region, &at, first)
}

// Appends a line on tasks that wait for each other.
fn push_deadlock(out: &mut Vec<u8>, region: &Region, labels: &[Name8]) -> Result<(), NoMemory>
    ensures { OnOk result (out.new.items
        ≡ out.old.items ++ deadlock_line region.now.machine labels.now) }
{
    let Some((first, others)) = labels.split_first() else {
        return Ok(());
    };
    push_str(out, "cicsrun: deadlock: ")?;
    push_waits(out, region, first, others)?;
    push_str(out, "\n")
}

/// Appends a line for each deadlock of a region, in the order of
/// `cics_dispatch::deadlocks::deadlocks`: of one circle, which task waits for which, and for what.
///
/// Errors: `NoMemory`. Cost: that of `deadlocks`.
pub fn push_deadlocks(out: &mut Vec<u8>, region: &Region) -> Result<(), NoMemory>
    ensures lines { OnOk result (out.new.items
        ≡ out.old.items ++ deadlock_lines region.now.machine) }
{
    let found = deadlocks(*out.allocator(), region)?;
    for labels in found.as_slice() {
        push_deadlock(out, region, labels.as_slice())?;
    }
    Ok(())
}
