//! The lines of tasks.

ghost use Rattle.std.specs.Prelude.{◌≡◌, ◌++◌, ◌-◌, OnOk, IfOk, length, slice_get};
ghost use Rattle.std.specs.List.{flat_map};
ghost use Rattle.cics_dispatch.specs.Machine.Blockers.{waiting_command};
ghost use Rattle.cics_orders.specs.Endings.Telling.{end_text, blocker_text, number_text, stand_text};
ghost use Rattle.cics_orders.specs.Endings.Telling.{task_text, told_text};

use crate::Lane;
use cics_dispatch::{Outcome, Region};
use cics_names::{Name8, NoMemory, Record};
use cics_run::stage::journal::push_outcome;
use cics_script::spelling::{Part, push_number, push_parts, push_str};
use std::alloc::Global;

// Appends how a task has ended.
fn push_end(out: &mut Vec<u8>, told: &[Outcome]) -> Result<(), NoMemory>
    ensures { OnOk result (out.new.items
        ≡ out.old.items ++ end_text (slice_get told.now (length told.now - 1))) }
{
    match told.last() {
        Some(Outcome::Ended) => push_str(out, " ENDED"),
        Some(Outcome::Abended(code, _)) => push_parts(
            out,
            &[Part::Str(" ABEND "), Part::Bare(&code.0.bytes())],
        ),
        _ => push_str(out, " SHUTDOWN"),
    }
}

// Appends the tasks that block another one.
fn push_blockers(out: &mut Vec<u8>, blockers: &[Name8]) -> Result<(), NoMemory>
    ensures { OnOk result (out.new.items
        ≡ out.old.items ++ flat_map blocker_text blockers.now) }
{
    for blocker in blockers {
        push_parts(out, &[Part::Str(" "), Part::Bare(&blocker.bytes())])?;
    }
    Ok(())
}

// Appends the number of the line that a lane gave last.
fn push_last_number(out: &mut Vec<u8>, lane: &Lane) -> Result<(), NoMemory>
    ensures { OnOk result (out.new.items
        ≡ out.old.items ++ number_text (slice_get lane.now.lines (lane.now.given - 1))) }
{
    match lane.lines.as_slice().get(lane.given.saturating_sub(1)) {
        Some((number, _)) => push_number(out, *number),
        None => Ok(()),
    }
}

// Appends what a task does that has not ended.
fn push_stand(
    out: &mut Vec<u8>,
    region: &Region,
    label: &Name8,
    lane: &Lane,
) -> Result<(), NoMemory>
    ensures { OnOk result (out.new.items ≡ out.old.items ++ stand_text region.now.machine label.now
        (slice_get lane.now.lines (lane.now.given - 1))
        (waiting_command region.now.machine label.now)) }
{
    if region.waiting_command(label).is_none() {
        let is_open = region.unit(label).is_some();
        return push_str(out, if is_open { " OPEN" } else { " IDLE" });
    }
    push_str(out, " WAITING")?;
    push_blockers(out, region.blockers(label)?.as_slice())?;
    push_str(out, " LINE ")?;
    push_last_number(out, lane)
}

/// Returns the line of a task.
pub(crate) fn task_part(
    alloc: Global,
    region: &Region,
    label: &Name8,
    lane: &Lane,
) -> Result<Record, NoMemory>
    ensures { IfOk result (λ part. part ≡ task_text region.now.machine label.now lane.now) }
{
    let mut text = Vec::new(alloc);
    push_parts(&mut text, &[Part::Str("TASK "), Part::Bare(&label.bytes())])?;
    if region.has_ended(label) {
        push_end(&mut text, lane.told.as_slice())?;
    } else {
        push_stand(&mut text, region, label, lane)?;
    }
    push_str(&mut text, "\n")?;
    Ok(Record::new(text))
}

/// Returns what a task was told of a line.
pub(crate) fn told_part(
    alloc: Global,
    label: &Name8,
    number: u64,
    outcome: &Outcome,
) -> Result<Record, NoMemory>
    ensures { IfOk result (λ part. part ≡ told_text label.now number outcome.now) }
{
    let mut text = Vec::new(alloc);
    push_parts(
        &mut text,
        &[Part::Str("LINE "), Part::Number(number), Part::Str(" ")],
    )?;
    push_outcome(&mut text, *label, outcome)?;
    Ok(Record::new(text))
}
