//! How the tasks of a region stand that have lanes: units, deadlocks, and changes that stay.

ghost use Rattle.std.specs.Prelude.{◌≡◌, ◌↔◌, ◌≤◌, ℕ, true, Some, length, IfOk};
ghost use Rattle.std.specs.List.{list_any};
ghost use Rattle.cics_names.specs.Keyed.{Bytes};
ghost use Rattle.cics_dispatch.specs.Machine.Machine.{Machine};
ghost use Rattle.cics_dispatch.specs.Machine.Blockers.{label_at, unit_of};
ghost use Rattle.cics_history.specs.Borrowed.{as_op};
ghost use Rattle.cics_picture.specs.Lanes.{most_lanes};
ghost use Rattle.cics_picture.specs.Draw.Standings.{shown_deadlocks, blocker_at, standing_at, standings_of};
ghost use Rattle.cics_picture.specs.Draw.Standings.{is_change, stays, any_stays, marked_at, entries_at};
ghost use Rattle.cics_picture.specs.Draw.Standings.{standings_at, outcomes_at, fill_of, fills_at};
ghost use Rattle.cics_picture.specs.Draw.Standings.{IsInDeadlock};

use crate::{Fill, MOST_LANES, NOBODY, Standing};
use cics_dispatch::Region;
use cics_dispatch::deadlocks::in_deadlock;
use cics_history::{Entry, OpRef, UnitState};
use cics_names::{Condition, Items, Name8, NoMemory};
use cics_run::stage::Stage;
use cics_units::Opening;
use std::alloc::Global;

/// If each task has a lane, `is_deadlocked` of a task is true exactly if it is in a deadlock: it
/// waits for itself, through others.
pub fn deadlocks_are_marked()
    ensures { (m : Machine) (number : ℕ) (label : Bytes) → length m.tasks ≤ most_lanes
        → label_at m.tasks number ≡ Some label
        → ((standing_at m (shown_deadlocks m) number).is_deadlocked ≡ true)
        ↔ IsInDeadlock m number }
{}

// Returns for each task of a region, by its number, whether it is in a deadlock. Returns nothing if
// a task has no lane: to look at many tasks after each line would take long.
#[tactic(auto, unfolding(crate::specs::Draw::Standings::shown_deadlocks))]
fn shown_deadlocks(alloc: Global, region: &Region) -> Result<Items<bool>, NoMemory>
    ensures { IfOk result (λ flags. flags ≡ shown_deadlocks region.now.machine) }
{
    if region.task_count() > MOST_LANES {
        return Ok(Items::new(alloc));
    }
    in_deadlock(alloc, region)
}

/// Returns the number of the open unit of a label's task, if it has one.
pub fn unit_of(region: &Region, label: &Name8) -> Option<u64>
    ensures { result ≡ unit_of region.now.machine label.now }
{
    match region.unit(label) {
        Some(unit) => Some(unit.number()),
        None => None,
    }
}

// Returns the number of the task that blocks that of a label, if it waits.
fn blocker_of(region: &Region, label: &Name8) -> Option<usize>
    ensures { result ≡ blocker_at region.now.machine label.now }
{
    match region.blocker(label) {
        Some(blocker) => region.number(&blocker),
        None => None,
    }
}

// How the task of a number stands.
fn standing_at(region: &Region, flags: &[bool], number: usize) -> Standing
    ensures { result ≡ standing_at region.now.machine flags.now number }
{
    match region.label_at(number) {
        Some(label) => Standing {
            unit: unit_of(region, &label),
            is_deadlocked: flags.get(number).copied().unwrap_or(false),
            blocker: blocker_of(region, &label),
            stays: false,
            shows: None,
        },
        None => NOBODY,
    }
}

// Returns whether a command is one that changes something: READ UPDATE alone is none.
fn is_change(op: &OpRef<'_>) -> bool
    ensures { result ≡ is_change (as_op op.now) }
{
    !matches!(op, OpRef::ReadUpdate(_, _))
}

// Returns whether a unit changed something unrecoverable by an entry: no backout undoes that.
fn stays(opening: &Opening, unit: u64, entry: &Entry) -> bool
    ensures { result ≡ stays opening.now unit entry.now }
{
    if entry.unit().number() != unit || entry.condition() != Condition::Normal {
        return false;
    }
    let op = entry.op();
    is_change(&op) && !opening.is_recoverable(&op)
}

// Returns whether a unit made a change that stays by one of these entries.
fn is_in_any(opening: &Opening, unit: u64, entries: &[Entry]) -> bool
    ensures { result ≡ list_any (stays opening.now unit) entries.now }
{
    for entry in entries {
        if stays(opening, unit, entry) {
            return true;
        }
    }
    false
}

// Returns whether a unit made a change that stays after the first `before` entries of the history.
fn any_stays(region: &Region, before: usize, unit: Option<u64>) -> bool
    ensures { result ≡ any_stays before region.now.machine unit }
{
    let units = region.units();
    match unit {
        Some(unit) => {
            is_in_any(
                units.opening(),
                unit,
                units.trace().get(before..).unwrap_or(&[]),
            )
        }
        None => false,
    }
}

// Returns how the task of a number stands after a line, before which the history had `before`
// entries.
fn marked_at(region: &Region, flags: &[bool], before: usize, number: usize) -> Standing
    ensures { result ≡ marked_at before region.now.machine flags.now number }
{
    let standing = standing_at(region, flags, number);
    Standing {
        unit: standing.unit,
        is_deadlocked: standing.is_deadlocked,
        blocker: standing.blocker,
        stays: any_stays(region, before, standing.unit),
        shows: None,
    }
}

// Returns how the tasks that have lanes stand.
#[tactic(auto, unfolding(crate::specs::Draw::Standings::standings_of))]
fn standings_of(alloc: Global, before: usize, region: &Region) -> Result<Items<Standing>, NoMemory>
    ensures value { IfOk result (λ standings. standings ≡ standings_of before region.now.machine) }
    ensures few { IfOk result (λ standings. length standings ≤ most_lanes) }
{
    let flags = shown_deadlocks(alloc, region)?;
    let mut standings = Items::new(alloc);
    for number in 0..MOST_LANES {
        standings.push(marked_at(region, flags.as_slice(), before, number))?;
    }
    Ok(standings)
}

/// Returns how the tasks that have lanes stand after a line. `before` is the number of entries that
/// the history had before it. Without a region there are none.
///
/// Errors: `NoMemory`. Cost: that of `in_deadlock` for sixteen tasks at most, and O(e), e the
/// number of the line's entries.
pub fn standings_at(
    alloc: Global,
    before: usize,
    stage: &Stage,
) -> Result<Items<Standing>, NoMemory>
    ensures value { IfOk result (λ standings. standings ≡ standings_at before stage.now) }
    ensures few { IfOk result (λ standings. length standings ≤ most_lanes) }
{
    match stage {
        Stage::Running(region) => standings_of(alloc, before, region),
        Stage::Opening(_) => Ok(Items::new(alloc)),
    }
}

/// Returns the history: the executed commands, in order.
pub fn entries_at(stage: &Stage) -> &[Entry]
    ensures { result.now ≡ entries_at stage.now }
{
    match stage {
        Stage::Running(region) => region.units().trace(),
        Stage::Opening(_) => &[],
    }
}

/// Returns the outcome of each unit, by its number.
pub fn outcomes_at(stage: &Stage) -> &[UnitState]
    ensures { result.now ≡ outcomes_at stage.now }
{
    match stage {
        Stage::Running(region) => region.units().outcomes(),
        Stage::Opening(_) => &[],
    }
}

// How the bar of a unit is filled.
fn fill_of(outcome: UnitState) -> Fill
    ensures { result ≡ fill_of outcome }
{
    match outcome {
        UnitState::Open => Fill::Open,
        UnitState::Committed => Fill::Filled,
        UnitState::BackedOut => Fill::Hollow,
    }
}

/// Returns how the bar of each unit is filled, by its number.
///
/// Errors: `NoMemory`. Cost: O(units).
pub fn fills_at(alloc: Global, stage: &Stage) -> Result<Items<Fill>, NoMemory>
    ensures { IfOk result (λ fills. fills ≡ fills_at stage.now) }
{
    let outcomes = outcomes_at(stage);
    let mut fills = Items::new(alloc);
    for outcome in outcomes {
        fills.push(fill_of(*outcome))?;
    }
    Ok(fills)
}
