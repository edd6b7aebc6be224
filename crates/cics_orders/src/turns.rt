//! Which tasks are within a turn, and which lines interrupt one.

ghost use Rattle.std.specs.Prelude.{◌≡◌, not, ◌&&◌, ◌==◌, option_copied};
ghost use Rattle.std.specs.List.{list_any};
ghost use Rattle.cics_orders.specs.Space.Orders.{numbered_from};
ghost use Rattle.cics_orders.specs.Turns.{is_syncpoint, ends_turn, last_said, goes_on};
ghost use Rattle.cics_orders.specs.Turns.{is_unfinished, is_in_turn, interrupts};

use crate::lanes::Lane;
use crate::lines::Lines;
use cics_dispatch::Region;
use cics_names::Verb;
use cics_script::{Line, LineFault};

/// Returns whether a verb is SYNCPOINT, also with ROLLBACK.
pub(crate) fn is_syncpoint(verb: &Verb) -> bool
    ensures { result ≡ is_syncpoint verb.now }
{
    matches!(verb, Verb::Syncpoint | Verb::Rollback)
}

// Returns whether a line ends its task's turn.
fn ends_turn(says: &Result<Line, LineFault>) -> bool
    ensures { result ≡ ends_turn says.now }
{
    match says {
        Ok(Line::Issue(_, command)) => is_syncpoint(&command.verb),
        _ => false,
    }
}

// Returns whether the line that was given last is there, and didn't end its task's turn.
fn goes_on(lines: &Lines, given: usize) -> bool
    ensures { result ≡ goes_on (last_said lines.now given) }
{
    if given == 0 {
        return false;
    }
    match lines.said_at(given - 1) {
        Some(says) => !ends_turn(says),
        None => false,
    }
}

// Returns whether the task of a lane has not ended, and has an open unit or a line left.
fn is_unfinished(region: &Region, lane: &Lane) -> bool
    ensures { result ≡ is_unfinished region.now.machine lane.now lane.now.label }
{
    match &lane.label {
        Some(label) => {
            !region.has_ended(label)
                && (region.unit(label).is_some() || lane.given < lane.lines.as_slice().len())
        }
        None => false,
    }
}

// Returns whether the task of a lane is within a turn.
fn is_in_turn(region: &Region, lane: &Lane) -> bool
    ensures { result ≡ is_in_turn region.now.machine lane.now }
{
    goes_on(&lane.lines, lane.given) && is_unfinished(region, lane)
}

// Returns whether a lane is another one than that of a number, and its task is within a turn.
fn is_other(region: &Region, lane: &Lane, at: usize, number: usize) -> bool
    ensures { result ≡ (not (at == number) && is_in_turn region.now.machine lane.now) }
{
    at != number && is_in_turn(region, lane)
}

/// Returns whether the task of another lane than that of a number is within a turn.
pub(crate) fn is_other_in_turn(region: &Region, lanes: &[Lane], number: usize) -> bool
    ensures { result ≡ list_any (λ k. not (k == number))
        (numbered_from (is_in_turn region.now.machine) lanes.now 0) }
{
    for i in 0..lanes.len() {
        if is_other(region, &lanes[i], i, number) {
            return true;
        }
    }
    false
}

/// Returns whether a line interrupts the turns of others: a command, or SHUTDOWN.
pub(crate) fn interrupts(says: Option<&Result<Line, LineFault>>) -> bool
    ensures { result ≡ interrupts (option_copied says.entry) }
{
    match says {
        Some(Ok(Line::Issue(_, _) | Line::Shutdown)) => true,
        _ => false,
    }
}
