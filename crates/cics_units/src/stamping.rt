//! The stamp of what a unit did to recoverable files and queues.

ghost use Rattle.std.specs.Prelude.{◌≡◌, ◌==◌, ◌&&◌, ◌++◌, OnOk, map};
ghost use Rattle.cics_names.specs.Stamps.{list_stamp};
ghost use Rattle.cics_history.specs.Store.{is_normal};
ghost use Rattle.cics_history.specs.Serial.{done_by};
ghost use Rattle.cics_history.specs.Stamps.{op_stamp};
ghost use Rattle.cics_units.specs.DoneOps.{stamp_if_done};

use crate::opening::Opening;
use cics_history::{Entry, UnitId, stamp_op};
use cics_names::{Condition, NoMemory, stamp_number};

// Returns whether a command was executed by this unit, and answered NORMAL.
fn is_normal_of(entry: &Entry, unit: UnitId) -> bool
    ensures { result ≡ ((entry.now.unit == unit) && is_normal entry.now.answer.condition) }
{
    entry.unit() == unit && entry.condition() == Condition::Normal
}

// Appends a command to the stamp of a list, if this unit did it to something recoverable.
fn stamp_entry(
    opening: &Opening,
    entry: &Entry,
    unit: UnitId,
    out: &mut Vec<u8>,
) -> Result<(), NoMemory>
    ensures { OnOk result (out.new.items
        ≡ out.old.items ++ stamp_if_done opening.now unit entry.now) }
{
    if !is_normal_of(entry, unit) {
        return Ok(());
    }
    let op = entry.op();
    if !opening.is_recoverable(&op) {
        return Ok(());
    }
    stamp_number(out, 1)?;
    stamp_op(&op, out)
}

/// Appends the stamp of the commands that a unit did to recoverable files and queues, in their
/// order.
///
/// Errors: `NoMemory`. Cost: O(executed commands).
pub(crate) fn stamp_ops(
    opening: &Opening,
    trace: &[Entry],
    unit: UnitId,
    out: &mut Vec<u8>,
) -> Result<(), NoMemory>
    ensures { OnOk result (out.new.items ≡ out.old.items
        ++ list_stamp op_stamp (map (λ e. e.op) (done_by opening.now trace.now unit))) }
{
    for entry in trace {
        stamp_entry(opening, entry, unit, out)?;
    }
    stamp_number(out, 0)
}
