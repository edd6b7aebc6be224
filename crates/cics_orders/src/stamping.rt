//! The stamps of what tasks were told, and of lanes.

ghost use Rattle.std.specs.Prelude.{◌≡◌, ◌++◌, map, OnOk, option_copied};
ghost use Rattle.cics_names.specs.Stamps.{number_stamp, text_stamp, option_stamp, list_stamp};
ghost use Rattle.cics_orders.specs.Stamps.{count_stamp, reply_stamp, outcome_stamp, told_of};
ghost use Rattle.cics_orders.specs.Stamps.{seen, lane_stamp};

use crate::lanes::{Lane, is_last};
use cics_dispatch::{Number, Outcome, Reply};
use cics_names::{NoMemory, Record, stamp_number, stamp_text};

// Appends the stamp of a record that may be missing.
fn stamp_content(out: &mut Vec<u8>, content: &Option<Record>) -> Result<(), NoMemory>
    ensures { OnOk result (out.new.items
        ≡ out.old.items ++ option_stamp text_stamp content.now) }
{
    match content {
        Some(content) => {
            stamp_number(out, 1)?;
            stamp_text(out, content.bytes())
        }
        None => stamp_number(out, 0),
    }
}

// Appends the stamp of the number of an item, or of deleted records, which may be missing.
fn stamp_count(out: &mut Vec<u8>, number: Option<Number>) -> Result<(), NoMemory>
    ensures { OnOk result (out.new.items ≡ out.old.items ++ option_stamp count_stamp number) }
{
    let (kind, count) = match number {
        Some(Number::Item(item)) => (0, item),
        Some(Number::Numrec(records)) => (1, records),
        None => return stamp_number(out, 0),
    };
    stamp_number(out, 1)?;
    stamp_number(out, kind)?;
    stamp_number(out, count)
}

// Appends the stamp of a reply.
fn stamp_reply(out: &mut Vec<u8>, reply: &Reply) -> Result<(), NoMemory>
    ensures { OnOk result (out.new.items ≡ out.old.items ++ reply_stamp reply.now) }
{
    stamp_number(out, reply.condition.number())?;
    stamp_content(out, &reply.key)?;
    stamp_content(out, &reply.content)?;
    stamp_count(out, reply.number)
}

// Appends the stamps of the kind of an outcome, of what it names, and of its reply, which may be
// missing.
fn stamp_told(
    out: &mut Vec<u8>,
    kind: u64,
    name: &[u8],
    reply: Option<&Reply>,
) -> Result<(), NoMemory>
    ensures { OnOk result (out.new.items ≡ out.old.items ++ (number_stamp kind
        ++ (text_stamp name.now ++ option_stamp reply_stamp (option_copied reply.entry)))) }
{
    stamp_number(out, kind)?;
    stamp_text(out, name)?;
    match reply {
        Some(reply) => {
            stamp_number(out, 1)?;
            stamp_reply(out, reply)
        }
        None => stamp_number(out, 0),
    }
}

// Appends the stamp of an outcome.
fn stamp_outcome(out: &mut Vec<u8>, outcome: &Outcome) -> Result<(), NoMemory>
    ensures { OnOk result (out.new.items ≡ out.old.items ++ outcome_stamp outcome.now) }
{
    match outcome {
        Outcome::Replied(reply) => stamp_told(out, 0, &[], Some(reply)),
        Outcome::Waiting(label) => stamp_told(out, 1, &label.bytes(), None),
        Outcome::Abended(code, reply) => stamp_told(out, 2, &code.0.bytes(), reply.as_ref()),
        Outcome::Ended => stamp_told(out, 3, &[], None),
    }
}

// Returns what an ending tells of what a task was told: all, or how the task has ended.
fn told_of(told: &[Outcome], all: bool) -> &[Outcome]
    ensures { result.now ≡ told_of all told.now }
{
    if all {
        return told;
    }
    if told.is_empty() {
        return told;
    }
    let last = told.len() - 1;
    if is_last(&told[last]) {
        &told[last..]
    } else {
        &told[told.len()..]
    }
}

// Appends the stamp of outcomes.
fn stamp_outcomes(out: &mut Vec<u8>, outcomes: &[Outcome]) -> Result<(), NoMemory>
    ensures { OnOk result (out.new.items
        ≡ out.old.items ++ list_stamp outcome_stamp outcomes.now) }
{
    for outcome in outcomes {
        stamp_number(out, 1)?;
        stamp_outcome(out, outcome)?;
    }
    stamp_number(out, 0)
}

/// Appends the stamps of lanes, but for their labels and lines. With `told` they have all that
/// tasks were told, else how they ended.
///
/// Errors: `NoMemory`.
pub(crate) fn stamp_lanes(out: &mut Vec<u8>, lanes: &[Lane], told: bool) -> Result<(), NoMemory>
    ensures { OnOk result (out.new.items ≡ out.old.items
        ++ list_stamp lane_stamp (map (seen told) lanes.now)) }
{
    for lane in lanes {
        stamp_number(out, 1)?;
        stamp_number(out, lane.given as u64)?;
        stamp_outcomes(out, told_of(lane.told.as_slice(), told))?;
    }
    stamp_number(out, 0)
}
