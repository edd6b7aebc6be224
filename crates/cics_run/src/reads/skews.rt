//! Skews: what two turns saw and missed of each other.

ghost use Rattle.std.specs.Prelude.{◌≡◌, ◌++◌, ◌≤◌, IfOk, OnOk, length};
ghost use Rattle.std.specs.List.{flat_map, prefix_len};
ghost use Rattle.std.specs.Option.{option_to_list};
ghost use Rattle.cics_run.specs.Reads.Skews.{turn_at, turns, begins_within, within, is_changed_in};
ghost use Rattle.cics_run.specs.Reads.Skews.{meets, missed, first_missed, with_first};
ghost use Rattle.cics_run.specs.Reads.Skews.{read_skew, first_seen, only_reading, write_skew, write_skews};
ghost use Rattle.cics_run.specs.Reads.Written.{in_order};

use crate::reads::found::{Finding, Pair, Seen, Turn, Turns};
use crate::reads::ordering::{push_all, put};
use crate::reads::past::Past;
use crate::reads::steps::{Cell, Moment, Step, is_same};
use cics_names::{Items, NoMemory};
use std::collections::BTreeMap;

/// Two turns, of which one saw a change of the other one.
#[derive(Clone, Copy, PartialEq, Eq, PartialOrd, Ord)]
pub struct Sides {
    pub reader: u64,
    pub writer: u64,
}

// Returns the turn of a step.
fn turn_at(past: &Past, moment: &Moment) -> Turn
    ensures { result ≡ turn_at past.now moment.now }
{
    let last = past.number_of(moment.turn);
    Turn {
        task: moment.task,
        number: moment.turn,
        last,
        count: (past.steps().len() as u64).min(last.saturating_sub(moment.turn)) + 1,
    }
}

// Returns the turns of a run.
fn turns(past: &Past) -> Result<Items<Turn>, NoMemory>
    ensures { IfOk result (λ found. found ≡ turns past.now) }
{
    let mut found = Items::new(past.alloc());
    for step in past.steps() {
        if step.moment.turn == step.moment.at {
            found.push(turn_at(past, &step.moment))?;
        }
    }
    Ok(found)
}

// Returns how many of the turns behind one begin before its last step, up to the first that
// doesn't.
fn count_within(one: &Turn, behind: &[Turn]) -> usize
    ensures count { result ≡ prefix_len (begins_within one.now) behind.now }
    ensures within { result ≤ length behind.now }
{
    behind
        .iter()
        .take_while(|other| other.number < one.last)
        .count()
}

// Returns the steps from the first one of a turn to its last one.
fn within<'a>(past: &'a Past, turn: &Turn) -> &'a [Step]
    ensures { result.now ≡ within past.now turn.now }
{
    let steps = past.steps();
    let steps = &steps[(turn.number as usize).min(steps.len())..];
    &steps[..(turn.count as usize).min(steps.len())]
}

// Returns whether a turn has a change of a cell that stands.
fn is_changed_in(past: &Past, turn: &Turn, cell: &Cell) -> bool
    ensures { result ≡ is_changed_in past.now turn.now cell.now }
{
    within(past, turn).iter().any(|change| {
        change.moment.turn == turn.number
            && change.changes(cell)
            && past.stands(change.act.lasts(), change.moment.turn)
    })
}

// Returns whether a look is at a cell of a change that counts.
fn meets(past: &Past, turns: &Turns, look: &Step, change: &Step) -> bool
    ensures { result ≡ meets past.now turns.now look.now change.now }
{
    change.act.cells().iter().any(|cell| {
        look.act.looks_at(cell) && !(turns.alone && is_changed_in(past, &turns.reader, cell))
    })
}

// Returns whether a look missed a change of a turn, which stands.
fn missed(past: &Past, turns: &Turns, look: &Step, change: &Step) -> bool
    ensures { result ≡ missed past.now turns.now look.now change.now }
{
    change.moment.turn == turns.writer.number
        && look.moment.at < change.moment.at
        && meets(past, turns, look, change)
        && past.stands(change.act.lasts(), change.moment.turn)
}

// Returns the first change of one turn that the other turn missed.
fn first_missed(past: &Past, turns: &Turns) -> Option<Pair>
    ensures { result ≡ first_missed past.now turns.now }
{
    for look in within(past, &turns.reader) {
        if look.moment.turn == turns.reader.number {
            for change in within(past, &turns.writer) {
                if missed(past, turns, look, change) {
                    return Some(Pair {
                        look: look.moment,
                        change: change.moment,
                    });
                }
            }
        }
    }
    None
}

// Keeps what a look saw, if it stands and is the first of its two turns.
fn keep_first(past: &Past, firsts: &mut BTreeMap<Sides, Seen>, seen: &Seen) -> Result<(), NoMemory>
    ensures { OnOk result (firsts.new.entries ≡ with_first past.now firsts.old.entries seen.now) }
{
    let Pair { look, change } = seen.pair;
    if past.stands(seen.lasts, change.turn) {
        let sides = Sides {
            reader: look.turn,
            writer: change.turn,
        };
        firsts.entry(sides)?.or_insert(*seen);
    }
    Ok(())
}

// Returns what a turn saw first of another one, with what it missed first of that.
fn read_skew(past: &Past, seen: &Seen) -> Option<Finding>
    ensures { option_to_list result ≡ read_skew past.now seen.now }
{
    let turns = Turns {
        reader: turn_at(past, &seen.pair.look),
        writer: turn_at(past, &seen.pair.change),
        alone: false,
    };
    match first_missed(past, &turns) {
        Some(missed) => Some(Finding::ReadSkew(missed, seen.pair)),
        None => None,
    }
}

// Returns the first change of the writing turn that the reading turn missed, at a cell that the
// reading turn leaves alone.
fn first_alone(past: &Past, reader: &Turn, writer: &Turn) -> Option<Pair>
    ensures { result ≡ first_missed past.now (only_reading reader.now writer.now) }
{
    let turns = Turns {
        reader: *reader,
        writer: *writer,
        alone: true,
    };
    first_missed(past, &turns)
}

// Returns what two turns of two tasks missed of each other, with the smaller line first.
fn write_skew(past: &Past, one: &Turn, other: &Turn) -> Option<Finding>
    ensures { option_to_list result ≡ write_skew past.now one.now other.now }
{
    if is_same(&one.task, &other.task) {
        return None;
    }
    match (first_alone(past, one, other), first_alone(past, other, one)) {
        (Some(missed), Some(other)) if missed.look.line < other.look.line => {
            Some(Finding::WriteSkew(missed, other))
        }
        (Some(missed), Some(other)) => Some(Finding::WriteSkew(other, missed)),
        _ => None,
    }
}

/// Appends all read skews, in order.
pub fn push_read_skews(past: &Past, seen: &[Seen], out: &mut Items<Finding>) -> Result<(), NoMemory>
    ensures { OnOk result (out.new
        ≡ out.old ++ in_order (flat_map (read_skew past.now) (first_seen past.now seen.now))) }
{
    let mut firsts = BTreeMap::new(past.alloc());
    for one in seen {
        keep_first(past, &mut firsts, one)?;
    }
    let mut ranked = BTreeMap::new(past.alloc());
    for first in firsts.values() {
        put(&mut ranked, read_skew(past, first))?;
    }
    push_all(&ranked, out)
}

/// Appends all write skews, in order.
pub fn push_write_skews(past: &Past, out: &mut Items<Finding>) -> Result<(), NoMemory>
    ensures { OnOk result (out.new ≡ out.old ++ in_order (write_skews past.now)) }
{
    let mut ranked = BTreeMap::new(past.alloc());
    let turns = turns(past)?;
    let turns = turns.as_slice();
    for (at, one) in turns.iter().enumerate() {
        let behind = &turns[at + 1..];
        for other in &behind[..count_within(one, behind)] {
            put(&mut ranked, write_skew(past, one, other))?;
        }
    }
    push_all(&ranked, out)
}
