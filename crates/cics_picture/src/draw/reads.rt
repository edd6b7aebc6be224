//! Reads that show what isn't committed.

ghost use Rattle.std.specs.Prelude.{◌≡◌, ◌≤◌, IsTrue, IfOk, IfSome, Ok, None, Some, length};
ghost use Rattle.std.specs.List.{list_any};
ghost use Rattle.cics_dispatch.specs.Notes.Notes.{is_unit};
ghost use Rattle.cics_history.specs.Borrowed.{as_op};
ghost use Rattle.cics_history.specs.Execution.{is_ready_op};
ghost use Rattle.cics_picture.specs.Lanes.{most_lanes};
ghost use Rattle.cics_picture.specs.Draw.Reads.{record_of, shown_by, shown_in, changes_record};
ghost use Rattle.cics_picture.specs.Draw.Reads.{writes_item, changes};
ghost use Rattle.cics_picture.specs.Draw.Reads.{changed, changer, shown_of, shown_at};
ghost use Rattle.cics_picture.specs.Draw.Reads.{lane_with, with_shown};

use crate::Standing;
use crate::draw::recording::Given;
use crate::draw::standings::unit_of;
use crate::lanes::is_same;
use cics_dispatch::Region;
use cics_history::{Entry, Op, OpRef};
use cics_names::{Condition, Items, Name8, NoMemory, Record, Verb};
use cics_run::stage::Stage;
use cics_script::{Line, LineFault, read_line};
use cics_units::Units;

// Returns the record of the least key that isn't below this one, as the command that would delete
// it.
fn record_of(units: &Units, file: &Name8, key: &Record) -> Result<Option<Op>, NoMemory>
    ensures value { IfOk result (λ shown. shown ≡ record_of units.now file.now (Some key.now)) }
    ensures ready { IfOk result (λ shown. IfSome shown (λ op.
        IsTrue (is_ready_op units.now.state None op))) }
{
    let Some(records) = units.file(file) else {
        return Ok(None);
    };
    let Some(found) = records.first_from(key.bytes(), false) else {
        return Ok(None);
    };
    let alloc = units.opening().allocator();
    let key = Record::from_slice(alloc, records.definition().key_in(found.bytes()))?;
    Ok(Some(Op::Delete { file: *file, key }))
}

// Returns the record or the queue that a read shows, as the command that would delete it.
fn shown_by(units: &Units, verb: &Verb, given: &Given) -> Result<Option<Op>, NoMemory>
    ensures value { IfOk result (λ shown. shown ≡ shown_by units.now verb.now given.now) }
    ensures ready { IfOk result (λ shown. IfSome shown (λ op.
        IsTrue (is_ready_op units.now.state None op))) }
{
    match verb {
        Verb::Read {
            file,
            ridfld,
            update: false,
            ..
        } => record_of(units, file, ridfld),
        Verb::ReadNext { file, .. } | Verb::ReadPrev { file, .. } => match &given.key {
            Some(key) => record_of(units, file, key),
            None => Ok(None),
        },
        Verb::ReadqTs { queue, .. } => Ok(Some(Op::TsDelete { queue: *queue })),
        _ => Ok(None),
    }
}

// Returns whether a command changed the record of a key.
fn changes_record(file: &Name8, key: &Record, op: &OpRef<'_>) -> bool
    ensures { result ≡ changes_record file.now key.now (as_op op.now) }
{
    match op {
        OpRef::Write(other, own, _)
        | OpRef::Rewrite(other, own, _)
        | OpRef::Delete(other, own)
        | OpRef::DeleteGeneric(other, own) => is_same(other, file) && *own == key.bytes(),
        _ => false,
    }
}

// Returns whether a number is there, and is this one.
fn is_number(number: Option<u64>, wanted: u64) -> bool
    ensures { result ≡ is_unit number wanted }
{
    match number {
        Some(number) => number == wanted,
        None => false,
    }
}

// Returns whether a command wrote the item of a number. `answered` is the number of its answer.
fn writes_item(queue: &Name8, number: u64, op: &OpRef<'_>, answered: Option<u64>) -> bool
    ensures { result ≡ writes_item queue.now number (as_op op.now) answered }
{
    match op {
        OpRef::TsWrite(other, _) => is_same(other, queue) && is_number(answered, number),
        OpRef::TsRewrite(other, item, _) => is_same(other, queue) && *item == number,
        _ => false,
    }
}

// Returns whether an entry changed what is shown: the record, or the item of the queue that was
// read last.
fn changes(units: &Units, shown: &Op, entry: &Entry) -> bool
    ensures { result ≡ changes units.now.state shown.now entry.now }
{
    match shown {
        Op::Delete { file, key } => changes_record(file, key, &entry.op()),
        Op::TsDelete { queue } => {
            let number = u64::from(units.next_place(queue));
            writes_item(queue, number, &entry.op(), entry.number())
        }
        _ => false,
    }
}

// Returns whether a unit changed what is shown.
fn is_changed(units: &Units, unit: u64, shown: &Op) -> bool
    ensures { result ≡ list_any (changed units.now.state unit shown.now) units.now.state.trace }
{
    for entry in units.trace() {
        if entry.unit().number() == unit
            && entry.condition() == Condition::Normal
            && changes(units, shown, entry)
        {
            return true;
        }
    }
    false
}

// Returns the open unit, other than the reader's own, that last changed what is shown, if that is
// recoverable. This unit holds what is shown, so no other one has changed it since.
fn changer(units: &Units, own: Option<u64>, shown: &Op) -> Option<u64>
    requires { IsTrue (is_ready_op units.now.state None shown.now) }
    ensures { result ≡ changer units.now.state own (Some shown.now) }
{
    if !units.opening().is_recoverable(&OpRef::of(shown)) {
        return None;
    }
    let unit = units.awaited(None, shown)?.number();
    if is_number(own, unit) || !is_changed(units, unit, shown) {
        None
    } else {
        Some(unit)
    }
}

// Returns the number of the reader's task, and the other open unit that last changed what the read
// shows.
fn shown_of(
    region: &Region,
    label: &Name8,
    verb: &Verb,
    given: &Given,
) -> Result<Option<(usize, u64)>, NoMemory>
    ensures { IfOk result (λ shown. shown ≡ shown_of region.now label.now verb.now given.now) }
{
    let Some(number) = region.number(label) else {
        return Ok(None);
    };
    let Some(shown) = shown_by(region.units(), verb, given)? else {
        return Ok(None);
    };
    match changer(region.units(), unit_of(region, label), &shown) {
        Some(unit) => Ok(Some((number, unit))),
        None => Ok(None),
    }
}

// Returns the same of a line that was read.
fn shown_in(region: &Region, line: &Line, given: &Given) -> Result<Option<(usize, u64)>, NoMemory>
    ensures { IfOk result (λ shown. shown ≡ shown_in region.now (Ok line.now) given.now) }
{
    match line {
        Line::Issue(label, command) => shown_of(region, label, &command.verb, given),
        _ => Ok(None),
    }
}

/// Returns the number of the task whose read shows what isn't committed, and the other open unit
/// that last changed this. The line has run, and `given` is what its command was given.
///
/// Errors: `NoMemory`. Cost: O(bytes of the line + log records), and O(history) if another unit
/// holds what is shown.
pub fn shown_at(
    stage: &Stage,
    line: &[u8],
    given: &Option<Given>,
) -> Result<Option<(usize, u64)>, NoMemory>
    ensures { IfOk result (λ shown. shown ≡ shown_at stage.now line.now given.now) }
{
    let Some(given) = given else {
        return Ok(None);
    };
    let Stage::Running(region) = stage else {
        return Ok(None);
    };
    match read_line(region.units().opening().allocator(), line) {
        Ok(line) => shown_in(region, &line, given),
        Err(LineFault::NoMemory) => Err(NoMemory),
        Err(_) => Ok(None),
    }
}

// Returns the lane of the task that has a unit; if none has it, the number of lanes.
fn lane_with(unit: u64, standings: &[Standing]) -> usize
    ensures value { result ≡ lane_with unit standings.now }
    ensures within { result ≤ length standings.now }
{
    standings
        .iter()
        .take_while(|standing| !is_number(standing.unit, unit))
        .count()
}

/// Returns the standings with what a read shows: at the reader's lane, the lane of the task that
/// wrote it. Without a lane of the reader they stay as they are.
pub fn with_shown(standings: Items<Standing>, shown: Option<(usize, u64)>) -> Items<Standing>
    requires { length standings ≤ most_lanes }
    ensures value { result ≡ with_shown standings shown }
    ensures few { length result ≤ most_lanes }
{
    let Some((number, unit)) = shown else {
        return standings;
    };
    let Some(standing) = standings.as_slice().get(number) else {
        return standings;
    };
    let shows = Some(lane_with(unit, standings.as_slice()));
    let standing = Standing { shows, ..*standing };
    let mut standings = standings;
    standings.set(number, standing);
    standings
}
