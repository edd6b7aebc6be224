//! What calls on units need, looked for before each of them.

ghost use Rattle.std.specs.Prelude.{◌≡◌, true};
ghost use Rattle.std.specs.Option.{option_copied};
ghost use Rattle.cics_names.specs.Keyed.{value_at, has_key};
ghost use Rattle.cics_history.specs.Execution.{has_read, is_fit_for, is_item, is_ready_op};
ghost use Rattle.cics_history.specs.Execution.{is_short_key, IsOpenUnit, IsOpenOrNone};
ghost use Rattle.cics_units.specs.OpenReads.{is_read_key};

use cics_history::UnitId;
use cics_names::{Name4, Name8, Record};
use cics_units::{Op, UnitState, Units};

/// Returns whether a unit has begun and not ended.
pub(crate) fn is_open(units: &Units, unit: UnitId) -> bool
    ensures { result ≡ true → IsOpenUnit units.now.state unit }
{
    unit.number() < units.outcomes().len() as u64 && units.outcome(unit) == UnitState::Open
}

/// Returns whether a task has an open unit or none.
pub(crate) fn is_open_or_none(units: &Units, unit: Option<UnitId>) -> bool
    ensures { result ≡ true → IsOpenOrNone units.now.state unit }
{
    match unit {
        Some(unit) => is_open(units, unit),
        None => true,
    }
}

// The key that a unit, if it is one, has read for update in a file.
fn has_read<'a>(units: &'a Units, unit: Option<UnitId>, file: &Name8) -> Option<&'a [u8]>
    ensures { option_copied result ≡ has_read units.now.state unit file.now }
{
    match unit {
        Some(unit) => units.open_read(unit, file),
        None => None,
    }
}

// Whether a unit, if it is one, has read the record of this key for update.
fn has_read_key(units: &Units, unit: Option<UnitId>, file: &Name8, key: &Record) -> bool
    ensures { result ≡ is_read_key (has_read units.now.state unit file.now) key.now }
{
    match has_read(units, unit, file) {
        Some(read) => read == key.bytes(),
        None => false,
    }
}

// Whether a file is defined.
fn is_defined(units: &Units, file: &Name8) -> bool
    ensures { result ≡ has_key file.now units.now.state.opening.files }
{
    units.file(file).is_some()
}

// Whether a transient data queue is defined.
fn is_queue(units: &Units, queue: &Name4) -> bool
    ensures { result ≡ has_key queue.now units.now.state.opening.queues }
{
    units.td_recovery(queue).is_some()
}

// Whether a file is defined, a record fits it, and the key is the one that lies in the record.
fn is_fit(units: &Units, file: &Name8, key: &Record, from: &Record) -> bool
    ensures { result
        ≡ is_fit_for (value_at file.now units.now.state.opening.files) key.now from.now }
{
    match units.file(file) {
        Some(file) => {
            let definition = file.definition();
            definition.fits(from.bytes()) && definition.key_in(from.bytes()) == key.bytes()
        }
        None => false,
    }
}

// Whether an item or a record of a queue has a lawful length.
fn is_item(from: &Record) -> bool
    ensures { result ≡ is_item from.now }
{
    1 <= from.len() && from.len() <= 32_767
}

// Whether a key, or a prefix of keys, has at most 255 bytes.
fn is_short(key: &Record) -> bool
    ensures { result ≡ is_short_key key.now }
{
    key.len() <= 255
}

/// Returns whether a command may be executed for a unit, or for the next one.
pub(crate) fn is_ready(units: &Units, unit: Option<UnitId>, op: &Op) -> bool
    ensures { result ≡ is_ready_op units.now.state unit op.now }
{
    match op {
        Op::Write { file, key, from } => is_fit(units, file, key, from),
        Op::Rewrite { file, key, from } => {
            is_fit(units, file, key, from) && has_read_key(units, unit, file, key)
        }
        Op::Delete { file, key } => is_defined(units, file) && is_short(key),
        Op::DeleteGeneric { file, prefix } => is_defined(units, file) && is_short(prefix),
        Op::ReadUpdate { file, key } => {
            is_defined(units, file) && is_short(key) && has_read(units, unit, file).is_none()
        }
        Op::TsWrite { from, .. } | Op::TsRewrite { from, .. } => is_item(from),
        Op::TsDelete { .. } => true,
        Op::TdWrite { queue, from } => is_queue(units, queue) && is_item(from),
        Op::TdRead { queue } | Op::TdDelete { queue } => is_queue(units, queue),
    }
}
