//! What units of work did, as command lines of a task for each of them.

ghost use Rattle.std.specs.Prelude.{◌≡◌, ◌++◌, ◌<◌, ◌&&◌, true, false, ℕ, OnOk, IfOk, length};
ghost use Rattle.cics_history.specs.Borrowed.{as_op};
ghost use Rattle.cics_history.specs.Store.{is_normal, is_recoverable};
ghost use Rattle.cics_run.specs.Listing.Serial.{unit_command_line, verb_for, bytes_in};
ghost use Rattle.cics_run.specs.Listing.Serial.{done_lines, unlock_line};
ghost use Rattle.cics_run.specs.Listing.UnitLines.{lines_at, lines_added};

use cics_history::UnitId;
use cics_names::{Command, Condition, Name8, NoMemory, Record, Verb};
use cics_script::spelling::Part::{Number, Str};
use cics_script::spelling::{push_parts, push_str, write_out};
use cics_units::{Entry, OpRef, Opening};
use std::alloc::Global;

/// Returns the lines of what each unit did to recoverable files and queues, in its order. There is
/// a row for each unit by its number, up to the last one that did something. It walks the commands
/// once. `alloc` gives the memory for the rows. The only error is `NoMemory`.
pub fn gathered(alloc: Global, opening: &Opening, trace: &[Entry]) -> Result<Vec<Vec<u8>>, NoMemory>
    ensures { IfOk result (λ rows. (unit : ℕ) →
        lines_at rows.items unit ≡ done_lines opening.now trace.now unit) }
{
    let mut rows = Vec::new(alloc);
    for entry in trace {
        gather(&mut rows, alloc, opening, entry)?;
    }
    Ok(rows)
}

// Adds the lines of a command to those of its unit, if the command was done.
fn gather(
    rows: &mut Vec<Vec<u8>>,
    alloc: Global,
    opening: &Opening,
    entry: &Entry,
) -> Result<(), NoMemory>
    ensures { OnOk result ((unit : ℕ) → lines_at rows.new.items unit
        ≡ lines_at rows.old.items unit ++ lines_added opening.now entry.now unit) }
{
    let op = entry.op();
    if !is_done(opening, entry.condition(), &op) {
        return Ok(());
    }
    let unit = entry.unit();
    let at = unit.number() as usize;
    grow(rows, alloc, at)?;
    push_entry(&mut rows[at], unit, &op)?;
    Ok(())
}

// Returns whether a command was answered NORMAL, on a recoverable file or queue.
fn is_done(opening: &Opening, condition: Condition, op: &OpRef<'_>) -> bool
    ensures { result ≡ (is_normal condition && is_recoverable opening.now (as_op op.now)) }
{
    condition == Condition::Normal && opening.is_recoverable(op)
}

// Adds an empty row for each unit up to this one that has none.
fn grow(rows: &mut Vec<Vec<u8>>, alloc: Global, last: usize) -> Result<(), NoMemory>
    ensures same { OnOk result ((unit : ℕ) →
        lines_at rows.new.items unit ≡ lines_at rows.old.items unit) }
    ensures there { OnOk result (last < length rows.new.items) }
{
    while rows.len() <= last {
        rows.push(Vec::new(alloc))?;
    }
    Ok(())
}

// Appends the lines of a command of a unit.
fn push_entry(out: &mut Vec<u8>, unit: UnitId, op: &OpRef<'_>) -> Result<(), NoMemory>
    ensures { OnOk result (out.new.items ≡ out.old.items ++ (unlock_line unit (as_op op.now)
        ++ unit_command_line unit (verb_for (as_op op.now)))) }
{
    push_unlock(out, unit, op)?;
    let verb = verb_for(*out.allocator(), op)?;
    push_command(out, unit, verb)
}

// Appends an UNLOCK before a READ UPDATE, since an update read of the file may be open.
fn push_unlock(out: &mut Vec<u8>, unit: UnitId, op: &OpRef<'_>) -> Result<(), NoMemory>
    ensures { OnOk result (out.new.items ≡ out.old.items ++ unlock_line unit (as_op op.now)) }
{
    match op {
        OpRef::ReadUpdate(file, _) => push_command(out, unit, Verb::Unlock { file: *file }),
        _ => Ok(()),
    }
}

/// Appends a command of the task of a unit.
pub fn push_command(out: &mut Vec<u8>, unit: UnitId, verb: Verb) -> Result<(), NoMemory>
    ensures { OnOk result (out.new.items ≡ out.old.items ++ unit_command_line unit verb) }
{
    let command = Command { verb, resp: false };
    let mut label = Vec::new(*out.allocator());
    push_parts(&mut label, &[Str("U"), Number(unit.number())])?;
    write_out(out, &label, &command)?;
    push_str(out, "\n")
}

// Returns DELETE of a key, or with `generic` of each key that begins with it.
fn delete_of(file: Name8, key: Record, generic: bool) -> Verb
    ensures { result ≡ Verb.Delete file (Some key) None generic }
{
    Verb::Delete {
        file,
        ridfld: Some(key),
        key_length: None,
        generic,
    }
}

// Returns READ UPDATE of a key.
fn read_update_of(file: Name8, key: Record) -> Verb
    ensures { result ≡ Verb.Read file key None None false false true }
{
    Verb::Read {
        file,
        ridfld: key,
        key_length: None,
        length: None,
        generic: false,
        gteq: false,
        update: true,
    }
}

// Returns WRITEQ TS, with REWRITE and ITEM if the number of an item is given.
fn ts_write_of(queue: Name8, from: Record, item: Option<u64>) -> Verb
    ensures { result ≡ Verb.WriteqTs queue from None item }
{
    Verb::WriteqTs {
        queue,
        from,
        length: None,
        item,
    }
}

// Returns what a command writes, or else its key or prefix, or no byte.
fn bytes_in<'a>(op: &OpRef<'a>) -> &'a [u8]
    ensures { result.now ≡ bytes_in (as_op op.now) }
{
    match op {
        OpRef::Write(_, _, bytes) | OpRef::Rewrite(_, _, bytes) | OpRef::TsRewrite(_, _, bytes) => {
            bytes
        }
        OpRef::Delete(_, bytes)
        | OpRef::DeleteGeneric(_, bytes)
        | OpRef::ReadUpdate(_, bytes)
        | OpRef::TsWrite(_, bytes)
        | OpRef::TdWrite(_, bytes) => bytes,
        OpRef::TsDelete(_) | OpRef::TdRead(_) | OpRef::TdDelete(_) => &[],
    }
}

// Returns the verb that asks for an updating command. It takes memory for copies of its records.
fn verb_for(alloc: Global, op: &OpRef<'_>) -> Result<Verb, NoMemory>
    ensures { IfOk result (λ verb. verb ≡ verb_for (as_op op.now)) }
{
    let bytes = Record::from_slice(alloc, bytes_in(op))?;
    Ok(match op {
        OpRef::Write(file, key, _) => Verb::Write {
            file: *file,
            ridfld: Record::from_slice(alloc, key)?,
            key_length: None,
            from: bytes,
            length: None,
        },
        OpRef::Rewrite(file, _, _) => Verb::Rewrite {
            file: *file,
            from: bytes,
            length: None,
        },
        OpRef::Delete(file, _) => delete_of(*file, bytes, false),
        OpRef::DeleteGeneric(file, _) => delete_of(*file, bytes, true),
        OpRef::ReadUpdate(file, _) => read_update_of(*file, bytes),
        OpRef::TsWrite(queue, _) => ts_write_of(*queue, bytes, None),
        OpRef::TsRewrite(queue, item, _) => ts_write_of(*queue, bytes, Some(*item)),
        OpRef::TsDelete(queue) => Verb::DeleteqTs { queue: *queue },
        OpRef::TdWrite(queue, _) => Verb::WriteqTd {
            queue: *queue,
            from: bytes,
            length: None,
        },
        OpRef::TdRead(queue) => Verb::ReadqTd {
            queue: *queue,
            length: None,
            nosuspend: false,
        },
        OpRef::TdDelete(queue) => Verb::DeleteqTd { queue: *queue },
    })
}
