//! The updating commands that tasks' commands ask for. READ UPDATE, WRITE and READQ TD ask for one;
//! ENQ, SYNCPOINT and a plain READ don't.

ghost use Rattle.std.specs.Prelude.{◌≡◌, [], IsTrue, IfOk, OnOk, OnErr, Some, None, if◌then◌else◌};
ghost use Rattle.cics_dispatch.specs.Machine.Answers.{is_growing};
ghost use Rattle.cics_dispatch.specs.Machine.Emptied.{content_of, put_back, refilled, whole};
ghost use Rattle.cics_history.specs.Records.{key_of};
ghost use Rattle.std.specs.Option.{option_copied};
ghost use Rattle.cics_dispatch.specs.Machine.Lengths.{used_of};
ghost use Rattle.cics_dispatch.specs.Machine.Steps.{asked_op, queue_op, ts_write_op};

use cics_names::{Command, Name8, NoMemory, Record, Verb};
use cics_units::Op;
use std::alloc::Global;
use std::mem::replace;

/// Takes the bytes out of a record, which then has none.
pub fn take(alloc: Global, own: &mut Record) -> Record
    ensures taken { result ≡ own.old }
    ensures left { own.new ≡ [] }
{
    replace(own, Record::new(Vec::new(alloc)))
}

// Takes out the bytes of FROM that LENGTH uses. If it uses fewer than there are, it copies them. If
// LENGTH is above their count, which the checks refuse, it takes them all.
fn take_used(alloc: Global, from: &mut Record, length: Option<u64>) -> Result<Record, NoMemory>
    ensures content { IfOk result (λ content. content ≡ used_of from.old length) }
    ensures back { IfOk result (λ content. put_back from.new content ≡ from.old) }
{
    match length {
        Some(length) if length < from.len() as u64 => from.part(0, length as usize),
        _ => Ok(take(alloc, from)),
    }
}

// Returns a DELETE of the record of a key, or if generic of each record whose key begins with it.
fn delete_op(file: Name8, key: Record, generic: bool) -> Op
    ensures { result ≡ (if generic then Op.DeleteGeneric file key else Op.Delete file key) }
{
    if generic {
        Op::DeleteGeneric { file, prefix: key }
    } else {
        Op::Delete { file, key }
    }
}

// Returns a WRITEQ TS of an item, or with REWRITE in place of the item of a number.
fn ts_write_op(queue: Name8, from: Record, item: Option<u64>) -> Op
    ensures { result ≡ ts_write_op queue from item }
{
    match item {
        None => Op::TsWrite { queue, from },
        Some(item) => Op::TsRewrite { queue, item, from },
    }
}

// Takes out the updating command on a queue that a verb asks for.
fn take_queue_op(alloc: Global, verb: &mut Verb) -> Result<Option<Op>, NoMemory>
    ensures op { IfOk result (λ op. op ≡ queue_op verb.old) }
    ensures back { IfOk result (λ op. refilled verb.new op ≡ verb.old) }
    ensures growing { OnErr result (IsTrue (is_growing verb.old)) }
{
    let op = match verb {
        Verb::WriteqTs {
            queue,
            from,
            length,
            item,
        } => ts_write_op(*queue, take_used(alloc, from, *length)?, *item),
        Verb::DeleteqTs { queue } => Op::TsDelete { queue: *queue },
        Verb::WriteqTd {
            queue,
            from,
            length,
        } => Op::TdWrite {
            queue: *queue,
            from: take_used(alloc, from, *length)?,
        },
        Verb::ReadqTd { queue, .. } => Op::TdRead { queue: *queue },
        Verb::DeleteqTd { queue } => Op::TdDelete { queue: *queue },
        _ => return Ok(None),
    };
    Ok(Some(op))
}

// Takes the updating command out of a verb that has its key in RIDFLD or names a queue. Returns
// `None` for any other: REWRITE, DELETE without RIDFLD, and verbs that update nothing.
fn take_own_op(alloc: Global, verb: &mut Verb) -> Result<Option<Op>, NoMemory>
    ensures op { IfOk result (λ op. op ≡ asked_op None verb.old) }
    ensures back { IfOk result (λ op. refilled verb.new op ≡ verb.old) }
    ensures growing { OnErr result (IsTrue (is_growing verb.old)) }
{
    let op = match verb {
        Verb::Read {
            file,
            ridfld,
            update: true,
            ..
        } => Op::ReadUpdate {
            file: *file,
            key: take(alloc, ridfld),
        },
        Verb::Write {
            file,
            ridfld,
            from,
            length,
            ..
        } => Op::Write {
            file: *file,
            from: take_used(alloc, from, *length)?,
            key: take(alloc, ridfld),
        },
        Verb::Delete {
            file,
            ridfld,
            generic,
            ..
        } => match ridfld {
            Some(key) => delete_op(*file, take(alloc, key), *generic),
            None => return Ok(None),
        },
        _ => return take_queue_op(alloc, verb),
    };
    Ok(Some(op))
}

/// Takes the updating command that a verb asks for out of the verb, with its key and the bytes of
/// FROM that it uses. So they aren't copied, unless LENGTH cuts FROM. Returns `None` for a verb
/// that asks for none. `refill` puts back what was taken.
///
/// `open_key` is the key of the task's open update read of the file that the verb names, `None` if
/// there is none. REWRITE changes the record of that key, and so does DELETE without RIDFLD.
/// `alloc` gives the memory for a copy of that key, and for FROM if LENGTH cuts it.
pub fn take_op(
    alloc: Global,
    verb: &mut Verb,
    open_key: Option<&[u8]>,
) -> Result<Option<Op>, NoMemory>
    ensures op { IfOk result (λ op. op ≡ asked_op (option_copied open_key.entry) verb.old) }
    ensures back { IfOk result (λ op. refilled verb.new op ≡ verb.old) }
    ensures growing { OnErr result (IsTrue (is_growing verb.old)) }
{
    let Some(key) = open_key else {
        return take_own_op(alloc, verb);
    };
    let op = match verb {
        Verb::Rewrite { file, from, length } => Op::Rewrite {
            file: *file,
            key: Record::from_slice(alloc, key)?,
            from: take_used(alloc, from, *length)?,
        },
        Verb::Delete {
            file,
            ridfld: None,
            ..
        } => Op::Delete {
            file: *file,
            key: Record::from_slice(alloc, key)?,
        },
        _ => return take_own_op(alloc, verb),
    };
    Ok(Some(op))
}

// Returns the key that an updating command names, without bytes if it names none.
fn key_of(op: &Op) -> &[u8]
    ensures { result.now ≡ key_of op.now }
{
    match op.record() {
        Some((_, key)) => key.bytes(),
        None => &[],
    }
}

// Returns what an updating command writes, without bytes if it writes nothing.
fn content_of(op: &Op) -> &[u8]
    ensures { result.now ≡ content_of op.now }
{
    match op {
        Op::Write { from, .. }
        | Op::Rewrite { from, .. }
        | Op::TsWrite { from, .. }
        | Op::TsRewrite { from, .. }
        | Op::TdWrite { from, .. } => from.bytes(),
        _ => &[],
    }
}

// Puts bytes back into the record that they were taken out of.
fn put_back(alloc: Global, own: &mut Record, taken: &[u8]) -> Result<(), NoMemory>
    ensures { OnOk result (own.new ≡ put_back own.old taken.now) }
{
    if own.is_empty() {
        *own = Record::from_slice(alloc, taken)?;
    }
    Ok(())
}

// Puts back what an updating command took out of its verb.
fn refill_verb(alloc: Global, verb: &mut Verb, op: &Op) -> Result<(), NoMemory>
    ensures { OnOk result (verb.new ≡ refilled verb.old (Some op.now)) }
{
    match verb {
        Verb::Read { ridfld, .. } => put_back(alloc, ridfld, key_of(op)),
        Verb::Delete {
            ridfld: Some(ridfld),
            ..
        } => put_back(alloc, ridfld, key_of(op)),
        Verb::Write { ridfld, from, .. } => {
            put_back(alloc, ridfld, key_of(op))?;
            put_back(alloc, from, content_of(op))
        }
        Verb::Rewrite { from, .. } => put_back(alloc, from, content_of(op)),
        Verb::WriteqTs { from, .. } => put_back(alloc, from, content_of(op)),
        Verb::WriteqTd { from, .. } => put_back(alloc, from, content_of(op)),
        _ => Ok(()),
    }
}

/// Puts back into a command what `take_op` took out of it for its updating command, if it has one.
/// Returns the command.
#[cold]
pub fn refill(alloc: Global, command: Command, op: &Option<Op>) -> Result<Command, NoMemory>
    ensures { IfOk result (λ filled. filled ≡ whole command op.now) }
{
    let mut filled = command;
    if let Some(op) = op {
        refill_verb(alloc, &mut filled.verb, op)?;
    }
    Ok(filled)
}
