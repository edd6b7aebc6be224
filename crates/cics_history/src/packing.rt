//! How an entry of the history lies in memory.

ghost use Rattle.std.specs.Prelude.{◌≡◌, ◌≤◌, IfSome, IsSome, length, take, drop};
ghost use Rattle.cics_history.specs.Borrowed.{as_op};
ghost use Rattle.cics_history.specs.Records.{key_of};
ghost use Rattle.cics_history.specs.Packed.{LiesIn, IsPackable, IsTold, op_of};

use crate::borrowed::OpRef;
use crate::ops::{Answer, Op};
use cics_names::{Condition, Name4, Name8, Record};
use std::alloc::Global;

// What kind of command an entry has, with the file or queue that it names.
#[derive(Clone, Copy)]
pub(crate) enum OpKind {
    Write(Name8),
    Rewrite(Name8),
    Delete(Name8),
    DeleteGeneric(Name8),
    ReadUpdate(Name8),
    TsWrite(Name8),
    TsRewrite(Name8),
    TsDelete(Name8),
    TdWrite(Name4),
    TdRead(Name4),
    TdDelete(Name4),
}

impl OpKind {
    // Returns the command of this kind that has this key in its record, this text and this number.
    pub(crate) fn op<'a>(&self, key: &'a [u8], text: &'a [u8], number: u64) -> OpRef<'a>
        ensures { as_op result ≡ op_of self.now key.now text.now number }
    {
        match *self {
            OpKind::Write(file) => OpRef::Write(file, key, text),
            OpKind::Rewrite(file) => OpRef::Rewrite(file, key, text),
            OpKind::Delete(file) => OpRef::Delete(file, text),
            OpKind::DeleteGeneric(file) => OpRef::DeleteGeneric(file, text),
            OpKind::ReadUpdate(file) => OpRef::ReadUpdate(file, key),
            OpKind::TsWrite(queue) => OpRef::TsWrite(queue, text),
            OpKind::TsRewrite(queue) => OpRef::TsRewrite(queue, number, text),
            OpKind::TsDelete(queue) => OpRef::TsDelete(queue),
            OpKind::TdWrite(queue) => OpRef::TdWrite(queue, text),
            OpKind::TdRead(queue) => OpRef::TdRead(queue),
            OpKind::TdDelete(queue) => OpRef::TdDelete(queue),
        }
    }
}

// A command and its answer, as they were given.
#[derive(Drop)]
pub(crate) struct Apart {
    pub(crate) op: Op,
    pub(crate) answer: Answer,
}

// A command and its answer. The fields of `Packed` are its own, and not those of a struct: so an
// entry has no room for a second tag.
#[derive(Drop)]
pub(crate) enum EntryForm {
    // What a region executes: one text, and a key that lies in a record isn't kept beside it.
    Packed {
        kind: OpKind,
        condition: Condition,
        // Whether the text is the record of the answer.
        is_given: bool,
        // Whether the number is the answer's.
        is_numbered: bool,
        // How many bytes of the text are the key, if they are in a record.
        key_length: u8,
        // How many bytes of a record stand before its key, or else the number of an item or an
        // answer.
        number: u64,
        // The record of the command or of its answer. Without one, the key if there is one.
        text: Record,
    },
    // Any others.
    Apart(Box<Apart>),
}

// Returns how many bytes stand before a key in a record. Returns `None` if the key doesn't lie in
// it, or has more than 255 bytes.
fn place_in(key: &[u8], text: &[u8]) -> Option<u64>
    ensures place { IfSome result (λ at. take (length key.now) (drop at text.now) ≡ key.now) }
    ensures short { IsSome result → length key.now ≤ 255 }
    ensures lies { LiesIn key.now text.now → length key.now ≤ 255 → IsSome result }
{
    if key.len() > 255 || key.len() > text.len() {
        return None;
    }
    for at in 0..text.len() - key.len() + 1 {
        if &text[at..at + key.len()] == key {
            return Some(at as u64);
        }
    }
    None
}

// Returns a record, or one of no bytes if there is none.
pub(crate) fn or_empty(alloc: Global, content: Option<Record>) -> Record
    ensures { IfSome content (λ given. result ≡ given) }
{
    match content {
        Some(given) => given,
        None => Record::new(Vec::new(alloc)),
    }
}

// Returns `count` bytes behind the first `at`, or as many as there are.
pub(crate) fn part_of(text: &[u8], at: u64, count: u8) -> &[u8]
    ensures { result.now ≡ take count (drop at text.now) }
{
    let start = (at as usize).min(text.len());
    let count = usize::from(count).min(text.len() - start);
    &text[start..start + count]
}

// Returns the number with which a command and its answer are packed: how many bytes of a record
// stand before its key, or else that of an item or of the answer. Returns `None` if they don't fit.
pub(crate) fn number_of(op: &Op, answer: &Answer) -> Option<u64>
    ensures told { IfSome result (IsTold op.now answer.now.content) }
    ensures number { IfSome result (λ n. IfSome answer.now.number (λ m. n ≡ m)) }
    ensures fits { IsPackable op.now answer.now.content answer.now.number →
        length (key_of op.now) ≤ 255 → IsSome result }
{
    let content = answer.content.as_ref();
    let number = answer.number;
    match op {
        Op::Write { key, from, .. } | Op::Rewrite { key, from, .. } => {
            if content.is_some() || number.is_some() {
                return None;
            }
            place_in(key.bytes(), from.bytes())
        }
        Op::ReadUpdate { key, .. } => {
            if number.is_some() {
                return None;
            }
            place_in(key.bytes(), content.unwrap_or(key).bytes())
        }
        Op::TsRewrite { item, .. } => {
            let is_told = content.is_none() && number.unwrap_or(*item) == *item;
            is_told.then_some(*item)
        }
        Op::TsDelete { .. } | Op::TdRead { .. } | Op::TdDelete { .. } => Some(number.unwrap_or(0)),
        Op::Delete { .. } | Op::DeleteGeneric { .. } | Op::TsWrite { .. } | Op::TdWrite { .. } => {
            content.is_none().then_some(number.unwrap_or(0))
        }
    }
}
