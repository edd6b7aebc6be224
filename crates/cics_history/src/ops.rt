//! The updating commands, their answers, and the history of them.
//!
//! Definitions see a name, a key and a record as their bytes, and a unit as its number.

ghost use Rattle.std.specs.Prelude.{◌≡◌, ◌≤◌, IfOk, IsOk, IfSome, is_some, length, take, drop};
ghost use Rattle.std.specs.Option.{option_copied};
ghost use Rattle.cics_history.specs.Borrowed.{as_op};
ghost use Rattle.cics_history.specs.Records.{is_file_op, file_of, key_of};
ghost use Rattle.cics_history.specs.Packed.{IsPackable, IsTold, op_of};

use crate::borrowed::OpRef;
use crate::packing::{Apart, EntryForm, OpKind, number_of, or_empty, part_of};
use crate::resources::UnitId;
use cics_names::{Condition, Name4, Name8, NoMemory, Record};
use std::alloc::Global;
use std::marker::Model;

/// An updating command. `from` has the bytes of a record or an item. `key` is the record's key.
pub enum Op {
    /// Adds the record of a key that has none.
    Write {
        file: Name8,
        key: Record,
        from: Record,
    },
    /// Replaces the record of the key that the unit has read for update.
    Rewrite {
        file: Name8,
        key: Record,
        from: Record,
    },
    /// Removes the record of a key.
    Delete {
        file: Name8,
        key: Record,
    },
    /// Removes every record whose key begins with the prefix.
    DeleteGeneric {
        file: Name8,
        prefix: Record,
    },
    /// Reads the record of a key, for the same unit to rewrite or delete.
    ReadUpdate {
        file: Name8,
        key: Record,
    },
    /// Adds an item to a temporary storage queue, and makes the queue if it is absent.
    TsWrite {
        queue: Name8,
        from: Record,
    },
    /// Replaces an item of a temporary storage queue, by its number from 1 on.
    TsRewrite {
        queue: Name8,
        item: u64,
        from: Record,
    },
    /// Removes a whole temporary storage queue.
    TsDelete {
        queue: Name8,
    },
    /// Adds a record at the end of a transient data queue.
    TdWrite {
        queue: Name4,
        from: Record,
    },
    /// Reads the first record of a transient data queue, and removes it.
    TdRead {
        queue: Name4,
    },
    /// Empties a transient data queue.
    TdDelete {
        queue: Name4,
    },
}

// Written by hand: a derived drop is split into a case for each variant wherever a command is
// dropped.
impl Drop for Op {
    fn drop(self) {
        match self {
            Op::Write {
                file: _file,
                key: _key,
                from: _from,
            } => {}
            Op::Rewrite {
                file: _file,
                key: _key,
                from: _from,
            } => {}
            Op::Delete { file: _f, key: _k } => {}
            Op::DeleteGeneric {
                file: _file,
                prefix: _prefix,
            } => {}
            Op::ReadUpdate { file: _f, key: _k } => {}
            Op::TsWrite {
                queue: _queue,
                from: _from,
            } => {}
            Op::TsRewrite {
                queue: _queue,
                item: _item,
                from: _from,
            } => {}
            Op::TdWrite {
                queue: _queue,
                from: _from,
            } => {}
            Op::TsDelete { queue: _queue } => {}
            Op::TdRead { queue: _queue } => {}
            Op::TdDelete { queue: _queue } => {}
        }
    }
}

impl Op {
    /// Returns the file of a command on a file, and the key or the prefix of keys that it names.
    /// Returns `None` for a command on a queue.
    pub fn record(&self) -> Option<(&Name8, &Record)>
        ensures there { is_some result ≡ is_file_op self.now }
        ensures file { IfSome result (λ named. named.0.now ≡ file_of self.now) }
        ensures key { IfSome result (λ named. named.1.now ≡ key_of self.now) }
    {
        match self {
            Op::Write { file, key, .. } => Some((file, key)),
            Op::Rewrite { file, key, .. } => Some((file, key)),
            Op::Delete { file, key } => Some((file, key)),
            Op::DeleteGeneric { file, prefix } => Some((file, prefix)),
            Op::ReadUpdate { file, key } => Some((file, key)),
            _ => None,
        }
    }

    /// Returns a copy of the command, with copies of its records. The only error is `NoMemory`.
    pub fn copy(&self) -> Result<Op, NoMemory>
        ensures { IfOk result (λ copy. copy ≡ self.now) }
    {
        Ok(match self {
            Op::Write { file, key, from } => Op::Write {
                file: *file,
                key: key.copy()?,
                from: from.copy()?,
            },
            Op::Rewrite { file, key, from } => Op::Rewrite {
                file: *file,
                key: key.copy()?,
                from: from.copy()?,
            },
            Op::Delete { file, key } => Op::Delete {
                file: *file,
                key: key.copy()?,
            },
            Op::DeleteGeneric { file, prefix } => Op::DeleteGeneric {
                file: *file,
                prefix: prefix.copy()?,
            },
            Op::ReadUpdate { file, key } => Op::ReadUpdate {
                file: *file,
                key: key.copy()?,
            },
            Op::TsWrite { queue, from } => Op::TsWrite {
                queue: *queue,
                from: from.copy()?,
            },
            Op::TsRewrite { queue, item, from } => Op::TsRewrite {
                queue: *queue,
                item: *item,
                from: from.copy()?,
            },
            Op::TsDelete { queue } => Op::TsDelete { queue: *queue },
            Op::TdWrite { queue, from } => Op::TdWrite {
                queue: *queue,
                from: from.copy()?,
            },
            Op::TdRead { queue } => Op::TdRead { queue: *queue },
            Op::TdDelete { queue } => Op::TdDelete { queue: *queue },
        })
    }

    // Packs a command with the record of its answer: returns `kind`, `key_length` and `text`.
    pub(crate) fn packed(
        self,
        alloc: Global,
        content: Option<Record>,
        number: u64,
    ) -> (OpKind, u8, Record)
        requires { IsTold self content number }
        ensures op { op_of result.0 (take result.1 (drop number result.2)) result.2 number ≡ self }
        ensures content { IfSome content (λ given. result.2 ≡ given) }
    {
        match self {
            Op::Write { file, key, from } => (OpKind::Write(file), key.len() as u8, from),
            Op::Rewrite { file, key, from } => (OpKind::Rewrite(file), key.len() as u8, from),
            Op::Delete { file, key } => (OpKind::Delete(file), 0, key),
            Op::DeleteGeneric { file, prefix } => (OpKind::DeleteGeneric(file), 0, prefix),
            Op::ReadUpdate { file, key } => {
                let count = key.len() as u8;
                (OpKind::ReadUpdate(file), count, content.unwrap_or(key))
            }
            Op::TsWrite { queue, from } => (OpKind::TsWrite(queue), 0, from),
            Op::TsRewrite {
                queue,
                item: _item,
                from,
            } => (OpKind::TsRewrite(queue), 0, from),
            Op::TsDelete { queue } => (OpKind::TsDelete(queue), 0, or_empty(alloc, content)),
            Op::TdWrite { queue, from } => (OpKind::TdWrite(queue), 0, from),
            Op::TdRead { queue } => (OpKind::TdRead(queue), 0, or_empty(alloc, content)),
            Op::TdDelete { queue } => (OpKind::TdDelete(queue), 0, or_empty(alloc, content)),
        }
    }
}

/// What an executed command is answered.
#[derive(Drop)]
pub struct Answer {
    /// NORMAL if the command did what it asks for. With any other condition it changed nothing.
    pub condition: Condition,
    /// The record that was read, whole.
    pub content: Option<Record>,
    /// The number of the item that was written, from 1 on, or of the records that were deleted
    /// under a prefix.
    pub number: Option<u64>,
}

impl Answer {
    /// Returns a copy of the answer. The only error is `NoMemory`.
    pub fn copy(&self) -> Result<Answer, NoMemory>
        ensures { IfOk result (λ copy. copy ≡ self.now) }
    {
        let content = match &self.content {
            Some(record) => Some(record.copy()?),
            None => None,
        };
        Ok(Answer {
            condition: self.condition,
            content,
            number: self.number,
        })
    }
}

/// A command that was executed: its unit, what it asked for, and what it was answered.
///
/// Contracts see these three. A history is long, so an entry is packed if its command and its
/// answer fit: it has one text, and a key that lies in a record isn't kept beside it.
#[derive(Drop)]
pub struct Entry {
    unit: UnitId,
    form: EntryForm,
}

impl Model for Entry {
    ghost use Rattle.cics_history.specs.State.{EntryValue};

    ghost Value = { EntryValue };

    ghost use Rattle.cics_history.specs.Packed.{op_in, answer_in};

    ghost view = { λ e. record { unit = e.unit; op = op_in e.form; answer = answer_in e.form } };
}

impl Entry {
    /// Returns the entry of any command and any answer.
    ///
    /// Those of a region take no memory: a record moves in (`packed`). A key beside a record lies
    /// in it, and a key or a prefix has at most 255 bytes. Only READ UPDATE and READQ TD are
    /// answered with a record. WRITE, REWRITE and READ UPDATE are answered with no number, and a
    /// rewrite of an item with none but the item's. Any others are boxed.
    ///
    /// Errors: `NoMemory` if the memory for the box is refused.
    ///
    /// Cost: O(k * p), for a key of k bytes behind p bytes of its record.
    pub fn new(alloc: Global, unit: UnitId, op: Op, answer: Answer) -> Result<Entry, NoMemory>
        ensures entry { IfOk result (λ entry. entry
            ≡ record { unit = unit; op = op; answer = answer }) }
        ensures packed { IsPackable op answer.content answer.number → length (key_of op) ≤ 255 →
            IsOk result }
    {
        let Some(number) = number_of(&op, &answer) else {
            let form = EntryForm::Apart(Box::new(alloc, Apart { op, answer })?);
            return Ok(Entry { unit, form });
        };
        let (is_given, is_numbered) = (answer.content.is_some(), answer.number.is_some());
        let (kind, key_length, text) = op.packed(alloc, answer.content, number);
        let form = EntryForm::Packed {
            kind,
            condition: answer.condition,
            is_given,
            is_numbered,
            key_length,
            number,
            text,
        };
        Ok(Entry { unit, form })
    }

    /// Returns the unit that executed the command.
    pub fn unit(&self) -> UnitId
        ensures { result ≡ self.now.unit }
    {
        self.unit
    }

    /// Returns what the command asked for, its bytes borrowed. It takes no memory.
    pub fn op(&self) -> OpRef<'_>
        ensures { as_op result ≡ self.now.op }
    {
        match &self.form {
            EntryForm::Packed {
                kind,
                key_length,
                number,
                text,
                ..
            } => {
                let text = text.bytes();
                kind.op(part_of(text, *number, *key_length), text, *number)
            }
            EntryForm::Apart(apart) => OpRef::of(&apart.op),
        }
    }

    /// Returns the condition that the command was answered with.
    pub fn condition(&self) -> Condition
        ensures { result ≡ self.now.answer.condition }
    {
        match &self.form {
            EntryForm::Packed { condition, .. } => *condition,
            EntryForm::Apart(apart) => apart.answer.condition,
        }
    }

    /// Returns the record of the answer, if it has one.
    pub fn content(&self) -> Option<&Record>
        ensures { option_copied result ≡ self.now.answer.content }
    {
        match &self.form {
            EntryForm::Packed { is_given, text, .. } => is_given.then_some(text),
            EntryForm::Apart(apart) => apart.answer.content.as_ref(),
        }
    }

    /// Returns the number of the answer, if it has one.
    pub fn number(&self) -> Option<u64>
        ensures { result ≡ self.now.answer.number }
    {
        match &self.form {
            EntryForm::Packed {
                is_numbered,
                number,
                ..
            } => is_numbered.then_some(*number),
            EntryForm::Apart(apart) => apart.answer.number,
        }
    }
}

/// Whether a unit has ended, and how.
#[derive(Clone, Copy, PartialEq, Eq)]
pub enum UnitState {
    /// It hasn't ended.
    Open,
    /// It ended, and what it did stays.
    Committed,
    /// It ended, and what it did to recoverable files and queues is undone.
    BackedOut,
}

/// Result of a command.
#[derive(Drop)]
pub enum Done {
    /// This unit executed it, which may have begun with it, and this is its answer.
    Answered(UnitId, Answer),
    /// It wasn't executed. This other unit owns a resource that conflicts with one that it uses, or
    /// wrote what it would read.
    MustWait(UnitId),
}

/// Result of an ENQ.
#[derive(Clone, Copy, PartialEq, Eq)]
pub enum Enqueued {
    /// This unit, which may have begun with it, owns the value once more.
    Taken(UnitId),
    /// Nothing was acquired: this other unit owns the value.
    MustWait(UnitId),
    /// Nothing was acquired: the unit owns the value 65,535 times already.
    CountFull,
}
