//! The commands that a task issues.

ghost use Rattle.std.specs.Prelude.{◌≡◌, IfOk};
ghost use Rattle.std.specs.Option.{option_copied};
ghost use Rattle.cics_names.specs.Commands.{file_named, length_of};

use crate::{Name4, Name8, NoMemory, Record};

/// A command, as a task issues it.
pub struct Command {
    /// What the command asks for.
    pub verb: Verb,
    /// Whether the task is told each condition (RESP or NOHANDLE). If false, a condition abends the
    /// task with its default code, if it has one (chapter on the exceptional conditions).
    pub resp: bool,
}

// By hand: a derived drop is taken apart, with a case for each verb, wherever a command is dropped.
impl Drop for Command {
    fn drop(self) {
        let Command {
            verb: _verb,
            resp: _resp,
        } = self;
    }
}

/// What a command asks for, with the options that make a difference.
///
/// Common to the options:
///
/// - `file`, `queue`: the name of the file or queue.
/// - `ridfld`: the key asked for, or with `generic` the first bytes of it.
/// - `key_length`: KEYLENGTH in bytes, if it is given; it must be the length of `ridfld`.
/// - `from`: what is written; `length`, if it is given, says how many of its first bytes.
/// - `length` of a command that reads: how many bytes the task takes, if it is given. A longer
///   content is answered LENGERR with its first bytes, and counts as read.
#[derive(Clone, Drop)]
pub enum Verb {
    /// READ (file control): reads the record of a key. With `gteq` that is the smallest key that
    /// isn't below the one given, with `generic` a key that begins with it. With both it is the
    /// smallest key whose first bytes aren't below it. With `update` the record is read for update,
    /// which goes with neither.
    Read {
        file: Name8,
        ridfld: Record,
        key_length: Option<u64>,
        length: Option<u64>,
        generic: bool,
        gteq: bool,
        update: bool,
    },
    /// WRITE (file control): adds a record under the key `ridfld`, which is the key that lies in
    /// it.
    Write {
        file: Name8,
        ridfld: Record,
        key_length: Option<u64>,
        from: Record,
        length: Option<u64>,
    },
    /// REWRITE (file control): replaces the record that was read for update by one of the same key.
    Rewrite {
        file: Name8,
        from: Record,
        length: Option<u64>,
    },
    /// DELETE (file control): deletes the record of the key, or without `ridfld` the one that was
    /// read for update. With `ridfld` and `generic` it deletes every record whose key begins with
    /// it, and is answered their number.
    Delete {
        file: Name8,
        ridfld: Option<Record>,
        key_length: Option<u64>,
        generic: bool,
    },
    /// UNLOCK (file control): ends the update read of the file, if one is open.
    Unlock {
        file: Name8,
    },
    /// STARTBR (file control, browsing): opens a browse at the smallest key that isn't below the
    /// one given. With `equal` it opens at that key itself, with `equal` and `generic` at a key
    /// that begins with it.
    StartBr {
        file: Name8,
        ridfld: Record,
        key_length: Option<u64>,
        generic: bool,
        equal: bool,
    },
    /// RESETBR (file control, browsing): moves the open browse as STARTBR opens one.
    ResetBr {
        file: Name8,
        ridfld: Record,
        key_length: Option<u64>,
        generic: bool,
        equal: bool,
    },
    /// READNEXT (file control, browsing): reads the next record in the order of the keys.
    ReadNext {
        file: Name8,
        length: Option<u64>,
    },
    /// READPREV (file control, browsing): reads the next record against the order of the keys.
    ReadPrev {
        file: Name8,
        length: Option<u64>,
    },
    /// ENDBR (file control, browsing): ends the browse of the file.
    EndBr {
        file: Name8,
    },
    /// WRITEQ TS (temporary storage): adds an item, or with REWRITE replaces the item of the number
    /// `item`, which counts from 1.
    WriteqTs {
        queue: Name8,
        from: Record,
        length: Option<u64>,
        item: Option<u64>,
    },
    /// READQ TS (temporary storage): reads the item of the number `item`, or without it the one
    /// after the item that any task read last.
    ReadqTs {
        queue: Name8,
        length: Option<u64>,
        item: Option<u64>,
    },
    /// DELETEQ TS (temporary storage): deletes the queue.
    DeleteqTs {
        queue: Name8,
    },
    /// WRITEQ TD (transient data): adds a record at the end of the queue.
    WriteqTd {
        queue: Name4,
        from: Record,
        length: Option<u64>,
    },
    /// READQ TD (transient data): reads and removes the first record. With `nosuspend` it is
    /// answered QBUSY if it would have to wait.
    ReadqTd {
        queue: Name4,
        length: Option<u64>,
        nosuspend: bool,
    },
    /// DELETEQ TD (transient data): removes all records.
    DeleteqTd {
        queue: Name4,
    },
    /// ENQ (task control): enqueues on a value, the first `length` bytes of `resource`, 1 to 255.
    /// With `nosuspend` it is answered ENQBUSY if another unit of work owns the value.
    Enq {
        resource: Record,
        length: u64,
        nosuspend: bool,
    },
    /// DEQ (task control): releases the value once, if the task's unit of work owns it.
    Deq {
        resource: Record,
        length: u64,
    },
    /// SYNCPOINT (recovery): commits the task's unit of work.
    Syncpoint,
    /// SYNCPOINT ROLLBACK (recovery): backs the task's unit of work out.
    Rollback,
    /// RETURN (program control): commits the task's unit of work and ends the task.
    Return,
    /// ABEND (program control): ends the task with a code, `????` if none is given, and backs its
    /// unit of work out.
    Abend {
        code: Option<Name4>,
    },
}

impl Command {
    /// Returns a copy of the command. The only error is `NoMemory`.
    pub fn copy(&self) -> Result<Command, NoMemory>
        ensures { IfOk result (λ copy. copy ≡ self.now) }
    {
        Ok(Command {
            verb: self.verb.clone()?,
            resp: self.resp,
        })
    }
}

impl Verb {
    /// Returns the file that the command names, or None if it names none.
    pub fn file(&self) -> Option<&Name8>
        ensures { option_copied result ≡ file_named self.now }
    {
        match self {
            Verb::Read { file, .. }
            | Verb::Write { file, .. }
            | Verb::Rewrite { file, .. }
            | Verb::Delete { file, .. }
            | Verb::Unlock { file }
            | Verb::StartBr { file, .. }
            | Verb::ResetBr { file, .. }
            | Verb::ReadNext { file, .. }
            | Verb::ReadPrev { file, .. }
            | Verb::EndBr { file } => Some(file),
            _ => None,
        }
    }

    /// Returns LENGTH of a command that reads, if it is given: how many bytes the task takes.
    pub fn length(&self) -> Option<u64>
        ensures { result ≡ length_of self.now }
    {
        match self {
            Verb::Read { length, .. } => *length,
            Verb::ReadNext { length, .. } => *length,
            Verb::ReadPrev { length, .. } => *length,
            Verb::ReadqTs { length, .. } => *length,
            Verb::ReadqTd { length, .. } => *length,
            _ => None,
        }
    }
}
