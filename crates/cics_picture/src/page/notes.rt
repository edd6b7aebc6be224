//! Notes: what a line or an event changed in what a region shows.

ghost use Rattle.std.specs.Prelude.{◌≡◌, IfOk};

use cics_names::{Items, Name4, Name8, NoMemory, Record};
use cics_transdata::Recovery;

/// A place for one text: a key of a file, or the number of an item or of a transient data record.
/// Numbers count from 1. The order is that of a listing.
///
/// A transient data record has the number of records that were written to its queue up to it. Those
/// that a backout removed don't count. A record that is put back has its old number.
#[derive(PartialEq, Eq, PartialOrd, Ord, Drop)]
pub enum Cell {
    Record(Name8, Record),
    Item(Name8, u64),
    TdRecord(Name4, u64),
}

/// How the text of a cell changed: from nothing, to nothing, or from one text to another.
#[derive(Drop)]
pub enum Change {
    Added(Record),
    Removed(Record),
    Becomes(Record, Record),
}

/// What a unit of work owns, in the order in which it is told.
#[derive(PartialEq, Eq, PartialOrd, Ord, Drop)]
pub enum Held {
    /// The record of a key, or all records under a prefix that is shorter than the file's keys.
    Keys {
        file: Name8,
        bytes: Record,
        is_prefix: bool,
    },
    /// A temporary storage queue.
    Queue(Name8),
    /// The reading or the writing end of a transient data queue.
    End {
        queue: Name4,
        is_writing: bool,
    },
    /// A value of a program.
    Value(Record),
}

/// What a waiting command wants.
#[derive(Drop)]
pub enum Wanted {
    One(Held),
    /// Both ends of a transient data queue: DELETEQ TD.
    BothEnds(Name4),
}

/// What a line defined or loaded, or what an event changed. A task goes by its label, a unit by its
/// number.
#[derive(Drop)]
pub enum Note {
    /// A file is defined.
    File {
        name: Name8,
        is_recoverable: bool,
    },
    /// A transient data queue is defined.
    TdQueue {
        name: Name4,
        recovery: Recovery,
    },
    /// The event's task waits, for so many seconds at most; 0 is no limit.
    Wants {
        wanted: Wanted,
        seconds: u64,
    },
    /// The event's task begins a unit. How it ends is known at the end of the run.
    Begins {
        unit: u64,
    },
    /// The unit of the event's task owns this, so many times. Only a value is owned more than once.
    Holds {
        held: Held,
        count: u64,
    },
    /// The unit of the event's task no longer owns this, and goes on.
    Releases(Held),
    /// A task's unit ends, and releases all that it owns.
    Commits(Name8),
    BacksOut(Name8),
    /// The text of a cell changed. That `stays` if no backout undoes it.
    Set {
        cell: Cell,
        change: Change,
        stays: bool,
    },
    /// The NEXT cursor of a temporary storage queue changed. It is 0 if the queue isn't there.
    Cursor {
        queue: Name8,
        before: u64,
        after: u64,
    },
    /// Each of these tasks waits for the next one, and the last for the first.
    Ring(Items<Name8>),
}

impl Cell {
    /// Returns a copy. The only error is `NoMemory`.
    pub fn copy(&self) -> Result<Cell, NoMemory>
        ensures { IfOk result (λ copy. copy ≡ self.now) }
    {
        Ok(match self {
            Cell::Record(file, key) => Cell::Record(*file, key.copy()?),
            Cell::Item(queue, number) => Cell::Item(*queue, *number),
            Cell::TdRecord(queue, number) => Cell::TdRecord(*queue, *number),
        })
    }
}

impl Held {
    /// Returns a copy. The only error is `NoMemory`.
    pub fn copy(&self) -> Result<Held, NoMemory>
        ensures { IfOk result (λ copy. copy ≡ self.now) }
    {
        Ok(match self {
            Held::Keys {
                file,
                bytes,
                is_prefix,
            } => Held::Keys {
                file: *file,
                bytes: bytes.copy()?,
                is_prefix: *is_prefix,
            },
            Held::Queue(queue) => Held::Queue(*queue),
            Held::End { queue, is_writing } => Held::End {
                queue: *queue,
                is_writing: *is_writing,
            },
            Held::Value(value) => Held::Value(value.copy()?),
        })
    }
}
