//! Records: byte strings. Up to 30 bytes lie in the value itself, more of them on the heap.

ghost use Rattle.std.specs.Prelude.{◌≡◌, ◌↔◌, ◌+◌, ◌≤◌, [], IsTrue, IfOk, length, take, drop};

use std::alloc::{AllocError, AllocFailed, Global};
use std::cmp::Ordering;
use std::marker::Model;

// How many bytes a record has in itself at most.
const SHORT: usize = 30;

/// Memory was refused: a growth was asked for and not granted.
///
/// What a call that returns it has changed until then stands at the call.
#[derive(Clone, Copy, Debug, PartialEq, Eq)]
pub struct NoMemory;

impl From<AllocError> for NoMemory {
    fn from(_error: AllocError) -> NoMemory {
        NoMemory
    }
}

impl<T: Drop> From<AllocFailed<T>> for NoMemory {
    fn from(_error: AllocFailed<T>) -> NoMemory {
        NoMemory
    }
}

// Up to 30 bytes, which lie in the value itself.
#[derive(Drop)]
struct Short {
    len: u8,
    bytes: [u8; SHORT],
}

impl Model for Short {
    ghost use Rattle.std.specs.Prelude.{ℕ, List, ◌≤◌, take};

    ghost Value = { List ℕ };

    ghost view = { λ s. take s.len s.bytes };

    ghost invariant = { λ s. s.len ≤ 30 };
}

impl Short {
    // Returns these bytes, in the value itself.
    fn new(bytes: &[u8]) -> Short
        requires { length bytes.now ≤ 30 }
        ensures { result ≡ bytes.now }
    {
        let mut room = [0; SHORT];
        room[..bytes.len()].copy_from_slice(bytes);
        Short {
            len: bytes.len() as u8,
            bytes: room,
        }
    }

    fn as_slice(&self) -> &[u8]
        ensures bytes { result.now ≡ self.now }
        ensures fits { length result.now ≤ 30 }
    {
        &self.bytes[..usize::from(self.len)]
    }

    fn copy(&self) -> Short
        ensures { result ≡ self.now }
    {
        let bytes = self.bytes;
        Short {
            len: self.len,
            bytes,
        }
    }

    // Returns the first `count` bytes, all of them if there are fewer.
    fn first(self, count: usize) -> Short
        ensures { result ≡ take count self }
    {
        if count >= usize::from(self.len) {
            return self;
        }
        let bytes = self.bytes;
        Short {
            len: count as u8,
            bytes,
        }
    }
}

// Where the bytes of a record lie.
#[derive(Drop)]
enum Room {
    Short(Short),
    Long(Vec<u8>),
}

/// The bytes of a record, of an item or of a key, in EBCDIC. Up to 30 bytes are in the value itself
/// and take no memory.
///
/// Contracts see the bytes alone. Two records are equal if they have the same bytes. They are
/// ordered by the first byte that differs, the bytes unsigned, or else by their length.
pub struct Record {
    room: Room,
}

// By hand: a derived drop is taken apart wherever a record is dropped.
impl Drop for Record {
    fn drop(self) {
        let Record { room: _room } = self;
    }
}

impl Model for Record {
    ghost use Rattle.std.specs.Prelude.{ℕ, List};
    ghost use Rattle.cics_names.specs.Records.{bytes_of};

    ghost Value = { List ℕ };

    ghost view = { λ r. bytes_of r.room };
}

impl Record {
    /// Returns the record of these bytes. It takes no memory, and keeps the `Vec` if there are more
    /// than 30.
    pub fn new(bytes: Vec<u8>) -> Record
        ensures { result ≡ bytes.items }
    {
        if bytes.len() > SHORT {
            return Record {
                room: Room::Long(bytes),
            };
        }
        Record::short(bytes.as_slice())
    }

    // Returns a record that has these bytes in itself.
    fn short(bytes: &[u8]) -> Record
        requires { length bytes.now ≤ 30 }
        ensures { result ≡ bytes.now }
    {
        Record {
            room: Room::Short(Short::new(bytes)),
        }
    }

    /// Returns a record with a copy of these bytes.
    ///
    /// Errors: `NoMemory` if `alloc` refuses the memory for more than 30 bytes.
    pub fn from_slice(alloc: Global, bytes: &[u8]) -> Result<Record, NoMemory>
        ensures { IfOk result (λ made. made ≡ bytes.now) }
    {
        if bytes.len() > SHORT {
            return Ok(Record {
                room: Room::Long(Vec::from_slice(alloc, bytes)?),
            });
        }
        Ok(Record::short(bytes))
    }

    /// Returns the bytes, first to last.
    pub fn bytes(&self) -> &[u8]
        ensures { result.now ≡ self.now }
    {
        match &self.room {
            Room::Short(short) => short.as_slice(),
            Room::Long(bytes) => bytes.as_slice(),
        }
    }

    /// Returns the record of the first `count` bytes, or of all if there are fewer. It takes no
    /// memory.
    pub fn first(self, count: usize) -> Record
        ensures { result ≡ take count self }
    {
        let Record { room } = self;
        match room {
            Room::Short(short) => Record {
                room: Room::Short(short.first(count)),
            },
            Room::Long(bytes) => {
                let mut bytes = bytes;
                bytes.truncate(count);
                Record::new(bytes)
            }
        }
    }

    /// Returns how many bytes there are.
    pub fn len(&self) -> usize
        ensures { result ≡ length self.now }
    {
        self.bytes().len()
    }

    /// Returns whether there is no byte.
    pub fn is_empty(&self) -> bool
        ensures { IsTrue result ↔ (self.now ≡ []) }
    {
        self.bytes().is_empty()
    }

    /// Returns another record with the same bytes.
    ///
    /// Errors: `NoMemory` if the memory for more than 30 bytes is refused.
    pub fn copy(&self) -> Result<Record, NoMemory>
        ensures { IfOk result (λ copy. copy ≡ self.now) }
    {
        let room = match &self.room {
            Room::Short(short) => Room::Short(short.copy()),
            Room::Long(bytes) => {
                Room::Long(Vec::from_slice(*bytes.allocator(), bytes.as_slice())?)
            }
        };
        Ok(Record { room })
    }

    /// Returns a copy of `count` of the bytes, of which the first is the one at `offset` (from 0).
    ///
    /// Errors: `NoMemory` if the memory for more than 30 bytes is refused.
    pub fn part(&self, offset: usize, count: usize) -> Result<Record, NoMemory>
        requires { offset + count ≤ length self.now }
        ensures { IfOk result (λ part. part ≡ take count (drop offset self.now)) }
    {
        match &self.room {
            Room::Short(short) => Ok(Record::short(&short.as_slice()[offset..offset + count])),
            Room::Long(bytes) => {
                let part = &bytes.as_slice()[offset..offset + count];
                Record::from_slice(*bytes.allocator(), part)
            }
        }
    }
}

// For derives of what holds records. A clone is a `copy`.
impl Clone for Record {
    ghost use Rattle.std.specs.Prelude.{◌≡◌};

    ghost is_clone = { λ r copy. copy ≡ r };

    fn clone(&self) -> Result<Record, AllocError> {
        match self.copy() {
            Ok(copy) => Ok(copy),
            Err(NoMemory) => Err(AllocError),
        }
    }
}

impl PartialEq for Record {
    ghost use Rattle.std.specs.Prelude.{◌==◌};
    ghost use Rattle.std.proofs.Common.{rules};
    ghost use Rattle.std.specs.Cmp.Rules.{comparing};
    ghost use Rattle.std.specs.Cmp.Lexicographic.{pointwise};

    ghost eq = { pointwise (λ x y. x == y) };

    ghost laws = { Prim.search (comparing, rules) };

    fn eq(&self, other: &Record) -> bool {
        self.bytes() == other.bytes()
    }
}

impl Eq for Record {
    ghost use Rattle.std.proofs.Common.{rules};
    ghost use Rattle.std.specs.Cmp.Rules.{comparing};

    ghost laws = { Prim.search (comparing, rules) };
}

impl PartialOrd for Record {
    ghost use Rattle.std.specs.Prelude.{Some};
    ghost use Rattle.std.specs.Ordering.{nat_cmp};
    ghost use Rattle.std.specs.Cmp.Lexicographic.{slice_cmp, texts_po};

    ghost partial_cmp = { λ a b. Some (slice_cmp nat_cmp a b) };

    ghost laws = { texts_po };

    fn partial_cmp(&self, other: &Record) -> Option<Ordering> {
        Some(self.cmp(other))
    }
}

impl Ord for Record {
    ghost use Rattle.std.specs.Prelude.{refl};
    ghost use Rattle.std.specs.Ordering.{nat_cmp};
    ghost use Rattle.std.specs.Cmp.Lexicographic.{slice_cmp, nat_list_cmp_total, texts_ties};

    ghost cmp = { slice_cmp nat_cmp };

    ghost total = { nat_list_cmp_total };

    ghost matches_partial_cmp = { λ a b. refl };

    ghost matches_eq = { λ a b. texts_ties a b };

    fn cmp(&self, other: &Record) -> Ordering {
        self.bytes().cmp(other.bytes())
    }
}
