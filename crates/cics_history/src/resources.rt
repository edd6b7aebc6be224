//! Resources, and the units that own them.

ghost use Rattle.std.specs.Prelude.{◌≡◌, ◌≤◌, length};
ghost use Rattle.cics_history.specs.Resources.{bytes_of};
ghost use Rattle.cics_history.specs.declared.resources.Resource.TheVariants.{FileKey, FilePrefix};
ghost use Rattle.cics_history.specs.declared.resources.Resource.TheVariants.{User};

use arrayvec::ArrayVec;
use cics_names::{Name4, Name8};
use std::marker::Model;

/// A unit of work, by its number.
#[derive(Clone, Copy, PartialEq, Eq, Hash)]
pub struct UnitId {
    number: u64,
}

impl Model for UnitId {
    ghost use Rattle.std.specs.Prelude.{ℕ};

    ghost Value = { ℕ };

    ghost view = { λ u. u.number };

    ghost inverse = { λ n. record { number = n } };
}

impl UnitId {
    /// Returns the unit of this number: 0 for the first that begins.
    pub fn new(number: u64) -> UnitId
        ensures { result ≡ number }
    {
        UnitId { number }
    }

    /// Returns its number.
    pub fn number(self) -> u64
        ensures { result ≡ self }
    {
        self.number
    }
}

/// What a unit can own.
#[derive(PartialEq, Eq, Hash, Drop)]
pub enum Resource {
    /// The record of a file under a key, whether it is there or not.
    FileKey(Name8, ArrayVec<u8, 255>),
    /// A temporary storage queue.
    TsQueue(Name8),
    /// The end of a transient data queue at which records are read.
    TdRead(Name4),
    /// The end of a transient data queue at which records are written.
    TdWrite(Name4),
    /// A value of a program's own.
    User(ArrayVec<u8, 255>),
    /// The records of a file under every key that begins with these bytes, whether they are there
    /// or not.
    FilePrefix(Name8, ArrayVec<u8, 255>),
}

// Returns bytes as a resource has them.
fn kept(bytes: &[u8]) -> ArrayVec<u8, 255>
    requires most { length bytes.now ≤ 255 }
    ensures { result ≡ bytes_of bytes.now }
{
    let mut kept = ArrayVec::new();
    match kept.try_extend_from_slice(bytes) {
        Ok(()) => kept,
        Err(_) => unreachable!(),
    }
}

impl Resource {
    /// Returns the resource of a file's record under this key, of at most 255 bytes, whether it is
    /// there or not.
    pub fn record(file: Name8, key: &[u8]) -> Resource
        requires most { length key.now ≤ 255 }
        ensures { result ≡ FileKey file (bytes_of key.now) }
    {
        Resource::FileKey(file, kept(key))
    }

    /// Returns the resource of a file's records under every key that begins with these at most 255
    /// bytes, whether they are there or not.
    pub fn prefix(file: Name8, bytes: &[u8]) -> Resource
        requires most { length bytes.now ≤ 255 }
        ensures { result ≡ FilePrefix file (bytes_of bytes.now) }
    {
        Resource::FilePrefix(file, kept(bytes))
    }

    /// Returns the resource of a user's value of at most 255 bytes.
    pub fn value(bytes: &[u8]) -> Resource
        requires most { length bytes.now ≤ 255 }
        ensures { result ≡ User (bytes_of bytes.now) }
    {
        Resource::User(kept(bytes))
    }
}
