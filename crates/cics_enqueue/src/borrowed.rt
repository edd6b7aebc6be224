//! Resources whose bytes are borrowed.

ghost use Rattle.std.specs.Prelude.{◌≡◌, ◌≤◌, length};
ghost use Rattle.cics_history.specs.Resources.{bytes_of};
ghost use Rattle.cics_history.specs.declared.resources.Resource.TheVariants.{FileKey, FilePrefix};
ghost use Rattle.cics_history.specs.declared.resources.Resource.TheVariants.{User, TsQueue};
ghost use Rattle.cics_history.specs.declared.resources.Resource.TheVariants.{TdRead, TdWrite};

use cics_history::Resource;
use cics_names::{Name4, Name8};
use std::marker::Model;

// The kinds of resources, each with a borrow of its bytes.
#[derive(Clone, Copy)]
pub(crate) enum ResourceKind<'a> {
    FileKey(Name8, &'a [u8]),
    TsQueue(Name8),
    TdRead(Name4),
    TdWrite(Name4),
    User(&'a [u8]),
    FilePrefix(Name8, &'a [u8]),
}

/// A resource to look up or to acquire, whose bytes are borrowed. So it is small, while a
/// `Resource` has room for 255 bytes. Contracts see it as the resource.
#[derive(Drop)]
pub struct ResourceRef<'a> {
    pub(crate) kind: ResourceKind<'a>,
}

impl<'a> Model for ResourceRef<'a> {
    ghost use Rattle.cics_history.specs.declared.resources.Resource.{Resource};
    ghost use Rattle.cics_enqueue.specs.Borrowed.{named, IsShort};

    ghost Value = { Resource };

    ghost view = { λ r. named r.kind };

    ghost invariant = { λ r. IsShort r.kind };
}

impl<'a> ResourceRef<'a> {
    /// Returns the record of a file under a key, whether it is there or not. The key has at most
    /// 255 bytes.
    pub fn record(file: Name8, key: &'a [u8]) -> ResourceRef<'a>
        requires most { length key.now ≤ 255 }
        ensures { result ≡ FileKey file (bytes_of key.now) }
    {
        ResourceRef {
            kind: ResourceKind::FileKey(file, key),
        }
    }

    /// Returns the records of a file under every key that begins with these bytes, whether they are
    /// there or not. There are at most 255 bytes.
    pub fn prefix(file: Name8, bytes: &'a [u8]) -> ResourceRef<'a>
        requires most { length bytes.now ≤ 255 }
        ensures { result ≡ FilePrefix file (bytes_of bytes.now) }
    {
        ResourceRef {
            kind: ResourceKind::FilePrefix(file, bytes),
        }
    }

    /// Returns a user's value of at most 255 bytes.
    pub fn value(bytes: &'a [u8]) -> ResourceRef<'a>
        requires most { length bytes.now ≤ 255 }
        ensures { result ≡ User (bytes_of bytes.now) }
    {
        ResourceRef {
            kind: ResourceKind::User(bytes),
        }
    }

    /// Returns a temporary storage queue.
    pub fn ts_queue(queue: Name8) -> ResourceRef<'a>
        ensures { result ≡ TsQueue queue }
    {
        ResourceRef {
            kind: ResourceKind::TsQueue(queue),
        }
    }

    /// Returns the end of a transient data queue at which records are read.
    pub fn reading_end(queue: Name4) -> ResourceRef<'a>
        ensures { result ≡ TdRead queue }
    {
        ResourceRef {
            kind: ResourceKind::TdRead(queue),
        }
    }

    /// Returns the end of a transient data queue at which records are written.
    pub fn writing_end(queue: Name4) -> ResourceRef<'a>
        ensures { result ≡ TdWrite queue }
    {
        ResourceRef {
            kind: ResourceKind::TdWrite(queue),
        }
    }

    /// Returns a resource, its bytes borrowed.
    pub fn of(resource: &'a Resource) -> ResourceRef<'a>
        ensures { result ≡ resource.now }
    {
        let kind = match resource {
            Resource::FileKey(file, key) => ResourceKind::FileKey(*file, key.as_slice()),
            Resource::TsQueue(queue) => ResourceKind::TsQueue(*queue),
            Resource::TdRead(queue) => ResourceKind::TdRead(*queue),
            Resource::TdWrite(queue) => ResourceKind::TdWrite(*queue),
            Resource::User(value) => ResourceKind::User(value.as_slice()),
            Resource::FilePrefix(file, prefix) => ResourceKind::FilePrefix(
                *file,
                prefix.as_slice(),
            ),
        };
        ResourceRef { kind }
    }
}
