//! Commands whose bytes are borrowed.

ghost use Rattle.std.specs.Prelude.{◌≡◌};
ghost use Rattle.cics_history.specs.Borrowed.{as_op};

use crate::ops::Op;
use cics_names::{Name4, Name8};

/// An updating command whose bytes are borrowed: to read one takes no memory. A variant has what
/// the variant of `Op` of its name has, in the same order. Contracts see the command (`as_op`).
#[derive(Drop)]
pub enum OpRef<'a> {
    Write(Name8, &'a [u8], &'a [u8]),
    Rewrite(Name8, &'a [u8], &'a [u8]),
    Delete(Name8, &'a [u8]),
    DeleteGeneric(Name8, &'a [u8]),
    ReadUpdate(Name8, &'a [u8]),
    TsWrite(Name8, &'a [u8]),
    TsRewrite(Name8, u64, &'a [u8]),
    TsDelete(Name8),
    TdWrite(Name4, &'a [u8]),
    TdRead(Name4),
    TdDelete(Name4),
}

impl<'a> OpRef<'a> {
    /// Returns a command, its bytes borrowed.
    pub fn of(op: &'a Op) -> OpRef<'a>
        ensures { as_op result ≡ op.now }
    {
        match op {
            Op::Write { file, key, from } => OpRef::Write(*file, key.bytes(), from.bytes()),
            Op::Rewrite { file, key, from } => OpRef::Rewrite(*file, key.bytes(), from.bytes()),
            Op::Delete { file, key } => OpRef::Delete(*file, key.bytes()),
            Op::DeleteGeneric { file, prefix } => OpRef::DeleteGeneric(*file, prefix.bytes()),
            Op::ReadUpdate { file, key } => OpRef::ReadUpdate(*file, key.bytes()),
            Op::TsWrite { queue, from } => OpRef::TsWrite(*queue, from.bytes()),
            Op::TsRewrite { queue, item, from } => OpRef::TsRewrite(*queue, *item, from.bytes()),
            Op::TsDelete { queue } => OpRef::TsDelete(*queue),
            Op::TdWrite { queue, from } => OpRef::TdWrite(*queue, from.bytes()),
            Op::TdRead { queue } => OpRef::TdRead(*queue),
            Op::TdDelete { queue } => OpRef::TdDelete(*queue),
        }
    }
}
