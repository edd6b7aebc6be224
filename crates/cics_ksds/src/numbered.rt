//! Records beside their key heads: the first bytes of their keys as numbers.

ghost use Rattle.std.specs.Prelude.{◌≡◌, ◌<◌, IfOk, length};
ghost use Rattle.cics_ksds.specs.Words.{AreNumbers, IsHeadOf};

use crate::comparing::{Numbers, WORD};
use cics_names::{NoMemory, Record};
use std::alloc::Global;
use std::marker::Model;

/// A key head: where a key lies in a record, and its first bytes as numbers.
#[derive(Clone, Copy)]
pub(crate) struct KeyHead {
    /// How many bytes of the record stand before the key.
    pub(crate) offset: u32,
    /// How many bytes the key has. It is 0 if there are no numbers of it.
    pub(crate) length: u32,
    /// Its first bytes, by which it is compared.
    pub(crate) numbers: Numbers,
}

/// How far into a record a key may begin that has numbers, and how long it may be. This leaves out
/// no key of a record of up to 32,767 bytes.
const FARTHEST: u64 = 32_767;

impl KeyHead {
    /// Returns the key head of no key.
    pub(crate) fn none() -> KeyHead
        ensures { result.length ≡ 0 }
    {
        KeyHead {
            offset: 0,
            length: 0,
            numbers: Numbers {
                first: 0,
                second: 0,
            },
        }
    }

    /// Returns the key head of the key of `length` bytes at `offset`. It has no numbers if that key
    /// is shorter than a number, or reaches out of the record.
    fn of(bytes: &[u8], offset: u64, length: u64) -> KeyHead
        ensures { IsHeadOf bytes.now result }
    {
        if length < WORD as u64
            || length > FARTHEST
            || offset > FARTHEST
            || (bytes.len() as u64) < offset + length
        {
            return KeyHead::none();
        }
        let start = offset as usize;
        let end = start + length as usize;
        KeyHead {
            offset: offset as u32,
            length: length as u32,
            numbers: Numbers::of(&bytes[start..end]),
        }
    }
}

/// A record, or the key of one, and beside it the head of the key that lies in it. So a search
/// compares keys without reading the records, which are elsewhere in memory.
///
/// Contracts see the bytes of the record alone.
#[derive(Drop)]
pub(crate) struct Numbered {
    content: Record,
    /// Where the key lies in the record, and its numbers.
    head: KeyHead,
}

impl Model for Numbered {
    ghost use Rattle.std.specs.Prelude.{ℕ, List};
    ghost use Rattle.cics_ksds.specs.Words.{IsHeadOf};

    ghost Value = { List ℕ };

    ghost view = { λ n. n.content };

    ghost invariant = { λ n. IsHeadOf n.content n.head };
}

impl Numbered {
    /// Returns the record with the numbers of the key of `length` bytes at `offset`.
    pub(crate) fn new(content: Record, offset: u64, length: u64) -> Numbered
        ensures { result ≡ content }
    {
        let head = KeyHead::of(content.bytes(), offset, length);
        Numbered { content, head }
    }

    /// Returns a record with the same bytes and key head. The only error is `NoMemory`.
    pub(crate) fn copy(&self, alloc: Global) -> Result<Numbered, NoMemory>
        ensures { IfOk result (λ copy. copy ≡ self.now) }
    {
        Ok(Numbered {
            content: Record::from_slice(alloc, self.content.bytes())?,
            head: self.head,
        })
    }

    /// Returns the record.
    pub(crate) fn record(&self) -> &Record
        ensures { result.now ≡ self.now }
    {
        &self.content
    }

    /// Returns the bytes of the record.
    pub(crate) fn bytes(&self) -> &[u8]
        ensures { result.now ≡ self.now }
    {
        self.content.bytes()
    }

    /// Returns the record alone.
    pub(crate) fn into_record(self) -> Record
        ensures { result ≡ self }
    {
        self.content
    }

    /// Returns the key head of the key that lies in the record.
    pub(crate) fn head(&self) -> KeyHead
        ensures { IsHeadOf self.now result }
    {
        self.head
    }

    /// Returns the key head of a key that is all there is, or of none.
    pub(crate) fn whole_head(&self) -> KeyHead
        ensures { 0 < result.length
            → (length self.now ≡ result.length) × AreNumbers self.now result.numbers }
    {
        let head = self.head;
        if head.offset != 0 || head.length as usize != self.content.len() {
            return KeyHead::none();
        }
        head
    }
}
