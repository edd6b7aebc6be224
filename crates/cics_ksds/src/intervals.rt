//! Control intervals: up to 16 slots side by side in one block of memory.

ghost use Rattle.std.specs.Prelude.{◌≡◌, ◌<◌, ◌≤◌, [], IfOk, length, take, drop};
ghost use Rattle.std.specs.Prelude.{slice_set, slice_index_or};
ghost use Rattle.std.specs.List.{insert, remove};
ghost use Rattle.cics_ksds.specs.Slots.{listed};
ghost use Rattle.cics_ksds.specs.Heads.{IsHead};

use crate::numbered::KeyHead;
use crate::rooms::{insert_reserved, move_tail};
use crate::slots::Slot;
use cics_names::NoMemory;
use std::alloc::Global;
use std::marker::Model;
use std::mem;

/// How many slots an interval has at most.
pub(crate) const FULL: usize = 16;

/// How many slots of a full interval stay in it when it is split.
pub(crate) const HALF: usize = 8;

/// Up to 16 slots, in the order of their keys. It is made with room for all 16, so that no edit of
/// it takes memory. Contracts see the list of its slots.
#[derive(Drop)]
pub(crate) struct Interval {
    slots: Vec<Slot>,
    /// How many of the slots have a record.
    records: u64,
    /// The key head of the first slot, by which an interval is found without reading its slots.
    head: KeyHead,
}

impl Model for Interval {
    ghost use Rattle.std.specs.Prelude.{◌≡◌, ◌≤◌, List, length, vec_capacity};
    ghost use Rattle.cics_ksds.specs.declared.slots.Slot.{Slot};
    ghost use Rattle.cics_ksds.specs.Slots.{listed};
    ghost use Rattle.cics_ksds.specs.Heads.{IsHead};

    ghost Value = { List Slot };

    ghost view = { λ i. i.slots.items };

    ghost invariant = { λ i. record {
      at_most : length i.slots.items ≤ 16;
      room : vec_capacity i.slots ≡ 16;
      counted : i.records ≡ length (listed i.slots.items);
      head : IsHead i.slots.items i.head;
    } };
}

impl Interval {
    /// Returns an interval without slots, which the caller will fill.
    pub(crate) fn new(alloc: Global) -> Result<Interval, NoMemory>
        ensures { IfOk result (λ made. made ≡ []) }
    {
        Ok(Interval {
            slots: Vec::with_capacity(alloc, FULL)?,
            records: 0,
            head: KeyHead::none(),
        })
    }

    /// Returns the slots, in the order of their keys.
    pub(crate) fn slots(&self) -> &[Slot]
        ensures { result.now ≡ self.now }
    {
        self.slots.as_slice()
    }

    /// Returns how many slots there are.
    pub(crate) fn count(&self) -> usize
        ensures count { result ≡ length self.now }
        ensures at_most { length self.now ≤ 16 }
    {
        self.slots.len()
    }

    /// Returns the key head of the first slot, if there is one. It is stored beside the slots.
    pub(crate) fn head(&self) -> KeyHead
        ensures { IsHead self.now result }
    {
        self.head
    }

    /// Returns how many of the slots have a record. Cost: O(1).
    pub(crate) fn records(&self) -> u64
        ensures { result ≡ length (listed self.now) }
    {
        self.records
    }

    /// Returns an interval with the same slots.
    pub(crate) fn copy(&self, alloc: Global) -> Result<Interval, NoMemory>
        ensures { IfOk result (λ copy. copy ≡ self.now) }
    {
        let mut slots = Vec::with_capacity(alloc, FULL)?;
        let from = self.slots.as_slice();
        for slot in from {
            slots.push_reserved(slot.copy(alloc)?);
        }
        Ok(Interval {
            slots,
            records: self.records,
            head: self.head,
        })
    }

    /// Replaces a slot, and returns the old one.
    pub(crate) fn put(&mut self, at: usize, slot: Slot) -> Slot
        requires { at < length self.old }
        ensures slots { self.new ≡ slice_set self.old at slot }
        ensures old { result ≡ slice_index_or self.old at result }
    {
        let comes = slot.records();
        let old = mem::replace(&mut self.slots[at], slot);
        self.records = self.records - old.records() + comes;
        self.head = head_of(self.slots.as_slice());
        old
    }

    /// Inserts a slot before the one at an index, or at the end. There must be room for it.
    pub(crate) fn insert(&mut self, at: usize, slot: Slot)
        requires in_range { at ≤ length self.old }
        requires room { length self.old < 16 }
        ensures { self.new ≡ insert self.old at slot }
    {
        self.records += slot.records();
        insert_reserved(&mut self.slots, at, slot);
        self.head = head_of(self.slots.as_slice());
    }

    /// Removes a slot, and returns it.
    pub(crate) fn remove(&mut self, at: usize) -> Slot
        requires { at < length self.old }
        ensures slots { self.new ≡ remove self.old at }
        ensures old { result ≡ slice_index_or self.old at result }
    {
        let old = self.slots.remove(at);
        self.records -= old.records();
        self.head = head_of(self.slots.as_slice());
        old
    }

    /// Moves all slots but the first 8 to an interval that has none.
    pub(crate) fn split(&mut self, right: &mut Interval)
        requires full { length self.old ≡ 16 }
        requires none { right.old ≡ [] }
        ensures left { self.new ≡ take 8 self.old }
        ensures right { right.new ≡ drop 8 self.old }
    {
        move_tail(&mut self.slots, HALF, &mut right.slots);
        right.records = records_in(right.slots.as_slice());
        right.head = head_of(right.slots.as_slice());
        self.records -= right.records;
        self.head = head_of(self.slots.as_slice());
    }
}

/// Returns the key head of the first of the slots, or of none.
fn head_of(slots: &[Slot]) -> KeyHead
    ensures { IsHead slots.now result }
{
    if slots.is_empty() {
        return KeyHead::none();
    }
    slots[0].head()
}

/// Returns how many of the slots have a record.
fn records_in(slots: &[Slot]) -> u64
    ensures { result ≡ length (listed slots.now) }
{
    let mut records = 0;
    for slot in slots {
        records += slot.records();
    }
    records
}
