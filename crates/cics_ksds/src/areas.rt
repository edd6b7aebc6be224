//! Control areas: up to 64 intervals side by side in one block of memory.

ghost use Rattle.std.specs.Prelude.{◌≡◌, ◌<◌, ◌≤◌, [], ◌∷◌, suc, IfOk, OnOk, OnErr, length};
ghost use Rattle.std.specs.Prelude.{take, drop, slice_set, slice_index_or};
ghost use Rattle.std.specs.List.{insert, remove};
ghost use Rattle.cics_ksds.specs.Slots.{interval_in};
ghost use Rattle.cics_ksds.specs.Heads.{IsAreaHead};

use crate::intervals::Interval;
use crate::numbered::KeyHead;
use crate::rooms::{insert_reserved, move_tail};
use crate::slots::Slot;
use cics_names::NoMemory;
use std::alloc::Global;
use std::marker::Model;

/// How many intervals an area has at most.
pub(crate) const FULL: usize = 64;

/// How many intervals of a full area stay in it when it is split.
pub(crate) const HALF: usize = 32;

/// Up to 64 intervals, in the order of their keys. Only one interval more takes memory. Contracts
/// see the list of the intervals, each as the list of its slots.
#[derive(Drop)]
pub(crate) struct Area {
    intervals: Vec<Interval>,
    /// The key head of the first slot, by which an area is found without reading its intervals.
    head: KeyHead,
}

impl Model for Area {
    ghost use Rattle.std.specs.Prelude.{◌≤◌, List, length};
    ghost use Rattle.cics_ksds.specs.declared.slots.Slot.{Slot};
    ghost use Rattle.cics_ksds.specs.Heads.{IsAreaHead};

    ghost Value = { List (List Slot) };

    ghost view = { λ a. a.intervals.items };

    ghost invariant = { λ a. record {
      at_most : length a.intervals.items ≤ 64;
      head : IsAreaHead a.intervals.items a.head;
    } };
}

impl Area {
    /// Returns an area with one interval.
    pub(crate) fn new(alloc: Global, interval: Interval) -> Result<Area, NoMemory>
        ensures { IfOk result (λ made. made ≡ interval ∷ []) }
    {
        let head = interval.head();
        let mut intervals = Vec::with_capacity(alloc, 1)?;
        intervals.push_reserved(interval);
        Ok(Area { intervals, head })
    }

    /// Returns the intervals, in the order of their keys.
    pub(crate) fn intervals(&self) -> &[Interval]
        ensures intervals { result.now ≡ self.now }
    {
        self.intervals.as_slice()
    }

    /// Returns the key head of the first slot, if there is one. It is stored beside the intervals.
    pub(crate) fn head(&self) -> KeyHead
        ensures { IsAreaHead self.now result }
    {
        self.head
    }

    /// Returns how many intervals there are.
    pub(crate) fn count(&self) -> usize
        ensures count { result ≡ length self.now }
        ensures at_most { length self.now ≤ 64 }
    {
        self.intervals.len()
    }

    /// Returns an area with the same intervals.
    pub(crate) fn copy(&self, alloc: Global) -> Result<Area, NoMemory>
        ensures { IfOk result (λ copy. copy ≡ self.now) }
    {
        let mut intervals = Vec::with_capacity(alloc, self.intervals.len())?;
        let from = self.intervals.as_slice();
        for interval in from {
            intervals.push_reserved(interval.copy(alloc)?);
        }
        Ok(Area {
            intervals,
            head: self.head,
        })
    }

    /// Replaces a slot, and returns the old one.
    pub(crate) fn put(&mut self, interval: usize, at: usize, slot: Slot) -> Slot
        requires interval { interval < length self.old }
        requires at { at < length (interval_in self.old interval) }
        ensures slots { self.new
            ≡ slice_set self.old interval (slice_set (interval_in self.old interval) at slot) }
        ensures old { result ≡ slice_index_or (interval_in self.old interval) at result }
    {
        let old = self.intervals[interval].put(at, slot);
        self.head = head_of(self.intervals.as_slice());
        old
    }

    /// Inserts a slot into an interval that has room for it.
    pub(crate) fn insert(&mut self, interval: usize, at: usize, slot: Slot)
        requires interval { interval < length self.old }
        requires at { at ≤ length (interval_in self.old interval) }
        requires room { length (interval_in self.old interval) < 16 }
        ensures { self.new
            ≡ slice_set self.old interval (insert (interval_in self.old interval) at slot) }
    {
        self.intervals[interval].insert(at, slot);
        self.head = head_of(self.intervals.as_slice());
    }

    /// Removes a slot, and returns it. The interval may be left without slots.
    pub(crate) fn remove(&mut self, interval: usize, at: usize) -> Slot
        requires interval { interval < length self.old }
        requires at { at < length (interval_in self.old interval) }
        ensures slots { self.new
            ≡ slice_set self.old interval (remove (interval_in self.old interval) at) }
        ensures old { result ≡ slice_index_or (interval_in self.old interval) at result }
    {
        let old = self.intervals[interval].remove(at);
        self.head = head_of(self.intervals.as_slice());
        old
    }

    /// Removes an interval, and returns it.
    pub(crate) fn remove_interval(&mut self, interval: usize) -> Interval
        requires { interval < length self.old }
        ensures intervals { self.new ≡ remove self.old interval }
        ensures old { result ≡ slice_index_or self.old interval result }
    {
        let old = self.intervals.remove(interval);
        self.head = head_of(self.intervals.as_slice());
        old
    }

    /// Splits a full interval in two. The second half moves to `right`, which comes behind it. The
    /// area isn't full.
    pub(crate) fn split_interval(
        &mut self,
        interval: usize,
        mut right: Interval,
    ) -> Result<(), NoMemory>
        requires interval { interval < length self.old }
        requires room { length self.old < 64 }
        requires full { length (interval_in self.old interval) ≡ 16 }
        requires none { right ≡ [] }
        ensures ok { OnOk result (self.new ≡ insert
            (slice_set self.old interval (take 8 (interval_in self.old interval)))
            (suc interval) (drop 8 (interval_in self.old interval))) }
        ensures err { OnErr result (self.new ≡ self.old) }
    {
        self.intervals.reserve(1)?;
        self.intervals[interval].split(&mut right);
        insert_reserved(&mut self.intervals, interval + 1, right);
        self.head = head_of(self.intervals.as_slice());
        Ok(())
    }

    /// Moves all intervals of a full area but the first 32 to a new one.
    pub(crate) fn split(&mut self, alloc: Global) -> Result<Area, NoMemory>
        requires full { length self.old ≡ 64 }
        ensures left { OnOk result (self.new ≡ take 32 self.old) }
        ensures right { IfOk result (λ right. right ≡ drop 32 self.old) }
        ensures err { OnErr result (self.new ≡ self.old) }
    {
        let mut intervals = Vec::with_capacity(alloc, FULL)?;
        move_tail(&mut self.intervals, HALF, &mut intervals);
        self.head = head_of(self.intervals.as_slice());
        let head = head_of(intervals.as_slice());
        Ok(Area { intervals, head })
    }
}

/// Returns the key head of the first slot of the first interval, or of none.
fn head_of(intervals: &[Interval]) -> KeyHead
    ensures { IsAreaHead intervals.now result }
{
    if intervals.is_empty() {
        return KeyHead::none();
    }
    intervals[0].head()
}
