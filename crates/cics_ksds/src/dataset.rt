//! All slots of a file, in intervals, and those in areas.

ghost use Rattle.std.specs.Prelude.{◌≡◌, ◌+◌, ◌*◌, ◌^◌, ◌<◌, ◌≤◌, [], ◌∷◌, All, IfOk, OnOk, OnErr};
ghost use Rattle.std.specs.Prelude.{length, slice_set, slice_index_or, vec_len, vec_capacity};
ghost use Rattle.std.specs.List.{insert, remove};
ghost use Rattle.cics_ksds.specs.declared.definition.FileDef.{FileDef};
ghost use Rattle.cics_ksds.specs.Slots.{joined, slots_in, IsArea, IsThere, IsNext, IsPrevious};
ghost use Rattle.cics_ksds.specs.Slots.{IsRoom, IsAreaRoom, HasHalves, interval_at, number_of};
ghost use Rattle.cics_ksds.specs.Slots.{index_of, with_slot, without_slot, halved, empty_count};
ghost use Rattle.cics_ksds.specs.Slots.{AreSlots, IsSlot, IsSlotOf, IsPut, slot_key};

use crate::areas::{self, Area};
use crate::intervals::{self, Interval};
use crate::rooms::insert_reserved;
use crate::slots::{Position, Slot};
use cics_names::NoMemory;
use std::alloc::Global;
use std::marker::Model;

/// The slots of a file, in the order of their keys. They are in intervals of 1 to 16 slots, and
/// those in areas of 1 to 64 intervals. So an insert or a removal moves only a few slots.
///
/// Contracts see the list of the areas, each as the list of its intervals, each as the list of its
/// slots.
#[derive(Drop)]
pub(crate) struct Dataset {
    areas: Vec<Area>,
    /// How many intervals there are in all areas.
    count: u64,
    /// How many slots there are in all intervals.
    len: u64,
    /// How many of the slots are empty.
    empties: u64,
}

impl Model for Dataset {
    ghost use Rattle.std.specs.Prelude.{◌≡◌, List, All, length};
    ghost use Rattle.cics_ksds.specs.declared.slots.Slot.{Slot};
    ghost use Rattle.cics_ksds.specs.Slots.{joined, slots_in, empty_count, IsArea};

    ghost Value = { List (List (List Slot)) };

    ghost view = { λ d. d.areas.items };

    ghost invariant = { λ d. record {
      each : All IsArea d.areas.items;
      counted : d.count ≡ length (joined d.areas.items);
      long : d.len ≡ length (slots_in d.areas.items);
      empties : d.empties ≡ empty_count (slots_in d.areas.items);
    } };
}

impl Dataset {
    /// Returns a list without slots. It takes no memory.
    pub(crate) fn new(alloc: Global) -> Dataset
        ensures { result ≡ [] }
    {
        Dataset {
            areas: Vec::new(alloc),
            count: 0,
            len: 0,
            empties: 0,
        }
    }

    /// Returns the areas, in the order of their keys.
    pub(crate) fn areas(&self) -> &[Area]
        ensures areas { result.now ≡ self.now }
        ensures each { All IsArea self.now }
    {
        self.areas.as_slice()
    }

    /// Returns the intervals of an area, in the order of their keys.
    pub(crate) fn intervals(&self, area: usize) -> &[Interval]
        requires { area < length self.now }
        ensures { result.now ≡ slice_index_or self.now area [] }
    {
        self.areas[area].intervals()
    }

    /// Returns the slots of an interval, in the order of their keys.
    pub(crate) fn slots(&self, area: usize, interval: usize) -> &[Slot]
        requires area { area < length self.now }
        requires interval { interval < length (slice_index_or self.now area []) }
        ensures { result.now ≡ slice_index_or (slice_index_or self.now area []) interval [] }
    {
        self.intervals(area)[interval].slots()
    }

    /// Returns where the slot at a position is, or if its interval ends there, the next one.
    pub(crate) fn next(&self, at: Position) -> Option<Position>
        requires there { 0 < length self.now → IsThere self.now at }
        requires slot { at.slot ≤ length (interval_at self.now at) }
        ensures next { IsNext self.now at result }
        ensures few { length (slots_in self.now) < 2 ^ 64 }
    {
        if self.len == 0 {
            return None;
        }
        if at.slot < self.slots(at.area, at.interval).len() {
            return Some(at);
        }
        let intervals = self.intervals(at.area).len();
        if at.interval + 1 < intervals {
            return Some(Position {
                area: at.area,
                interval: at.interval + 1,
                slot: 0,
            });
        }
        if at.area + 1 < self.areas.len() {
            return Some(Position {
                area: at.area + 1,
                interval: 0,
                slot: 0,
            });
        }
        None
    }

    /// Returns where the slot before a position is.
    pub(crate) fn previous(&self, at: Position) -> Option<Position>
        requires there { 0 < length self.now → IsThere self.now at }
        requires slot { at.slot ≤ length (interval_at self.now at) }
        ensures { IsPrevious self.now at result }
    {
        if at.slot > 0 {
            let slot = at.slot - 1;
            return Some(Position { slot, ..at });
        }
        if self.len == 0 {
            return None;
        }
        if at.interval > 0 {
            let interval = at.interval - 1;
            let slot = self.slots(at.area, interval).len() - 1;
            return Some(Position {
                interval,
                slot,
                ..at
            });
        }
        if at.area == 0 {
            return None;
        }
        let area = at.area - 1;
        let interval = self.intervals(area).len() - 1;
        let slot = self.slots(area, interval).len() - 1;
        Some(Position {
            area,
            interval,
            slot,
        })
    }

    /// Returns how many intervals there are. Cost: O(1).
    pub(crate) fn count(&self) -> u64
        ensures count { result ≡ length (joined self.now) }
        ensures at_least { length (slots_in self.now) ≤ 16 * result }
        ensures at_most { result ≤ length (slots_in self.now) }
    {
        self.count
    }

    /// Returns how many slots there are. Cost: O(1).
    pub(crate) fn len(&self) -> u64
        ensures { result ≡ length (slots_in self.now) }
    {
        self.len
    }

    /// Returns how many of the slots are empty. Cost: O(1).
    pub(crate) fn empties(&self) -> u64
        ensures { result ≡ empty_count (slots_in self.now) }
    {
        self.empties
    }

    /// Returns slots like these in the same intervals, and those in the same areas.
    pub(crate) fn copy(&self, alloc: Global) -> Result<Dataset, NoMemory>
        ensures { IfOk result (λ copy. copy ≡ self.now) }
    {
        let mut areas = Vec::with_capacity(alloc, self.areas.len())?;
        let from = self.areas.as_slice();
        for area in from {
            areas.push(area.copy(alloc)?)?;
        }
        Ok(Dataset {
            areas,
            count: self.count,
            len: self.len,
            empties: self.empties,
        })
    }

    /// Replaces a slot, and returns the old one. It takes no memory.
    pub(crate) fn put(&mut self, at: Position, slot: Slot) -> Slot
        requires there { IsThere self.old at }
        requires slot { at.slot < length (interval_at self.old at) }
        ensures put { (definition : FileDef) → AreSlots definition (slots_in self.old)
            → IsSlotOf definition self.old (slot_key definition slot) at
            → IsSlot definition slot → IsPut definition self.old self.new slot result }
        ensures slots { slots_in self.new
            ≡ slice_set (slots_in self.old) (index_of self.old at) slot }
        ensures old { result ≡ slice_index_or (slots_in self.old) (index_of self.old at) result }
    {
        let comes = slot.empties();
        let old = self.areas[at.area].put(at.interval, at.slot, slot);
        self.empties = self.empties - old.empties() + comes;
        old
    }

    /// Inserts a slot. A full interval is split first, and so is a full area.
    ///
    /// The only error is `NoMemory`. A full area may be split then, and the slots are as they were.
    pub(crate) fn insert(&mut self, at: Position, slot: Slot) -> Result<(), NoMemory>
        requires there { 0 < length self.old → IsThere self.old at }
        requires slot { at.slot ≤ length (interval_at self.old at) }
        ensures slots { OnOk result (slots_in self.new
            ≡ insert (slots_in self.old) (index_of self.old at) slot) }
        ensures intervals { OnOk result (joined self.new
            ≡ with_slot (joined self.old) (number_of self.old at) at.slot slot) }
        ensures err { OnErr result (slots_in self.new ≡ slots_in self.old) }
    {
        if self.areas.is_empty() {
            self.insert_first(slot)
        } else {
            self.insert_among(at, slot)
        }
    }

    /// Inserts the first slot of all.
    fn insert_first(&mut self, slot: Slot) -> Result<(), NoMemory>
        requires { self.old ≡ [] }
        ensures ok { OnOk result (self.new ≡ ((slot ∷ []) ∷ []) ∷ []) }
        ensures err { OnErr result (self.new ≡ self.old) }
    {
        let alloc = *self.areas.allocator();
        let empties = slot.empties();
        let mut interval = Interval::new(alloc)?;
        interval.insert(0, slot);
        let area = Area::new(alloc, interval)?;
        self.areas.push(area)?;
        self.empties = empties;
        self.len = 1;
        self.count = 1;
        Ok(())
    }

    /// Inserts a slot, if there are others.
    fn insert_among(&mut self, at: Position, slot: Slot) -> Result<(), NoMemory>
        requires there { IsThere self.old at }
        requires slot { at.slot ≤ length (interval_at self.old at) }
        ensures slots { OnOk result (slots_in self.new
            ≡ insert (slots_in self.old) (index_of self.old at) slot) }
        ensures intervals { OnOk result (joined self.new
            ≡ with_slot (joined self.old) (number_of self.old at) at.slot slot) }
        ensures err { OnErr result (slots_in self.new ≡ slots_in self.old) }
    {
        // More slots than a number can tell are refused as memory is: no machine has them.
        let Some(len) = self.len.checked_add(1) else {
            return Err(NoMemory);
        };
        let next = self.make_room(at)?;
        let comes = slot.empties();
        self.areas[next.area].insert(next.interval, next.slot, slot);
        self.len = len;
        self.empties += comes;
        Ok(())
    }

    /// Splits a full interval, and returns where the new slot goes then. Between the two halves it
    /// goes to the end of the first.
    fn make_room(&mut self, at: Position) -> Result<Position, NoMemory>
        requires there { IsThere self.old at }
        requires slot { at.slot ≤ length (interval_at self.old at) }
        ensures ok { IfOk result (IsRoom self.old at self.new) }
        ensures err { OnErr result (slots_in self.new ≡ slots_in self.old) }
    {
        if slots_at(&self.areas, at) < intervals::FULL {
            return Ok(at);
        }
        // More intervals than a count can tell are refused as memory is: no machine has them.
        let Some(count) = self.count.checked_add(1) else {
            return Err(NoMemory);
        };
        let right = Interval::new(*self.areas.allocator())?;
        let next = self.make_area_room(at)?;
        split_interval(&mut self.areas, next, right)?;
        self.count = count;
        if next.slot <= intervals::HALF {
            return Ok(next);
        }
        Ok(Position {
            area: next.area,
            interval: next.interval + 1,
            slot: next.slot - intervals::HALF,
        })
    }

    /// Splits a full area, and returns where the position is then.
    fn make_area_room(&mut self, at: Position) -> Result<Position, NoMemory>
        requires { IsThere self.old at }
        ensures intervals { joined self.new ≡ joined self.old }
        ensures ok { IfOk result (IsAreaRoom self.old at self.new) }
        ensures err { OnErr result (self.new ≡ self.old) }
    {
        if self.areas[at.area].count() < areas::FULL {
            return Ok(at);
        }
        self.areas.reserve(1)?;
        split_area(&mut self.areas, at)
    }

    /// Removes a slot, and returns it. An interval that is left without slots is removed too, and
    /// so is an area without intervals.
    pub(crate) fn remove(&mut self, at: Position) -> Slot
        requires there { IsThere self.old at }
        requires slot { at.slot < length (interval_at self.old at) }
        ensures slots { slots_in self.new ≡ remove (slots_in self.old) (index_of self.old at) }
        ensures old { result ≡ slice_index_or (slots_in self.old) (index_of self.old at) result }
        ensures intervals { joined self.new
            ≡ without_slot (joined self.old) (number_of self.old at) at.slot }
    {
        if slots_at(&self.areas, at) > 1 {
            let old = self.areas[at.area].remove(at.interval, at.slot);
            self.len -= 1;
            self.empties -= old.empties();
            return old;
        }
        let old = remove_last(&mut self.areas, at);
        self.count -= 1;
        self.len -= 1;
        self.empties -= old.empties();
        old
    }
}

/// Returns how many slots there are in the interval of a position.
fn slots_at(areas: &Vec<Area>, at: Position) -> usize
    requires { IsThere areas.now.items at }
    ensures count { result ≡ length (interval_at areas.now.items at) }
    ensures at_most { result ≤ 16 }
{
    areas[at.area].intervals()[at.interval].count()
}

/// Splits a full interval in two; the second half is put into `right`.
fn split_interval(areas: &mut Vec<Area>, at: Position, right: Interval) -> Result<(), NoMemory>
    requires each { All IsArea areas.old.items }
    requires there { IsThere areas.old.items at }
    requires room { length (slice_index_or areas.old.items at.area []) < 64 }
    requires full { length (interval_at areas.old.items at) ≡ 16 }
    requires none { right ≡ [] }
    ensures each { All IsArea areas.new.items }
    ensures intervals { OnOk result (joined areas.new.items
        ≡ halved (joined areas.old.items) (number_of areas.old.items at)) }
    ensures halves { OnOk result (HasHalves areas.old.items at areas.new.items) }
    ensures err { OnErr result (areas.new.items ≡ areas.old.items) }
{
    areas[at.area].split_interval(at.interval, right)?;
    Ok(())
}

/// Splits a full area in two, and returns where the position is then. There must be room for the
/// second half.
fn split_area(areas: &mut Vec<Area>, at: Position) -> Result<Position, NoMemory>
    requires each { All IsArea areas.old.items }
    requires there { IsThere areas.old.items at }
    requires room { vec_len areas.old < vec_capacity areas.old }
    requires full { length (slice_index_or areas.old.items at.area []) ≡ 64 }
    ensures each { All IsArea areas.new.items }
    ensures intervals { joined areas.new.items ≡ joined areas.old.items }
    ensures next { IfOk result (IsAreaRoom areas.old.items at areas.new.items) }
    ensures err { OnErr result (areas.new.items ≡ areas.old.items) }
{
    let alloc = *areas.allocator();
    let right = areas[at.area].split(alloc)?;
    insert_reserved(areas, at.area + 1, right);
    if at.interval < areas::HALF {
        return Ok(at);
    }
    Ok(Position {
        area: at.area + 1,
        interval: at.interval - areas::HALF,
        slot: at.slot,
    })
}

/// Removes the interval of a slot, and its area if that has no other. Returns the slot.
fn remove_last(areas: &mut Vec<Area>, at: Position) -> Slot
    requires each { All IsArea areas.old.items }
    requires there { IsThere areas.old.items at }
    requires slot { at.slot < length (interval_at areas.old.items at) }
    ensures each { All IsArea areas.new.items }
    ensures intervals { joined areas.new.items
        ≡ remove (joined areas.old.items) (number_of areas.old.items at) }
    ensures old { result ≡ slice_index_or (interval_at areas.old.items at) at.slot result }
{
    let area = &mut areas[at.area];
    let mut interval = area.remove_interval(at.interval);
    let old = interval.remove(at.slot);
    if area.count() > 0 {
        return old;
    }
    drop(areas.remove(at.area));
    old
}
