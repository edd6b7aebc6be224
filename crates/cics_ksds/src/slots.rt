//! The slots of a file (`Slot`), in the order of their keys, and how one is found.
//!
//! A slot has a record, or it is empty. Then its record was deleted in a unit of work that may
//! still be backed out. The slot stays so that putting the record back takes no memory.

ghost use Rattle.std.specs.Prelude.{◌≡◌, ◌<◌, [], ◌∷◌, All, length, slice_index_or};
ghost use Rattle.std.specs.Prelude.{IfOk, IfErr, IfSome, OnOk, OnErr};
ghost use Rattle.std.specs.Option.{option_copied};
ghost use Rattle.cics_names.specs.Keyed.{value_at, bytes_cmp};
ghost use Rattle.cics_ksds.specs.Files.{dropped};
ghost use Rattle.cics_ksds.specs.Heads.{IsSlotHead};
ghost use Rattle.cics_ksds.specs.Slots.{IsSlot, AreSlots, IsAt, IsGapFor};
ghost use Rattle.cics_ksds.specs.Slots.{slot_key, key_at, file_of, placed, slots_in};
ghost use Rattle.cics_ksds.specs.Slots.{empty_in, listed, interval_in, interval_at, index_of};
ghost use Rattle.cics_ksds.specs.Slots.{IsSpot, IsThere, IsSlotOf, IsGapAt, HasFirst};
ghost use Rattle.cics_ksds.specs.Slots.{IsLastFrom, first_key_of, AreKeyNumbers};
ghost use Rattle.cics_ksds.specs.declared.slots.Slot.TheVariants.{Filled, Empty};

use crate::FileDef;
use crate::areas::Area;
use crate::comparing::{Numbers, WORD, order_of};
use crate::dataset::Dataset;
use crate::intervals::Interval;
use crate::numbered::{KeyHead, Numbered};
use cics_names::{NoMemory, Record};
use std::alloc::Global;
use std::cmp::Ordering;

/// One slot of a file.
#[derive(Drop)]
pub(crate) enum Slot {
    /// A record, which has its own key.
    Filled(Numbered),
    /// The key of a slot without a record.
    Empty(Numbered),
}

impl Slot {
    /// Returns the slot of a record.
    pub(crate) fn filled(definition: FileDef, content: Record) -> Slot
        ensures { result ≡ Filled content }
    {
        Slot::Filled(Numbered::new(content, definition.key_offset, definition.key_length))
    }

    /// Returns the empty slot of a key.
    pub(crate) fn empty(key: Record) -> Slot
        ensures { result ≡ Empty key }
    {
        let length = key.len() as u64;
        Slot::Empty(Numbered::new(key, 0, length))
    }

    /// Returns the key that the slot is found by.
    pub(crate) fn key(&self, definition: FileDef) -> &[u8]
        requires { IsSlot definition self.now }
        ensures { result.now ≡ slot_key definition self.now }
    {
        match self {
            Slot::Filled(record) => definition.key_in(record.bytes()),
            Slot::Empty(key) => key.bytes(),
        }
    }

    /// Returns the key head of the key.
    pub(crate) fn head(&self) -> KeyHead
        ensures { IsSlotHead self.now result }
    {
        match self {
            Slot::Filled(record) => record.head(),
            Slot::Empty(key) => key.whole_head(),
        }
    }

    /// Compares the key with one that is sought, whose numbers are known if it is a whole key.
    fn order_to(&self, definition: FileDef, key: &[u8], sought: Option<Numbers>) -> Ordering
        requires slot { IsSlot definition self.now }
        requires sought { IfSome sought (AreKeyNumbers definition key.now) }
        ensures { result ≡ bytes_cmp (slot_key definition self.now) key.now }
    {
        match order_by_head(self.head(), definition, key, sought) {
            Some(order) => order,
            None => order_of(self.key(definition), key),
        }
    }

    /// Returns 1 if the slot is empty, else 0.
    pub(crate) fn empties(&self) -> u64
        ensures { result ≡ empty_in self.now }
    {
        match self {
            Slot::Filled(_) => 0,
            Slot::Empty(_) => 1,
        }
    }

    /// Returns 1 if the slot has a record, else 0.
    pub(crate) fn records(&self) -> u64
        ensures { result ≡ length (listed (self.now ∷ [])) }
    {
        match self {
            Slot::Filled(_) => 1,
            Slot::Empty(_) => 0,
        }
    }

    /// Returns a copy of the slot. The only error is `NoMemory`.
    pub(crate) fn copy(&self, alloc: Global) -> Result<Slot, NoMemory>
        ensures { IfOk result (λ copy. copy ≡ self.now) }
    {
        match self {
            Slot::Filled(record) => Ok(Slot::Filled(record.copy(alloc)?)),
            Slot::Empty(key) => Ok(Slot::Empty(key.copy(alloc)?)),
        }
    }
}

/// Where a slot is, or would be inserted: the index of its area, of its interval there, and of
/// itself in that, each from 0.
#[derive(Clone, Copy)]
pub(crate) struct Position {
    pub(crate) area: usize,
    pub(crate) interval: usize,
    pub(crate) slot: usize,
}

/// Where the slot of a key is.
#[derive(Clone, Copy)]
pub(crate) enum Spot {
    /// A slot with a record.
    At(Position),
    /// A slot without one.
    AtEmpty(Position),
    /// The key has no slot, and would have it here.
    Gap(Position),
}

/// Returns the numbers of a key that is sought, if it is a whole key and long enough.
fn numbers_of(definition: FileDef, key: &[u8]) -> Option<Numbers>
    ensures { IfSome result (AreKeyNumbers definition key.now) }
{
    if key.len() < WORD || key.len() as u64 != definition.key_length {
        return None;
    }
    Some(Numbers::of(key))
}

/// Compares a key with this head with one that is sought. None if the numbers don't tell.
fn order_by_head(
    head: KeyHead,
    definition: FileDef,
    key: &[u8],
    sought: Option<Numbers>,
) -> Option<Ordering>
    requires { IfSome sought (AreKeyNumbers definition key.now) }
    ensures { IfSome result (λ order. (slot : Slot) → IsSlot definition slot
        → IsSlotHead slot head → order ≡ bytes_cmp (slot_key definition slot) key.now) }
{
    let Some(sought) = sought else {
        return None;
    };
    if head.length as u64 != definition.key_length || head.offset as u64 != definition.key_offset {
        return None;
    }
    let order = head.numbers.order(sought);
    if key.len() > Numbers::BYTES && order.is_eq() {
        return None;
    }
    Some(order)
}

/// Returns the index of a key's slot in an interval, or else the one where it would be inserted.
/// The keys rise, so each step leaves out half of the slots that are left.
fn search(
    definition: FileDef,
    slots: &[Slot],
    key: &[u8],
    sought: Option<Numbers>,
) -> Result<usize, usize>
    requires slots { AreSlots definition slots.now }
    requires sought { IfSome sought (AreKeyNumbers definition key.now) }
    ensures found { IfOk result (IsAt definition slots.now key.now) }
    ensures absent { IfErr result (IsGapFor definition slots.now key.now) }
{
    let mut low = 0;
    let mut high = slots.len();
    while low < high {
        let middle = low + (high - low) / 2;
        match slots[middle].order_to(definition, key, sought) {
            Ordering::Less => low = middle + 1,
            Ordering::Equal => return Ok(middle),
            Ordering::Greater => high = middle,
        }
    }
    Err(low)
}

/// Compares the key of the first slot of an interval with one that is sought.
fn first_order(
    definition: FileDef,
    interval: &Interval,
    key: &[u8],
    sought: Option<Numbers>,
) -> Ordering
    requires first { HasFirst definition interval.now }
    requires sought { IfSome sought (AreKeyNumbers definition key.now) }
    ensures { result ≡ bytes_cmp (key_at definition interval.now 0) key.now }
{
    match order_by_head(interval.head(), definition, key, sought) {
        Some(order) => order,
        None => order_of(interval.slots()[0].key(definition), key),
    }
}

/// Compares the first key of an area with one that is sought.
fn area_order(definition: FileDef, area: &Area, key: &[u8], sought: Option<Numbers>) -> Ordering
    requires some { 0 < length area.now }
    requires first { HasFirst definition (interval_in area.now 0) }
    requires sought { IfSome sought (AreKeyNumbers definition key.now) }
    ensures { result ≡ bytes_cmp (first_key_of definition area.now) key.now }
{
    match order_by_head(area.head(), definition, key, sought) {
        Some(order) => order,
        None => order_of(area.intervals()[0].slots()[0].key(definition), key),
    }
}

/// Returns the index of the last interval whose first key isn't above the key, or else of the first
/// one.
fn interval_of(
    definition: FileDef,
    intervals: &[Interval],
    key: &[u8],
    sought: Option<Numbers>,
) -> usize
    requires some { 0 < length intervals.now }
    requires each { All (HasFirst definition) intervals.now }
    requires sought { IfSome sought (AreKeyNumbers definition key.now) }
    ensures { IsLastFrom (λ i. key_at definition (interval_in intervals.now i) 0)
        (length intervals.now) key.now result }
{
    let mut low = 0;
    let mut high = intervals.len();
    while high - low > 1 {
        let middle = low + (high - low) / 2;
        match first_order(definition, &intervals[middle], key, sought) {
            Ordering::Less => low = middle,
            Ordering::Equal => low = middle,
            Ordering::Greater => high = middle,
        }
    }
    low
}

/// Returns the index of the last area whose first key isn't above the key, or else of the first
/// one.
fn area_of(definition: FileDef, areas: &[Area], key: &[u8], sought: Option<Numbers>) -> usize
    requires some { 0 < length areas.now }
    requires each { All (λ area. (0 < length area) × HasFirst definition (interval_in area 0))
        areas.now }
    requires sought { IfSome sought (AreKeyNumbers definition key.now) }
    ensures { IsLastFrom (λ i. first_key_of definition (slice_index_or areas.now i []))
        (length areas.now) key.now result }
{
    let mut low = 0;
    let mut high = areas.len();
    while high - low > 1 {
        let middle = low + (high - low) / 2;
        match area_order(definition, &areas[middle], key, sought) {
            Ordering::Less => low = middle,
            Ordering::Equal => low = middle,
            Ordering::Greater => high = middle,
        }
    }
    low
}

/// Returns where a key's slot is, or else where it would be inserted. That is in the last interval
/// that doesn't begin above the key, or if all do, in the first one.
pub(crate) fn find(definition: FileDef, slots: &Dataset, key: &[u8]) -> Result<Position, Position>
    requires { AreSlots definition (slots_in slots.now) }
    ensures found { IfOk result (IsSlotOf definition slots.now key.now) }
    ensures absent { IfErr result (IsGapAt definition slots.now key.now) }
{
    if slots.areas().is_empty() {
        return Err(Position {
            area: 0,
            interval: 0,
            slot: 0,
        });
    }
    let sought = numbers_of(definition, key);
    let area = area_of(definition, slots.areas(), key, sought);
    let interval = interval_of(definition, slots.intervals(area), key, sought);
    match search(definition, slots.slots(area, interval), key, sought) {
        Ok(slot) => Ok(Position {
            area,
            interval,
            slot,
        }),
        Err(slot) => Err(Position {
            area,
            interval,
            slot,
        }),
    }
}

/// Returns the slot at a position.
pub(crate) fn slot_at(slots: &Dataset, at: Position) -> &Slot
    requires there { IsThere slots.now at }
    requires slot { at.slot < length (interval_at slots.now at) }
    ensures { result.now
        ≡ slice_index_or (slots_in slots.now) (index_of slots.now at) result.now }
{
    &slots.slots(at.area, at.interval)[at.slot]
}

/// Returns where the slot of a key is, and whether it has a record: what each change starts from.
pub(crate) fn spot_of(definition: FileDef, slots: &Dataset, key: &[u8]) -> Spot
    requires { AreSlots definition (slots_in slots.now) }
    ensures { IsSpot definition slots.now key.now result }
{
    match find(definition, slots, key) {
        Ok(at) => match slot_at(slots, at) {
            Slot::Filled(_) => Spot::At(at),
            Slot::Empty(_) => Spot::AtEmpty(at),
        },
        Err(at) => Spot::Gap(at),
    }
}

/// Returns the record of a key. An empty slot has none.
pub(crate) fn record_of<'a>(
    definition: FileDef,
    slots: &'a Dataset,
    key: &[u8],
) -> Option<&'a Record>
    requires { AreSlots definition (slots_in slots.now) }
    ensures { option_copied result ≡ value_at key.now (file_of definition slots.now).records }
{
    match find(definition, slots, key) {
        Ok(at) => match slot_at(slots, at) {
            Slot::Filled(record) => Some(record.record()),
            Slot::Empty(_key) => None,
        },
        Err(_) => None,
    }
}

/// Inserts a slot into the gap for its key. A full interval is split first.
pub(crate) fn insert_at(
    definition: FileDef,
    slots: &mut Dataset,
    at: Position,
    slot: Slot,
) -> Result<(), NoMemory>
    requires slots { AreSlots definition (slots_in slots.old) }
    requires gap { IsGapAt definition slots.old (slot_key definition slot) at }
    requires slot { IsSlot definition slot }
    ensures slots { AreSlots definition (slots_in slots.new) }
    ensures value { OnOk result (file_of definition slots.new
        ≡ placed (file_of definition slots.old) (slot_key definition slot) slot) }
    ensures err { OnErr result (slots_in slots.new ≡ slots_in slots.old) }
{
    slots.insert(at, slot)?;
    Ok(())
}

/// Removes a slot, and returns it. It takes no memory.
pub(crate) fn take_at(definition: FileDef, slots: &mut Dataset, at: Position) -> Slot
    requires slots { AreSlots definition (slots_in slots.old) }
    requires there { IsThere slots.old at }
    requires slot { at.slot < length (interval_at slots.old at) }
    ensures slots { AreSlots definition (slots_in slots.new) }
    ensures value { file_of definition slots.new
        ≡ dropped (file_of definition slots.old)
        (key_at definition (slots_in slots.old) (index_of slots.old at)) }
    ensures old { result ≡ slice_index_or (slots_in slots.old) (index_of slots.old at) result }
{
    slots.remove(at)
}
