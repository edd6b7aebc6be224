//! Records by the order of their keys: the first from a bound on, the last up to one, and all.

ghost use Rattle.std.specs.Prelude.{◌≡◌, ◌<◌, ◌≤◌, ℕ, true, false, length};
ghost use Rattle.std.specs.Prelude.{[], slice_index_or, IfOk, IfSome, IsTrue};
ghost use Rattle.std.specs.Option.{option_copied, option_map};
ghost use Rattle.cics_ksds.specs.Files.{entry_of, fits_file, is_from, first_from, last_to};
ghost use Rattle.cics_ksds.specs.Slots.{AreSlots, key_at, file_of, record_in, last_record};
ghost use Rattle.cics_ksds.specs.Slots.{slots_from, slots_before, listed};
ghost use Rattle.cics_ksds.specs.declared.slots.Slot.TheVariants.{Empty};
ghost use Rattle.cics_ksds.specs.Slots.{slots_in, interval_at, index_of, IsThere};

use crate::FileDef;
use crate::dataset::Dataset;
use crate::slots::{Position, Slot, find, slot_at};
use cics_names::{Items, NoMemory, Record};
use std::alloc::Global;

/// Returns where the keys from a bound on begin, or strictly above it.
pub(crate) fn start_of(definition: FileDef, slots: &Dataset, bound: &[u8], strict: bool) -> Position
    requires { AreSlots definition (slots_in slots.now) }
    ensures there { 0 < length slots.now → IsThere slots.now result }
    ensures slot { result.slot ≤ length (interval_at slots.now result) }
    ensures before { (j : ℕ) → j < index_of slots.now result → j < length (slots_in slots.now)
        → is_from bound.now strict (key_at definition (slots_in slots.now) j) ≡ false }
    ensures after { (j : ℕ) → index_of slots.now result ≤ j → j < length (slots_in slots.now)
        → is_from bound.now strict (key_at definition (slots_in slots.now) j) ≡ true }
{
    match find(definition, slots, bound) {
        Ok(at) => {
            if strict {
                let slot = at.slot + 1;
                Position { slot, ..at }
            } else {
                at
            }
        }
        Err(at) => at,
    }
}

/// Returns where to look on behind an empty slot: behind its whole interval if that has no record.
pub(crate) fn behind(slots: &Dataset, here: Position) -> Position
    requires there { IsThere slots.now here }
    requires slot { here.slot < length (interval_at slots.now here) }
    requires empty { record_in (slice_index_or (slots_in slots.now)
        (index_of slots.now here) (Empty [])) ≡ None }
    ensures there { IsThere slots.now result }
    ensures slot { result.slot ≤ length (interval_at slots.now result) }
    ensures further { index_of slots.now here < index_of slots.now result }
    ensures records { listed (slots_from slots.now result)
        ≡ listed (slots_from slots.now here) }
{
    let interval = &slots.intervals(here.area)[here.interval];
    let count = interval.count();
    let slot = if interval.records() == 0 {
        count
    } else {
        here.slot + 1
    };
    Position { slot, ..here }
}

/// Returns where to look on before an empty slot: before its whole interval if that has no record.
fn before(slots: &Dataset, here: Position) -> Position
    requires there { IsThere slots.now here }
    requires slot { here.slot < length (interval_at slots.now here) }
    ensures there { IsThere slots.now result }
    ensures slot { result.slot ≤ length (interval_at slots.now result) }
    ensures further { index_of slots.now result ≤ index_of slots.now here }
    ensures records { last_record (slots_before slots.now result)
        ≡ last_record (slots_before slots.now here) }
{
    if slots.intervals(here.area)[here.interval].records() == 0 {
        return Position { slot: 0, ..here };
    }
    here
}

/// Returns the record of the smallest key from a bound on, or strictly above it.
pub(crate) fn first_record_from<'a>(
    definition: FileDef,
    slots: &'a Dataset,
    bound: &[u8],
    strict: bool,
) -> Option<&'a Record>
    requires { AreSlots definition (slots_in slots.now) }
    ensures found { first_from (file_of definition slots.now).records bound.now strict
        ≡ option_map (entry_of definition) (option_copied result) }
    ensures fits { IfSome result (λ r. IsTrue (fits_file definition r.now)) }
{
    let mut at = start_of(definition, slots, bound, strict);
    while let Some(here) = slots.next(at) {
        match slot_at(slots, here) {
            Slot::Filled(record) => return Some(record.record()),
            Slot::Empty(_) => at = behind(slots, here),
        }
    }
    None
}

/// Returns the record of the greatest key up to a bound, or strictly below it.
pub(crate) fn last_record_to<'a>(
    definition: FileDef,
    slots: &'a Dataset,
    bound: &[u8],
    strict: bool,
) -> Option<&'a Record>
    requires { AreSlots definition (slots_in slots.now) }
    ensures found { last_to (file_of definition slots.now).records bound.now strict
        ≡ option_map (entry_of definition) (option_copied result) }
    ensures fits { IfSome result (λ r. IsTrue (fits_file definition r.now)) }
{
    // Keys up to a bound end where those above it begin.
    let mut at = start_of(definition, slots, bound, !strict);
    while let Some(here) = slots.previous(at) {
        match slot_at(slots, here) {
            Slot::Filled(record) => return Some(record.record()),
            Slot::Empty(_) => at = before(slots, here),
        }
    }
    None
}

/// Returns copies of all records, in the order of their keys.
pub(crate) fn copies(alloc: Global, slots: &Dataset) -> Result<Items<Record>, NoMemory>
    ensures { IfOk result (λ records. records ≡ listed (slots_in slots.now)) }
{
    let mut records = Items::new(alloc);
    let areas = slots.areas();
    for area in areas {
        let intervals = area.intervals();
        for interval in intervals {
            let slots = interval.slots();
            for slot in slots {
                if let Slot::Filled(record) = slot {
                    records.push(Record::from_slice(alloc, record.bytes())?)?;
                }
            }
        }
    }
    Ok(records)
}
