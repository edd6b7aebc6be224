//! The records whose keys begin with the same bytes: counting and deleting them.

ghost use Rattle.std.specs.Prelude.{◌≡◌, ◌<◌, ◌≤◌, ◌^◌, ℕ, List, [], ◌∷◌, true, false, not};
ghost use Rattle.std.specs.Prelude.{length, map, slice_index_or, IfOk, IfSome, OnOk, OnErr};
ghost use Rattle.cics_ksds.specs.Files.{entry_of, is_from};
ghost use Rattle.cics_ksds.specs.Slots.{AreSlots, IsThere, IsRecordUnder, key_at, slots_in};
ghost use Rattle.cics_ksds.specs.Slots.{file_of, interval_at, index_of, left_at};
ghost use Rattle.cics_ksds.specs.declared.slots.Slot.TheVariants.{Filled, Empty};
ghost use Rattle.cics_ksds.specs.Prefixes.{has_prefix, under, outside, keys_under};
ghost use Rattle.cics_ksds.specs.Prefixes.{without_prefix, added_entry};

use crate::FileDef;
use crate::dataset::Dataset;
use crate::files::File;
use crate::images::{Before, FileImage};
use crate::ranges::{behind, start_of};
use crate::slots::{Position, Slot, slot_at, take_at};
use cics_names::{Items, NoMemory, Record};
use std::alloc::Global;

/// Returns the position of the first record under the prefix, from `at` on. No key from there on
/// may be below the prefix. Looks at no more than one slot beyond the prefix, and at one slot of
/// each interval without records.
fn first_under(
    definition: FileDef,
    slots: &Dataset,
    mut at: Position,
    prefix: &[u8],
) -> Option<Position>
    requires slots { AreSlots definition (slots_in slots.now) }
    requires there { 0 < length slots.now → IsThere slots.now at }
    requires slot { at.slot ≤ length (interval_at slots.now at) }
    requires from { (j : ℕ) → index_of slots.now at ≤ j → j < length (slots_in slots.now)
        → is_from prefix.now false (key_at definition (slots_in slots.now) j) ≡ true }
    ensures left { left_at definition slots.now prefix.now result
        ≡ left_at definition slots.now prefix.now (Some at) }
    ensures found { IfSome result (IsRecordUnder definition slots.now prefix.now) }
    ensures few { length (slots_in slots.now) < 2 ^ 64 }
{
    while let Some(here) = slots.next(at) {
        let slot = slot_at(slots, here);
        if !slot.key(definition).starts_with(prefix) {
            return None;
        }
        match slot {
            Slot::Filled(_) => return Some(here),
            Slot::Empty(_) => at = behind(slots, here),
        }
    }
    None
}

/// Returns the position of the record under the prefix that follows the one at `at`.
fn next_under(definition: FileDef, slots: &Dataset, at: Position, prefix: &[u8]) -> Option<Position>
    requires slots { AreSlots definition (slots_in slots.now) }
    requires at { IsRecordUnder definition slots.now prefix.now at }
    ensures left { (r : List ℕ)
        → slice_index_or (slots_in slots.now) (index_of slots.now at) (Empty []) ≡ Filled r
        → left_at definition slots.now prefix.now (Some at)
        ≡ entry_of definition r ∷ left_at definition slots.now prefix.now result }
    ensures found { IfSome result (IsRecordUnder definition slots.now prefix.now) }
{
    let slot = at.slot + 1;
    first_under(definition, slots, Position { slot, ..at }, prefix)
}

/// Returns how many records have keys that begin with the prefix.
fn count_under(definition: FileDef, slots: &Dataset, prefix: &[u8]) -> u64
    requires { AreSlots definition (slots_in slots.now) }
    ensures { result ≡ length (under prefix.now (file_of definition slots.now).records) }
{
    let mut number = 0;
    let start = start_of(definition, slots, prefix, false);
    let mut next = first_under(definition, slots, start, prefix);
    while let Some(at) = next {
        next = next_under(definition, slots, at, prefix);
        number += 1;
    }
    number
}

/// Returns images of the keys that begin with the prefix, each of its key alone.
fn images_under(
    alloc: Global,
    definition: FileDef,
    slots: &Dataset,
    prefix: &[u8],
) -> Result<Vec<FileImage>, NoMemory>
    requires { AreSlots definition (slots_in slots.now) }
    ensures { IfOk result (λ images. images.items
        ≡ map (added_entry definition) (under prefix.now (file_of definition slots.now).records)) }
{
    let mut images = Vec::new(alloc);
    let start = start_of(definition, slots, prefix, false);
    let mut next = first_under(definition, slots, start, prefix);
    while let Some(at) = next {
        let key = slot_at(slots, at).key(definition);
        let before = Before::Added(Record::from_slice(alloc, key)?);
        images.push(FileImage { definition, before })?;
        next = next_under(definition, slots, at, prefix);
    }
    Ok(images)
}

/// Returns copies of the keys that begin with the prefix.
fn keys_under(
    alloc: Global,
    definition: FileDef,
    slots: &Dataset,
    prefix: &[u8],
) -> Result<Items<Record>, NoMemory>
    requires { AreSlots definition (slots_in slots.now) }
    ensures { IfOk result (λ keys. keys
        ≡ keys_under prefix.now (file_of definition slots.now).records) }
{
    let mut keys = Items::new(alloc);
    let start = start_of(definition, slots, prefix, false);
    let mut next = first_under(definition, slots, start, prefix);
    while let Some(at) = next {
        let key = slot_at(slots, at).key(definition);
        keys.push(Record::from_slice(alloc, key)?)?;
        next = next_under(definition, slots, at, prefix);
    }
    Ok(keys)
}

/// Removes the slots of all records under the prefix, and returns how many they were.
fn drop_under(definition: FileDef, slots: &mut Dataset, prefix: &[u8]) -> u64
    requires { AreSlots definition (slots_in slots.old) }
    ensures slots { AreSlots definition (slots_in slots.new) }
    ensures value { file_of definition slots.new
        ≡ without_prefix false (file_of definition slots.old) prefix.now }
    ensures number { result ≡ length (under prefix.now (file_of definition slots.old).records) }
{
    let mut number = 0;
    let start = start_of(definition, slots, prefix, false);
    let mut next = first_under(definition, slots, start, prefix);
    while let Some(at) = next {
        let old = take_at(definition, slots, at);
        number += 1;
        let rest = start_of(definition, slots, old.key(definition), true);
        drop(old);
        next = first_under(definition, slots, rest, prefix);
    }
    number
}

/// What a DELETE with GENERIC removed.
#[derive(Drop)]
pub struct Removed {
    /// How many records were deleted.
    pub number: u64,
    /// What undoes it: with `keep` the image of each record, in the order of their keys, else none.
    /// They are undone last to first, each as the image of a delete of its key.
    pub images: Items<FileImage>,
}

impl File {
    ghost use Rattle.cics_images.specs.Cells.{AreOf};
    ghost use Rattle.cics_ksds.specs.Prefixes.{prefix_images, AreFileImages};
    ghost use Rattle.cics_ksds.specs.Undo.{KeepsKeys, key_of_image};

    /// Returns how many records have keys that begin with the prefix. It takes no memory.
    ///
    /// Cost: O(log slots + slots under the prefix). An interval without records counts as one slot.
    pub fn count_prefix(&self, prefix: &[u8]) -> u64
        ensures { result ≡ length (under prefix.now self.now.records) }
    {
        count_under(self.definition, &self.slots, prefix)
    }

    /// Returns the keys of the records that `count_prefix` counts, in their order. The only error
    /// is `NoMemory`.
    ///
    /// Cost: that of `count_prefix`, and O(bytes copied).
    pub fn keys_under(&self, prefix: &[u8]) -> Result<Items<Record>, NoMemory>
        ensures { IfOk result (λ keys. keys ≡ keys_under prefix.now self.now.records) }
    {
        keys_under(self.alloc, self.definition, &self.slots, prefix)
    }

    /// DELETE with GENERIC (the file control chapter of the Application Programmer's Reference
    /// Manual). Removes each record whose key begins with the prefix, as `delete` of one key after
    /// another would, and no other. The prefix may have any number of bytes. With none it removes
    /// all records, with more than a key has none. If the number is 0, DELETE is answered NOTFND,
    /// and nothing changes.
    ///
    /// With `keep` the slots stay, empty, and it returns the images that undo it.
    ///
    /// Errors: `NoMemory`, with `keep` alone: for the images and the keys.
    ///
    /// Cost: O(removed records * log slots + slots under the prefix). An interval without records
    /// counts as one slot.
    pub fn delete_prefix(&mut self, prefix: &[u8], keep: bool) -> Result<Removed, NoMemory>
        ensures number { IfOk result (λ removed. removed.number
            ≡ length (under prefix.now self.old.records)) }
        ensures value { OnOk result (self.new ≡ without_prefix keep self.old prefix.now) }
        ensures plain { OnOk result (self.new.records ≡ outside prefix.now self.old.records) }
        ensures images { IfOk result (λ removed. removed.images
            ≡ prefix_images keep self.old prefix.now) }
        ensures undoable { IfOk result (λ removed. keep ≡ true
            → AreFileImages self.old self.new removed.images) }
        ensures named { IfOk result (λ removed.
            AreOf key_of_image (has_prefix prefix.now) removed.images) }
        ensures others { KeepsKeys (λ key. not (has_prefix prefix.now key)) self.old self.new }
        ensures err { OnErr result (self.new ≡ self.old) }
        ensures refusal { OnErr result (keep ≡ true) }
    {
        if keep {
            let images = self.empty_under(prefix)?;
            return Ok(Removed {
                number: images.len() as u64,
                images: Items::from_vec(images),
            });
        }
        Ok(Removed {
            number: drop_under(self.definition, &mut self.slots, prefix),
            images: Items::new(self.alloc),
        })
    }

    /// Leaves the slots of all records under the prefix empty, and returns their images.
    fn empty_under(&mut self, prefix: &[u8]) -> Result<Vec<FileImage>, NoMemory>
        ensures value { OnOk result (self.new ≡ without_prefix true self.old prefix.now) }
        ensures plain { OnOk result (self.new.records ≡ outside prefix.now self.old.records) }
        ensures images { IfOk result (λ images. images.items
            ≡ prefix_images true self.old prefix.now) }
        ensures undoable { IfOk result (λ images. AreFileImages self.old self.new images.items) }
        ensures named { IfOk result (λ images.
            AreOf key_of_image (has_prefix prefix.now) images.items) }
        ensures others { KeepsKeys (λ key. not (has_prefix prefix.now key)) self.old self.new }
        ensures err { OnErr result (self.new ≡ self.old) }
    {
        // All memory comes first: an image each, with the key of the slot that will be empty.
        let mut images = images_under(self.alloc, self.definition, &self.slots, prefix)?;
        for at in 0..images.len() {
            self.exchange(&mut images[at]);
        }
        Ok(images)
    }
}
