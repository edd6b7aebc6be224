//! A key-sequenced file.

ghost use Rattle.std.specs.Prelude.{◌≡◌, ◌+◌, ◌*◌, ◌≤◌, [], true, length};
ghost use Rattle.std.specs.Prelude.{IfOk, IfSome, OnOk, OnErr, IsTrue};
ghost use Rattle.cics_names.specs.declared.conditions.Condition.TheVariants.{Normal};
ghost use Rattle.std.specs.Option.{option_copied, option_map};
ghost use Rattle.cics_names.specs.Keyed.{value_at};
ghost use Rattle.cics_ksds.specs.Files.{entry_of, fits_file, first_from, last_to, key_for, swept};

use crate::FileDef;
use crate::dataset::Dataset;
use crate::images::{FileImage, added, removed, replaced};
use crate::ranges::{copies, first_record_from, last_record_to};
use crate::slots::{Slot, Spot, insert_at, record_of, spot_of, take_at};
use cics_images::Changed;
use cics_names::{Condition, Items, NoMemory, Record};
use std::alloc::Global;
use std::marker::Model;

/// A key-sequenced file: records in the rising order of their keys, whose bytes are unsigned. A
/// deleted key may have an empty slot for an undo, which no read and no listing sees. Unchanged on
/// error.
///
/// Contracts see a file as its definition, its records by key, and the keys of its empty slots.
/// Slots are in control intervals of up to 16, and those in control areas of up to 64.
///
/// Cost of a look-up: O(log slots). One for the first or last record also passes over the empty
/// slots on its way, and in one step over an interval without records. A write of a new key and a
/// delete that leaves no slot move the slots behind it in its interval. If an interval is added or
/// removed, those behind it in its area move too. If an area is, so do the areas behind it.
#[derive(Drop)]
pub struct File {
    pub(crate) definition: FileDef,
    pub(crate) slots: Dataset,
    pub(crate) alloc: Global,
}

impl Model for File {
    ghost use Rattle.cics_ksds.specs.Files.{FileValue};
    ghost use Rattle.cics_ksds.specs.Slots.{AreSlots, value_of, slots_in};

    ghost Value = { FileValue };

    ghost view = { λ f. value_of f.definition (slots_in f.slots) };

    ghost invariant = { λ f. AreSlots f.definition (slots_in f.slots) };
}

/// Returns a change that was made, with its image if one is stored.
fn made(image: Option<FileImage>) -> Changed<FileImage>
    ensures { result ≡ record { condition = Condition.Normal; image = image } }
{
    Changed {
        condition: Condition::Normal,
        image,
    }
}

/// Returns a change that wasn't made: it has no image.
fn not_made(condition: Condition) -> Changed<FileImage>
    ensures { result ≡ record { condition = condition; image = None } }
{
    Changed {
        condition,
        image: None,
    }
}

impl File {
    ghost use Rattle.cics_images.specs.Cells.{is_other};
    ghost use Rattle.cics_ksds.specs.Files.{IsContent, write_condition, change_condition};
    ghost use Rattle.cics_ksds.specs.Files.{written, rewritten, deleted, records_of};
    ghost use Rattle.cics_ksds.specs.Undo.{IsFileImage, KeepsKeys};
    ghost use Rattle.cics_ksds.specs.Undo.{written_image, rewritten_image, deleted_image};

    /// Returns a file without records, with this definition. `alloc` gives the memory for all that
    /// it will hold. An empty file takes none.
    pub fn new(alloc: Global, definition: FileDef) -> Self
        ensures { result ≡ record { definition = definition; records = []; empties = [] } }
    {
        File {
            definition,
            slots: Dataset::new(alloc),
            alloc,
        }
    }

    /// Returns a copy: a file with the same definition, records and empty slots. The only error is
    /// `NoMemory`.
    pub fn copy(&self) -> Result<File, NoMemory>
        ensures { IfOk result (λ copy. copy ≡ self.now) }
    {
        Ok(File {
            definition: self.definition,
            slots: self.slots.copy(self.alloc)?,
            alloc: self.alloc,
        })
    }

    /// Returns the definition with which the file was made. No call changes it. Every record fits
    /// it and is under the key that lies in it.
    pub fn definition(&self) -> FileDef
        ensures definition { result ≡ self.now.definition }
        ensures content { IsContent self.now.definition self.now.records }
    {
        self.definition
    }

    /// Returns the record of a key, or None if the file has none: READ of a full key (the file
    /// control chapter of the Application Programmer's Reference Manual).
    pub fn read(&self, key: &[u8]) -> Option<&Record>
        ensures { option_copied result ≡ value_at key.now self.now.records }
    {
        record_of(self.definition, &self.slots, key)
    }

    /// Returns the record of the smallest key that isn't below the bound, or with `strict` is above
    /// it. None if there is no such key. The bound may have any number of bytes. The first bytes of
    /// a key find the smallest key that begins with them or comes after them.
    pub fn first_from(&self, bound: &[u8], strict: bool) -> Option<&Record>
        ensures found { first_from self.now.records bound.now strict
            ≡ option_map (entry_of self.now.definition) (option_copied result) }
        ensures fits { IfSome result (λ r. IsTrue (fits_file self.now.definition r.now)) }
    {
        first_record_from(self.definition, &self.slots, bound, strict)
    }

    /// Returns the record of the greatest key that isn't above the bound, or with `strict` is below
    /// it. None if there is no such key. The bound may have any number of bytes.
    pub fn last_to(&self, bound: &[u8], strict: bool) -> Option<&Record>
        ensures found { last_to self.now.records bound.now strict
            ≡ option_map (entry_of self.now.definition) (option_copied result) }
        ensures fits { IfSome result (λ r. IsTrue (fits_file self.now.definition r.now)) }
    {
        last_record_to(self.definition, &self.slots, bound, strict)
    }

    /// Returns copies of all records, in the order of their keys. The only error is `NoMemory`.
    pub fn listing(&self) -> Result<Items<Record>, NoMemory>
        ensures { IfOk result (λ records. records ≡ records_of self.now.records) }
    {
        copies(self.alloc, &self.slots)
    }

    /// Returns how many control intervals the file has. An interval has 1 to 16 slots in key order.
    /// A new key goes beside its neighbours, and a full interval is halved first. It takes no
    /// memory.
    pub fn interval_count(&self) -> u64
        ensures at_least { length self.now.records + length self.now.empties ≤ 16 * result }
        ensures at_most { result ≤ length self.now.records + length self.now.empties }
    {
        self.slots.count()
    }

    /// WRITE: adds a record under the key that lies in it. It is answered DUPREC, and nothing
    /// changes, if the key has a record. An empty slot of the key is filled. The record has to fit
    /// the definition.
    ///
    /// With `keep` a NORMAL answer has the image that undoes the write. The only error is
    /// `NoMemory`, for the slot or for the image.
    pub fn write(&mut self, content: Record, keep: bool) -> Result<Changed<FileImage>, NoMemory>
        requires { IsTrue (fits_file self.old.definition content) }
        ensures condition { IfOk result (λ changed. changed.condition
            ≡ write_condition self.old.records (key_for self.old content)) }
        ensures value { OnOk result (self.new ≡ written self.old content) }
        ensures image { IfOk result (λ changed. changed.image
            ≡ written_image keep self.old content) }
        ensures undoable { IfOk result (λ changed. IfSome changed.image
            (IsFileImage self.old self.new (key_for self.old content))) }
        ensures others { KeepsKeys (is_other (key_for self.old content)) self.old self.new }
        ensures err { OnErr result (self.new ≡ self.old) }
    {
        let definition = self.definition;
        let key = definition.key_in(content.bytes());
        match spot_of(definition, &self.slots, key) {
            Spot::At(_) => Ok(not_made(Condition::Duprec)),
            Spot::AtEmpty(at) => {
                let image = added(self.alloc, definition, key, keep)?;
                let slot = Slot::filled(definition, content);
                let _ = self.slots.put(at, slot);
                Ok(made(image))
            }
            Spot::Gap(at) => {
                // The image comes first: once the record is in, nothing can fail any more.
                let image = added(self.alloc, definition, key, keep)?;
                let slot = Slot::filled(definition, content);
                insert_at(definition, &mut self.slots, at, slot)?;
                Ok(made(image))
            }
        }
    }

    /// REWRITE: replaces the record whose key lies in this one. It is answered NOTFND, and nothing
    /// changes, if the key has no record. The record has to fit the definition. It takes no memory.
    ///
    /// With `keep` a NORMAL answer has the image that undoes the change, with the old record.
    pub fn rewrite(&mut self, content: Record, keep: bool) -> Changed<FileImage>
        requires { IsTrue (fits_file self.old.definition content) }
        ensures condition { result.condition
            ≡ change_condition self.old.records (key_for self.old content) }
        ensures value { self.new ≡ rewritten self.old content }
        ensures image { result.image ≡ rewritten_image keep self.old content }
        ensures undoable { IfSome result.image
            (IsFileImage self.old self.new (key_for self.old content)) }
        ensures others { KeepsKeys (is_other (key_for self.old content)) self.old self.new }
    {
        let definition = self.definition;
        let key = definition.key_in(content.bytes());
        match spot_of(definition, &self.slots, key) {
            Spot::At(at) => {
                let slot = Slot::filled(definition, content);
                let old = self.slots.put(at, slot);
                made(replaced(definition, old, keep))
            }
            _ => not_made(Condition::Notfnd),
        }
    }

    /// DELETE: removes the record of a key. It is answered NOTFND, and nothing changes, if the key
    /// has no record.
    ///
    /// With `keep` the slot stays, empty, and a NORMAL answer has the image that undoes the delete,
    /// with the old record. Only then is memory requested, for the key of the empty slot. The only
    /// error is `NoMemory` (`refusal`).
    pub fn delete(&mut self, key: &[u8], keep: bool) -> Result<Changed<FileImage>, NoMemory>
        ensures condition { IfOk result (λ changed. changed.condition
            ≡ change_condition self.old.records key.now) }
        ensures value { OnOk result (self.new ≡ deleted keep self.old key.now) }
        ensures image { IfOk result (λ changed. changed.image
            ≡ deleted_image keep self.old key.now) }
        ensures undoable { IfOk result (λ changed. IfSome changed.image
            (IsFileImage self.old self.new key.now)) }
        ensures others { KeepsKeys (is_other key.now) self.old self.new }
        ensures err { OnErr result (self.new ≡ self.old) }
        ensures refusal { OnErr result
            ((keep ≡ true) × (change_condition self.old.records key.now ≡ Normal)) }
    {
        let definition = self.definition;
        match spot_of(definition, &self.slots, key) {
            Spot::At(at) => {
                if keep {
                    let empty = Record::from_slice(self.alloc, key)?;
                    let old = self.slots.put(at, Slot::empty(empty));
                    return Ok(made(removed(definition, old)));
                }
                drop(take_at(definition, &mut self.slots, at));
                Ok(made(None))
            }
            _ => Ok(not_made(Condition::Notfnd)),
        }
    }

    /// Removes the empty slot of a key, if there is one: no image of the key will be undone any
    /// more. No record changes, and it takes no memory.
    pub fn sweep(&mut self, key: &[u8])
        ensures value { self.new ≡ swept self.old key.now }
        ensures others { KeepsKeys (is_other key.now) self.old self.new }
    {
        // Most often there is no empty slot, and nothing is looked for.
        if self.slots.empties() == 0 {
            return;
        }
        let definition = self.definition;
        match spot_of(definition, &self.slots, key) {
            Spot::AtEmpty(at) => drop(take_at(definition, &mut self.slots, at)),
            Spot::At(_) => {}
            Spot::Gap(_) => {}
        }
    }
}
