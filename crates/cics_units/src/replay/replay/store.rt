//! The files and queues of a plain replay.

ghost use Rattle.std.specs.Prelude.{◌≡◌, [], ◌∷◌, ◌++◌, IfOk, OnOk};
ghost use Rattle.cics_names.specs.Keyed.{value_at, with_value};
ghost use Rattle.cics_names.specs.Stamps.{text_stamp, list_stamp};
ghost use Rattle.cics_tempstor.specs.Queues.{has_item};
ghost use Rattle.cics_units.specs.Replay.Listings.{listed_files, listed_ts, listed_td, listing_of};
ghost use Rattle.cics_history.specs.Borrowed.{as_op};
ghost use Rattle.cics_history.specs.State.{initial_store};
ghost use Rattle.cics_history.specs.Stamps.{file_stamp, queue_stamp, store_stamp};
ghost use Rattle.cics_history.specs.Store.{apply, apply_write, apply_rewrite, apply_delete};
ghost use Rattle.cics_history.specs.Store.{apply_delete_generic, apply_ts_write, apply_ts_rewrite};
ghost use Rattle.cics_history.specs.Store.{apply_ts_delete, ts_queue, with_ts, apply_td_write};
ghost use Rattle.cics_history.specs.Store.{apply_td_read, apply_td_delete};

use super::queues::PlainQueue;
use super::records::PlainRecords;
use crate::opening::Opening;
use crate::replay::listings::Listing;
use cics_history::OpRef;
use cics_names::{Items, Name4, Name8, NoMemory, Record, stamp_number, stamp_text};
use cics_transdata::Recovery;
use std::alloc::Global;
use std::collections::BTreeMap;
use std::marker::Model;

/// The most items that a temporary storage queue can have.
const MOST_ITEMS: usize = 32_767;

/// The files that are defined, the temporary storage queues that are there, and the transient data
/// queues that are defined.
#[derive(Drop)]
pub(crate) struct PlainStore {
    files: BTreeMap<Name8, PlainRecords>,
    temp_storage: BTreeMap<Name8, Items<Record>>,
    trans_data: BTreeMap<Name4, PlainQueue>,
    alloc: Global,
}

impl Model for PlainStore {
    ghost use Rattle.std.specs.Prelude.{T};
    ghost use Rattle.cics_names.specs.Keyed.{is_rising};
    ghost use Rattle.cics_history.specs.State.{Store};

    ghost Value = { Store };

    ghost view = { λ s. record {
      files = s.files.entries;
      ts = s.temp_storage.entries;
      td = s.trans_data.entries;
    } };

    ghost invariant = { λ s. T (is_rising s.files.entries) × T (is_rising s.temp_storage.entries)
        × T (is_rising s.trans_data.entries) };
}

/// Returns whether a temporary storage queue has the item of a number, from 1 on.
fn has_item(items: &Items<Record>, number: u64) -> bool
    ensures { result ≡ has_item items.now number }
{
    0 < number && number <= items.len() as u64
}

/// Returns the listing of files by name. `opening` says which of them are recoverable.
fn files_listed(
    alloc: Global,
    opening: &Opening,
    files: BTreeMap<Name8, PlainRecords>,
) -> Result<Items<(Name8, bool, Items<Record>)>, NoMemory>
    ensures { IfOk result (λ listed. listed ≡ listed_files opening.now files.entries) }
{
    let mut listed = Items::new(alloc);
    for (name, records) in files {
        let recoverable = opening.is_recoverable_file(&name);
        listed.push((name, recoverable, records.into_contents(alloc)?))?;
    }
    Ok(listed)
}

/// Returns the listing of temporary storage queues by name. `opening` says which of them are
/// recoverable.
fn ts_listed(
    alloc: Global,
    opening: &Opening,
    queues: BTreeMap<Name8, Items<Record>>,
) -> Result<Items<(Name8, bool, Items<Record>)>, NoMemory>
    ensures { IfOk result (λ listed. listed ≡ listed_ts opening.now queues.entries) }
{
    let mut listed = Items::new(alloc);
    for (name, items) in queues {
        listed.push((name, opening.is_recoverable_ts(&name), items))?;
    }
    Ok(listed)
}

/// Returns the listing of transient data queues by name. `opening` has their recovery.
fn td_listed(
    alloc: Global,
    opening: &Opening,
    queues: BTreeMap<Name4, PlainQueue>,
) -> Result<Items<(Name4, Recovery, Items<Record>)>, NoMemory>
    ensures { IfOk result (λ listed. listed ≡ listed_td opening.now queues.entries) }
{
    let mut listed = Items::new(alloc);
    for (name, records) in queues {
        let recovery = opening.td_recovery(&name);
        listed.push((name, recovery, records.into_contents(alloc)?))?;
    }
    Ok(listed)
}

/// Appends the stamp of the items of a temporary storage queue, first to last.
fn stamp_items(out: &mut Vec<u8>, items: &Items<Record>) -> Result<(), NoMemory>
    ensures { OnOk result (out.new.items ≡ out.old.items ++ list_stamp text_stamp items.now) }
{
    for item in items.as_slice() {
        stamp_number(out, 1)?;
        stamp_text(out, item.bytes())?;
    }
    stamp_number(out, 0)
}

/// Appends the stamp of files by name.
fn stamp_files(out: &mut Vec<u8>, files: &BTreeMap<Name8, PlainRecords>) -> Result<(), NoMemory>
    ensures { OnOk result (out.new.items
        ≡ out.old.items ++ list_stamp file_stamp files.now.entries) }
{
    for (name, records) in files.iter() {
        stamp_number(out, 1)?;
        stamp_text(out, &name.bytes())?;
        records.stamp(out)?;
    }
    stamp_number(out, 0)
}

/// Appends the stamp of temporary storage queues by name.
fn stamp_ts(out: &mut Vec<u8>, queues: &BTreeMap<Name8, Items<Record>>) -> Result<(), NoMemory>
    ensures { OnOk result (out.new.items
        ≡ out.old.items ++ list_stamp queue_stamp queues.now.entries) }
{
    for (name, items) in queues.iter() {
        stamp_number(out, 1)?;
        stamp_text(out, &name.bytes())?;
        stamp_items(out, items)?;
    }
    stamp_number(out, 0)
}

/// Appends the stamp of transient data queues by name.
fn stamp_td(out: &mut Vec<u8>, queues: &BTreeMap<Name4, PlainQueue>) -> Result<(), NoMemory>
    ensures { OnOk result (out.new.items
        ≡ out.old.items ++ list_stamp queue_stamp queues.now.entries) }
{
    for (name, records) in queues.iter() {
        stamp_number(out, 1)?;
        stamp_text(out, &name.bytes())?;
        records.stamp(out)?;
    }
    stamp_number(out, 0)
}

impl PlainStore {
    /// Returns a store without files and queues.
    fn new(alloc: Global) -> PlainStore
        ensures { result ≡ record { files = []; ts = []; td = [] } }
    {
        PlainStore {
            files: BTreeMap::new(alloc),
            temp_storage: BTreeMap::new(alloc),
            trans_data: BTreeMap::new(alloc),
            alloc,
        }
    }

    /// Puts the records of a file under its name.
    fn define(&mut self, name: Name8, records: PlainRecords) -> Result<(), NoMemory>
        ensures { OnOk result (self.new
            ≡ record {
              files = with_value name records self.old.files;
              ts = self.old.ts;
              td =
                  self.old.td;
            }) }
    {
        self.files.insert(name, records)?;
        Ok(())
    }

    /// Puts the records of a transient data queue under its name.
    fn define_td(&mut self, name: Name4, queue: PlainQueue) -> Result<(), NoMemory>
        ensures { OnOk result (self.new
            ≡ record {
              files = self.old.files;
              ts = self.old.ts;
              td = with_value name queue self.old.td;
            }) }
    {
        self.trans_data.insert(name, queue)?;
        Ok(())
    }

    /// Returns the files and transient data queues with the records that were loaded, and no
    /// temporary storage queue.
    pub(crate) fn loaded(alloc: Global, opening: &Opening) -> Result<PlainStore, NoMemory>
        ensures { IfOk result (λ store. store ≡ initial_store opening.now) }
    {
        let mut store = PlainStore::new(alloc);
        for (name, file) in opening.files().iter() {
            store.define(*name, PlainRecords::loaded(alloc, file)?)?;
        }
        for (name, queue) in opening.queues().iter() {
            store.define_td(*name, PlainQueue::loaded(queue)?)?;
        }
        Ok(store)
    }

    /// Adds a record to a file, if the file is defined and the key has none: WRITE.
    fn write(&mut self, file: &Name8, key: Record, from: Record) -> Result<(), NoMemory>
        ensures { OnOk result (self.new
            ≡ (apply_write self.old file.now key from
            (value_at file.now self.old.files)).store) }
    {
        let Some(records) = self.files.get_mut(file) else {
            return Ok(());
        };
        records.write(key, from)
    }

    /// Replaces a record of a file, if it is there: REWRITE.
    fn rewrite(&mut self, file: &Name8, key: &Record, from: Record)
        ensures { self.new ≡ (apply_rewrite self.old file.now key.now from
            (value_at file.now self.old.files)).store }
    {
        let Some(records) = self.files.get_mut(file) else {
            return;
        };
        records.rewrite(key, from);
    }

    /// Removes a record from a file, if it is there: DELETE.
    fn delete(&mut self, file: &Name8, key: &Record)
        ensures { self.new ≡ (apply_delete self.old file.now key.now
            (value_at file.now self.old.files)).store }
    {
        let Some(records) = self.files.get_mut(file) else {
            return;
        };
        records.delete(key);
    }

    /// Removes from a file each record whose key begins with a prefix: DELETE GENERIC.
    fn delete_generic(&mut self, file: &Name8, prefix: &Record) -> Result<(), NoMemory>
        ensures { OnOk result (self.new ≡ (apply_delete_generic self.old file.now prefix.now
            (value_at file.now self.old.files)).store) }
    {
        let Some(records) = self.files.get_mut(file) else {
            return Ok(());
        };
        records.delete_generic(prefix)
    }

    /// Makes a temporary storage queue of one item.
    fn ts_make(&mut self, queue: &Name8, item: Record) -> Result<(), NoMemory>
        ensures { OnOk result (self.new ≡ with_ts self.old queue.now (item ∷ [])) }
    {
        let mut items = Items::new(self.alloc);
        items.push(item)?;
        self.temp_storage.insert(*queue, items)?;
        Ok(())
    }

    /// Adds an item as the last one, and makes the queue if it is absent: WRITEQ TS. A full queue
    /// stays as it is.
    fn ts_write(&mut self, queue: &Name8, from: Record) -> Result<(), NoMemory>
        ensures { OnOk result (self.new
            ≡ (apply_ts_write self.old queue.now from
            (ts_queue self.old queue.now)).store) }
    {
        let Some(items) = self.temp_storage.get_mut(queue) else {
            return self.ts_make(queue, from);
        };
        if items.len() >= MOST_ITEMS {
            return Ok(());
        }
        items.push(from)
    }

    /// Replaces an item, if it is there: WRITEQ TS REWRITE.
    fn ts_rewrite(&mut self, queue: &Name8, item: u64, from: Record)
        ensures { self.new ≡ (apply_ts_rewrite self.old queue.now item from
            (ts_queue self.old queue.now)).store }
    {
        let Some(items) = self.temp_storage.get_mut(queue) else {
            return;
        };
        if !has_item(items, item) {
            return;
        }
        items.set(item as usize - 1, from);
    }

    /// Removes the queue, if it is there: DELETEQ TS.
    fn ts_delete(&mut self, queue: &Name8)
        ensures { self.new ≡ (apply_ts_delete self.old queue.now
            (ts_queue self.old queue.now)).store }
    {
        let Some(items) = self.temp_storage.get(queue) else {
            return;
        };
        if items.is_empty() {
            return;
        }
        self.temp_storage.remove(queue);
    }

    /// Adds a record as the last one, if the queue is defined: WRITEQ TD.
    fn td_write(&mut self, queue: &Name4, from: Record) -> Result<(), NoMemory>
        ensures { OnOk result (self.new
            ≡ (apply_td_write self.old queue.now from (value_at queue.now self.old.td)).store) }
    {
        let Some(records) = self.trans_data.get_mut(queue) else {
            return Ok(());
        };
        records.write(from)
    }

    /// Removes the first record, if there is one: READQ TD.
    fn td_read(&mut self, queue: &Name4)
        ensures { self.new ≡ (apply_td_read self.old queue.now
            (value_at queue.now self.old.td)).store }
    {
        let Some(records) = self.trans_data.get_mut(queue) else {
            return;
        };
        records.read();
    }

    /// Removes all records: DELETEQ TD.
    fn td_delete(&mut self, queue: &Name4)
        ensures { self.new ≡ (apply_td_delete self.old queue.now
            (value_at queue.now self.old.td)).store }
    {
        let Some(records) = self.trans_data.get_mut(queue) else {
            return;
        };
        records.delete();
    }

    /// Applies a command. Nothing changes if it wouldn't be answered NORMAL.
    pub(crate) fn apply(&mut self, op: &OpRef<'_>) -> Result<(), NoMemory>
        ensures { OnOk result (self.new ≡ (apply self.old (as_op op.now)).store) }
    {
        let alloc = self.alloc;
        match op {
            OpRef::Write(file, key, from) => {
                let key = Record::from_slice(alloc, key)?;
                self.write(file, key, Record::from_slice(alloc, from)?)?;
            }
            OpRef::Rewrite(file, key, from) => {
                let key = Record::from_slice(alloc, key)?;
                self.rewrite(file, &key, Record::from_slice(alloc, from)?);
            }
            OpRef::Delete(file, key) => self.delete(file, &Record::from_slice(alloc, key)?),
            OpRef::DeleteGeneric(file, prefix) => {
                self.delete_generic(file, &Record::from_slice(alloc, prefix)?)?;
            }
            OpRef::ReadUpdate(_, _) => {}
            OpRef::TsWrite(queue, from) => self.ts_write(queue, Record::from_slice(alloc, from)?)?,
            OpRef::TsRewrite(queue, item, from) => {
                self.ts_rewrite(queue, *item, Record::from_slice(alloc, from)?);
            }
            OpRef::TsDelete(queue) => self.ts_delete(queue),
            OpRef::TdWrite(queue, from) => self.td_write(queue, Record::from_slice(alloc, from)?)?,
            OpRef::TdRead(queue) => self.td_read(queue),
            OpRef::TdDelete(queue) => self.td_delete(queue),
        }
        Ok(())
    }

    /// Appends the stamp of the files and queues.
    pub(crate) fn stamp(&self, out: &mut Vec<u8>) -> Result<(), NoMemory>
        ensures { OnOk result (out.new.items ≡ out.old.items ++ store_stamp self.now) }
    {
        stamp_files(out, &self.files)?;
        stamp_ts(out, &self.temp_storage)?;
        stamp_td(out, &self.trans_data)
    }

    /// Returns the listing of the files and queues. `opening` says which of them are recoverable.
    pub(crate) fn into_listing(self, opening: &Opening) -> Result<Listing, NoMemory>
        ensures { IfOk result (λ listing. listing ≡ listing_of opening.now self) }
    {
        let alloc = self.alloc;
        let files = files_listed(alloc, opening, self.files);
        let ts = ts_listed(alloc, opening, self.temp_storage);
        let td = td_listed(alloc, opening, self.trans_data);
        Ok(Listing {
            files: files?,
            ts: ts?,
            td: td?,
            tasks: Items::new(alloc),
        })
    }
}
