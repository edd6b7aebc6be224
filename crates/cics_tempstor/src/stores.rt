//! Temporary storage.

ghost use Rattle.std.specs.Prelude.{◌≡◌, [], true, Some, T, IfOk, IfSome, OnOk};
ghost use Rattle.std.specs.Prelude.{OnErr, ◌++◌, length};
ghost use Rattle.cics_names.specs.Keyed.{with_value, without, is_rising};
ghost use Rattle.cics_tempstor.specs.Queues.{is_there, queue_at, next_place, queues_of};
ghost use Rattle.cics_tempstor.specs.Queues.{places_of};
ghost use Rattle.cics_tempstor.specs.Stamps.{places_stamp};
ghost use Rattle.cics_tempstor.specs.Tables.{rows_of, those_there, those_set};
ghost use Rattle.cics_tempstor.specs.Undo.{undone_at};

use crate::answers::{TsRead, TsWritten};
use crate::images::{Before, TsImage, image_of};
use crate::queue_rows::{Row, not_deleted, not_read, not_written, written};
use cics_images::Changed;
use cics_names::{Condition, Items, Name8, NoMemory, Record, stamp_number, stamp_text};
use indexmap::IndexMap;
use std::alloc::Global;
use std::collections::BTreeMap;
use std::marker::Model;

/// Temporary storage (the chapter on temporary storage control of the Application Programmer's
/// Reference Manual): queues of items by name. A name may have an empty row for an undo, which no
/// read and no listing sees. Unchanged on error.
///
/// Contracts see the rows in the rising order of their names, each with its items and its NEXT
/// cursor. An empty row has no item.
///
/// Cost of a call: O(1) in the number of queues. A listing puts the names in order.
#[derive(Drop)]
pub struct TempStore {
    queues: IndexMap<Name8, Row>,
    alloc: Global,
}

impl Model for TempStore {
    ghost use Rattle.cics_names.specs.Keyed.{Map};
    ghost use Rattle.cics_tempstor.specs.declared.queue_rows.Row.{Row};
    ghost use Rattle.cics_tempstor.specs.Tables.{rows_of};

    ghost Value = { Map Row };

    ghost view = { λ s. rows_of s.queues.entries };
}

/// Puts the items of a name into a map.
fn put(
    sorted: &mut BTreeMap<Name8, Items<Record>>,
    name: Name8,
    items: Items<Record>,
) -> Result<(), NoMemory>
    ensures { OnOk result (sorted.new.entries ≡ with_value name items sorted.old.entries) }
{
    sorted.insert(name, items)?;
    Ok(())
}

/// Returns the lists that have an item, in the order of their names.
fn listed(
    alloc: Global,
    sorted: BTreeMap<Name8, Items<Record>>,
) -> Result<Items<(Name8, Items<Record>)>, NoMemory>
    ensures { IfOk result (λ queues. queues ≡ those_there sorted.entries) }
{
    let mut queues = Items::new(alloc);
    for (name, items) in sorted {
        if !items.is_empty() {
            queues.push((name, items))?;
        }
    }
    Ok(queues)
}

impl TempStore {
    ghost use Rattle.cics_images.specs.Cells.{is_other};
    ghost use Rattle.cics_tempstor.specs.Queues.{write_condition, write_number, item_condition};
    ghost use Rattle.cics_tempstor.specs.Queues.{rewrite_number, delete_condition};
    ghost use Rattle.cics_tempstor.specs.Queues.{ts_written, ts_rewritten, ts_deleted, ts_swept};
    ghost use Rattle.cics_tempstor.specs.Queues.{read_item, after_read_item, read_next};
    ghost use Rattle.cics_tempstor.specs.Queues.{after_read_next};
    ghost use Rattle.cics_tempstor.specs.Undo.{IsTsImage, KeepsQueues, written_image};
    ghost use Rattle.cics_tempstor.specs.Undo.{rewritten_image, deleted_image};

    /// Returns a store without queues. `alloc` gives the memory for all that it will hold. An empty
    /// one takes none.
    pub fn new(alloc: Global) -> Self
        ensures { result ≡ [] }
    {
        TempStore {
            queues: IndexMap::new(alloc),
            alloc,
        }
    }

    /// WRITEQ TS: adds an item as the last of a queue, and makes the queue if it is absent, with
    /// the NEXT cursor 0. It is answered ITEMERR, and nothing changes, if the queue has 32,767
    /// items. The answer has the number of the new item.
    ///
    /// With `keep` a NORMAL answer has the image that undoes the write. The only error is
    /// `NoMemory`, for the item in its queue or for the queue's row. An item that isn't added is
    /// dropped.
    pub fn write(&mut self, name: Name8, item: Record, keep: bool) -> Result<TsWritten, NoMemory>
        ensures condition { IfOk result (λ answer.
            answer.changed.condition ≡ write_condition (queue_at name self.old)) }
        ensures number { IfOk result (λ answer.
            answer.number ≡ write_number (queue_at name self.old)) }
        ensures value { OnOk result (self.new ≡ ts_written self.old name item) }
        ensures image { IfOk result (λ answer.
            answer.changed.image ≡ written_image keep name (queue_at name self.old)) }
        ensures undoable { IfOk result (λ answer.
            IfSome answer.changed.image (IsTsImage self.old self.new name)) }
        ensures others { KeepsQueues (is_other name) self.old self.new }
        ensures rising { T (is_rising self.old) }
        ensures err { OnErr result (self.new ≡ self.old) }
    {
        if let Some(row) = self.queues.get_mut(&name) {
            return row.write(name, item, keep);
        }
        let row = Row::made(self.alloc, item)?;
        self.queues.insert(name, row)?;
        Ok(written(1, image_of(name, Before::Added, keep)))
    }

    /// WRITEQ TS REWRITE: replaces the item of a number. The answer has the number. QIDERR if there
    /// is no queue, ITEMERR if it has no item of the number, and then nothing changes.
    ///
    /// With `keep` a NORMAL answer has the image that undoes the change, with the old item. An item
    /// that isn't put in is dropped. The only error is `NoMemory`: none today, since the old item
    /// moves into the image.
    pub fn rewrite(
        &mut self,
        name: &Name8,
        number: u64,
        item: Record,
        keep: bool,
    ) -> Result<TsWritten, NoMemory>
        ensures condition { IfOk result (λ answer.
            answer.changed.condition ≡ item_condition (queue_at name.now self.old) number) }
        ensures number { IfOk result (λ answer.
            answer.number ≡ rewrite_number (queue_at name.now self.old) number) }
        ensures value { OnOk result (self.new ≡ ts_rewritten self.old name.now number item) }
        ensures image { IfOk result (λ answer. answer.changed.image
            ≡ rewritten_image keep name.now (queue_at name.now self.old) number) }
        ensures undoable { IfOk result (λ answer.
            IfSome answer.changed.image (IsTsImage self.old self.new name.now)) }
        ensures others { KeepsQueues (is_other name.now) self.old self.new }
        ensures rising { T (is_rising self.old) }
        ensures err { OnErr result (self.new ≡ self.old) }
    {
        let Some(row) = self.queues.get_mut(name) else {
            return Ok(not_written(Condition::Qiderr));
        };
        Ok(row.rewrite(*name, number, item, keep))
    }

    /// DELETEQ TS: removes a whole queue. QIDERR if there is none, and then nothing changes. It
    /// takes no memory.
    ///
    /// With `keep` the row of the queue stays, empty, and a NORMAL answer has the image that undoes
    /// the change, with all items.
    pub fn delete(&mut self, name: &Name8, keep: bool) -> Changed<TsImage>
        ensures condition { result.condition ≡ delete_condition (queue_at name.now self.old) }
        ensures value { self.new ≡ ts_deleted keep self.old name.now }
        ensures image { result.image ≡ deleted_image keep name.now (queue_at name.now self.old) }
        ensures undoable { IfSome result.image (IsTsImage self.old self.new name.now) }
        ensures others { KeepsQueues (is_other name.now) self.old self.new }
        ensures rising { T (is_rising self.old) }
    {
        if keep {
            return self.take(name);
        }
        if !self.is_there(name) {
            return not_deleted();
        }
        self.remove(name);
        Changed {
            condition: Condition::Normal,
            image: None,
        }
    }

    /// READQ TS ITEM: reads the item of a number. QIDERR if there is no queue, ITEMERR if it has no
    /// item of the number. The number of the item becomes the NEXT cursor of its queue; nothing
    /// else changes.
    ///
    /// The item is copied. The only error is `NoMemory`.
    pub fn read_item(&mut self, name: &Name8, number: u64) -> Result<TsRead, NoMemory>
        ensures answer { IfOk result (λ answer. answer ≡ read_item self.old name.now number) }
        ensures value { OnOk result (self.new ≡ after_read_item self.old name.now number) }
        ensures kept { KeepsQueues (λ _. true) self.old self.new }
        ensures err { OnErr result (self.new ≡ self.old) }
    {
        let Some(row) = self.queues.get_mut(name) else {
            return Ok(not_read(Condition::Qiderr));
        };
        row.read(number)
    }

    /// READQ TS NEXT: the item after the one that was read last, as `read_item` of its number.
    pub fn read_next(&mut self, name: &Name8) -> Result<TsRead, NoMemory>
        ensures answer { IfOk result (λ answer. answer ≡ read_next self.old name.now) }
        ensures value { OnOk result (self.new ≡ after_read_next self.old name.now) }
        ensures kept { KeepsQueues (λ _. true) self.old self.new }
        ensures err { OnErr result (self.new ≡ self.old) }
    {
        let Some(row) = self.queues.get_mut(name) else {
            return Ok(not_read(Condition::Qiderr));
        };
        row.read_next()
    }

    /// Returns the number of the item that was read last, by any task. It is 0 if none was since
    /// the queue was made, and if the queue is absent. No call changes the order of the rows: their
    /// names rise.
    pub fn next_place(&self, name: &Name8) -> u16
        ensures place { result ≡ next_place name.now self.now }
        ensures rising { T (is_rising self.now) }
    {
        match self.queues.get(name) {
            Some(row) => row.place(),
            None => 0,
        }
    }

    /// Returns how many items a queue has: 0 if it is absent.
    pub fn item_count(&self, name: &Name8) -> u64
        ensures count { result ≡ length (queue_at name.now self.now) }
        ensures rising { T (is_rising self.now) }
    {
        match self.queues.get(name) {
            Some(row) => row.items.len() as u64,
            None => 0,
        }
    }

    // Returns the NEXT cursors, those that are 0 as well, in the order of the names.
    fn cursors(&self) -> Result<BTreeMap<Name8, u16>, NoMemory>
        ensures { IfOk result (λ cursors. those_set cursors.entries ≡ places_of self.now) }
    {
        let mut sorted = BTreeMap::new(self.alloc);
        let mut index = self.queues.len();
        while index > 0 {
            index -= 1;
            if let Some((name, row)) = self.queues.get_index(index) {
                sorted.insert(*name, row.place())?;
            }
        }
        Ok(sorted)
    }

    /// Appends the stamp of the NEXT cursors that aren't 0, in the order of the names.
    ///
    /// Errors: `NoMemory`. Cost: O(queues log queues).
    pub fn stamp_places(&self, out: &mut Vec<u8>) -> Result<(), NoMemory>
        ensures { OnOk result (out.new.items ≡ out.old.items ++ places_stamp (places_of self.now)) }
    {
        let cursors = self.cursors()?;
        for (name, place) in &cursors {
            if *place > 0 {
                stamp_number(out, 1)?;
                stamp_text(out, &name.bytes())?;
                stamp_number(out, u64::from(*place))?;
            }
        }
        stamp_number(out, 0)
    }

    /// Removes the empty row of a name, if there is one: no image of the name will be undone any
    /// more. No queue changes, and it takes no memory.
    pub fn sweep(&mut self, name: &Name8)
        ensures value { self.new ≡ ts_swept self.old name.now }
        ensures queues { queues_of self.new ≡ queues_of self.old }
        ensures places { places_of self.new ≡ places_of self.old }
        ensures others { KeepsQueues (is_other name.now) self.old self.new }
    {
        if self.is_there(name) {
            return;
        }
        self.remove(name);
    }

    /// Undoes a change of the queue of a name, if the name has a row.
    pub(crate) fn undo_at(&mut self, name: &Name8, before: Before)
        ensures { self.new ≡ undone_at self.old name.now before }
    {
        let Some(row) = self.queues.get_mut(name) else {
            return;
        };
        row.undo(before);
    }

    /// Returns whether the queue of a name is there.
    fn is_there(&self, name: &Name8) -> bool
        ensures there { result ≡ is_there (queue_at name.now self.now) }
        ensures rising { T (is_rising self.now) }
    {
        match self.queues.get(name) {
            Some(row) => !row.items.is_empty(),
            None => false,
        }
    }

    /// DELETEQ TS with an image: the row stays, empty.
    fn take(&mut self, name: &Name8) -> Changed<TsImage>
        ensures condition { result.condition ≡ delete_condition (queue_at name.now self.old) }
        ensures value { self.new ≡ ts_deleted true self.old name.now }
        ensures image { result.image ≡ deleted_image true name.now (queue_at name.now self.old) }
        ensures rising { T (is_rising self.old) }
    {
        let alloc = self.alloc;
        let Some(row) = self.queues.get_mut(name) else {
            return not_deleted();
        };
        row.delete(alloc, *name)
    }

    /// Removes the row of a name, if there is one. The last row of the table takes its index.
    fn remove(&mut self, name: &Name8)
        ensures { self.new ≡ without name.now self.old }
    {
        self.queues.swap_remove(name);
    }

    /// Returns the queues that are there, in the order of their names, each with copies of its
    /// items. The only error is `NoMemory`.
    pub fn listing(&self) -> Result<Items<(Name8, Items<Record>)>, NoMemory>
        ensures { IfOk result (λ queues. queues ≡ queues_of self.now) }
    {
        let mut sorted = BTreeMap::new(self.alloc);
        let mut index = self.queues.len();
        while index > 0 {
            index -= 1;
            if let Some((name, row)) = self.queues.get_index(index) {
                put(&mut sorted, *name, row.items.copies(self.alloc)?)?;
            }
        }
        listed(self.alloc, sorted)
    }
}
