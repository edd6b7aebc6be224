//! The texts of a region's files and queues, as the history gives them.

ghost use Rattle.std.specs.Prelude.{◌≡◌, [], OnOk};
ghost use Rattle.cics_picture.specs.contracts.page.notes.CellOrd.TheImpl as order;
ghost use Rattle.cics_picture.specs.Page.Tracked.{IsSameBefore};

use crate::page::notes::Cell;
use crate::page::tracked::Tracked;
use cics_history::{Entry, OpRef};
use cics_names::{Condition, Name4, Name8, NoMemory, Record};
use std::alloc::Global;
use std::collections::BTreeMap;

// The most items of a temporary storage queue.
const MOST_ITEMS: u64 = 32_767;

// The number of the first record of a transient data queue, and that of the next one that is
// written.
#[derive(Clone, Copy)]
struct Span {
    first: u64,
    next: u64,
}

// A queue without records, into which none was written.
const NEW_SPAN: Span = Span { first: 1, next: 1 };

// What a cell held before a change that a backout undoes.
#[derive(Drop)]
struct Image {
    cell: Cell,
    before: Option<Record>,
}

/// The texts of files and queues, and how to put back what an open unit of work changed.
#[derive(Drop)]
pub struct Cells {
    pub texts: Tracked<Cell, Record>,
    spans: BTreeMap<Name4, Span>,
    // The images of each task's open unit, the newest last.
    images: BTreeMap<Name8, Vec<Image>>,
    alloc: Global,
}

// Returns a copy of what stands in a cell.
fn copy_of(text: Option<&Record>) -> Result<Option<Record>, NoMemory> {
    match text {
        Some(text) => Ok(Some(text.copy()?)),
        None => Ok(None),
    }
}

// Returns the cell of a file's key.
fn record_at(alloc: Global, file: Name8, key: &[u8]) -> Result<Cell, NoMemory> {
    Ok(Cell::Record(file, Record::from_slice(alloc, key)?))
}

// Returns whether a cell is a key of a file that begins with a prefix.
fn is_under(cell: &Cell, file: &Name8, prefix: &[u8]) -> bool {
    match cell {
        Cell::Record(own, key) => own == file && key.bytes().starts_with(prefix),
        _ => false,
    }
}

impl Cells {
    /// Returns no texts.
    pub fn new(alloc: Global) -> Cells
        ensures { result.texts ≡ record { entries = []; olds = [] } }
    {
        Cells {
            texts: Tracked::new(alloc),
            spans: BTreeMap::new(alloc),
            images: BTreeMap::new(alloc),
            alloc,
        }
    }

    fn span(&self, queue: &Name4) -> Span {
        self.spans.get(queue).copied().unwrap_or(NEW_SPAN)
    }

    // Adds an image to those of a task's unit.
    fn push_image(&mut self, task: Name8, image: Image) -> Result<(), NoMemory>
        ensures { self.new.texts ≡ self.old.texts }
    {
        if let Some(images) = self.images.get_mut(&task) {
            images.push(image)?;
            return Ok(());
        }
        let mut images = Vec::new(self.alloc);
        images.push(image)?;
        self.images.insert(task, images)?;
        Ok(())
    }

    // Keeps the image of a cell for the open unit of the task `by`, if there is one.
    fn keep(&mut self, by: &Option<Name8>, cell: &Cell) -> Result<(), NoMemory>
        ensures { self.new.texts ≡ self.old.texts }
    {
        let Some(task) = by else {
            return Ok(());
        };
        let image = Image {
            cell: cell.copy()?,
            before: copy_of(self.texts.get(cell))?,
        };
        self.push_image(*task, image)
    }

    // Changes a cell. `by` is the task whose backout undoes that, if one does.
    fn change(
        &mut self,
        by: &Option<Name8>,
        cell: Cell,
        text: Option<Record>,
    ) -> Result<(), NoMemory>
        ensures { OnOk result (IsSameBefore order.ghosts.cmp self.old.texts self.new.texts) }
    {
        self.keep(by, &cell)?;
        let again = cell.copy()?;
        self.texts.set(cell, again, text)
    }

    /// Puts a record that was loaded into its cell.
    pub fn load(&mut self, cell: Cell, text: Record) -> Result<(), NoMemory> {
        if let Cell::TdRecord(queue, number) = &cell {
            let next = number.saturating_add(1);
            self.spans.insert(*queue, Span { first: 1, next })?;
        }
        self.change(&None, cell, Some(text))?;
        self.texts.settle();
        Ok(())
    }

    // Returns the cells of a file's keys that begin with a prefix.
    fn under(&self, file: Name8, prefix: &[u8]) -> Result<Vec<Cell>, NoMemory> {
        let mut found = Vec::new(self.alloc);
        let from = record_at(self.alloc, file, prefix)?;
        for (cell, _) in self.texts.from(&from) {
            if !is_under(cell, &file, prefix) {
                break;
            }
            found.push(cell.copy()?)?;
        }
        Ok(found)
    }

    fn delete_under(
        &mut self,
        by: &Option<Name8>,
        file: Name8,
        prefix: &[u8],
    ) -> Result<(), NoMemory>
        ensures { OnOk result (IsSameBefore order.ghosts.cmp self.old.texts self.new.texts) }
    {
        for cell in self.under(file, prefix)? {
            self.change(by, cell, None)?;
        }
        Ok(())
    }

    fn delete_ts(&mut self, by: &Option<Name8>, queue: Name8) -> Result<(), NoMemory>
        ensures { OnOk result (IsSameBefore order.ghosts.cmp self.old.texts self.new.texts) }
    {
        for number in 1..=MOST_ITEMS {
            let cell = Cell::Item(queue, number);
            if self.texts.get(&cell).is_none() {
                return Ok(());
            }
            self.change(by, cell, None)?;
        }
        Ok(())
    }

    fn write_td(&mut self, by: &Option<Name8>, queue: Name4, text: Record) -> Result<(), NoMemory>
        ensures { OnOk result (IsSameBefore order.ghosts.cmp self.old.texts self.new.texts) }
    {
        let Span { first, next } = self.span(&queue);
        self.change(by, Cell::TdRecord(queue, next), Some(text))?;
        let next = next.saturating_add(1);
        self.spans.insert(queue, Span { first, next })?;
        Ok(())
    }

    // Removes the first records of a transient data queue: those with numbers below `end`.
    fn take_td(&mut self, by: &Option<Name8>, queue: Name4, end: u64) -> Result<(), NoMemory>
        ensures { OnOk result (IsSameBefore order.ghosts.cmp self.old.texts self.new.texts) }
    {
        let Span { first, next } = self.span(&queue);
        for number in first..end {
            self.change(by, Cell::TdRecord(queue, number), None)?;
        }
        self.spans.insert(queue, Span { first: end, next })?;
        Ok(())
    }

    /// Changes the cells that an entry of the history changed. `by` is the task whose backout
    /// undoes that, if one does.
    pub fn follow(&mut self, by: &Option<Name8>, entry: &Entry) -> Result<(), NoMemory>
        ensures { OnOk result (IsSameBefore order.ghosts.cmp self.old.texts self.new.texts) }
    {
        if entry.condition() != Condition::Normal {
            return Ok(());
        }
        let alloc = self.alloc;
        match entry.op() {
            OpRef::Write(file, key, from) | OpRef::Rewrite(file, key, from) => {
                let text = Record::from_slice(alloc, from)?;
                self.change(by, record_at(alloc, file, key)?, Some(text))
            }
            OpRef::Delete(file, key) => self.change(by, record_at(alloc, file, key)?, None),
            OpRef::DeleteGeneric(file, prefix) => self.delete_under(by, file, prefix),
            OpRef::ReadUpdate(_, _) => Ok(()),
            OpRef::TsWrite(queue, from) => {
                let number = entry.number().unwrap_or(0);
                let text = Record::from_slice(alloc, from)?;
                self.change(by, Cell::Item(queue, number), Some(text))
            }
            OpRef::TsRewrite(queue, number, from) => {
                let text = Record::from_slice(alloc, from)?;
                self.change(by, Cell::Item(queue, number), Some(text))
            }
            OpRef::TsDelete(queue) => self.delete_ts(by, queue),
            OpRef::TdWrite(queue, from) => {
                self.write_td(by, queue, Record::from_slice(alloc, from)?)
            }
            OpRef::TdRead(queue) => {
                let first = self.span(&queue).first;
                self.take_td(by, queue, first.saturating_add(1))
            }
            OpRef::TdDelete(queue) => {
                let next = self.span(&queue).next;
                self.take_td(by, queue, next)
            }
        }
    }

    // Restores the numbers of a transient data queue from before a change of one of its records.
    fn undo_span(&mut self, image: &Image) -> Result<(), NoMemory>
        ensures { self.new.texts ≡ self.old.texts }
    {
        let Cell::TdRecord(queue, number) = &image.cell else {
            return Ok(());
        };
        let Span { first, next } = self.span(queue);
        let back = if image.before.is_some() {
            Span {
                first: *number,
                next,
            }
        } else {
            Span {
                first,
                next: *number,
            }
        };
        self.spans.insert(*queue, back)?;
        Ok(())
    }

    // Undoes the latest change that isn't undone yet.
    fn undo(&mut self, image: Image) -> Result<(), NoMemory>
        ensures { OnOk result (IsSameBefore order.ghosts.cmp self.old.texts self.new.texts) }
    {
        self.undo_span(&image)?;
        self.change(&None, image.cell, image.before)
    }

    /// Puts back what the open unit of a task changed, the newest change first.
    pub fn back_out(&mut self, task: &Name8) -> Result<(), NoMemory>
        ensures { OnOk result (IsSameBefore order.ghosts.cmp self.old.texts self.new.texts) }
    {
        let Some(mut images) = self.images.remove(task) else {
            return Ok(());
        };
        while let Some(image) = images.pop() {
            self.undo(image)?;
        }
        Ok(())
    }

    /// Forgets the images of a task's open unit: its changes stay.
    pub fn commit(&mut self, task: &Name8)
        ensures { self.new.texts ≡ self.old.texts }
    {
        self.images.remove(task);
    }
}
