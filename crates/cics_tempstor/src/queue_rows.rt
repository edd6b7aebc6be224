//! The row of a name: the items of its queue, and its NEXT cursor.

ghost use Rattle.std.specs.Prelude.{◌≡◌, ◌+◌, [], ◌∷◌, Some, None, true, if◌then◌else◌, IfOk, OnOk};
ghost use Rattle.std.specs.Prelude.{OnErr};
ghost use Rattle.cics_tempstor.specs.Queues.{place_of, row_written, row_rewritten, row_read};
ghost use Rattle.cics_tempstor.specs.Queues.{row_answer, is_there, empty_row, write_condition};
ghost use Rattle.cics_tempstor.specs.Queues.{write_number, item_condition, rewrite_number};
ghost use Rattle.cics_tempstor.specs.Queues.{delete_condition};
ghost use Rattle.cics_tempstor.specs.Undo.{written_image, rewritten_image, deleted_image};
ghost use Rattle.cics_tempstor.specs.Undo.{row_undone};

use crate::answers::{TsRead, TsWritten};
use crate::images::{Before, TsImage, image_of};
use crate::item_lists::ItemList;
use cics_images::Changed;
use cics_names::{Condition, Name8, NoMemory, Record};
use std::alloc::Global;
use std::mem;

/// The row of a name. A row without items is empty: its queue is absent, and the row stays for an
/// undo.
#[derive(Drop)]
pub(crate) struct Row {
    pub(crate) items: ItemList,
    /// The NEXT cursor, if the queue is there. Else what it was, for an undo that brings the queue
    /// back.
    pub(crate) next: u16,
}

/// Returns a write that was made, of the item of this number.
pub(crate) fn written(number: u64, image: Option<TsImage>) -> TsWritten
    ensures { result ≡ record {
      changed = record { condition = Condition.Normal; image = image };
      number = Some number;
    } }
{
    TsWritten {
        changed: Changed {
            condition: Condition::Normal,
            image,
        },
        number: Some(number),
    }
}

/// Returns a write that wasn't made: it has no number and no image.
pub(crate) fn not_written(condition: Condition) -> TsWritten
    ensures { result ≡ record {
      changed = record { condition = condition; image = None };
      number = None;
    } }
{
    TsWritten {
        changed: Changed {
            condition,
            image: None,
        },
        number: None,
    }
}

/// Returns a read without an item.
pub(crate) fn not_read(condition: Condition) -> TsRead
    ensures { result ≡ record { condition = condition; number = None; content = None } }
{
    TsRead {
        condition,
        number: None,
        content: None,
    }
}

/// Returns a deletion of a queue that is absent: it has no image.
pub(crate) fn not_deleted() -> Changed<TsImage>
    ensures { result ≡ record { condition = Condition.Qiderr; image = None } }
{
    Changed {
        condition: Condition::Qiderr,
        image: None,
    }
}

impl Row {
    /// Returns the row of a queue that is made with this item. The only error is `NoMemory`.
    pub(crate) fn made(alloc: Global, item: Record) -> Result<Row, NoMemory>
        ensures { IfOk result (λ row. row ≡ record { items = item ∷ []; next = 0 }) }
    {
        let mut items = ItemList::new(alloc);
        items.add(item)?;
        Ok(Row { items, next: 0 })
    }

    /// Returns the NEXT cursor, which reads as 0 if the queue is absent.
    pub(crate) fn place(&self) -> u16
        ensures { result ≡ place_of self.now }
    {
        if self.items.is_empty() { 0 } else { self.next }
    }

    /// WRITEQ TS. The only error is `NoMemory`, and then nothing has changed.
    pub(crate) fn write(
        &mut self,
        name: Name8,
        item: Record,
        keep: bool,
    ) -> Result<TsWritten, NoMemory>
        ensures row { OnOk result (self.new ≡ row_written self.old item) }
        ensures condition { IfOk result (λ answer.
            answer.changed.condition ≡ write_condition self.old.items) }
        ensures number { IfOk result (λ answer. answer.number ≡ write_number self.old.items) }
        ensures image { IfOk result (λ answer.
            answer.changed.image ≡ written_image keep name self.old.items) }
        ensures err { OnErr result (self.new ≡ self.old) }
    {
        let place = self.place();
        match self.items.add(item)? {
            Some(number) => {
                self.next = place;
                Ok(written(number, image_of(name, Before::Added, keep)))
            }
            None => Ok(not_written(Condition::Itemerr)),
        }
    }

    /// Returns what is answered if the queue has no item of the number that was asked for.
    fn no_item(&self) -> Condition
        ensures { result ≡ (if is_there self.now.items then Condition.Itemerr
            else Condition.Qiderr) }
    {
        if self.items.is_empty() {
            Condition::Qiderr
        } else {
            Condition::Itemerr
        }
    }

    /// WRITEQ TS REWRITE of an item. It takes no memory.
    pub(crate) fn rewrite(
        &mut self,
        name: Name8,
        number: u64,
        item: Record,
        keep: bool,
    ) -> TsWritten
        ensures row { self.new ≡ row_rewritten self.old number item }
        ensures condition { result.changed.condition ≡ item_condition self.old.items number }
        ensures number { result.number ≡ rewrite_number self.old.items number }
        ensures image { result.changed.image ≡ rewritten_image keep name self.old.items number }
    {
        match self.items.put(number, item) {
            Some(old) => written(number, image_of(name, Before::Replaced(number, old), keep)),
            None => not_written(self.no_item()),
        }
    }

    /// DELETEQ TS with an image: the row stays, empty. It takes no memory.
    pub(crate) fn delete(&mut self, alloc: Global, name: Name8) -> Changed<TsImage>
        ensures row { self.new ≡ (if is_there self.old.items then empty_row else self.old) }
        ensures condition { result.condition ≡ delete_condition self.old.items }
        ensures image { result.image ≡ deleted_image true name self.old.items }
    {
        if self.items.is_empty() {
            return not_deleted();
        }
        let old = mem::replace(&mut self.items, ItemList::new(alloc));
        self.next = 0;
        Changed {
            condition: Condition::Normal,
            image: Some(TsImage {
                name,
                before: Before::Taken(old),
            }),
        }
    }

    /// READQ TS of an item. The only error is `NoMemory`, and then nothing has changed.
    pub(crate) fn read(&mut self, number: u64) -> Result<TsRead, NoMemory>
        ensures row { OnOk result (self.new ≡ row_read self.old number) }
        ensures answer { IfOk result (λ answer. answer ≡ row_answer self.old.items number) }
        ensures err { OnErr result (self.new ≡ self.old) }
    {
        let _is_there = self.items.has(number);
        let Some(item) = self.items.item(number) else {
            return Ok(not_read(self.no_item()));
        };
        let content = item.copy()?;
        self.next = number as u16;
        Ok(TsRead {
            condition: Condition::Normal,
            number: Some(number),
            content: Some(content),
        })
    }

    /// READQ TS NEXT, as `read` of the item after the NEXT cursor.
    pub(crate) fn read_next(&mut self) -> Result<TsRead, NoMemory>
        ensures row { OnOk result (self.new ≡ row_read self.old (place_of self.old + 1)) }
        ensures answer { IfOk result (λ answer.
            answer ≡ row_answer self.old.items (place_of self.old + 1)) }
        ensures err { OnErr result (self.new ≡ self.old) }
    {
        let number = u64::from(self.place()) + 1;
        self.read(number)
    }

    /// Undoes a change of the queue. It takes no memory.
    pub(crate) fn undo(&mut self, before: Before)
        ensures { self.new ≡ row_undone before self.old }
    {
        match before {
            Before::Added => self.items.drop_last(),
            Before::Replaced(number, old) => {
                let _ = self.items.put(number, old);
            }
            Before::Taken(old) => self.items = old,
        }
    }
}
