//! The items of one queue.

ghost use Rattle.std.specs.Prelude.{◌≡◌, ◌≤◌, ◌-◌, [], None, not, length};
ghost use Rattle.std.specs.Prelude.{is_some, IfSome, IfOk, OnOk, OnErr};
ghost use Rattle.std.specs.Option.{option_copied};
ghost use Rattle.cics_tempstor.specs.Queues.{is_there, has_item, most_items, write_number};
ghost use Rattle.cics_tempstor.specs.Queues.{items_after_write, items_after_rewrite, item_of};
ghost use Rattle.cics_tempstor.specs.Undo.{item_at, without_last};

use cics_names::{Items, NoMemory, Record};
use std::alloc::Global;
use std::marker::Model;
use std::mem;

/// The most items that a queue can have.
const MOST_ITEMS: usize = 32_767;

/// The items of a queue, the oldest first: never more than 32,767.
#[derive(Drop)]
pub(crate) struct ItemList {
    items: Vec<Record>,
}

impl Model for ItemList {
    ghost use Rattle.std.specs.Prelude.{ℕ, ◌≤◌, List, length};

    ghost Value = { List (List ℕ) };

    ghost use Rattle.cics_tempstor.specs.Queues.{most_items};

    ghost view = { λ a. a.items.items };

    ghost invariant = { λ a. length a.items.items ≤ most_items };
}

/// Returns copies of items, in order. The only error is `NoMemory`.
fn copied(alloc: Global, items: &Vec<Record>) -> Result<Vec<Record>, NoMemory>
    ensures { IfOk result (λ copies. copies.items ≡ items.now.items) }
{
    let mut copies = Vec::with_capacity(alloc, items.len())?;
    for item in items {
        copies.push(item.copy()?)?;
    }
    Ok(copies)
}

impl ItemList {
    /// Returns an empty list. It takes no memory: `alloc` gives that as items are added.
    pub(crate) fn new(alloc: Global) -> ItemList
        ensures { result ≡ [] }
    {
        ItemList {
            items: Vec::new(alloc),
        }
    }

    /// Returns whether there is no item.
    pub(crate) fn is_empty(&self) -> bool
        ensures { result ≡ not (is_there self.now) }
    {
        self.items.is_empty()
    }

    /// Returns how many items there are.
    pub(crate) fn len(&self) -> usize
        ensures { result ≡ length self.now }
    {
        self.items.len()
    }

    /// Returns whether there is an item of the number, the first item being 1.
    pub(crate) fn has(&self, number: u64) -> bool
        ensures has { result ≡ has_item self.now number }
        ensures most { length self.now ≤ most_items }
    {
        0 < number && number <= self.items.len() as u64
    }

    /// Adds an item as the last, and returns its number. Returns `None` and drops the item if the
    /// list is full. The only error is `NoMemory`, and then nothing has changed.
    pub(crate) fn add(&mut self, item: Record) -> Result<Option<u64>, NoMemory>
        ensures items { OnOk result (self.new ≡ items_after_write self.old item) }
        ensures number { IfOk result (λ number. number ≡ write_number self.old) }
        ensures err { OnErr result (self.new ≡ self.old) }
    {
        let count = self.items.len();
        if count >= MOST_ITEMS {
            return Ok(None);
        }
        self.items.push(item)?;
        Ok(Some(count as u64 + 1))
    }

    /// Replaces the item of a number, and returns the old one. Returns `None` and drops the new
    /// item if there is none of the number. It takes no memory.
    pub(crate) fn put(&mut self, number: u64, item: Record) -> Option<Record>
        ensures items { self.new ≡ items_after_rewrite self.old number item }
        ensures there { is_some result ≡ has_item self.old number }
        ensures old { IfSome result (λ old. old ≡ item_at self.old number) }
    {
        if !self.has(number) {
            return None;
        }
        let at = number as usize - 1;
        Some(mem::replace(&mut self.items[at], item))
    }

    /// Returns the item of a number.
    pub(crate) fn item(&self, number: u64) -> Option<&Record>
        ensures { option_copied result ≡ item_of self.now number }
    {
        if !self.has(number) {
            return None;
        }
        self.items.get(number as usize - 1)
    }

    /// Removes the last item, if there is one. It takes no memory.
    pub(crate) fn drop_last(&mut self)
        ensures { self.new ≡ without_last self.old }
    {
        let _ = self.items.pop();
    }

    /// Returns copies of the items, in order. The only error is `NoMemory`.
    pub(crate) fn copies(&self, alloc: Global) -> Result<Items<Record>, NoMemory>
        ensures { IfOk result (λ copies. copies ≡ self.now) }
    {
        Ok(Items::from_vec(copied(alloc, &self.items)?))
    }
}
