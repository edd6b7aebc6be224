//! Before images of a queue's changes.

ghost use Rattle.std.specs.Prelude.{◌≡◌, None, Some, if◌then◌else◌};

use crate::item_lists::ItemList;
use cics_names::{Name8, Record};

/// What a change of a queue did, and what it takes to undo it.
#[derive(Drop)]
pub(crate) enum Before {
    /// An item was added as the last one.
    Added,
    /// The item of this number was replaced; here is the old one.
    Replaced(u64, Record),
    /// The queue was deleted; here are its items.
    Taken(ItemList),
}

/// The before image of one change of a queue: enough to undo it without taking memory.
///
/// A change makes one if it was requested and the condition is NORMAL. No item is copied for it:
/// what a change replaces or deletes moves into it. The same store takes it once: `undo` and then
/// `settle`, or `settle` alone.
#[derive(Drop)]
pub struct TsImage {
    pub(crate) name: Name8,
    pub(crate) before: Before,
}

/// Returns the image of a change of a queue, if one is stored. Else what it would hold is dropped.
pub(crate) fn image_of(name: Name8, before: Before, keep: bool) -> Option<TsImage>
    ensures { result ≡ (if keep then Some (record { name = name; before = before }) else None) }
{
    if keep {
        Some(TsImage { name, before })
    } else {
        None
    }
}
