//! What a unit owns that conflicts with a prefix of keys.

ghost use Rattle.std.specs.Prelude.{◌≡◌, ◌≤◌, ◌&&◌, ◌||◌, ◌↔◌, IsTrue, length};
ghost use Rattle.std.specs.List.{list_any};
ghost use Rattle.std.specs.Map.{lookup};
ghost use Rattle.cics_history.specs.Resources.{bytes_of};
ghost use Rattle.cics_history.specs.declared.resources.Resource.TheVariants.{FilePrefix};
ghost use Rattle.cics_ksds.specs.Prefixes.{has_prefix};
ghost use Rattle.cics_names.specs.Keyed.{is_same};
ghost use Rattle.cics_enqueue.specs.Kept.{is_units};
ghost use Rattle.cics_enqueue.specs.Under.{OwnsOver, is_over};

use crate::Key;
use crate::compact::{KEY, PREFIX, file_bytes};
use crate::enqueues::{Enqueues, Holding};
use cics_history::UnitId;
use cics_names::Name8;
use std::collections::BTreeMap;

// A prefix of keys as table keys: that of the record whose key is the prefix, and that of the
// prefix itself.
#[derive(Clone, Copy)]
struct Front<'a> {
    start: &'a [u8],
    prefix: &'a [u8],
}

// Returns whether a table key conflicts with a prefix of keys.
fn is_over(key: &[u8], front: &Front<'_>) -> bool
    ensures { result ≡ is_over front.now.start.now front.now.prefix.now key.now }
{
    let Front { start, prefix } = front;
    key.starts_with(start) || key.starts_with(prefix) || prefix.starts_with(key)
}

// Returns whether a unit owns the resource of a table key.
fn is_units(table: &BTreeMap<Key, Holding>, key: &Key, unit: UnitId) -> bool
    ensures { result ≡ is_units unit (lookup (is_same key.now) table.now.entries) }
{
    match table.get(key) {
        Some(holding) => holding.unit == unit,
        None => false,
    }
}

// Returns whether one of these keys is a unit's and conflicts with a prefix.
fn has_over(table: &BTreeMap<Key, Holding>, unit: UnitId, keys: &[Key], front: &Front<'_>) -> bool
    ensures { result ≡ list_any (λ key. is_over front.now.start.now front.now.prefix.now key
        && is_units unit (lookup (is_same key) table.now.entries)) keys.now }
{
    for key in keys {
        if is_over(key.as_slice(), front) && is_units(table, key, unit) {
            return true;
        }
    }
    false
}

impl Enqueues {
    /// Returns whether a unit owns a key of a file, or a prefix of keys, that conflicts with a
    /// prefix of at most 255 bytes. Takes no memory.
    ///
    /// Cost: O(k log resources), k the resources that the unit ever acquired.
    pub fn owns_under(&self, unit: UnitId, file: Name8, prefix: &[u8]) -> bool
        requires most { length prefix.now ≤ 255 }
        ensures { IsTrue result
            ↔ OwnsOver self.now (FilePrefix file (bytes_of prefix.now)) unit }
    {
        let Some(keys) = self.owned.get(&unit) else {
            return false;
        };
        let start = file_bytes(KEY, file, prefix);
        let prefix = file_bytes(PREFIX, file, prefix);
        let front = Front {
            start: start.as_slice(),
            prefix: prefix.as_slice(),
        };
        has_over(&self.table, unit, keys.as_slice(), &front)
    }
}
