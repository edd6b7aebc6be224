//! Look-ups of what conflicts with a resource and is another unit's than the asker's.
//!
//! `bound` is a key that a look-up fills with the bytes that it looks for.

ghost use Rattle.std.specs.Prelude.{◌≡◌, ◌≤◌, ◌∷◌, ◌++◌, [], length, drop, None, true};
ghost use Rattle.std.specs.Prelude.{option_map};
ghost use Rattle.std.specs.Bool.{OnFalse};
ghost use Rattle.cics_names.specs.Keyed.{Bytes, is_same};
ghost use Rattle.cics_enqueue.specs.Kept.{first_shorter, first_shown, least_shown};
ghost use Rattle.cics_enqueue.specs.Kept.{others_unit};
ghost use Rattle.std.specs.Map.{lookup};
ghost use Rattle.std.specs.Option.{option_copied};
ghost use Rattle.cics_history.specs.Holding.{is_other};
ghost use Rattle.cics_enqueue.specs.Table.{first_of};

use crate::Key;
use crate::borrowed::ResourceRef;
use crate::compact::{KEY, PREFIX, file_bytes, held, held_under};
use crate::enqueues::Holding;
use cics_history::UnitId;
use cics_names::Name8;
use std::collections::BTreeMap;

// Returns whether a unit isn't the asker.
pub(crate) fn is_another(asker: &Option<UnitId>, unit: UnitId) -> bool
    ensures { result ≡ is_other asker.now unit }
{
    match asker {
        Some(asker) => unit != *asker,
        None => true,
    }
}

// Returns the unit of a holding, if it isn't the asker.
pub(crate) fn other_unit(held: Option<&Holding>, asker: &Option<UnitId>) -> Option<UnitId>
    ensures { result ≡ others_unit asker.now (option_copied held.entry) }
{
    match held {
        Some(holding) => {
            if is_another(asker, holding.unit) {
                Some(holding.unit)
            } else {
                None
            }
        }
        None => None,
    }
}

// Returns false only if no prefix of keys is owned. Its table key would come before all others.
pub(crate) fn has_prefixes(table: &BTreeMap<Key, Holding>) -> bool
    ensures { OnFalse result ((b : Bytes) → lookup (is_same (0 ∷ b)) table.now.entries ≡ None) }
{
    match table.first_key_value() {
        Some((key, _)) => match key.as_slice().first() {
            Some(kind) => *kind == PREFIX,
            None => true,
        },
        None => false,
    }
}

// Returns a table key without its kind.
fn after_kind(bytes: &[u8]) -> &[u8]
    ensures { result.now ≡ drop 1 bytes.now }
{
    match bytes {
        [] => bytes,
        [_, rest @ ..] => rest,
    }
}

// A search of a table for what units other than the asker own.
#[derive(Clone, Copy)]
pub(crate) struct Search<'t> {
    pub(crate) table: &'t BTreeMap<Key, Holding>,
    pub(crate) asker: Option<UnitId>,
}

impl<'t> Search<'t> {
    // Returns the bytes and the unit of the first entry that begins with `start` and isn't the
    // asker's.
    fn first_under(&self, bound: &mut Key, start: &[u8]) -> Option<(&'t [u8], UnitId)>
        requires most { length start.now ≤ 265 }
        ensures { option_map (λ p. (p.0.now, p.1)) result
            ≡ first_shown start.now self.now.asker self.now.table.now.entries }
    {
        if self.table.is_empty() {
            return None;
        }
        // If memory is refused, `bound` has no bytes, and the look-up goes through the whole table.
        let _ = bound.set(&[], start);
        for (key, holding) in self.table.range(&*bound..) {
            let key = key.as_slice();
            let is_another = is_another(&self.asker, holding.unit);
            if key.starts_with(start) {
                if is_another {
                    return Some((key, holding.unit));
                }
            } else if start < key {
                return None;
            }
        }
        None
    }

    // Returns the other owner of the shortest prefix of keys that is a proper front of `bytes`.
    pub(crate) fn shorter_holder(
        &self,
        bound: &mut Key,
        file: Name8,
        bytes: &[u8],
    ) -> Option<UnitId>
        requires most { length bytes.now ≤ 255 }
        ensures { result ≡ first_shorter self.now.asker self.now.table.now.entries file bytes.now }
    {
        let mut key = file_bytes(PREFIX, file, &[]);
        for byte in bytes {
            let holder = other_unit(held_under(self.table, bound, key.as_slice()), &self.asker);
            if holder.is_some() {
                return holder;
            }
            key.push(*byte);
        }
        None
    }

    // Returns the other owner of the smallest key or prefix of keys that begins with a prefix.
    pub(crate) fn least_holder(&self, bound: &mut Key, file: Name8, prefix: &[u8]) -> Option<UnitId>
        requires most { length prefix.now ≤ 255 }
        ensures { result ≡ least_shown file prefix.now self.now.asker self.now.table.now.entries }
    {
        let keys = file_bytes(KEY, file, prefix);
        let prefixes = file_bytes(PREFIX, file, prefix);
        let Some(key) = self.first_under(bound, keys.as_slice()) else {
            return match self.first_under(bound, prefixes.as_slice()) {
                Some(prefix) => Some(prefix.1),
                None => None,
            };
        };
        let Some(prefix) = self.first_under(bound, prefixes.as_slice()) else {
            return Some(key.1);
        };
        if after_kind(prefix.0) < after_kind(key.0) {
            Some(prefix.1)
        } else {
            Some(key.1)
        }
    }

    // Returns the other owner of the first resource that conflicts with a key. The order: a shorter
    // prefix, the key, the prefix with its bytes.
    pub(crate) fn key_holder(&self, bound: &mut Key, file: Name8, key: &[u8]) -> Option<UnitId>
        requires most { length key.now ≤ 255 }
        ensures { result ≡ first_of
            (first_shorter self.now.asker self.now.table.now.entries file key.now)
            (first_of
            (others_unit self.now.asker
            (lookup (is_same (1 ∷ length file ∷ (file ++ key.now))) self.now.table.now.entries))
            (others_unit self.now.asker
            (lookup (is_same (0 ∷ length file ∷ (file ++ key.now))) self.now.table.now.entries))) }
    {
        let held_key = held(self.table, bound, &ResourceRef::record(file, key));
        let holder = other_unit(held_key, &self.asker);
        if !has_prefixes(self.table) {
            return holder;
        }
        let shorter = self.shorter_holder(bound, file, key);
        if shorter.is_some() {
            return shorter;
        }
        if holder.is_some() {
            return holder;
        }
        let held_prefix = held(self.table, bound, &ResourceRef::prefix(file, key));
        other_unit(held_prefix, &self.asker)
    }
}
