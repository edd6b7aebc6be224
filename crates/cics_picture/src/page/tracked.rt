//! Maps that remember what stood at each key that was set.

ghost use Rattle.std.specs.Prelude.{◌≡◌, [], Some, OnOk, IfOk, is_some, if◌then◌else◌};
ghost use Rattle.std.specs.BTreeMap.{is_at};
ghost use Rattle.std.specs.List.Sorted.{IsStrictlySortedBy};
ghost use Rattle.std.specs.Map.{keys_of};
ghost use Rattle.std.specs.Map.Iter.{ShowsInOrder, deref};
ghost use Rattle.std.specs.Option.{option_copied};
ghost use Rattle.cics_picture.specs.Page.Tracked.{set, noted, with_at, at, shown, IsSameBefore};

use cics_names::NoMemory;
use std::alloc::Global;
use std::collections::BTreeMap;
use std::collections::btree_map::{Keys, Range};
use std::marker::Model;
use std::mem;

/// A map, and what stood at each key that was set since it was settled.
#[derive(Drop)]
pub struct Tracked<K: Ord, V> {
    entries: BTreeMap<K, V>,
    olds: BTreeMap<K, Option<V>>,
    alloc: Global,
}

impl<K: Ord, V> Model for Tracked<K, V> {
    ghost use Rattle.cics_picture.specs.Page.Tracked.{Tracked as TrackedValue};

    ghost Value = { TrackedValue K V };

    ghost view = { λ t. record { entries = t.entries.entries; olds = t.olds.entries } };
}

impl<K: Ord + Drop, V: Drop> Tracked<K, V> {
    /// Returns an empty map.
    pub fn new(alloc: Global) -> Tracked<K, V>
        ensures { result ≡ record { entries = []; olds = [] } }
    {
        Tracked {
            entries: BTreeMap::new(alloc),
            olds: BTreeMap::new(alloc),
            alloc,
        }
    }

    /// Returns what stands at a key.
    pub fn get(&self, key: &K) -> Option<&V>
        ensures { option_copied result ≡ shown K.cmp self.now key.now }
    {
        self.entries.get(key)
    }

    /// Returns the keys from one on, with what stands at each, in their order.
    pub fn from<'a>(&'a self, key: &'a K) -> Range<'a, K, V> {
        self.entries.range(key..)
    }

    /// Returns the keys that were set, in their order.
    pub fn touched(&self) -> Keys<'_, K, Option<V>>
        ensures ordered { IsStrictlySortedBy K.cmp (keys_of self.now.olds) }
        ensures rest { result ≡ keys_of self.now.olds }
        ensures runs { ShowsInOrder (deref {X = K}) }
    {
        self.olds.keys()
    }

    // Puts a value at a key, or takes away what stands there. Returns what stood there.
    fn swap(&mut self, key: K, value: Option<V>) -> Result<Option<V>, NoMemory>
        ensures old { IfOk result (λ old. old ≡ shown K.cmp self.old key) }
        ensures entries { OnOk result (self.new.entries
            ≡ with_at K.cmp self.old.entries key value) }
        ensures shown { OnOk result ((q : K) → shown K.cmp self.new q
            ≡ (if is_at (K.cmp key) q then value else shown K.cmp self.old q)) }
        ensures olds { self.new.olds ≡ self.old.olds }
    {
        match value {
            Some(value) => Ok(self.entries.insert(key, value)?),
            None => Ok(self.entries.remove(&key)),
        }
    }

    // Notes what stood at a key, unless that is noted already.
    fn note(&mut self, key: K, old: Option<V>) -> Result<(), NoMemory>
        ensures entries { self.new.entries ≡ self.old.entries }
        ensures olds { OnOk result (self.new.olds ≡ noted K.cmp self.old.olds key old) }
        ensures noted { OnOk result ((q : K) → at K.cmp self.new.olds q
            ≡ (if is_some (at K.cmp self.old.olds key) then at K.cmp self.old.olds q
            else if is_at (K.cmp key) q then Some old else at K.cmp self.old.olds q)) }
    {
        if !self.olds.contains_key(&key) {
            self.olds.insert(key, old)?;
        }
        Ok(())
    }

    /// Puts a value at a key, or takes away what stands there. `again` is the key once more.
    pub fn set(&mut self, key: K, again: K, value: Option<V>) -> Result<(), NoMemory>
        requires { again ≡ key }
        ensures set { OnOk result (self.new ≡ set K.cmp self.old key value) }
        ensures keeps { OnOk result (IsSameBefore K.cmp self.old self.new) }
    {
        let old = self.swap(key, value)?;
        self.note(again, old)?;
        Ok(())
    }

    /// Takes away all values that don't pass, for good: what stood there isn't noted.
    pub fn retain<F: FnMut(&V) -> bool + Drop>(&mut self, mut passes: F)
        requires { (f : _) (x : _) → F.pre f x }
    {
        self.entries.retain(|_, value| passes(value));
    }

    /// Forgets what stood before, and returns that.
    pub fn settle(&mut self) -> BTreeMap<K, Option<V>>
        ensures olds { result.entries ≡ self.old.olds }
        ensures entries { self.new.entries ≡ self.old.entries }
        ensures settled { self.new.olds ≡ [] }
    {
        mem::replace(&mut self.olds, BTreeMap::new(self.alloc))
    }
}
