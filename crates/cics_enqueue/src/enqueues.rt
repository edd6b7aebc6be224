//! The enqueue table, and look-ups in it. `acquiring` and `releasing` have the calls that change
//! it.

ghost use Rattle.cics_history.specs.declared.resources.Resource.TheVariants.{FileKey, FilePrefix};
ghost use Rattle.std.specs.Prelude.{◌≡◌, ◌≤◌, ◌++◌, [], IfNone, IfSome, OnOk, length, option_map};
ghost use Rattle.cics_names.specs.Stamps.{list_stamp};
ghost use Rattle.cics_history.specs.Resources.{bytes_of};
ghost use Rattle.cics_enqueue.specs.Kept.{seen};
ghost use Rattle.cics_enqueue.specs.Table.{held_at, holder_of, count_of, holder_over};
ghost use Rattle.cics_enqueue.specs.Table.{held_with_prefix, other_than, IsFreeBut, HoldsLeast};
ghost use Rattle.cics_enqueue.specs.Values.{values_of, value_stamp};

use crate::Key;
use crate::borrowed::{ResourceKind, ResourceRef};
use crate::compact::{held, value_in};
use crate::conflicts::{Search, has_prefixes, is_another};
use crate::owned::{self, Owned};
use cics_history::{Resource, UnitId};
use cics_names::{Name8, NoMemory, stamp_number, stamp_text};
use indexmap::IndexMap;
use std::alloc::{AllocError, Global};
use std::cell::Cell;
use std::collections::BTreeMap;
use std::marker::Model;

/// Why a resource wasn't acquired.
#[derive(Clone, Copy, Debug, PartialEq, Eq)]
pub enum TakeFault {
    /// Memory was refused.
    NoMemory,
    /// The unit owns the value 65,535 times already.
    Full,
}

impl From<NoMemory> for TakeFault {
    ghost use Rattle.std.specs.Prelude.{◌≡◌};
    ghost use Rattle.cics_enqueue.specs.declared.enqueues.TakeFault.TheVariants.{NoMemory};

    ghost from_gives = { λ _ fault. fault ≡ NoMemory };

    fn from(_error: NoMemory) -> TakeFault {
        TakeFault::NoMemory
    }
}

impl From<AllocError> for TakeFault {
    ghost use Rattle.std.specs.Prelude.{◌≡◌};
    ghost use Rattle.cics_enqueue.specs.declared.enqueues.TakeFault.TheVariants.{NoMemory};

    ghost from_gives = { λ _ fault. fault ≡ NoMemory };

    fn from(_error: AllocError) -> TakeFault {
        TakeFault::NoMemory
    }
}

// The owner of a resource, and how many times it owns it.
#[derive(Clone, Copy)]
pub(crate) struct Holding {
    pub(crate) unit: UnitId,
    pub(crate) count: u16,
}

/// The table of enqueues: which unit owns which resource. Unchanged on error.
///
/// Contracts see it as the list of owned resources, in their order, each with its owner and count.
#[derive(Drop)]
pub struct Enqueues {
    pub(crate) table: BTreeMap<Key, Holding>,
    pub(crate) owned: Owned,
    // The key that each call fills with the bytes that it looks for. A call that acquires something
    // makes room in it for any bytes, so later look-ups need no memory. If that is refused, an
    // empty key takes its place.
    pub(crate) bound: Cell<Key>,
    pub(crate) alloc: Global,
}

impl Model for Enqueues {
    ghost use Rattle.cics_enqueue.specs.Table.{Table};

    ghost Value = { Table };

    ghost use Rattle.cics_enqueue.specs.Kept.{table_of, IsKept};

    ghost view = { λ t. table_of t.table.entries };

    ghost invariant = { λ t. IsKept t.table.entries t.owned.entries };
}

impl Enqueues {
    /// Returns an empty table. `alloc` gives the memory for all that units acquire.
    pub fn new(alloc: Global) -> Enqueues
        ensures { result ≡ [] }
    {
        Enqueues {
            table: BTreeMap::new(alloc),
            owned: IndexMap::new(alloc),
            bound: Cell::new(Key::new(alloc)),
            alloc,
        }
    }

    // Returns the holding of a resource, or None if it is free.
    fn holding(&self, resource: &ResourceRef<'_>) -> Option<Holding>
        ensures { option_map seen result ≡ held_at resource.now self.now }
    {
        let mut key = self.bound.replace(Key::new(self.alloc));
        let holding = held(&self.table, &mut key, resource).copied();
        self.bound.set(key);
        holding
    }

    /// Returns the owner of a resource, or None if it is free. Takes no memory.
    ///
    /// Cost: O(log resources).
    pub fn holder(&self, resource: &Resource) -> Option<UnitId>
        ensures { result ≡ holder_of resource.now self.now }
    {
        self.holder_of(&ResourceRef::of(resource))
    }

    /// Returns the owner of a resource whose bytes are borrowed, as `holder` does.
    pub fn holder_of(&self, resource: &ResourceRef<'_>) -> Option<UnitId>
        ensures { result ≡ holder_of resource.now self.now }
    {
        Some(self.holding(resource)?.unit)
    }

    /// Returns how many times a resource is owned: 0 if it is free, more than 1 only for a user's
    /// value. Takes no memory.
    ///
    /// Cost: O(log resources).
    pub fn count(&self, resource: &Resource) -> u16
        ensures { result ≡ count_of resource.now self.now }
    {
        match self.holding(&ResourceRef::of(resource)) {
            Some(holding) => holding.count,
            None => 0,
        }
    }

    /// Appends the stamp of the values that a unit owns by ENQ, in their order, each with its
    /// count.
    ///
    /// Errors: `NoMemory`. Cost: O(owned resources).
    pub fn stamp_values(&self, unit: UnitId, out: &mut Vec<u8>) -> Result<(), NoMemory>
        ensures { OnOk result (out.new.items
            ≡ out.old.items ++ list_stamp value_stamp (values_of unit self.now)) }
    {
        for (key, holding) in &self.table {
            if let Some(value) = value_in(key.as_slice()) {
                if holding.unit == unit {
                    stamp_number(out, 1)?;
                    stamp_text(out, value)?;
                    stamp_number(out, u64::from(holding.count))?;
                }
            }
        }
        stamp_number(out, 0)
    }

    /// Returns the blocker at a resource: the owner, other than `but_not`, of the smallest
    /// conflicting resource. None if there is none: then `but_not` may acquire the resource.
    ///
    /// A key of a file conflicts with itself and with each prefix of it. A prefix conflicts also
    /// with all that begins with it. Conflicting resources are compared in byte order, prefixes by
    /// their own bytes.
    ///
    /// Cost: O(1) if no other open unit has acquired anything. Else O(log resources), for a key
    /// times its bytes if any prefix is owned, for a prefix as `held_with_prefix`.
    pub fn holder_over(&self, resource: &ResourceRef<'_>, but_not: Option<UnitId>) -> Option<UnitId>
        ensures value { result ≡ holder_over resource.now but_not self.now }
        ensures free { IfNone result (IsFreeBut self.now resource.now but_not) }
        ensures least { IfSome result (HoldsLeast self.now resource.now but_not) }
    {
        if owned::is_alone(&self.owned, &but_not) {
            return None;
        }
        match &resource.kind {
            ResourceKind::FilePrefix(file, prefix) => self.held_with_prefix(*file, prefix, but_not),
            ResourceKind::FileKey(file, key) => self.holder_of_key(*file, key, &but_not),
            _ => self.other_of(resource, &but_not),
        }
    }

    // Returns the owner of a resource, if it isn't the asker.
    fn other_of(&self, resource: &ResourceRef<'_>, asker: &Option<UnitId>) -> Option<UnitId>
        ensures { result ≡ other_than asker.now (holder_of resource.now self.now) }
    {
        let unit = self.holder_of(resource)?;
        is_another(asker, unit).then_some(unit)
    }

    /// Returns the blocker at a prefix of at most 255 bytes: the owner, other than `but_not`, of
    /// the smallest conflicting key or prefix of keys. None if there is none. What conflicts begins
    /// with the prefix, or the prefix begins with it.
    ///
    /// Conflicting resources are compared in byte order, prefixes by their own bytes. It takes no
    /// memory.
    ///
    /// Cost: O(log resources), times the bytes of the prefix if any prefix is owned, and O(what
    /// `but_not` itself owns under the prefix).
    pub fn held_with_prefix(
        &self,
        file: Name8,
        prefix: &[u8],
        but_not: Option<UnitId>,
    ) -> Option<UnitId>
        requires most { length prefix.now ≤ 255 }
        ensures value { result ≡ held_with_prefix file prefix.now but_not self.now }
        ensures free { IfNone result (IsFreeBut self.now
            (FilePrefix file (bytes_of prefix.now)) but_not) }
        ensures least { IfSome result (HoldsLeast self.now
            (FilePrefix file (bytes_of prefix.now)) but_not) }
    {
        let mut bound = self.bound.replace(Key::new(self.alloc));
        let search = Search {
            table: &self.table,
            asker: but_not,
        };
        if has_prefixes(&self.table) {
            let shorter = search.shorter_holder(&mut bound, file, prefix);
            if shorter.is_some() {
                self.bound.set(bound);
                return shorter;
            }
        }
        let least = search.least_holder(&mut bound, file, prefix);
        self.bound.set(bound);
        least
    }

    // Returns the owner, other than the asker, of the smallest resource that conflicts with a key.
    fn holder_of_key(&self, file: Name8, key: &[u8], asker: &Option<UnitId>) -> Option<UnitId>
        requires most { length key.now ≤ 255 }
        ensures { result ≡ holder_over (FileKey file (bytes_of key.now)) asker.now self.now }
    {
        let mut bound = self.bound.replace(Key::new(self.alloc));
        let search = Search {
            table: &self.table,
            asker: *asker,
        };
        let holder = search.key_holder(&mut bound, file, key);
        self.bound.set(bound);
        holder
    }
}
