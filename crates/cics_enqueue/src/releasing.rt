//! Releasing resources.

ghost use Rattle.std.specs.Prelude.{◌≡◌, ℕ, List, None, true};
ghost use Rattle.std.specs.Global.{Vec};
ghost use Rattle.std.specs.Map.{lookup};
ghost use Rattle.cics_names.specs.Keyed.{Bytes, is_same};
ghost use Rattle.cics_enqueue.specs.Kept.{Frees, IsKept, table_of, without_own};
ghost use Rattle.cics_enqueue.specs.Order.{resource_of};
ghost use Rattle.cics_enqueue.specs.Table.{given_back, released, resource_key};

use crate::borrowed::ResourceRef;
use crate::compact::{compact, set_resource};
use crate::enqueues::{Enqueues, Holding};
use crate::{Key, owned};
use cics_history::{Resource, UnitId};
use std::collections::BTreeMap;

// Removes a key, whatever its count, if it is this unit's. A key in the unit's list may be free or
// another's by now.
fn free_key(table: &mut BTreeMap<Key, Holding>, key: &Key, unit: UnitId)
    ensures entries { table.new.entries ≡ without_own unit key.now table.old.entries }
    ensures each { Frees unit key.now table.old.entries table.new.entries }
{
    let is_own = match table.get(key) {
        Some(holding) => holding.unit == unit,
        None => false,
    };
    if is_own {
        table.remove(key);
    }
}

// Releases a key once, if it is this unit's. Returns whether that freed it.
fn lessen(table: &mut BTreeMap<Key, Holding>, key: &Key, unit: UnitId) -> bool
    requires key { resource_key (resource_of key.now) ≡ key.now }
    ensures kept { (own : List (ℕ × Vec Bytes)) →
        IsKept table.old.entries own → IsKept table.new.entries own }
    ensures given { (own : List (ℕ × Vec Bytes)) → IsKept table.old.entries own →
        table_of table.new.entries
        ≡ given_back (table_of table.old.entries) (resource_of key.now) unit }
    ensures freed { result ≡ true → lookup (is_same key.now) table.new.entries ≡ None }
{
    let Some(holding) = table.get(key) else {
        return false;
    };
    if holding.unit != unit {
        return false;
    }
    if holding.count > 1 {
        let Some(holding) = table.get_mut(key) else {
            unreachable!()
        };
        holding.count -= 1;
        return false;
    }
    table.remove(key);
    true
}

impl Enqueues {
    /// Releases a resource once, if the unit owns it. If its count was 1, the resource is free.
    /// Takes no memory.
    pub fn give_back(&mut self, resource: &Resource, unit: UnitId)
        ensures { self.new ≡ given_back self.old resource.now unit }
    {
        self.let_go(&ResourceRef::of(resource), unit);
    }

    /// Releases once a resource whose bytes are borrowed, as `give_back` does.
    pub fn let_go(&mut self, resource: &ResourceRef<'_>, unit: UnitId)
        ensures { self.new ≡ given_back self.old resource.now unit }
    {
        // If nothing is owned, no key is made, which might request memory.
        if self.table.is_empty() {
            return;
        }
        let mut key = self.bound.replace(Key::new(self.alloc));
        match set_resource(&mut key, resource) {
            Ok(()) => self.let_go_key(&key, unit),
            Err(_) => self.let_go_keyless(resource, unit),
        }
        self.bound.set(key);
    }

    // Releases a resource once, if memory for its key is refused. The key is the one in the unit's
    // list.
    #[inline(never)]
    fn let_go_keyless(&mut self, resource: &ResourceRef<'_>, unit: UnitId)
        ensures { self.new ≡ given_back self.old resource.now unit }
    {
        let bytes = compact(resource);
        if let Some(key) = owned::find(&self.owned, unit, bytes.as_slice()) {
            lessen(&mut self.table, key, unit);
        }
    }

    // Releases the resource of a key once.
    fn let_go_key(&mut self, key: &Key, unit: UnitId)
        requires key { resource_key (resource_of key.now) ≡ key.now }
        ensures { self.new ≡ given_back self.old (resource_of key.now) unit }
    {
        if lessen(&mut self.table, key, unit) {
            owned::remove(&mut self.owned, unit, key);
        }
    }

    /// Releases all that a unit owns. Takes no memory.
    ///
    /// Cost: O(k log resources), k the resources that it ever acquired.
    pub fn release_all(&mut self, unit: UnitId)
        ensures { self.new ≡ released self.old unit }
    {
        // If no other unit owns anything, all is removed at once, with no look-up for each key.
        if owned::is_alone(&self.owned, &Some(unit)) {
            self.table.clear();
            self.owned.swap_remove(&unit);
            return;
        }
        while let Some(key) = owned::pop(&mut self.owned, unit) {
            free_key(&mut self.table, &key, unit);
        }
        self.owned.swap_remove(&unit);
    }
}
