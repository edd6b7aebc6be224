//! Acquiring resources.

ghost use Rattle.std.specs.Prelude.{◌≡◌, ◌≤◌, ◌+◌, ◌↔◌, ℕ, T, None, not, is_some, length};
ghost use Rattle.std.specs.Prelude.{if◌then◌else◌, IsTrue, true, false, option_map};
ghost use Rattle.std.specs.Prelude.{IfNone, IfSome, IfOk, IfErr, OnOk, OnErr};
ghost use Rattle.std.specs.Map.{lookup};
ghost use Rattle.std.specs.Option.{unwrap_or};
ghost use Rattle.std.specs.BTreeMap.{btree_map_len, insert_entry};
ghost use Rattle.cics_names.specs.Keyed.{Bytes, bytes_cmp, is_same};
ghost use Rattle.cics_history.specs.declared.resources.Resource.TheVariants.{User};
ghost use Rattle.cics_history.specs.Resources.{bytes_of, is_user};
ghost use Rattle.cics_enqueue.specs.Kept.{seen, PutsNew};
ghost use Rattle.cics_enqueue.specs.Order.{resource_of};
ghost use Rattle.cics_enqueue.specs.Table.{resource_key, held_at, holder_of, holder_over, other_than};
ghost use Rattle.cics_enqueue.specs.Table.{is_in_order, is_full, IsFreeFor, taken, given_back};

use crate::borrowed::ResourceRef;
use crate::compact::{set_resource, set_value};
use crate::enqueues::{Enqueues, Holding, TakeFault};
use crate::{Key, owned};
use cics_history::{Resource, UnitId};
use cics_names::NoMemory;
use std::collections::BTreeMap;

// Puts a holding under a key that has none. Returns the holding that the key has then.
fn or_put(
    table: &mut BTreeMap<Key, Holding>,
    key: Key,
    holding: Holding,
) -> Result<Holding, NoMemory>
    ensures value { IfOk result (λ h. h
        ≡ unwrap_or (lookup (is_same key) table.old.entries) holding) }
    ensures entries { IfOk result (λ h. table.new.entries
        ≡ insert_entry bytes_cmp table.old.entries key h) }
    ensures each { IfOk result (λ h. (k : Bytes) → lookup (is_same k) table.new.entries
        ≡ (if is_same key k then Some h else lookup (is_same k) table.old.entries)) }
    ensures len { OnOk result (btree_map_len table.new ≡ btree_map_len table.old
        + (if is_some (lookup (is_same key) table.old.entries) then 0 else 1)) }
    ensures err { OnErr result (table.new.entries ≡ table.old.entries) }
{
    Ok(*table.entry(key)?.or_insert(holding))
}

// Puts a holding under a key that has none, or returns the one that it has. Makes one look-up.
fn put_first(
    table: &mut BTreeMap<Key, Holding>,
    key: Key,
    holding: Holding,
) -> Result<Option<Holding>, NoMemory>
    ensures held { IfOk result (λ held. held ≡ lookup (is_same key) table.old.entries) }
    ensures kept { IfOk result (λ held. IfSome held (λ _. table.new.entries ≡ table.old.entries)) }
    ensures put { IfOk result (λ held. IfNone held
        (PutsNew key holding table.old.entries table.new.entries)) }
    ensures err { OnErr result (table.new.entries ≡ table.old.entries) }
{
    let before = table.len();
    let held = or_put(table, key, holding)?;
    if table.len() > before {
        Ok(None)
    } else {
        Ok(Some(held))
    }
}

impl Enqueues {
    /// Acquires a resource for a unit. No other unit may own anything that conflicts with it. If
    /// the unit owns it already, the count of a user's value rises, and that of any other stays 1.
    ///
    /// Errors: `Full` if the unit owns the value 65,535 times, else `NoMemory`.
    pub fn take(&mut self, resource: Resource, unit: UnitId) -> Result<(), TakeFault>
        requires free { IsFreeFor self.old resource unit }
        ensures taken { OnOk result (self.new ≡ taken self.old resource unit) }
        ensures room { OnOk result (is_full resource self.old ≡ false) }
        ensures full { IfErr result (λ fault. fault ≡ TakeFault.Full
            ↔ IsTrue (is_full resource self.old)) }
        ensures err { OnErr result (self.new ≡ self.old) }
    {
        let Resource::User(value) = &resource else {
            self.hold(&ResourceRef::of(&resource), unit)?;
            return Ok(());
        };
        if self.count(&resource) == u16::MAX {
            return Err(TakeFault::Full);
        }
        self.enq(value.as_slice(), unit)?;
        Ok(())
    }

    /// Acquires a user's value of at most 255 bytes for a unit, or returns its owner if that is
    /// another unit. If the unit owns it already, its count rises, at the cost of one more look-up.
    ///
    /// Errors: `Full` if the unit owns the value 65,535 times, and `NoMemory`.
    pub fn enq(&mut self, value: &[u8], unit: UnitId) -> Result<Option<UnitId>, TakeFault>
        requires most { length value.now ≤ 255 }
        ensures holder { IfOk result (λ holder. holder
            ≡ holder_over (User (bytes_of value.now)) (Some unit) self.old) }
        ensures taken { IfOk result (λ holder. self.new ≡ (if is_some holder
            then self.old
            else taken self.old (User (bytes_of value.now)) unit)) }
        ensures room { IfOk result (λ holder. IfNone holder
            (is_full (User (bytes_of value.now)) self.old ≡ false)) }
        ensures full { IfErr result (λ fault. fault ≡ TakeFault.Full
            → is_full (User (bytes_of value.now)) self.old ≡ true) }
        ensures own { IfErr result (λ fault. fault ≡ TakeFault.Full
            → holder_over (User (bytes_of value.now)) (Some unit) self.old ≡ None) }
        ensures err { OnErr result (self.new ≡ self.old) }
    {
        let mut key = self.bound.replace(Key::new(self.alloc));
        set_value(&mut key, value)?;
        let answer = self.enq_key(&key, unit);
        self.bound.set(key);
        answer
    }

    // Acquires the user's value of a key as `enq` does.
    fn enq_key(&mut self, key: &Key, unit: UnitId) -> Result<Option<UnitId>, TakeFault>
        requires key { resource_key (resource_of key.now) ≡ key.now }
        requires user { is_user (resource_of key.now) ≡ true }
        ensures holder { IfOk result (λ holder. holder
            ≡ other_than (Some unit) (holder_of (resource_of key.now) self.old)) }
        ensures taken { IfOk result (λ holder. self.new ≡ (if is_some holder
            then self.old
            else taken self.old (resource_of key.now) unit)) }
        ensures room { IfOk result (λ holder. IfNone holder
            (is_full (resource_of key.now) self.old ≡ false)) }
        ensures full { IfErr result (λ fault. fault ≡ TakeFault.Full
            → is_full (resource_of key.now) self.old ≡ true) }
        ensures own { IfErr result (λ fault. fault ≡ TakeFault.Full
            → other_than (Some unit) (holder_of (resource_of key.now) self.old) ≡ None) }
        ensures err { OnErr result (self.new ≡ self.old) }
    {
        let Some(held) = self.take_free(key, unit)? else {
            return Ok(None);
        };
        if held.unit != unit {
            return Ok(Some(held.unit));
        }
        if held.count == u16::MAX {
            return Err(TakeFault::Full);
        }
        let Some(holding) = self.table.get_mut(key) else {
            unreachable!()
        };
        holding.count += 1;
        Ok(None)
    }

    /// Acquires a resource other than a user's value for a unit. No other unit may own anything
    /// that conflicts with it. Returns whether it was free: if so, `let_go` undoes the call. If
    /// not, the unit owned it already, and nothing changes.
    ///
    /// Errors: `NoMemory`, also if the unit owns the resource already.
    pub fn hold(&mut self, resource: &ResourceRef<'_>, unit: UnitId) -> Result<bool, NoMemory>
        requires plain { is_user resource.now ≡ false }
        requires free { IsFreeFor self.old resource.now unit }
        ensures was_free { IfOk result (λ was_free.
            is_some (holder_of resource.now self.old) ≡ not was_free) }
        ensures taken { OnOk result (self.new ≡ taken self.old resource.now unit) }
        ensures undone { IfOk result (λ was_free. (if was_free
            then given_back self.new resource.now unit
            else self.new) ≡ self.old) }
        ensures err { OnErr result (self.new ≡ self.old) }
    {
        let mut key = self.bound.replace(Key::new(self.alloc));
        set_resource(&mut key, resource)?;
        let held = self.take_free(&key, unit);
        self.bound.set(key);
        Ok(held?.is_none())
    }

    // Acquires the resource of a key for a unit if it is free, or returns its holding. Makes one
    // look-up.
    #[tactic(auto, using(crate::proofs::Tables::in_order))]
    fn take_free(&mut self, key: &Key, unit: UnitId) -> Result<Option<Holding>, NoMemory>
        requires key { resource_key (resource_of key.now) ≡ key.now }
        ensures in_order { T (is_in_order self.old) }
        ensures held { IfOk result (λ held.
            option_map seen held ≡ held_at (resource_of key.now) self.old) }
        ensures table { IfOk result (λ held. self.new
            ≡ (if is_some held
            then self.old
            else taken self.old (resource_of key.now) unit)) }
        ensures err { OnErr result (self.new ≡ self.old) }
    {
        let kept = key.copy(self.alloc)?;
        let held = put_first(&mut self.table, kept, Holding { unit, count: 1 })?;
        if held.is_some() {
            return Ok(held);
        }
        if owned::add(&mut self.owned, self.alloc, unit, key).is_err() {
            self.table.remove(key);
            return Err(NoMemory);
        }
        Ok(None)
    }
}
