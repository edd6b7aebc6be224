//! The table keys that each unit acquired.

ghost use Rattle.std.specs.Prelude.{◌≡◌, ◌<◌, ℕ, true, false, IfSome, IfNone};
ghost use Rattle.std.specs.Prelude.{OnOk, OnErr};
ghost use Rattle.std.specs.List.{list_any};
ghost use Rattle.std.specs.Bool.{OnTrue};
ghost use Rattle.cics_names.specs.Keyed.{Bytes, is_same};
ghost use Rattle.cics_enqueue.specs.Kept.{owns, own_count, OwnsSame, Adds, Drops};
ghost use Rattle.cics_history.specs.Holding.{is_other};

use crate::Key;
use crate::conflicts::is_another;
use cics_history::UnitId;
use cics_names::NoMemory;
use indexmap::IndexMap;
use std::alloc::Global;

// For each unit its table keys, in the order in which it acquired them. A key released before a
// later one stays until the unit ends. To look for it costs more than to pass over it then.
pub(crate) type Owned = IndexMap<UnitId, Vec<Key>>;

// Returns true only if no unit but the asker has any keys. May be conservatively false: a unit that
// released all its keys may be here until it ends. Cost: O(1).
pub(crate) fn is_alone(owned: &Owned, asker: &Option<UnitId>) -> bool
    ensures { OnTrue result ((u : ℕ) (k : Bytes) →
        is_other asker.now u ≡ true → owns owned.now.entries u k ≡ false) }
{
    if owned.len() > 1 {
        return false;
    }
    match owned.first() {
        Some((unit, _)) => !is_another(asker, *unit),
        None => true,
    }
}

// Adds a key to those of a unit.
pub(crate) fn add(owned: &mut Owned, alloc: Global, unit: UnitId, key: &Key) -> Result<(), NoMemory>
    ensures added { OnOk result (Adds unit key.now owned.old.entries owned.new.entries) }
    ensures err { OnErr result (OwnsSame owned.old.entries owned.new.entries) }
{
    let key = key.copy(alloc)?;
    if let Some(keys) = owned.get_mut(&unit) {
        keys.push(key)?;
        return Ok(());
    }
    let mut keys = Vec::new(alloc);
    keys.push(key)?;
    owned.insert(unit, keys)?;
    Ok(())
}

// Removes a key if it is the last of these.
fn drop_last(keys: &mut Vec<Key>, key: &Key)
    ensures { (k : Bytes) → is_same key.now k ≡ false →
        list_any (is_same k) keys.old.items ≡ true →
        list_any (is_same k) keys.new.items ≡ true }
{
    let is_last = match keys.last() {
        Some(last) => last == key,
        None => false,
    };
    if is_last {
        keys.pop();
    }
}

// Removes a key of a unit if it is the last of the unit's. Else leaves it there.
pub(crate) fn remove(owned: &mut Owned, unit: UnitId, key: &Key)
    ensures { Drops unit key.now owned.old.entries owned.new.entries }
{
    if let Some(keys) = owned.get_mut(&unit) {
        drop_last(keys, key);
    }
}

// Returns the key with these bytes among those of a unit, if it is there. Cost: O(keys of the
// unit).
pub(crate) fn find<'o>(owned: &'o Owned, unit: UnitId, bytes: &[u8]) -> Option<&'o Key>
    ensures found { IfSome result (λ key. key.now ≡ bytes.now) }
    ensures none { IfNone result (owns owned.now.entries unit bytes.now ≡ false) }
{
    for key in owned.get(&unit)? {
        if bytes == key.as_slice() {
            return Some(key);
        }
    }
    None
}

// Removes and returns one of a unit's keys, if it has any.
pub(crate) fn pop(owned: &mut Owned, unit: UnitId) -> Option<Key>
    ensures fewer { IfSome result (λ key. own_count owned.new.entries unit
        < own_count owned.old.entries unit) }
    ensures taken { IfSome result (λ key. Drops unit key owned.old.entries
        owned.new.entries) }
    ensures none { IfNone result ((k : Bytes) → owns owned.old.entries unit k ≡ false) }
    ensures stays { IfNone result (OwnsSame owned.old.entries owned.new.entries) }
{
    owned.get_mut(&unit)?.pop()
}
