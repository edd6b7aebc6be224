//! Values by keys, in the order in which keys were met.

ghost use Rattle.std.specs.Prelude.{◌≡◌, OnOk};
ghost use Rattle.cics_orders.specs.Space.Groups.{added};

use cics_names::NoMemory;
use indexmap::IndexMap;
use std::hash::Hash;

/// A value to which another one of its key is joined.
pub trait Join {
    /// The value with another one.
    ghost joined: { Self → Self → Self };

    /// Joins another value to it.
    fn join(&mut self, other: Self)
        ensures { self.new ≡ joined self.old other };
}

/// Joins a value to the one of its key, or adds it. Errors: `NoMemory`.
pub fn add<K: Eq + Hash + Drop, T: Join + Drop>(
    met: &mut IndexMap<K, T>,
    key: K,
    value: T,
) -> Result<(), NoMemory>
    ensures { OnOk result (met.new.entries ≡ added K.eq T.joined met.old.entries key value) }
{
    if let Some(known) = met.get_mut(&key) {
        known.join(value);
        return Ok(());
    }
    met.insert(key, value)?;
    Ok(())
}
