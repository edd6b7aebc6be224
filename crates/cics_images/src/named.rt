//! Images of values by name.

use cics_names::Name8;

/// The before image of one change of the value of a name: of a file, of a transient data queue.
#[derive(Drop)]
pub struct NamedImage<I> {
    /// The name of the value.
    pub name: Name8,
    /// What undoes its change.
    pub image: I,
}
