//! Enqueues: which unit of work owns which resource, and how many times.
//!
//! A resource has at most one owner. Conflicting resources, such as a key of a file and a prefix of
//! it, have the same owner. A unit releases what it owns without a look-up of others' resources.
//!
//! - `enqueues`: the table of enqueues and the look-ups in it. The *asker* (`but_not`) is the unit
//!   that would acquire a resource, `None` if it hasn't begun.
//! - `acquiring`, `releasing`: the calls that change the table.
//! - `borrowed`: a resource whose bytes are borrowed.
//! - `compact`: the *table key* of a resource (`keys`): its bytes, by which the table
//!   is ordered.
//! - `conflicts`: look-ups of what conflicts with a resource.
//! - `owned`: the table keys that each unit acquired.
//! - `under`: whether a unit owns what conflicts with a prefix of keys.
//! - `laws`: what holds of each table.
#![tactic(auto)]

mod acquiring;
mod borrowed;
mod compact;
mod conflicts;
mod enqueues;
mod keys;
pub mod laws;
mod owned;
mod releasing;
mod under;

pub use borrowed::ResourceRef;
pub use cics_history::{Resource, UnitId};
pub use enqueues::{Enqueues, TakeFault};
pub use keys::{Key, MOST_KEY_BYTES};
