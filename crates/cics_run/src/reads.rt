//! What the reads of a run saw, and what they missed: dirty reads, lost updates and skews.
//!
//! - `steps`: the steps of a run, its looks, changes and ends, and the cells that they are at.
//! - `looks`, `changes`: what a command looks at, and what it changes.
//! - `watching`: the observer that notes the steps of a run.
//! - `past`: the steps so far, with what is known by turn, by task and by cell.
//! - `seeing`: what a look saw, and what a change replaced.
//! - `noting`: `Reads`, the steps so far. It finds what is found in them.
//! - `skews`: what two turns saw and missed of each other.
//! - `found`, `ordering`, `writing`: what is found, its order, and its lines.
//! - `laws`: what follows from the definitions.

mod changes;
mod found;
pub mod laws;
mod looks;
mod noting;
mod ordering;
mod past;
mod seeing;
mod skews;
mod steps;
mod watching;
mod writing;

pub use found::{Fate, Finding, Pair};
pub use noting::Reads;
pub use steps::{Act, Bound, Cell, Change, Moment, Spot, Step};
pub use watching::Watcher;
pub use writing::{is_amiss, is_any_amiss, push_findings};
