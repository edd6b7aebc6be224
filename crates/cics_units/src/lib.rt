//! Units of work: they change files and queues side by side, and commit or are backed out.
//!
//! The definitions in `cics_history` say what each step does. Here are files, queues and locks in
//! place. `cics_units::opening` has files and queues by name, and what they open with;
//! `cics_units::replay` lists them. Read the modules in this order:
//!
//! - `units`: the public calls on units, and the history of what they executed.
//! - `units_core`: the steps of a command on what units change in place.
//! - `uses`, `store`: the resources that a command uses, and the change that it makes.
//! - `open_reads`: the open update reads.
//! - `stamping`: the stamp of what a unit did.
//! - `laws`: files and queues hold something back for open units alone.
#![tactic(auto)]

pub mod laws;
mod open_reads;
pub mod opening;
pub mod replay;
mod stamping;
mod store;
mod units;
mod units_core;
mod uses;

pub use crate::opening::{DefineFault, Opening};
pub use crate::replay::{Listing, TaskState, plain_replay};
pub use cics_history::{Answer, Done, Enqueued, Entry, Op, OpRef, UnitState};
pub use units::{Submitted, Units};
