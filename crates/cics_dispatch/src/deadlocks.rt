//! Deadlocks: tasks of a region that wait for each other, each directly or through others.
//!
//! `specs/Deadlocks` has them: `Circles` says what a deadlock of a graph is, `Searches` how it is
//! found, `Deadlocks` which graph a region's waits are.

mod circles;
mod searches;
mod waiting;

pub use waiting::{deadlocks, in_deadlock, waiting_count};
