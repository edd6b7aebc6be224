//! Histories of commands: what files and queues hold after any commands, commits and backouts of
//! interleaved units of work. Which unit owns what, and which command has to wait.
//!
//! The definitions are in specs/, and `laws` says what follows from them. There is no state here:
//! the crate above has the units of work that execute commands.
#![tactic(auto)]

mod borrowed;
pub mod laws;
mod ops;
mod packing;
mod resources;
mod stamping;

pub use borrowed::OpRef;
pub use ops::{Answer, Done, Enqueued, Entry, Op, UnitState};
pub use resources::{Resource, UnitId};
pub use stamping::stamp_op;
