//! A region as a machine: the definitions of its steps, and the parts that a region is made of.
//!
//! `specs/Machine`, `Checks`, `Steps`, `Waking`, `Shutdown` and `Answers` define a region as a
//! machine. `cics_dispatch` has the region, each call of which is a step. Read the modules in this
//! order:
//!
//! - `outcomes`: what the calls of a region return.
//! - `events`: what a region is asked, and what it tells.
//! - `reasons`, `checks`: the checks before a command looks at what other units own.
//! - `updates`: the updating command (`Op`) that a task's command asks for, if it asks for one.
//! - `reads`, `replies`: what a command is answered.
//! - `task`, `tasks`, `browses`, `waits`: what a region stores.
//! - `findings`: what looks at waiting commands find.

mod browses;
mod checks;
mod events;
mod findings;
mod outcomes;
mod reads;
mod reasons;
mod replies;
mod task;
mod tasks;
mod updates;
mod waits;

pub use browses::{BrowseStart, Browses, Direction, read_on};
pub use checks::{file_reason, item_reason, value_reason};
pub use events::{Event, Request, Subject};
pub use findings::{Free, Late, WaitLook};
pub use outcomes::{Attempt, Expired, Number, Outcome, Refused, Reply, UnitEnding, Woken};
pub use reads::{plain_reply, read_plain};
pub use reasons::Reason;
pub use replies::{reply_of_answer, reply_of_browsed, reply_of_item};
pub use task::Task;
pub use tasks::Tasks;
pub use updates::{refill, take, take_op};
pub use waits::{Suspended, Waits};
