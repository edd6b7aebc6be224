//! What a run leaves a person to know.
//!
//! - `remarks`: a line for each event that is told.
//! - `noted`: the words of such a line. `reasons` has those on the check that a command failed, and
//!   `causes` those on what came up as it was executed. `parts` finds the options of a command that
//!   they name. `nearest` finds a name that is almost another one, and `instead` tells of it.
//! - `findings`: the words on a finding of `--reads`.
//! - `deadlocked`, `hints`: deadlocks; queues of one name, and commands with RESP2 alone.
//! - `amiss`, `waiting`: whether something is amiss at the end.
//! - `faulty`: what a line with a fault needs.
//! - `messages`: all that is told at the end, or of a run that ended at a fault.

mod amiss;
mod causes;
mod deadlocked;
mod faulty;
mod findings;
mod hints;
mod instead;
mod messages;
mod nearest;
mod noted;
mod parts;
mod reasons;
mod remarks;
mod waiting;

pub use amiss::{is_amiss, strict_tells_all};
pub use deadlocked::push_deadlocks;
pub use faulty::push_told;
pub use hints::keep_alone;
pub use instead::meant_queue;
pub use messages::{told_at_end, told_of};
pub use remarks::{Remark, Remarks, push_remarks};
