//! A region: its tasks and their commands, who waits for whom, time-outs, abends and the shutdown.
//!
//! `cics_dispatch::machine` defines a region as a machine, and has the parts that it is made of.
//! Each call of `Region` that changes it is one step. Read the modules in this order:
//!
//! - `regions`, with `regions::playing`: the public calls.
//! - `dispatcher`: the state of a region, and the step of each command.
#![tactic(auto)]

pub mod deadlocks;
mod dispatcher;
pub mod future;
pub mod machine;
pub mod notes;
mod regions;

pub use crate::machine::{
    Event, Expired, Number, Outcome, Reason, Refused, Reply, Request, Subject, Woken,
};
pub use cics_names::{Command, Verb};
pub use regions::Region;
