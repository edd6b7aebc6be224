//! Runs of a script, as `cics_run::session` has them, and what the words of a command line ask for.
#![tactic(auto)]

mod command_line;
pub mod listing;
pub mod messages;
pub mod reading;
pub mod reads;
pub mod session;
pub mod stage;

pub use crate::session::{
    CHUNK, Failed, MOST_SCRIPT_BYTES, Options, Orders, RunFault, Session, Sink, Source, Status,
    Stop, Wanted, exit_status, line_len, run, run_over, strict_status, write_all, write_pending,
};
pub use command_line::{Action, Asked, CommandLine, arguments, read_arguments};
