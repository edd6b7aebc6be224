//! Runs the script of a region from a source, and writes its journal and what follows it to a sink.
//!
//! - `running`: the calls `run` and `run_over`, with their options and answers.
//! - `session`: a run between two reads.
//! - `streams`, `writing`: where bytes come from and go to, and text that is gathered and written.
//! - `statuses`: the exit statuses of the program.

mod running;
mod session;
mod statuses;
mod streams;
mod writing;

pub(crate) use running::ended;
pub use running::{
    CHUNK, MOST_SCRIPT_BYTES, Options, Orders, RunFault, Status, Wanted, run, run_over,
};
pub use session::{Session, line_len};
pub use statuses::{exit_status, strict_status};
pub use streams::{Failed, Sink, Source};
pub(crate) use writing::write_printed;
pub use writing::{Stop, write_all, write_pending};
