//! Texts of files and queues at the end of a run: listings, replays and the serial run.

mod listing;
mod serial;
mod unit_lines;

pub use listing::{
    push_block, push_listing, push_replay, push_transient_block, recoverable_title, recovery_title,
};
pub use serial::push_serial;
