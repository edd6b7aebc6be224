//! Runs a script and draws it: the picture of a run, in place of its journal.
//!
//! [`run_picture`] reads a script whole, runs it as `cics_run::session` does, and writes one SVG. What
//! it writes is a stated function of the bytes read, and [`rows_are_the_journal`] says that its
//! rows show what the run prints, in order.

mod drawing;
mod laws;
mod notes;
mod picture;
mod reads;
mod recording;
mod standings;
mod titles;

pub use drawing::draw_script;
pub(crate) use drawing::run_line;
pub use laws::{bars_tell_outcomes, rows_are_the_journal, waits_name_blockers};
pub(crate) use picture::run_status;
pub use picture::{NoPicture, run_picture};
pub(crate) use recording::{fault_text, kind_of, text_of};
pub use recording::{Given, Recorder};
pub use standings::deadlocks_are_marked;
pub(crate) use standings::outcomes_at;
pub(crate) use titles::title_of;
