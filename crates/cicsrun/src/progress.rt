//! Lines on standard error that say how far a search is.

use cics_orders::command::{Progress, Stand};
use std::time::Instant;

// How many seconds pass at least between two lines.
const PAUSE: u64 = 1;

/// Prints lines that say how far a search is, if that is wanted and the clock can be read.
#[derive(Drop)]
pub(crate) struct ProgressLines {
    rt: HostRuntime,
    // When the search began, or the last line was printed.
    last: Option<Instant>,
}

impl ProgressLines {
    /// Returns the lines of a search that begins now.
    pub(crate) fn new(rt: HostRuntime, are_wanted: bool) -> ProgressLines {
        let last = if are_wanted {
            Instant::now(&rt).ok()
        } else {
            None
        };
        ProgressLines { rt, last }
    }
}

impl Progress for ProgressLines {
    // A line that can't be printed is left out.
    fn tell(&mut self, stand: Stand) {
        let Some(last) = self.last else {
            return;
        };
        let Ok(now) = Instant::now(&self.rt) else {
            return;
        };
        if now.duration_since(last).as_secs() < PAUSE {
            return;
        }
        self.last = Some(now);
        let search = if stand.is_serial { "serial " } else { "" };
        let _ = eprintln!(self.rt;
            "cicsrun: {search}level {} of {}, {} states",
            stand.level, stand.levels, stand.states
        );
    }
}
