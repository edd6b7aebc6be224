//! Results of looks at waiting commands.

use cics_history::UnitId;
use cics_names::Name8;

/// What a look at a waiting command finds.
pub enum WaitLook {
    /// It may resume.
    MayGoOn,
    /// It must wait as long as this unit releases nothing.
    IsBlocked(UnitId),
}

/// A waiting command that may resume.
#[derive(Clone, Copy)]
pub struct Free {
    /// The index of its note.
    pub place: usize,
    /// The label of its task.
    pub label: Name8,
}

/// A task that has waited too long.
#[derive(Clone, Copy)]
pub struct Late {
    /// The index of the task.
    pub task: usize,
    /// The index of the note of its command. `None` if that has none.
    pub note: Option<usize>,
}
