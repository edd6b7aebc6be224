//! What a row tells: an event of the region, or the fault of a line.

ghost use Rattle.std.specs.Prelude.{◌≡◌};
ghost use Rattle.cics_picture.specs.Events.{class_of, shape_of};

use cics_names::{Name8, Record};

/// What a task was told, or what the region did. `Committed` and `BackedOut` are the answers of
/// SYNCPOINT and ROLLBACK, `Down` is a shutdown or a line's fault.
#[derive(Clone, Copy, PartialEq, Eq)]
pub enum RowKind {
    Attached,
    Normal,
    Waiting,
    Woken,
    Committed,
    BackedOut,
    Ended,
    Abended,
    Refused,
    Condition,
    Clock,
    Down,
}

/// What a row tells.
#[derive(Drop)]
pub struct Told {
    /// The kind, which gives the row its mark.
    pub kind: RowKind,
    /// The label of the task, if it is an event of one.
    pub task: Option<Name8>,
    /// The label of the task that blocks it, if it has to wait.
    pub blocker: Option<Name8>,
    /// The line of the journal, without its LF.
    pub text: Record,
    /// What stands behind it.
    pub note: Record,
}

impl RowKind {
    /// Returns the class that gives the kind its colour.
    pub fn class(self) -> &'static str
        ensures { result.now ≡ class_of self }
    {
        match self {
            RowKind::Attached => "mr",
            RowKind::Normal => "mk",
            RowKind::Waiting => "mw",
            RowKind::Woken => "mg",
            RowKind::Committed => "mf",
            RowKind::BackedOut => "mc",
            RowKind::Ended => "mf",
            RowKind::Abended => "ma",
            RowKind::Refused => "mc",
            RowKind::Condition => "mc",
            RowKind::Clock => "clk",
            RowKind::Down => "dwn",
        }
    }

    /// Returns the path of the kind's mark, round its place.
    pub fn shape(self) -> &'static str
        ensures { result.now ≡ shape_of self }
    {
        match self {
            RowKind::Attached => "M-6 0a6 6 0 1 0 12 0a6 6 0 1 0 -12 0z",
            RowKind::Normal => "M-5 0a5 5 0 1 0 10 0a5 5 0 1 0 -10 0z",
            RowKind::Waiting => "M-5 -6h10l-10 12h10z",
            RowKind::Woken => "M-4 -6l10 6l-10 6z",
            RowKind::Committed => "M-8 0a8 8 0 1 0 16 0a8 8 0 1 0 -16 0zM-4 0l3 3l5 -6",
            RowKind::BackedOut => "M-8 0a8 8 0 1 0 16 0a8 8 0 1 0 -16 0zM4 4v-4h-8l3 -3m-3 3l3 3",
            RowKind::Ended => "M-9 0h18",
            RowKind::Abended => "M-8 0a8 8 0 1 0 16 0a8 8 0 1 0 -16 0zM-3 -3l6 6m0 -6l-6 6",
            RowKind::Refused => "M-5 0a5 5 0 1 0 10 0a5 5 0 1 0 -10 0zM-3 3l6 -6",
            RowKind::Condition => "M0 -6l6 10h-12z",
            RowKind::Clock => "M-9 0h18",
            RowKind::Down => "M-9 0h18",
        }
    }
}
