//! What is found in a run.

use crate::reads::steps::Moment;
use cics_names::Name8;

/// A look, and a change that it saw or missed.
#[derive(Clone, Copy)]
pub struct Pair {
    pub look: Moment,
    pub change: Moment,
}

/// A look and a change that it saw.
#[derive(Clone, Copy)]
pub struct Seen {
    pub pair: Pair,
    /// Whether the change lasts.
    pub lasts: bool,
}

/// A change that replaced another one, which its task's last look had missed.
#[derive(Clone, Copy)]
pub struct Lost {
    pub missed: Pair,
    pub by: Moment,
    /// Whether the change that replaced it lasts.
    pub lasts: bool,
}

/// How a turn ended.
#[derive(Clone, Copy, PartialEq, Eq)]
pub enum Fate {
    Committed,
    BackedOut,
    Open,
}

/// What a read saw or missed.
#[derive(Clone, Copy)]
pub enum Finding {
    /// A look saw an open change, whose turn ended like this.
    DirtyRead(Pair, Fate),
    /// A look missed a change, and another change of the look's task replaced that.
    LostUpdate(Pair, Moment),
    /// A turn missed a change of another turn, and saw that one or another one of it.
    ReadSkew(Pair, Pair),
    /// Two turns each missed a change of the other one.
    WriteSkew(Pair, Pair),
}

/// A turn: its task and its number, which is that of its first step.
#[derive(Clone, Copy)]
pub struct Turn {
    pub task: Name8,
    pub number: u64,
    /// The number of its last step.
    pub last: u64,
    /// How many steps there are from the first one to the last one, those of other tasks too.
    pub count: u64,
}

/// Two turns, of which one looks at what the other one changes.
#[derive(Clone, Copy)]
pub struct Turns {
    pub reader: Turn,
    pub writer: Turn,
    /// Whether only cells count that the reader itself leaves alone.
    pub alone: bool,
}
