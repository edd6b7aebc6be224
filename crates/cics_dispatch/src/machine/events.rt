//! What a region is asked, and what it tells.

use crate::machine::outcomes::{Expired, Outcome, Refused, Woken};
use crate::machine::reasons::Reason;
use cics_names::{Command, Name4, Name8};

/// What a region is asked to do.
#[derive(Drop)]
pub enum Request {
    /// ATTACH: the task of a label begins for a transaction. A command of it may wait for
    /// `dtimout` seconds, 0 for no limit.
    Attach {
        label: Name8,
        transaction: Name4,
        dtimout: u64,
    },
    /// The clock is set, in seconds.
    Clock(u64),
    /// The task of a label issues a command.
    Issue(Name8, Command),
    /// SHUTDOWN IMMEDIATE.
    Shutdown,
}

/// Whom a refused request is for.
#[derive(Clone, Copy, PartialEq, Eq)]
pub enum Subject {
    /// The task of a label.
    Task(Name8),
    /// The clock.
    Clock,
    /// The shutdown.
    Shutdown,
}

/// What a region did, as it was asked or by itself.
#[derive(PartialEq, Eq, Drop)]
pub enum Event {
    /// The task of a label was attached for a transaction.
    Attached(Name8, Name4),
    /// The task of a label issued a command, with this outcome. If it failed a check, this is the
    /// first that it failed.
    Issued(Name8, Outcome, Option<Reason>),
    /// A waiting command resumed.
    Woken(Woken),
    /// A task had waited too long, and was abended.
    Expired(Expired),
    /// The clock was set, in seconds.
    ClockSet(u64),
    /// The region was shut down. That backed out so many units of work.
    ShutDown(u64),
    /// A request was refused, which changed nothing.
    Refused(Subject, Refused),
}
