//! Results of the calls of a region.

ghost use Rattle.std.specs.Prelude.{◌≡◌};
ghost use Rattle.cics_dispatch.specs.Machine.Refusals.{refusal_number};

use cics_history::UnitId;
use cics_names::{AbendCode, Condition, Name8, NoMemory, Record};
use cics_units::Op;

/// The number that a reply carries.
#[derive(Clone, Copy, PartialEq, Eq)]
pub enum Number {
    /// The number of an item of temporary storage, from 1 on.
    Item(u64),
    /// The number of the records that DELETE GENERIC deleted, from 1 on.
    Numrec(u64),
}

/// What a command was answered.
#[derive(PartialEq, Eq, Drop)]
pub struct Reply {
    /// The condition. The other fields have something only at NORMAL, and at LENGERR if the content
    /// is longer than LENGTH.
    pub condition: Condition,
    /// The key of the record that a browse gave.
    pub key: Option<Record>,
    /// The record or item that was read, at LENGERR its first bytes.
    pub content: Option<Record>,
    /// The number of the item that was read or written, or of the records that DELETE GENERIC
    /// deleted.
    pub number: Option<Number>,
}

/// The outcome of a command.
#[derive(PartialEq, Eq, Drop)]
pub enum Outcome {
    /// The task goes on with this reply.
    Replied(Reply),
    /// The command waits, and nothing of it was executed. The label is that of the task whose unit
    /// of work blocks it.
    Waiting(Name8),
    /// The task has ended with this code, and its unit of work is backed out. The reply is the one
    /// whose condition nothing handled. ABEND has none.
    Abended(AbendCode, Option<Reply>),
    /// The task has ended by RETURN.
    Ended,
}

/// How a unit of work ends.
#[derive(Clone, Copy)]
pub enum UnitEnding {
    /// It is committed.
    Commit,
    /// It is backed out.
    Backout,
}

/// The result of trying a command.
#[derive(Drop)]
pub enum Attempt {
    /// The command was executed, and its task is told this.
    Told(Outcome),
    /// This open unit blocks the command, of which nothing was executed. The updating command that
    /// it asks for is returned as it was given.
    MustWait(UnitId, Option<Op>),
}

/// A waiting command that resumed.
#[derive(PartialEq, Eq, Drop)]
pub struct Woken {
    /// The label of its task.
    pub label: Name8,
    /// Its outcome, which is never `Waiting`.
    pub outcome: Outcome,
}

/// A task that has waited too long, and was abended.
#[derive(Clone, Copy, PartialEq, Eq)]
pub struct Expired {
    /// The label of the task.
    pub label: Name8,
    /// The code of its abend.
    pub code: AbendCode,
}

/// Why a call of a region was refused. A refused call changes nothing.
#[derive(Clone, Copy, Debug, PartialEq, Eq)]
pub enum Refused {
    /// Memory was refused.
    NoMemory,
    /// No task has the label.
    NoTask,
    /// A command of the task waits.
    TaskWaiting,
    /// The task has ended.
    TaskEnded,
    /// A task has or had the label.
    DuplicateLabel,
    /// The clock would go back.
    ClockBack,
    /// The region is shut down. This comes before every other refusal.
    RegionDown,
}

impl Refused {
    /// Returns the number of the refusal, from 1 on, that a journal prints.
    pub fn number(&self) -> u64
        ensures { result ≡ refusal_number self.now }
    {
        match self {
            Refused::NoMemory => 1,
            Refused::NoTask => 2,
            Refused::TaskWaiting => 3,
            Refused::TaskEnded => 4,
            Refused::DuplicateLabel => 5,
            Refused::ClockBack => 6,
            Refused::RegionDown => 7,
        }
    }
}

impl From<NoMemory> for Refused {
    ghost use Rattle.std.specs.Prelude.{◌≡◌};
    ghost use Rattle.cics_dispatch.specs.declared.machine.outcomes.Refused.TheVariants.{};
    ghost use Rattle.cics_dispatch.specs.declared.machine.outcomes.Refused.TheVariants.{NoMemory as Wanting};

    ghost from_gives = { λ _ refusal. refusal ≡ Wanting };

    fn from(_want: NoMemory) -> Refused {
        Refused::NoMemory
    }
}
