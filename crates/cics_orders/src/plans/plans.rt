//! What a script is taken apart into.

ghost use Rattle.std.specs.Prelude.{◌≡◌};
ghost use Rattle.cics_names.specs.Keyed.{is_same};

use cics_dispatch::Refused;
use cics_names::{Items, Name4, Name8, Record};
use cics_script::LineFault;
use cics_units::DefineFault;

/// A task that a script attaches.
#[derive(Drop)]
pub struct TaskPlan {
    pub label: Name8,
    pub transaction: Name4,
    /// How many seconds of the clock its commands may wait; 0 is no limit.
    pub dtimout: u64,
    /// Its ATTACH line: the line's number, and its bytes.
    pub attach: (u64, Record),
    /// Its command lines, each with its number.
    pub lines: Items<(u64, Record)>,
}

/// What a script defines, and the lines that its tasks and the clock give.
pub struct Plan {
    /// The lines that define and load.
    pub definitions: Items<(u64, Record)>,
    /// The tasks in the order of attach.
    pub tasks: Items<TaskPlan>,
    /// The clock's lines: those that set it, and those that shut the region down.
    pub clock: Items<(u64, Record)>,
    /// The numbers of all these lines in the script's order, each behind its task's index; the
    /// clock's lines have none.
    pub written: Items<(Option<usize>, u64)>,
}

// By hand: so each place that drops a plan is one call, not a drop of each field.
impl Drop for Plan {
    fn drop(self) {
        let Plan {
            definitions: _definitions,
            tasks: _tasks,
            clock: _clock,
            written: _written,
        } = self;
    }
}

/// A line that is refused in every order: the second ATTACH of a label, or a command of a label
/// that isn't attached before it.
#[derive(Clone, Copy, PartialEq, Eq)]
pub struct RefusedLine {
    pub number: u64,
    pub label: Name8,
    pub refusal: Refused,
}

/// A script taken apart: its plan, and its refused lines in their order.
#[derive(Drop)]
pub struct Planned {
    pub plan: Plan,
    pub refused: Items<RefusedLine>,
}

/// Why a script can't be taken apart.
#[derive(Clone, Copy, PartialEq, Eq)]
pub enum ScriptFault {
    /// A line can't be read, or stands where it may not.
    Line(LineFault),
    /// A definition or a load is refused.
    Definition(DefineFault),
}

/// Returns whether two labels are the same.
pub fn is_same(own: &Name8, label: &Name8) -> bool
    ensures { result ≡ is_same own.now label.now }
{
    *own == *label
}
