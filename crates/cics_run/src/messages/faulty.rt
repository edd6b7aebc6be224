//! What a person is told of a faulty line.

ghost use Rattle.std.specs.Prelude.{◌≡◌, OnOk, IfOk};
ghost use Rattle.cics_run.specs.Messages.Messages.{first_column, IsCauseOf, TellsFault};

use crate::stage::Fault;
use cics_names::NoMemory;
use cics_script::advice::{Cause, Origin, push_advice};
use cics_script::{Placed, find_fault, skip_blanks};
use std::alloc::Global;

// Returns the column of the first byte that is no blank.
fn first_column(line: &[u8]) -> usize
    ensures { result ≡ first_column line.now }
{
    line.len()
        .saturating_sub(skip_blanks(line).len())
        .saturating_add(1)
}

// Returns the cause of a line's fault, with its column. A line that can be read is at fault as a
// whole.
fn cause_of(alloc: Global, line: &[u8], fault: Fault) -> Result<Cause, NoMemory>
    ensures { IfOk result (IsCauseOf line.now fault) }
{
    match fault {
        Fault::Definition(fault) => Ok(Cause::Definition(fault.number())),
        Fault::Line(fault) => match find_fault(alloc, line)? {
            Some(placed) => Ok(Cause::Line(placed)),
            None => Ok(Cause::Line(Placed {
                fault,
                column: Some(first_column(line)),
            })),
        },
    }
}

/// Appends what a person is told of a line with this fault: a message, the line, and a caret.
pub fn push_told(
    out: &mut Vec<u8>,
    origin: Origin<'_>,
    line: &[u8],
    fault: Fault,
) -> Result<(), NoMemory>
    ensures { OnOk result (TellsFault origin.entry line.now fault out.old.items out.new.items) }
{
    let cause = cause_of(*out.allocator(), line, fault)?;
    push_advice(out, origin, line, cause)
}
