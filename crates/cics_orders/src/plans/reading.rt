//! Reading a line.

ghost use Rattle.std.specs.Prelude.{◌≡◌, IfOk};
ghost use Rattle.cics_script.specs.Lines.{line};

use cics_names::NoMemory;
use cics_script::{Line, LineFault, read_line};
use std::alloc::Global;

/// Returns what the bytes of a line say, or their fault.
///
/// Errors: `NoMemory`. Cost: O(bytes).
pub fn read(alloc: Global, bytes: &[u8]) -> Result<Result<Line, LineFault>, NoMemory>
    ensures { IfOk result (λ says. says ≡ line bytes.now) }
{
    match read_line(alloc, bytes) {
        Ok(line) => Ok(Ok(line)),
        Err(LineFault::NoMemory) => Err(NoMemory),
        Err(fault) => Ok(Err(fault)),
    }
}
