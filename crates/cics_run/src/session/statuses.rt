//! The exit status of the program.

ghost use Rattle.std.specs.Prelude.{◌≡◌};
ghost use Rattle.cics_run.specs.Session.Statuses.{status_of, strict_status_of};

use crate::session::running::{RunFault, Status};

/// Returns the exit status of a run.
///
/// It is 0 if the run is done, 1 at a fault of a line or a definition, and 3 without memory. It is
/// 4 if a read or a write failed, or the script is too long.
pub fn exit_status(answer: &Result<Status, RunFault>) -> u8
    ensures { result ≡ status_of answer.now }
{
    match answer {
        Ok(Status::Done) => 0,
        Ok(Status::LineFault) => 1,
        Err(RunFault::NoMemory) => 3,
        Err(_) => 4,
    }
}

/// Returns the exit status of a strict run: 5 if it is done and something is amiss, else as
/// `exit_status` says.
pub fn strict_status(answer: &Result<Status, RunFault>, is_amiss: bool) -> u8
    ensures { result ≡ strict_status_of answer.now is_amiss }
{
    match answer {
        Ok(Status::Done) if is_amiss => 5,
        _ => exit_status(answer),
    }
}
