//! A script that is read and its picture that is written.

ghost use Rattle.std.specs.Prelude.{◌≡◌};
ghost use Rattle.cics_run.specs.Session.Running.{most_reads, read_failures, write_failures};
ghost use Rattle.cics_run.specs.Session.Standing.{IsNew};
ghost use Rattle.cics_run.specs.Session.Streams.{Rises, RisesAtMost, failures};
ghost use Rattle.cics_picture.specs.Draw.Pictures.{Pictures, KeepsFault, failures_of, undrawn, run_status};

use crate::Undrawn;
use crate::draw::drawing::draw_script;
use cics_run::reading::read_script;
use cics_run::session::{RunFault, Session, Sink, Source, Status, write_all};
use thiserror::Error;

/// Why a script has no picture.
#[derive(Debug, Drop, Error)]
pub enum NoPicture {
    /// The run stopped. Nothing was written, unless a write failed: then a front of the picture.
    #[error("{0}")]
    Stopped(RunFault),
    /// The run has more events than a picture may have: nothing was written.
    #[error("a picture has at most 100000 events")]
    TooManyEvents,
}

fn undrawn(error: Undrawn) -> NoPicture
    ensures { result ≡ undrawn error }
{
    match error {
        Undrawn::NoMemory => NoPicture::Stopped(RunFault::NoMemory),
        Undrawn::TooManyRows => NoPicture::TooManyEvents,
    }
}

/// Returns how a run ended.
pub(crate) fn run_status(is_faulty: bool) -> Status
    ensures { result ≡ run_status is_faulty }
{
    if is_faulty {
        Status::LineFault
    } else {
        Status::Done
    }
}

/// Runs the script that a source gives, and writes its picture, when all is read and run.
///
/// It reads at most `MOST_SCRIPT_BYTES`, and one more to see whether there are more. The picture of
/// a script with a fault ends with the fault. The session is a new one, and is left to its owner.
///
/// Returns how the run ended, or why there is no picture. It returns a read or a write fault only
/// if that very call failed, and tries none again. After a fault the session keeps the line with
/// the fault.
pub fn run_picture<S: Source, K: Sink>(
    session: &mut Session,
    source: &mut S,
    sink: &mut K,
) -> Result<Status, NoPicture>
    requires new { IsNew session.old }
    ensures read_faults { Rises (S.failed source.old) (S.failed source.new)
        (failures (failures_of read_failures) result) }
    ensures write_faults { Rises (K.failed sink.old) (K.failed sink.new)
        (failures (failures_of write_failures) result) }
    ensures asked { RisesAtMost (S.asked source.old) (S.asked source.new) most_reads }
    ensures kept { KeepsFault (S.remaining source.old) (S.remaining source.new) session.new
        result }
    ensures whole { Pictures (S.remaining source.old) (S.remaining source.new)
        (K.contents sink.old) (K.contents sink.new) result }
{
    let alloc = *session.line.allocator();
    let mut script = Vec::new(alloc);
    match read_script(source, &mut script) {
        Ok(()) => {}
        Err(fault) => return Err(NoPicture::Stopped(fault)),
    }
    let mut text = Vec::new(alloc);
    let is_faulty = match draw_script(session, &script, &mut text) {
        Ok(is_faulty) => is_faulty,
        Err(error) => return Err(undrawn(error)),
    };
    match write_all(sink, &text) {
        Ok(()) => Ok(run_status(is_faulty)),
        Err(_) => Err(NoPicture::Stopped(RunFault::WriteFault)),
    }
}
