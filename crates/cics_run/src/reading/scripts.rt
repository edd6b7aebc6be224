//! A script that is read whole.

ghost use Rattle.std.specs.Prelude.{◌≡◌, []};
ghost use Rattle.cics_run.specs.Session.{most_reads, read_failures, Rises, RisesAtMost, failures};
ghost use Rattle.cics_run.specs.Reading.Reads.{Reads};

use crate::session::{CHUNK, MOST_SCRIPT_BYTES, RunFault, Source};

/// Reads a script to its end: at most `MOST_SCRIPT_BYTES`, and one more to see whether there are
/// more.
///
/// `script` must be empty.
///
/// Errors: `InputTooLong`; `ReadFault` if a read failed; `NoMemory`. Cost: O(bytes that it reads).
pub fn read_script<S: Source>(source: &mut S, script: &mut Vec<u8>) -> Result<(), RunFault>
    requires { script.old.items ≡ [] }
    ensures reads { Reads (S.remaining source.old) (S.remaining source.new) script.new.items
        result }
    ensures failed { Rises (S.failed source.old) (S.failed source.new)
        (failures read_failures result) }
    ensures asked { RisesAtMost (S.asked source.old) (S.asked source.new) most_reads }
{
    let mut buffer = [0u8; CHUNK];
    let mut room = MOST_SCRIPT_BYTES;
    'reads: loop {
        let size = room.min(CHUNK).max(1);
        match source.read(&mut buffer[..size]) {
            Ok(0) => return Ok(()),
            Ok(_) if room == 0 => return Err(RunFault::InputTooLong),
            Ok(n) => match script.extend_from_slice(&buffer[..n]) {
                Ok(()) => room -= n,
                Err(_) => return Err(RunFault::NoMemory),
            },
            Err(_) => return Err(RunFault::ReadFault),
        }
    }
}
