//! Printed text, gathered and written when enough of it has come together.

ghost use Rattle.std.specs.Prelude.{◌≡◌, [], true, OnOk, OnErr};
ghost use Rattle.std.specs.Io.KnownBytes.{Appends};
ghost use Rattle.cics_run.specs.Session.{AppendsFront, Prints, stopped_writes, Rises, failures};
ghost use Rattle.cics_run.specs.declared.session.writing.Stop.TheVariants as stops;

use crate::session::streams::{Failed, Sink};
use cics_names::NoMemory;

/// How many bytes come together before they are written.
const FULL: usize = 65_536;

/// Why printing stopped.
#[derive(Clone, Copy)]
pub enum Stop {
    /// A request for memory was refused.
    NoMemory,
    /// The sink failed, or took nothing.
    WriteFault,
}

impl From<NoMemory> for Stop {
    ghost from_gives = { λ _ e. e ≡ stops.NoMemory };

    fn from(_error: NoMemory) -> Stop {
        Stop::NoMemory
    }
}

/// Writes all the bytes. Nothing is tried again.
///
/// Errors: `Failed` if a write failed, or took nothing. The first part of the bytes is written
/// then.
pub fn write_all<K: Sink>(sink: &mut K, bytes: &[u8]) -> Result<(), Failed>
    ensures failed { Rises (K.failed sink.old) (K.failed sink.new) (failures (λ _. 1) result) }
    ensures ok { OnOk result (Appends (K.contents sink.old) (K.contents sink.new) bytes.now) }
    ensures err { OnErr result
        (AppendsFront (K.contents sink.old) (K.contents sink.new) bytes.now) }
{
    let mut at = 0;
    while at < bytes.len() {
        match sink.write(&bytes[at..]) {
            Ok(0) => return Err(Failed),
            Ok(n) => at += n,
            Err(_) => return Err(Failed),
        }
    }
    Ok(())
}

/// Writes what is pending.
///
/// Errors: `WriteFault` if a write failed, or took nothing. The first part is written then.
pub fn write_pending<K: Sink>(pending: &mut Vec<u8>, sink: &mut K) -> Result<(), Stop>
    ensures ok { OnOk result
        (Appends (K.contents sink.old) (K.contents sink.new) pending.old.items) }
    ensures err { OnErr result
        (AppendsFront (K.contents sink.old) (K.contents sink.new) pending.old.items) }
    ensures left { OnOk result (pending.new.items ≡ []) }
    ensures failed { Rises (K.failed sink.old) (K.failed sink.new) (stopped_writes result) }
{
    match write_all(sink, pending) {
        Ok(()) => {
            pending.clear();
            Ok(())
        }
        Err(_) => Err(Stop::WriteFault),
    }
}

/// Writes what is pending, if `at_once` or enough of it has come together.
pub fn write_printed<K: Sink>(
    pending: &mut Vec<u8>,
    sink: &mut K,
    at_once: bool,
) -> Result<(), Stop>
    ensures printed { OnOk result (Prints (K.contents sink.old)
        (K.contents sink.new) pending.old.items pending.new.items []) }
    ensures left { OnOk result (at_once ≡ true → pending.new.items ≡ []) }
    ensures err { OnErr result
        (AppendsFront (K.contents sink.old) (K.contents sink.new) pending.old.items) }
    ensures failed { Rises (K.failed sink.old) (K.failed sink.new) (stopped_writes result) }
{
    if at_once || pending.len() >= FULL {
        return write_pending(pending, sink);
    }
    Ok(())
}
