//! The run of a script.

ghost use Rattle.std.specs.Prelude.{◌≡◌, None, option_map};
ghost use Rattle.cics_run.specs.Reads.Watching.{watched_in};
ghost use Rattle.cics_run.specs.Session.{RunsOver, Rises, RisesAtMost, failures, plain, fault_of};
ghost use Rattle.cics_run.specs.Session.{initially_watched, most_reads, read_failures, ended};
ghost use Rattle.cics_run.specs.Session.{write_failures, form_of, scope_of, IsNew, KeepsEnd};

use crate::reads::Watcher;
use crate::session::session::Session;
use crate::session::streams::{Sink, Source};
use crate::session::writing::Stop;
use crate::stage::Scope;
use std::alloc::Global;
use std::io::{Read, Write};
use thiserror::Error;

/// The greatest number of bytes that a script may have.
pub const MOST_SCRIPT_BYTES: usize = 16_777_216;

/// The greatest number of bytes that are asked for at once.
pub const CHUNK: usize = 65_536;

/// How a run ended that wrote all that it had to.
#[derive(Clone, Copy, PartialEq, Eq)]
pub enum Status {
    /// Every line was run; the journal and what was asked for after it are written.
    Done,
    /// A line or a definition has a fault. The journal up to it is written, with the fault as its
    /// last line, and nothing behind it.
    LineFault,
}

/// Why a run stopped. The first part of what the whole run would write is written then.
#[derive(Debug, Drop, Error)]
pub enum RunFault {
    /// A request for memory was refused.
    #[error("no memory")]
    NoMemory,
    /// The reader failed, and wasn't asked again. The journal of the complete lines is written.
    #[error("read fault")]
    ReadFault,
    /// The writer failed, or took nothing, and wasn't asked again: it has the bytes that it took.
    #[error("write fault")]
    WriteFault,
    /// The reader has more than `MOST_SCRIPT_BYTES`. The journal of the lines that the first
    /// `MOST_SCRIPT_BYTES` bytes complete is written.
    #[error("input too long")]
    InputTooLong,
}

/// What `run` prints beside the journal.
#[derive(Clone, Copy, PartialEq, Eq)]
pub struct Options {
    /// Print the replay behind the listing.
    pub replay: bool,
    /// Leave out the listing.
    pub no_list: bool,
}

/// What the program does in a run: its options, and what goes beyond them.
#[derive(Clone, Copy)]
pub struct Wanted {
    pub options: Options,
    /// Print what reads saw and missed, behind the listing and the replay.
    pub reads: bool,
    /// Print the serial run behind the listing and the replay.
    pub serial: bool,
    /// Print each line of the script in front of its journal lines.
    pub with_script: bool,
    /// End with a status of its own if something is amiss (`strict_status`).
    pub strict: bool,
    /// Tell a person also why tasks were answered conditions that they handle.
    pub why: bool,
}

impl Wanted {
    /// Returns a `Wanted` with these options and nothing else.
    pub fn plain(options: Options) -> Wanted
        ensures { form_of result ≡ plain options }
    {
        Wanted {
            options,
            reads: false,
            serial: false,
            with_script: false,
            strict: false,
            why: false,
        }
    }

    /// Returns whether it goes beyond its options.
    pub fn goes_beyond(self) -> bool {
        self.reads || self.serial || self.with_script || self.strict || self.why
    }

    // Returns what notes the steps of the run, if they are wanted.
    fn watcher(self, alloc: Global) -> Option<Watcher>
        ensures { option_map watched_in result ≡ initially_watched self.reads }
    {
        if self.reads {
            Some(Watcher::new(alloc))
        } else {
            None
        }
    }

    // Returns which events are told.
    fn scope(self) -> Scope
        ensures { result ≡ scope_of self }
    {
        Scope {
            strict: self.strict,
            why: self.why,
        }
    }
}

/// The options of a report on the orders in which a script's tasks may give their lines.
///
/// - `told`: whether endings with different answers are different.
/// - `limit`: about how many states of the region and its lanes are followed.
/// - `ending`: the number of the ending to print as a script, if one is given.
/// - `strict`: whether the answer says that an ending is a deadlock, or has no serial order.
/// - `reads`: whether each order is followed by what its reads saw and missed that is amiss.
#[derive(Clone, Copy)]
pub struct Orders {
    pub told: bool,
    pub limit: u64,
    pub ending: Option<u64>,
    pub strict: bool,
    pub reads: bool,
}

/// Runs the script that a reader gives, and writes its journal and what follows it.
///
/// It is [`run_over`] a source and a sink that count nothing, and prints neither the serial run nor
/// the script. `alloc` gives the memory of the region and of what is printed.
pub fn run<R: Read, W: Write>(
    alloc: Global,
    reader: &mut R,
    writer: &mut W,
    options: Options,
) -> Result<Status, RunFault>
    ensures whole_run { RunsOver (plain options) (R.remaining reader.old)
        (R.remaining reader.new) None (W.contents writer.old) (W.contents writer.new) result }
{
    let mut session = Session::new(alloc);
    run_over(&mut session, reader, writer, Wanted::plain(options))
}

/// Runs the script that a source gives, and writes its journal and what follows it.
///
/// It reads at most `MOST_SCRIPT_BYTES`, and one more to see whether there are more. Once it has
/// printed a fault it reads no more. A last line that lacks its LF is run at the input's end.
///
/// Returns how the run ended, or why it stopped: `Status` and `RunFault` say what is written then.
/// It returns a read or a write fault only if that very call failed, and tries none again.
///
/// The session is a new one, and is left to its owner, who drops it. At the end it has the region
/// in which the lines ended, and after a fault the line that has it. It also has the remarks on the
/// lines, of which `told_at_end` and `told_of` make what a person is told. A process that ends
/// right after the run may forget it.
pub fn run_over<S: Source, K: Sink>(
    session: &mut Session,
    source: &mut S,
    sink: &mut K,
    wanted: Wanted,
) -> Result<Status, RunFault>
    requires new { IsNew session.old }
    ensures read_faults { Rises (S.failed source.old) (S.failed source.new)
        (failures read_failures result) }
    ensures write_faults { Rises (K.failed sink.old) (K.failed sink.new)
        (failures write_failures result) }
    ensures asked { RisesAtMost (S.asked source.old) (S.asked source.new) most_reads }
    ensures kept { KeepsEnd (form_of wanted) (S.remaining source.old) (S.remaining source.new)
        session.new result }
    ensures whole_run { RunsOver (form_of wanted) (S.remaining source.old) (S.remaining source.new)
        (S.last source.new) (K.contents sink.old) (K.contents sink.new) result }
{
    session.with_script = wanted.with_script;
    session.journal.told.scope = wanted.scope();
    session.journal.watcher = wanted.watcher(*session.journal.text.allocator());
    let mut buffer = [0u8; CHUNK];
    let mut room = MOST_SCRIPT_BYTES;
    'reads: loop {
        let size = room.min(CHUNK).max(1);
        match source.read(&mut buffer[..size]) {
            Ok(0) => return ended(session.finish(wanted, sink)),
            Ok(_) if room == 0 => return Err(RunFault::InputTooLong),
            Ok(n) => match session.feed(&buffer[..n], sink) {
                Ok(false) => room -= n,
                Ok(true) => return Ok(Status::LineFault),
                Err(stop) => return Err(fault_of(stop)),
            },
            Err(_) => return Err(RunFault::ReadFault),
        }
    }
}

fn fault_of(stop: Stop) -> RunFault
    ensures { result ≡ fault_of stop }
{
    match stop {
        Stop::NoMemory => RunFault::NoMemory,
        Stop::WriteFault => RunFault::WriteFault,
    }
}

/// Returns the answer of a run that came to the input's end.
pub(crate) fn ended(answer: Result<Status, Stop>) -> Result<Status, RunFault>
    ensures { result ≡ ended answer }
{
    match answer {
        Ok(status) => Ok(status),
        Err(stop) => Err(fault_of(stop)),
    }
}
