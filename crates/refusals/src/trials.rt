//! Runs scripts over bytes in memory, with each answer of a run but `NoMemory`. Lets each read and
//! each write fail in turn. Calls a region without a script too.

ghost use Rattle.std.specs.Prelude.{◌≡◌};

use crate::calling;
use crate::streams::{Calls, Page, Script};
use cics_run::session::{
    CHUNK, MOST_SCRIPT_BYTES, Options, RunFault, Session, Status, Wanted, run, run_over,
};
use std::io;
use std::marker::Brand;
use std::sync::ledger::{Blank, Ledger};

const SCRIPT: &[u8] = b"DEFINE TDQUEUE('LOGA') LOGICAL
ATTACH T1 TRANSID('SHOW')
T1 EXEC CICS WRITEQ TD QUEUE('LOGA') FROM('a')
T1 EXEC CICS RETURN";

const FAULTY: &[u8] = b"ATTACH T1 TRANSID('SHOW')
HELLO
ATTACH T2 TRANSID('SHOW')
";

const JOURNAL: &[u8] = b"T1 ATTACHED 'SHOW'
T1 NORMAL 0
T1 ENDED
";

const LISTED: &[u8] = b"T1 ATTACHED 'SHOW'
T1 NORMAL 0
T1 ENDED
LISTING
TDQUEUE 'LOGA' LOGICAL RECORDS 1
  'a'
";

const REPLAYED: &[u8] = b"T1 ATTACHED 'SHOW'
T1 NORMAL 0
T1 ENDED
REPLAY
TDQUEUE 'LOGA' LOGICAL RECORDS 1
  'a'
";

const FAULT: &[u8] = b"T1 ATTACHED 'SHOW'
LINE 2 FAULT 3 UnknownWord
";

// The journal alone.
const NO_LIST: Options = Options {
    replay: false,
    no_list: true,
};

// The name of an answer.
fn title(answer: &Result<Status, RunFault>) -> &'static str {
    match answer {
        Ok(Status::Done) => "Done",
        Ok(Status::LineFault) => "LineFault",
        Err(RunFault::NoMemory) => "NoMemory",
        Err(RunFault::ReadFault) => "ReadFault",
        Err(RunFault::WriteFault) => "WriteFault",
        Err(RunFault::InputTooLong) => "InputTooLong",
    }
}

fn verdict(is_expected: bool) -> &'static str {
    if is_expected {
        "as expected"
    } else {
        "otherwise"
    }
}

// Runs a script between a reader and a writer of std, with its listing or else with its replay.
fn try_reader(
    rt: &HostRuntime,
    shows: &str,
    (mut script, replay): (&[u8], bool),
    expected: &[u8],
) -> io::Result<()> {
    let no_list = replay;
    let options = Options { replay, no_list };
    let mut text: Vec<u8> = Vec::new(rt.alloc());
    let answer = run(rt.alloc(), &mut script, &mut text, options);
    let verdict = verdict(text.as_slice() == expected);
    println!(rt; "{shows}: {}, {verdict}", title(&answer))
}

// Which call of a run fails. A write that takes no byte fails too.
#[derive(Clone, Copy)]
enum Failing {
    Read,
    Write,
    EmptyWrite,
}

// A run between streams that count their calls.
#[derive(Clone, Copy)]
struct Trial<'a> {
    script: &'a [u8],
    // How many bytes a read gives at most, and a write takes.
    most: usize,
    failing: Failing,
    // The number of the call that fails: 0 if none does.
    number: usize,
}

impl<'a> Trial<'a> {
    // Runs it. Each ledger has the numbers of one stream's calls.
    fn run_counted<R: Ledger, W: Ledger>(
        &self,
        rt: &HostRuntime,
        reads: Blank,
        writes: Blank,
    ) -> Outcome
        requires reads { (reads.name ≡ R.name) × (reads.parts ≡ R.parts) × (reads.parts ≡ 2) }
        requires writes { (writes.name ≡ W.name) × (writes.parts ≡ W.parts)
            × (writes.parts ≡ 2) }
    {
        let (read, write) = match self.failing {
            Failing::Read => (self.number, 0),
            _ => (0, self.number),
        };
        let mut source = Script {
            rest: self.script,
            most: self.most,
            calls: Calls::<R>::new(reads, read),
        };
        let mut page = Page {
            text: Vec::new(rt.alloc()),
            most: self.most,
            takes_none: matches!(self.failing, Failing::EmptyWrite),
            calls: Calls::<W>::new(writes, write),
        };
        let mut session = Session::new(rt.alloc());
        let answer = run_over(&mut session, &mut source, &mut page, Wanted::plain(NO_LIST));
        Outcome {
            answer: title(&answer),
            text: page.text,
            reads: source.calls.made,
            writes: page.calls.made,
        }
    }

    fn run(&self, rt: &HostRuntime) -> Outcome {
        self.run_counted::<Brand, Brand>(rt, Blank::new(2), Blank::new(2))
    }
}

// What a run answered and wrote, and how often it read and wrote.
#[derive(Drop)]
struct Outcome {
    answer: &'static str,
    text: Vec<u8>,
    reads: usize,
    writes: usize,
}

impl Outcome {
    fn is(&self, answer: &str, text: &[u8]) -> bool {
        self.answer == answer && self.text.as_slice() == text
    }

    fn tell(&self, rt: &HostRuntime, shows: &str, is_expected: bool) -> io::Result<()> {
        let verdict = verdict(is_expected);
        println!(rt;
            "{shows}: {}, {} reads, {} writes, {verdict}",
            self.answer, self.reads, self.writes
        )
    }
}

// What the lines print that the first bytes of the script complete.
fn journal_of(read: usize) -> &'static [u8] {
    let front = &SCRIPT[..SCRIPT.len().min(read)];
    match front.iter().filter(|byte| **byte == b'\n').count() {
        0 | 1 => &JOURNAL[..0],
        2 => &JOURNAL[..19],
        _ => &JOURNAL[..31],
    }
}

// Lets each such call fail in turn. Tells of the run that ends before its call would fail, or of
// the first that comes out otherwise.
fn fail_each(rt: &HostRuntime, shows: &str, (failing, most): (Failing, usize)) -> io::Result<()> {
    for number in 1..1_000 {
        let trial = Trial {
            script: SCRIPT,
            most,
            failing,
            number,
        };
        let run = trial.run(rt);
        let before = most.saturating_mul(number - 1);
        let (calls, answer, text) = match failing {
            Failing::Read => (run.reads, "ReadFault", journal_of(before)),
            _ => (
                run.writes,
                "WriteFault",
                &JOURNAL[..JOURNAL.len().min(before)],
            ),
        };
        if calls < number {
            return run.tell(rt, shows, run.is("Done", JOURNAL));
        }
        if calls > number || !run.is(answer, text) {
            return run.tell(rt, shows, false);
        }
    }
    Ok(())
}

// Runs a script in which no call fails.
fn try_script(
    rt: &HostRuntime,
    shows: &str,
    (script, most): (&[u8], usize),
    (answer, text): (&str, &[u8]),
) -> io::Result<()> {
    let trial = Trial {
        script,
        most,
        failing: Failing::Read,
        number: 0,
    };
    let run = trial.run(rt);
    run.tell(rt, shows, run.is(answer, text))
}

// Runs comments, with one byte more than a script may have.
fn try_long_script(rt: &HostRuntime) -> io::Result<()> {
    let mut lines = vec![in rt.alloc(); b'*'; MOST_SCRIPT_BYTES + 1]?;
    for line in lines.chunks_mut(CHUNK) {
        if let Some(first) = line.first_mut() {
            *first = b'\n';
        }
    }
    let shows = "too long a script";
    try_script(rt, shows, (&lines, CHUNK), ("InputTooLong", &[]))
}

/// Runs the scripts, calls a region, and prints each result.
pub(crate) fn try_all(rt: &HostRuntime) -> io::Result<()> {
    try_reader(rt, "a listing", (SCRIPT, false), LISTED)?;
    try_reader(rt, "a replay", (SCRIPT, true), REPLAYED)?;
    try_reader(rt, "a fault", (FAULTY, false), FAULT)?;
    fail_each(rt, "each read of a byte fails", (Failing::Read, 1))?;
    fail_each(rt, "each read of seven fails", (Failing::Read, 7))?;
    fail_each(rt, "each write of a byte fails", (Failing::Write, 1))?;
    fail_each(rt, "each write takes none", (Failing::EmptyWrite, 1))?;
    try_script(rt, "a fault by bytes", (FAULTY, 1), ("LineFault", FAULT))?;
    try_long_script(rt)?;
    let answer = calling::run(rt.alloc());
    println!(rt;
        "a region by calls: {}",
        answer.map_or("refused", |condition| condition.name())
    )
}
