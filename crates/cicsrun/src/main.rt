//! Runs the script on standard input, or in a file. Prints its journal and listing on standard
//! output, or a picture of it, or what the orders of its lines lead to; or says what is at fault in
//! its lines.
#![tactic(auto)]

mod input;
mod progress;

use crate::input::{Input, Stream};
use crate::progress::ProgressLines;
use cics_orders::command::{Surveyed, Surveyor};
use cics_orders::report::AmissEnding;
use cics_picture::draw::{NoPicture, run_picture};
use cics_picture::page::{NoPage, run_page};
use cics_run::messages::{is_amiss, told_at_end, told_of};
use cics_run::reading::{check_script, read_script};
use cics_run::{
    Action, CommandLine, Options, Orders, RunFault, Session, Status, Wanted, exit_status,
    read_arguments, run_over, strict_status,
};
use std::io::ErrorKind;
use std::mem;
use std::process::ExitCode;

const BAD_ARGUMENTS: u8 = 2;

const TOO_MANY_EVENTS: u8 = 4;

// What is said of a report without `--told`.
const UNTOLD: &str = "cicsrun: endings that differ only in what tasks were answered count as one; \
    --told tells them apart";

// The journal alone.
const JOURNAL: Options = Options {
    replay: false,
    no_list: true,
};

// Why the program stops: a fault of a run, or that the script can't be opened, which it has said.
#[derive(Drop)]
enum Stopped {
    Fault(RunFault),
    NoScript,
}

impl From<RunFault> for Stopped {
    fn from(fault: RunFault) -> Stopped {
        Stopped::Fault(fault)
    }
}

fn main(rt: HostRuntime) -> ExitCode {
    match command_line(rt) {
        Ok(line) => ended(rt, answer(rt, line)),
        Err(fault) => ended(rt, Err(Stopped::Fault(fault))),
    }
}

// Returns the exit status of the program. At a fault it says why it stops.
fn ended(rt: HostRuntime, status: Result<u8, Stopped>) -> ExitCode {
    ExitCode::from(match status {
        Ok(status) => status,
        Err(Stopped::NoScript) => BAD_ARGUMENTS,
        Err(Stopped::Fault(fault)) => {
            let _ = eprintln!(rt; "cicsrun: {fault}");
            exit_status(&Err(fault))
        }
    })
}

// Does what a command line asks for, and returns the exit status.
fn answer(rt: HostRuntime, line: CommandLine) -> Result<u8, Stopped> {
    let CommandLine { action, script } = line;
    match action {
        Action::Help(text) => match print!(rt; "{text}") {
            Ok(()) => Ok(exit_status(&Ok(Status::Done))),
            Err(_) => Err(Stopped::Fault(RunFault::WriteFault)),
        },
        Action::Bad(text) => {
            let _ = eprint!(rt; "{text}");
            Ok(BAD_ARGUMENTS)
        }
        Action::Run(wanted) => run_to_the_end(rt, opened(rt, script)?, wanted),
        Action::Check => check_to_the_end(rt, opened(rt, script)?),
        Action::Picture => draw_to_the_end(rt, opened(rt, script)?),
        Action::Page => page_to_the_end(rt, opened(rt, script)?),
        Action::Orders { wanted, progress } => {
            follow_orders(rt, opened(rt, script)?, wanted, progress)
        }
    }
}

// Opens the script, or says why it can't be opened.
fn opened(rt: HostRuntime, name: Option<String>) -> Result<Input, Stopped> {
    match Stream::open(rt, &name) {
        Ok(stream) => Ok(Input { name, stream }),
        Err(error) => {
            let name = name.as_deref().unwrap_or("-");
            let _ = eprintln!(rt; "cicsrun: {name}: {error}");
            Err(Stopped::NoScript)
        }
    }
}

// Runs a script, and returns the exit status. The process ends right after the run. So its memory
// isn't given back piece by piece, which would take up to a tenth of the time.
fn run_to_the_end(rt: HostRuntime, mut script: Input, wanted: Wanted) -> Result<u8, Stopped> {
    let mut session = Session::new(rt.alloc());
    let answer = run_over(&mut session, &mut script, &mut rt.stdout(), wanted);
    if let Ok(status) = answer {
        tell(rt, &session, script.name(), status)?;
    }
    let is_amiss = wanted.strict && is_amiss(&session);
    mem::forget(session);
    Ok(strict_status(&Ok(answer?), is_amiss))
}

// Says what is at fault in the lines of a script, and returns the exit status.
fn check_to_the_end(rt: HostRuntime, mut input: Input) -> Result<u8, Stopped> {
    let script = read_to_the_end(rt, &mut input)?;
    let answer = check_script(rt.alloc(), &script, input.name(), &mut rt.stderr());
    Ok(exit_status(&Ok(answer?)))
}

// Draws the run of a script, and returns the exit status. The process ends right after it, as after
// a run.
fn draw_to_the_end(rt: HostRuntime, mut script: Input) -> Result<u8, Stopped> {
    let mut session = Session::new(rt.alloc());
    let answer = run_picture(&mut session, &mut script, &mut rt.stdout());
    if let Ok(status) = answer {
        tell(rt, &session, script.name(), status)?;
    }
    mem::forget(session);
    match answer {
        Ok(status) => Ok(exit_status(&Ok(status))),
        Err(NoPicture::Stopped(fault)) => Err(Stopped::Fault(fault)),
        Err(NoPicture::TooManyEvents) => {
            let _ = eprintln!(rt; "cicsrun: {}", NoPicture::TooManyEvents);
            Ok(TOO_MANY_EVENTS)
        }
    }
}

// Writes the page of a script's run, and returns the exit status. The process ends right after it,
// as after a run.
fn page_to_the_end(rt: HostRuntime, mut script: Input) -> Result<u8, Stopped> {
    let mut session = Session::new(rt.alloc());
    let answer = run_page(&mut session, &mut script, &mut rt.stdout());
    if let Ok(status) = answer {
        tell(rt, &session, script.name(), status)?;
    }
    mem::forget(session);
    match answer {
        Ok(status) => Ok(exit_status(&Ok(status))),
        Err(NoPage::Stopped(fault)) => Err(Stopped::Fault(fault)),
        Err(too_much) => {
            let _ = eprintln!(rt; "cicsrun: {too_much}");
            Ok(TOO_MANY_EVENTS)
        }
    }
}

// Reads all bytes of a script.
fn read_to_the_end(rt: HostRuntime, input: &mut Input) -> Result<Vec<u8>, RunFault> {
    let mut script = Vec::new(rt.alloc());
    read_script(input, &mut script)?;
    Ok(script)
}

// Follows the orders of a script, and returns the exit status. Prints how far the search is, if
// that is wanted.
fn follow_orders(
    rt: HostRuntime,
    mut input: Input,
    wanted: Orders,
    has_progress: bool,
) -> Result<u8, Stopped> {
    let script = read_to_the_end(rt, &mut input)?;
    let mut surveyor = Surveyor {
        alloc: rt.alloc(),
        progress: ProgressLines::new(rt, has_progress),
    };
    match surveyor.run_orders(&mut script.as_slice(), &mut rt.stdout(), wanted)? {
        Surveyed::Done => Ok(reported(rt, wanted, None)),
        Surveyed::Amiss(ending) => Ok(reported(rt, wanted, Some(ending))),
        Surveyed::LineFault => {
            tell_fault(rt, &script, input.name())?;
            Ok(exit_status(&Ok(Status::LineFault)))
        }
        Surveyed::NoEnding { count, has_all } => {
            let (are, endings) = if count == 1 {
                ("is", "ending")
            } else {
                ("are", "endings")
            };
            let least = if has_all { "" } else { "at least " };
            let told = if wanted.told {
                ""
            } else {
                ", or more with --told"
            };
            let _ = eprintln!(rt; "cicsrun: there {are} {least}{count} {endings}{told}");
            Ok(BAD_ARGUMENTS)
        }
    }
}

// Returns the exit status of a report on orders. Says on standard error if it compares no answers,
// and which ending is amiss.
fn reported(rt: HostRuntime, wanted: Orders, amiss: Option<AmissEnding>) -> u8 {
    if !wanted.told && wanted.ending.is_none() {
        let _ = eprintln!(rt; "{UNTOLD}");
    }
    if let Some(ending) = &amiss {
        let why = if ending.is_deadlock {
            "is a deadlock"
        } else {
            "has no serial order"
        };
        let _ = eprintln!(rt; "cicsrun: ending {} {why}", ending.number);
    }
    strict_status(&Ok(Status::Done), amiss.is_some())
}

// Says what the faulty line of a script needs, as a run of it does.
fn tell_fault(rt: HostRuntime, mut script: &[u8], name: Option<&[u8]>) -> Result<(), RunFault> {
    let mut session = Session::new(rt.alloc());
    let mut journal: Vec<u8> = Vec::new(rt.alloc());
    let wanted = Wanted::plain(JOURNAL);
    let status = run_over(&mut session, &mut script, &mut journal, wanted)?;
    tell(rt, &session, name, status)?;
    mem::forget(session);
    Ok(())
}

// Says on standard error what a run leaves a person to know: why conditions came up, what its
// faulty line needs, its deadlocks and hints. Without memory for that it says nothing, and fails.
fn tell(
    rt: HostRuntime,
    session: &Session,
    name: Option<&[u8]>,
    status: Status,
) -> Result<(), RunFault> {
    let told = match status {
        Status::LineFault => told_of(rt.alloc(), session, name),
        Status::Done => told_at_end(rt.alloc(), session, name),
    };
    let Ok(text) = told else {
        return Err(RunFault::NoMemory);
    };
    if let Ok(text) = std::str::from_utf8(&text) {
        let _ = eprint!(rt; "{text}");
    }
    Ok(())
}

// Returns the command line. A word that is no text is a bad argument.
fn command_line(rt: HostRuntime) -> Result<CommandLine, RunFault> {
    let given = match std::env::args(&rt) {
        Ok(given) => given,
        Err(error) if error.kind() == ErrorKind::OutOfMemory => return Err(RunFault::NoMemory),
        Err(_) => {
            return match "error: an argument is not UTF-8\n".to_string(rt.alloc()) {
                Ok(text) => Ok(CommandLine {
                    action: Action::Bad(text),
                    script: None,
                }),
                Err(_) => Err(RunFault::NoMemory),
            };
        }
    };
    let mut words = Vec::new(rt.alloc());
    for word in given {
        if words.push(word).is_err() {
            return Err(RunFault::NoMemory);
        }
    }
    match read_arguments(rt.alloc(), words) {
        Ok(line) => Ok(line),
        Err(_) => Err(RunFault::NoMemory),
    }
}
