//! Makes each promised call of the libraries (`surface`). Tries runs over bytes in memory: each
//! read and each write fails in turn (`trials`). Then tries scripts on units of work and on
//! regions: each event is refused memory.
//!
//! The scripts come from standard input, with a blank line between them; the first text stands
//! before each of them (`scripts`). Where `tools/refuse_memory` is loaded, each request of each
//! event is refused in turn, and all that is shown compared (`runs`). In further runs an event
//! stays refused, and the open units of work are ended. With ample memory a script runs alone and
//! among 300 more of everything, and no request is refused.
//!
//! Prints the result of each run, and what stands at the end of each script. If a script comes out
//! otherwise than it has to, the exit status is 1, and standard error has the line. If a run does,
//! the output says so, and the status stays 0.
#![tactic(auto)]

mod calling;
mod calls;
mod events;
mod guards;
mod memory;
mod openings;
mod regions;
mod runs;
mod scripts;
mod states;
mod streams;
mod surface;
mod trials;

use crate::memory::{Requests, are_refused, switch};
use crate::runs::{Run, Stop};
use crate::scripts::{ScriptKind, cases_of, written_out};
use crate::surface::call_all;
use crate::trials::try_all;
use cics_dispatch::Region;
use cics_names::NoMemory;
use cics_units::Units;
use std::alloc::Global;
use std::io;
use std::process::ExitCode;

// How the open units of work end, every other one by the second command, and what that is called.
const ENDS: [([&str; 2], &str); 4] = [
    (["SYNCPOINT ROLLBACK", "SYNCPOINT ROLLBACK"], "rolled back"),
    (["SYNCPOINT", "SYNCPOINT"], "committed"),
    (["SYNCPOINT", "SYNCPOINT ROLLBACK"], "mixed"),
    (["ABEND", "ABEND"], "abended"),
];

// How many further records and items there are in a run with ample memory, and what it is called.
const FURTHER: [(u64, &str); 2] = [(0, "alone"), (300, "among 300 more")];

// Prints the text of a run, or says why it stopped.
fn tell(
    rt: &HostRuntime,
    script: &str,
    word: &str,
    came: Result<String, Stop>,
) -> Result<(), ExitCode> {
    let name = script.lines().next().unwrap_or("");
    match came {
        Ok(text) => println!(rt; "{name}, {word}:{text}").map_err(|_| ExitCode::FAILURE),
        Err(stop) => {
            let _ = eprintln!(rt; "refusals: {name}, {word}: {stop:?}");
            Err(ExitCode::FAILURE)
        }
    }
}

// Puts lines into one.
fn joined(alloc: Global, lines: &str) -> Result<String, NoMemory> {
    let mut text = String::new(alloc);
    for line in lines.lines() {
        text.push_str(if text.is_empty() { " " } else { "; " })?;
        text.push_str(line.trim_start())?;
    }
    Ok(text)
}

// Runs a script behind the first text, among so many further records and items, with an end of its
// units of work.
fn run_script(
    alloc: Global,
    texts: [&str; 2],
    further: u64,
    ends: [&str; 2],
) -> Result<String, Stop> {
    let [first, script] = texts;
    let kind = ScriptKind::of(script);
    let text = written_out(alloc, first, script, further)?;
    let cases = cases_of(alloc, &text)?;
    let mut run = Run::new(alloc, &cases, are_refused(alloc) && !kind.is_ample);
    let came = if kind.on_units {
        run.run::<Units>(ends)?
    } else {
        run.run::<Region>(ends)?
    };
    Ok(joined(alloc, if kind.is_ample { "" } else { &came })?)
}

// Runs a script behind the first text in each way that is meant for its kind.
fn run_each(rt: &HostRuntime, texts: [&str; 2]) -> Result<(), ExitCode> {
    let [_, script] = texts;
    if ScriptKind::of(script).is_ample {
        for (further, word) in FURTHER {
            let came = run_script(rt.alloc(), texts, further, ENDS[0].0);
            tell(rt, script, word, came)?;
        }
        return Ok(());
    }
    for (ends, word) in ENDS {
        tell(rt, script, word, run_script(rt.alloc(), texts, 0, ends))?;
    }
    Ok(())
}

// Makes the promised calls, tries the runs in memory, and then the scripts of a text, each behind
// its first text.
fn run_text(rt: &HostRuntime, text: &str) -> Result<(), ExitCode> {
    if call_all(rt.alloc()).is_none() {
        let _ = eprintln!(rt; "refusals: a promised call is answered otherwise");
        return Err(ExitCode::FAILURE);
    }
    if try_all(rt).is_err() {
        return Err(ExitCode::FAILURE);
    }
    let (first, scripts) = text.trim_end().split_once("\n\n").unwrap_or((text, ""));
    for script in scripts.split("\n\n") {
        run_each(rt, [first, script])?;
    }
    Ok(())
}

fn main(rt: HostRuntime) -> ExitCode {
    switch(rt.alloc(), Requests::Granted);
    match io::read_to_string(rt.alloc(), rt.stdin()) {
        Ok(text) => {
            match run_text(&rt, &text) {
                Ok(()) => ExitCode::SUCCESS,
                Err(status) => status,
            }
        }
        Err(_) => ExitCode::FAILURE,
    }
}
