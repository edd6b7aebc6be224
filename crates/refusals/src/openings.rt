//! Definitions and loads, and the start with an opening, which is returned if memory is refused.

use crate::events::Event;
use crate::memory::{Requests, switch, was_refused};
use crate::runs::{MOST_ROUNDS, Run, Stop, Target, Tried};
use crate::states::push_listed;
use cics_names::NoMemory;
use cics_run::stage::Fault;
use cics_run::stage::journal::push_fault;
use cics_script::Line;
use cics_script::spelling::{push_name, push_str};
use cics_units::{DefineFault, Opening, plain_replay};

// Lets happen what a line says that defines or loads something.
fn define(opening: &mut Opening, line: &Line, out: &mut Vec<u8>) -> Result<(), NoMemory> {
    let done = match line {
        Line::DefineFile(name, definition) => opening.define_file(*name, *definition),
        Line::DefineTsPrefix(prefix) => opening.define_ts_prefix(*prefix),
        Line::DefineTd(name, recovery) => opening.define_td(*name, *recovery),
        Line::LoadFile(name, content) => opening.load_file(*name, content.copy()?),
        Line::LoadTd(name, content) => opening.load_td(*name, content.copy()?),
        _ => return Ok(()),
    };
    match done {
        Ok(()) => push_str(out, "defined\n"),
        Err(DefineFault::NoMemory) => Err(NoMemory),
        Err(fault) => push_fault(out, 0, Fault::Definition(fault)),
    }
}

impl Tried for Opening {
    fn happen(&mut self, event: Event, out: &mut Vec<u8>) -> Result<(), NoMemory> {
        match &event {
            Event::Line(line) => define(self, line, out),
            _ => Ok(()),
        }
    }

    fn push_state(&self, out: &mut Vec<u8>) -> Result<(), NoMemory> {
        push_listed(out, plain_replay(self.allocator(), self, &[], &[]))?;
        for prefix in self.prefixes() {
            push_name(out, &prefix.bytes())?;
        }
        Ok(())
    }
}

/// Starts with an opening, with each of its requests refused in turn. Each time that the opening is
/// returned, it has to be as it was.
pub(crate) fn start<T: Target + Drop>(run: Run<'_>, opening: Opening) -> Result<T, Stop> {
    let mut opening = opening;
    let before = run.state(&opening)?;
    switch(run.alloc, run.requests(true));
    for _ in 0..MOST_ROUNDS {
        switch(run.alloc, run.requests(false));
        let started = T::start(opening);
        switch(run.alloc, Requests::Granted);
        if was_refused(run.alloc) != started.is_err() {
            break;
        }
        match started {
            Ok(target) => return Ok(target),
            Err(back) => opening = back,
        }
        if run.is_changed(&opening, &before)? {
            break;
        }
    }
    Err(Stop::Start)
}
