//! Runs of scripts: each event with each of its requests for memory refused in turn, and compared.

use crate::events::Event;
use crate::memory::{Requests, switch, was_refused};
use crate::openings::start;
use crate::scripts::Case;
use cics_names::{Name8, NoMemory};
use cics_script::spelling::{Part, push_parts, push_str};
use cics_script::{LineFault, read_line};
use cics_units::Opening;
use std::alloc::{AllocError, Global};

/// No event asks for memory as often as this, and no region goes on by itself so often.
pub(crate) const MOST_ROUNDS: u64 = 20_000;

// How many bytes the lines of an event have room for: an event has to put them without memory.
const ROOM: usize = 60_000;

/// What events happen to.
pub(crate) trait Tried {
    /// Makes an event happen, and appends its lines to a text that has room for them. `NoMemory` if
    /// the event was refused.
    fn happen(&mut self, event: Event, out: &mut Vec<u8>) -> Result<(), NoMemory>;

    /// Puts all that is shown at the end.
    fn push_state(&self, out: &mut Vec<u8>) -> Result<(), NoMemory>;
}

/// What a script runs on.
pub(crate) trait Target: Tried + Sized {
    /// Starts with an opening, which is returned if memory is refused.
    fn start(opening: Opening) -> Result<Self, Opening>;

    /// Returns the labels of the tasks that have a unit of work and don't wait.
    fn free_tasks(&self, alloc: Global) -> Result<Vec<Name8>, NoMemory>;
}

/// What is wrong with a line of a script.
#[derive(Clone, Copy, Debug)]
pub(crate) enum Wrong {
    /// It is none of a script.
    NoCall,
    /// It was refused, and changed something.
    Changed,
    /// It was refused without a refused request, or not refused with one.
    Refused,
    /// It asks for more memory than any may, or leads to more than any may.
    Endless,
    /// The files and queues then aren't what the plain replay gives.
    NotReplayed,
}

/// Why a run stopped.
#[derive(Debug)]
pub(crate) enum Stop {
    /// This is wrong with the line.
    At(Wrong, String),
    /// This came of the line, and it has to be otherwise.
    Otherwise(String, String),
    /// The start changed something, or was refused without a refused request, or not with one.
    Start,
    /// The event that was to be refused for good was.
    GivenUp,
    /// It made no further request, and wasn't.
    Granted,
    /// There was no memory for what is compared.
    NoRoom,
}

// By hand: a derived drop is taken apart wherever a reason to stop is dropped.
impl Drop for Stop {
    fn drop(self) {
        match self {
            Stop::At(_wrong, _line) => {}
            Stop::Otherwise(_line, _came) => {}
            Stop::Start | Stop::GivenUp | Stop::Granted | Stop::NoRoom => {}
        }
    }
}

impl From<NoMemory> for Stop {
    fn from(_refusal: NoMemory) -> Stop {
        Stop::NoRoom
    }
}

impl From<AllocError> for Stop {
    fn from(_refusal: AllocError) -> Stop {
        Stop::NoRoom
    }
}

// Puts the lines of an event at the end, but for those of a listing on tasks.
fn push_told(text: &mut String, out: &[u8]) -> Result<(), NoMemory> {
    for line in std::str::from_utf8(out).unwrap_or("").lines() {
        if !line.starts_with("TASK ") {
            text.push_str(line)?;
            text.push('\n')?;
        }
    }
    Ok(())
}

/// How a script is run.
#[derive(Clone, Copy)]
pub(crate) struct Run<'a> {
    pub(crate) alloc: Global,
    cases: &'a [Case],
    // Each request of each event is refused in turn, and all that is shown compared.
    refuses: bool,
    // How many events happen before one that is refused for good.
    left: u64,
}

impl<'a> Run<'a> {
    /// Returns how these cases are run, with requests refused or without.
    pub(crate) fn new(alloc: Global, cases: &'a [Case], refuses: bool) -> Run<'a> {
        Run {
            alloc,
            cases,
            refuses,
            left: u64::MAX,
        }
    }

    /// Returns all that is shown; nothing if no request is refused.
    pub(crate) fn state<T: Tried>(&self, target: &T) -> Result<Vec<u8>, NoMemory> {
        let mut out = Vec::new(self.alloc);
        if self.refuses {
            target.push_state(&mut out)?;
        }
        Ok(out)
    }

    /// Returns whether something else is shown than before.
    pub(crate) fn is_changed<T: Tried>(&self, target: &T, before: &[u8]) -> Result<bool, NoMemory> {
        Ok(self.state(target)?.as_slice() != before)
    }

    /// Returns what becomes of requests that may be refused, or of the first ones.
    pub(crate) fn requests(&self, begins: bool) -> Requests {
        match (self.refuses, begins) {
            (false, _) => Requests::Granted,
            (true, true) => Requests::First,
            (true, false) => Requests::Next,
        }
    }

    // Returns that this is wrong with a line.
    fn stop(&self, wrong: Wrong, line: &str) -> Stop {
        match line.to_string(self.alloc) {
            Ok(line) => Stop::At(wrong, line),
            Err(_) => Stop::NoRoom,
        }
    }

    // Returns the event of a line.
    fn event(&self, line: &str) -> Result<Event, Stop> {
        Ok(match line {
            "WAKE" => Event::Wake,
            "EXPIRE" => Event::Expire,
            "LISTING" => Event::Listing,
            "REPLAY" => Event::Replay,
            "INTERVALS" => Event::Intervals,
            _ => {
                match read_line(self.alloc, line.as_bytes()) {
                    Ok(line) => Event::Line(line),
                    Err(LineFault::NoMemory) => return Err(Stop::NoRoom),
                    Err(_) => return Err(self.stop(Wrong::NoCall, line)),
                }
            }
        })
    }

    // Makes the event of a line happen once, and appends its lines, but for those of a listing on
    // tasks. Returns whether there were any, None if it was refused. It has to be refused exactly
    // if one of its requests was.
    fn comes_out<T: Tried>(
        &self,
        target: &mut T,
        line: &str,
        answer: &str,
        text: &mut String,
    ) -> Result<Option<bool>, Stop> {
        let mut out = Vec::with_capacity(self.alloc, ROOM)?;
        let event = self.event(line)?;
        let requests = if event.may_ask(answer) {
            self.requests(false)
        } else {
            Requests::Forbidden
        };
        switch(self.alloc, requests);
        let is_refused = target.happen(event, &mut out).is_err();
        switch(self.alloc, Requests::Granted);
        if was_refused(self.alloc) != is_refused {
            return Err(self.stop(Wrong::Refused, line));
        }
        if is_refused {
            return Ok(None);
        }
        push_told(text, &out)?;
        Ok(Some(!out.is_empty()))
    }

    // Lets the event of a line happen until none of its requests is refused. Appends what it prints,
    // and returns whether that is anything. Each time that it is refused all has to be as before.
    fn come_out_at_last<T: Tried>(
        &self,
        target: &mut T,
        line: &str,
        answer: &str,
        text: &mut String,
    ) -> Result<bool, Stop> {
        let before = self.state(target)?;
        switch(self.alloc, self.requests(true));
        for _ in 0..MOST_ROUNDS {
            if let Some(comes) = self.comes_out(target, line, answer, text)? {
                return Ok(comes);
            }
            if self.is_changed(target, &before)? {
                return Err(self.stop(Wrong::Changed, line));
            }
        }
        Err(self.stop(Wrong::Endless, line))
    }

    // Lets the event of a line happen, once if it is the one to be refused for good.
    fn come_out<T: Tried>(
        &mut self,
        target: &mut T,
        line: &str,
        answer: &str,
        text: &mut String,
    ) -> Result<bool, Stop> {
        if self.left > 0 {
            self.left -= 1;
            return self.come_out_at_last(target, line, answer, text);
        }
        let run = Run {
            refuses: true,
            ..*self
        };
        match run.comes_out(target, line, answer, text)? {
            Some(_) => Err(Stop::Granted),
            None => Err(Stop::GivenUp),
        }
    }

    // Lets a region go on by itself until nothing more comes: a waiting command that may resume
    // comes before a task that has waited too long.
    fn drain<T: Tried>(&mut self, target: &mut T, text: &mut String) -> Result<(), Stop> {
        for _ in 0..MOST_ROUNDS {
            if !self.come_out(target, "WAKE", "", text)?
                && !self.come_out(target, "EXPIRE", "", text)?
            {
                return Ok(());
            }
        }
        Err(self.stop(Wrong::Endless, text.as_str()))
    }

    // Returns the listing behind a line, which has to be that of the replay.
    fn listed<T: Tried>(&mut self, target: &mut T, line: &str) -> Result<String, Stop> {
        let (mut listed, mut replayed) = (String::new(self.alloc), String::new(self.alloc));
        self.come_out(target, "LISTING", "", &mut listed)?;
        self.come_out(target, "REPLAY", "", &mut replayed)?;
        if listed.as_str() == replayed.as_str() {
            Ok(listed)
        } else {
            Err(self.stop(Wrong::NotReplayed, line))
        }
    }

    // Runs a case; what comes of it and by itself then has to be what the script says.
    fn run_case<T: Tried>(&mut self, target: &mut T, case: &Case) -> Result<(), Stop> {
        let mut came = String::new(self.alloc);
        let answer = case.expected.lines().next().unwrap_or("");
        self.come_out(target, &case.line, answer, &mut came)?;
        self.drain(target, &mut came)?;
        if self.refuses {
            Run::new(self.alloc, self.cases, false).listed(target, &case.line)?;
        }
        if case.is_met_by(&came) {
            Ok(())
        } else {
            Err(Stop::Otherwise(case.line.to_string(self.alloc)?, came))
        }
    }

    // Runs the cases that define something, or those that don't.
    fn run_cases<T: Tried>(&mut self, target: &mut T, defines: bool) -> Result<(), Stop> {
        let cases = self.cases;
        for case in cases {
            if self.event(&case.line)?.is_definition() == defines {
                self.run_case(target, case)?;
            }
        }
        Ok(())
    }

    // Starts with what the cases define and load.
    fn start<T: Target + Drop>(&mut self) -> Result<T, Stop> {
        let mut opening = Opening::new(self.alloc);
        match self.run_cases(&mut opening, true) {
            Ok(()) => start(*self, opening),
            Err(stop) => Err(stop),
        }
    }

    // Ends a task by a command, and puts what comes at the end.
    fn end_task<T: Tried>(
        &mut self,
        target: &mut T,
        label: &Name8,
        command: &str,
        text: &mut String,
    ) -> Result<(), Stop> {
        let mut line = Vec::new(self.alloc);
        push_parts(
            &mut line,
            &[Part::Bare(&label.bytes()), Part::Str(" EXEC CICS ")],
        )?;
        push_str(&mut line, command)?;
        if let Ok(line) = std::str::from_utf8(&line) {
            self.come_out(target, line, "", text)?;
        }
        self.drain(target, text)
    }

    // Ends each of these tasks, in one of two ways in turn, and puts what comes at the end.
    fn end_tasks<T: Target>(
        &mut self,
        target: &mut T,
        ends: [&str; 2],
        text: &mut String,
    ) -> Result<bool, Stop> {
        let free = target.free_tasks(self.alloc)?;
        for (at, label) in free.iter().enumerate() {
            self.end_task(target, label, ends[at % 2], text)?;
        }
        Ok(free.is_empty())
    }

    // Ends each task that has a unit of work and doesn't wait, also those that resume by that.
    // Returns what that prints, and the listing.
    fn end<T: Target>(&mut self, target: &mut T, ends: [&str; 2]) -> Result<String, Stop> {
        let mut text = String::new(self.alloc);
        for _ in 0..MOST_ROUNDS {
            if self.end_tasks(target, ends, &mut text)? {
                break;
            }
        }
        let listed = self.listed(target, "LISTING")?;
        text.push_str(&listed)?;
        Ok(text)
    }

    /// Runs the cases, and ends what is open then; before that also with each event refused for
    /// good, if requests are refused.
    pub(crate) fn run<T: Target + Drop>(&mut self, ends: [&str; 2]) -> Result<String, Stop> {
        self.give_up_each::<T>(ends)?;
        let mut target: T = self.start()?;
        self.run_cases(&mut target, false)?;
        self.end(&mut target, ends)
    }

    // Refuses the event behind so many for good, at each of its requests in a run of its own.
    // Returns whether there is such an event.
    fn give_up_at<T: Target + Drop>(&self, left: u64, ends: [&str; 2]) -> Result<bool, Stop> {
        switch(self.alloc, Requests::First);
        for _ in 0..MOST_ROUNDS {
            let mut run = Run::new(self.alloc, self.cases, false);
            let mut target: T = run.start()?;
            run.left = left;
            match run.run_cases(&mut target, false) {
                Ok(()) => return Ok(false),
                Err(stop) if matches!(&stop, Stop::Granted) => return Ok(true),
                Err(stop) if matches!(&stop, Stop::GivenUp) => {}
                Err(stop) => return Err(stop),
            }
            run.left = u64::MAX;
            run.end(&mut target, ends)?;
        }
        Err(Stop::Granted)
    }

    // If requests are refused, refuses each event for good, at each of its requests. Each is a run
    // of its own, which then ends what is open.
    fn give_up_each<T: Target + Drop>(&self, ends: [&str; 2]) -> Result<(), Stop> {
        for left in 0..MOST_ROUNDS {
            if !self.refuses || !self.give_up_at::<T>(left, ends)? {
                return Ok(());
            }
        }
        Err(Stop::GivenUp)
    }
}
