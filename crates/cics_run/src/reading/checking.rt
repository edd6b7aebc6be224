//! The faults of all lines of a script, and what is amiss in its requests. Of these it plays ATTACH
//! alone.

ghost use Rattle.std.specs.Prelude.{⊤, ◌≡◌, ◌++◌, ◌+◌, ◌<◌, ◌≤◌, ◌^◌, OnOk, IfOk, Ok};
ghost use Rattle.std.specs.Io.KnownBytes.{Appends};
ghost use Rattle.cics_run.specs.Session.{write_failures, stopped_writes, Rises, failures};
ghost use Rattle.cics_script.specs.Lines.{line as line_of};
ghost use Rattle.cics_run.specs.Messages.Remarks.{remark_lines};
ghost use Rattle.cics_run.specs.Reading.Checks.{Checked, IsBehind, checked, count_line};
ghost use Rattle.cics_run.specs.Stage.Stages.{IsPlayed};
ghost use Rattle.cics_run.specs.Reading.Checks.{Checks, tried, IsTried};
ghost use Rattle.cics_run.specs.Reading.Checks.{told_fault, told_notice, with_found};
ghost use Rattle.cics_run.specs.Reading.Checks.{status_of, TellsBehind};

use crate::messages::{Remarks, push_remarks, push_told};
use crate::reading::next_line;
use crate::reading::requests::notice_on;
use crate::session::{RunFault, Sink, Status, Stop, ended, write_pending, write_printed};
use crate::stage::{Fault, Notice, Observer, Stage};
use cics_dispatch::{Event, Region, Request};
use cics_names::NoMemory;
use cics_script::advice::Origin;
use cics_script::spelling::Part::{Number, Str};
use cics_script::spelling::{push_parts, push_str};
use cics_script::{Line, LineFault, adds_nothing, read_line};
use cics_units::DefineFault;
use std::alloc::Global;

/// Ignores every event.
#[derive(Drop)]
pub struct Nobody;

impl Observer for Nobody {
    ghost use Rattle.cics_run.specs.Reading.Checks.{no_sight};

    ghost Seen = { ⊤ };

    ghost seen = { λ _. tt };

    ghost sight = { no_sight };

    fn sees_requests(&self) -> bool {
        false
    }

    fn see_request(
        &mut self,
        _number: u64,
        _request: &Request,
        _region: &Region,
    ) -> Result<(), NoMemory> {
        Ok(())
    }

    fn see(&mut self, _number: u64, _event: &Event, _region: &Region) -> Result<(), NoMemory> {
        Ok(())
    }

    fn see_fault(&mut self, _number: u64, _fault: Fault) -> Result<(), NoMemory> {
        Ok(())
    }
}

/// The fault of a line, and what is amiss in its request.
#[derive(Clone, Copy)]
struct Found {
    fault: Option<Fault>,
    notice: Option<Notice>,
}

/// A check between two lines.
#[derive(Drop)]
struct Checker {
    alloc: Global,
    /// The definitions, or a region with the tasks that were attached.
    stage: Stage,
    /// How many lines there were.
    number: u64,
    /// How many of them are at fault.
    faulty: u64,
    /// Whether none of these may be a definition or an ATTACH.
    sure: bool,
    /// What is told and not yet written.
    text: Vec<u8>,
    /// What is amiss in requests.
    remarks: Remarks,
}

// Returns the fault that is told of a line. What a load lacks may be defined by a faulty line
// before it.
fn told_fault(sure: bool, fault: Option<Fault>) -> Option<Fault>
    ensures { result ≡ told_fault sure fault }
{
    match fault {
        Some(Fault::Definition(DefineFault::NotThere)) if !sure => None,
        _ => fault,
    }
}

// Returns what is told to be amiss in a line: nothing if a faulty line before it may define or
// attach.
fn told_notice(sure: bool, notice: Option<Notice>) -> Option<Notice>
    ensures { result ≡ told_notice sure notice }
{
    if sure { notice } else { None }
}

// Plays a definition, a load or an ATTACH, and returns its fault. For another request it only makes
// the region.
fn play(stage: &mut Stage, said: Line) -> Result<Option<Fault>, NoMemory>
    ensures { IfOk result (IsPlayed (tried stage.old (Ok said)) stage.new) }
{
    match said {
        Line::Blank => Ok(None),
        Line::Attach(label, transaction, dtimout) => {
            let request = Request::Attach {
                label,
                transaction,
                dtimout,
            };
            stage.play(0, request, &mut Nobody)
        }
        Line::Clock(_) | Line::Issue(_, _) | Line::Shutdown => {
            stage.open()?;
            Ok(None)
        }
        definition => stage.define(definition),
    }
}

// Tries a line: plays it if it is a definition or an ATTACH, and returns what is found in it.
fn try_line(alloc: Global, stage: &mut Stage, line: &[u8]) -> Result<Found, NoMemory>
    ensures { IfOk result (IsTried stage.old (line_of line.now) stage.new) }
{
    match read_line(alloc, line) {
        Ok(said) => {
            let notice = notice_on(stage, &said);
            let fault = play(stage, said)?;
            Ok(Found { fault, notice })
        }
        Err(LineFault::NoMemory) => Err(NoMemory),
        Err(fault) => Ok(Found {
            fault: Some(Fault::Line(fault)),
            notice: None,
        }),
    }
}

// Appends how many lines are at fault, if any is.
fn push_count(out: &mut Vec<u8>, faulty: u64) -> Result<(), NoMemory>
    ensures { OnOk result (out.new.items ≡ out.old.items ++ count_line faulty) }
{
    match faulty {
        0 => Ok(()),
        1 => push_str(out, "cicsrun: 1 line is at fault\n"),
        _ => push_parts(
            out,
            &[
                Str("cicsrun: "),
                Number(faulty),
                Str(" lines are at fault\n"),
            ],
        ),
    }
}

impl Checker {
    // Takes one line more, and tells of its fault, or keeps what is amiss in it.
    fn check_line(&mut self, file: Option<&[u8]>, line: &[u8]) -> Result<(), NoMemory>
        requires number { self.old.number + 1 < 2 ^ 64 }
        requires faulty { self.old.faulty ≤ self.old.number }
        ensures behind { (c : Checked) → IsBehind self.old c
            → OnOk result (IsBehind self.new (checked c line.now)) }
        ensures tells { (c : Checked) → IsBehind self.old c → OnOk result (TellsBehind file.entry c
            line.now self.old.text.items self.new.text.items) }
        ensures faulty { OnOk result (self.new.faulty ≤ self.new.number) }
    {
        self.number += 1;
        let found = try_line(self.alloc, &mut self.stage, line)?;
        let Some(fault) = told_fault(self.sure, found.fault) else {
            return self.keep(line, found.notice);
        };
        self.faulty += 1;
        self.sure &= adds_nothing(line);
        let origin = Origin {
            file,
            line: self.number,
        };
        push_told(&mut self.text, origin, line, fault)
    }

    // Keeps what is amiss in the line, if no faulty line before it may mend that.
    fn keep(&mut self, line: &[u8], notice: Option<Notice>) -> Result<(), NoMemory>
        ensures { OnOk result (self.new ≡ record self.old {
          remarks = with_found self.old.stage self.old.number line.now self.old.remarks
              (told_notice self.old.sure notice);
        }) }
    {
        match told_notice(self.sure, notice) {
            Some(notice) => {
                self.remarks
                    .add_all(&self.stage, self.number, line, &[notice])
            }
            None => Ok(()),
        }
    }

    // Tells what is amiss in requests and how many lines are at fault, and returns whether one is.
    fn finish<K: Sink>(&mut self, file: Option<&[u8]>, sink: &mut K) -> Result<Status, Stop>
        ensures told { OnOk result (Appends (K.contents sink.old) (K.contents sink.new)
            (self.old.text.items ++ (remark_lines file.entry self.old.remarks
            ++ count_line self.old.faulty))) }
        ensures status { IfOk result (λ status. status ≡ status_of self.old.faulty) }
        ensures failed { Rises (K.failed sink.old) (K.failed sink.new) (stopped_writes result) }
    {
        push_remarks(&mut self.text, file, &self.remarks)?;
        push_count(&mut self.text, self.faulty)?;
        write_pending(&mut self.text, sink)?;
        Ok(match self.faulty {
            0 => Status::Done,
            _ => Status::LineFault,
        })
    }
}

// Checks the lines of a script.
fn check_lines<K: Sink>(
    alloc: Global,
    script: &[u8],
    file: Option<&[u8]>,
    sink: &mut K,
) -> Result<Status, Stop>
    ensures told { IfOk result (Checks file.entry script.now (K.contents sink.old)
        (K.contents sink.new)) }
    ensures failed { Rises (K.failed sink.old) (K.failed sink.new) (stopped_writes result) }
{
    let mut checker = Checker {
        alloc,
        stage: Stage::new(alloc),
        number: 0,
        faulty: 0,
        sure: true,
        text: Vec::new(alloc),
        remarks: Remarks::new(alloc),
    };
    let mut rest = script;
    'lines: loop {
        let Some((line, after)) = next_line(rest) else {
            return checker.finish(file, sink);
        };
        checker.check_line(file, line)?;
        write_printed(&mut checker.text, sink, false)?;
        rest = after;
    }
}

/// Tells what is at fault in each line of a script, as `told_of` does of one. Then it tells what is
/// amiss in requests, and how many lines are at fault. A request is amiss if its label was attached
/// before or never was, or if it names a file or queue that isn't defined. So is a command of
/// temporary storage with the name of a transient data queue. At most 64 of all these are told.
///
/// No request but ATTACH is played, and a line with a fault changes nothing. But it may be meant to
/// define or attach something: then nothing is told of requests behind it. That can't be if it
/// begins with LOAD, CLOCK or SHUTDOWN, or with EXEC CICS behind any other word (`adds_nothing`).
/// `file` is the name of the script's file.
///
/// Returns `Status::LineFault` exactly if a run of the script does. Errors: `NoMemory`,
/// `WriteFault`. Cost: O(bytes), with one reading more for each word of a faulty line.
pub fn check_script<K: Sink>(
    alloc: Global,
    script: &[u8],
    file: Option<&[u8]>,
    sink: &mut K,
) -> Result<Status, RunFault>
    ensures told { IfOk result (Checks file.entry script.now (K.contents sink.old)
        (K.contents sink.new)) }
    ensures write_faults { Rises (K.failed sink.old) (K.failed sink.new)
        (failures write_failures result) }
{
    ended(check_lines(alloc, script, file, sink))
}
