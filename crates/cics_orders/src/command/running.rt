//! A script that is read, and what is written of its orders.

ghost use Rattle.std.specs.Prelude.{◌≡◌, [], IfOk};
ghost use Rattle.cics_run.specs.Session.Running.{most_reads, read_failures, write_failures};
ghost use Rattle.cics_run.specs.Session.Streams.{Rises, RisesAtMost, failures};
ghost use Rattle.cics_orders.specs.Command.Written.{status_of, Writes, IsPrinted, Surveys};

use crate::command::surveys::{Survey, survey_script};
use crate::report::{AmissEnding, first_amiss, push_fault, push_report, push_script};
use crate::search::{Progress, Report};
use cics_names::NoMemory;
use cics_run::reading::{lines_of, read_script};
use cics_run::session::{Orders, RunFault, Sink, Source, write_all};
use std::alloc::Global;

/// How the orders of a script were told.
#[derive(Clone, Copy, PartialEq, Eq)]
pub enum Surveyed {
    /// The report is written, or the order that is wanted.
    Done,
    /// That is written. `strict` is wanted, and this ending is the first that is amiss.
    Amiss(AmissEnding),
    /// The line with the script's first fault is written.
    LineFault,
    /// No ending has the number that is wanted. There are so many, or at least so many if orders
    /// were left out. Nothing is written.
    NoEnding { count: u64, has_all: bool },
}

// Returns the answer on a report. `is_there`: whether the wanted ending exists.
fn status_of(report: &Report, is_strict: bool, is_there: bool) -> Surveyed
    ensures { result ≡ status_of report.now is_strict is_there }
{
    if !is_there {
        return Surveyed::NoEnding {
            count: report.endings.len() as u64,
            has_all: report.is_whole,
        };
    }
    match first_amiss(report) {
        Some(ending) if is_strict => Surveyed::Amiss(ending),
        _ => Surveyed::Done,
    }
}

// Appends what is wanted of a survey.
fn push_survey(out: &mut Vec<u8>, survey: &Survey, wanted: Orders) -> Result<Surveyed, NoMemory>
    ensures { IfOk result (Writes wanted survey.now out.old.items out.new.items) }
{
    let is_there = match wanted.ending {
        Some(number) => push_script(out, &survey.planned.plan, &survey.report, number)?,
        None => {
            push_report(out, &survey.planned, wanted, &survey.report)?;
            true
        }
    };
    Ok(status_of(&survey.report, wanted.strict, is_there))
}

// Appends to a text what is wanted of a script's orders.
fn push_orders<P: Progress>(
    out: &mut Vec<u8>,
    script: &[u8],
    wanted: Orders,
    progress: &mut P,
) -> Result<Surveyed, NoMemory>
    requires { out.old.items ≡ [] }
    ensures { IfOk result (IsPrinted script.now wanted out.new.items) }
{
    let alloc = *out.allocator();
    let lines = lines_of(alloc, script)?;
    match survey_script(alloc, lines.as_slice(), wanted, progress)? {
        Ok(survey) => push_survey(out, &survey, wanted),
        Err((number, fault)) => {
            push_fault(out, number, fault)?;
            Ok(Surveyed::LineFault)
        }
    }
}

/// Follows the orders of scripts, with memory of `alloc`, and tells `progress` how far it is.
#[derive(Drop)]
pub struct Surveyor<P> {
    pub alloc: Global,
    pub progress: P,
}

impl<P: Progress> Surveyor<P> {
    /// Follows the orders of the script that a source gives. Writes a report on them, or the first
    /// order of an ending as a script.
    ///
    /// It reads at most `MOST_SCRIPT_BYTES`, and one more to see whether there are more, and writes
    /// only when the search is over. Of a script with a fault it writes the line that a run writes
    /// of it. Tells `progress` how far it is, after each state that is followed.
    ///
    /// Errors: `InputTooLong` if the source has more than `MOST_SCRIPT_BYTES`; `ReadFault` if a
    /// read failed, `WriteFault` if a write did, and neither is tried again; `NoMemory`. Cost: that
    /// of `survey_script` and of `push_report`.
    pub fn run_orders<S: Source, K: Sink>(
        &mut self,
        source: &mut S,
        sink: &mut K,
        wanted: Orders,
    ) -> Result<Surveyed, RunFault>
        ensures read_faults { Rises (S.failed source.old) (S.failed source.new)
            (failures read_failures result) }
        ensures write_faults { Rises (K.failed sink.old) (K.failed sink.new)
            (failures write_failures result) }
        ensures asked { RisesAtMost (S.asked source.old) (S.asked source.new) most_reads }
        ensures whole { Surveys wanted (S.remaining source.old) (S.remaining source.new)
            (K.contents sink.old) (K.contents sink.new) result }
    {
        let mut script = Vec::new(self.alloc);
        read_script(source, &mut script)?;
        let mut text = Vec::new(self.alloc);
        let status = match push_orders(&mut text, &script, wanted, &mut self.progress) {
            Ok(status) => status,
            Err(_) => return Err(RunFault::NoMemory),
        };
        match write_all(sink, &text) {
            Ok(()) => Ok(status),
            Err(_) => Err(RunFault::WriteFault),
        }
    }
}
