//! The stages of a run: the definitions, then the region.

ghost use Rattle.std.specs.Prelude.{◌≡◌, OnOk, OnErr, IfOk, Ok, Option};
ghost use Rattle.cics_history.specs.State.{OpeningState};
ghost use Rattle.cics_units.specs.Opening.Faults.{AnswersFault};
ghost use Rattle.cics_units.specs.declared.opening.opening.DefineFault.{DefineFault};
ghost use Rattle.cics_run.specs.Stage.Seen.{after_all, after_step};
ghost use Rattle.cics_run.specs.Stage.Stages.{initial_stage, region_of, defined};
ghost use Rattle.cics_run.specs.Stage.Stages.{requested, definition, step, IsPlayed};
ghost use Rattle.cics_run.specs.declared.stage.stage.Stage.TheVariants.{Opening as OpeningStage};
ghost use Rattle.cics_run.specs.declared.stage.stage.Stage.TheVariants.{Running};

use crate::stage::Observer;
use crate::stage::draining::{drain, play_seen, show, show_fault};
use cics_dispatch::{Region, Request};
use cics_names::NoMemory;
use cics_script::{Line, LineFault, read_line};
use cics_units::{DefineFault, Opening};
use std::alloc::Global;
use std::mem::replace;

/// Why a line ends the run.
#[derive(Clone, Copy)]
pub enum Fault {
    /// The line can't be read, or stands where it may not.
    Line(LineFault),
    /// What the line defines or loads is refused.
    Definition(DefineFault),
}

/// The definitions, until the first line that is neither blank nor a definition; then the region.
pub enum Stage {
    Opening(Opening),
    Running(Region),
}

// A definition stands behind the first line that is none.
const TOO_LATE: Fault = Fault::Line(LineFault::DefineTooLate);

// By hand: a derived drop is taken apart wherever a stage is dropped.
impl Drop for Stage {
    fn drop(self) {
        match self {
            Stage::Opening(_opening) => {}
            Stage::Running(_region) => {}
        }
    }
}

impl Stage {
    /// Returns the stage before the first line: nothing is defined.
    pub fn new(alloc: Global) -> Stage
        ensures { result ≡ initial_stage }
    {
        Stage::Opening(Opening::new(alloc))
    }

    /// Returns the allocator of what is defined.
    pub fn allocator(&self) -> Global {
        match self {
            Stage::Opening(opening) => opening.allocator(),
            Stage::Running(region) => region.units().opening().allocator(),
        }
    }

    /// Runs the line with this number, and returns its fault, if it has one. A fault ends the run.
    /// The observer sees the line's request, its events in their order, and then its fault.
    ///
    /// Errors: `NoMemory`.
    #[inline(always)]
    pub fn run_line<O: Observer>(
        &mut self,
        alloc: Global,
        number: u64,
        line: &[u8],
        observer: &mut O,
    ) -> Result<Option<Fault>, NoMemory>
        ensures played { IfOk result (IsPlayed (step self.old line.now) self.new) }
        ensures seen { OnOk result (O.seen observer.new
            ≡ after_step O.sight number (O.seen observer.old) (step self.old line.now)) }
    {
        match read_line(alloc, line) {
            Ok(line) => match line {
                Line::Blank => Ok(None),
                Line::Attach(label, transaction, dtimout) => {
                    let request = Request::Attach {
                        label,
                        transaction,
                        dtimout,
                    };
                    self.play(number, request, observer)
                }
                Line::Clock(seconds) => self.play(number, Request::Clock(seconds), observer),
                Line::Issue(label, command) => {
                    self.play(number, Request::Issue(label, command), observer)
                }
                Line::Shutdown => self.play(number, Request::Shutdown, observer),
                _ => show_fault(number, self.define(line)?, observer),
            },
            Err(LineFault::NoMemory) => Err(NoMemory),
            Err(fault) => show_fault(number, Some(Fault::Line(fault)), observer),
        }
    }

    /// Defines or loads what a line says, and returns its fault, if it has one. That is
    /// `DefineTooLate` once there is a region. Before that any other line does nothing.
    ///
    /// Errors: `NoMemory`.
    #[inline(always)]
    pub(crate) fn define(&mut self, line: Line) -> Result<Option<Fault>, NoMemory>
        ensures { IfOk result (IsPlayed (definition self.old line) self.new) }
    {
        let Stage::Opening(opening) = self else {
            return Ok(Some(TOO_LATE));
        };
        match line {
            Line::DefineFile(name, file) => told(opening.define_file(name, file)),
            Line::DefineTsPrefix(prefix) => told(opening.define_ts_prefix(prefix)),
            Line::DefineTd(name, recovery) => told(opening.define_td(name, recovery)),
            Line::LoadFile(name, content) => told(opening.load_file(name, content)),
            Line::LoadTd(name, content) => told(opening.load_td(name, content)),
            _ => Ok(None),
        }
    }

    /// Plays a request, drains the region, and returns `None`: a request has no fault. The observer
    /// sees the request and each event.
    ///
    /// Errors: `NoMemory`.
    #[inline(always)]
    pub(crate) fn play<O: Observer>(
        &mut self,
        number: u64,
        request: Request,
        observer: &mut O,
    ) -> Result<Option<Fault>, NoMemory>
        ensures played { IfOk result (IsPlayed (requested self.old request) self.new) }
        ensures seen { OnOk result (O.seen observer.new
            ≡ after_all O.sight number (O.seen observer.old) (requested self.old request)) }
    {
        self.open()?;
        let Stage::Running(region) = self else {
            unreachable!();
        };
        if observer.sees_requests() {
            play_seen(region, number, request, observer)?;
            return Ok(None);
        }
        // No `?`, which would copy the event.
        match region.play(request) {
            Ok(event) => show(region, number, event, observer)?,
            Err(NoMemory) => return Err(NoMemory),
        }
        drain(region, number, observer)?;
        Ok(None)
    }

    /// Makes the region of the definitions, if there is none yet. On error the definitions stay.
    pub fn open(&mut self) -> Result<(), NoMemory>
        ensures ok { OnOk result (self.new ≡ Running (region_of self.old)) }
        ensures err { OnErr result (self.new ≡ self.old) }
    {
        match self {
            Stage::Running(_) => Ok(()),
            Stage::Opening(_) => self.make_region(),
        }
    }

    // Makes the region of the definitions. That is once in a run, but `open` is called at every
    // line of a task.
    #[cold]
    fn make_region(&mut self) -> Result<(), NoMemory>
        ensures ok { OnOk result (self.new ≡ Running (region_of self.old)) }
        ensures err { OnErr result (self.new ≡ self.old) }
    {
        let Stage::Opening(opening) = self else {
            return Ok(());
        };
        let nothing = Opening::new(opening.allocator());
        match Region::new(replace(opening, nothing)) {
            Ok(region) => {
                *self = Stage::Running(region);
                Ok(())
            }
            Err(definitions) => {
                *opening = definitions;
                Err(NoMemory)
            }
        }
    }
}

// Returns the fault of a definition, if it has one. In the clause `now` is the opening that the
// definition left.
fn told(answer: Result<(), DefineFault>) -> Result<Option<Fault>, NoMemory>
    ensures { (o next now : OpeningState) (fault : Option DefineFault)
        → AnswersFault answer fault → OnOk answer (now ≡ next) → OnErr answer (now ≡ o)
        → IfOk result (IsPlayed (defined o fault next) (OpeningStage now)) }
{
    match answer {
        Ok(()) => Ok(None),
        Err(DefineFault::NoMemory) => Err(NoMemory),
        Err(fault) => Ok(Some(Fault::Definition(fault))),
    }
}
