//! Taking a script apart.

ghost use Rattle.std.specs.Prelude.{◌≡◌, OnOk, IfOk};
ghost use Rattle.cics_script.specs.Lines.{line};
ghost use Rattle.cics_orders.specs.Plans.Firsts.{first_index};
ghost use Rattle.cics_orders.specs.Plans.Taking.{TakesLine, initial_taken, taken_more, followed};
ghost use Rattle.cics_orders.specs.Plans.Taking.{is_task, line_added, attached, issued};
ghost use Rattle.cics_orders.specs.Plans.Taking.{timed, defined, with_refused, taken_apart, planned};

use crate::plans::defining::define;
use crate::plans::plans::{Plan, Planned, RefusedLine, ScriptFault, TaskPlan, is_same};
use crate::plans::reading::read;
use cics_dispatch::Refused;
use cics_names::{Items, Name8, NoMemory, Record};
use cics_script::{Line, LineFault};
use cics_units::{DefineFault, Opening};
use std::alloc::Global;
use std::marker::Model;

// The lines of a script so far, taken apart.
//
// Contracts see what the lines define, whether all are definitions or blank, the plan, and the
// refused lines. After `NoMemory` a planner is of no more use.
#[derive(Drop)]
struct Planner {
    alloc: Global,
    // What is defined: it tells the faults of definitions.
    opening: Opening,
    // Whether all lines so far are definitions or blank.
    is_opening: bool,
    definitions: Items<(u64, Record)>,
    tasks: Vec<TaskPlan>,
    clock: Items<(u64, Record)>,
    written: Items<(Option<usize>, u64)>,
    refused: Items<RefusedLine>,
}

impl Model for Planner {
    ghost use Rattle.cics_orders.specs.Plans.Taking.{Taken};

    ghost Value = { Taken };

    ghost view = { λ p. record {
      opening = p.opening;
      is_opening = p.is_opening;
      plan = record {
        definitions = p.definitions;
        tasks = p.tasks.items;
        clock = p.clock;
        written = p.written;
      };
      refused = p.refused;
    } };
}

// Returns the index of the task of a label.
fn index_of(tasks: &[TaskPlan], label: &Name8) -> Option<usize>
    ensures { result ≡ first_index (λ task. is_task task label.now) tasks.now }
{
    for i in 0..tasks.len() {
        if is_same(&tasks[i].label, label) {
            return Some(i);
        }
    }
    None
}

// Adds a line to the task of a label, if there is one.
fn add_line(tasks: &mut Vec<TaskPlan>, label: &Name8, next: (u64, Record)) -> Result<(), NoMemory>
    ensures { OnOk result (tasks.new.items ≡ line_added tasks.old.items label.now next) }
{
    match index_of(tasks.as_slice(), label) {
        Some(at) => tasks[at].lines.push(next),
        None => Ok(()),
    }
}

impl Planner {
    // Returns a planner of no line.
    fn new(alloc: Global) -> Planner
        ensures { result ≡ initial_taken }
    {
        Planner {
            alloc,
            opening: Opening::new(alloc),
            is_opening: true,
            definitions: Items::new(alloc),
            tasks: Vec::new(alloc),
            clock: Items::new(alloc),
            written: Items::new(alloc),
            refused: Items::new(alloc),
        }
    }

    // Takes one line more: its number, and its bytes without its line end. Returns its fault, if
    // it has one; then nothing changes.
    fn take(&mut self, number: u64, bytes: &[u8]) -> Result<Option<ScriptFault>, NoMemory>
        ensures { TakesLine (taken_more self.old (number, bytes.now) (line bytes.now)) self.new
            result }
    {
        match read(self.alloc, bytes)? {
            Ok(line) => self.follow((number, Record::from_slice(self.alloc, bytes)?), line),
            Err(fault) => Ok(Some(ScriptFault::Line(fault))),
        }
    }

    // Returns what the lines were taken apart into.
    fn finish(self) -> Planned
        ensures { result ≡ record { plan = self.plan; refused = self.refused } }
    {
        Planned {
            plan: Plan {
                definitions: self.definitions,
                tasks: Items::from_vec(self.tasks),
                clock: self.clock,
                written: self.written,
            },
            refused: self.refused,
        }
    }

    // Takes a line that was read.
    fn follow(&mut self, next: (u64, Record), line: Line) -> Result<Option<ScriptFault>, NoMemory>
        ensures { TakesLine (followed self.old next line) self.new result }
    {
        match line {
            Line::Blank => {}
            Line::Attach(label, transaction, dtimout) => self.attach(TaskPlan {
                label,
                transaction,
                dtimout,
                attach: next,
                lines: Items::new(self.alloc),
            })?,
            Line::Issue(label, _) => self.issue(next, label)?,
            Line::Clock(_) | Line::Shutdown => self.time(next)?,
            definition => return self.define(next, definition),
        }
        Ok(None)
    }

    // Takes a line that defines or loads.
    fn define(&mut self, next: (u64, Record), line: Line) -> Result<Option<ScriptFault>, NoMemory>
        ensures { TakesLine (defined self.old next line) self.new result }
    {
        if !self.is_opening {
            return Ok(Some(ScriptFault::Line(LineFault::DefineTooLate)));
        }
        match define(&mut self.opening, line) {
            Ok(()) => {
                self.definitions.push(next)?;
                Ok(None)
            }
            Err(DefineFault::NoMemory) => Err(NoMemory),
            Err(fault) => Ok(Some(ScriptFault::Definition(fault))),
        }
    }

    // Keeps a line that is refused in every order.
    fn refuse(&mut self, number: u64, label: Name8, refusal: Refused) -> Result<(), NoMemory>
        ensures { OnOk result (self.new ≡ with_refused self.old number label refusal) }
    {
        self.is_opening = false;
        self.refused.push(RefusedLine {
            number,
            label,
            refusal,
        })
    }

    // Attaches a task, unless a task before it has its label.
    fn attach(&mut self, task: TaskPlan) -> Result<(), NoMemory>
        ensures { OnOk result (self.new ≡ attached self.old task) }
    {
        if index_of(&self.tasks, &task.label).is_some() {
            return self.refuse(task.attach.0, task.label, Refused::DuplicateLabel);
        }
        self.is_opening = false;
        self.tasks.push(task)?;
        Ok(())
    }

    // Keeps a command as a line of its task, if that is attached.
    fn issue(&mut self, next: (u64, Record), label: Name8) -> Result<(), NoMemory>
        ensures { OnOk result (self.new ≡ issued self.old next label) }
    {
        let at = index_of(&self.tasks, &label);
        if at.is_none() {
            return self.refuse(next.0, label, Refused::NoTask);
        }
        self.is_opening = false;
        self.written.push((at, next.0))?;
        add_line(&mut self.tasks, &label, next)
    }

    // Keeps a line of the clock.
    fn time(&mut self, next: (u64, Record)) -> Result<(), NoMemory>
        ensures { OnOk result (self.new ≡ timed self.old next) }
    {
        self.is_opening = false;
        self.written.push((None, next.0))?;
        self.clock.push(next)
    }
}

/// Takes a script apart. `lines` are its lines, each without its line end. Returns its plan, or the
/// number of the first line with a fault, and the fault.
///
/// Errors: `NoMemory`. Cost: O(lines * tasks).
#[tactic(auto, unfolding(crate::specs::Plans::Taking::taken_apart))]
pub fn plan_of(
    alloc: Global,
    lines: &[Record],
) -> Result<Result<Planned, (u64, ScriptFault)>, NoMemory>
    ensures { IfOk result (λ plan. plan ≡ planned (taken_apart initial_taken 1 lines.now)) }
{
    let mut planner = Planner::new(alloc);
    for i in 0..lines.len() {
        let number = i as u64 + 1;
        if let Some(fault) = planner.take(number, lines[i].bytes())? {
            return Ok(Err((number, fault)));
        }
    }
    Ok(Ok(planner.finish()))
}
