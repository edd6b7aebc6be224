//! Lanes, and what their tasks are told.

ghost use Rattle.std.specs.Prelude.{◌≡◌, ◌<◌, [], ◌∷◌, ◌++◌, None, IfOk, OnOk, length, map};
ghost use Rattle.cics_orders.specs.Giving.{initial_lane, frame, task_lane, is_of, is_last};
ghost use Rattle.cics_orders.specs.Plans.Firsts.{first_index};
ghost use Rattle.cics_orders.specs.Giving.{with_told, hearing, told_by, with_given};

use crate::lines::Lines;
use crate::plans::{TaskPlan, is_same};
use cics_dispatch::{Event, Outcome};
use cics_names::{Items, Name8, NoMemory};
use std::alloc::Global;

/// The lines of a task or of the clock, and how far they are given.
#[derive(Drop)]
pub struct Lane {
    /// The label of its task, or none if it is the clock's.
    pub label: Option<Name8>,
    /// Its lines, each with its number.
    pub lines: Lines,
    /// How many of its lines are given.
    pub given: usize,
    /// What its task was told, for each line that was answered.
    pub told: Items<Outcome>,
}

/// Returns whether an outcome ends its task.
pub(crate) fn is_last(outcome: &Outcome) -> bool
    ensures { result ≡ is_last outcome.now }
{
    match outcome {
        Outcome::Replied(_) | Outcome::Waiting(_) => false,
        Outcome::Abended(_, _) | Outcome::Ended => true,
    }
}

impl Lane {
    // Returns a lane of which no line is given.
    fn new(alloc: Global, label: Option<Name8>, lines: Lines) -> Lane
        ensures { result ≡ initial_lane label lines }
    {
        Lane {
            label,
            lines,
            given: 0,
            told: Items::new(alloc),
        }
    }

    // Returns whether it is the lane of the task of a label.
    fn is_of(&self, label: &Name8) -> bool
        ensures { result ≡ is_of self.now label.now }
    {
        match self.label {
            Some(own) => is_same(&own, label),
            None => false,
        }
    }

    /// Counts one more line as given.
    pub(crate) fn give(&mut self)
        requires { self.old.given < length self.old.lines }
        ensures { self.new ≡ with_given self.old }
    {
        // Not used: it shows the prover that the count can't overflow.
        let _left = self.lines.as_slice().len();
        self.given += 1;
    }
}

/// Returns the lanes of tasks and of the clock, of which no line is given.
pub(crate) fn initial_lanes(
    alloc: Global,
    tasks: &[TaskPlan],
    clock: Lines,
) -> Result<Vec<Lane>, NoMemory>
    ensures { IfOk result (λ lanes. lanes.items
        ≡ map task_lane tasks.now ++ initial_lane None clock ∷ []) }
{
    let mut lanes = Vec::new(alloc);
    for task in tasks {
        let lines = Lines::new(alloc, task.lines.as_slice())?;
        lanes.push(Lane::new(alloc, Some(task.label), lines))?;
    }
    lanes.push(Lane::new(alloc, None, clock))?;
    Ok(lanes)
}

/// Returns lanes of the same lines, of which none is given.
pub(crate) fn fresh_lanes(alloc: Global, lanes: &[Lane]) -> Result<Vec<Lane>, NoMemory>
    ensures { IfOk result (λ fresh. fresh.items ≡ map frame lanes.now) }
{
    let mut fresh = Vec::new(alloc);
    for lane in lanes {
        fresh.push(Lane::new(alloc, lane.label, lane.lines.copy()?))?;
    }
    Ok(fresh)
}

// Returns the index of the lane of a label.
fn index_of(lanes: &[Lane], label: &Name8) -> Option<usize>
    ensures { result ≡ first_index (λ lane. is_of lane label.now) lanes.now }
{
    for i in 0..lanes.len() {
        if lanes[i].is_of(label) {
            return Some(i);
        }
    }
    None
}

// Tells the task of a label an outcome.
fn tell(lanes: &mut Vec<Lane>, label: &Name8, outcome: Outcome) -> Result<(), NoMemory>
    ensures { OnOk result (lanes.new.items ≡ with_told lanes.old.items label.now outcome) }
{
    match index_of(lanes.as_slice(), label) {
        Some(at) => lanes[at].told.push(outcome),
        None => Ok(()),
    }
}

// Tells the task of a label an outcome, unless its command waits.
fn tell_answer(lanes: &mut Vec<Lane>, label: &Name8, outcome: Outcome) -> Result<(), NoMemory>
    ensures { OnOk result (lanes.new.items ≡ hearing lanes.old.items label.now outcome) }
{
    match outcome {
        Outcome::Waiting(_) => Ok(()),
        told => tell(lanes, label, told),
    }
}

/// Tells the task of an event its outcome, unless its command waits.
pub(crate) fn hear(lanes: &mut Vec<Lane>, event: Event) -> Result<(), NoMemory>
    ensures { OnOk result (lanes.new.items ≡ told_by lanes.old.items event) }
{
    match event {
        Event::Issued(label, outcome, _) => tell_answer(lanes, &label, outcome),
        Event::Woken(woken) => {
            let label = woken.label;
            tell_answer(lanes, &label, woken.outcome)
        }
        Event::Expired(expired) => {
            let told = Outcome::Abended(expired.code, None);
            tell_answer(lanes, &expired.label, told)
        }
        Event::Attached(_, _) | Event::ClockSet(_) | Event::ShutDown(_) | Event::Refused(_, _) =>
            Ok(()),
    }
}
