//! The region of a script, and the lanes that give their lines to it.

ghost use Rattle.std.specs.Prelude.{◌≡◌, ◌++◌, ◌∷◌, List, suc, true, if◌then◌else◌, None, Some};
ghost use Rattle.std.specs.Prelude.{IfOk, OnOk, slice_get, option_and_then, option_copied};
ghost use Rattle.cics_orders.specs.Words.{IsFirst, numbered_from, State, initial_state, initial_of};
ghost use Rattle.cics_orders.specs.Words.{line_count, is_ready, may_give, givers, counted, given};
ghost use Rattle.cics_orders.specs.Words.{next_said, IsGivable, happening, left_by, lane_of};
ghost use Rattle.cics_orders.specs.Words.{line_ready, written_to, is_proper, WrittenLine};
ghost use Rattle.cics_orders.specs.Words.{state_stamp, breaks, parts_at};
ghost use Rattle.cics_orders.specs.declared.lanes.Lane.{Lane};

use crate::endings::parts_of;
use crate::lanes::{Lane, fresh_lanes, initial_lanes};
use crate::lines::Lines;
use crate::plans::Plan;
use crate::playing::{asked, play};
use crate::stamping::stamp_lanes;
use crate::starting::{initial_region, opened};
use crate::turns::{interrupts, is_other_in_turn};
use cics_dispatch::{Region, Request};
use cics_names::{Items, NoMemory, Record};
use cics_script::{Line, LineFault};
use cics_units::Opening;
use std::alloc::Global;
use std::marker::Model;

/// The region of a plan, and the lanes that give their lines to it, one after the other.
///
/// After an error its state is unspecified.
#[derive(Drop)]
pub struct Walker {
    alloc: Global,
    plan: Plan,
    // How many lines an order has at most.
    most: usize,
    // What the plan defines and loads.
    opening: Opening,
    // The lanes of the plan, of which no line is given.
    fresh: Vec<Lane>,
    region: Region,
    lanes: Vec<Lane>,
}

impl Model for Walker {
    ghost use Rattle.std.specs.Prelude.{◌≡◌, true};
    ghost use Rattle.cics_orders.specs.Plans.Proper.{is_proper};
    ghost use Rattle.cics_orders.specs.Giving.{State, line_count, opened, initial_lanes};

    ghost Value = { State };

    ghost view = { λ w. record {
      plan = w.plan;
      machine = w.region.machine;
      lanes = w.lanes.items;
    } };

    ghost invariant = { λ w. (w.most ≡ line_count w.plan) × (is_proper w.plan ≡ true)
        × (w.opening ≡ opened w.plan.definitions)
        × (w.fresh.items ≡ initial_lanes w.plan) };
}

// Returns how many lines the lanes of a plan have.
fn line_count(plan: &Plan) -> Result<usize, NoMemory>
    ensures { IfOk result (λ count. count ≡ line_count plan.now) }
{
    let mut count = plan.clock.len();
    for task in plan.tasks.as_slice() {
        let Some(more) = count.checked_add(task.lines.len()) else {
            return Err(NoMemory);
        };
        count = more;
    }
    Ok(count)
}

// Returns whether a lane is ready: it is the clock's, or its task has not ended and doesn't wait.
fn is_ready(region: &Region, lane: &Lane) -> bool
    ensures { result ≡ is_ready region.now.machine lane.now.label }
{
    match &lane.label {
        Some(label) => !region.has_ended(label) && region.waiting_command(label).is_none(),
        None => true,
    }
}

// Returns whether a lane may give: it has a line left and is ready.
fn may_give(region: &Region, lane: &Lane) -> bool
    ensures { result ≡ may_give region.now.machine lane.now }
{
    lane.given < lane.lines.as_slice().len() && is_ready(region, lane)
}

// Returns the first lane that may give, from a number on.
fn giver_from(region: &Region, lanes: &[Lane], from: usize) -> Option<usize>
    ensures { IsFirst result (numbered_from (may_give region.now.machine) lanes.now from) }
{
    for i in from..lanes.len() {
        if may_give(region, &lanes[i]) {
            return Some(i);
        }
    }
    None
}

// Returns the number of a task's lane, or of the clock's, which is the last.
fn lane_of(plan: &Plan, task: Option<usize>) -> usize
    ensures { result ≡ lane_of plan.now task }
{
    match task {
        Some(at) => at,
        None => plan.tasks.len(),
    }
}

// Returns the number of the line that the lane of a number may give.
fn next_number(region: &Region, lanes: &[Lane], number: usize) -> Option<u64>
    ensures { result ≡ option_and_then (line_ready region.now.machine)
        (slice_get lanes.now number) }
{
    let lane = match lanes.get(number) {
        Some(lane) if is_ready(region, lane) => lane,
        _ => return None,
    };
    match lane.lines.as_slice().get(lane.given) {
        Some((number, _)) => Some(*number),
        None => None,
    }
}

// Returns what the lane of a number says next, if it has a line left.
fn next_said(lanes: &[Lane], number: usize) -> Option<&Result<Line, LineFault>>
    ensures { option_copied result ≡ next_said lanes.now number }
{
    match lanes.get(number) {
        Some(lane) => lane.lines.said_at(lane.given),
        None => None,
    }
}

impl Walker {
    /// Returns the walker of a plan in the initial state.
    ///
    /// Errors: `NoMemory`, also if a definition of the plan has a fault.
    ///
    /// Cost: O(definitions + tasks + lines).
    #[tactic(auto, using(crate::proofs::GivenLanes::initial_is))]
    pub fn new(alloc: Global, plan: Plan) -> Result<Walker, NoMemory>
        requires { is_proper plan ≡ true }
        ensures { IfOk result (λ walker. walker ≡ initial_state plan) }
    {
        let most = line_count(&plan)?;
        let clock = Lines::new(alloc, plan.clock.as_slice())?;
        let fresh = initial_lanes(alloc, plan.tasks.as_slice(), clock)?;
        let lanes = fresh_lanes(alloc, fresh.as_slice())?;
        let opening = opened(alloc, plan.definitions.as_slice())?;
        let region = initial_region(&opening, plan.tasks.as_slice())?;
        Ok(Walker {
            alloc,
            plan,
            most,
            opening,
            fresh,
            region,
            lanes,
        })
    }

    /// Returns the region.
    pub fn region(&self) -> &Region
        ensures { result.now.machine ≡ self.now.machine }
    {
        &self.region
    }

    /// Returns the lanes: those of tasks in the order of attach, the clock's last.
    pub fn lanes(&self) -> &[Lane]
        ensures { result.now ≡ self.now.lanes }
    {
        self.lanes.as_slice()
    }

    /// Goes back to the initial state.
    ///
    /// Errors: `NoMemory`.
    ///
    /// Cost: O(definitions + tasks + lanes).
    #[tactic(auto, using(crate::proofs::StampLaws::initial_of_is))]
    pub fn restart(&mut self) -> Result<(), NoMemory>
        ensures { OnOk result (self.new ≡ initial_of self.old) }
    {
        self.lanes = fresh_lanes(self.alloc, self.fresh.as_slice())?;
        self.region = initial_region(&self.opening, self.plan.tasks.as_slice())?;
        Ok(())
    }

    /// Returns how many lines an order has at most.
    pub fn line_count(&self) -> usize
        ensures { result ≡ line_count self.now.plan }
    {
        self.most
    }

    /// Returns the first lane that may give.
    pub fn first_giver(&self) -> Option<usize>
        ensures { IsFirst result (givers self.now 0) }
    {
        giver_from(&self.region, &self.lanes, 0)
    }

    /// Returns the first lane after another that may give.
    pub fn giver_after(&self, number: usize) -> Option<usize>
        ensures { IsFirst result (givers self.now (suc number)) }
    {
        if number < self.lanes.len() {
            giver_from(&self.region, &self.lanes, number + 1)
        } else {
            None
        }
    }

    /// Returns whether a lane breaks a turn: its next line is a command or SHUTDOWN, and the task
    /// of another lane is within a turn. An order with such a line isn't serial.
    ///
    /// Cost: O(lanes).
    #[tactic(auto, unfolding(crate::specs::Turns::breaks))]
    pub fn breaks_turn(&self, number: usize) -> bool
        ensures { result ≡ breaks self.now number }
    {
        let lanes = self.lanes.as_slice();
        interrupts(next_said(lanes, number)) && is_other_in_turn(&self.region, lanes, number)
    }

    // Counts the next line of a lane as given.
    fn count(&mut self, number: usize)
        requires { IsGivable self.old.lanes number }
        ensures { (lane : Lane) → slice_get self.old.lanes number ≡ Some lane →
            self.new ≡ counted self.old number lane }
    {
        self.lanes[number].give();
    }

    // Asks a request of the region, and drains it.
    fn ask(&mut self, request: Request) -> Result<(), NoMemory>
        ensures { OnOk result (self.new ≡ left_by self.old (happening self.old.machine request)) }
    {
        play(&mut self.region, &mut self.lanes, request)
    }

    /// Gives the next line of a lane, if it has one left, and drains the region.
    ///
    /// Errors: `NoMemory`.
    ///
    /// Cost: that of the line's event and of each turn of draining, and O(lanes) for each outcome.
    pub fn give(&mut self, number: usize) -> Result<(), NoMemory>
        ensures { OnOk result (self.new ≡ given self.old number) }
    {
        let Some(says) = next_said(self.lanes.as_slice(), number) else {
            return Ok(());
        };
        let request = asked(says)?;
        self.count(number);
        match request {
            Some(request) => self.ask(request),
            None => Ok(()),
        }
    }

    /// Returns the lines of tasks and of the clock in the script's order: the index of each line's
    /// task, which the clock has not, and its number.
    pub fn written(&self) -> &[(Option<usize>, u64)]
        ensures { result.now ≡ self.now.plan.written }
    {
        self.plan.written.as_slice()
    }

    /// Follows a line of the script. Gives it if it is its lane's next one, and passes it over if
    /// the lane may not give. Returns whether it did either.
    ///
    /// Errors: `NoMemory`. Cost: that of `give`.
    pub fn follow(&mut self, line: (Option<usize>, u64)) -> Result<bool, NoMemory>
        ensures written { IfOk result (λ goes_on. (rest : List WrittenLine) →
            written_to self.old (line ∷ rest)
            ≡ (if goes_on then written_to self.new rest else None)) }
        ensures plan { OnOk result (self.new.plan ≡ self.old.plan) }
    {
        let (task, number) = line;
        let lane = lane_of(&self.plan, task);
        match next_number(&self.region, self.lanes.as_slice(), lane) {
            Some(next) if next == number => {
                self.give(lane)?;
                Ok(true)
            }
            Some(_) => Ok(false),
            None => Ok(true),
        }
    }

    /// Returns the parts of the ending of this state. With `told` they have all that tasks were
    /// told, else how they ended.
    ///
    /// Errors: `NoMemory`. Cost: that of `parts_of`.
    pub fn parts(&self, told: bool) -> Result<Items<Record>, NoMemory>
        ensures { IfOk result (λ parts. parts ≡ parts_at told self.now) }
    {
        parts_of(self.alloc, &self.region, told, self.lanes.as_slice())
    }

    /// Appends the stamp of this state. With `told` it has all that tasks were told, else how they
    /// ended. Take two walkers of one plan that gave only lines of lanes that might give. If they
    /// have one stamp, they go on alike (`proofs/StampLaws`).
    ///
    /// Errors: `NoMemory`.
    ///
    /// Cost: that of the region's stamp, and O(bytes) of the lanes'.
    #[tactic(auto, unfolding(crate::specs::Stamps::state_stamp))]
    pub fn stamp(&self, told: bool, out: &mut Vec<u8>) -> Result<(), NoMemory>
        ensures { OnOk result (out.new.items ≡ out.old.items ++ state_stamp told self.now) }
    {
        stamp_lanes(out, self.lanes.as_slice(), told)?;
        self.region.stamp(out)
    }
}
