//! The steps of a run so far, with what is known by turn, by task and by cell.

ghost use Rattle.std.specs.Prelude.{◌≡◌, ◌∷◌, [], ◌||◌, not, IfOk, OnOk, Some, option_map};
ghost use Rattle.std.specs.Prelude.{reverse, length, slice_get};
ghost use Rattle.std.specs.List.{find, fold, flat_map, filter};
ghost use Rattle.std.specs.Option.{option_copied, option_to_list};
ghost use Rattle.std.specs.BTreeMap.{insert_entry};
ghost use Rattle.std.specs.Ordering.{nat_cmp};
ghost use Rattle.cics_names.specs.Keyed.{bytes_cmp};
ghost use Rattle.cics_run.specs.Reads.Runs.{fate_by, fate_of, is_by, is_no_step, is_undone, last};
ghost use Rattle.cics_run.specs.Reads.Runs.{last_in, near, next_moment};
ghost use Rattle.cics_run.specs.Reads.Past.{latest_of, put_mark, mark_of, is_standing, cells};
ghost use Rattle.cics_run.specs.Reads.Skews.{number_of};
ghost use Rattle.cics_run.specs.Reads.Touches.{points, put_number, put_point, put_span, spans_of, numbers_at};
ghost use Rattle.cics_run.specs.Reads.Touches.{covers_at, newer};
ghost use Rattle.cics_run.specs.Reads.Findings.{of_another, with_seen, seen_in};
ghost use Rattle.cics_run.specs.Reads.Steps.{cells_of, looks_at, single, view_ends};

use crate::reads::found::{Fate, Pair, Seen};
use crate::reads::steps::{Act, Cell, Moment, Step, is_same};
use cics_names::{Items, Name8, NoMemory};
use std::alloc::Global;
use std::collections::BTreeMap;
use std::marker::Model;

/// The last step of a turn or of a task: its number, its turn, and how it ended that.
#[derive(Clone, Copy)]
pub struct Latest {
    pub at: u64,
    pub turn: u64,
    pub fate: Fate,
}

/// A change of a cell.
#[derive(Clone, Copy)]
pub struct Mark {
    pub moment: Moment,
    /// Whether the change lasts.
    pub lasts: bool,
}

/// A task, and a cell that it looked at or changed.
#[derive(PartialEq, Eq, PartialOrd, Ord, Drop)]
pub struct Touched {
    pub task: Name8,
    pub cell: Cell,
}

// What is known of the steps by turn, by task and by cell.
#[derive(Drop)]
struct Kept {
    alloc: Global,
    // The last step of each turn, by the turn's number.
    turns: BTreeMap<u64, Latest>,
    // The last step of each task.
    tasks: BTreeMap<Name8, Latest>,
    // The changes of each cell, in order.
    marks: BTreeMap<Cell, Items<Mark>>,
    // The number of each task's last step at each cell, but for looks at several keys.
    points: BTreeMap<Touched, u64>,
    // The numbers of each task's looks at several keys, in order.
    spans: BTreeMap<Name8, Items<u64>>,
}

/// The steps of a run so far.
///
/// Contracts see the steps, the newest first.
#[derive(Drop)]
pub struct Past {
    steps: Items<Step>,
    kept: Kept,
}

impl Model for Past {
    ghost use Rattle.std.specs.Prelude.{◌≡◌, reverse};
    ghost use Rattle.cics_run.specs.Reads.Runs.{Run};
    ghost use Rattle.cics_run.specs.Reads.Touches.{points_of, spans_of, IsNumbered};
    ghost use Rattle.cics_run.specs.Reads.Past.{turns_of, tasks_of, marks_of};

    ghost Value = { Run };

    ghost view = { λ p. reverse p.steps };

    ghost invariant = { λ p. record {
      by_turn : p.kept.turns.entries ≡ turns_of (reverse p.steps);
      by_task : p.kept.tasks.entries ≡ tasks_of (reverse p.steps);
      by_cell : p.kept.marks.entries ≡ marks_of (reverse p.steps);
      by_point : p.kept.points.entries ≡ points_of (reverse p.steps);
      by_span : p.kept.spans.entries ≡ spans_of (reverse p.steps);
      numbered : IsNumbered (reverse p.steps);
    } };
}

// Returns how an act ends its turn.
fn fate_by(act: &Act) -> Fate
    ensures { result ≡ fate_by act.now }
{
    match act {
        Act::End { is_committed: true } => Fate::Committed,
        Act::End {
            is_committed: false,
        } => Fate::BackedOut,
        _ => Fate::Open,
    }
}

// Adds a change of a cell.
fn put_mark(
    alloc: Global,
    marks: &mut BTreeMap<Cell, Items<Mark>>,
    cell: Cell,
    mark: Mark,
) -> Result<(), NoMemory>
    ensures { OnOk result (marks.new.entries ≡ put_mark mark marks.old.entries cell) }
{
    marks.entry(cell)?.or_insert(Items::new(alloc)).push(mark)
}

// Adds a look of a task at several keys.
fn put_number(
    alloc: Global,
    spans: &mut BTreeMap<Name8, Items<u64>>,
    task: Name8,
    number: u64,
) -> Result<(), NoMemory>
    ensures { OnOk result (spans.new.entries ≡ put_number task number spans.old.entries) }
{
    spans.entry(task)?.or_insert(Items::new(alloc)).push(number)
}

impl Kept {
    // Adds a step at a cell.
    fn put_point(&mut self, moment: &Moment, cell: Cell) -> Result<(), NoMemory>
        ensures { OnOk result (self.new ≡ record (self.old) { points = self.new.points }
            × (self.new.points.entries ≡ put_point moment.now self.old.points.entries cell)) }
    {
        let task = moment.task;
        self.points.insert(Touched { task, cell }, moment.at)?;
        Ok(())
    }

    // Adds a look: at a single cell, or at several keys.
    fn add_look(&mut self, look: &Step) -> Result<(), NoMemory>
        ensures { OnOk result (self.new ≡ record (self.old) {
          points = self.new.points;
          spans = self.new.spans;
        } × (self.new.points.entries ≡ fold (put_point look.now.moment) self.old.points.entries (option_to_list (single look.now.act)))
            × (self.new.spans.entries ≡ put_span look.now self.old.spans.entries)) }
    {
        match look.act.single()? {
            Some(cell) => self.put_point(&look.moment, cell),
            None if matches!(look.act, Act::Look(_)) => {
                put_number(
                    self.alloc,
                    &mut self.spans,
                    look.moment.task,
                    look.moment.at,
                )
            }
            None => Ok(()),
        }
    }

    // Adds what is kept of a step.
    fn add(&mut self, step: &Step) -> Result<(), NoMemory>
        ensures turns { OnOk result (self.new.turns.entries ≡ insert_entry nat_cmp
            self.old.turns.entries step.now.moment.turn (latest_of step.now)) }
        ensures tasks { OnOk result (self.new.tasks.entries ≡ insert_entry bytes_cmp
            self.old.tasks.entries step.now.moment.task (latest_of step.now)) }
        ensures marks { OnOk result (self.new.marks.entries
            ≡ fold (put_mark (mark_of step.now)) self.old.marks.entries (cells_of step.now)) }
        ensures points { OnOk result (self.new.points.entries
            ≡ fold (put_point step.now.moment) self.old.points.entries (points step.now)) }
        ensures spans { OnOk result (self.new.spans.entries
            ≡ put_span step.now self.old.spans.entries) }
    {
        let Moment { at, turn, task, .. } = step.moment;
        let fate = fate_by(&step.act);
        self.turns.insert(turn, Latest { at, turn, fate })?;
        self.tasks.insert(task, Latest { at, turn, fate })?;
        let alloc = self.alloc;
        let mark = Mark {
            moment: step.moment,
            lasts: step.act.lasts(),
        };
        for cell in step.act.cells() {
            put_mark(alloc, &mut self.marks, cell.copy()?, mark)?;
            self.put_point(&step.moment, cell.copy()?)?;
        }
        self.add_look(step)
    }
}

// Keeps the last change of a cell that a look is at, if another task made it.
fn keep_seen(
    found: &mut BTreeMap<u64, Seen>,
    look: &Step,
    change: Option<&Mark>,
) -> Result<(), NoMemory>
    ensures { OnOk result (found.new.entries ≡ fold with_seen found.old.entries
        (of_another look.now (option_copied change.entry))) }
{
    match change {
        Some(change) if !is_same(&look.moment.task, &change.moment.task) => {
            let pair = Pair {
                look: look.moment,
                change: change.moment,
            };
            let lasts = change.lasts;
            found.insert(change.moment.at, Seen { pair, lasts })?;
            Ok(())
        }
        _ => Ok(()),
    }
}

// Returns whether the step of a number looks at a cell.
fn covers_at(steps: &[Step], cell: &Cell, number: u64) -> bool
    ensures { result ≡ covers_at steps.now cell.now number }
{
    match steps.get(number as usize) {
        Some(step) => step.act.looks_at(cell),
        None => false,
    }
}

// Returns the last of some numbers of steps whose step looks at a cell.
fn newest_look<'a>(steps: &[Step], numbers: &'a [u64], cell: &Cell) -> Option<&'a u64>
    ensures { option_copied result ≡ find (covers_at steps.now cell.now) (reverse numbers.now) }
{
    numbers
        .iter()
        .rev()
        .find(|number| covers_at(steps, cell, **number))
}

// Returns the greater of two numbers, if there are such.
fn newer(one: Option<u64>, other: Option<u64>) -> Option<u64>
    ensures { result ≡ newer one other }
{
    match (one, other) {
        (Some(one), Some(other)) => Some(one.max(other)),
        (Some(one), None) => Some(one),
        (None, other) => other,
    }
}

impl Past {
    /// Returns no steps. It takes no memory.
    pub fn new(alloc: Global) -> Past
        ensures { result ≡ [] }
    {
        Past {
            steps: Items::new(alloc),
            kept: Kept {
                alloc,
                turns: BTreeMap::new(alloc),
                tasks: BTreeMap::new(alloc),
                marks: BTreeMap::new(alloc),
                points: BTreeMap::new(alloc),
                spans: BTreeMap::new(alloc),
            },
        }
    }

    /// Returns the allocator of the steps.
    pub fn alloc(&self) -> Global {
        self.kept.alloc
    }

    /// Returns the steps, the oldest first.
    pub fn steps(&self) -> &[Step]
        ensures { result.now ≡ reverse self.now }
    {
        self.steps.as_slice()
    }

    // Returns the last step of a turn.
    fn latest_in(&self, turn: u64) -> Option<&Latest>
        ensures { option_copied result ≡ option_map latest_of (last_in turn self.now) }
    {
        self.kept.turns.get(&turn)
    }

    /// Returns the number of the last step of a turn, 0 without one.
    pub fn number_of(&self, turn: u64) -> u64
        ensures { result ≡ number_of (last_in turn self.now) }
    {
        match self.latest_in(turn) {
            Some(step) => step.at,
            None => 0,
        }
    }

    // Returns the last step of a task.
    fn latest_by(&self, task: &Name8) -> Option<&Latest>
        ensures { option_copied result ≡ option_map latest_of (find (is_by task.now) self.now) }
    {
        self.kept.tasks.get(task)
    }

    /// Returns how a turn ended.
    pub fn fate_of(&self, turn: u64) -> Fate
        ensures { result ≡ fate_of turn self.now }
    {
        match self.latest_in(turn) {
            Some(step) => step.fate,
            None => Fate::Open,
        }
    }

    /// Returns whether a change of a turn stands: it lasts, or the turn isn't backed out.
    pub fn stands(&self, lasts: bool, turn: u64) -> bool
        ensures { result ≡ (lasts || not (is_undone turn self.now)) }
    {
        lasts || self.fate_of(turn) != Fate::BackedOut
    }

    // Returns the last of some changes that stands.
    fn newest<'a>(&self, marks: &'a [Mark]) -> Option<&'a Mark>
        ensures { option_copied result ≡ find (is_standing self.now) (reverse marks.now) }
    {
        marks
            .iter()
            .rev()
            .find(|mark| self.stands(mark.lasts, mark.moment.turn))
    }

    /// Returns the last change of a cell that stands.
    pub fn last(&self, cell: &Cell) -> Option<&Mark>
        ensures { option_copied result ≡ option_map mark_of (last cell.now self.now) }
    {
        match self.kept.marks.get(cell) {
            Some(marks) => self.newest(marks.as_slice()),
            None => None,
        }
    }

    // Returns the step of a number.
    fn step(&self, number: u64) -> Option<&Step>
        ensures { option_copied result ≡ slice_get (reverse self.now) number }
    {
        self.steps().get(number as usize)
    }

    // Returns the number of the last look of a task at several keys that covers a cell.
    fn span(&self, at: &Touched) -> Option<u64>
        ensures { result ≡ find (covers_at (reverse self.now) at.now.cell)
            (reverse (numbers_at at.now.task (spans_of self.now))) }
    {
        match self.kept.spans.get(&at.task) {
            Some(numbers) => newest_look(self.steps(), numbers.as_slice(), &at.cell).copied(),
            None => None,
        }
    }

    /// Returns the last step by which a task looked at a cell or changed it.
    ///
    /// Cost: O(log steps + the task's looks at several keys, back to one that covers the cell).
    pub fn near(&self, at: &Touched) -> Option<&Step>
        ensures { option_copied result ≡ near at.now.task at.now.cell self.now }
    {
        let point = self.kept.points.get(at).copied();
        match newer(point, self.span(at)) {
            Some(number) => self.step(number),
            None => None,
        }
    }

    /// Returns whether what a task did is no step.
    ///
    /// Errors: `NoMemory`.
    pub fn is_no_step(&self, task: &Name8, act: &Act) -> Result<bool, NoMemory>
        ensures { IfOk result (λ no. no ≡ is_no_step task.now act.now self.now) }
    {
        let Act::LookForUpdate(file, key) = act else {
            return Ok(false);
        };
        let cell = Cell::Record(*file, key.copy()?);
        match self.near(&Touched { task: *task, cell }) {
            Some(step) => Ok(matches!(step.act, Act::Look(_))),
            None => Ok(false),
        }
    }

    /// Returns what a look sees, by the numbers of the changes. All that it is at lies between two
    /// cells, from `low` to `high`.
    ///
    /// Errors: `NoMemory`.
    pub fn see(&self, look: &Step, low: &Cell, high: &Cell) -> Result<BTreeMap<u64, Seen>, NoMemory>
        requires { view_ends look.now.act ≡ Some (low.now, high.now) }
        ensures { IfOk result (λ found. found.entries ≡ fold with_seen []
            (flat_map (seen_in self.now look.now) (filter (looks_at look.now) (cells self.now)))) }
    {
        let mut found = BTreeMap::new(self.kept.alloc);
        if low.cmp(high).is_gt() {
            return Ok(found);
        }
        for (cell, marks) in self.kept.marks.range(low..=high) {
            if look.act.looks_at(cell) {
                keep_seen(&mut found, look, self.newest(marks.as_slice()))?;
            }
        }
        Ok(found)
    }

    /// Returns the moment of a task's next step.
    pub fn next_moment(&self, line: u64, task: Name8) -> Moment
        ensures { result ≡ next_moment line task self.now }
    {
        let at = self.steps.len() as u64;
        let turn = match self.latest_by(&task) {
            Some(step) if step.fate == Fate::Open => step.turn,
            _ => at,
        };
        Moment {
            at,
            line,
            task,
            turn,
        }
    }

    /// Adds a step, whose number is how many there are.
    pub fn with_step(self, step: Step) -> Result<Past, NoMemory>
        requires { step.moment.at ≡ length self }
        ensures { IfOk result (λ past. past ≡ step ∷ self) }
    {
        let Past {
            mut steps,
            mut kept,
        } = self;
        kept.add(&step)?;
        steps.push(step)?;
        Ok(Past { steps, kept })
    }
}
