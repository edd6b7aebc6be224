//! The bars of units of work in the lanes, and the rings of deadlocks. Also the diamonds of changes
//! that no backout undoes, and the dashed rings of reads that show what isn't committed.

ghost use Rattle.std.specs.Prelude.{◌≡◌, ◌++◌, ◌-◌, ◌<◌, ◌≤◌, length, IfSome, OnOk};
ghost use Rattle.std.specs.List.{flat_map};
ghost use Rattle.cics_picture.specs.Lanes.{most_lanes, row_y};
ghost use Rattle.cics_picture.specs.Bars.{new_lanes, nobodies, lane_at, lanes_behind, has_same};
ghost use Rattle.cics_picture.specs.Bars.{noted, gone, lane_behind, ended, is_caught, fill_of};
ghost use Rattle.cics_picture.specs.Bars.{new_blocker, fill_class, bar_text};
ghost use Rattle.cics_picture.specs.Drawings.{drawn_of, moved_if, ring_if, stays_if, shows_if};
ghost use Rattle.cics_picture.specs.Drawings.{turned, turned_from};
ghost use Rattle.cics_picture.specs.Drawings.{any_caught};
ghost use Rattle.cics_picture.specs.Drawings.{word_if, with_end, finished};

use crate::drawing::Drawing;
use crate::elements::{push_arrow, push_field, push_link, push_shape, push_words};
use crate::events::RowKind;
use crate::lanes::{MOST_LANES, lane_x, row_y};
use cics_names::{Items, NoMemory};
use cics_script::spelling::Part;

/// How the task of a lane stands after a line of the script.
#[derive(Clone, Copy, PartialEq, Eq)]
pub struct Standing {
    /// The number of its open unit of work, if it has one.
    pub unit: Option<u64>,
    /// Whether it is in a deadlock.
    pub is_deadlocked: bool,
    /// The number of the task that blocks it, if it waits: that is its lane, if it has one.
    pub blocker: Option<usize>,
    /// Whether its unit changed an unrecoverable file or queue in the line: no backout undoes that.
    pub stays: bool,
    /// If it read what another task's unit has changed and not committed: the lane of that task, or
    /// `MOST_LANES` if it has none.
    pub shows: Option<usize>,
}

/// A lane so far, and how its task stands. `last` is the height of the row of its last event,
/// `top` the top of its open unit's bar. `asked` is the row at which the task last waited.
#[derive(Clone, Copy)]
pub struct Lane {
    pub last: u64,
    pub asked: u64,
    pub top: u64,
    pub standing: Standing,
}

/// The bar of a unit.
#[derive(Clone, Copy)]
pub struct Bar {
    pub unit: u64,
    pub x: u64,
    pub y: u64,
    pub height: u64,
}

/// How the bar of a unit is filled: lightly if the unit is open, wholly if it committed, not at all
/// if it was backed out.
#[derive(Clone, Copy, PartialEq, Eq)]
pub enum Fill {
    Open,
    Filled,
    Hollow,
}

/// No unit, no wait and no deadlock.
pub const NOBODY: Standing = Standing {
    unit: None,
    is_deadlocked: false,
    blocker: None,
    stays: false,
    shows: None,
};

/// A lane before the first event.
pub const NEW_LANE: Lane = Lane {
    last: 0,
    asked: 0,
    top: 0,
    standing: NOBODY,
};

/// Returns the lane of a number.
pub fn lane_at(lanes: &[Lane], lane: usize) -> Lane
    ensures { result ≡ lane_at lanes.now lane }
{
    match lanes.get(lane) {
        Some(lane) => *lane,
        None => NEW_LANE,
    }
}

// Returns a lane after an event of its own at a row.
fn noted(before: Lane, row: u64, kind: RowKind) -> Lane
    requires { row ≤ 100000 }
    ensures { result ≡ noted before row kind }
{
    let asked = match kind {
        RowKind::Waiting => row,
        _ => before.asked,
    };
    Lane {
        last: row_y(row),
        asked,
        top: before.top,
        standing: before.standing,
    }
}

/// Notes the row of an event in its lane, if it has one. If the task waits, that is noted too.
pub fn note_row(lanes: &mut [Lane; MOST_LANES], lane: Option<usize>, row: u64, kind: RowKind)
    requires lane { IfSome lane (λ l. l < most_lanes) }
    requires row { row ≤ 100000 }
    ensures { lanes.new ≡ lanes_behind lanes.old row kind lane }
{
    if let Some(lane) = lane {
        lanes[lane] = noted(lane_at(lanes, lane), row, kind);
    }
}

// Whether a task has the same unit as before, or none as before.
fn has_same(before: Option<u64>, now: Option<u64>) -> bool
    ensures { result ≡ has_same before now }
{
    match (before, now) {
        (None, None) => true,
        (Some(before), Some(now)) => before == now,
        _ => false,
    }
}

// Returns the unit that a task had before and hasn't now.
fn gone(before: Option<u64>, now: Option<u64>) -> Option<u64>
    ensures { result ≡ gone before now }
{
    if has_same(before, now) { None } else { before }
}

// Returns the lane of a task that stands so after a line, its last event at a row of this height.
fn lane_behind(before: Lane, y: u64, standing: Standing) -> Lane
    ensures { result ≡ lane_behind before y standing }
{
    let top = if has_same(before.standing.unit, standing.unit) {
        before.top
    } else {
        y.saturating_sub(8)
    };
    Lane {
        last: before.last,
        asked: before.asked,
        top,
        standing,
    }
}

// Adds the bar of a unit that has ended, from its top to a row.
fn push_ended(
    bars: &mut Items<Bar>,
    lane: usize,
    ends: (u64, u64),
    unit: Option<u64>,
) -> Result<(), NoMemory>
    requires { lane < most_lanes }
    ensures { OnOk result (bars.new ≡ bars.old ++ ended lane ends.0 ends.1 unit) }
{
    match unit {
        Some(unit) => bars.push(Bar {
            unit,
            x: lane_x(lane) - 7,
            y: ends.0,
            height: ends.1.saturating_sub(ends.0),
        }),
        None => Ok(()),
    }
}

// Returns whether a task is in a deadlock, and was in none before.
fn is_caught(before: &Lane, standing: &Standing) -> bool
    ensures { result ≡ is_caught before.now standing.now }
{
    standing.is_deadlocked && !before.standing.is_deadlocked
}

// Returns the task that blocks a waiting one now, if another one did before.
fn new_blocker(before: &Lane, standing: &Standing) -> Option<usize>
    ensures { result ≡ new_blocker before.now.standing.blocker standing.now.blocker }
{
    let former = before.standing.blocker?;
    let blocker = standing.blocker?;
    if former == blocker {
        None
    } else {
        Some(blocker)
    }
}

// Puts an arrow to a task that blocks a lane's now, if that has a lane, and a dot where it begins.
fn push_moved_if(
    out: &mut Vec<u8>,
    blocker: Option<usize>,
    lane: usize,
    y: u64,
) -> Result<(), NoMemory>
    requires { lane < most_lanes }
    ensures { OnOk result (out.new.items ≡ out.old.items ++ moved_if blocker lane y) }
{
    let Some(holder) = blocker else {
        return Ok(());
    };
    if holder >= MOST_LANES {
        return Ok(());
    }
    push_arrow(out, lane, holder, y)?;
    let dot = "M-3 0a3 3 0 1 0 6 0a3 3 0 1 0 -6 0z";
    push_shape(out, "fw".as_bytes(), dot.as_bytes(), (lane_x(lane), y))
}

// Puts a ring round the lane of a task that is caught in a deadlock.
fn push_ring_if(out: &mut Vec<u8>, caught: bool, lane: usize, y: u64) -> Result<(), NoMemory>
    requires { lane < most_lanes }
    ensures { OnOk result (out.new.items ≡ out.old.items ++ ring_if caught lane y) }
{
    if !caught {
        return Ok(());
    }
    push_shape(
        out,
        "dl".as_bytes(),
        "M-10 0a10 10 0 1 0 20 0a10 10 0 1 0 -20 0z".as_bytes(),
        (lane_x(lane), y),
    )
}

// Puts a diamond round the mark of a change that stays.
fn push_stays_if(out: &mut Vec<u8>, stays: bool, lane: usize, y: u64) -> Result<(), NoMemory>
    requires { lane < most_lanes }
    ensures { OnOk result (out.new.items ≡ out.old.items ++ stays_if stays lane y) }
{
    if !stays {
        return Ok(());
    }
    let diamond = "M0 -10l10 10l-10 10l-10 -10z";
    push_shape(out, "st".as_bytes(), diamond.as_bytes(), (lane_x(lane), y))
}

// Puts a line to the lane of the task whose change a read shows, if that task has one. Then it puts
// a dashed ring round the mark of the read.
fn push_shows_if(
    out: &mut Vec<u8>,
    shows: Option<usize>,
    lane: usize,
    y: u64,
) -> Result<(), NoMemory>
    requires { lane < most_lanes }
    ensures { OnOk result (out.new.items ≡ out.old.items ++ shows_if shows lane y) }
{
    let Some(changer) = shows else {
        return Ok(());
    };
    if changer < MOST_LANES {
        push_link(out, lane, changer, y)?;
    }
    let ring = "M-9 0a9 9 0 1 0 18 0a9 9 0 1 0 -18 0z";
    push_shape(out, "un".as_bytes(), ring.as_bytes(), (lane_x(lane), y))
}

// Whether a task is caught in a deadlock.
fn any_caught(lanes: &[Lane], standings: &[Standing]) -> bool
    ensures { result ≡ any_caught lanes.now 0 standings.now }
{
    for (lane, standing) in standings.iter().enumerate() {
        if is_caught(&lane_at(lanes, lane), standing) {
            return true;
        }
    }
    false
}

// Puts the word at the row that closes a deadlock.
fn push_word_if(out: &mut Vec<u8>, caught: bool, y: u64) -> Result<(), NoMemory>
    ensures { OnOk result (out.new.items ≡ out.old.items ++ word_if caught y) }
{
    if !caught {
        return Ok(());
    }
    push_words(out, "ma e".as_bytes(), (1264, y), &[Part::Str("deadlock")])
}

/// Returns lanes before the first event.
#[tactic(auto, unfolding(crate::specs::Bars::new_lanes))]
pub fn new_lanes() -> [Lane; MOST_LANES]
    ensures { result ≡ new_lanes }
{
    [NEW_LANE; MOST_LANES]
}

// Returns nobody in any lane.
#[tactic(auto, unfolding(crate::specs::Bars::nobodies))]
fn nobodies() -> [Standing; MOST_LANES]
    ensures value { result ≡ nobodies }
    ensures few { length result ≤ most_lanes }
{
    [NOBODY; MOST_LANES]
}

impl Drawing {
    // The height of the last row.
    fn last_y(&self) -> u64
        ensures value { result ≡ row_y (self.now.rows - 1) }
        ensures within { result ≤ 2200120 }
    {
        row_y(self.rows.saturating_sub(1))
    }

    // Turns a lane to how its task stands after a line whose first row has this height.
    fn turn(&mut self, lane: usize, first: u64, standing: Standing) -> Result<(), NoMemory>
        requires { lane < most_lanes }
        ensures { OnOk result (drawn_of self.new
            ≡ turned first lane standing (drawn_of self.old)) }
    {
        let before = lane_at(&self.lanes, lane);
        let blocker = new_blocker(&before, &standing);
        let caught = is_caught(&before, &standing);
        let y = before.last.max(first);
        let last_y = self.last_y();
        let unit = gone(before.standing.unit, standing.unit);
        push_ended(&mut self.bars, lane, (before.top, y), unit)?;
        push_moved_if(&mut self.marks, blocker, lane, last_y)?;
        push_ring_if(&mut self.marks, caught, lane, last_y)?;
        push_stays_if(&mut self.marks, standing.stays, lane, before.last)?;
        push_shows_if(&mut self.marks, standing.shows, lane, before.last)?;
        self.lanes[lane] = lane_behind(before, y, standing);
        Ok(())
    }

    fn turn_all(&mut self, first: u64, standings: &[Standing]) -> Result<(), NoMemory>
        requires { length standings.now ≤ most_lanes }
        ensures { OnOk result (drawn_of self.new
            ≡ turned_from first 0 standings.now (drawn_of self.old)) }
    {
        for (lane, standing) in standings.iter().enumerate() {
            self.turn(lane, first, *standing)?;
        }
        Ok(())
    }

    /// Ends a line of the script whose first row has this height. `standings` says how the task of
    /// each lane stands after it.
    pub fn end_line(&mut self, first: u64, standings: &[Standing]) -> Result<(), NoMemory>
        requires { length standings.now ≤ most_lanes }
        ensures { OnOk result (drawn_of self.new
            ≡ with_end first standings.now (drawn_of self.old)) }
    {
        let y = self.last_y() + 4;
        push_word_if(&mut self.texts, any_caught(&self.lanes, standings), y)?;
        self.turn_all(first, standings)
    }

    /// Ends the bars of the units that are open, below the last row.
    pub fn finish(&mut self) -> Result<(), NoMemory>
        ensures { OnOk result (drawn_of self.new ≡ finished (drawn_of self.old)) }
    {
        self.end_line(row_y(self.rows), &nobodies())
    }
}

// Returns the fill of a unit's bar.
fn fill_of(fills: &[Fill], unit: u64) -> Fill
    ensures { result ≡ fill_of fills.now unit }
{
    match fills.get(unit as usize) {
        Some(fill) => *fill,
        None => Fill::Open,
    }
}

// Returns the class of a fill.
fn fill_class(fill: Fill) -> &'static str
    ensures { result.now ≡ fill_class fill }
{
    match fill {
        Fill::Open => "uo",
        Fill::Filled => "uf",
        Fill::Hollow => "uh",
    }
}

/// Puts the bars of units. `fills` has that of each unit's bar, by the unit's number.
pub fn push_bars(out: &mut Vec<u8>, fills: &[Fill], bars: &[Bar]) -> Result<(), NoMemory>
    ensures { OnOk result (out.new.items
        ≡ out.old.items ++ flat_map (bar_text fills.now) bars.now) }
{
    for bar in bars {
        let class = fill_class(fill_of(fills, bar.unit));
        push_field(out, class.as_bytes(), (bar.x, bar.y), (14, bar.height))?;
    }
    Ok(())
}
