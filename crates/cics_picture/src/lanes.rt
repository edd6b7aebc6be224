//! Which tasks have lanes, and where these are.

ghost use Rattle.std.specs.Prelude.{◌≡◌, ◌<◌, ◌≤◌, length, IfSome, OnOk, OnErr};
ghost use Rattle.cics_names.specs.Keyed.{is_same};
ghost use Rattle.cics_picture.specs.Lanes.{lane_from, lane_of, with_lane, tasks_behind};
ghost use Rattle.cics_picture.specs.Lanes.{lane_x, row_y, most_lanes};

use crate::events::{RowKind, Told};
use cics_names::{Items, Name8, NoMemory};

/// How many tasks have lanes at most.
pub const MOST_LANES: usize = 16;

/// Returns whether two names are the same.
pub fn is_same(label: &Name8, other: &Name8) -> bool
    ensures { result ≡ is_same label.now other.now }
{
    *label == *other
}

// Returns the lane of the task with a label, if it has one.
fn labelled_lane(tasks: &[Name8], label: &Name8) -> Option<usize>
    ensures value { result ≡ lane_from 0 tasks.now label.now }
    ensures within { IfSome result (λ lane. lane < length tasks.now) }
{
    for (lane, task) in tasks.iter().enumerate() {
        if is_same(task, label) {
            return Some(lane);
        }
    }
    None
}

/// Returns the lane of a task, if there is one and it has a lane.
///
/// Cost: O(lanes).
pub fn lane_of(tasks: &[Name8], task: Option<Name8>) -> Option<usize>
    ensures value { result ≡ lane_of tasks.now task }
    ensures within { IfSome result (λ lane. lane < length tasks.now) }
{
    match task {
        Some(label) => labelled_lane(tasks, &label),
        None => None,
    }
}

// Gives a task a lane, if there is room.
fn push_lane(tasks: &mut Items<Name8>, task: Option<Name8>) -> Result<(), NoMemory>
    requires { length tasks.old ≤ most_lanes }
    ensures ok { OnOk result (tasks.new ≡ with_lane tasks.old task) }
    ensures within { length tasks.new ≤ most_lanes }
    ensures err { OnErr result (tasks.new ≡ tasks.old) }
{
    match task {
        Some(label) if tasks.len() < MOST_LANES => tasks.push(label),
        _ => Ok(()),
    }
}

/// Gives the task that a row attaches a lane, if there is room.
pub fn give_lane(tasks: &mut Items<Name8>, told: &Told) -> Result<(), NoMemory>
    requires { length tasks.old ≤ most_lanes }
    ensures ok { OnOk result (tasks.new ≡ tasks_behind tasks.old told.now) }
    ensures within { length tasks.new ≤ most_lanes }
    ensures err { OnErr result (tasks.new ≡ tasks.old) }
{
    match told.kind {
        RowKind::Attached => push_lane(tasks, told.task),
        _ => Ok(()),
    }
}

/// Returns the middle of a row.
pub fn row_y(row: u64) -> u64
    requires { row ≤ 100000 }
    ensures value { result ≡ row_y row }
    ensures within { result ≤ 2200120 }
{
    120 + 22 * row
}

/// Returns the middle of a lane.
pub fn lane_x(lane: usize) -> u64
    requires { lane < most_lanes }
    ensures { result ≡ lane_x lane }
{
    96 + 60 * (lane as u64)
}
