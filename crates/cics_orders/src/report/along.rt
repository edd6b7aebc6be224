//! The lines of an order.

ghost use Rattle.std.specs.Prelude.{◌≡◌, IfOk, OnOk};
ghost use Rattle.cics_orders.specs.Report.Along.{lane_lines, given_more, lines_along};

use crate::plans::Plan;
use cics_names::{Items, NoMemory, Record};
use std::alloc::Global;

// Returns the lines of a lane.
fn lane_lines(plan: &Plan, lane: usize) -> &[(u64, Record)]
    ensures { result.now ≡ lane_lines plan.now lane }
{
    match plan.tasks.as_slice().get(lane) {
        Some(task) => task.lines.as_slice(),
        None => plan.clock.as_slice(),
    }
}

// Adds the next line of a lane, if it has one left.
fn give(
    plan: &Plan,
    given: &mut Vec<usize>,
    lines: &mut Items<(u64, Record)>,
    lane: usize,
) -> Result<(), NoMemory>
    ensures { OnOk result ((given.new.items, lines.new)
        ≡ given_more plan.now (given.old.items, lines.old) lane) }
{
    let at = given.get(lane).copied().unwrap_or(0);
    if let Some((number, bytes)) = lane_lines(plan, lane).get(at) {
        lines.push((*number, bytes.copy()?))?;
        if lane < given.len() {
            given[lane] = at + 1;
        }
    }
    Ok(())
}

/// Returns the lines of an order, each with its number.
pub(crate) fn lines_along(
    alloc: Global,
    plan: &Plan,
    order: &[usize],
) -> Result<Items<(u64, Record)>, NoMemory>
    ensures { IfOk result (λ lines. lines ≡ lines_along plan.now order.now) }
{
    let tasks = plan.tasks.as_slice();
    let mut given = vec![in alloc; 0usize; tasks.len() + 1]?;
    let mut lines = Items::new(alloc);
    for lane in order {
        give(plan, &mut given, &mut lines, *lane)?;
    }
    Ok(lines)
}
