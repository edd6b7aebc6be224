//! The parts of an ending.

ghost use Rattle.std.specs.Prelude.{◌≡◌, ◌++◌, IfOk, OnOk};
ghost use Rattle.cics_orders.specs.Report.Parts.{mark};
ghost use Rattle.cics_orders.specs.Endings.Telling.{told_parts, lane_parts, parts_of};

use crate::Lane;
use crate::endings::blocks::add_blocks;
use crate::endings::tasks::{task_part, told_part};
use cics_dispatch::Region;
use cics_dispatch::deadlocks::deadlocks;
use cics_names::{Items, Name8, NoMemory, Record};
use std::alloc::Global;

/// A region whose ending is told, with what its tasks were told or without.
#[derive(Clone, Copy)]
struct Told<'a> {
    alloc: Global,
    region: &'a Region,
    with_told: bool,
}

// Returns the text of a mark.
fn mark_text(is_deadlock: bool) -> &'static str
    ensures { result.now ≡ mark is_deadlock }
{
    if is_deadlock { " DEADLOCK" } else { "" }
}

// Adds what a task was told of each line that was answered.
fn add_told(
    alloc: Global,
    parts: &mut Items<Record>,
    label: &Name8,
    lane: &Lane,
) -> Result<(), NoMemory>
    ensures { OnOk result (parts.new
        ≡ parts.old ++ told_parts label.now lane.now.lines lane.now.told) }
{
    let lines = lane.lines.as_slice();
    let told = lane.told.as_slice();
    for i in 0..lines.len().min(told.len()) {
        parts.push(told_part(alloc, label, lines[i].0, &told[i])?)?;
    }
    Ok(())
}

// Adds the parts of the task of a lane.
fn add_task(told: Told<'_>, parts: &mut Items<Record>, lane: &Lane) -> Result<(), NoMemory>
    ensures { OnOk result (parts.new
        ≡ parts.old ++ lane_parts told.entry.region.now.machine told.entry.with_told lane.now) }
{
    let Some(label) = &lane.label else {
        return Ok(());
    };
    parts.push(task_part(told.alloc, told.region, label, lane)?)?;
    if !told.with_told {
        return Ok(());
    }
    add_told(told.alloc, parts, label, lane)
}

/// Returns the parts of an ending: its mark, the block of each file and queue, and the line of each
/// task in the order of attach. If `with_told`, what a task was told of each of its lines that was
/// answered follows its line.
///
/// Errors: `NoMemory`. Cost: that of `deadlocks` and of `Region::listing`, and O(bytes of the
/// parts).
pub fn parts_of(
    alloc: Global,
    region: &Region,
    with_told: bool,
    lanes: &[Lane],
) -> Result<Items<Record>, NoMemory>
    ensures { IfOk result (λ parts. parts ≡ parts_of region.now.machine with_told lanes.now) }
{
    let mut parts = Items::new(alloc);
    let mark = mark_text(deadlocks(alloc, region)?.len() > 0);
    parts.push(Record::from_slice(alloc, mark.as_bytes())?)?;
    add_blocks(alloc, &mut parts, region)?;
    let told = Told {
        alloc,
        region,
        with_told,
    };
    for lane in lanes {
        add_task(told, &mut parts, lane)?;
    }
    Ok(parts)
}
