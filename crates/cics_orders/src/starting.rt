//! The region that each order of a plan starts from.

ghost use Rattle.std.specs.Prelude.{◌≡◌, IfOk, OnOk};
ghost use Rattle.cics_script.specs.Lines.{line};
ghost use Rattle.cics_dispatch.specs.Machine.Machine.{initial_region};
ghost use Rattle.std.specs.List.{fold};
ghost use Rattle.cics_orders.specs.Plans.Defining.{defined_by};
ghost use Rattle.cics_orders.specs.Giving.{opened, with_task};

use crate::plans::{TaskPlan, define, read};
use cics_dispatch::{Region, Request};
use cics_names::{NoMemory, Record};
use cics_units::Opening;
use std::alloc::Global;

// Defines or loads what a line says.
#[tactic(auto, unfolding(crate::specs::Plans::Defining::defined_by))]
fn define_next(alloc: Global, opening: &mut Opening, bytes: &[u8]) -> Result<(), NoMemory>
    ensures { OnOk result (opening.new ≡ defined_by opening.old (line bytes.now)) }
{
    match read(alloc, bytes)? {
        Ok(line) => match define(opening, line) {
            Ok(()) => Ok(()),
            // A plan of `plan_of` has no such fault. That of another plan counts as `NoMemory`.
            Err(_) => Err(NoMemory),
        },
        Err(_) => Ok(()),
    }
}

/// Returns what lines define and load.
///
/// Errors: `NoMemory`.
pub(crate) fn opened(alloc: Global, lines: &[(u64, Record)]) -> Result<Opening, NoMemory>
    ensures { IfOk result (λ opening. opening ≡ opened lines.now) }
{
    let mut opening = Opening::new(alloc);
    for (_, bytes) in lines {
        define_next(alloc, &mut opening, bytes.bytes())?;
    }
    Ok(opening)
}

/// Returns the region before the first line: what is defined and loaded is there, and the tasks are
/// attached.
///
/// Errors: `NoMemory`.
#[tactic(auto, unfolding(crate::specs::Giving::with_task))]
pub(crate) fn initial_region(opening: &Opening, tasks: &[TaskPlan]) -> Result<Region, NoMemory>
    ensures { IfOk result (λ region. region.machine
        ≡ fold with_task (initial_region opening.now) tasks.now) }
{
    let Ok(mut region) = Region::new(opening.copy()?) else {
        return Err(NoMemory);
    };
    for task in tasks {
        region.play(Request::Attach {
            label: task.label,
            transaction: task.transaction,
            dtimout: task.dtimout,
        })?;
    }
    Ok(region)
}
