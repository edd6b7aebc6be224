//! The orders of a script.

ghost use Rattle.std.specs.Prelude.{IfOk};
ghost use Rattle.cics_orders.specs.Plans.Taking.{initial_taken, taken_apart, planned};
ghost use Rattle.cics_orders.specs.Command.Surveys.{IsSurvey};

use crate::plans::{Planned, ScriptFault, plan_of};
use crate::search::{Progress, Report, ToldPlan, explore_script};
use cics_names::{NoMemory, Record};
use cics_run::session::Orders;
use std::alloc::Global;

/// A script taken apart, and the report on its orders.
#[derive(Drop)]
pub struct Survey {
    pub planned: Planned,
    pub report: Report,
}

/// Takes a script apart, and follows the orders of its lines within the limit `wanted.limit`, as
/// `crate::search::explore` does. `lines` are its lines, each without its line end. `wanted.told`
/// tells endings apart by what tasks were told too. If a line has a fault, returns the number of
/// the first such line and its fault instead.
///
/// Errors: `NoMemory`. Cost: that of `explore_script`.
pub fn survey_script<P: Progress>(
    alloc: Global,
    lines: &[Record],
    wanted: Orders,
    progress: &mut P,
) -> Result<Result<Survey, (u64, ScriptFault)>, NoMemory>
    ensures { IfOk result (IsSurvey (planned (taken_apart initial_taken 1 lines.now)) wanted) }
{
    let planned = match plan_of(alloc, lines)? {
        Ok(planned) => planned,
        Err(fault) => return Ok(Err(fault)),
    };
    // `explore_script` takes a plan of its own.
    let own = match plan_of(alloc, lines)? {
        Ok(own) => own,
        Err(fault) => return Ok(Err(fault)),
    };
    let told = ToldPlan {
        plan: own.plan,
        told: wanted.told,
    };
    let report = explore_script(alloc, told, wanted.limit, progress)?;
    Ok(Ok(Survey { planned, report }))
}
