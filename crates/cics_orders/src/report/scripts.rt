//! An order as a script.

ghost use Rattle.std.specs.Prelude.{◌≡◌, ◌++◌, OnOk, IfOk, option_copied};
ghost use Rattle.std.specs.List.{flat_map};
ghost use Rattle.cics_orders.specs.Report.Reporting.{script_line, ending_at, run_text, title_text};
ghost use Rattle.cics_orders.specs.Report.Reporting.{script_at, Puts};

use crate::plans::Plan;
use crate::report::along::lines_along;
use crate::report::counts::{push_count, push_heading};
use crate::search::Report;
use crate::space::Ending;
use cics_names::{NoMemory, Record};
use cics_script::spelling::{Part, push_parts};

// Appends a line as it stands in the script.
fn push_line(out: &mut Vec<u8>, line: &(u64, Record)) -> Result<(), NoMemory>
    ensures { OnOk result (out.new.items ≡ out.old.items ++ script_line line.now) }
{
    push_parts(out, &[Part::Bytes(line.1.bytes()), Part::Str("\n")])
}

fn push_lines(out: &mut Vec<u8>, lines: &[(u64, Record)]) -> Result<(), NoMemory>
    ensures { OnOk result (out.new.items ≡ out.old.items ++ flat_map script_line lines.now) }
{
    for line in lines {
        push_line(out, line)?;
    }
    Ok(())
}

// Appends the lines that define and attach, and behind them those of an order.
fn push_run(out: &mut Vec<u8>, plan: &Plan, order: &[usize]) -> Result<(), NoMemory>
    ensures { OnOk result (out.new.items ≡ out.old.items ++ run_text plan.now order.now) }
{
    let lines = lines_along(*out.allocator(), plan, order)?;
    push_lines(out, plan.definitions.as_slice())?;
    for task in plan.tasks.as_slice() {
        push_line(out, &task.attach)?;
    }
    push_lines(out, lines.as_slice())
}

// Returns the ending of a number, from 1 on.
fn ending_at(endings: &[Ending], number: u64) -> Option<&Ending>
    ensures { option_copied result ≡ ending_at endings.now number }
{
    if number == 0 {
        return None;
    }
    endings.get((number - 1) as usize)
}

// Appends which ending a script leads to, and how many orders do.
fn push_title(
    out: &mut Vec<u8>,
    report: &Report,
    number: u64,
    ending: &Ending,
) -> Result<(), NoMemory>
    ensures { OnOk result (out.new.items
        ≡ out.old.items ++ title_text report.now number ending.now) }
{
    push_parts(out, &[Part::Str("* ENDING "), Part::Number(number)])?;
    push_count(out, " OF ", report.is_whole, report.endings.len() as u128)?;
    push_heading(out, report, ending)
}

/// Appends the first order of the ending with this number, as a script. Returns whether there is
/// such an ending. Endings are numbered from 1 on.
///
/// Errors: `NoMemory`. Cost: O(bytes that it appends).
pub fn push_script(
    out: &mut Vec<u8>,
    plan: &Plan,
    report: &Report,
    number: u64,
) -> Result<bool, NoMemory>
    ensures { IfOk result (Puts (script_at plan.now report.now number)
        out.old.items out.new.items) }
{
    match ending_at(report.endings.as_slice(), number) {
        Some(ending) => {
            push_title(out, report, number, ending)?;
            push_run(out, plan, ending.order())?;
            Ok(true)
        }
        None => Ok(false),
    }
}
