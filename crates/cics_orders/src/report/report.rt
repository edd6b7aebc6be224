//! The report on the orders of a script's lines.

ghost use Rattle.std.specs.Prelude.{◌≡◌, ◌++◌, OnOk};
ghost use Rattle.std.specs.List.{flat_map};
ghost use Rattle.cics_orders.specs.Report.Reporting.{fault_text, refused_text, word_of, word_text};
ghost use Rattle.cics_orders.specs.Report.Reporting.{order_text, numbered_text, ending_text, endings_text};
ghost use Rattle.cics_orders.specs.Report.Reporting.{every_text, report_text};

use crate::plans::{Plan, Planned, RefusedLine, ScriptFault, read};
use crate::report::along::lines_along;
use crate::report::counts::{push_heading, push_limit, push_totals};
use crate::report::findings::push_amiss;
use crate::report::open::push_open_tasks;
use crate::report::parts::{push_own, shared, told_in};
use crate::search::Report;
use crate::space::Ending;
use cics_dispatch::{Event, Subject};
use cics_names::{NoMemory, Record};
use cics_run::session::Orders;
use cics_run::stage::{Fault, journal};
use cics_script::spelling::{Part, push_bare, push_parts, push_str};
use cics_script::{Line, LineFault};

/// Appends the fault of a script, as a plain run prints it: that of the line with this number.
///
/// Errors: `NoMemory`.
pub fn push_fault(out: &mut Vec<u8>, number: u64, fault: ScriptFault) -> Result<(), NoMemory>
    ensures { OnOk result (out.new.items ≡ out.old.items ++ fault_text number fault) }
{
    let fault = match fault {
        ScriptFault::Line(fault) => Fault::Line(fault),
        ScriptFault::Definition(fault) => Fault::Definition(fault),
    };
    journal::push_fault(out, number, fault)
}

// Appends a line that is refused in every order.
fn push_refused_line(out: &mut Vec<u8>, line: &RefusedLine) -> Result<(), NoMemory>
    ensures { OnOk result (out.new.items ≡ out.old.items ++ refused_text line.now) }
{
    push_parts(
        out,
        &[
            Part::Str("LINE "),
            Part::Number(line.number),
            Part::Str(" "),
        ],
    )?;
    journal::push_event(
        out,
        &Event::Refused(Subject::Task(line.label), line.refusal),
    )
}

fn push_refused_lines(out: &mut Vec<u8>, lines: &[RefusedLine]) -> Result<(), NoMemory>
    ensures { OnOk result (out.new.items ≡ out.old.items ++ flat_map refused_text lines.now) }
{
    for line in lines {
        push_refused_line(out, line)?;
    }
    Ok(())
}

// Appends the word of a line that was read.
fn push_word(out: &mut Vec<u8>, says: &Result<Line, LineFault>) -> Result<(), NoMemory>
    ensures { OnOk result (out.new.items ≡ out.old.items ++ word_of says.now) }
{
    match says {
        Ok(Line::Issue(label, _)) => push_bare(out, &label.bytes()),
        Ok(Line::Clock(_)) => push_str(out, "CLOCK"),
        Ok(Line::Shutdown) => push_str(out, "SHUTDOWN"),
        _ => Ok(()),
    }
}

// Appends the word of a line in an order.
fn push_next_word(out: &mut Vec<u8>, next: &(u64, Record)) -> Result<(), NoMemory>
    ensures { OnOk result (out.new.items ≡ out.old.items ++ word_text next.now) }
{
    push_str(out, " ")?;
    let says = read(*out.allocator(), next.1.bytes())?;
    push_word(out, &says)
}

// Appends an order.
fn push_order(out: &mut Vec<u8>, plan: &Plan, order: &[usize]) -> Result<(), NoMemory>
    ensures { OnOk result (out.new.items ≡ out.old.items ++ order_text plan.now order.now) }
{
    let lines = lines_along(*out.allocator(), plan, order)?;
    push_str(out, "ORDER")?;
    for next in lines.as_slice() {
        push_next_word(out, next)?;
    }
    push_str(out, "\n")
}

// Appends the number of an ending, and how many orders lead to it.
fn push_numbered(
    out: &mut Vec<u8>,
    report: &Report,
    number: u64,
    ending: &Ending,
) -> Result<(), NoMemory>
    ensures { OnOk result (out.new.items
        ≡ out.old.items ++ numbered_text report.now number ending.now) }
{
    push_parts(out, &[Part::Str("ENDING "), Part::Number(number)])?;
    push_heading(out, report, ending)
}

// How endings are told: by the plan, whether with what reads saw and missed, and the parts that
// each ending has.
#[derive(Clone, Copy)]
struct Telling<'a> {
    plan: &'a Plan,
    reads: bool,
    all: &'a [Record],
}

// Appends the first order of an ending, if wanted what is amiss in its reads, and those of its
// parts that some ending lacks.
fn push_ending(out: &mut Vec<u8>, telling: &Telling<'_>, ending: &Ending) -> Result<(), NoMemory>
    ensures { OnOk result (out.new.items ≡ out.old.items ++ ending_text telling.now.reads
        telling.now.plan.now telling.now.all.now ending.now) }
{
    push_order(out, telling.plan, ending.order())?;
    if telling.reads {
        push_amiss(out, telling.plan, ending.order())?;
    }
    push_own(out, telling.all, told_in(ending.parts()))
}

// Appends each ending.
#[tactic(auto, unfolding(crate::specs::Report::Reporting::endings_text))]
fn push_endings(out: &mut Vec<u8>, telling: &Telling<'_>, report: &Report) -> Result<(), NoMemory>
    ensures { OnOk result (out.new.items ≡ out.old.items ++ endings_text telling.now.reads
        telling.now.plan.now report.now telling.now.all.now 1 report.now.endings) }
{
    let endings = report.endings.as_slice();
    for i in 0..endings.len() {
        push_numbered(out, report, i as u64 + 1, &endings[i])?;
        push_ending(out, telling, &endings[i])?;
    }
    Ok(())
}

// Appends the parts that each ending has.
#[tactic(auto, unfolding(crate::specs::Report::Reporting::every_text))]
fn push_every(out: &mut Vec<u8>, all: &[Record]) -> Result<(), NoMemory>
    ensures { OnOk result (out.new.items ≡ out.old.items ++ every_text all.now) }
{
    if all.is_empty() {
        return Ok(());
    }
    push_str(out, "EVERY ENDING\n")?;
    push_own(out, &[], all)
}

/// Appends the report on the orders of a script's lines, which were followed within a limit
/// (`wanted.limit`). With `wanted.reads` each order that is told is run once more, for what its
/// reads saw and missed.
///
/// Errors: `NoMemory`. Cost: O(endings * parts * parts of the first ending), O(bytes of the lines)
/// for each order, that of those runs, and the bytes written.
pub fn push_report(
    out: &mut Vec<u8>,
    planned: &Planned,
    wanted: Orders,
    report: &Report,
) -> Result<(), NoMemory>
    ensures { OnOk result (out.new.items
        ≡ out.old.items ++ report_text planned.now wanted report.now) }
{
    let all = shared(*out.allocator(), report.endings.as_slice())?;
    push_refused_lines(out, planned.refused.as_slice())?;
    push_open_tasks(out, planned.plan.tasks.as_slice())?;
    push_limit(out, report, wanted.limit)?;
    push_totals(out, report)?;
    push_every(out, all.as_slice())?;
    let telling = Telling {
        plan: &planned.plan,
        reads: wanted.reads,
        all: all.as_slice(),
    };
    push_endings(out, &telling, report)
}
