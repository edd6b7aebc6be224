//! The numbers of a report.

ghost use Rattle.std.specs.Prelude.{◌≡◌, ◌++◌, OnOk};
ghost use Rattle.std.specs.Fmt.{decimal};
ghost use Rattle.cics_orders.specs.Report.Reporting.{bound_text, count_text, both_text, heading_text};
ghost use Rattle.cics_orders.specs.Report.Reporting.{all_orders, serial_orders, serial_endings};
ghost use Rattle.cics_orders.specs.Report.Reporting.{limit_text, totals_text, has_parts};
ghost use Rattle.cics_orders.specs.Report.Parts.{written_mark};

use crate::report::parts::mark_in;
use crate::search::Report;
use crate::space::Ending;
use cics_names::{Items, NoMemory, Record};
use cics_script::spelling::{Part, push_parts, push_str};

// Returns the words before a number. It is a lower bound if orders were left out, and so is the
// greatest number that is kept.
fn bound_text(has_all: bool, count: u128) -> &'static str
    ensures { result.now ≡ bound_text has_all count }
{
    if has_all && count < u128::MAX {
        return "";
    }
    "AT LEAST "
}

// Appends a number in decimal.
fn push_wide(out: &mut Vec<u8>, number: u128) -> Result<(), NoMemory>
    ensures { OnOk result (out.new.items ≡ out.old.items ++ decimal number) }
{
    if number >= 10 {
        push_wide(out, number / 10)?;
    }
    out.push(b'0' + (number % 10) as u8)?;
    Ok(())
}

/// Appends a text and a number, which is a lower bound if orders were left out.
pub(crate) fn push_count(
    out: &mut Vec<u8>,
    text: &str,
    has_all: bool,
    count: u128,
) -> Result<(), NoMemory>
    ensures { OnOk result (out.new.items
        ≡ out.old.items ++ (text.now ++ count_text has_all count)) }
{
    push_parts(
        out,
        &[Part::Str(text), Part::Str(bound_text(has_all, count))],
    )?;
    push_wide(out, count)
}

// Appends a text and two numbers: of all, and of the serial ones.
fn push_both(
    out: &mut Vec<u8>,
    text: &str,
    report: &Report,
    counts: (u128, u128),
) -> Result<(), NoMemory>
    ensures { OnOk result (out.new.items
        ≡ out.old.items ++ (text.now ++ both_text report.now counts.0 counts.1)) }
{
    push_count(out, text, report.is_whole, counts.0)?;
    push_count(out, " SERIAL ", report.has_all_serial, counts.1)
}

// Returns the mark of an ending, if it has the parts to which the order as written leads.
fn written_mark(ending: &Ending, written: &Option<Items<Record>>) -> &'static str
    ensures { result.now ≡ written_mark (has_parts ending.now written.now) }
{
    match written {
        Some(parts) if parts.as_slice() == ending.parts() => " AS WRITTEN",
        _ => "",
    }
}

/// Appends how many orders lead to an ending, and its marks.
pub(crate) fn push_heading(
    out: &mut Vec<u8>,
    report: &Report,
    ending: &Ending,
) -> Result<(), NoMemory>
    ensures { OnOk result (out.new.items ≡ out.old.items ++ heading_text report.now ending.now) }
{
    push_both(out, " ORDERS ", report, (ending.orders(), ending.serial()))?;
    let parts = [
        Part::Bytes(mark_in(ending.parts())),
        Part::Str(written_mark(ending, &report.written)),
        Part::Str("\n"),
    ];
    push_parts(out, &parts)
}

// Returns how many orders lead to endings, and how many serial ones.
fn order_counts(endings: &[Ending]) -> (u128, u128)
    ensures { result ≡ (all_orders endings.now, serial_orders endings.now) }
{
    let mut all = 0u128;
    let mut serial = 0u128;
    for i in 0..endings.len() {
        all = all.saturating_add(endings[i].orders());
        serial = serial.saturating_add(endings[i].serial());
    }
    (all, serial)
}

// Returns to how many endings a serial order leads.
fn serial_endings(endings: &[Ending]) -> usize
    ensures { result ≡ serial_endings endings.now }
{
    let mut count = 0;
    for i in 0..endings.len() {
        if endings[i].serial() > 0 {
            count += 1;
        }
    }
    count
}

/// Appends the line on a limit, if it left orders out.
pub(crate) fn push_limit(out: &mut Vec<u8>, report: &Report, limit: u64) -> Result<(), NoMemory>
    ensures { OnOk result (out.new.items ≡ out.old.items ++ limit_text report.now limit) }
{
    if report.is_whole && report.has_all_serial {
        return Ok(());
    }
    push_parts(
        out,
        &[
            Part::Str("LIMIT "),
            Part::Number(limit),
            Part::Str(" REACHED\n"),
        ],
    )
}

/// Appends the numbers of orders and endings.
pub(crate) fn push_totals(out: &mut Vec<u8>, report: &Report) -> Result<(), NoMemory>
    ensures { OnOk result (out.new.items ≡ out.old.items ++ totals_text report.now) }
{
    let endings = report.endings.as_slice();
    let counts = (endings.len() as u128, serial_endings(endings) as u128);
    push_both(out, "ORDERS ", report, order_counts(endings))?;
    push_both(out, "\nENDINGS ", report, counts)?;
    push_str(out, "\n")
}
