//! What is at fault, and how it is mended.

ghost use Rattle.std.specs.Prelude.{OnOk, IfOk};
ghost use Rattle.cics_script.specs.Advice.Advice.{Advises, IsColumnOf};

use crate::advice::bytes::{Unlisted, push_foreign};
use crate::advice::context::{Context, is_one};
use crate::advice::filling::{Told, push_filled, subject_of};
use crate::advice::origin::Origin;
use crate::advice::placing::told_column;
use crate::advice::showing::{push_marked, push_message};
use crate::advice::tables::{DEFINITIONS, ELSEWHERE, NEEDS};
use crate::advice::unknown::of_unknown;
use crate::advice::values::{Split, of_value};
use crate::spelling::push_str;
use crate::words::{is_excluded, option_named};
use crate::{LineFault, Placed};
use cics_names::NoMemory;
use std::alloc::Global;

const TOO_LONG: &str = "a line has at most 70,000 bytes";

/// Why a line ended the run.
#[derive(Clone, Copy)]
pub enum Cause {
    /// The line can't be read, or is a definition that stands too late.
    Line(Placed),
    /// A definition or a load that can't be, by the number that the journal prints.
    Definition(u64),
}

/// Puts what a person needs to mend a line: a message with its place (`push_place`), the line, a
/// caret. Without a column, for a line that is too long, it puts the message alone.
pub fn push_advice(
    out: &mut Vec<u8>,
    origin: Origin<'_>,
    line: &[u8],
    cause: Cause,
) -> Result<(), NoMemory>
    ensures { OnOk result (Advises origin.entry line.now cause out.old.items out.new.items) }
{
    let Some(column) = column_of(*out.allocator(), line, cause)? else {
        return push_message(out, origin, None, TOO_LONG.as_bytes());
    };
    let message = message_at(*out.allocator(), line, cause, column)?;
    push_message(out, origin, Some(column), &message)?;
    push_marked(out, line, column)
}

// Returns what a person is told at a column.
fn message_at(
    alloc: Global,
    line: &[u8],
    cause: Cause,
    column: usize,
) -> Result<Vec<u8>, NoMemory> {
    let mut message = Vec::new(alloc);
    match cause {
        Cause::Line(placed) => {
            let context = Context::new(alloc, line, placed.column.unwrap_or(column))?;
            push_told(&mut message, &context, placed.fault)?
        }
        Cause::Definition(fault) => {
            let context = Context::new(alloc, line, column)?;
            push_str(&mut message, definition_row(&context, fault).1)?
        }
    }
    Ok(message)
}

// Returns the words for the caret of a definition's fault, and the message.
fn definition_row(context: &Context<'_>, fault: u64) -> (&'static str, &'static str) {
    let mut rows = DEFINITIONS.iter();
    let found = rows.find(|row| row.0 == fault && context.has_one(row.1));
    found.map_or(("", "it can't be defined so"), |row| (row.2, row.3))
}

// Returns the caret's column; of a definition fault that of the first word of its row that the line
// has.
fn column_of(alloc: Global, line: &[u8], cause: Cause) -> Result<Option<usize>, NoMemory>
    ensures { IfOk result (IsColumnOf line.now cause) }
{
    match cause {
        Cause::Line(placed) => Ok(told_column(line, placed)),
        Cause::Definition(fault) => {
            let whole = Context::new(alloc, line, line.len().saturating_add(1))?;
            Ok(Some(whole.column_of(definition_row(&whole, fault).0)))
        }
    }
}

// Puts what is wrong with the token at the column, or what is missing there.
fn push_told(out: &mut Vec<u8>, context: &Context<'_>, fault: LineFault) -> Result<(), NoMemory> {
    if fault == LineFault::NotAscii {
        return push_foreign(out, context.behind);
    }
    if let Some(literal) = Unlisted::new(context.token) {
        return match context.is_name() {
            true => literal.push_in_name(out),
            false => literal.push_in_text(out),
        };
    }
    if let Some(split) = Split::new(context) {
        return split.push_joined(out);
    }
    let told = told_of(*out.allocator(), context, fault)?;
    push_filled(out, context, told)
}

// Returns the text for a fault.
fn told_of<'a>(
    alloc: Global,
    context: &Context<'a>,
    fault: LineFault,
) -> Result<Told<'a>, NoMemory> {
    Ok(match fault {
        LineFault::BadLiteral | LineFault::BadNumber => of_value(context),
        LineFault::MissingOption => of_missing(context),
        LineFault::OptionNotHere => of_not_here(context),
        LineFault::UnknownWord => of_unknown(alloc, context)?,
        LineFault::DoubledOption => (of_doubled(context), &[]),
        LineFault::DefineTooLate => {
            let text = "DEFINE and LOAD stand before the first line of another kind";
            (text, &[])
        }
        LineFault::NotAscii | LineFault::TooLong | LineFault::NoMemory => ("it can't be read", &[]),
    })
}

// Returns the text for an option that stands twice. FILE has another word.
fn of_doubled(context: &Context<'_>) -> &'static str {
    let mut places = 0..context.front.len();
    if places.any(|place| context.word_at(place).eq_ignore_ascii_case(context.token)) {
        return "% stands twice";
    }
    "FILE stands twice: DATASET is another word for it"
}

fn of_missing<'a>(context: &Context<'a>) -> Told<'a> {
    let subject = subject_of(context);
    for (words, options, text) in &NEEDS {
        if is_one(subject, words) && !context.has_one(options) {
            let option = options.split(' ').next().unwrap_or(options);
            return (text, option.as_bytes());
        }
    }
    ("& needs another option (docs/LANGUAGE.md)", &[])
}

// Returns the first option in front that can't stand beside the token's.
fn excluding<'a>(context: &Context<'a>) -> Option<&'a [u8]> {
    let option = option_named(context.token)?;
    for place in 0..context.front.len() {
        let word = context.word_at(place);
        if let Some(other) = option_named(word) {
            if is_excluded(other, option) {
                return Some(word);
            }
        }
    }
    None
}

fn of_not_here<'a>(context: &Context<'a>) -> Told<'a> {
    if context.kind_of(context.token).is_some() {
        let other = excluding(context).unwrap_or(&[]);
        return ("$ and % exclude each other", other);
    }
    let subject = subject_of(context);
    for (words, options, text) in &ELSEWHERE {
        if is_one(subject, words) && is_one(context.token, options) {
            return (text, &[]);
        }
    }
    ("& has no option %", &[])
}
