//! What is told of a line, and the line with a caret under it.

ghost use Rattle.std.specs.Prelude.{◌≡◌, ◌++◌, map, replicate, OnOk};
ghost use Rattle.cics_script.specs.Advice.Advice.{shown, left_out, part_of, message_line};
ghost use Rattle.cics_script.specs.Advice.Advice.{marked};

use crate::advice::origin::{Origin, push_place};
use crate::spelling::push_str;
use cics_names::NoMemory;

// How many columns of a line are shown.
const WIDTH: usize = 100;

// How many columns stand before the caret, if as many follow as can be shown.
const BEFORE: usize = 70;

// Returns a byte as it is shown: a tab as a blank, and what can't be printed as a question mark.
fn shown(byte: u8) -> u8
    ensures { result ≡ shown byte }
{
    match byte {
        b'\t' => b' ',
        b' '..=b'~' => byte,
        _ => b'?',
    }
}

fn push_shown(out: &mut Vec<u8>, bytes: &[u8]) -> Result<(), NoMemory>
    ensures { OnOk result (out.new.items ≡ out.old.items ++ map shown bytes.now) }
{
    for byte in bytes {
        out.push(shown(*byte))?;
    }
    Ok(())
}

fn push_blanks(out: &mut Vec<u8>, count: usize) -> Result<(), NoMemory>
    ensures { OnOk result (out.new.items ≡ out.old.items ++ replicate count 32) }
{
    for _blank in 0..count {
        out.push(b' ')?;
    }
    Ok(())
}

// Returns how many bytes in front of a column are left out.
fn left_out(line: &[u8], column: usize) -> usize
    ensures { result ≡ left_out line.now column }
{
    let most = line.len().max(column).saturating_sub(WIDTH);
    column.saturating_sub(BEFORE).min(most)
}

// Returns the part of a line round a column. A line that fits is shown whole.
#[tactic(auto, using(std::proofs::lemmas::List::take_min, std::proofs::lemmas::List::drop_min))]
fn part_of(line: &[u8], column: usize) -> &[u8]
    ensures { result.now ≡ part_of line.now column }
{
    let (_, rest) = line.split_at(left_out(line, column).min(line.len()));
    rest.split_at(WIDTH.min(rest.len())).0
}

/// Puts the part of a line round a column, counted from 1, and under it a caret in that column.
pub fn push_marked(out: &mut Vec<u8>, line: &[u8], column: usize) -> Result<(), NoMemory>
    ensures { OnOk result (out.new.items ≡ out.old.items ++ marked line.now column) }
{
    push_shown(out, part_of(line, column))?;
    push_str(out, "\n")?;
    let blanks = column.saturating_sub(left_out(line, column));
    push_blanks(out, blanks.saturating_sub(1))?;
    push_str(out, "^\n")
}

/// Puts a message on a line, and on a column of it if there is one.
pub fn push_message(
    out: &mut Vec<u8>,
    origin: Origin<'_>,
    column: Option<usize>,
    message: &[u8],
) -> Result<(), NoMemory>
    ensures { OnOk result (out.new.items
        ≡ out.old.items ++ message_line origin.entry column message.now) }
{
    push_place(out, origin, column)?;
    push_shown(out, message)?;
    push_str(out, "\n")
}
