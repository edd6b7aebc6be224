//! Where a line of a script comes from.

ghost use Rattle.std.specs.Prelude.{◌≡◌, ◌++◌, map, OnOk};
ghost use Rattle.cics_script.specs.Advice.Places.{named, line_head, column_text, place_text};

use crate::spelling::{push_number, push_str};
use cics_names::NoMemory;

/// The file that a line stands in, or none for standard input; and its number, from 1 on.
#[derive(Clone, Copy)]
pub struct Origin<'a> {
    pub file: Option<&'a [u8]>,
    pub line: u64,
}

// Returns a byte of a file's name as it is printed: a control character as a question mark.
fn named(byte: u8) -> u8
    ensures { result ≡ named byte }
{
    match byte {
        0..=31 | 127 => b'?',
        _ => byte,
    }
}

fn push_named(out: &mut Vec<u8>, name: &[u8]) -> Result<(), NoMemory>
    ensures { OnOk result (out.new.items ≡ out.old.items ++ map named name.now) }
{
    for byte in name {
        out.push(named(*byte))?;
    }
    Ok(())
}

// Puts what stands before the number of a line.
fn push_line_head(out: &mut Vec<u8>, file: Option<&[u8]>) -> Result<(), NoMemory>
    ensures { OnOk result (out.new.items ≡ out.old.items ++ line_head file.entry) }
{
    match file {
        Some(name) => {
            push_named(out, name)?;
            push_str(out, ":")
        }
        None => push_str(out, "cicsrun: line "),
    }
}

// Puts a column, if there is one.
fn push_column(
    out: &mut Vec<u8>,
    file: Option<&[u8]>,
    column: Option<usize>,
) -> Result<(), NoMemory>
    ensures { OnOk result (out.new.items ≡ out.old.items ++ column_text file.entry column) }
{
    let Some(column) = column else {
        return Ok(());
    };
    match file {
        Some(_) => push_str(out, ":")?,
        None => push_str(out, ", column ")?,
    }
    push_number(out, column as u64)
}

/// Puts a line and a column of it: `race.cics:3:33: ` of a file, and `cicsrun: line 3, column 33: `
/// of standard input.
pub fn push_place(
    out: &mut Vec<u8>,
    origin: Origin<'_>,
    column: Option<usize>,
) -> Result<(), NoMemory>
    ensures { OnOk result (out.new.items ≡ out.old.items ++ place_text origin.entry column) }
{
    push_line_head(out, origin.file)?;
    push_number(out, origin.line)?;
    push_column(out, origin.file, column)?;
    push_str(out, ": ")
}
