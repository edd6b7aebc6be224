//! Finds the column at which a line can't be read on.
//!
//! The reader returns no column. So the line is read again for each of its tokens, cut off after
//! it, with a broken token at the end. If the fault is that of the broken token, the reader got
//! that far.

ghost use Rattle.std.specs.Prelude.{◌≡◌, ◌≤◌, ◌+◌, ◌++◌, ◌↔◌, true, length, Err, IfOk};
ghost use Rattle.std.specs.List.{prefix_len};
ghost use Rattle.cics_script.specs.Tokens.{tokens};
ghost use Rattle.cics_script.specs.Lines.{statement, is_script_byte, line};
ghost use Rattle.cics_script.specs.Columns.{IsTokenColumn, IsColumn, IsFoundIn};
ghost use Rattle.cics_script.specs.Columns.{other_fault, broken_bytes};

use crate::faults::LineFault;
use crate::lines::{is_in_script, read_line, read_statement};
use crate::tokens::{skip_blanks, whole_token};
use cics_names::NoMemory;
use std::alloc::Global;

/// The fault of a line, and its column.
#[derive(Clone, Copy)]
pub struct Placed {
    pub fault: LineFault,
    /// The first byte, counted from 1, of the token at which the line can't be read on.
    ///
    /// If the line ends too early, one past its last token. For `NotAscii` the byte itself, for
    /// `TooLong` none.
    pub column: Option<usize>,
}

// Returns the fault of some broken token, other than this fault.
fn other_fault(fault: LineFault) -> LineFault
    ensures { result ≡ other_fault fault }
{
    match fault {
        LineFault::BadLiteral => LineFault::BadNumber,
        _ => LineFault::BadLiteral,
    }
}

// Returns a broken token that has that other fault.
fn broken_token(fault: LineFault) -> &'static [u8]
    ensures { result.now ≡ broken_bytes fault }
{
    match fault {
        LineFault::BadLiteral => b"18446744073709551616",
        _ => b"'",
    }
}

// Returns whether the reader gets as far as a token after `front`: if a broken one follows, its
// fault is the line's.
fn is_read_on(alloc: Global, front: &[u8], fault: LineFault) -> Result<bool, NoMemory>
    ensures { IfOk result (λ on. (on ≡ true)
        ↔ (statement (tokens (front.now ++ broken_bytes fault)) ≡ Err (other_fault fault))) }
{
    let mut line = Vec::new(alloc);
    line.extend_from_slice(front)?;
    line.extend_from_slice(broken_token(fault))?;
    match read_statement(alloc, &line) {
        Ok(_) => Ok(false),
        Err(LineFault::NoMemory) => Err(NoMemory),
        Err(found) => Ok(found == other_fault(fault)),
    }
}

// Returns the column of the first token at which a line with this fault can't be read on. `front`
// has the tokens that were tried, a space after each.
fn token_column(alloc: Global, bytes: &[u8], fault: LineFault) -> Result<usize, NoMemory>
    requires { statement (tokens bytes.now) ≡ Err fault }
    ensures { IfOk result (λ column. IsTokenColumn fault bytes.now column) }
{
    let mut front = Vec::new(alloc);
    let mut rest = bytes;
    'tokens: loop {
        let here = skip_blanks(rest);
        if here.is_empty() {
            return Ok(1 + (bytes.len() - rest.len()));
        }
        let column = 1 + (bytes.len() - here.len());
        let Some((token, behind)) = whole_token(here) else {
            return Ok(column);
        };
        front.extend_from_slice(token)?;
        front.push(b' ')?;
        if !is_read_on(alloc, &front, fault)? {
            return Ok(column);
        }
        rest = behind;
    }
}

// Returns how many bytes stand before the first that no line may have.
fn script_len(bytes: &[u8]) -> usize
    ensures value { result ≡ prefix_len is_script_byte bytes.now }
    ensures within { result ≤ length bytes.now }
{
    bytes.iter().take_while(|byte| is_in_script(**byte)).count()
}

// Returns the column of a line's fault, as `Placed` has it.
fn column_of(alloc: Global, bytes: &[u8], fault: LineFault) -> Result<Option<usize>, NoMemory>
    requires { line bytes.now ≡ Err fault }
    ensures { IfOk result (λ column. IsColumn fault bytes.now column) }
{
    match fault {
        LineFault::TooLong => Ok(None),
        LineFault::NotAscii => Ok(Some(1 + script_len(bytes))),
        _ => Ok(Some(token_column(alloc, bytes, fault)?)),
    }
}

/// Returns the fault of a line and its column, or `None` if [`read_line`] can read it.
///
/// Errors: `NoMemory`.
///
/// Cost: O(tokens * bytes). It reads the line again for each token up to the fault.
pub fn find_fault(alloc: Global, bytes: &[u8]) -> Result<Option<Placed>, NoMemory>
    ensures { IfOk result (λ found. IsFoundIn bytes.now found) }
{
    match read_line(alloc, bytes) {
        Ok(_) => Ok(None),
        Err(LineFault::NoMemory) => Err(NoMemory),
        Err(fault) => {
            let column = column_of(alloc, bytes, fault)?;
            Ok(Some(Placed { fault, column }))
        }
    }
}
