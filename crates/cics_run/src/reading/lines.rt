//! The lines of a script that was read whole.

ghost use Rattle.std.specs.Prelude.{◌≡◌, ◌∷◌, ◌<◌, [], length, IfNone, IfOk, IfSome};
ghost use Rattle.std.specs.Io.BufRead.{strip_last};
ghost use Rattle.cics_run.specs.Session.Lines.{all_lines};

use crate::session::line_len;
use cics_names::{Items, NoMemory, Record};
use std::alloc::Global;

const CR: u8 = 13;

// Returns a line without the CR right before its LF.
fn without_cr(line: &[u8]) -> &[u8]
    ensures { result.now ≡ strip_last 13 line.now }
{
    if !line.is_empty() && line[line.len() - 1] == CR {
        &line[..line.len() - 1]
    } else {
        line
    }
}

/// Returns the first line of a script and what follows it, or nothing if there is no line.
pub fn next_line(script: &[u8]) -> Option<(&[u8], &[u8])>
    ensures some { IfSome result (λ next. all_lines script.now
        ≡ next.0.now ∷ all_lines next.1.now) }
    ensures less { IfSome result (λ next. length next.1.now < length script.now) }
    ensures none { IfNone result (all_lines script.now ≡ []) }
{
    let (front, behind) = script.split_at(line_len(script));
    match behind.split_first() {
        Some((_, after)) => Some((without_cr(front), after)),
        None if front.is_empty() => None,
        None => Some((front, behind)),
    }
}

/// Returns the lines of a script, each without its line end.
///
/// Errors: `NoMemory`. Cost: O(bytes).
pub fn lines_of(alloc: Global, script: &[u8]) -> Result<Items<Record>, NoMemory>
    ensures { IfOk result (λ lines. lines ≡ all_lines script.now) }
{
    let mut lines = Items::new(alloc);
    let mut rest = script;
    'lines: loop {
        let Some((line, after)) = next_line(rest) else {
            return Ok(lines);
        };
        lines.push(Record::from_slice(alloc, line)?)?;
        rest = after;
    }
}
