//! Scripts in the language of `cicsrun`. Behind a line stand lines that begin with `= `: the
//! expected result of the line, and of what the region then does by itself. If none stands there,
//! the line is answered NORMAL, or attaches its task, or defines something.
//!
//! Lines of one word ask for the listing, the replay, or how many intervals the files of units of
//! work have (`events`). In a script on units the labels U0 to U9 are of units by their numbers,
//! and NEW of a task without one. H in place of U, and HNEW, go through `submit`. What has to wait
//! is told so, and doesn't wait.
//!
//! A line `+ LINE` stands as often as the run says, each with its number of three digits for `nnn`.
//! A line `xCOUNT LINE` stands so often, and its numbers rise. With `f` for `x` they fall, with `b`
//! they come from both ends in turn. With `t` each is three more than the last. The lines of the
//! first text are put before each script: those behind `* ` only before scripts on a region, those
//! behind `** ` only if memory is ample too.

use cics_names::NoMemory;
use std::alloc::Global;
use std::fmt::Write;

/// What a script runs on, as its first line tells.
#[derive(Clone, Copy)]
pub(crate) struct ScriptKind {
    /// It runs on units of work: `units: ` stands behind its stars. Others run on a region.
    pub(crate) on_units: bool,
    /// Its memory is ample: it begins with two stars.
    pub(crate) is_ample: bool,
}

/// A line of a script, and the lines that are to come of it.
pub(crate) struct Case {
    pub(crate) line: String,
    pub(crate) expected: String,
}

// By hand: a derived drop is taken apart wherever a case is dropped.
impl Drop for Case {
    fn drop(self) {
        let Case {
            line: _line,
            expected: _expected,
        } = self;
    }
}

impl ScriptKind {
    /// Returns the kind of a script.
    pub(crate) fn of(script: &str) -> ScriptKind {
        ScriptKind {
            on_units: script.trim_start_matches('*').starts_with(" units: "),
            is_ample: script.starts_with("** "),
        }
    }

    // The line that one of the first text puts before a script of this kind, if it puts one there.
    fn head(self, line: &str) -> Option<&str> {
        if let Some(line) = line.strip_prefix("** ") {
            return (self.is_ample && !self.on_units).then_some(line);
        }
        match line.strip_prefix("* ") {
            Some(line) => (!self.on_units).then_some(line),
            None => Some(line),
        }
    }
}

impl Case {
    /// Returns whether this is the expected result of the line.
    pub(crate) fn is_met_by(&self, came: &str) -> bool {
        if !self.expected.is_empty() {
            return came == self.expected.as_str();
        }
        came.lines().count() == 1
            && (came.contains(" NORMAL 0") || came.contains(" ATTACHED ") || came == "defined\n")
    }
}

// Puts a line at the end, with a number in place of each `nnn` that stands in it.
fn push_numbered(text: &mut String, line: &str, number: u64) -> Result<(), NoMemory> {
    let mut parts = line.split("nnn");
    text.push_str(parts.next().unwrap_or(""))?;
    for part in parts {
        write!(text, "{number:03}{part}")?;
    }
    text.push('\n')?;
    Ok(())
}

// How often a line stands if that is said before it, the letter of the order, and the line itself.
fn times(line: &str, further: u64) -> Option<(u64, &str, &str)> {
    let (word, line) = line.split_once(' ')?;
    if word == "+" {
        return Some((further, "x", line));
    }
    let (order, digits) = word.split_at_checked(1)?;
    if !matches!(order, "x" | "t" | "f" | "b") {
        return None;
    }
    Some((digits.parse::<u64>().ok()?, order, line))
}

// Puts a line at the end, as often as it stands.
fn push_line(text: &mut String, line: &str, further: u64) -> Result<(), NoMemory> {
    let (count, order, line) = times(line, further).unwrap_or((1, "x", line));
    for at in 0..count {
        let number = match order {
            "t" => at.saturating_mul(3),
            "f" => count - 1 - at,
            "b" if at % 2 == 1 => count - 1 - at / 2,
            "b" => at / 2,
            _ => at,
        };
        push_numbered(text, line, number)?;
    }
    Ok(())
}

/// Returns the lines of a script behind those of the first text, each as often as it stands.
pub(crate) fn written_out(
    alloc: Global,
    first: &str,
    script: &str,
    further: u64,
) -> Result<String, NoMemory> {
    let mut text = String::new(alloc);
    let kind = ScriptKind::of(script);
    for line in first.lines() {
        if let Some(line) = kind.head(line) {
            push_line(&mut text, line, further)?;
        }
    }
    for line in script.lines() {
        push_line(&mut text, line, further)?;
    }
    Ok(text)
}

// Puts a line of a script that is written out into its cases: a comment into none.
fn put_line(alloc: Global, cases: &mut Vec<Case>, line: &str) -> Result<(), NoMemory> {
    if line.starts_with("*") {
        return Ok(());
    }
    if let (Some(expected), Some(last)) = (line.strip_prefix("= "), cases.last_mut()) {
        last.expected.push_str(expected)?;
        last.expected.push('\n')?;
        return Ok(());
    }
    cases.push(Case {
        line: line.to_string(alloc)?,
        expected: String::new(alloc),
    })?;
    Ok(())
}

/// Returns the cases of a script that is written out. An expected result that stands behind no line
/// is a case too, which no reader of lines takes.
pub(crate) fn cases_of(alloc: Global, text: &str) -> Result<Vec<Case>, NoMemory> {
    let mut cases: Vec<Case> = Vec::new(alloc);
    for line in text.lines() {
        put_line(alloc, &mut cases, line)?;
    }
    Ok(cases)
}
