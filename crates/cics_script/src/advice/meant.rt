//! Which word of the script is meant by one that isn't.

ghost use Rattle.std.specs.Prelude.{◌≡◌, true, is_some, IfOk, IfSome, All, Contains};
ghost use Rattle.cics_script.specs.Words.{kind_in};

use crate::advice::context::is_one;
use crate::advice::tables::MEANT;
use crate::words::{COMMANDS, LineForm, OPTIONS, OptionWord, STARTS, kind_of, option_named};
use cics_names::NoMemory;
use std::alloc::Global;
use strsim::generic_damerau_levenshtein;

// The longest word for which one is sought, and the fewest letters of a part of a word.
const LONGEST: usize = 20;

const PART: usize = 3;

// Returns in how many letters a word differs from one of the script, or `None` if it is too far to
// mean that. Both are in capitals. One may be the start of the other.
fn distance(alloc: Global, typed: &[u8], word: &[u8]) -> Result<Option<usize>, NoMemory> {
    let edits = generic_damerau_levenshtein(alloc, typed, word)?;
    let most = if typed.len() > 5 { 2 } else { 1 };
    let is_part = typed.len() >= PART && (word.starts_with(typed) || typed.starts_with(word));
    Ok((edits <= most || is_part).then_some(edits))
}

// Returns the row of a table whose word is nearest to a word, if one is near.
fn nearest<T: Copy>(
    alloc: Global,
    rows: &[(&'static str, T)],
    word: &[u8],
) -> Result<Option<(&'static str, T)>, NoMemory>
    ensures { IfOk result (λ found. IfSome found (Contains rows.now)) }
{
    if word.len() > LONGEST {
        return Ok(None);
    }
    let typed = word.to_ascii_uppercase(alloc)?;
    let mut least = usize::MAX;
    let mut found = None;
    for row in rows {
        if let Some(edits) = distance(alloc, &typed, row.0.as_bytes())? {
            if edits < least {
                least = edits;
                found = Some((row.0, row.1));
            }
        }
    }
    Ok(found)
}

/// Returns the verb that a word means.
pub fn meant_verb(alloc: Global, word: &[u8]) -> Result<Option<&'static str>, NoMemory> {
    Ok(nearest(alloc, &COMMANDS, word)?.map(|row| row.0))
}

/// Returns the first word of a line that a word means.
pub fn meant_start(alloc: Global, word: &[u8]) -> Result<Option<&'static str>, NoMemory> {
    Ok(nearest(alloc, &STARTS, word)?.map(|row| row.0))
}

// Returns the option that a word of another language stands for.
fn translated(word: &[u8]) -> Option<OptionWord> {
    let mut rows = MEANT.iter();
    let row = rows.find(|row| is_one(word, row.0))?;
    option_named(row.1.as_bytes())
}

// Returns the options of a line, each with its words.
fn options_of(alloc: Global, form: LineForm) -> Result<Vec<(&'static str, OptionWord)>, NoMemory>
    ensures { IfOk result (λ rows. All (λ row. is_some (kind_in form row.1) ≡ true) rows.items) }
{
    let mut rows = Vec::new(alloc);
    for row in &OPTIONS {
        if kind_of(form, row.1).is_some() {
            rows.push(*row)?;
        }
    }
    Ok(rows)
}

/// Returns the option of a line that a word means.
pub fn meant_option(
    alloc: Global,
    form: LineForm,
    word: &[u8],
) -> Result<Option<OptionWord>, NoMemory>
    ensures { IfOk result (λ found. IfSome found (λ option.
        is_some (kind_in form option) ≡ true)) }
{
    if let Some(option) = translated(word) {
        if kind_of(form, option).is_some() {
            return Ok(Some(option));
        }
    }
    let rows = options_of(alloc, form)?;
    match nearest(alloc, &rows, word)? {
        Some(row) => Ok(Some(row.1)),
        None => Ok(None),
    }
}
