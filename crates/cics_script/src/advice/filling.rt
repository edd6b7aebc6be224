//! Fills the texts of messages in.

use crate::advice::context::{Context, is_one, is_word};
use crate::advice::tables::EXAMPLES;
use crate::spelling::push_str;
use cics_names::NoMemory;

/// The text of a message, and its option. In the text `%` stands for the token, and `$` for the
/// option. `+` stands for how that is written, `&` for the line's subject, and `!` for a reference.
pub type Told<'a> = (&'static str, &'a [u8]);

/// Puts a message.
pub fn push_filled(
    out: &mut Vec<u8>,
    context: &Context<'_>,
    told: Told<'_>,
) -> Result<(), NoMemory> {
    let (text, option) = told;
    for byte in text.as_bytes() {
        match *byte {
            b'%' => push_capitals(out, context.token)?,
            b'$' => push_capitals(out, option)?,
            b'+' => {
                push_str(out, ", as ")?;
                push_capitals(out, option)?;
                push_str(out, text_on(&EXAMPLES, option).unwrap_or("(AREA)"))?
            }
            b'&' => push_subject(out, context)?,
            b'!' => push_str(out, "isn't modelled (docs/RULES.md, Not modelled)")?,
            other => out.push(other)?,
        }
    }
    Ok(())
}

/// How many bytes of a token are put.
pub const MOST_PUT: usize = 40;

/// Puts the first bytes of a token.
pub fn push_start(out: &mut Vec<u8>, token: &[u8]) -> Result<(), NoMemory> {
    out.extend_from_slice(token.split_at(MOST_PUT.min(token.len())).0)?;
    Ok(())
}

// Puts the first bytes of a token in capitals.
fn push_capitals(out: &mut Vec<u8>, token: &[u8]) -> Result<(), NoMemory> {
    for byte in token.iter().take(MOST_PUT) {
        out.push(byte.to_ascii_uppercase())?;
    }
    Ok(())
}

// Puts all words that say what a line is, as DEFINE FILE or WRITEQ TD.
fn push_subject(out: &mut Vec<u8>, context: &Context<'_>) -> Result<(), NoMemory> {
    if is_word(context.at(0), "DEFINE") {
        push_str(out, "DEFINE ")?;
    }
    push_capitals(out, subject_of(context))?;
    if is_one(context.at(4), "TS TD") {
        push_str(out, " ")?;
        push_capitals(out, context.at(4))?;
    }
    Ok(())
}

/// Returns a command's verb, the object of a DEFINE, or else the first word.
pub fn subject_of<'a>(context: &Context<'a>) -> &'a [u8] {
    if context.is_command() {
        context.at(3)
    } else if is_word(context.at(0), "DEFINE") {
        context.at(1)
    } else {
        context.at(0)
    }
}

/// Returns the text of a table on a word.
pub fn text_on(rows: &[(&str, &'static str)], word: &[u8]) -> Option<&'static str> {
    let found = rows.iter().find(|row| is_one(word, row.0));
    found.map(|row| row.1)
}
