//! What is told of a value that is wrong or missing, or of its parentheses.

use crate::advice::context::{Context, is_word};
use crate::advice::filling::{MOST_PUT, Told, push_start};
use crate::advice::tables::{
    DATA_NAME, ITEM_NUMBER, LENGTH_OF, NAME4_AS, NAME8_AS, NO_PARENTHESES, UNCLOSED, UNCLOSED_VALUE,
};
use crate::spelling::push_str;
use crate::words::{ValueKind, option_named};
use crate::{skip_blanks, whole_token};
use cics_names::NoMemory;

/// A text that a quote within it splits: a literal, and behind it a word or a number.
#[derive(Clone, Copy)]
pub struct Split<'a> {
    literal: &'a [u8],
    blank: &'static str,
    rest: &'a [u8],
    end: &'static str,
}

impl<'a> Split<'a> {
    /// Returns the text in the parentheses before the column, if a quote splits it.
    pub fn new(context: &Context<'a>) -> Option<Split<'a>> {
        let literal = context.before(1);
        let rest = up_to_end(context.behind);
        let behind = context.behind.get(rest.len()..).unwrap_or(&[]);
        let blank = match context.blanks() {
            0 => "",
            1 if is_end(behind) && goes_on(context) => " ",
            _ => return None,
        };
        let is_split = is_word(context.before(2), "(")
            && is_quoted(literal)
            && !is_unclosed(literal)
            && context.token.first()?.is_ascii_alphanumeric();
        let is_closed = is_end(behind) || behind.first() == Some(&b')');
        let is_whole = is_closed && literal.len() <= MOST_PUT && rest.len() <= MOST_PUT;
        is_split.then_some(Split {
            literal,
            blank,
            rest,
            end: if is_whole { "'" } else { ".." },
        })
    }

    /// Puts how the text is written.
    pub fn push_joined(&self, out: &mut Vec<u8>) -> Result<(), NoMemory> {
        push_str(out, "a quote within quotes is doubled: ")?;
        push_start(out, self.literal)?;
        push_str(out, "'")?;
        push_str(out, self.blank)?;
        push_start(out, self.rest)?;
        push_str(out, self.end)
    }
}

// Returns whether a quote and a parenthesis come next.
fn is_end(text: &[u8]) -> bool {
    match text.split_first() {
        Some((b'\'', behind)) => skip_blanks(behind).starts_with(b")"),
        _ => false,
    }
}

// Returns whether the token may go on with the text before it: that is no name, and the token is no
// option.
fn goes_on(context: &Context<'_>) -> bool {
    let kind = context.kind_of(context.before(3));
    matches!(kind, Some(ValueKind::Text)) && option_named(context.token).is_none()
}

// Returns a text up to its next quote. If that and a parenthesis don't end it, it also ends before
// its first parenthesis.
fn up_to_end(text: &[u8]) -> &[u8] {
    let rest = text.split(|byte| *byte == b'\'').next().unwrap_or(text);
    if is_end(text.get(rest.len()..).unwrap_or(&[])) {
        return rest;
    }
    rest.split(|byte| *byte == b')').next().unwrap_or(rest)
}

/// Returns whether a token is a literal in quotes.
pub fn is_quoted(token: &[u8]) -> bool {
    token.first() == Some(&b'\'')
}

/// Returns the text for a value that is wrong or missing, or for its parentheses.
pub fn of_value<'a>(context: &Context<'a>) -> Told<'a> {
    if is_broken(context.token) {
        return of_broken(context);
    }
    if is_word(context.at(0), "CLOCK") && context.front.len() == 1 {
        let text = "CLOCK takes the new time in seconds from the run's start, as CLOCK 30";
        return (text, &[]);
    }
    if is_word(context.before(1), "(") {
        let option = context.before(2);
        return (of_content(context, option), option);
    }
    if is_word(context.before(2), "(") {
        return (of_second_value(context), context.before(3));
    }
    if is_word(context.before(1), ")") && !context.token.is_empty() {
        return ("a parenthesis too many after $(..)", context.before(4));
    }
    let option = context.before(1);
    match context.kind_of(option) {
        // The end of a line that could be read is at fault for one cause.
        None | Some(ValueKind::Flag | ValueKind::Last) if context.token.is_empty() => (
            ITEM_NUMBER,
            &[],
        ),
        Some(ValueKind::Flag) => (NO_PARENTHESES, option),
        Some(ValueKind::Area) => ("$ takes a word in parentheses+", option),
        _ => ("$ takes its value in parentheses+", option),
    }
}

/// Returns whether a token is there, and broken in itself.
pub fn is_broken(token: &[u8]) -> bool {
    !token.is_empty() && whole_token(token).is_none()
}

// Returns the text for a token that is broken in itself.
fn of_broken<'a>(context: &Context<'a>) -> Told<'a> {
    match context.token.first() {
        Some(b'\'') if is_word(context.before(1), "(") => (UNCLOSED_VALUE, context.before(2)),
        Some(b'\'') => (UNCLOSED, &[]),
        Some(b'0'..=b'9') => ("a number is at most 18446744073709551615", &[]),
        _ => {
            let text = "X'..' has two hexadecimal digits for each byte, and ends with a quote";
            (text, &[])
        }
    }
}

// Returns whether a literal in quotes has a parenthesis that belongs behind it, and ends where the
// parentheses of another value begin.
fn is_unclosed(token: &[u8]) -> bool {
    is_quoted(token) && token.contains(&b')') && token.contains(&b'(') && is_begun(token)
}

// Returns whether behind the last parenthesis that opens there is only the begin of a literal.
fn is_begun(token: &[u8]) -> bool {
    let last = token.iter().rev().take_while(|byte| **byte != b'(');
    last.into_iter()
        .all(|byte| matches!(*byte, b' ' | b'\t' | b'X' | b'x' | b'\''))
}

// Returns the text for a token behind the value in parentheses.
fn of_second_value(context: &Context<'_>) -> &'static str {
    if is_unclosed(context.before(1)) {
        UNCLOSED_VALUE
    } else {
        "$ takes one value in its parentheses+"
    }
}

// Returns whether a token is a word without quotes.
fn is_bare(token: &[u8]) -> bool {
    token
        .first()
        .is_some_and(|first| first.is_ascii_alphabetic())
        && !token.contains(&b'\'')
}

// Returns what the option of an opening parenthesis takes.
fn of_content(context: &Context<'_>, option: &[u8]) -> &'static str {
    let length = context.token.len();
    match (context.kind_of(option), is_bare(context.token)) {
        (Some(ValueKind::Name8 | ValueKind::Name4), _) if is_unclosed(context.token) =>
            UNCLOSED_VALUE,
        (Some(ValueKind::Name8 | ValueKind::Name4), true) if context.token.contains(&b'-') =>
            DATA_NAME,
        (Some(ValueKind::Name8), true) if length <= 8 => NAME8_AS,
        (Some(ValueKind::Name8), _) => "$ takes a name of 1 to 8 characters in quotes+",
        (Some(ValueKind::Name4), true) if length <= 4 => NAME4_AS,
        (Some(ValueKind::Name4), _) => "$ takes a name of 1 to 4 characters in quotes+",
        (Some(ValueKind::Text), false) => "$ takes a literal in quotes+",
        (Some(ValueKind::Number), _) if is_word(context.token, "LENGTH") => LENGTH_OF,
        (Some(ValueKind::Text | ValueKind::Number), true) => DATA_NAME,
        (Some(ValueKind::Number), false) => "$ takes a number without quotes+",
        _ => "$ takes a word in parentheses+",
    }
}
