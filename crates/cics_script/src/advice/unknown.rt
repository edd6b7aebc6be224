//! What is told of a word that isn't known where it stands.

use crate::advice::context::{Context, is_one, is_word};
use crate::advice::filling::{Told, subject_of, text_on};
use crate::advice::meant::{meant_option, meant_start, meant_verb};
use crate::advice::tables::{
    COMMENT, JOURNAL_LINE, LITERAL_OF, NO_CICS, NO_CODE, NO_COMMAND, NO_COMMAND_BUT, NO_LINE,
    NO_LITERAL, NO_OPTION, NO_OPTION_BUT, NO_OPTIONS, NO_PARENTHESES, NO_VERB, NO_VERB_BUT,
    NO_VERBS, OF_LITERALS, SECOND, SIGNS,
};
use crate::advice::values::{is_broken, is_quoted};
use crate::words::{option_named, option_word, start_of};
use cics_names::NoMemory;
use std::alloc::Global;

/// Returns the text for a word that isn't known where it stands, for a sign that begins no token,
/// or for no word.
pub fn of_unknown<'a>(alloc: Global, context: &Context<'a>) -> Result<Told<'a>, NoMemory> {
    if is_word(context.before(1), "END-EXEC") {
        return Ok(match context.token.first() {
            Some(b'.') => ("END-EXEC takes no period", &[]),
            _ => ("END-EXEC is the last word of a line", &[]),
        });
    }
    if is_broken(context.token) {
        return Ok((of_sign(context), &[]));
    }
    match context.front.len() {
        0 if option_named(context.token).is_none() => Ok((NO_LINE, &[])),
        0 => Ok((NO_COMMAND, &[])),
        1 => of_second(alloc, context),
        2 if start_of(context.at(0)).is_none() => of_second(alloc, context),
        // An option may have been taken for a label.
        2 if is_word(context.token, "(") => {
            let text = text_on(&SECOND, context.at(0)).unwrap_or(NO_PARENTHESES);
            Ok((text, context.before(1)))
        }
        3 if context.is_command() => of_verb(alloc, context),
        _ if is_one(context.token, "( )") => Ok((NO_PARENTHESES, context.before(1))),
        _ => of_option(alloc, context),
    }
}

// Returns the text for a word behind the first one, or behind EXEC.
fn of_second<'a>(alloc: Global, context: &Context<'a>) -> Result<Told<'a>, NoMemory> {
    if is_word(context.before(1), "EXEC") {
        let is_other = is_one(context.token, "SQL DLI");
        return Ok((if is_other { NO_CICS } else { NO_COMMAND }, &[]));
    }
    if let Some(text) = text_on(&SECOND, context.at(0)) {
        return Ok((text, &[]));
    }
    Ok(match meant_start(alloc, context.at(0))? {
        Some(word) => (NO_COMMAND_BUT, word.as_bytes()),
        None => (NO_COMMAND, &[]),
    })
}

// Returns the text for a word that is no verb.
fn of_verb<'a>(alloc: Global, context: &Context<'a>) -> Result<Told<'a>, NoMemory> {
    if let Some(text) = text_on(&NO_VERBS, context.token) {
        return Ok((text, &[]));
    }
    Ok(match meant_verb(alloc, context.token)? {
        Some(word) => (NO_VERB_BUT, word.as_bytes()),
        None => (NO_VERB, &[]),
    })
}

// Returns the text for a literal outside parentheses. Meant is the first option of those that take
// one and don't stand in front of it.
fn of_literal<'a>(context: &Context<'a>) -> Told<'a> {
    for option in &OF_LITERALS {
        if context.kind_of(option.as_bytes()).is_some() && !context.has_one(option) {
            return (LITERAL_OF, option.as_bytes());
        }
    }
    (NO_LITERAL, &[])
}

// Returns whether a word may be the code of an ABEND that has none.
fn lacks_code(context: &Context<'_>) -> bool {
    is_word(subject_of(context), "ABEND") && context.token.len() <= 4 && !context.has_one("ABCODE")
}

// Returns the text for a word that is no option.
fn of_option<'a>(alloc: Global, context: &Context<'a>) -> Result<Told<'a>, NoMemory> {
    if let Some(text) = text_on(&NO_OPTIONS, context.token) {
        return Ok((text, &[]));
    }
    if is_quoted(context.token) {
        return Ok(of_literal(context));
    }
    let Some(form) = context.form() else {
        return Ok((NO_OPTION, &[]));
    };
    Ok(match meant_option(alloc, form, context.token)? {
        Some(option) => (NO_OPTION_BUT, option_word(option).as_bytes()),
        None if lacks_code(context) => (NO_CODE, &[]),
        None => (NO_OPTION, &[]),
    })
}

// Returns the text for a sign that begins no line.
fn of_first_sign(token: &[u8]) -> &'static str {
    match token.first() {
        Some(b'-' | b'#' | b'/' | b';' | b'!' | b'%') => COMMENT,
        Some(b'>') => JOURNAL_LINE,
        _ => NO_LINE,
    }
}

// Returns the text for a sign that begins no token, also at the start of a line, in a label or
// right behind it.
fn of_sign(context: &Context<'_>) -> &'static str {
    let is_in_label = match context.front.len() {
        0 => return of_first_sign(context.token),
        1 => start_of(context.at(0)).is_none(),
        2 => is_word(context.at(0), "ATTACH"),
        _ => false,
    };
    if is_in_label {
        return "a label has letters and digits alone";
    }
    let mut rows = SIGNS.iter();
    let found = rows.find(|row| context.token.starts_with(row.0.as_bytes()));
    found.map_or(NO_OPTION, |row| row.1)
}
