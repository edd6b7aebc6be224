//! What stands in front of the token at which a line can't be read on.

use crate::words::{
    FirstWord, LineForm, ValueKind, command_named, define_object, kind_of, load_object,
    option_named, queue_command, start_of,
};
use crate::{skip_blanks, whole_token};
use cics_names::NoMemory;
use std::alloc::Global;

/// The tokens before a column, each with its offset, and the token at it: empty at the line's end.
#[derive(Drop)]
pub struct Context<'a> {
    pub front: Vec<(usize, &'a [u8])>,
    pub token: &'a [u8],
    /// The line from the column on, and how many bytes stand before it.
    pub behind: &'a [u8],
    pub before_len: usize,
}

/// Returns whether a token is a word, in capitals or small letters.
pub fn is_word(token: &[u8], word: &str) -> bool {
    token.eq_ignore_ascii_case(word.as_bytes())
}

/// Returns whether a token is one of these words, parted by blanks.
pub fn is_one(token: &[u8], words: &str) -> bool {
    words.split(' ').any(|word| is_word(token, word))
}

// Returns the first token of a text; if that is broken in itself, all that is left.
fn token_of(text: &[u8]) -> &[u8] {
    let here = skip_blanks(text);
    if here.is_empty() {
        return here;
    }
    whole_token(here).map_or(here, |(token, _)| token)
}

impl<'a> Context<'a> {
    /// Cuts a line into the tokens before a column, counted from 1, and the token at it.
    pub fn new(alloc: Global, line: &'a [u8], column: usize) -> Result<Context<'a>, NoMemory> {
        let split = column.saturating_sub(1).min(line.len());
        let (before, behind) = line.split_at(split);
        let mut front = Vec::new(alloc);
        let mut rest = skip_blanks(before);
        for _ in 0..before.len() {
            if rest.is_empty() {
                break;
            }
            let Some((token, others)) = whole_token(rest) else {
                break;
            };
            front.push((split.saturating_sub(rest.len()), token))?;
            rest = skip_blanks(others);
        }
        Ok(Context {
            front,
            token: token_of(behind),
            behind,
            before_len: split,
        })
    }

    /// Returns the `count`-th token before the column.
    pub fn before(&self, count: usize) -> &'a [u8] {
        let place = self.front.len().checked_sub(count);
        place.map_or(&[], |place| self.at(place))
    }

    /// Returns the token of this index, from 0.
    pub fn at(&self, place: usize) -> &'a [u8] {
        self.front.get(place).map_or(&[], |(_, token)| *token)
    }

    /// Returns the token of this index, or nothing for a value in parentheses.
    pub fn word_at(&self, place: usize) -> &'a [u8] {
        match place.checked_sub(1) {
            Some(last) if is_word(self.at(last), "(") => &[],
            _ => self.at(place),
        }
    }

    /// Returns whether one of these words, parted by blanks, stands before the column, and not as a
    /// value.
    pub fn has_one(&self, words: &str) -> bool {
        (0..self.front.len()).any(|place| is_one(self.word_at(place), words))
    }

    /// Returns the column of the first of these words that stands before the column, or else 1.
    pub fn column_of(&self, words: &str) -> usize {
        for word in words.split(' ') {
            for (before, token) in &self.front {
                if is_word(token, word) {
                    return before.saturating_add(1);
                }
            }
        }
        1
    }

    /// Returns how many bytes there are between the token before the column and the column.
    pub fn blanks(&self) -> usize {
        let end = self
            .front
            .last()
            .map_or(0, |(before, token)| before.saturating_add(token.len()));
        self.before_len.saturating_sub(end)
    }

    /// Returns whether the line is a command: EXEC CICS stands behind a label.
    pub fn is_command(&self) -> bool {
        is_word(self.at(1), "EXEC") && is_word(self.at(2), "CICS")
    }

    /// Returns the form of the line, if the tokens before the column show it.
    pub fn form(&self) -> Option<LineForm> {
        if self.is_command() {
            let verb = command_named(self.at(3))?;
            return Some(LineForm::Command(queue_command(verb, self.at(4)).unwrap_or(verb)));
        }
        match start_of(self.at(0))? {
            FirstWord::Define => Some(LineForm::Define(define_object(self.at(1))?)),
            FirstWord::Load => Some(LineForm::Load(load_object(self.at(1))?)),
            FirstWord::Attach => Some(LineForm::Attach),
            FirstWord::Clock => Some(LineForm::Clock),
            FirstWord::Shutdown => Some(LineForm::Shutdown),
        }
    }
    /// Returns what an option of the line takes.
    pub fn kind_of(&self, option: &[u8]) -> Option<ValueKind> {
        kind_of(self.form()?, option_named(option)?)
    }

    /// Returns whether the token is the value of an option that takes a name.
    pub fn is_name(&self) -> bool {
        is_word(self.before(1), "(")
            && matches!(
                self.kind_of(self.before(2)),
                Some(ValueKind::Name8 | ValueKind::Name4)
            )
    }
}
