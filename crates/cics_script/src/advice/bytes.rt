//! Bytes that no line has, and bytes that no quoted literal has.

use crate::advice::placing::fault_within;
use crate::advice::tables::{CODES, FOREIGN, LETTERS, NOT_ASCII};
use crate::spelling::{push_hexadecimal, push_str};
use cics_names::{NoMemory, to_ebcdic};

// The most characters of a literal that is written in hexadecimal.
const MOST_IN_HEXADECIMAL: usize = 24;

/// A character that isn't ASCII, or that can't be printed.
#[derive(Clone, Copy)]
struct Foreign<'a> {
    bytes: &'a [u8],
    character: char,
    encoding: &'static str,
}

/// A quoted literal with a byte that no quoted literal has, and the text between its quotes.
#[derive(Clone, Copy)]
pub struct Unlisted<'a> {
    byte: u8,
    text: &'a [u8],
    has_quote: bool,
}

// Returns the first character, if it is one of several bytes in UTF-8.
fn utf8_character(bytes: &[u8]) -> Option<Foreign<'_>> {
    let len = match bytes.first()? {
        0xC2..=0xDF => 2,
        0xE0..=0xEF => 3,
        0xF0..=0xF4 => 4,
        _ => return None,
    };
    let bytes = bytes.get(..len)?;
    let text = str::from_utf8(bytes).ok()?;
    Some(Foreign {
        bytes,
        character: text.chars().next()?,
        encoding: " in UTF-8",
    })
}

// Returns the mark with which a text in UTF-16 begins.
fn utf16_mark(bytes: &[u8]) -> Option<Foreign<'_>> {
    let bytes = bytes.get(..2)?;
    match bytes {
        [0xFF, 0xFE] | [0xFE, 0xFF] => Some(Foreign {
            bytes,
            character: '\u{FEFF}',
            encoding: " in UTF-16",
        }),
        _ => None,
    }
}

// Returns the character of a byte in Windows-1252, which has that of Latin-1 for most bytes.
fn windows_character(byte: u8) -> char {
    match byte {
        0x85 => '\u{2026}',
        0x91 => '\u{2018}',
        0x92 => '\u{2019}',
        0x93 => '\u{201C}',
        0x94 => '\u{201D}',
        0x96 => '\u{2013}',
        0x97 => '\u{2014}',
        _ => char::from(byte),
    }
}

// Returns the first byte as a character.
fn one_byte(bytes: &[u8]) -> Option<Foreign<'_>> {
    let byte = *bytes.first()?;
    Some(Foreign {
        bytes: bytes.get(..1)?,
        character: windows_character(byte),
        encoding: if byte < 0x80 { "" } else { " in Windows-1252" },
    })
}

// Returns the letter of ASCII that is most like a letter of Latin-1.
fn letter_of(character: char) -> Option<u8> {
    let place = u32::from(character).checked_sub(0xC0)?;
    let letter = LETTERS.as_bytes().get(place as usize)?;
    (*letter != b' ').then_some(*letter)
}

fn push_bytes(out: &mut Vec<u8>, bytes: &[u8]) -> Result<(), NoMemory> {
    push_str(out, "X'")?;
    push_hexadecimal(out, bytes)?;
    push_str(out, "'")
}

/// Puts what the first of these bytes is, which no line has, and what to type in its place.
pub fn push_foreign(out: &mut Vec<u8>, bytes: &[u8]) -> Result<(), NoMemory> {
    let found = utf16_mark(bytes)
        .or_else(|| utf8_character(bytes))
        .or_else(|| one_byte(bytes));
    let Some(foreign) = found else {
        return Ok(());
    };
    push_bytes(out, foreign.bytes)?;
    push_str(out, foreign.encoding)?;
    let mut rows = FOREIGN.iter();
    if let Some(row) = rows.find(|row| row.0.contains(foreign.character)) {
        return push_str(out, row.1);
    }
    let Some(letter) = letter_of(foreign.character) else {
        return push_str(out, NOT_ASCII);
    };
    push_str(out, " is no letter of ASCII: type ")?;
    out.push(letter)?;
    Ok(())
}

// Returns the code of a character in EBCDIC code page 037.
fn code_of(byte: u8) -> u8 {
    let mut rows = CODES.iter();
    let unlisted = rows.find(|row| row.0 == byte).map(|row| row.1);
    to_ebcdic(char::from(byte)).or(unlisted).unwrap_or(0x40)
}

impl<'a> Unlisted<'a> {
    /// Returns the literal at the start of a text, if it is such a one.
    pub fn new(token: &'a [u8]) -> Option<Unlisted<'a>> {
        let within = fault_within(token);
        let byte = *token.get(within)?;
        if within == 0 {
            return None;
        }
        let (_, behind_quote) = token.split_first()?;
        let mut pieces = behind_quote.split(|one| *one == b'\'');
        let text = pieces.next()?;
        let after = pieces.next().unwrap_or(&[]);
        Some(Unlisted {
            byte,
            text,
            has_quote: text.len() < within || (after.is_empty() && pieces.next().is_some()),
        })
    }

    fn push_byte(&self, out: &mut Vec<u8>) -> Result<(), NoMemory> {
        if self.byte == b'\t' {
            return push_str(out, "tab");
        }
        out.push(self.byte)?;
        Ok(())
    }

    /// Puts that a name can't have the byte.
    pub fn push_in_name(&self, out: &mut Vec<u8>) -> Result<(), NoMemory> {
        push_str(out, "a name has no ")?;
        self.push_byte(out)?;
        push_str(out, ", only characters that docs/LANGUAGE.md lists")
    }

    /// Puts that the literal can't have the byte, and how it is written in hexadecimal.
    pub fn push_in_text(&self, out: &mut Vec<u8>) -> Result<(), NoMemory> {
        push_str(out, "a literal in quotes has no ")?;
        self.push_byte(out)?;
        push_str(out, ", which is ")?;
        push_bytes(out, &[code_of(self.byte)])?;
        if self.has_quote || self.text.len() > MOST_IN_HEXADECIMAL {
            return push_str(out, ": write all of the literal as X'..'");
        }
        push_str(out, ": write X'")?;
        for byte in self.text {
            push_hexadecimal(out, &[code_of(*byte)])?;
        }
        push_str(out, "'")
    }
}
