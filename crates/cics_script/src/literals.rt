//! Reads literals: `'characters'`, with `''` for a quote, and `X'hexadecimal digits'`.
//!
//! A literal *says* its characters, each `''` as one quote, or the bytes that its digits make. A
//! character is *plain* if it stands for itself in a quoted literal: it has an EBCDIC code, and is
//! no quote.

ghost use Rattle.std.specs.Char.{is_ascii_hexdigit};
ghost use Rattle.std.specs.Prelude.{◌≡◌, ◌≤◌, ◌<◌, ◌+◌, ◌-◌, ◌*◌, true, IfOk, IfSome};
ghost use Rattle.std.specs.Prelude.{MatchOption, length, option_map, take};
ghost use Rattle.std.specs.List.{list_all, prefix_len};
ghost use Rattle.cics_script.specs.Tokens.{is_quote, hex_value, text_in};
ghost use Rattle.cics_script.specs.Literals.{Begins, Takes, is_plain, said, encoded, encoded_text};
ghost use Rattle.cics_script.specs.Literals.{recorded, IsWrittenAs};

use cics_names::{NoMemory, Record, to_ebcdic};
use std::alloc::{AllocError, Global};

const QUOTE: u8 = b'\'';

/// How a literal is written.
#[derive(Clone, Copy)]
pub enum Notation {
    Quoted,
    Hexadecimal,
}

/// A literal, borrowed from its line.
#[derive(Clone, Copy)]
pub struct Literal<'a> {
    pub notation: Notation,
    // If true, the literal says what stands between its quotes. An `Option` of that text would make
    // literals larger, and they are moved often.
    is_plain: bool,
    // How many bytes the literal takes after its first quote, its last quote included.
    len: usize,
    /// The line after the literal's first quote, up to the line's end.
    pub behind_quote: &'a [u8],
    ghost ends: { Takes notation behind_quote.now len },
    ghost as_written: { is_plain ≡ true →
        IsWrittenAs notation behind_quote.now (take (len - 1) behind_quote.now) },
}

/// How what a literal says is copied: as it is, or in EBCDIC.
#[derive(Clone, Copy)]
pub enum Encoding {
    AsWritten,
    Ebcdic,
}

// What stands first in the rest of a literal: its last quote, a byte, or what no literal has. The
// first two come with the line after them.
enum Piece<'a> {
    End(&'a [u8]),
    Byte(u8, &'a [u8]),
    Bad,
}

/// Returns whether a byte is the quote around literals.
pub fn is_quote_byte(byte: u8) -> bool
    ensures { result ≡ is_quote byte }
{
    byte == QUOTE
}

// The value of each hexadecimal digit, capital or small, and 16 for any other byte. A table, since
// no branch predictor foresees which range of digits or letters comes next.
static DIGITS: [u8; 256] = [
    16, 16, 16, 16, 16, 16, 16, 16, 16, 16, 16, 16, 16, 16, 16, 16, 16, 16, 16, 16, 16, 16, 16, 16,
    16, 16, 16, 16, 16, 16, 16, 16, 16, 16, 16, 16, 16, 16, 16, 16, 16, 16, 16, 16, 16, 16, 16, 16,
    0, 1, 2, 3, 4, 5, 6, 7, 8, 9, 16, 16, 16, 16, 16, 16, 16, 10, 11, 12, 13, 14, 15, 16, 16, 16,
    16, 16, 16, 16, 16, 16, 16, 16, 16, 16, 16, 16, 16, 16, 16, 16, 16, 16, 16, 16, 16, 16, 16, 10,
    11, 12, 13, 14, 15, 16, 16, 16, 16, 16, 16, 16, 16, 16, 16, 16, 16, 16, 16, 16, 16, 16, 16, 16,
    16, 16, 16, 16, 16, 16, 16, 16, 16, 16, 16, 16, 16, 16, 16, 16, 16, 16, 16, 16, 16, 16, 16, 16,
    16, 16, 16, 16, 16, 16, 16, 16, 16, 16, 16, 16, 16, 16, 16, 16, 16, 16, 16, 16, 16, 16, 16, 16,
    16, 16, 16, 16, 16, 16, 16, 16, 16, 16, 16, 16, 16, 16, 16, 16, 16, 16, 16, 16, 16, 16, 16, 16,
    16, 16, 16, 16, 16, 16, 16, 16, 16, 16, 16, 16, 16, 16, 16, 16, 16, 16, 16, 16, 16, 16, 16, 16,
    16, 16, 16, 16, 16, 16, 16, 16, 16, 16, 16, 16, 16, 16, 16, 16, 16, 16, 16, 16, 16, 16, 16, 16,
    16, 16, 16, 16, 16, 16, 16, 16, 16, 16, 16, 16, 16, 16,
];

// Returns the value of a hexadecimal digit, or at least 16 for any other byte.
fn digit_or_16(byte: u8) -> u8
    ensures { MatchOption (hex_value byte) (16 ≤ result)
        (λ value. (result ≡ value) × (value < 16)) }
{
    DIGITS[usize::from(byte)]
}

fn hex_digit(byte: u8) -> Option<u8>
    ensures { result ≡ hex_value byte }
{
    let value = digit_or_16(byte);
    if value < 16 { Some(value) } else { None }
}

// Returns the next piece of a quoted literal.
fn next_character(bytes: &[u8]) -> Piece<'_>
    ensures { Begins (text_in Notation.Quoted) bytes.now result }
{
    let Some((first, rest)) = bytes.split_first() else {
        return Piece::Bad;
    };
    if !is_quote_byte(*first) {
        return match to_ebcdic(char::from(*first)) {
            Some(_) => Piece::Byte(*first, rest),
            None => Piece::Bad,
        };
    }
    match rest.split_first() {
        Some((second, after)) if is_quote_byte(*second) => Piece::Byte(*second, after),
        _ => Piece::End(rest),
    }
}

// Returns the next piece of a hexadecimal literal: a byte is two digits.
fn next_pair(bytes: &[u8]) -> Piece<'_>
    ensures { Begins (text_in Notation.Hexadecimal) bytes.now result }
{
    let Some((first, rest)) = bytes.split_first() else {
        return Piece::Bad;
    };
    if is_quote_byte(*first) {
        return Piece::End(rest);
    }
    let Some((second, after)) = rest.split_first() else {
        return Piece::Bad;
    };
    match (hex_digit(*first), hex_digit(*second)) {
        (Some(high), Some(low)) => Piece::Byte(high * 16 + low, after),
        _ => Piece::Bad,
    }
}

// Returns the next piece of a literal.
fn next_piece(notation: Notation, bytes: &[u8]) -> Piece<'_>
    ensures { Begins (text_in notation) bytes.now result }
{
    match notation {
        Notation::Quoted => next_character(bytes),
        Notation::Hexadecimal => next_pair(bytes),
    }
}

/// The class of each byte: 3 if it is a capital or a digit, 2 if else a word may have it (small
/// letters and the hyphen), 1 for any other plain character, else 0. A table, since each byte of a
/// literal is looked up.
pub static CLASSES: [u8; 256] = [
    0, 0, 0, 0, 0, 0, 0, 0, 0, 0, 0, 0, 0, 0, 0, 0, 0, 0, 0, 0, 0, 0, 0, 0, 0, 0, 0, 0, 0, 0, 0, 0,
    1, 0, 1, 1, 1, 1, 1, 0, 1, 1, 1, 1, 1, 2, 1, 1, 3, 3, 3, 3, 3, 3, 3, 3, 3, 3, 1, 1, 1, 1, 1, 1,
    1, 3, 3, 3, 3, 3, 3, 3, 3, 3, 3, 3, 3, 3, 3, 3, 3, 3, 3, 3, 3, 3, 3, 3, 3, 3, 3, 0, 0, 0, 0, 1,
    0, 2, 2, 2, 2, 2, 2, 2, 2, 2, 2, 2, 2, 2, 2, 2, 2, 2, 2, 2, 2, 2, 2, 2, 2, 2, 2, 0, 0, 0, 0, 0,
    0, 0, 0, 0, 0, 0, 0, 0, 0, 0, 0, 0, 0, 0, 0, 0, 0, 0, 0, 0, 0, 0, 0, 0, 0, 0, 0, 0, 0, 0, 0, 0,
    0, 0, 0, 0, 0, 0, 0, 0, 0, 0, 0, 0, 0, 0, 0, 0, 0, 0, 0, 0, 0, 0, 0, 0, 0, 0, 0, 0, 0, 0, 0, 0,
    0, 0, 0, 0, 0, 0, 0, 0, 0, 0, 0, 0, 0, 0, 0, 0, 0, 0, 0, 0, 0, 0, 0, 0, 0, 0, 0, 0, 0, 0, 0, 0,
    0, 0, 0, 0, 0, 0, 0, 0, 0, 0, 0, 0, 0, 0, 0, 0, 0, 0, 0, 0, 0, 0, 0, 0, 0, 0, 0, 0, 0, 0, 0, 0,
];

fn is_plain_byte(byte: u8) -> bool
    ensures { result ≡ is_plain byte }
{
    CLASSES[usize::from(byte)] != 0
}

// Returns the same as `plain_len`, one character at a time.
fn short_plain_len(bytes: &[u8]) -> usize
    ensures value { result ≡ prefix_len is_plain bytes.now }
    ensures within { result ≤ length bytes.now }
{
    bytes.iter().take_while(|one| is_plain_byte(**one)).count()
}

// How many characters are looked up at once.
const GROUP: usize = 8;

// Returns the same as `short_plain_len`, with no branch: it begins at the last character.
fn group_plain_len(group: &[u8; GROUP]) -> usize
    ensures value { result ≡ prefix_len is_plain group.now }
    ensures within { result ≤ 8 }
{
    let mut count = 0;
    for i in 0..GROUP {
        count = if is_plain_byte(group[GROUP - 1 - i]) {
            count + 1
        } else {
            0
        };
    }
    count
}

// Returns how many characters stand before the first that isn't plain.
fn plain_len(bytes: &[u8]) -> usize
    ensures value { result ≡ prefix_len is_plain bytes.now }
    ensures within { result ≤ length bytes.now }
{
    let mut passed = 0;
    let mut rest = bytes;
    'blocks: loop {
        match rest.split_first_chunk::<GROUP>() {
            Some((group, behind)) => {
                let count = group_plain_len(group);
                passed += count;
                if count < GROUP {
                    return passed;
                }
                rest = behind;
            }
            None => return passed + short_plain_len(rest),
        }
    }
}

// The EBCDIC code of each character, and a blank's for a byte that is none.
static EBCDIC: [u8; 256] = [
    0x40, 0x40, 0x40, 0x40, 0x40, 0x40, 0x40, 0x40, 0x40, 0x40, 0x40, 0x40, 0x40, 0x40, 0x40, 0x40,
    0x40, 0x40, 0x40, 0x40, 0x40, 0x40, 0x40, 0x40, 0x40, 0x40, 0x40, 0x40, 0x40, 0x40, 0x40, 0x40,
    0x40, 0x40, 0x7F, 0x7B, 0x5B, 0x6C, 0x50, 0x7D, 0x4D, 0x5D, 0x5C, 0x4E, 0x6B, 0x60, 0x4B, 0x61,
    0xF0, 0xF1, 0xF2, 0xF3, 0xF4, 0xF5, 0xF6, 0xF7, 0xF8, 0xF9, 0x7A, 0x5E, 0x4C, 0x7E, 0x6E, 0x6F,
    0x7C, 0xC1, 0xC2, 0xC3, 0xC4, 0xC5, 0xC6, 0xC7, 0xC8, 0xC9, 0xD1, 0xD2, 0xD3, 0xD4, 0xD5, 0xD6,
    0xD7, 0xD8, 0xD9, 0xE2, 0xE3, 0xE4, 0xE5, 0xE6, 0xE7, 0xE8, 0xE9, 0x40, 0x40, 0x40, 0x40, 0x6D,
    0x40, 0x81, 0x82, 0x83, 0x84, 0x85, 0x86, 0x87, 0x88, 0x89, 0x91, 0x92, 0x93, 0x94, 0x95, 0x96,
    0x97, 0x98, 0x99, 0xA2, 0xA3, 0xA4, 0xA5, 0xA6, 0xA7, 0xA8, 0xA9, 0x40, 0x40, 0x40, 0x40, 0x40,
    0x40, 0x40, 0x40, 0x40, 0x40, 0x40, 0x40, 0x40, 0x40, 0x40, 0x40, 0x40, 0x40, 0x40, 0x40, 0x40,
    0x40, 0x40, 0x40, 0x40, 0x40, 0x40, 0x40, 0x40, 0x40, 0x40, 0x40, 0x40, 0x40, 0x40, 0x40, 0x40,
    0x40, 0x40, 0x40, 0x40, 0x40, 0x40, 0x40, 0x40, 0x40, 0x40, 0x40, 0x40, 0x40, 0x40, 0x40, 0x40,
    0x40, 0x40, 0x40, 0x40, 0x40, 0x40, 0x40, 0x40, 0x40, 0x40, 0x40, 0x40, 0x40, 0x40, 0x40, 0x40,
    0x40, 0x40, 0x40, 0x40, 0x40, 0x40, 0x40, 0x40, 0x40, 0x40, 0x40, 0x40, 0x40, 0x40, 0x40, 0x40,
    0x40, 0x40, 0x40, 0x40, 0x40, 0x40, 0x40, 0x40, 0x40, 0x40, 0x40, 0x40, 0x40, 0x40, 0x40, 0x40,
    0x40, 0x40, 0x40, 0x40, 0x40, 0x40, 0x40, 0x40, 0x40, 0x40, 0x40, 0x40, 0x40, 0x40, 0x40, 0x40,
    0x40, 0x40, 0x40, 0x40, 0x40, 0x40, 0x40, 0x40, 0x40, 0x40, 0x40, 0x40, 0x40, 0x40, 0x40, 0x40,
];

// Returns a character as it is, or its EBCDIC code.
fn encoded_byte(encoding: Encoding, byte: u8) -> u8
    ensures { result ≡ encoded encoding byte }
{
    match encoding {
        Encoding::AsWritten => byte,
        Encoding::Ebcdic => EBCDIC[usize::from(byte)],
    }
}

// Replaces a text by the EBCDIC codes of as many characters.
fn put_codes(text: &mut [u8], plain: &[u8])
    requires { length plain.now ≡ length text.old }
    ensures { text.new ≡ encoded_text Encoding.Ebcdic plain.now }
{
    for (i, byte) in plain.iter().enumerate() {
        text[i] = encoded_byte(Encoding::Ebcdic, *byte);
    }
}

// The most characters of a text whose record is made without a `Vec`.
const SHORT: usize = 30;

// Returns a copy of plain characters.
fn copy_plain(alloc: Global, encoding: Encoding, plain: &[u8]) -> Result<Vec<u8>, AllocError>
    ensures { IfOk result (λ text. text.items ≡ encoded_text encoding plain.now) }
{
    let mut text = Vec::from_slice(alloc, plain)?;
    match encoding {
        Encoding::AsWritten => Ok(text),
        Encoding::Ebcdic => {
            put_codes(&mut text, plain);
            Ok(text)
        }
    }
}

// Returns whether every byte is a hexadecimal digit. No early end: there is one branch for all.
fn are_digits(bytes: &[u8]) -> bool
    ensures { result ≡ list_all is_ascii_hexdigit bytes.now }
{
    let mut all = true;
    for byte in bytes {
        all &= byte.is_ascii_hexdigit();
    }
    all
}

// How many hexadecimal digits are tested at once.
const DIGITS_AT_ONCE: usize = 16;

// Passes the first plain characters of a quoted literal, or 16 digits of a hexadecimal one, and
// returns the rest. If it doesn't begin so, returns all bytes.
fn behind_run(notation: Notation, bytes: &[u8]) -> &[u8]
    ensures rest { option_map (λ t. t.1) (text_in notation result.now)
        ≡ option_map (λ t. t.1) (text_in notation bytes.now) }
    ensures within { length result.now ≤ length bytes.now }
{
    match notation {
        Notation::Quoted => bytes.split_at(short_plain_len(bytes)).1,
        Notation::Hexadecimal => match bytes.split_first_chunk::<DIGITS_AT_ONCE>() {
            Some((digits, rest)) if are_digits(digits) => rest,
            _ => bytes,
        },
    }
}

// Returns what follows a literal, or `None` if the bytes are no literal. They begin after its first
// quote.
#[inline(never)]
fn behind_pieces(notation: Notation, bytes: &[u8]) -> Option<&[u8]>
    ensures { option_map (λ rest. rest.now) result
        ≡ option_map (λ t. t.1) (text_in notation bytes.now) }
{
    let mut rest = bytes;
    'pieces: loop {
        match next_piece(notation, behind_run(notation, rest)) {
            Piece::Byte(_, after) => rest = after,
            Piece::End(after) => return Some(after),
            Piece::Bad => return None,
        }
    }
}

// Writes what a quoted literal says into a text that has a byte for each of the literal's bytes.
// Returns how many characters that is. Writes the first of two quotes too, and the second in its
// place: no branch predictor foresees where quotes stand.
fn put_characters(text: &mut [u8], encoding: Encoding, bytes: &[u8]) -> usize
    requires { Takes Notation.Quoted bytes.now (length text.old) }
    ensures { take result text.new
        ≡ encoded_text encoding (said (text_in Notation.Quoted bytes.now)) }
{
    let mut count = 0;
    let mut is_first = false;
    for i in 0..text.len() {
        is_first = is_quote_byte(bytes[i]) && !is_first;
        text[count] = encoded_byte(encoding, bytes[i]);
        count += usize::from(!is_first);
    }
    count
}

// Fills a text with the bytes that a literal's digits make, two digits for each.
fn put_bytes(text: &mut [u8], encoding: Encoding, digits: &[u8])
    requires { Takes Notation.Hexadecimal digits.now (2 * length text.old + 1) }
    ensures { text.new ≡ encoded_text encoding (said (text_in Notation.Hexadecimal digits.now)) }
{
    for i in 0..text.len() {
        let high = digit_or_16(digits[2 * i]);
        let low = digit_or_16(digits[2 * i + 1]);
        text[i] = encoded_byte(encoding, high * 16 + low);
    }
}

/// Returns the literal after a first quote, and the line after it, or `None` if the bytes are no
/// literal.
#[inline(always)]
pub fn literal_at(notation: Notation, behind_quote: &[u8]) -> Option<(Literal<'_>, &[u8])>
    ensures rest { option_map (λ found. found.1.now) result
        ≡ option_map (λ t. t.1) (text_in notation behind_quote.now) }
    ensures literal { IfSome result (λ found. (found.0.notation ≡ notation)
        × (found.0.behind_quote.now ≡ behind_quote.now)) }
{
    let (is_plain, rest) = match notation {
        Notation::Quoted => {
            let plain_len = plain_len(behind_quote);
            match next_character(behind_quote.split_at(plain_len).1) {
                Piece::End(rest) => (true, rest),
                Piece::Byte(_, after) => (false, behind_pieces(notation, after)?),
                Piece::Bad => return None,
            }
        }
        Notation::Hexadecimal => (false, behind_pieces(notation, behind_quote)?),
    };
    let literal = Literal {
        notation,
        is_plain,
        len: behind_quote.len() - rest.len(),
        behind_quote,
    };
    Some((literal, rest))
}

impl<'a> Literal<'a> {
    /// Returns what the literal says, as it stands in the line. Returns `None` if the literal is
    /// hexadecimal or has a doubled quote.
    pub fn plain(self) -> Option<&'a [u8]>
        ensures { IfSome result (λ text.
            IsWrittenAs self.entry.notation self.entry.behind_quote.now text.now) }
    {
        if self.is_plain {
            Some(self.behind_quote.split_at(self.len - 1).0)
        } else {
            None
        }
    }

    /// Copies what the literal says. Errors: `AllocError`.
    pub fn copy(self, alloc: Global, encoding: Encoding) -> Result<Vec<u8>, AllocError>
        ensures { IfOk result (λ text. text.items
            ≡ encoded_text encoding
            (said (text_in self.entry.notation self.entry.behind_quote.now))) }
    {
        match self.plain() {
            Some(text) => copy_plain(alloc, encoding, text),
            None => self.copy_pieces(alloc, encoding),
        }
    }

    // Copies what the literal says, whatever it has between its quotes.
    #[inline(never)]
    fn copy_pieces(self, alloc: Global, encoding: Encoding) -> Result<Vec<u8>, AllocError>
        ensures { IfOk result (λ text. text.items
            ≡ encoded_text encoding
            (said (text_in self.entry.notation self.entry.behind_quote.now))) }
    {
        match self.notation {
            Notation::Quoted => {
                let mut text = vec![in alloc; 0; self.len]?;
                let count = put_characters(&mut text, encoding, self.behind_quote);
                text.truncate(count);
                Ok(text)
            }
            Notation::Hexadecimal => {
                // Two digits for each byte, and the last quote.
                let mut text = vec![in alloc; 0; self.len / 2]?;
                put_bytes(&mut text, encoding, self.behind_quote);
                Ok(text)
            }
        }
    }

    // Returns the same as `record`. Apart, as most literals are plain and short.
    #[inline(never)]
    fn long_record(self, alloc: Global) -> Result<Record, NoMemory>
        ensures { IfOk result (λ made. made
            ≡ recorded self.entry.notation
            (said (text_in self.entry.notation self.entry.behind_quote.now))) }
    {
        match self.notation {
            Notation::Quoted => Ok(Record::new(self.copy(alloc, Encoding::Ebcdic)?)),
            Notation::Hexadecimal => Ok(Record::new(self.copy(alloc, Encoding::AsWritten)?)),
        }
    }

    /// Returns the record that the literal says: characters in EBCDIC, or bytes. Errors:
    /// `NoMemory`.
    #[inline(never)]
    pub fn record(self, alloc: Global) -> Result<Record, NoMemory>
        ensures { IfOk result (λ made. made
            ≡ recorded self.entry.notation
            (said (text_in self.entry.notation self.entry.behind_quote.now))) }
    {
        match (self.notation, self.plain()) {
            (Notation::Quoted, Some(text)) if text.len() <= SHORT => {
                let mut room = [0; SHORT];
                let codes = &mut room[..text.len()];
                put_codes(codes, text);
                Record::from_slice(alloc, codes)
            }
            _ => self.long_record(alloc),
        }
    }
}
