//! Appends byte strings, names and numbers to what was printed before.
//!
//! Errors of each call: `NoMemory`. Then what it appended is unspecified.

ghost use Rattle.std.specs.Prelude.{◌≡◌, ◌++◌, ◌+◌, ◌<◌, length, map, take, OnOk, IfOk};
ghost use Rattle.std.specs.List.{flat_map, list_all};
ghost use Rattle.std.specs.Fmt.{decimal};
ghost use Rattle.cics_script.specs.Texts.{has_character, quoted, digit, hexadecimal, text_of};
ghost use Rattle.cics_script.specs.Texts.{unfilled, name_text, bare, plain, is_plain};
ghost use lib.Chars.{codes};

use cics_names::{NoMemory, from_ebcdic};

// A blank in EBCDIC.
const BLANK: u8 = 0x40;

/// Appends a text.
pub fn push_str(out: &mut Vec<u8>, text: &str) -> Result<(), NoMemory>
    ensures { OnOk result (out.new.items ≡ out.old.items ++ text.now) }
{
    out.extend_from_slice(text.as_bytes())?;
    Ok(())
}

/// Appends a number in decimal.
pub fn push_number(out: &mut Vec<u8>, number: u64) -> Result<(), NoMemory>
    ensures { OnOk result (out.new.items ≡ out.old.items ++ decimal number) }
{
    // The digits before the last one. Most numbers of a journal have none.
    if number >= 10 {
        push_number(out, number / 10)?;
    }
    out.push(b'0' + (number % 10) as u8)?;
    Ok(())
}

/// Appends a byte string as a literal: in characters if each byte has one, else in hexadecimal.
pub fn push_text(out: &mut Vec<u8>, bytes: &[u8]) -> Result<(), NoMemory>
    ensures { OnOk result (out.new.items ≡ out.old.items ++ text_of bytes.now) }
{
    // Most texts are characters with no quote among them, which are appended at once.
    let start = out.len();
    if push_plain(out, bytes)? {
        return Ok(());
    }
    out.truncate(start);
    push_any(out, bytes)
}

/// Appends a name as a literal, without the blanks that fill it up.
pub fn push_name(out: &mut Vec<u8>, name: &[u8]) -> Result<(), NoMemory>
    ensures { OnOk result (out.new.items ≡ out.old.items ++ name_text name.now) }
{
    push_text(out, unfilled(name))
}

/// Appends a label or an abend code: its characters alone, without the blanks that fill it up.
pub fn push_bare(out: &mut Vec<u8>, name: &[u8]) -> Result<(), NoMemory>
    ensures { OnOk result (out.new.items ≡ out.old.items ++ bare name.now) }
{
    let bytes = unfilled(name);
    for code in bytes {
        if let Some(character) = from_ebcdic(*code) {
            out.push(character as u8)?;
        }
    }
    Ok(())
}

// The character of each code, but 0 for the quote's code and for a byte that is no code.
static CHARACTERS: [u8; 256] = [
    0, 0, 0, 0, 0, 0, 0, 0, 0, 0, 0, 0, 0, 0, 0, 0, 0, 0, 0, 0, 0, 0, 0, 0, 0, 0, 0, 0, 0, 0, 0, 0,
    0, 0, 0, 0, 0, 0, 0, 0, 0, 0, 0, 0, 0, 0, 0, 0, 0, 0, 0, 0, 0, 0, 0, 0, 0, 0, 0, 0, 0, 0, 0, 0,
    32, 0, 0, 0, 0, 0, 0, 0, 0, 0, 0, 46, 60, 40, 43, 0, 38, 0, 0, 0, 0, 0, 0, 0, 0, 0, 0, 36, 42,
    41, 59, 0, 45, 47, 0, 0, 0, 0, 0, 0, 0, 0, 0, 44, 37, 95, 62, 63, 0, 0, 0, 0, 0, 0, 0, 0, 0, 0,
    58, 35, 64, 0, 61, 34, 0, 97, 98, 99, 100, 101, 102, 103, 104, 105, 0, 0, 0, 0, 0, 0, 0, 106,
    107, 108, 109, 110, 111, 112, 113, 114, 0, 0, 0, 0, 0, 0, 0, 0, 115, 116, 117, 118, 119, 120,
    121, 122, 0, 0, 0, 0, 0, 0, 0, 0, 0, 0, 0, 0, 0, 0, 0, 0, 0, 0, 0, 0, 0, 0, 0, 65, 66, 67, 68,
    69, 70, 71, 72, 73, 0, 0, 0, 0, 0, 0, 0, 74, 75, 76, 77, 78, 79, 80, 81, 82, 0, 0, 0, 0, 0, 0,
    0, 0, 83, 84, 85, 86, 87, 88, 89, 90, 0, 0, 0, 0, 0, 0, 48, 49, 50, 51, 52, 53, 54, 55, 56, 57,
    0, 0, 0, 0, 0, 0,
];

// Returns the character of a byte, but 0 for a quote or none.
fn plain_character(code: u8) -> u8
    ensures { result ≡ plain code }
{
    CHARACTERS[usize::from(code)]
}

// Overwrites the end of a text, from `start` on, with the character of each code. Returns whether
// each has one other than the quote.
fn put_characters(text: &mut [u8], start: usize, codes: &[u8]) -> bool
    requires { start + length codes.now ≡ length text.old }
    ensures text { text.new ≡ take start text.old ++ map plain codes.now }
    ensures plain { result ≡ list_all is_plain codes.now }
{
    // No early end: most texts have such characters alone.
    let mut all = true;
    for (i, code) in codes.iter().enumerate() {
        let character = plain_character(*code);
        text[start + i] = character;
        all &= character != 0;
    }
    all
}

// Appends the characters of bytes in quotes. Returns whether that is their text: each has a
// character other than the quote.
fn push_plain(out: &mut Vec<u8>, bytes: &[u8]) -> Result<bool, NoMemory>
    ensures text { OnOk result (out.new.items
        ≡ out.old.items ++ (codes "'" ++ (map plain bytes.now ++ codes "'"))) }
    ensures plain { IfOk result (λ all. all ≡ list_all is_plain bytes.now) }
{
    out.push(b'\'')?;
    let start = out.len();
    out.extend_from_slice(bytes)?;
    let all = put_characters(out, start, bytes);
    out.push(b'\'')?;
    Ok(all)
}

// Appends a byte string as a literal, whatever its bytes.
#[inline(never)]
fn push_any(out: &mut Vec<u8>, bytes: &[u8]) -> Result<(), NoMemory>
    ensures { OnOk result (out.new.items ≡ out.old.items ++ text_of bytes.now) }
{
    if has_characters(bytes) {
        push_str(out, "'")?;
        push_quoted(out, bytes)?;
    } else {
        push_str(out, "X'")?;
        push_hexadecimal(out, bytes)?;
    }
    push_str(out, "'")
}

// Returns whether every byte has a character.
fn has_characters(bytes: &[u8]) -> bool
    ensures { result ≡ list_all has_character bytes.now }
{
    bytes.iter().all(|code| from_ebcdic(*code).is_some())
}

// Appends the characters of bytes as they stand between quotes.
fn push_quoted(out: &mut Vec<u8>, bytes: &[u8]) -> Result<(), NoMemory>
    ensures { OnOk result (out.new.items ≡ out.old.items ++ flat_map quoted bytes.now) }
{
    for code in bytes {
        if let Some(character) = from_ebcdic(*code) {
            if character == '\'' {
                out.push(b'\'')?;
            }
            out.push(character as u8)?;
        }
    }
    Ok(())
}

// Returns the hexadecimal digit of a number below 16.
fn digit(number: u8) -> u8
    requires { number < 16 }
    ensures { result ≡ digit number }
{
    if number < 10 {
        b'0' + number
    } else {
        b'A' + (number - 10)
    }
}

/// Appends two hexadecimal digits for each byte.
pub fn push_hexadecimal(out: &mut Vec<u8>, bytes: &[u8]) -> Result<(), NoMemory>
    ensures { OnOk result (out.new.items ≡ out.old.items ++ flat_map hexadecimal bytes.now) }
{
    for code in bytes {
        out.push(digit(*code / 16))?;
        out.push(digit(*code % 16))?;
    }
    Ok(())
}

/// Returns a name without the blanks that fill it up.
pub fn unfilled(name: &[u8]) -> &[u8]
    ensures { result.now ≡ unfilled name.now }
{
    let mut end = name.len();
    while end > 0 && name[end - 1] == BLANK {
        end -= 1;
    }
    &name[..end]
}
