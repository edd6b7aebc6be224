//! Cuts a line into tokens: words, numbers, literals and parentheses.
//!
//! `next_token` reads any token. `next_word`, `next_value` and `named` are quicker, and read the
//! tokens of most lines. Their `None` decides nothing: then `next_token` says what stands there.
//!
//! A token is *broken* if it can't be read. That is: a byte that begins none, a wrong or open
//! literal, or a number above 64 bits.

ghost use Rattle.std.specs.Prelude.{◌≡◌, ◌==◌, ◌+◌, ◌-◌, ◌*◌, ◌<◌, ◌≤◌, ◌^◌, Option, Some, None};
ghost use Rattle.std.specs.Prelude.{ℕ, List};
ghost use Rattle.std.specs.Prelude.{Ok, IfSome, true, ◌||◌, ◌++◌, drop, length, nat_lt};
ghost use Rattle.std.specs.Prelude.{if◌then◌else◌, option_map};
ghost use Rattle.std.specs.List.{prefix_len};
ghost use Rattle.cics_script.specs.Tokens.{is_blank, is_capital, is_digit, is_letter, is_word_byte};
ghost use Rattle.cics_script.specs.Tokens.{after_blanks, value_of, text_in, token_at, number_at};
ghost use Rattle.cics_script.specs.Tokens.{as_literal, behind_x};
ghost use Rattle.cics_script.specs.Layout.{ends, is_word};
ghost use Rattle.cics_script.specs.Views.{GivesToken, Takes, IsNamed, CutsOff};
ghost use Rattle.cics_script.specs.Words.{lookup};

use crate::faults::LineFault;
use crate::literals::{CLASSES, Literal, Notation, is_quote_byte, literal_at};
use crate::words::capital_of;

/// A token, borrowed from its line.
#[derive(Clone, Copy)]
pub enum Token<'a> {
    /// A word as it stands in the line. Small letters count as capitals.
    Word(&'a [u8]),
    Number(u64),
    Literal(Literal<'a>),
    Opening,
    Closing,
}

fn is_blank_byte(byte: u8) -> bool
    ensures { result ≡ is_blank byte }
{
    byte == b' ' || byte == b'\t'
}

fn is_letter_byte(byte: u8) -> bool
    ensures { result ≡ is_letter byte }
{
    byte.is_ascii_alphabetic()
}

// Returns whether a byte has class 2 or 3.
fn is_in_word(byte: u8) -> bool
    ensures { result ≡ is_word_byte byte }
{
    CLASSES[usize::from(byte)] > 1
}

/// Returns whether a byte is a capital or a digit.
pub fn is_in_label(byte: u8) -> bool
    ensures { result ≡ (is_capital byte || is_digit byte) }
{
    CLASSES[usize::from(byte)] > 2
}

fn blanks_len(bytes: &[u8]) -> usize
    ensures value { result ≡ prefix_len is_blank bytes.now }
    ensures within { result ≤ length bytes.now }
{
    bytes.iter().take_while(|one| is_blank_byte(**one)).count()
}

fn word_len(bytes: &[u8]) -> usize
    ensures value { result ≡ prefix_len is_word_byte bytes.now }
    ensures within { result ≤ length bytes.now }
{
    bytes.iter().take_while(|byte| is_in_word(**byte)).count()
}

fn digits_len(bytes: &[u8]) -> usize
    ensures value { result ≡ prefix_len is_digit bytes.now }
    ensures within { result ≤ length bytes.now }
{
    bytes.iter().take_while(|one| one.is_ascii_digit()).count()
}

/// Returns a line without the spaces and tabs at its start.
pub fn skip_blanks(bytes: &[u8]) -> &[u8]
    ensures { result.now ≡ after_blanks bytes.now }
{
    bytes.split_at(blanks_len(bytes)).1
}

// Returns a number with one digit more, or `None` if 64 bits don't hold it.
fn with_digit(value: u64, digit: u8) -> Option<u64>
    ensures { result ≡ (if nat_lt (value * 10 + (digit - 48)) (2 ^ 64) then Some
        (value * 10 + (digit - 48)) else None) }
{
    value
        .checked_mul(10)?
        .checked_add(u64::from(digit.saturating_sub(b'0')))
}

// Returns the value of digits, or `None` if 64 bits don't hold it.
fn number_of(digits: &[u8]) -> Option<u64>
    ensures { result ≡ (if nat_lt (value_of digits.now) (2 ^ 64) then Some
        (value_of digits.now) else None) }
{
    let mut value = 0;
    for digit in digits {
        value = with_digit(value, *digit)?;
    }
    Some(value)
}

fn read_number(bytes: &[u8]) -> Result<(Token<'_>, &[u8]), LineFault>
    ensures { GivesToken result (number_at bytes.now) }
{
    let (digits, rest) = bytes.split_at(digits_len(bytes));
    match number_of(digits) {
        Some(number) => Ok((Token::Number(number), rest)),
        None => Err(LineFault::BadNumber),
    }
}

// Reads a literal, from after its first quote.
#[inline(always)]
fn read_literal(notation: Notation, behind_quote: &[u8]) -> Result<(Token<'_>, &[u8]), LineFault>
    ensures { GivesToken result (as_literal notation (text_in notation behind_quote.now)) }
{
    match literal_at(notation, behind_quote) {
        Some((literal, rest)) => Ok((Token::Literal(literal), rest)),
        None => Err(LineFault::BadLiteral),
    }
}

// Returns what follows `X'` or `x'`, if the line begins so.
fn hexadecimal_digits(bytes: &[u8]) -> Option<&[u8]>
    ensures { option_map (λ digits. digits.now) result ≡ behind_x bytes.now }
{
    let (first, rest) = bytes.split_first()?;
    let (second, digits) = rest.split_first()?;
    (first.to_ascii_uppercase() == b'X' && is_quote_byte(*second)).then_some(digits)
}

// Returns the first token and the bytes after it. The bytes begin with no blank.
fn read_token(bytes: &[u8]) -> Result<(Token<'_>, &[u8]), LineFault>
    requires { 0 < length bytes.now }
    ensures { GivesToken result (token_at bytes.now) }
{
    if let Some(digits) = hexadecimal_digits(bytes) {
        return read_literal(Notation::Hexadecimal, digits);
    }
    let first = bytes[0];
    if is_letter_byte(first) {
        let (word, rest) = bytes.split_at(word_len(bytes));
        return Ok((Token::Word(word), rest));
    }
    if first.is_ascii_digit() {
        return read_number(bytes);
    }
    let rest = bytes.split_at(1).1;
    if is_quote_byte(first) {
        return read_literal(Notation::Quoted, rest);
    }
    match first {
        b'(' => Ok((Token::Opening, rest)),
        b')' => Ok((Token::Closing, rest)),
        _ => Err(LineFault::UnknownWord),
    }
}

/// Returns the bytes of the first token, and those after it. Returns `None` if the token is broken.
/// A blank begins no token: call [`skip_blanks`] before.
pub fn whole_token(bytes: &[u8]) -> Option<(&[u8], &[u8])>
    requires { 0 < length bytes.now }
    ensures { CutsOff bytes.now result }
{
    match read_token(bytes) {
        Ok((_, behind)) => Some(bytes.split_at(bytes.len() - behind.len())),
        Err(_) => None,
    }
}

/// Returns whether a line begins with a text. No early end, so that a constant text is compared as
/// a number.
pub fn begins_with(bytes: &[u8], text: &[u8]) -> bool
    ensures { result ≡ true →
        bytes.now ≡ text.now ++ drop (length text.now) bytes.now }
{
    if bytes.len() < text.len() {
        return false;
    }
    let mut all = true;
    for (i, byte) in text.iter().enumerate() {
        all &= bytes[i] == *byte;
    }
    all
}

// Returns whether a word right before these bytes ends there: none are left, or a space or a
// parenthesis is the first. A tab or a quote ends a word too, but is rare.
fn is_ended(bytes: &[u8]) -> bool
    ensures { result ≡ ends bytes.now }
{
    matches!(bytes.first(), None | Some(b' ' | b'(' | b')'))
}

/// Returns `meaning` and the line after the word `capitals`, if the line begins with that whole
/// word. `meaning` is what a table has for the word. `None` decides nothing: the word may have
/// small letters, or a tab after it.
#[inline(always)]
pub fn named<'a, X: Copy>(bytes: &'a [u8], capitals: &[u8], meaning: X) -> Option<(X, &'a [u8])>
    requires capitals { is_word capitals.now ≡ true }
    ensures { (rows : List (List ℕ × X)) → lookup capitals.now rows ≡ Some meaning →
        IfSome result (λ found. IsNamed rows found.0 bytes.entry.now found.1.now) }
{
    if !begins_with(bytes, capitals) {
        return None;
    }
    let rest = bytes.split_at(capitals.len()).1;
    if !is_ended(rest) {
        return None;
    }
    Some((meaning, rest))
}

/// Returns the next token and the line after it, if it is a word that doesn't begin with X (as
/// hexadecimal literals do). `None` decides nothing.
pub fn next_word(bytes: &[u8]) -> Option<(&[u8], &[u8])>
    ensures { IfSome result (λ found.
        Takes bytes.entry.now (Ok (Some (Token.Word found.0, found.1)))) }
{
    let front = skip_blanks(bytes);
    let (first, _) = front.split_first()?;
    if !is_letter_byte(*first) || capital_of(*first) == b'X' {
        return None;
    }
    Some(front.split_at(word_len(front)))
}

/// Returns the next token and the line after it, if it is a word that [`next_word`] returns, or a
/// quoted literal or a number with no blank before it. `None` decides nothing. Inlined: each value
/// in parentheses passes through it.
#[inline(always)]
pub fn next_value(bytes: &[u8]) -> Option<(Token<'_>, &[u8])>
    ensures { IfSome result (λ found. Takes bytes.now (Ok (Some found))) }
{
    let (first, behind_quote) = bytes.split_first()?;
    if is_quote_byte(*first) {
        return read_literal(Notation::Quoted, behind_quote).ok();
    }
    if first.is_ascii_digit() {
        return read_number(bytes).ok();
    }
    let (word, rest) = next_word(bytes)?;
    Some((Token::Word(word), rest))
}

/// Returns the next token and the line after it, or `None` at the line's end. Cold, since the calls
/// above read most tokens.
///
/// Errors: the fault of a broken token.
#[cold]
#[inline(never)]
pub fn next_token(bytes: &[u8]) -> Result<Option<(Token<'_>, &[u8])>, LineFault>
    ensures { Takes bytes.now result }
{
    let front = skip_blanks(bytes);
    if front.is_empty() {
        return Ok(None);
    }
    Ok(Some(read_token(front)?))
}
