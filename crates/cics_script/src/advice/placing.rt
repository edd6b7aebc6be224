//! Where the caret of a fault stands.

ghost use Rattle.std.specs.Prelude.{◌≡◌, ◌≤◌, ◌-◌, length, is_some};
ghost use Rattle.std.specs.List.{prefix_len, list_any};
ghost use Rattle.cics_script.specs.Tokens.{is_quote, text_in};
ghost use Rattle.cics_script.specs.Advice.Advice.{has_code, fault_in_quotes, fault_within};
ghost use Rattle.cics_script.specs.Advice.Advice.{told_column};

use crate::Placed;
use crate::literals::{Notation, is_quote_byte, literal_at};
use cics_names::to_ebcdic;

// Returns whether a character may stand in a quoted literal.
fn has_code(byte: u8) -> bool
    ensures { result ≡ has_code byte }
{
    to_ebcdic(char::from(byte)).is_some()
}

// Returns how many bytes stand before the first that no quoted literal has.
fn coded_len(bytes: &[u8]) -> usize
    ensures value { result ≡ prefix_len has_code bytes.now }
    ensures within { result ≤ length bytes.now }
{
    bytes.iter().take_while(|one| has_code(**one)).count()
}

// Returns whether a literal follows a first quote.
fn is_literal(text: &[u8]) -> bool
    ensures { result ≡ is_some (text_in Notation.Quoted text.now) }
{
    literal_at(Notation::Quoted, text).is_some()
}

fn has_quote(text: &[u8]) -> bool
    ensures { result ≡ list_any is_quote text.now }
{
    text.iter().any(|one| is_quote_byte(*one))
}

// Returns the same as `fault_within`, from after a first quote.
fn fault_in_quotes(text: &[u8]) -> usize
    ensures value { result ≡ fault_in_quotes text.now }
    ensures within { result ≤ length text.now }
{
    let coded = coded_len(text);
    let (_, rest) = text.split_at(coded);
    if !is_literal(text) && has_quote(rest) {
        1 + coded
    } else {
        0
    }
}

/// Returns how many bytes of a token stand before what is at fault in it. It is 0, unless the token
/// is a quoted literal that is closed, but has a byte that no quoted literal has.
pub fn fault_within(token: &[u8]) -> usize
    ensures value { result ≡ fault_within token.now }
    ensures within { result ≤ length token.now - 1 }
{
    match token.split_first() {
        Some((first, text)) if is_quote_byte(*first) => fault_in_quotes(text),
        _ => 0,
    }
}

/// Returns the column in which the caret of a fault stands: that of the fault, or within a literal
/// that of the byte that no literal has.
#[tactic(auto, using(std::proofs::lemmas::List::drop_min))]
pub fn told_column(line: &[u8], placed: Placed) -> Option<usize>
    ensures { result ≡ told_column line.now placed }
{
    let column = placed.column?;
    let (_, token) = line.split_at(column.saturating_sub(1).min(line.len()));
    Some(column + fault_within(token))
}
