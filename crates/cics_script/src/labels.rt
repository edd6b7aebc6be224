//! Reads the label before a command.

ghost use Rattle.std.specs.Prelude.{◌≡◌, ◌≤◌, ◌||◌, None, length, map, take};
ghost use Rattle.std.specs.List.{list_all};
ghost use Rattle.cics_script.specs.Tokens.{capital, is_capital, is_digit};
ghost use Rattle.cics_script.specs.Words.{lookup, starts};
ghost use Rattle.cics_script.specs.Lines.{label_in};

use crate::faults::LineFault;
use crate::tokens::is_in_label;
use crate::words::capital_of;
use cics_names::Name8;

// The most characters of a label.
const LABEL: usize = 8;

// Returns whether a word has capitals and digits alone. No early end: there is one branch for all.
fn is_in_capitals(word: &[u8]) -> bool
    ensures { result ≡ list_all (λ c. is_capital c || is_digit c) word.now }
{
    let mut all = true;
    for byte in word {
        all &= is_in_label(*byte);
    }
    all
}

// Writes the capitals of a word over the start of a text. Returns whether all are letters or
// digits.
fn put_capitals(text: &mut [u8; LABEL], word: &[u8]) -> bool
    requires { length word.now ≤ 8 }
    ensures text { take (length word.now) text.new ≡ map capital word.now }
    ensures label { result ≡ list_all (λ c. is_capital c || is_digit c) (map capital word.now) }
{
    let mut all = true;
    for (i, byte) in word.iter().enumerate() {
        let letter = capital_of(*byte);
        text[i] = letter;
        all &= is_in_label(letter);
    }
    all
}

// Returns the label that a word of at most eight bytes is, which may have small letters.
#[cold]
#[inline(never)]
fn small_label_of(word: &[u8]) -> Result<Name8, LineFault>
    requires starts { lookup (map capital word.now) starts ≡ None }
    requires short { length word.now ≤ 8 }
    ensures { result ≡ label_in (map capital word.now) }
{
    let mut capitals = [0; LABEL];
    if !put_capitals(&mut capitals, word) {
        return Err(LineFault::UnknownWord);
    }
    Name8::new(&capitals[..word.len()]).or(Err(LineFault::UnknownWord))
}

/// Returns the label that a word is, none of `FirstWord`: at most eight letters and digits.
pub fn label_of(word: &[u8]) -> Result<Name8, LineFault>
    requires { lookup (map capital word.now) starts ≡ None }
    ensures { result ≡ label_in (map capital word.now) }
{
    if word.len() > LABEL {
        return Err(LineFault::UnknownWord);
    }
    // Most labels have no small letter.
    if is_in_capitals(word) {
        return Name8::new(word).or(Err(LineFault::UnknownWord));
    }
    small_label_of(word)
}
