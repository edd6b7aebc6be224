//! Finds what the options that were read give.

ghost use Rattle.std.specs.Prelude.{◌≡◌, Ok, option_map};
ghost use Rattle.cics_script.specs.Faults.{Reads};
ghost use Rattle.cics_script.specs.Views.{content, entries};
ghost use Rattle.cics_script.specs.Values.{content_at, text_at, name8_at, name4_at, amount_at};
ghost use Rattle.cics_script.specs.Values.{needed, as_needed_amount};

use crate::faults::LineFault;
use crate::options::{Found, Value};
use crate::words::{OptionWord, is_same};
use cics_names::{Name4, Name8, Record};
use std::alloc::Global;

// Returns what stands in an option's parentheses, if the option was read.
fn value_at<'a, 'l>(found: &'a [Found<'l>], option: OptionWord) -> Option<&'a Value<'l>>
    ensures { option_map (λ value. content value.now) result
        ≡ content_at option (entries found.now) }
{
    for one in found {
        if is_same(one.option, option) {
            return Some(&one.value);
        }
    }
    None
}

/// Returns the record that an option gives, which the line needs.
///
/// Errors: `MissingOption` if it gives none, `NoMemory`.
pub fn text_of(alloc: Global, found: &[Found<'_>], option: OptionWord) -> Result<Record, LineFault>
    ensures { Reads (needed (text_at option (entries found.now)) Ok) result }
{
    needed(optional_text_of(alloc, found, option)?)
}

/// Returns the record that an option gives, if it gives one. Errors: `NoMemory`.
#[inline(always)]
pub fn optional_text_of(
    alloc: Global,
    found: &[Found<'_>],
    option: OptionWord,
) -> Result<Option<Record>, LineFault>
    ensures { Reads (Ok (text_at option (entries found.now))) result }
{
    match value_at(found, option) {
        Some(Value::Text(literal)) => match literal.record(alloc) {
            Ok(record) => Ok(Some(record)),
            Err(_) => Err(LineFault::NoMemory),
        },
        _ => Ok(None),
    }
}

/// Returns the name of eight bytes that an option gives, if it gives one.
pub fn name8_of(found: &[Found<'_>], option: OptionWord) -> Option<Name8>
    ensures { result ≡ name8_at option (entries found.now) }
{
    match value_at(found, option) {
        Some(Value::Name8(name)) => Some(*name),
        _ => None,
    }
}

/// Returns the name of four bytes that an option gives, if it gives one.
pub fn name4_of(found: &[Found<'_>], option: OptionWord) -> Option<Name4>
    ensures { result ≡ name4_at option (entries found.now) }
{
    match value_at(found, option) {
        Some(Value::Name4(name)) => Some(*name),
        _ => None,
    }
}

/// Returns the number that an option gives, if it gives one.
pub fn number_of(found: &[Found<'_>], option: OptionWord) -> Option<u64>
    ensures { result ≡ amount_at option (entries found.now) }
{
    match value_at(found, option) {
        Some(Value::Number(number)) => Some(*number),
        _ => None,
    }
}

/// Returns a value that the line needs. Errors: `MissingOption` if there is none.
pub fn needed<T>(value: Option<T>) -> Result<T, LineFault>
    ensures { result ≡ needed value Ok }
{
    value.ok_or(LineFault::MissingOption)
}

/// Returns the number in an option's area, which the line needs.
///
/// Errors: `MissingOption` if the option wasn't read, `BadNumber` if its area is no number.
pub fn needed_number_of(found: &[Found<'_>], option: OptionWord) -> Result<u64, LineFault>
    ensures { result ≡ as_needed_amount (content_at option (entries found.now)) }
{
    match value_at(found, option) {
        Some(Value::Number(number)) => Ok(*number),
        Some(_) => Err(LineFault::BadNumber),
        None => Err(LineFault::MissingOption),
    }
}
