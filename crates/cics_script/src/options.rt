//! Reads the options of a line, from left to right, into a list.

ghost use Rattle.std.specs.Prelude.{◌≡◌, ◌<◌, ◌≤◌, List, [], ◌∷◌, ◌++◌};
ghost use Rattle.std.specs.Prelude.{Option, Some, None, Ok, Err, IfSome, IfOk, IfErr, length};
ghost use Rattle.std.specs.Result.{result_map_both};
ghost use Rattle.std.specs.List.{list_any};
ghost use Rattle.cics_script.specs.Words.{option_words, same, excludes, kind_in};
ghost use Rattle.cics_script.specs.Tokens.{tokens};
ghost use Rattle.cics_script.specs.Options.{fault_of, quoted, content_in, allowed};
ghost use Rattle.cics_script.specs.Options.{Content, Entry, reads, at_option, options};
ghost use Rattle.cics_script.specs.Views.{view, entries, GivesText, GivesName, GivesContent};
ghost use Rattle.cics_script.specs.Views.{GivesValue, GivesEntries};
ghost use Rattle.cics_script.specs.Views.{Opens, Fills, Shuts, HasValue, Enters, Ends, IsNamed};

use crate::faults::LineFault;
use crate::literals::{Encoding, Literal, Notation};
use crate::tokens::{Token, named, next_token, next_value};
use crate::words::{LineForm, OptionWord, ValueKind, is_excluded, is_same, kind_of, option_named};
use arrayvec::ArrayVec;
use cics_names::{Name4, Name8};
use std::alloc::Global;
use std::borrow::CowSlice;

// The most options of a line. None stands twice. READ has nine of its own, more than any other
// line. Every command has four.
const MOST_OPTIONS: usize = 13;

/// The options of a line, in their order.
pub type Options<'a> = ArrayVec<Found<'a>, MOST_OPTIONS>;

/// What stood in an option's parentheses.
#[derive(Clone, Copy)]
pub enum Value<'a> {
    /// No parentheses, or what is read without effect.
    Nothing,
    Text(Literal<'a>),
    Name8(Name8),
    Name4(Name4),
    Number(u64),
}

/// An option that was read.
#[derive(Clone, Copy)]
pub struct Found<'a> {
    pub option: OptionWord,
    pub value: Value<'a>,
}

// Fills the unused slots of `Options`. The first variants are all zeros.
impl Default for Found<'_> {
    fn default() -> Self {
        Found {
            option: OptionWord::File,
            value: Value::Nothing,
        }
    }
}

/// An option that may stand where its word was read, and what it takes.
#[derive(Clone, Copy)]
struct Allowed {
    option: OptionWord,
    kind: ValueKind,
}

// Returns the fault of a wrong or missing value or parenthesis, by what the option takes.
fn wrong_value(kind: ValueKind) -> LineFault
    ensures { result ≡ fault_of kind }
{
    match kind {
        ValueKind::Number => LineFault::BadNumber,
        _ => LineFault::BadLiteral,
    }
}

// Returns what a quoted literal says, in a copy only if it has a doubled quote. A hexadecimal one
// is BadLiteral.
fn quoted_text(alloc: Global, literal: Literal<'_>) -> Result<CowSlice<'_, u8, Global>, LineFault>
    ensures { GivesText (quoted (view (Token.Literal literal.entry))) result }
{
    let Notation::Quoted = literal.notation else {
        return Err(LineFault::BadLiteral);
    };
    if let Some(text) = literal.plain() {
        return Ok(CowSlice::Borrowed(text));
    }
    match literal.copy(alloc, Encoding::AsWritten) {
        Ok(text) => Ok(CowSlice::Owned(text)),
        Err(_) => Err(LineFault::NoMemory),
    }
}

// Returns the name of eight bytes that a quoted literal says.
fn name8_of(alloc: Global, literal: Literal<'_>) -> Result<Name8, LineFault>
    ensures { GivesName Content.name8
        (content_in ValueKind.Name8 (view (Token.Literal literal.entry))) result }
{
    let text = quoted_text(alloc, literal)?;
    Name8::new(&text).or(Err(LineFault::BadLiteral))
}

// Returns the name of four bytes that a quoted literal says.
fn name4_of(alloc: Global, literal: Literal<'_>) -> Result<Name4, LineFault>
    ensures { GivesName Content.name4
        (content_in ValueKind.Name4 (view (Token.Literal literal.entry))) result }
{
    let text = quoted_text(alloc, literal)?;
    Name4::new(&text).or(Err(LineFault::BadLiteral))
}

// Returns a token as a value of this kind.
fn value_of<'a>(alloc: Global, kind: ValueKind, token: Token<'a>) -> Result<Value<'a>, LineFault>
    ensures { GivesContent (content_in kind (view token.entry)) result }
{
    match (kind, token) {
        (ValueKind::Text, Token::Literal(literal)) => Ok(Value::Text(literal)),
        (ValueKind::Name8, Token::Literal(literal)) => Ok(Value::Name8(name8_of(alloc, literal)?)),
        (ValueKind::Name4, Token::Literal(literal)) => Ok(Value::Name4(name4_of(alloc, literal)?)),
        (ValueKind::Number | ValueKind::Area, Token::Number(number)) => Ok(Value::Number(number)),
        (ValueKind::Area, Token::Literal(_) | Token::Word(_)) => Ok(Value::Nothing),
        _ => Err(wrong_value(kind)),
    }
}

// Returns the same as `read_opening`. Cold: few parentheses have a blank before them.
#[cold]
#[inline(never)]
fn far_opening(kind: ValueKind, bytes: &[u8]) -> Result<&[u8], LineFault>
    ensures { Opens kind bytes.now result }
{
    match next_token(bytes)? {
        Some((Token::Opening, rest)) => Ok(rest),
        _ => Err(wrong_value(kind)),
    }
}

// Returns the line after an opening parenthesis.
fn read_opening(kind: ValueKind, bytes: &[u8]) -> Result<&[u8], LineFault>
    ensures { Opens kind bytes.now result }
{
    match bytes.split_first() {
        Some((b'(', rest)) => Ok(rest),
        _ => far_opening(kind, bytes),
    }
}

// Returns the token that stands as a value, and the line after it.
fn value_token(kind: ValueKind, bytes: &[u8]) -> Result<(Token<'_>, &[u8]), LineFault>
    ensures { GivesValue kind bytes.now result }
{
    // Most values are words, or quoted literals or numbers right after the parenthesis.
    if let Some(found) = next_value(bytes) {
        return Ok(found);
    }
    next_token(bytes)?.ok_or(wrong_value(kind))
}

// Adds an option with what stands as its value, and returns the line after the value.
fn read_content<'a>(
    alloc: Global,
    one: &Allowed,
    bytes: &'a [u8],
    found: &mut Options<'a>,
) -> Result<&'a [u8], LineFault>
    requires { length found.old.items < 13 }
    ensures { Fills one.now.kind one.now.option (entries found.old.items)
        (entries found.new.items) bytes.entry.now result }
{
    let (token, rest) = match value_token(one.kind, bytes) {
        Ok(found) => found,
        Err(fault) => return Err(fault),
    };
    let option = one.option;
    match value_of(alloc, one.kind, token) {
        Ok(value) => found.push(Found { option, value }),
        Err(fault) => return Err(fault),
    }
    Ok(rest)
}

// Returns the same as `read_closing`. Cold, as `far_opening`.
#[cold]
#[inline(never)]
fn far_closing(kind: ValueKind, bytes: &[u8]) -> Result<&[u8], LineFault>
    ensures { Shuts kind bytes.now result }
{
    match next_token(bytes)? {
        Some((Token::Closing, rest)) => Ok(rest),
        _ => Err(wrong_value(kind)),
    }
}

// Returns the line after a closing parenthesis.
fn read_closing(kind: ValueKind, bytes: &[u8]) -> Result<&[u8], LineFault>
    ensures { Shuts kind bytes.now result }
{
    match bytes.split_first() {
        Some((b')', rest)) => Ok(rest),
        _ => far_closing(kind, bytes),
    }
}

// Adds an option with its value in parentheses, and returns the line after them.
fn read_value<'a>(
    alloc: Global,
    one: &Allowed,
    bytes: &'a [u8],
    found: &mut Options<'a>,
) -> Result<&'a [u8], LineFault>
    requires { length found.old.items < 13 }
    ensures put { IfOk result (λ rest. (content : Content)
        × (entries found.new.items ≡ entries found.old.items ++ (one.now.option, content) ∷ [])) }
    ensures value { HasValue one.now.kind one.now.option (entries found.old.items)
        (entries found.new.items) bytes.entry.now result }
{
    let inside = read_opening(one.kind, bytes)?;
    let behind = read_content(alloc, one, inside, found)?;
    read_closing(one.kind, behind)
}

/// Returns whether an option was read.
pub fn has_option(found: &[Found<'_>], option: OptionWord) -> bool
    ensures { result ≡ list_any (λ entry. same entry.0 option) (entries found.now) }
{
    found.iter().any(|one| is_same(one.option, option))
}

// Returns whether an option was read that excludes this one.
fn has_excluded(found: &[Found<'_>], option: OptionWord) -> bool
    ensures { result ≡ list_any (λ entry. excludes entry.0 option) (entries found.now) }
{
    found.iter().any(|one| is_excluded(one.option, option))
}

// Returns what an option takes, if it may stand here.
fn allowed_kind(
    form: LineForm,
    found: &[Found<'_>],
    option: OptionWord,
) -> Result<ValueKind, LineFault>
    ensures { result ≡ allowed (entries found.now) option (kind_in form option) }
{
    let Some(kind) = kind_of(form, option) else {
        return Err(LineFault::OptionNotHere);
    };
    if has_option(found, option) {
        return Err(LineFault::DoubledOption);
    }
    if has_excluded(found, option) {
        return Err(LineFault::OptionNotHere);
    }
    Ok(kind)
}

// Adds an option with its value, if it may stand here. `bytes` begin after its word.
fn read_option<'a>(
    alloc: Global,
    one: &Allowed,
    bytes: &'a [u8],
    found: &mut Options<'a>,
) -> Result<&'a [u8], LineFault>
    requires { length found.old.items < 13 }
    ensures put { IfOk result (λ rest. (content : Content)
        × (entries found.new.items ≡ entries found.old.items ++ (one.now.option, content) ∷ [])) }
    ensures reading { Enters one.now.kind one.now.option (entries found.old.items)
        (entries found.new.items) bytes.entry.now result }
{
    match one.kind {
        ValueKind::Flag | ValueKind::Last => {
            found.push(Found {
                option: one.option,
                value: Value::Nothing,
            });
            Ok(bytes)
        }
        _ => read_value(alloc, one, bytes, found),
    }
}

// Checks that nothing follows END-EXEC.
fn read_end(bytes: &[u8]) -> Result<(), LineFault>
    ensures { Ends bytes.now result }
{
    match next_token(bytes)? {
        None => Ok(()),
        Some(_) => Err(LineFault::UnknownWord),
    }
}

// Returns the option of a common word in capitals, and the line after it. `None` decides nothing.
fn common_option(bytes: &[u8]) -> Option<(OptionWord, &[u8])>
    ensures { IfSome result (λ found. IsNamed option_words found.0 bytes.entry.now found.1.now) }
{
    // These words differ in their first and fourth letters.
    match (bytes.first()?, bytes.get(3)?) {
        (b'D', _) => named(bytes, b"DTIMOUT", OptionWord::Dtimout),
        (b'F', b'E') => named(bytes, b"FILE", OptionWord::File),
        (b'F', _) => named(bytes, b"FROM", OptionWord::From),
        (b'I', b'M') => named(bytes, b"ITEM", OptionWord::Item),
        (b'I', _) => named(bytes, b"INTO", OptionWord::Into),
        (b'L', b'I') => named(bytes, b"LOGICAL", OptionWord::Logical),
        (b'L', _) => named(bytes, b"LENGTH", OptionWord::Length),
        (b'N', _) => named(bytes, b"NOSUSPEND", OptionWord::NoSuspend),
        (b'Q', _) => named(bytes, b"QUEUE", OptionWord::Queue),
        (b'R', b'F') => named(bytes, b"RIDFLD", OptionWord::Ridfld),
        (b'R', b'O') => named(bytes, b"RESOURCE", OptionWord::Resource),
        (b'R', _) => named(bytes, b"RESP", OptionWord::Resp),
        (b'T', b'U') => named(bytes, b"TDQUEUE", OptionWord::TdQueue),
        (b'T', _) => named(bytes, b"TRANSID", OptionWord::Transid),
        (b'U', _) => named(bytes, b"UPDATE", OptionWord::Update),
        _ => None,
    }
}

/// Returns a line without the space at its start, or all of it if it begins with none.
pub fn skip_one_blank(bytes: &[u8]) -> &[u8]
    ensures tokens { tokens result.now ≡ tokens bytes.now }
    ensures within { length result.now ≤ length bytes.now }
{
    match bytes.split_first() {
        Some((b' ', rest)) => rest,
        _ => bytes,
    }
}

// Returns the next option and the line after its word, or `None` at the line's end. `last` is what
// the option before it takes, `None` if there is none. Inlined: each option passes through it.
#[inline(always)]
fn next_option(
    last: Option<ValueKind>,
    bytes: &[u8],
) -> Result<Option<(OptionWord, &[u8])>, LineFault>
    ensures none { IfOk result (λ found.
        found ≡ None → tokens bytes.entry.now ≡ []) }
    ensures some { IfOk result (λ found. IfSome found (λ next.
        IsNamed option_words next.0 bytes.entry.now next.1.now)) }
    ensures fault { IfErr result (λ fault. (form : LineForm) (found : List Entry) →
        reads form (at_option last) found (tokens bytes.entry.now) ≡ Err fault) }
{
    if bytes.is_empty() {
        return Ok(None);
    }
    // Most lines have one space before each option, and none at the end.
    if let Some(found) = common_option(skip_one_blank(bytes)) {
        return Ok(Some(found));
    }
    let Some((token, rest)) = next_token(bytes)? else {
        return Ok(None);
    };
    match (token, last) {
        (Token::Word(word), _) => match option_named(word) {
            Some(option) => Ok(Some((option, rest))),
            None => Err(LineFault::UnknownWord),
        },
        // A parenthesis too many has the fault of the option before it.
        (Token::Opening | Token::Closing, Some(kind)) => Err(wrong_value(kind)),
        _ => Err(LineFault::UnknownWord),
    }
}

/// Reads the options of a line into `found`, which is empty. It is a parameter, as a result would
/// be moved whole.
///
/// Errors: the fault of the first token that can't stand where it does, `NoMemory`. Then the
/// content of `found` is unspecified.
pub fn read_options<'a>(
    alloc: Global,
    form: LineForm,
    bytes: &'a [u8],
    found: &mut Options<'a>,
) -> Result<(), LineFault>
    requires { found.old.items ≡ [] }
    ensures { GivesEntries (options form (tokens bytes.entry.now))
        (result_map_both (λ done. found.new) (λ fault. fault) result) }
{
    let mut last = None;
    let mut rest = bytes;
    'options: loop {
        let (option, behind) = match next_option(last, rest) {
            Ok(Some(next)) => next,
            Ok(None) => return Ok(()),
            Err(fault) => return Err(fault),
        };
        let kind = allowed_kind(form, found, option)?;
        rest = read_option(alloc, &Allowed { option, kind }, behind, found)?;
        match kind {
            ValueKind::Last => return read_end(rest),
            _ => last = Some(kind),
        }
    }
}
