//! The options of a command that a person is told of, whatever its verb.

ghost use Rattle.std.specs.Prelude.{◌≡◌, ◌++◌, OnOk};
ghost use Rattle.cics_run.specs.Messages.Parts.{key_in, from_in, length_in, used_in, key_length_in};
ghost use Rattle.cics_run.specs.Messages.Parts.{number_or_none, first_bytes};
ghost use Rattle.cics_run.specs.Messages.Parts.{about_text, bytes_word};
ghost use Rattle.cics_script.specs.Texts.{bare};

use cics_names::{NoMemory, Verb};
use cics_script::spelling::Part::{Bare, Str};
use cics_script::spelling::push_parts;

/// Returns RIDFLD, or no byte.
pub fn key_in(verb: &Verb) -> &[u8]
    ensures { result.now ≡ key_in verb.now }
{
    match verb {
        Verb::Read { ridfld, .. }
        | Verb::Write { ridfld, .. }
        | Verb::StartBr { ridfld, .. }
        | Verb::ResetBr { ridfld, .. } => ridfld.bytes(),
        Verb::Delete {
            ridfld: Some(key),
            ..
        } => key.bytes(),
        _ => &[],
    }
}

/// Returns FROM or RESOURCE, or no byte.
pub fn from_in(verb: &Verb) -> &[u8]
    ensures { result.now ≡ from_in verb.now }
{
    match verb {
        Verb::Write { from, .. }
        | Verb::Rewrite { from, .. }
        | Verb::WriteqTs { from, .. }
        | Verb::WriteqTd { from, .. } => from.bytes(),
        Verb::Enq { resource, .. } | Verb::Deq { resource, .. } => resource.bytes(),
        _ => &[],
    }
}

// Returns LENGTH, if it is given.
fn length_given(verb: &Verb) -> Option<u64>
    ensures { result ≡ length_in verb.now }
{
    match verb {
        Verb::Write { length, .. }
        | Verb::Rewrite { length, .. }
        | Verb::WriteqTs { length, .. }
        | Verb::WriteqTd { length, .. } => *length,
        Verb::Enq { length, .. } | Verb::Deq { length, .. } => Some(*length),
        _ => verb.length(),
    }
}

/// Returns LENGTH, or 0.
pub fn length_in(verb: &Verb) -> u64
    ensures { result ≡ number_or_none (length_in verb.now) }
{
    length_given(verb).unwrap_or(0)
}

/// Returns KEYLENGTH, or 0.
pub fn key_length_in(verb: &Verb) -> u64
    ensures { result ≡ number_or_none (key_length_in verb.now) }
{
    match verb {
        Verb::Read { key_length, .. }
        | Verb::Write { key_length, .. }
        | Verb::Delete { key_length, .. }
        | Verb::StartBr { key_length, .. }
        | Verb::ResetBr { key_length, .. } => key_length.unwrap_or(0),
        _ => 0,
    }
}

/// Returns the first bytes of a text, as many as are given, or all.
pub fn first_bytes(text: &[u8], length: Option<u64>) -> &[u8]
    ensures { result.now ≡ first_bytes text.now length }
{
    match length {
        Some(length) if length < text.len() as u64 => &text[..length as usize],
        _ => text,
    }
}

/// Returns the bytes of FROM or RESOURCE that LENGTH uses.
pub fn used_in(verb: &Verb) -> &[u8]
    ensures { result.now ≡ used_in verb.now }
{
    first_bytes(from_in(verb), length_given(verb))
}

// Appends a name between two texts.
fn push_between<'a>(
    out: &mut Vec<u8>,
    before: &'a str,
    name: &'a [u8],
    behind: &'a str,
) -> Result<(), NoMemory>
    ensures { OnOk result (out.new.items
        ≡ out.old.items ++ (before.now ++ (bare name.now ++ behind.now))) }
{
    push_parts(out, &[Str(before), Bare(name), Str(behind)])
}

/// Appends the name of the file or queue that a command names, between two texts.
pub fn push_about<'a>(
    out: &mut Vec<u8>,
    before: &'a str,
    verb: &Verb,
    behind: &'a str,
) -> Result<(), NoMemory>
    ensures { OnOk result (out.new.items
        ≡ out.old.items ++ about_text before.now verb.now behind.now) }
{
    match verb {
        Verb::WriteqTs { queue, .. } | Verb::ReadqTs { queue, .. } | Verb::DeleteqTs { queue } => {
            push_between(out, before, &queue.bytes(), behind)
        }
        Verb::WriteqTd { queue, .. } | Verb::ReadqTd { queue, .. } | Verb::DeleteqTd { queue } => {
            push_between(out, before, &queue.bytes(), behind)
        }
        _ => match verb.file() {
            Some(name) => push_between(out, before, &name.bytes(), behind),
            None => push_between(out, before, &[], behind),
        },
    }
}

/// Returns the word for some bytes, behind their number.
pub fn bytes_word(count: usize) -> &'static str
    ensures { result.now ≡ bytes_word count }
{
    if count == 1 { " byte" } else { " bytes" }
}
