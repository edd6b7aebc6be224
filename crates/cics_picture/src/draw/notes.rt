//! What stands behind the line of an event: the characters of a record in hexadecimal.

ghost use Rattle.std.specs.Prelude.{◌≡◌, ◌++◌, map, IfOk, OnOk};
ghost use Rattle.std.specs.List.{list_all};
ghost use Rattle.cics_script.specs.Texts.{has_character};
ghost use Rattle.cics_picture.specs.Draw.Notes.{character, record_note, outcome_note, note_of};

use crate::elements::cut;
use cics_dispatch::{Event, Outcome};
use cics_names::{NoMemory, Record, from_ebcdic};
use cics_script::spelling::{Part, push_parts};
use std::alloc::Global;

fn has_characters(bytes: &[u8]) -> bool
    ensures { result ≡ list_all has_character bytes.now }
{
    bytes.iter().all(|code| from_ebcdic(*code).is_some())
}

// Returns the character of a byte, and a dot for none.
fn character(code: u8) -> u8
    ensures { result ≡ character code }
{
    match from_ebcdic(code) {
        Some(character) => character as u8,
        None => b'.',
    }
}

// Appends the characters of bytes.
fn push_characters(out: &mut Vec<u8>, bytes: &[u8]) -> Result<(), NoMemory>
    ensures { OnOk result (out.new.items ≡ out.old.items ++ map character bytes.now) }
{
    for code in bytes {
        out.push(character(*code))?;
    }
    Ok(())
}

// Appends the first characters of a record between bars, if it is printed in hexadecimal.
fn push_record_note(out: &mut Vec<u8>, content: &Option<Record>) -> Result<(), NoMemory>
    ensures { OnOk result (out.new.items ≡ out.old.items ++ record_note content.now) }
{
    let Some(content) = content else {
        return Ok(());
    };
    let bytes = content.bytes();
    if has_characters(bytes) {
        return Ok(());
    }
    let mut text = Vec::new(*out.allocator());
    push_characters(&mut text, bytes)?;
    let (front, dots) = cut(&text, 32);
    push_parts(
        out,
        &[
            Part::Str(" |"),
            Part::Bytes(front),
            Part::Bytes(dots),
            Part::Str("|"),
        ],
    )
}

fn push_outcome_note(out: &mut Vec<u8>, outcome: &Outcome) -> Result<(), NoMemory>
    ensures { OnOk result (out.new.items ≡ out.old.items ++ outcome_note outcome.now) }
{
    match outcome {
        Outcome::Replied(reply) => push_record_note(out, &reply.content),
        _ => Ok(()),
    }
}

/// Returns what stands behind the line of an event: the first characters of its record between
/// bars, if that is printed in hexadecimal.
pub fn note_of(alloc: Global, event: &Event) -> Result<Record, NoMemory>
    ensures { IfOk result (λ note. note ≡ note_of event.now) }
{
    let mut note = Vec::new(alloc);
    match event {
        Event::Issued(_, outcome, _) => push_outcome_note(&mut note, outcome)?,
        Event::Woken(woken) => push_outcome_note(&mut note, &woken.outcome)?,
        _ => {}
    }
    Ok(Record::new(note))
}
