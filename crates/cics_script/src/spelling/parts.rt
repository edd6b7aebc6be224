//! Texts in parts: what each part is, and how several are printed one behind the other.
//!
//! Errors of each call: `NoMemory`. Then what it appended is unspecified.

ghost use Rattle.std.specs.Prelude.{◌≡◌, ◌++◌, OnOk};
ghost use Rattle.std.specs.List.{flat_map};
ghost use Rattle.cics_script.specs.Parts.{part_text};

use crate::spelling::texts::{push_bare, push_name, push_number, push_str, push_text};
use cics_names::NoMemory;

/// A part of a text.
#[derive(Clone, Copy)]
pub enum Part<'a> {
    /// Characters, as they are.
    Str(&'a str),
    /// Bytes, as they are.
    Bytes(&'a [u8]),
    /// A number in decimal.
    Number(u64),
    /// A byte string as a literal.
    Text(&'a [u8]),
    /// A name as a literal, without the blanks that fill it up.
    Name(&'a [u8]),
    /// The characters of a name or an abend code alone, without the blanks that fill it up.
    Bare(&'a [u8]),
}

// Appends a part.
fn push_part(out: &mut Vec<u8>, part: &Part<'_>) -> Result<(), NoMemory>
    ensures { OnOk result (out.new.items ≡ out.old.items ++ part_text part.now) }
{
    match part {
        Part::Str(text) => push_str(out, text),
        Part::Bytes(bytes) => {
            out.extend_from_slice(bytes)?;
            Ok(())
        }
        Part::Number(number) => push_number(out, *number),
        Part::Text(bytes) => push_text(out, bytes),
        Part::Name(name) => push_name(out, name),
        Part::Bare(name) => push_bare(out, name),
    }
}

/// Appends parts, one behind the other.
pub fn push_parts(out: &mut Vec<u8>, parts: &[Part<'_>]) -> Result<(), NoMemory>
    ensures { OnOk result (out.new.items ≡ out.old.items ++ flat_map part_text parts.now) }
{
    for part in parts {
        push_part(out, part)?;
    }
    Ok(())
}
