//! Elements and texts, each put at the end of a text.

ghost use Rattle.std.specs.Prelude.{◌≡◌, ◌++◌, map, false, Some, OnOk};
ghost use Rattle.std.specs.List.{flat_map};
ghost use Rattle.cics_script.specs.Parts.{part_text};
ghost use Rattle.cics_picture.specs.Xml.{attribute_of, character_text, shown, shown_text, is_plain};
ghost use Rattle.cics_picture.specs.Xml.{is_special, Document, document_text, attribute_text};
ghost use Rattle.cics_picture.specs.Xml.{start_text, end_text, element, said, document_of};

use crate::xml::names::{Key, Tag};
use cics_names::NoMemory;
use cics_script::spelling::{Part, push_parts, push_str};

/// The text of every document is read back as that document. Each of its elements is closed, and no
/// text or value ends before its end.
pub fn documents_read_back()
    ensures { (d : Document) → document_of (document_text d) ≡ Some d }
{}

/// An attribute of an element.
#[derive(Clone, Copy)]
pub enum Attribute<'a> {
    /// Its value is these bytes.
    Bytes(Key, &'a [u8]),
    /// Its value is a number.
    Number(Key, u64),
    /// It moves the element to this place.
    Move(u64, u64),
}

fn is_special(byte: u8) -> bool
    ensures { result ≡ is_special byte }
{
    matches!(byte, b'&' | b'<' | b'>' | b'"' | b'\'')
}

fn is_plain(byte: u8) -> bool
    ensures { result ≡ is_plain byte }
{
    byte == b'\n' || (byte >= b' ' && byte <= b'~' && !is_special(byte))
}

// Returns the text of the character that is shown for a byte that isn't plain.
#[tactic(auto, using(crate::proofs::OfXml::Shown::unprintable), unfolding(crate::specs::Xml::Characters::digits))]
fn reference(byte: u8) -> &'static str
    requires { is_plain byte ≡ false }
    ensures { result.now ≡ character_text (shown byte) }
{
    match byte {
        b'"' => "&#34;",
        b'&' => "&#38;",
        b'\'' => "&#39;",
        b'<' => "&#60;",
        b'>' => "&#62;",
        b'\t' => " ",
        _ => "&#65533;",
    }
}

// Puts the character that is shown for a byte.
#[tactic(auto, using(crate::proofs::OfXml::Shown::plain_shown))]
fn push_character(out: &mut Vec<u8>, byte: u8) -> Result<(), NoMemory>
    ensures { OnOk result (out.new.items ≡ out.old.items ++ character_text (shown byte)) }
{
    if is_plain(byte) {
        out.push(byte)?;
        return Ok(());
    }
    push_str(out, reference(byte))
}

// Puts the characters that are shown for bytes.
fn push_shown(out: &mut Vec<u8>, bytes: &[u8]) -> Result<(), NoMemory>
    ensures { OnOk result (out.new.items ≡ out.old.items ++ shown_text bytes.now) }
{
    for byte in bytes {
        push_character(out, *byte)?;
    }
    Ok(())
}

/// Puts bytes as the characters of a text.
pub fn push_text(out: &mut Vec<u8>, bytes: &[u8]) -> Result<(), NoMemory>
    ensures { OnOk result (out.new.items ≡ out.old.items ++ document_text (said bytes.now)) }
{
    push_shown(out, bytes)
}

#[tactic(auto, using(crate::proofs::OfXml::Numbers::decimal_text))]
fn push_attribute(out: &mut Vec<u8>, attribute: &Attribute<'_>) -> Result<(), NoMemory>
    ensures { OnOk result
        (out.new.items ≡ out.old.items ++ attribute_text (attribute_of attribute.now)) }
{
    match attribute {
        Attribute::Bytes(key, value) => {
            push_parts(
                out,
                &[Part::Str(" "), Part::Str(key.name()), Part::Str("=\"")],
            )?;
            push_shown(out, value)?;
            push_str(out, "\"")
        }
        Attribute::Number(key, value) => push_parts(
            out,
            &[
                Part::Str(" "),
                Part::Str(key.name()),
                Part::Str("=\""),
                Part::Number(*value),
                Part::Str("\""),
            ],
        ),
        Attribute::Move(x, y) => push_parts(
            out,
            &[
                Part::Str(" transform=\"translate("),
                Part::Number(*x),
                Part::Str(" "),
                Part::Number(*y),
                Part::Str(")\""),
            ],
        ),
    }
}

fn push_attributes(out: &mut Vec<u8>, attributes: &[Attribute<'_>]) -> Result<(), NoMemory>
    ensures { OnOk result (out.new.items
        ≡ out.old.items ++ flat_map attribute_text (map attribute_of attributes.now)) }
{
    for attribute in attributes {
        push_attribute(out, attribute)?;
    }
    Ok(())
}

/// Puts a start tag with its attributes.
pub fn push_start(out: &mut Vec<u8>, tag: Tag, attributes: &[Attribute<'_>]) -> Result<(), NoMemory>
    ensures { OnOk result (out.new.items
        ≡ out.old.items ++ start_text tag (map attribute_of attributes.now)) }
{
    push_parts(out, &[Part::Str("<"), Part::Str(tag.name())])?;
    push_attributes(out, attributes)?;
    push_str(out, ">")
}

/// Puts an end tag.
pub fn push_end(out: &mut Vec<u8>, tag: Tag) -> Result<(), NoMemory>
    ensures { OnOk result (out.new.items ≡ out.old.items ++ end_text tag) }
{
    push_parts(
        out,
        &[Part::Str("</"), Part::Str(tag.name()), Part::Str(">")],
    )
}

/// Puts an element that has these attributes, and a text alone.
pub fn push_element(
    out: &mut Vec<u8>,
    tag: Tag,
    attributes: &[Attribute<'_>],
    bytes: &[u8],
) -> Result<(), NoMemory>
    ensures { OnOk result (out.new.items ≡ out.old.items
        ++ document_text (element tag (map attribute_of attributes.now) (said bytes.now))) }
{
    push_start(out, tag, attributes)?;
    push_text(out, bytes)?;
    push_end(out, tag)
}

/// Puts an element that has these attributes, and a text of parts.
pub fn push_parted(
    out: &mut Vec<u8>,
    tag: Tag,
    attributes: &[Attribute<'_>],
    parts: &[Part<'_>],
) -> Result<(), NoMemory>
    ensures { OnOk result (out.new.items ≡ out.old.items ++ document_text
        (element tag (map attribute_of attributes.now) (said (flat_map part_text parts.now)))) }
{
    let mut text = Vec::new(*out.allocator());
    push_parts(&mut text, parts)?;
    push_element(out, tag, attributes, &text)
}
