//! The pieces of a page, each put at the end of a text.

ghost use Rattle.std.specs.Prelude.{◌≡◌, ◌++◌, OnOk};
ghost use Rattle.std.specs.List.{flat_map};
ghost use Rattle.cics_picture.specs.Page.Pieces.{piece_text};

use crate::xml::{Tag, push_parted, push_text};
use cics_names::NoMemory;
use cics_script::spelling::{Part, push_parts, push_str};

/// A piece of a page.
#[derive(Clone, Copy)]
pub enum Piece<'a> {
    /// Markup, as it is.
    Markup(&'a str),
    /// The characters of a text.
    Text(Part<'a>),
    /// An element that has a text alone.
    Element(Tag, Part<'a>),
}

/// Puts a piece of a page.
#[tactic(auto, unfolding(crate::specs::Elements::spoken))]
pub fn push_piece(out: &mut Vec<u8>, piece: &Piece<'_>) -> Result<(), NoMemory>
    ensures { OnOk result (out.new.items ≡ out.old.items ++ piece_text piece.now) }
{
    match piece {
        Piece::Markup(text) => push_str(out, text),
        Piece::Text(part) => {
            let mut text = Vec::new(*out.allocator());
            push_parts(&mut text, &[*part])?;
            push_text(out, &text)
        }
        Piece::Element(tag, part) => push_parted(out, *tag, &[], &[*part]),
    }
}

/// Puts pieces of a page, one behind the other.
pub fn push_pieces(out: &mut Vec<u8>, pieces: &[Piece<'_>]) -> Result<(), NoMemory>
    ensures { OnOk result (out.new.items ≡ out.old.items ++ flat_map piece_text pieces.now) }
{
    for piece in pieces {
        push_piece(out, piece)?;
    }
    Ok(())
}
