//! The elements of a picture, each put at the end of a text.

ghost use Rattle.std.specs.Prelude.{◌≡◌, ◌++◌, ◌<◌, ◌≤◌, OnOk};
ghost use Rattle.std.specs.List.{flat_map};
ghost use Rattle.cics_script.specs.Parts.{part_text};
ghost use Rattle.cics_picture.specs.Lanes.{most_lanes};
ghost use Rattle.cics_picture.specs.Elements.{words, shape, stroke, field, spoken};
ghost use Rattle.cics_picture.specs.Elements.{picture_start, moved_start, mark};
ghost use Rattle.cics_picture.specs.Elements.{tip, head};
ghost use Rattle.cics_picture.specs.Elements.{arrow, link, cut};

use crate::events::RowKind;
use crate::lanes::lane_x;
use crate::style::NAMESPACE;
use crate::xml::{Attribute, Key, Tag, push_element, push_parted, push_start};
use cics_names::NoMemory;
use cics_script::spelling::Part;

/// Puts words of some parts at a place.
#[tactic(auto, unfolding(crate::specs::Elements::words))]
pub fn push_words(
    out: &mut Vec<u8>,
    class: &[u8],
    place: (u64, u64),
    parts: &[Part<'_>],
) -> Result<(), NoMemory>
    ensures { OnOk result (out.new.items
        ≡ out.old.items ++ words class.now place.0 place.1 (flat_map part_text parts.now)) }
{
    push_parted(
        out,
        Tag::Text,
        &[
            Attribute::Bytes(Key::Class, class),
            Attribute::Number(Key::X, place.0),
            Attribute::Number(Key::Y, place.1),
        ],
        parts,
    )
}

/// Puts words at a place that are in two parts.
pub fn push_cut_words(
    out: &mut Vec<u8>,
    class: &[u8],
    place: (u64, u64),
    parts: (&[u8], &[u8]),
) -> Result<(), NoMemory>
    ensures { OnOk result (out.new.items ≡ out.old.items
        ++ words class.now place.0 place.1 (parts.entry.0.now ++ parts.entry.1.now)) }
{
    push_words(
        out,
        class,
        place,
        &[Part::Bytes(parts.0), Part::Bytes(parts.1)],
    )
}

/// Puts a shape round a place.
#[tactic(auto, unfolding(crate::specs::Elements::shape))]
pub fn push_shape<'a>(
    out: &mut Vec<u8>,
    class: &'a [u8],
    path: &'a [u8],
    place: (u64, u64),
) -> Result<(), NoMemory>
    ensures { OnOk result (out.new.items
        ≡ out.old.items ++ shape class.now path.now place.0 place.1) }
{
    push_element(
        out,
        Tag::Path,
        &[
            Attribute::Bytes(Key::Class, class),
            Attribute::Bytes(Key::D, path),
            Attribute::Move(place.0, place.1),
        ],
        &[],
    )
}

/// Puts a line from a place to another.
#[tactic(auto, unfolding(crate::specs::Elements::stroke))]
pub fn push_stroke(
    out: &mut Vec<u8>,
    class: &[u8],
    from: (u64, u64),
    to: (u64, u64),
) -> Result<(), NoMemory>
    ensures { OnOk result (out.new.items
        ≡ out.old.items ++ stroke class.now from.0 from.1 to.0 to.1) }
{
    push_element(
        out,
        Tag::Line,
        &[
            Attribute::Bytes(Key::Class, class),
            Attribute::Number(Key::X1, from.0),
            Attribute::Number(Key::Y1, from.1),
            Attribute::Number(Key::X2, to.0),
            Attribute::Number(Key::Y2, to.1),
        ],
        &[],
    )
}

/// Puts a rectangle at a place.
#[tactic(auto, unfolding(crate::specs::Elements::field))]
pub fn push_field(
    out: &mut Vec<u8>,
    class: &[u8],
    place: (u64, u64),
    size: (u64, u64),
) -> Result<(), NoMemory>
    ensures { OnOk result (out.new.items
        ≡ out.old.items ++ field class.now place.0 place.1 size.0 size.1) }
{
    push_element(
        out,
        Tag::Rect,
        &[
            Attribute::Bytes(Key::Class, class),
            Attribute::Number(Key::X, place.0),
            Attribute::Number(Key::Y, place.1),
            Attribute::Number(Key::Width, size.0),
            Attribute::Number(Key::Height, size.1),
        ],
        &[],
    )
}

/// Puts an element that has a text alone.
#[tactic(auto, unfolding(crate::specs::Elements::spoken))]
pub fn push_spoken(out: &mut Vec<u8>, tag: Tag, bytes: &[u8]) -> Result<(), NoMemory>
    ensures { OnOk result (out.new.items ≡ out.old.items ++ spoken tag bytes.now) }
{
    push_element(out, tag, &[], bytes)
}

/// Puts the start of a picture of a size.
#[tactic(auto, unfolding(crate::specs::Elements::picture_start, crate::specs::Elements::namespace))]
pub fn push_picture_start(out: &mut Vec<u8>, width: u64, height: u64) -> Result<(), NoMemory>
    ensures { OnOk result (out.new.items ≡ out.old.items ++ picture_start width height) }
{
    push_start(
        out,
        Tag::Svg,
        &[
            Attribute::Bytes(Key::Xmlns, NAMESPACE.as_bytes()),
            Attribute::Number(Key::Width, width),
            Attribute::Number(Key::Height, height),
        ],
    )
}

/// Puts the start of elements that are moved to the right.
#[tactic(auto, unfolding(crate::specs::Elements::moved_start))]
pub fn push_moved_start(out: &mut Vec<u8>, x: u64) -> Result<(), NoMemory>
    ensures { OnOk result (out.new.items ≡ out.old.items ++ moved_start x) }
{
    push_start(out, Tag::G, &[Attribute::Move(x, 0)])
}

/// Puts the mark of an event.
pub fn push_mark(out: &mut Vec<u8>, kind: RowKind, x: u64, y: u64) -> Result<(), NoMemory>
    ensures { OnOk result (out.new.items ≡ out.old.items ++ mark kind x y) }
{
    push_shape(
        out,
        kind.class().as_bytes(),
        kind.shape().as_bytes(),
        (x, y),
    )
}

// Where the arrow or the line to a lane ends: at the side of it that it comes from.
fn tip(from: usize, to: usize) -> u64
    requires { to < most_lanes }
    ensures { result ≡ tip from to }
{
    if from < to {
        lane_x(to) - 10
    } else {
        lane_x(to) + 10
    }
}

fn head(from: usize, to: usize) -> &'static str
    ensures { result.now ≡ head from to }
{
    if from < to {
        "M0 0l-8 -4v8z"
    } else {
        "M0 0l8 -4v8z"
    }
}

/// Puts the arrow of a wait, from a lane to another.
pub fn push_arrow(out: &mut Vec<u8>, from: usize, to: usize, y: u64) -> Result<(), NoMemory>
    requires from { from < most_lanes }
    requires to { to < most_lanes }
    ensures { OnOk result (out.new.items ≡ out.old.items ++ arrow from to y) }
{
    push_stroke(out, "aw".as_bytes(), (lane_x(from), y), (tip(from, to), y))?;
    push_shape(
        out,
        "fw".as_bytes(),
        head(from, to).as_bytes(),
        (tip(from, to), y),
    )
}

/// Puts a line from a lane to another.
pub fn push_link(out: &mut Vec<u8>, from: usize, to: usize, y: u64) -> Result<(), NoMemory>
    requires from { from < most_lanes }
    requires to { to < most_lanes }
    ensures { OnOk result (out.new.items ≡ out.old.items ++ link from to y) }
{
    push_stroke(out, "un".as_bytes(), (tip(to, from), y), (tip(from, to), y))
}

/// Returns the bytes, if there are no more than may be shown, else their front and two dots.
pub fn cut(bytes: &[u8], most: usize) -> (&[u8], &[u8])
    requires { 2 ≤ most }
    ensures { result.0.now ++ result.1.now ≡ cut most bytes.now }
{
    if bytes.len() <= most {
        (bytes, "".as_bytes())
    } else {
        (&bytes[..most - 2], "..".as_bytes())
    }
}
