//! The whole picture of what was drawn.

ghost use Rattle.std.specs.Prelude.{◌≡◌, ◌++◌, ◌∷◌, ◌<◌, ◌≤◌, [], List, ℕ, true, Some, slice_get};
ghost use Rattle.std.specs.Prelude.{Contains, OnOk};
ghost use Rattle.cics_picture.specs.declared.bars.Fill.{Fill};
ghost use Rattle.cics_picture.specs.Xml.{Document, document_of};
ghost use Rattle.cics_picture.specs.Lanes.{most_lanes};
ghost use Rattle.cics_picture.specs.Drawings.{drawn_of, Printed, Row, drawn, finished, turn_signs};
ghost use Rattle.cics_picture.specs.Spans.{Lives, bar_from_to, acts_at, rows_behind, HasPart};
ghost use Rattle.cics_picture.specs.Arrows.{TellsWait, DrawsArrow};
ghost use Rattle.cics_picture.specs.Sheets.{style_text, bands, lane_lines, ground, heading};
ghost use Rattle.cics_picture.specs.Sheets.{meaning_text, answers_legend, ways_legend, sheet};
ghost use Rattle.cics_picture.specs.Sheets.{ends_legend, region_legend, units_legend, width_of};
ghost use Rattle.cics_picture.specs.Sheets.{height_of, moved_texts, whole_sheet};
ghost use Rattle.cics_picture.specs.Bars.{is_bar_of, lane_at};
ghost use Rattle.cics_picture.specs.declared.bars.Standing.{Standing};
ghost use Rattle.std.specs.List.{flat_map, list_any};

use crate::bars::{Fill, push_bars};
use crate::drawing::Drawing;
use crate::elements::{
    cut, push_cut_words, push_field, push_mark, push_moved_start, push_picture_start, push_shape,
    push_spoken, push_stroke, push_words,
};
use crate::events::RowKind;
use crate::lanes::lane_x;
use crate::style::STYLE;
use crate::xml::{Tag, push_end};
use cics_names::NoMemory;
use cics_script::spelling::Part;

// What a mark or a sign of the legend means. The number is the distance from the left, as a `u16`:
// some pixels can be added.
#[derive(Clone, Copy)]
enum Meaning<'a> {
    // A kind of event, and its words.
    Mark(u16, RowKind, &'a str),
    // A class, a path, and words.
    Sign(u16, &'a str, &'a str, &'a str),
}

/// Every picture is well formed: it is read back as a document, whatever the lines and texts are.
pub fn sheets_are_documents()
    ensures { (lines : List Printed) (fills : List Fill) (title : List ℕ)
        → (d : Document) × (document_of (sheet (drawn lines) fills title) ≡ Some d) }
{}

/// The row of an event WAITING draws exactly one arrow: from the lane of its task to that of the
/// task that it names. This supposes that rows before it attach both tasks, and at most sixteen in
/// all.
pub fn waits_have_arrows()
    ensures { (before : List Row) (r : Row) → TellsWait before r → DrawsArrow before r }
{}

/// A standing that has a unit of work after a line of the script has a bar of it, in the lane of
/// the same number.
pub fn units_have_bars()
    ensures { (before after : List Printed) (p : Printed) (lane unit : ℕ) (s : Standing)
        → lane < most_lanes → slice_get p.standings lane ≡ Some s → s.unit ≡ Some unit
        → list_any (is_bar_of lane unit) (finished (drawn (before ++ p ∷ after))).bars ≡ true }
{}

/// The bar of a unit of work that has ended begins a little above a row: that of its task's last
/// event in the line that begins the unit. It ends at the row of its task's last event in the line
/// that ends it.
pub fn bars_span_units()
    ensures { (before during : List Printed) (p q : Printed) (lane unit : ℕ)
        → Lives before p during q lane unit
        → Contains (drawn ((before ++ p ∷ during) ++ q ∷ [])).bars
        (bar_from_to lane unit (acts_at before p lane) (acts_at (before ++ p ∷ during) q lane)) }
{}

/// If a task blocks the one of a lane after a line, and another did before it, an arrow leads from
/// this lane to that task's, if it has one. If the line brought its task into a deadlock, a ring
/// stands round it.
pub fn new_blockers_have_signs()
    ensures { (before : List Printed) (p : Printed) (lane : ℕ) (s : Standing)
        → lane < most_lanes → slice_get p.standings lane ≡ Some s
        → HasPart (drawn (before ++ p ∷ [])).marks
        (turn_signs (rows_behind before p) lane (lane_at (drawn before).lanes lane) s) }
{}

fn push_style(out: &mut Vec<u8>) -> Result<(), NoMemory>
    ensures { OnOk result (out.new.items ≡ out.old.items ++ style_text) }
{
    push_spoken(out, Tag::Style, STYLE.as_bytes())
}

// Shades so many rows, every other one.
#[tactic(auto, unfolding(crate::specs::Sheets::bands))]
fn push_bands(out: &mut Vec<u8>, width: u64, count: u64) -> Result<(), NoMemory>
    requires { count ≤ 100000 }
    ensures { OnOk result (out.new.items ≡ out.old.items ++ bands width count) }
{
    for n in 0..count {
        push_field(out, "band".as_bytes(), (0, 109 + 44 * n), (width, 22))?;
    }
    Ok(())
}

// Puts the lines of so many lanes.
#[tactic(auto, unfolding(crate::specs::Sheets::lane_lines))]
fn push_lane_lines(out: &mut Vec<u8>, height: u64, lanes: usize) -> Result<(), NoMemory>
    requires { lanes ≤ most_lanes }
    ensures { OnOk result (out.new.items ≡ out.old.items ++ lane_lines height lanes) }
{
    for lane in 0..lanes {
        push_stroke(
            out,
            "life".as_bytes(),
            (lane_x(lane), 106),
            (lane_x(lane), height),
        )?;
    }
    Ok(())
}

// Puts what a mark or a sign means.
#[tactic(auto, unfolding(crate::specs::Sheets::legend_item, crate::specs::Sheets::sign_item))]
fn push_meaning(out: &mut Vec<u8>, meaning: &Meaning<'_>) -> Result<(), NoMemory>
    ensures { OnOk result (out.new.items ≡ out.old.items ++ meaning_text meaning.now) }
{
    match meaning {
        Meaning::Mark(x, kind, words) => {
            let x = u64::from(*x);
            push_mark(out, *kind, x, 52)?;
            push_words(out, "d s".as_bytes(), (x + 14, 56), &[Part::Str(words)])
        }
        Meaning::Sign(x, class, path, words) => {
            let x = u64::from(*x);
            push_shape(out, class.as_bytes(), path.as_bytes(), (x, 74))?;
            push_words(out, "d s".as_bytes(), (x + 16, 78), &[Part::Str(words)])
        }
    }
}

fn push_meanings(out: &mut Vec<u8>, meanings: &[Meaning<'_>]) -> Result<(), NoMemory>
    ensures { OnOk result (out.new.items
        ≡ out.old.items ++ flat_map meaning_text meanings.now) }
{
    for meaning in meanings {
        push_meaning(out, meaning)?;
    }
    Ok(())
}

// Puts what the marks of events mean.
fn push_marks_legend(out: &mut Vec<u8>) -> Result<(), NoMemory>
    ensures { OnOk result (out.new.items ≡ out.old.items
        ++ (answers_legend ++ (ways_legend ++ (ends_legend ++ region_legend)))) }
{
    push_meanings(
        out,
        &[
            Meaning::Mark(24, RowKind::Attached, "attached"),
            Meaning::Mark(114, RowKind::Normal, "answered"),
            Meaning::Mark(204, RowKind::Condition, "another condition"),
            Meaning::Mark(354, RowKind::Refused, "refused"),
            Meaning::Mark(444, RowKind::Waiting, "waits"),
            Meaning::Mark(514, RowKind::Woken, "goes on"),
            Meaning::Mark(604, RowKind::Committed, "syncpoint"),
            Meaning::Mark(704, RowKind::BackedOut, "rollback"),
            Meaning::Mark(804, RowKind::Ended, "ended"),
            Meaning::Mark(884, RowKind::Abended, "abended"),
            Meaning::Mark(974, RowKind::Clock, "clock"),
            Meaning::Mark(1054, RowKind::Down, "shutdown or fault"),
        ],
    )
}

// Puts what bars, rings and diamonds mean.
fn push_units_legend(out: &mut Vec<u8>) -> Result<(), NoMemory>
    ensures { OnOk result (out.new.items ≡ out.old.items ++ units_legend) }
{
    let bar = "M-7 -7h14v14h-14z";
    let ring = "M-10 0a10 10 0 1 0 20 0a10 10 0 1 0 -20 0z";
    let diamond = "M0 -10l10 10l-10 10l-10 -10z";
    let dashed = "M-9 0a9 9 0 1 0 18 0a9 9 0 1 0 -18 0z";
    push_meanings(
        out,
        &[
            Meaning::Sign(24, "uf", bar, "unit of work that commits"),
            Meaning::Sign(224, "uh", bar, "backed out"),
            Meaning::Sign(344, "uo", bar, "open at the end"),
            Meaning::Sign(484, "dl", ring, "caught in a deadlock"),
            Meaning::Sign(664, "st", diamond, "changes what no backout undoes"),
            Meaning::Sign(912, "un", dashed, "reads what isn't committed"),
        ],
    )
}

// Puts the title, and the legend below it.
#[tactic(auto, unfolding(crate::specs::Sheets::heading))]
fn push_heading(out: &mut Vec<u8>, title: &[u8]) -> Result<(), NoMemory>
    ensures { OnOk result (out.new.items ≡ out.old.items ++ heading title.now) }
{
    push_cut_words(out, "h1".as_bytes(), (16, 30), cut(title, 96))?;
    push_marks_legend(out)?;
    push_units_legend(out)
}

// How wide a picture is.
fn width_of(drawing: &Drawing) -> u64
    ensures { result ≡ width_of (drawn_of drawing.now) }
{
    1280 + 60 * (drawing.tasks.len() as u64)
}

// How high a picture is.
fn height_of(drawing: &Drawing) -> u64
    ensures { result ≡ height_of (drawn_of drawing.now) }
{
    120 + 22 * drawing.rows
}

// Puts what stands under the rows.
fn push_ground(out: &mut Vec<u8>, drawing: &Drawing, title: &[u8]) -> Result<(), NoMemory>
    ensures { OnOk result (out.new.items
        ≡ out.old.items ++ ground (drawn_of drawing.now) title.now) }
{
    push_spoken(out, Tag::Title, title)?;
    push_style(out)?;
    push_field(
        out,
        "paper".as_bytes(),
        (0, 0),
        (width_of(drawing), height_of(drawing)),
    )?;
    push_bands(out, width_of(drawing), (drawing.rows + 1) / 2)?;
    push_heading(out, title)?;
    push_lane_lines(out, height_of(drawing), drawing.tasks.len())
}

// Puts the texts of the rows under their headings, to the right of the lanes.
#[tactic(auto, unfolding(crate::specs::Sheets::headings))]
fn push_moved_texts(out: &mut Vec<u8>, drawing: &Drawing) -> Result<(), NoMemory>
    ensures { OnOk result (out.new.items ≡ out.old.items ++ moved_texts (drawn_of drawing.now)) }
{
    push_moved_start(out, 60 * (drawing.tasks.len() as u64))?;
    push_words(out, "d s".as_bytes(), (78, 98), &[Part::Str("script")])?;
    push_words(out, "d s".as_bytes(), (744, 98), &[Part::Str("journal")])?;
    out.extend_from_slice(&drawing.texts)?;
    push_end(out, Tag::G)
}

// Puts the whole picture of what is finished.
fn push_whole_sheet(
    out: &mut Vec<u8>,
    drawing: &Drawing,
    fills: &[Fill],
    title: &[u8],
) -> Result<(), NoMemory>
    ensures { OnOk result (out.new.items
        ≡ out.old.items ++ whole_sheet (drawn_of drawing.now) fills.now title.now) }
{
    push_picture_start(out, width_of(drawing), height_of(drawing))?;
    push_ground(out, drawing, title)?;
    push_bars(out, fills, drawing.bars.as_slice())?;
    out.extend_from_slice(&drawing.marks)?;
    push_moved_texts(out, drawing)?;
    push_end(out, Tag::Svg)
}

/// Puts the whole picture of what was drawn, with a title. `fills` has that of each unit's bar, by
/// the unit's number. The bars of open units end here, so nothing more may be drawn.
pub fn push_sheet(
    out: &mut Vec<u8>,
    drawing: &mut Drawing,
    fills: &[Fill],
    title: &[u8],
) -> Result<(), NoMemory>
    ensures { OnOk result (out.new.items
        ≡ out.old.items ++ sheet (drawn_of drawing.old) fills.now title.now) }
{
    drawing.finish()?;
    push_whole_sheet(out, drawing, fills, title)
}
