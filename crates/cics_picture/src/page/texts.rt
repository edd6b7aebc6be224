//! Notes as elements.

ghost use Rattle.std.specs.Prelude.{◌≡◌, ◌++◌, OnOk, codes};
ghost use Rattle.cics_history.specs.Headline.{outcome_of};
ghost use Rattle.cics_script.specs.Parts.{part_text};
ghost use Rattle.cics_picture.specs.declared.xml.names.Tag.TheVariants.{B};
ghost use Rattle.cics_picture.specs.Elements.{spoken};
ghost use Rattle.cics_picture.specs.Page.Texts.{name_element, definition_text, held_class};
ghost use Rattle.cics_picture.specs.Page.Texts.{held_words, held_text, resource_text, holds_text};
ghost use Rattle.cics_picture.specs.Page.Texts.{releases_text, wanted_text, limit_text};
ghost use Rattle.cics_picture.specs.Page.Texts.{begins_text, ends_text, set_start, set_end};
ghost use Rattle.cics_picture.specs.Page.Texts.{cell_text, change_text, set_text, cursor_text};
ghost use Rattle.cics_picture.specs.Page.Texts.{waits_text, circle_text, deadlock_text, told_text};
ghost use Rattle.cics_picture.specs.Page.Texts.{note_text, notes_text};

use crate::page::notes::{Cell, Change, Held, Note, Wanted};
use crate::page::pieces::{Piece, push_piece, push_pieces};
use crate::xml::Tag;
use cics_history::UnitState;
use cics_names::{Name8, NoMemory};
use cics_run::listing::{recoverable_title, recovery_title};
use cics_script::spelling::{Part, push_parts, push_str};

// Puts a definition.
fn push_definition<'a>(
    out: &mut Vec<u8>,
    start: &'a str,
    name: &'a [u8],
    title: &'a str,
) -> Result<(), NoMemory>
    ensures { OnOk result (out.new.items
        ≡ out.old.items ++ definition_text start.now name.now title.now) }
{
    push_pieces(
        out,
        &[
            Piece::Markup(start),
            Piece::Element(Tag::I, Part::Name(name)),
            Piece::Markup(" "),
            Piece::Element(Tag::B, Part::Str(title)),
            Piece::Markup("</p>"),
        ],
    )
}

// Returns the class of what is held, and the words in front of it.
fn held_words(held: &Held) -> (&'static str, &'static str)
    ensures class { result.0.now ≡ held_class held.now }
    ensures words { result.1.now ≡ held_words held.now }
{
    match held {
        Held::Keys {
            is_prefix: false,
            ..
        } => ("file", "record "),
        Held::Keys { .. } => ("pre", "prefix "),
        Held::Queue(_) => ("ts", "queue "),
        Held::End {
            is_writing: false,
            ..
        } => ("rd", "the reading end of "),
        Held::End { .. } => ("wr", "the writing end of "),
        Held::Value(_) => ("enq", "value "),
    }
}

// Puts what is held, behind those words.
fn push_held(out: &mut Vec<u8>, held: &Held) -> Result<(), NoMemory>
    ensures { OnOk result (out.new.items ≡ out.old.items ++ held_text held.now) }
{
    match held {
        Held::Keys { file, bytes, .. } => push_pieces(
            out,
            &[
                Piece::Element(Tag::B, Part::Text(bytes.bytes())),
                Piece::Markup(" of "),
                Piece::Element(Tag::I, Part::Name(&file.bytes())),
            ],
        ),
        Held::Queue(queue) => push_piece(out, &Piece::Element(Tag::I, Part::Name(&queue.bytes()))),
        Held::End { queue, .. } => push_piece(
            out,
            &Piece::Element(Tag::I, Part::Name(&queue.bytes())),
        ),
        Held::Value(value) => push_piece(out, &Piece::Element(Tag::B, Part::Text(value.bytes()))),
    }
}

// Puts the front of a class, the rest of it by what is held, a verb, and what is held.
#[tactic(auto, unfolding(crate::specs::Page::Texts::resource_text))]
fn push_resource(out: &mut Vec<u8>, front: &str, verb: &str, held: &Held) -> Result<(), NoMemory>
    ensures { OnOk result (out.new.items
        ≡ out.old.items ++ resource_text front.now verb.now held.now) }
{
    let (class, words) = held_words(held);
    push_parts(
        out,
        &[
            Part::Str(front),
            Part::Str(class),
            Part::Str(verb),
            Part::Str(words),
        ],
    )?;
    push_held(out, held)
}

// Puts what a unit holds, and of a value how often it was enqueued and not dequeued.
fn push_holds(out: &mut Vec<u8>, held: &Held, count: u64) -> Result<(), NoMemory>
    ensures { OnOk result (out.new.items ≡ out.old.items ++ holds_text held.now count) }
{
    push_resource(out, "<p class=\"own ", "\">holds ", held)?;
    match held {
        Held::Value(_) => push_pieces(
            out,
            &[
                Piece::Markup(" &#215;"),
                Piece::Element(Tag::I, Part::Number(count)),
                Piece::Markup("</p>"),
            ],
        ),
        _ => push_str(out, "</p>"),
    }
}

fn push_releases(out: &mut Vec<u8>, held: &Held) -> Result<(), NoMemory>
    ensures { OnOk result (out.new.items ≡ out.old.items ++ releases_text held.now) }
{
    push_resource(out, "<p class=\"off ", "\">releases ", held)?;
    push_str(out, "</p>")
}

// Puts the start of the note of a wait. A reading end is wanted for a record.
fn push_wanted(out: &mut Vec<u8>, wanted: &Wanted) -> Result<(), NoMemory>
    ensures { OnOk result (out.new.items ≡ out.old.items ++ wanted_text wanted.now) }
{
    match wanted {
        Wanted::One(
            Held::End {
                queue,
                is_writing: false,
            },
        ) => push_pieces(
            out,
            &[
                Piece::Markup("<p class=\"ask rd\">wants a record of "),
                Piece::Element(Tag::I, Part::Name(&queue.bytes())),
            ],
        ),
        Wanted::One(held) => push_resource(out, "<p class=\"ask ", "\">wants ", held),
        Wanted::BothEnds(queue) => push_pieces(
            out,
            &[
                Piece::Markup("<p class=\"ask td\">wants both ends of "),
                Piece::Element(Tag::I, Part::Name(&queue.bytes())),
            ],
        ),
    }
}

// Puts how long a task waits at most, if there is a limit, and the end of the note.
fn push_limit(out: &mut Vec<u8>, seconds: u64) -> Result<(), NoMemory>
    ensures { OnOk result (out.new.items
        ≡ out.old.items ++ (limit_text seconds ++ codes "</p>")) }
{
    if seconds == 0 {
        return push_str(out, "</p>");
    }
    push_pieces(
        out,
        &[
            Piece::Markup(", for "),
            Piece::Text(Part::Number(seconds)),
            Piece::Markup(" seconds at most</p>"),
        ],
    )
}

fn begins_text(outcome: UnitState) -> &'static str
    ensures { result.now ≡ begins_text outcome }
{
    match outcome {
        UnitState::Committed => "<p class=\"beg com\">begins a unit that is committed</p>",
        UnitState::BackedOut => "<p class=\"beg bak\">begins a unit that is backed out</p>",
        UnitState::Open => "<p class=\"beg opn\">begins a unit that stays open</p>",
    }
}

// Puts what a waiting command wants, and how long its task waits at most.
fn push_wait(out: &mut Vec<u8>, wanted: &Wanted, seconds: u64) -> Result<(), NoMemory>
    ensures { OnOk result (out.new.items
        ≡ out.old.items ++ (wanted_text wanted.now ++ (limit_text seconds ++ codes "</p>"))) }
{
    push_wanted(out, wanted)?;
    push_limit(out, seconds)
}

// Puts the note of a unit that ends.
fn push_ends(out: &mut Vec<u8>, start: &str, label: &Name8) -> Result<(), NoMemory>
    ensures { OnOk result (out.new.items ≡ out.old.items ++ ends_text start.now label.now) }
{
    push_str(out, start)?;
    push_pieces(
        out,
        &[
            Piece::Element(Tag::B, Part::Bare(&label.bytes())),
            Piece::Markup("</p>"),
        ],
    )
}

fn set_start(cell: &Cell, stays: bool) -> &'static str
    ensures { result.now ≡ set_start cell.now stays }
{
    match (cell, stays) {
        (Cell::Record(_, _), false) => "<p class=\"set file\">record ",
        (Cell::Record(_, _), true) => "<p class=\"set file stays\">record ",
        (Cell::Item(_, _), false) => "<p class=\"set ts\">item ",
        (Cell::Item(_, _), true) => "<p class=\"set ts stays\">item ",
        (Cell::TdRecord(_, _), false) => "<p class=\"set td\">record ",
        (Cell::TdRecord(_, _), true) => "<p class=\"set td stays\">record ",
    }
}

fn set_end(stays: bool) -> &'static str
    ensures { result.now ≡ set_end stays }
{
    if stays { ", which stays</p>" } else { "</p>" }
}

// Puts the start of a note, what a file or a queue has, its name, and a colon.
fn push_owned<'a>(
    out: &mut Vec<u8>,
    start: &'a str,
    part: Part<'a>,
    name: &'a [u8],
) -> Result<(), NoMemory>
    ensures { OnOk result (out.new.items
        ≡ out.old.items ++ (start.now ++ ((spoken B (part_text part.entry)
        ++ (codes " of " ++ name_element name.now)) ++ codes ": "))) }
{
    push_pieces(
        out,
        &[
            Piece::Markup(start),
            Piece::Element(Tag::B, part),
            Piece::Markup(" of "),
            Piece::Element(Tag::I, Part::Name(name)),
            Piece::Markup(": "),
        ],
    )
}

// Puts the start of a note, a cell, and a colon.
fn push_cell(out: &mut Vec<u8>, start: &str, cell: &Cell) -> Result<(), NoMemory>
    ensures { OnOk result (out.new.items
        ≡ out.old.items ++ (start.now ++ (cell_text cell.now ++ codes ": "))) }
{
    match cell {
        Cell::Record(file, key) => {
            push_owned(out, start, Part::Text(key.bytes()), &file.bytes())
        }
        Cell::Item(queue, number) => {
            push_owned(out, start, Part::Number(*number), &queue.bytes())
        }
        Cell::TdRecord(queue, number) => {
            push_owned(out, start, Part::Number(*number), &queue.bytes())
        }
    }
}

// Puts how the text of a cell changed, and the end of the note.
fn push_change<'a>(out: &mut Vec<u8>, change: &'a Change, end: &'a str) -> Result<(), NoMemory>
    ensures { OnOk result (out.new.items
        ≡ out.old.items ++ (change_text change.now ++ end.now)) }
{
    match change {
        Change::Added(after) => push_pieces(
            out,
            &[
                Piece::Markup("added "),
                Piece::Element(Tag::Ins, Part::Text(after.bytes())),
                Piece::Markup(end),
            ],
        ),
        Change::Removed(before) => push_pieces(
            out,
            &[
                Piece::Markup("removed "),
                Piece::Element(Tag::Del, Part::Text(before.bytes())),
                Piece::Markup(end),
            ],
        ),
        Change::Becomes(before, after) => push_pieces(
            out,
            &[
                Piece::Element(Tag::Del, Part::Text(before.bytes())),
                Piece::Markup(" becomes "),
                Piece::Element(Tag::Ins, Part::Text(after.bytes())),
                Piece::Markup(end),
            ],
        ),
    }
}

fn push_set(out: &mut Vec<u8>, cell: &Cell, change: &Change, stays: bool) -> Result<(), NoMemory>
    ensures { OnOk result (out.new.items ≡ out.old.items ++ set_text cell.now change.now stays) }
{
    push_cell(out, set_start(cell, stays), cell)?;
    push_change(out, change, set_end(stays))
}

fn push_cursor(out: &mut Vec<u8>, queue: &Name8, before: u64, after: u64) -> Result<(), NoMemory>
    ensures { OnOk result (out.new.items ≡ out.old.items ++ cursor_text queue.now before after) }
{
    push_pieces(
        out,
        &[
            Piece::Markup("<p class=\"cur\">cursor of "),
            Piece::Element(Tag::I, Part::Name(&queue.bytes())),
            Piece::Markup(": "),
            Piece::Element(Tag::Del, Part::Number(before)),
            Piece::Markup(" becomes "),
            Piece::Element(Tag::Ins, Part::Number(after)),
            Piece::Markup("</p>"),
        ],
    )
}

// Puts a task, and the task for which it waits.
fn push_waits(out: &mut Vec<u8>, label: &Name8, next: &Name8) -> Result<(), NoMemory>
    ensures { OnOk result (out.new.items ≡ out.old.items ++ waits_text label.now next.now) }
{
    push_parts(
        out,
        &[
            Part::Bare(&label.bytes()),
            Part::Str(" waits for "),
            Part::Bare(&next.bytes()),
        ],
    )
}

// Puts a circle of tasks, of which each waits for the next one, and the last for the first.
fn push_circle(out: &mut Vec<u8>, labels: &[Name8]) -> Result<(), NoMemory>
    ensures { OnOk result (out.new.items ≡ out.old.items ++ circle_text labels.now) }
{
    let Some((first, others)) = labels.split_first() else {
        return Ok(());
    };
    let mut label = first;
    for next in others {
        push_waits(out, label, next)?;
        push_str(out, ", ")?;
        label = next;
    }
    push_waits(out, label, first)
}

// Puts a deadlock.
fn push_deadlock(out: &mut Vec<u8>, labels: &[Name8]) -> Result<(), NoMemory>
    ensures { OnOk result (out.new.items
        ≡ out.old.items ++ deadlock_text labels.now) }
{
    let mut text = Vec::new(*out.allocator());
    push_circle(&mut text, labels)?;
    push_pieces(
        out,
        &[
            Piece::Markup("<p class=\"ring\">deadlock: "),
            Piece::Text(Part::Bytes(&text)),
            Piece::Markup("</p>"),
        ],
    )
}

// Returns how a unit ended; one that hasn't ended is open.
fn outcome_of(outcomes: &[UnitState], unit: u64) -> UnitState
    ensures { result ≡ outcome_of outcomes.now unit }
{
    outcomes
        .get(unit as usize)
        .copied()
        .unwrap_or(UnitState::Open)
}

// Puts a note of a run whose units have these outcomes.
fn push_told(out: &mut Vec<u8>, outcomes: &[UnitState], note: &Note) -> Result<(), NoMemory>
    ensures { OnOk result (out.new.items ≡ out.old.items ++ told_text outcomes.now note.now) }
{
    match note {
        Note::File {
            name,
            is_recoverable,
        } => push_definition(
            out,
            "<p class=\"def file\">file ",
            &name.bytes(),
            recoverable_title(*is_recoverable),
        ),
        Note::TdQueue { name, recovery } => push_definition(
            out,
            "<p class=\"def td\">queue ",
            &name.bytes(),
            recovery_title(*recovery),
        ),
        Note::Wants { wanted, seconds } => push_wait(out, wanted, *seconds),
        Note::Begins { unit } => push_str(out, begins_text(outcome_of(outcomes, *unit))),
        Note::Holds { held, count } => push_holds(out, held, *count),
        Note::Releases(held) => push_releases(out, held),
        Note::Commits(label) => push_ends(out, "<p class=\"com\">commits the unit of ", label),
        Note::BacksOut(label) => push_ends(out, "<p class=\"bak\">backs out the unit of ", label),
        Note::Set {
            cell,
            change,
            stays,
        } => push_set(out, cell, change, *stays),
        Note::Cursor {
            queue,
            before,
            after,
        } => push_cursor(out, queue, *before, *after),
        Note::Ring(labels) => push_deadlock(out, labels.as_slice()),
    }
}

/// Puts a note and LF.
pub fn push_note(out: &mut Vec<u8>, outcomes: &[UnitState], note: &Note) -> Result<(), NoMemory>
    ensures { OnOk result (out.new.items ≡ out.old.items ++ note_text outcomes.now note.now) }
{
    push_told(out, outcomes, note)?;
    push_str(out, "\n")
}

/// Puts notes, one on a line.
pub fn push_notes(out: &mut Vec<u8>, outcomes: &[UnitState], notes: &[Note]) -> Result<(), NoMemory>
    ensures { OnOk result (out.new.items ≡ out.old.items ++ notes_text outcomes.now notes.now) }
{
    for note in notes {
        push_note(out, outcomes, note)?;
    }
    Ok(())
}
