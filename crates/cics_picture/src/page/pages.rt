//! The lines of a script, run and written as a page.

ghost use Rattle.std.specs.Prelude.{◌≡◌, ◌++◌, ◌+◌, ◌<◌, ◌^◌, [], List, ℕ, IfOk, IfErr, OnOk};
ghost use Rattle.std.specs.Prelude.{Some, length};
ghost use Rattle.cics_run.specs.Session.Lines.{all_lines};
ghost use Rattle.cics_run.specs.Session.Running.{is_faulty, play};
ghost use Rattle.cics_run.specs.Session.Standing.{IsNew};
ghost use Rattle.cics_run.specs.Stage.Stages.{listing_at};
ghost use Rattle.cics_picture.specs.Draw.Pictures.{RunsLine, KeepsLast};
ghost use Rattle.cics_picture.specs.Page.Lines.{head, tail, front_text, listing_text, back_text};
ghost use Rattle.cics_picture.specs.Page.Pages.{IsPage, HasDocuments, PutsPage, HasTooManySteps};
ghost use Rattle.cics_picture.specs.Page.Pages.{HasTooLongLines, HasLines, PutsLine, next_plain};
ghost use Rattle.cics_picture.specs.Page.Pages.{WouldBeTooLong, defined_if, listing_of, listing_unless};
ghost use Rattle.cics_picture.specs.Page.Recording.{told_in};
ghost use Rattle.cics_picture.specs.Page.Sheets.{most_steps};
ghost use Rattle.cics_picture.specs.declared.page.lines.Unwritten.TheVariants.{TooLong};
ghost use Rattle.cics_picture.specs.declared.page.lines.Unwritten.TheVariants.{TooManySteps};

use crate::draw::{run_line, title_of};
use crate::elements::{cut, push_spoken};
use crate::page::body::BODY;
use crate::page::definitions::defined_at;
use crate::page::head::HEAD;
use crate::page::lines::{Sheet, Unwritten};
use crate::page::notes::Note;
use crate::page::pieces::{Piece, push_pieces};
use crate::page::player::PLAYER;
use crate::page::recording::Pager;
use crate::xml::Tag;
use cics_names::NoMemory;
use cics_run::listing::push_listing;
use cics_run::reading::{Nobody, next_line};
use cics_run::session::Session;
use cics_run::stage::Stage;
use cics_script::spelling::{Part, push_parts, push_str};
use std::alloc::Global;

/// Each page of a script begins and ends with the same bytes. Between them its title and its
/// content are each read back as a document, whatever the lines, names and records are.
pub fn pages_are_documents()
    ensures { (script text : List ℕ) → IsPage script text → HasDocuments text }
{}

// Returns the stage at the end of a run: how each unit ends is known there only.
fn last_stage(alloc: Global, script: &[u8]) -> Result<Stage, NoMemory>
    ensures { IfOk result (λ stage. stage ≡ (play (all_lines script.now)).stage) }
{
    let mut stage = Stage::new(alloc);
    let mut rest = script;
    'lines: loop {
        let Some((line, after)) = next_line(rest) else {
            return Ok(stage);
        };
        match stage.run_line(alloc, 0, line, &mut Nobody)? {
            None => rest = after,
            Some(_) => return Ok(stage),
        }
    }
}

// Returns what a line without steps has defined or loaded, and tells the pager of it.
fn defined_behind(
    session: &Session,
    pager: &mut Pager,
    line: &[u8],
) -> Result<Option<Note>, NoMemory>
    ensures value { IfOk result (λ defined. defined
        ≡ defined_if (told_in pager.old) session.now.stage line.now) }
    ensures steps { OnOk result (pager.new.steps ≡ pager.old.steps) }
{
    if !pager.steps.is_empty() {
        return Ok(None);
    }
    let defined = defined_at(*session.line.allocator(), &session.stage, line)?;
    if let Some(note) = &defined {
        pager.viewer.load(note)?;
    }
    Ok(defined)
}

// Runs a line and returns whether it has a fault. The pager has its steps then.
fn follow_line(session: &mut Session, pager: &mut Pager, line: &[u8]) -> Result<bool, NoMemory>
    requires number { session.old.number + 1 < 2 ^ 64 }
    requires none { session.old.line.items ≡ [] }
    ensures runs { RunsLine session.old line.now session.new result }
    ensures steps { OnOk result (told_in pager.new ≡ (next_plain session.old line.now).steps) }
{
    pager.begin_line(line)?;
    let is_fault = run_line(session, pager, line)?;
    pager.end_line(&session.stage)?;
    Ok(is_fault)
}

// Runs a line, puts its steps, and returns whether it has a fault.
fn page_line(
    session: &mut Session,
    pager: &mut Pager,
    sheet: &mut Sheet,
    line: &[u8],
) -> Result<bool, Unwritten>
    requires number { session.old.number + 1 < 2 ^ 64 }
    requires none { session.old.line.items ≡ [] }
    ensures runs { RunsLine session.old line.now session.new result }
    ensures puts { OnOk result (PutsLine session.old line.now sheet.old sheet.new) }
    ensures too_many { IfErr result (λ e. e ≡ TooManySteps → most_steps
        < sheet.old.steps + length (next_plain session.old line.now).steps) }
    ensures too_long { IfErr result (λ e. e ≡ TooLong
        → WouldBeTooLong session.old line.now sheet.old) }
{
    let is_fault = follow_line(session, pager, line)?;
    let defined = defined_behind(session, pager, line)?;
    match sheet.push_line(line, &pager.steps, &defined) {
        Ok(()) => Ok(is_fault),
        Err(unwritten) => Err(unwritten),
    }
}

// Runs the lines of a script up to the first fault. Returns what the page has of them, and whether
// there was a fault.
fn page_lines(session: &mut Session, script: &[u8]) -> Result<(Sheet, bool), Unwritten>
    requires new { IsNew session.old }
    ensures lines { IfOk result (λ paged. HasLines script.now paged.0) }
    ensures fault { IfOk result (λ paged. is_faulty script.now ≡ paged.1) }
    ensures kept { IfOk result (λ paged. KeepsLast script.now session.new paged.1) }
    ensures stage { OnOk result (session.new.stage ≡ (play (all_lines script.now)).stage) }
    ensures too_many { IfErr result (λ e. e ≡ TooManySteps → HasTooManySteps script.now) }
    ensures too_long { IfErr result (λ e. e ≡ TooLong → HasTooLongLines script.now) }
{
    let alloc = *session.line.allocator();
    let mut sheet = Sheet::new(alloc, last_stage(alloc, script)?);
    let mut pager = Pager::new(alloc);
    let mut rest = script;
    'lines: loop {
        let Some((line, after)) = next_line(rest) else {
            return Ok((sheet, false));
        };
        match page_line(session, &mut pager, &mut sheet, line) {
            Ok(false) => rest = after,
            Ok(true) => return Ok((sheet, true)),
            Err(unwritten) => return Err(unwritten),
        }
    }
}

// Appends the listing at the end of a run. Makes the region if no line has made it yet.
fn push_listed(out: &mut Vec<u8>, stage: &mut Stage) -> Result<(), NoMemory>
    ensures { OnOk result (out.new.items ≡ out.old.items ++ listing_at stage.old) }
{
    stage.open()?;
    match stage {
        Stage::Running(region) => push_listing(out, &region.listing()?),
        Stage::Opening(_) => unreachable!(),
    }
}

// Puts the listing, without its last LF.
fn push_listing_text(out: &mut Vec<u8>, stage: &mut Stage) -> Result<(), NoMemory>
    ensures { OnOk result (out.new.items
        ≡ out.old.items ++ listing_text (Some (listing_of stage.old))) }
{
    let mut listing = Vec::new(*out.allocator());
    push_listed(&mut listing, stage)?;
    push_spoken(out, Tag::Pre, &listing[..listing.len().saturating_sub(1)])?;
    push_str(out, "\n")
}

fn push_head(out: &mut Vec<u8>) -> Result<(), NoMemory>
    ensures { OnOk result (out.new.items ≡ out.old.items ++ head) }
{
    push_str(out, HEAD)
}

fn push_tail(out: &mut Vec<u8>) -> Result<(), NoMemory>
    ensures { OnOk result (out.new.items ≡ out.old.items ++ tail) }
{
    push_str(out, BODY)?;
    push_str(out, PLAYER)
}

// Puts the head, the title and the start of the lines.
fn push_front(out: &mut Vec<u8>, title: &[u8]) -> Result<(), NoMemory>
    ensures { OnOk result (out.new.items ≡ out.old.items ++ front_text title.now) }
{
    let (front, dots) = cut(title, 96);
    let mut text = Vec::new(*out.allocator());
    push_parts(&mut text, &[Part::Bytes(front), Part::Bytes(dots)])?;
    push_head(out)?;
    push_pieces(
        out,
        &[
            Piece::Element(Tag::Title, Part::Bytes(&text)),
            Piece::Markup("\n</head>\n<body>\n"),
            Piece::Element(Tag::H1, Part::Bytes(&text)),
            Piece::Markup("\n<ol>\n"),
        ],
    )
}

// Puts the lines, the listing if there is no fault, and the player.
fn push_back(
    out: &mut Vec<u8>,
    lines: &[u8],
    stage: &mut Stage,
    is_faulty: bool,
) -> Result<(), NoMemory>
    ensures { OnOk result (out.new.items
        ≡ out.old.items ++ (lines.now ++ back_text (listing_unless is_faulty stage.old))) }
{
    push_parts(out, &[Part::Bytes(lines), Part::Str("</ol>\n")])?;
    if !is_faulty {
        push_listing_text(out, stage)?;
    }
    push_tail(out)
}

/// Runs a script in a new session, and puts its page at the end of a text. Returns whether a line
/// has a fault: the page then ends with this fault, and the session keeps the line.
///
/// Errors: `TooManySteps`; `TooLong`; `NoMemory`.
pub fn page_script(
    session: &mut Session,
    script: &[u8],
    out: &mut Vec<u8>,
) -> Result<bool, Unwritten>
    requires new { IsNew session.old }
    ensures page { OnOk result (PutsPage script.now out.old.items out.new.items) }
    ensures fault { IfOk result (λ fault. is_faulty script.now ≡ fault) }
    ensures kept { IfOk result (KeepsLast script.now session.new) }
    ensures too_many { IfErr result (λ e. e ≡ TooManySteps → HasTooManySteps script.now) }
    ensures too_long { IfErr result (λ e. e ≡ TooLong → HasTooLongLines script.now) }
{
    let (sheet, is_faulty) = page_lines(session, script)?;
    push_front(out, title_of(script))?;
    push_back(out, &sheet.text, &mut session.stage, is_faulty)?;
    Ok(is_faulty)
}
