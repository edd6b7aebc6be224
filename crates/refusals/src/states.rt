//! What units show: two states are told apart by it.

use cics_history::UnitId;
use cics_names::NoMemory;
use cics_run::listing::push_listing;
use cics_script::spelling::{Part, push_parts, push_str, push_text};
use cics_units::{Entry, Listing, OpRef, UnitState, Units};

/// Appends a listing. It takes the result of the call: so the caller drops no listing.
pub(crate) fn push_listed(
    out: &mut Vec<u8>,
    listing: Result<Listing, NoMemory>,
) -> Result<(), NoMemory> {
    push_listing(out, &listing?)
}

// Puts at the end what a command names.
fn push_op(out: &mut Vec<u8>, op: &OpRef<'_>) -> Result<(), NoMemory> {
    match op {
        OpRef::Write(_, key, from) | OpRef::Rewrite(_, key, from) => {
            push_parts(out, &[Part::Text(key), Part::Text(from)])
        }
        OpRef::Delete(_, text)
        | OpRef::DeleteGeneric(_, text)
        | OpRef::ReadUpdate(_, text)
        | OpRef::TsWrite(_, text)
        | OpRef::TsRewrite(_, _, text)
        | OpRef::TdWrite(_, text) => push_text(out, text),
        _ => Ok(()),
    }
}

// Puts an executed command at the end: what it names, its unit, and its answer.
fn push_entry(out: &mut Vec<u8>, entry: &Entry) -> Result<(), NoMemory> {
    push_op(out, &entry.op())?;
    let parts = [
        Part::Number(entry.unit().number()),
        Part::Str(entry.condition().name()),
        Part::Number(entry.number().unwrap_or(0)),
    ];
    push_parts(out, &parts)?;
    match entry.content() {
        Some(content) => push_text(out, content.bytes()),
        None => Ok(()),
    }
}

/// Puts at the end what is listed, the NEXT cursors, the executed commands with their answers, and
/// how each unit stands, with its update reads.
pub(crate) fn push_units(
    out: &mut Vec<u8>,
    units: &Units,
    listing: &Listing,
) -> Result<(), NoMemory> {
    push_listing(out, listing)?;
    for (queue, _, _) in listing.ts.as_slice() {
        let place = u64::from(units.next_place(queue));
        push_parts(out, &[Part::Number(place), Part::Str(" ")])?;
    }
    for entry in units.trace() {
        push_entry(out, entry)?;
    }
    for (number, outcome) in units.outcomes().iter().enumerate() {
        push_str(
            out,
            match outcome {
                UnitState::Open => "\nopen",
                UnitState::Committed => "\ncommitted",
                UnitState::BackedOut => "\nbacked out",
            },
        )?;
        for (file, _, _) in listing.files.as_slice() {
            let read = units.open_read(UnitId::new(number as u64), file);
            push_text(out, read.unwrap_or(b""))?;
        }
    }
    Ok(())
}
