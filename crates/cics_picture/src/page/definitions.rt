//! What a line defines or loads, as notes.

ghost use Rattle.std.specs.Prelude.{◌≡◌, IfOk};
ghost use Rattle.cics_picture.specs.Page.Definitions.{loaded_under, loaded_in, loaded_last};
ghost use Rattle.cics_picture.specs.Page.Definitions.{defined_by, defined_at};

use crate::page::notes::{Cell, Change, Note};
use cics_ksds::FileDef;
use cics_names::{Name4, Name8, NoMemory, Record};
use cics_run::stage::Stage;
use cics_script::{Line, LineFault, read_line};
use cics_units::Opening;
use std::alloc::Global;

// Returns the note of a record that was loaded into a file of this definition.
fn loaded_under(
    name: &Name8,
    content: Record,
    definition: FileDef,
    alloc: Global,
) -> Result<Option<Note>, NoMemory>
    ensures { IfOk result (λ note. note ≡ loaded_under name.now content definition) }
{
    if !definition.fits(content.bytes()) {
        return Ok(None);
    }
    let key = Record::from_slice(alloc, definition.key_in(content.bytes()))?;
    Ok(Some(Note::Set {
        cell: Cell::Record(*name, key),
        change: Change::Added(content),
        stays: !definition.recoverable,
    }))
}

// Returns the note of a record that was loaded into a file.
fn loaded_in(opening: &Opening, name: &Name8, content: Record) -> Result<Option<Note>, NoMemory>
    ensures { IfOk result (λ note. note ≡ loaded_in opening.now name.now content) }
{
    match opening.files().get(name) {
        Some(file) => loaded_under(name, content, file.definition(), opening.allocator()),
        None => Ok(None),
    }
}

// Returns the note of a record that was loaded last into a transient data queue.
fn loaded_last(opening: &Opening, name: &Name4, content: Record) -> Option<Note>
    ensures { result ≡ loaded_last opening.now name.now content }
{
    match opening.queues().get(name) {
        Some(queue) => Some(Note::Set {
            cell: Cell::TdRecord(*name, queue.len() as u64),
            change: Change::Added(content),
            stays: !queue.recovery().is_logical(),
        }),
        None => None,
    }
}

// Returns the note of what a line has defined or loaded.
fn defined_by(opening: &Opening, line: Line) -> Result<Option<Note>, NoMemory>
    ensures { IfOk result (λ note. note ≡ defined_by opening.now line) }
{
    match line {
        Line::DefineFile(name, definition) => Ok(Some(Note::File {
            name,
            is_recoverable: definition.recoverable,
        })),
        Line::DefineTd(name, recovery) => Ok(Some(Note::TdQueue { name, recovery })),
        Line::LoadFile(name, content) => loaded_in(opening, &name, content),
        Line::LoadTd(name, content) => Ok(loaded_last(opening, &name, content)),
        _ => Ok(None),
    }
}

/// Returns the note of what a line without a fault has defined or loaded, if it has.
///
/// Errors: `NoMemory`.
pub fn defined_at(alloc: Global, stage: &Stage, line: &[u8]) -> Result<Option<Note>, NoMemory>
    ensures { IfOk result (λ note. note ≡ defined_at stage.now line.now) }
{
    let Stage::Opening(opening) = stage else {
        return Ok(None);
    };
    match read_line(alloc, line) {
        Ok(line) => defined_by(opening, line),
        Err(LineFault::NoMemory) => Err(NoMemory),
        Err(_) => Ok(None),
    }
}
