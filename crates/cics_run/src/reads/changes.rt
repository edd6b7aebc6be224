//! What a command changes.

ghost use Rattle.std.specs.Prelude.{◌≡◌, [], ◌∷◌, slice_get, IfOk};
ghost use Rattle.cics_history.specs.Borrowed.{as_op};
ghost use Rattle.cics_run.specs.Reads.Changes.{items_to, records_under, deletes_several, doomed_by};
ghost use Rattle.cics_run.specs.Reads.Changes.{changed, done_by, act_at};

use crate::reads::steps::{Act, Cell, Change};
use cics_history::OpRef;
use cics_names::{Condition, Items, Name8, NoMemory, Record, Verb};
use cics_units::{Opening, Units};
use std::alloc::Global;
use std::mem::replace;

// Returns the items of a queue from 1 to a number.
fn items_to(alloc: Global, queue: &Name8, count: u64) -> Result<Items<Cell>, NoMemory>
    ensures { IfOk result (λ cells. cells ≡ items_to queue.now count) }
{
    let mut cells = Items::new(alloc);
    for before in 0..count {
        cells.push(Cell::Item(*queue, before + 1))?;
    }
    Ok(cells)
}

// Returns the records of a file whose keys begin with a prefix.
fn records_under(units: &Units, file: &Name8, prefix: &Record) -> Result<Items<Cell>, NoMemory>
    ensures { IfOk result (λ cells. cells
        ≡ records_under units.now.store file.now prefix.now) }
{
    let mut cells = Items::new(units.opening().allocator());
    let Some(records) = units.file(file) else {
        return Ok(cells);
    };
    for key in records.keys_under(prefix.bytes())?.into_vec() {
        cells.push(Cell::Record(*file, key))?;
    }
    Ok(cells)
}

/// Returns whether a command may delete several cells: DELETE GENERIC and DELETEQ TS.
pub fn deletes_several(verb: &Verb) -> bool
    ensures { result ≡ deletes_several verb.now }
{
    match verb {
        Verb::Delete {
            ridfld: Some(_),
            generic,
            ..
        } => *generic,
        Verb::DeleteqTs { .. } => true,
        _ => false,
    }
}

/// Returns the cells that a command deletes if it may delete several and is executed next.
///
/// Errors: `NoMemory`. Cost: O(cells).
pub fn doomed_by(units: &Units, verb: &Verb) -> Result<Items<Cell>, NoMemory>
    ensures { IfOk result (λ cells. cells ≡ doomed_by units.now.store verb.now) }
{
    let alloc = units.opening().allocator();
    match verb {
        Verb::Delete {
            file,
            ridfld: Some(prefix),
            generic: true,
            ..
        } => records_under(units, file, prefix),
        Verb::DeleteqTs { queue } => items_to(alloc, queue, units.item_count(queue)),
        _ => Ok(Items::new(alloc)),
    }
}

// Returns the change of these cells by a command.
fn changed(opening: &Opening, op: &OpRef<'_>, cells: Items<Cell>, adds: bool) -> Option<Act>
    ensures { result ≡ changed opening.now (as_op op.now) cells adds }
{
    let lasts = !opening.is_recoverable(op);
    Some(Act::Change(Change { cells, adds, lasts }))
}

// Returns the change of one cell by a command.
fn changed_one(
    opening: &Opening,
    op: &OpRef<'_>,
    cell: Cell,
    adds: bool,
) -> Result<Option<Act>, NoMemory>
    ensures { IfOk result (λ act. act ≡ changed opening.now (as_op op.now) (cell ∷ []) adds) }
{
    let mut cells = Items::new(opening.allocator());
    cells.push(cell)?;
    Ok(changed(opening, op, cells, adds))
}

// Returns what a command did that was answered NORMAL. `doomed` are the cells that were there for
// it to delete. If it deleted them, they are taken out of `doomed`.
fn done_by(
    opening: &Opening,
    op: &OpRef<'_>,
    number: Option<u64>,
    doomed: &mut Items<Cell>,
) -> Result<Option<Act>, NoMemory>
    ensures { IfOk result (λ act. act ≡ done_by opening.now (as_op op.now) number doomed.old) }
{
    let alloc = opening.allocator();
    match op {
        OpRef::Write(file, key, _) => {
            let cell = Cell::Record(*file, Record::from_slice(alloc, key)?);
            changed_one(opening, op, cell, true)
        }
        OpRef::Rewrite(file, key, _) | OpRef::Delete(file, key) => {
            let cell = Cell::Record(*file, Record::from_slice(alloc, key)?);
            changed_one(opening, op, cell, false)
        }
        OpRef::DeleteGeneric(_, _) | OpRef::TsDelete(_) => {
            let cells = replace(doomed, Items::new(alloc));
            Ok(changed(opening, op, cells, false))
        }
        OpRef::ReadUpdate(file, key) => {
            Ok(Some(Act::LookForUpdate(*file, Record::from_slice(alloc, key)?)))
        }
        OpRef::TsWrite(queue, _) => match number {
            Some(number) => changed_one(opening, op, Cell::Item(*queue, number), true),
            None => Ok(changed(opening, op, Items::new(alloc), true)),
        },
        OpRef::TsRewrite(queue, number, _) => {
            changed_one(opening, op, Cell::Item(*queue, *number), false)
        }
        OpRef::TdWrite(_, _) | OpRef::TdRead(_) | OpRef::TdDelete(_) => Ok(None),
    }
}

/// Returns what the entry at a place of the history did, if there is one. `doomed` are the cells
/// that were there for it to delete. If it deleted them, they are taken out of `doomed`.
///
/// Errors: `NoMemory`.
pub fn act_at(units: &Units, at: usize, doomed: &mut Items<Cell>) -> Result<Option<Act>, NoMemory>
    ensures { IfOk result (λ act. act
        ≡ act_at units.now.state.opening doomed.old (slice_get units.now.state.trace at)) }
{
    match units.trace().get(at) {
        Some(entry) if entry.condition() == Condition::Normal => {
            done_by(units.opening(), &entry.op(), entry.number(), doomed)
        }
        _ => Ok(None),
    }
}
