//! Notes of what changed.

ghost use Rattle.std.specs.Prelude.{◌≡◌, ◌++◌, ◌∷◌, ◌≤◌, [], None, Some, option_map, IfOk, OnOk, length};
ghost use Rattle.std.specs.List.{filter_map};
ghost use Rattle.std.specs.List.Sorted.{IsStrictlySortedBy};
ghost use Rattle.std.specs.Map.{keys_of};
ghost use Rattle.std.specs.Option.{option_copied};
ghost use Rattle.cics_picture.specs.contracts.page.notes.CellOrd.TheImpl as order;
ghost use Rattle.cics_picture.specs.contracts.page.notes.HeldOrd.TheImpl as resources;
ghost use Rattle.cics_picture.specs.Page.Tracked.{shown};
ghost use Rattle.cics_picture.specs.Page.Views.{change_of, told_if, text_behind, text_change};
ghost use Rattle.cics_picture.specs.Page.Views.{text_told, texts_told, owner_told, owners_told};
ghost use Rattle.cics_picture.specs.Page.Views.{is_same_owner, owner_change};

use crate::page::notes::{Cell, Change, Held, Note};
use crate::page::owners::Owner;
use crate::page::tracked::Tracked;
use cics_names::{Name8, NoMemory, Record};
use cics_units::{Opening, Units};

// Returns how a text changed, if it did.
fn change_of(before: Option<Record>, after: Option<&Record>) -> Result<Option<Change>, NoMemory>
    ensures { IfOk result (λ change. change ≡ change_of before (option_copied after.entry)) }
{
    Ok(match (before, after) {
        (None, None) => None,
        (None, Some(after)) => Some(Change::Added(after.copy()?)),
        (Some(before), None) => Some(Change::Removed(before)),
        (Some(before), Some(after)) => {
            if before.bytes() == after.bytes() {
                None
            } else {
                Some(Change::Becomes(before, after.copy()?))
            }
        }
    })
}

/// Adds a note that tells of no text.
pub fn push_other(notes: &mut Vec<Note>, note: Note) -> Result<(), NoMemory>
    requires { text_told note ≡ None }
    ensures { OnOk result (texts_told notes.new.items ≡ texts_told notes.old.items) }
{
    notes.push(note)?;
    Ok(())
}

// Returns whether no backout undoes a change of a cell.
fn stays(opening: &Opening, cell: &Cell) -> bool {
    match cell {
        Cell::Record(file, _) => !opening.is_recoverable_file(file),
        Cell::Item(queue, _) => !opening.is_recoverable_ts(queue),
        Cell::TdRecord(queue, _) => !opening.td_recovery(queue).is_logical(),
    }
}

// Returns whether a note comes after that of the cursor of a queue.
fn is_behind(note: &Note, queue: &Name8) -> bool {
    match note {
        Note::Set { cell, .. } => match cell {
            Cell::Record(_, _) => false,
            Cell::Item(other, _) => queue < other,
            Cell::TdRecord(_, _) => true,
        },
        Note::Cursor { queue: other, .. } => queue < other,
        _ => false,
    }
}

// Returns the place of the note of a cursor, after those on the items of its queue.
fn place_of(notes: &[Note], queue: &Name8) -> usize
    ensures { result ≤ length notes.now }
{
    notes
        .iter()
        .take_while(|note| !is_behind(note, queue))
        .count()
}

// Adds a note that tells of no text at a place.
fn insert_other(notes: &mut Vec<Note>, place: usize, note: Note) -> Result<(), NoMemory>
    requires within { place ≤ length notes.old.items }
    requires silent { text_told note ≡ None }
    ensures { OnOk result (texts_told notes.new.items ≡ texts_told notes.old.items) }
{
    notes.insert(place, note)?;
    Ok(())
}

// Notes a cursor, if it changed.
fn insert_cursor(
    notes: &mut Vec<Note>,
    queue: Name8,
    before: u64,
    after: u64,
) -> Result<(), NoMemory>
    ensures { OnOk result (texts_told notes.new.items ≡ texts_told notes.old.items) }
{
    if before == after {
        return Ok(());
    }
    let place = place_of(notes.as_slice(), &queue);
    let note = Note::Cursor {
        queue,
        before,
        after,
    };
    insert_other(notes, place, note)
}

/// Notes the cursors that changed.
pub fn insert_cursor_notes(
    cursors: &mut Tracked<Name8, u64>,
    notes: &mut Vec<Note>,
) -> Result<(), NoMemory>
    ensures { OnOk result (texts_told notes.new.items ≡ texts_told notes.old.items) }
{
    for (queue, before) in cursors.settle() {
        let after = cursors.get(&queue).copied().unwrap_or(0);
        insert_cursor(notes, queue, before.unwrap_or(0), after)?;
    }
    Ok(())
}

/// Looks up the cursors of the queues whose items were set.
pub fn look_at_cursors(
    texts: &Tracked<Cell, Record>,
    cursors: &mut Tracked<Name8, u64>,
    units: &Units,
) -> Result<(), NoMemory>
    ensures ordered { OnOk result (IsStrictlySortedBy order.ghosts.cmp (keys_of texts.now.olds)) }
{
    for cell in texts.touched() {
        if let Cell::Item(queue, _) = cell {
            let after = u64::from(units.next_place(queue));
            cursors.set(*queue, *queue, (after > 0).then_some(after))?;
        }
    }
    Ok(())
}

// Notes a change of a cell.
fn push_change(
    notes: &mut Vec<Note>,
    cell: Cell,
    change: Change,
    stays: bool,
) -> Result<(), NoMemory>
    ensures { OnOk result (texts_told notes.new.items
        ≡ texts_told notes.old.items ++ (cell, text_behind change) ∷ []) }
{
    notes.push(Note::Set {
        cell,
        change,
        stays,
    })?;
    Ok(())
}

// Notes a cell, if its text changed.
fn push_text_note(
    notes: &mut Vec<Note>,
    cell: Cell,
    change: Option<Change>,
    stays: bool,
) -> Result<(), NoMemory>
    ensures { OnOk result (texts_told notes.new.items
        ≡ texts_told notes.old.items ++ told_if cell change) }
{
    match change {
        Some(change) => push_change(notes, cell, change, stays),
        None => Ok(()),
    }
}

// Notes a cell whose text was `before`, if that changed.
fn push_text(
    notes: &mut Vec<Note>,
    texts: &Tracked<Cell, Record>,
    cell: Cell,
    before: Option<Record>,
    stays: bool,
) -> Result<(), NoMemory>
    ensures { OnOk result (texts_told notes.new.items ≡ texts_told notes.old.items
        ++ filter_map (text_change (shown order.ghosts.cmp texts.now)) ((cell, before) ∷ [])) }
{
    let change = change_of(before, texts.get(&cell))?;
    push_text_note(notes, cell, change, stays)?;
    Ok(())
}

/// Notes the texts that changed.
#[tactic(auto, using(crate::proofs::OfViews::Acted::told_more))]
pub fn push_text_notes(
    texts: &mut Tracked<Cell, Record>,
    opening: &Opening,
    notes: &mut Vec<Note>,
) -> Result<(), NoMemory>
    ensures told { OnOk result (texts_told notes.new.items ≡ texts_told notes.old.items
        ++ filter_map (text_change (shown order.ghosts.cmp texts.old)) texts.old.olds) }
    ensures entries { OnOk result (texts.new.entries ≡ texts.old.entries) }
{
    for (cell, before) in texts.settle() {
        let stays = stays(opening, &cell);
        push_text(notes, texts, cell, before, stays)?;
    }
    Ok(())
}

// Returns whether something has the owner and the count that it had.
fn is_same_owner(before: Option<Owner>, after: Option<Owner>) -> bool
    ensures { result ≡ is_same_owner before after }
{
    match (before, after) {
        (None, None) => true,
        (Some(before), Some(after)) => before.unit == after.unit && before.count == after.count,
        _ => false,
    }
}

// Returns the note on a resource with this owner, or with none.
fn owner_note(held: Held, owner: Option<Owner>) -> Note
    ensures silent { text_told result ≡ None }
    ensures told { owner_told result ≡ Some (held, option_map (λ o. o.count) owner) }
{
    match owner {
        Some(Owner { unit: _, count }) => Note::Holds { held, count },
        None => Note::Releases(held),
    }
}

// Notes a resource, if its owner or count changed.
fn push_owner_note(
    notes: &mut Vec<Note>,
    held: Held,
    before: Option<Owner>,
    after: Option<Owner>,
) -> Result<(), NoMemory>
    ensures silent { OnOk result (texts_told notes.new.items ≡ texts_told notes.old.items) }
    ensures told { OnOk result (owners_told notes.new.items ≡ owners_told notes.old.items
        ++ filter_map (owner_change (λ _. after)) ((held, before) ∷ [])) }
{
    if is_same_owner(before, after) {
        return Ok(());
    }
    notes.push(owner_note(held, after))?;
    Ok(())
}

/// Notes the resources whose owner or count changed.
#[tactic(auto, using(crate::proofs::OfViews::Acted::told_more))]
pub fn push_owner_notes(
    held: &mut Tracked<Held, Owner>,
    notes: &mut Vec<Note>,
) -> Result<(), NoMemory>
    ensures silent { OnOk result (texts_told notes.new.items ≡ texts_told notes.old.items) }
    ensures told { OnOk result (owners_told notes.new.items ≡ owners_told notes.old.items
        ++ filter_map (owner_change (shown resources.ghosts.cmp held.old)) held.old.olds) }
{
    for (resource, before) in held.settle() {
        let after = held.get(&resource).copied();
        push_owner_note(notes, resource, before, after)?;
    }
    Ok(())
}
