//! An independent check of a region: applies each surviving entry of its history to plain maps, and
//! so finds what its files and queues hold.
//!
//! It has no before image and backs nothing out. Of a unit of work it knows only how it ended.

mod queues;
mod records;
mod store;

ghost use Rattle.std.specs.Prelude.{◌≡◌, [], ◌++◌, if◌then◌else◌, IfOk, OnOk};
ghost use Rattle.cics_history.specs.Headline.{outcome_of, is_backed_out, is_committed, is_kept};
ghost use Rattle.cics_history.specs.Headline.{kept, replay};
ghost use Rattle.cics_history.specs.Isolation.{stays, store_by};
ghost use Rattle.cics_history.specs.Serial.{are_backed_out_but};
ghost use Rattle.cics_history.specs.Stamps.{store_stamp};
ghost use Rattle.cics_units.specs.Replay.Listings.{replayed_listing};
ghost use Rattle.cics_history.specs.Store.{apply};
ghost use Rattle.cics_history.specs.State.{initial_store};

use crate::opening::Opening;
use crate::replay::listings::Listing;
use cics_history::{Entry, UnitId, UnitState};
use cics_names::NoMemory;
use std::alloc::Global;
use store::PlainStore;

/// Returns whether a unit of work was backed out; one that hasn't begun wasn't.
fn was_backed_out(outcomes: &[UnitState], unit: UnitId) -> bool
    ensures { result ≡ is_backed_out (outcome_of outcomes.now unit) }
{
    if let Some(state) = outcomes.get(unit.number() as usize) {
        *state == UnitState::BackedOut
    } else {
        false
    }
}

/// Applies an entry, if it survives.
fn replay_entry(
    store: &mut PlainStore,
    opening: &Opening,
    outcomes: &[UnitState],
    entry: &Entry,
) -> Result<(), NoMemory>
    ensures { OnOk result (store.new ≡ (if is_kept opening.now outcomes.now entry.now
        then (apply store.old entry.now.op).store
        else store.old)) }
{
    let op = entry.op();
    if opening.is_recoverable(&op) && was_backed_out(outcomes, entry.unit()) {
        return Ok(());
    }
    store.apply(&op)
}

/// Returns what the files and queues hold at the end of a history.
fn replayed(
    alloc: Global,
    opening: &Opening,
    trace: &[Entry],
    outcomes: &[UnitState],
) -> Result<PlainStore, NoMemory>
    ensures { IfOk result (λ store. store
        ≡ replay (initial_store opening.now) (kept opening.now trace.now outcomes.now)) }
{
    let mut store = PlainStore::loaded(alloc, opening)?;
    for entry in trace {
        replay_entry(&mut store, opening, outcomes, entry)?;
    }
    Ok(store)
}

/// Returns the listing of a plain replay: the files and queues that were loaded, changed by each
/// surviving entry, in the order of the entries. It has no tasks.
///
/// An entry survives unless it acts on a recoverable file or queue and its unit is backed out.
/// `trace` has the entries in the order in which the commands were executed. Any entries may stand
/// in it, also those that no region would execute. Each has the effect that its command has there,
/// whatever answer is noted beside it. `outcomes` has how each unit ended, that of unit 0 first. A
/// unit that it doesn't reach counts as open.
///
/// Uses no before images and no table of a region: an independent check of the region's listing.
/// `alloc` gives the memory for the copies of all records.
///
/// Errors: `NoMemory`.
///
/// Cost: O(log n) for each record loaded, each entry and each record that DELETE GENERIC deletes,
/// for n records in its file.
pub fn plain_replay(
    alloc: Global,
    opening: &Opening,
    trace: &[Entry],
    outcomes: &[UnitState],
) -> Result<Listing, NoMemory>
    ensures { IfOk result (λ listing. listing
        ≡ replayed_listing opening.now trace.now outcomes.now) }
{
    replayed(alloc, opening, trace, outcomes)?.into_listing(opening)
}

/// Returns whether a unit of work committed.
fn has_committed(outcomes: &[UnitState], unit: UnitId) -> bool
    ensures { result ≡ is_committed (outcome_of outcomes.now unit) }
{
    if let Some(state) = outcomes.get(unit.number() as usize) {
        *state == UnitState::Committed
    } else {
        false
    }
}

/// Applies an entry, unless it acts on something recoverable and its unit didn't commit.
fn replay_committed_entry(
    store: &mut PlainStore,
    opening: &Opening,
    outcomes: &[UnitState],
    entry: &Entry,
) -> Result<(), NoMemory>
    ensures { OnOk result (store.new
        ≡ (if stays opening.now (are_backed_out_but [] (outcome_of outcomes.now)) entry.now
        then (apply store.old entry.now.op).store
        else store.old)) }
{
    let op = entry.op();
    if opening.is_recoverable(&op) && !has_committed(outcomes, entry.unit()) {
        return Ok(());
    }
    store.apply(&op)
}

/// Returns what the files and queues would hold at the end of a history if each open unit was
/// backed out.
fn replayed_committed(
    opening: &Opening,
    trace: &[Entry],
    outcomes: &[UnitState],
) -> Result<PlainStore, NoMemory>
    ensures { IfOk result (λ store. store
        ≡ store_by opening.now (are_backed_out_but [] (outcome_of outcomes.now)) trace.now) }
{
    let mut store = PlainStore::loaded(opening.allocator(), opening)?;
    for entry in trace {
        replay_committed_entry(&mut store, opening, outcomes, entry)?;
    }
    Ok(store)
}

/// Appends the stamp of what the files and queues would hold if each open unit was backed out.
///
/// This is a plain replay of the history. An entry on something recoverable is applied only if its
/// unit committed. `trace` and `outcomes` are those of `plain_replay`.
///
/// Errors: `NoMemory`.
///
/// Cost: that of `plain_replay`.
pub fn stamp_committed(
    opening: &Opening,
    trace: &[Entry],
    outcomes: &[UnitState],
    out: &mut Vec<u8>,
) -> Result<(), NoMemory>
    ensures { OnOk result (out.new.items
        ≡ out.old.items ++ store_stamp (store_by opening.now
        (are_backed_out_but [] (outcome_of outcomes.now)) trace.now)) }
{
    replayed_committed(opening, trace, outcomes)?.stamp(out)
}
