//! Where the lanes of states lead, as far as that is known before they are followed.
//!
//! To go to a state takes each line of its first order. So a walk that is at a state goes on from
//! there along lanes that were not tried yet. What it comes to is noted for later levels.

ghost use Rattle.std.specs.Prelude.{◌≡◌, ◌++◌, ◌∷◌, [], length, cond, List, ℕ};
ghost use Rattle.std.specs.Prelude.{None, Some, IfSome, IfOk, OnOk, slice_get};
ghost use Rattle.std.specs.Option.{unwrap_or};
ghost use Rattle.std.specs.Str.{bytes_eq};
ghost use Rattle.indexmap.specs.IndexMap.{get, UpdatesBy};
ghost use Rattle.cics_orders.specs.Words.{lanes, initial_of, state_stamp, breaks, after};
ghost use Rattle.cics_orders.specs.Space.States.{reached};
ghost use Rattle.cics_orders.specs.Search.Levels.{IsEntry};
ghost use Rattle.cics_orders.specs.Search.Ahead.{all_reached, IsMet, IsKnown};

use crate::space::{Led, Reached, Scope, Stamp, go_to, look};
use crate::walks::Walker;
use cics_names::{Items, NoMemory};
use indexmap::IndexMap;
use std::alloc::Global;

/// By the stamp of a state: what its first lanes lead to, in their order.
pub(crate) type Known = IndexMap<Stamp, Items<Reached>>;

// The most lines that a walk goes on.
const MOST_AHEAD: usize = 6;

// How many states may have a note. If so many have one, walks don't go on. Notes of states that a
// limit leaves out are never taken away, so this bounds the memory.
const MOST_NOTED: usize = 20_000;

// Removes and returns what is known of the states of a stamp.
fn take(alloc: Global, known: &mut Known, stamp: &Stamp) -> Items<Reached>
    ensures found { result ≡ unwrap_or (get bytes_eq known.old stamp.now) [] }
    ensures taken { UpdatesBy bytes_eq (bytes_eq stamp.now) known.old known.new None }
{
    match known.swap_remove(stamp) {
        Some(states) => states,
        None => Items::new(alloc),
    }
}

// Returns the first lane of a state that has no note of where it leads. Returns `None` if all have
// one, or if walks don't go on.
fn next_lane(known: &Known, here: &Reached) -> Option<usize>
    ensures { IfSome result (λ lane. slice_get here.now.lanes (length (unwrap_or
        (get bytes_eq known.now here.now.stamp) [])) ≡ Some lane) }
{
    if known.len() >= MOST_NOTED {
        return None;
    }
    let count = match known.get(&here.stamp) {
        Some(states) => states.len(),
        None => 0,
    };
    here.lanes.as_slice().get(count).copied()
}

// Notes that the next lane of the states of a stamp leads to this one.
fn note(known: &mut Known, stamp: Stamp, there: &Reached) -> Result<(), NoMemory>
    ensures { OnOk result ((q : List ℕ) → get bytes_eq known.new q ≡ cond (bytes_eq stamp q)
        (Some (unwrap_or (get bytes_eq known.old stamp) [] ++ there.now ∷ []))
        (get bytes_eq known.old q)) }
{
    let alloc = *known.allocator();
    let mut states = take(alloc, known, &stamp);
    states.push(there.copy(alloc)?)?;
    known.insert(stamp, states)?;
    Ok(())
}

// Goes on from the state of a walk, at each state along its first lane that isn't known yet. Notes
// what it comes to.
fn go_on(walk: &mut Walker, known: &mut Known, from: &Reached, scope: Scope) -> Result<(), NoMemory>
    requires met { IsMet lanes (initial_of walk.old) walk.old }
    requires from { from.now ≡ reached lanes breaks (state_stamp scope.told) scope.is_serial
        walk.old }
    requires known { IsKnown lanes breaks (state_stamp scope.told) scope.is_serial (initial_of
        walk.old) known.old.entries }
    ensures known { OnOk result (IsKnown lanes breaks (state_stamp scope.told) scope.is_serial
        (initial_of walk.old) known.new.entries) }
    ensures initial { OnOk result (initial_of walk.new ≡ initial_of walk.old) }
{
    let alloc = *known.allocator();
    let mut here = from.copy(alloc)?;
    for _ in 0..MOST_AHEAD {
        let Some(lane) = next_lane(known, &here) else {
            return Ok(());
        };
        walk.give(lane)?;
        let there = look(alloc, walk, scope)?;
        note(known, here.into_stamp(), &there)?;
        here = there;
    }
    Ok(())
}

/// Returns the states that the lanes of an entry lead to. Removes what is known of its state, and
/// notes what the walk comes to behind these states.
///
/// Errors: `NoMemory`.
pub(crate) fn lead_on(
    walk: &mut Walker,
    known: &mut Known,
    entry: &(Stamp, Led),
    scope: Scope,
) -> Result<Items<Reached>, NoMemory>
    requires entry { IsEntry lanes breaks (state_stamp scope.told) scope.is_serial (initial_of
        walk.old) entry.now }
    requires known { IsKnown lanes breaks (state_stamp scope.told) scope.is_serial (initial_of
        walk.old) known.old.entries }
    ensures states { IfOk result (λ states. states ≡ all_reached lanes breaks (state_stamp
        scope.told) scope.is_serial (after lanes (initial_of walk.old) entry.now.1.first)) }
    ensures known { OnOk result (IsKnown lanes breaks (state_stamp scope.told) scope.is_serial
        (initial_of walk.old) known.new.entries) }
    ensures initial { OnOk result (initial_of walk.new ≡ initial_of walk.old) }
{
    let alloc = *known.allocator();
    let lanes = entry.1.lanes.as_slice();
    let mut states = take(alloc, known, &entry.0);
    for i in states.len()..lanes.len() {
        go_to(walk, entry.1.first.as_slice())?;
        walk.give(lanes[i])?;
        let there = look(alloc, walk, scope)?;
        go_on(walk, known, &there, scope)?;
        states.push(there)?;
    }
    Ok(states)
}
