//! Names that are almost another one.

ghost use Rattle.std.specs.Prelude.{◌≡◌, length};
ghost use Rattle.cics_units.specs.Opening.RegionFiles.{opened_files};
ghost use Rattle.cics_units.specs.Opening.RegionQueues.{opened_queues};
ghost use Rattle.cics_run.specs.Messages.Nearest.{capital, capital_at, differences};
ghost use Rattle.cics_run.specs.Messages.Nearest.{is_near, near_at};
ghost use Rattle.cics_run.specs.Messages.Nearest.{or_next, first_near, first_near_label};
ghost use Rattle.cics_run.specs.Messages.Nearest.{nearest_label};
ghost use Rattle.cics_run.specs.Messages.Instead.{nearest_file, nearest_queue, same_queue};

use cics_dispatch::Region;
use cics_names::{Name4, Name8};
use cics_units::Opening;

const BLANK: u8 = 0x40;

// Returns the code of a letter as that of its capital.
fn capital(code: u8) -> u8
    ensures { result ≡ capital code }
{
    if 128 < code && code < 192 {
        code + 64
    } else {
        code
    }
}

// Returns the code at a place of a name, in capitals and filled up with blanks.
fn capital_at(name: &[u8], at: usize) -> u8
    ensures { result ≡ capital_at name.now at }
{
    if at < name.len() {
        capital(name[at])
    } else {
        BLANK
    }
}

// Returns in how many of eight places two names differ, capitals or not.
fn differences(one: &[u8], other: &[u8]) -> usize
    ensures { result ≡ differences one.now other.now }
{
    let mut count = 0;
    for at in 0..8 {
        if capital_at(one, at) != capital_at(other, at) {
            count += 1;
        }
    }
    count
}

// Returns whether two names differ in fewer places than these.
fn is_near(places: usize, one: &[u8], other: &[u8]) -> bool
    ensures { result ≡ is_near places one.now other.now }
{
    differences(one, other) < places
}

// Returns the label of the task of a number, if it differs from another one in fewer places than
// these.
fn near_at(region: &Region, places: usize, label: &Name8, number: usize) -> Option<Name8>
    ensures { result ≡ near_at region.now.machine places label.now number }
{
    let other = region.label_at(number)?;
    if is_near(places, &label.bytes(), &other.bytes()) {
        Some(other)
    } else {
        None
    }
}

// Returns the first label that a task was attached with and that differs from this one in fewer
// places than these.
fn first_near_label(region: &Region, places: usize, label: &Name8) -> Option<Name8>
    ensures { result ≡ first_near_label region.now.machine places label.now }
{
    let mut found = None;
    for number in 0..region.task_count() {
        if found.is_none() {
            found = near_at(region, places, label, number);
        }
    }
    found
}

/// Returns the first label that a task was attached with and that is this one, capitals or not, or
/// else the first that differs from it in one place. Labels are filled up with blanks, so one may
/// have a character more.
///
/// Cost: O(tasks).
pub fn nearest_label(region: &Region, label: &Name8) -> Option<Name8>
    ensures { result ≡ nearest_label region.now.machine label.now }
{
    match first_near_label(region, 1, label) {
        Some(same) => Some(same),
        None => first_near_label(region, 2, label),
    }
}

// Returns the first defined file whose name differs from this one in fewer places than these.
fn first_near_file(opening: &Opening, places: usize, name: &Name8) -> Option<Name8>
    ensures { result ≡ first_near places name.now (opened_files opening.now.files) }
{
    let mut found = None;
    for (other, _) in opening.files().iter() {
        if found.is_none() && is_near(places, &name.bytes(), &other.bytes()) {
            found = Some(*other);
        }
    }
    found
}

/// Returns the first defined file whose name is this one, capitals or not, or else the first whose
/// name differs in one place.
///
/// Cost: O(files).
#[tactic(auto, unfolding(crate::specs::Messages::Nearest::nearest_key))]
pub fn nearest_file(opening: &Opening, name: &Name8) -> Option<Name8>
    ensures { result ≡ nearest_file opening.now name.now }
{
    match first_near_file(opening, 1, name) {
        Some(same) => Some(same),
        None => first_near_file(opening, 2, name),
    }
}

// Returns the first defined queue of transient data whose name differs from this one in fewer
// places than these.
fn first_near_queue(opening: &Opening, places: usize, name: &[u8]) -> Option<Name4>
    ensures { result ≡ first_near places name.now (opened_queues opening.now.queues) }
{
    let mut found = None;
    for (other, _) in opening.queues().iter() {
        if found.is_none() && is_near(places, name, &other.bytes()) {
            found = Some(*other);
        }
    }
    found
}

/// Returns the first defined queue of transient data whose name is this one, capitals or not.
///
/// Cost: O(queues).
pub fn same_queue(opening: &Opening, name: &[u8]) -> Option<Name4>
    ensures { result ≡ same_queue opening.now name.now }
{
    first_near_queue(opening, 1, name)
}

/// Returns the first defined queue of transient data whose name is this one, capitals or not, or
/// else the first whose name differs in one place.
///
/// Cost: O(queues).
#[tactic(auto, unfolding(crate::specs::Messages::Nearest::nearest_key))]
pub fn nearest_queue(opening: &Opening, name: &[u8]) -> Option<Name4>
    ensures { result ≡ nearest_queue opening.now name.now }
{
    match same_queue(opening, name) {
        Some(same) => Some(same),
        None => first_near_queue(opening, 2, name),
    }
}
