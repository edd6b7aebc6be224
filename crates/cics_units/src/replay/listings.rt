//! Listings: what stands in files and queues, and what the tasks of a region do.

ghost use Rattle.std.specs.Prelude.{◌≡◌, IfOk, map};
ghost use Rattle.cics_tempstor.specs.Queues.{queues_of};
ghost use Rattle.cics_transdata.specs.Trans.{queue_of};
ghost use Rattle.cics_units.specs.Replay.Listings.{listed_files, listed_ts, listed_td, listing_of};
ghost use Rattle.cics_units.specs.Opening.StoreMatching.{shown_store};

use crate::opening::{Files, Opening, Queues};
use cics_images::Stores;
use cics_names::{Items, Name4, Name8, NoMemory, Record};
use cics_tempstor::TempStore;
use cics_transdata::Recovery;
use std::alloc::Global;

/// What a task that hasn't ended does: it has no unit of work, it has one that is open, or a
/// command of it waits.
#[derive(Clone, Copy, PartialEq, Eq)]
pub enum TaskState {
    Idle,
    HasUnit,
    IsWaiting,
}

/// What a listing shows, changes of open units included.
///
/// - `files`: each defined file in the order of the names, whether it is recoverable, and its
///   records in the order of their keys.
/// - `ts`: each temporary storage queue that is there in the order of the names, whether it is
///   recoverable, and its items, first to last.
/// - `td`: each defined transient data queue in the order of the names, its recovery, and its
///   records, first to last.
/// - `tasks`: the label and state of each task that hasn't ended, in the order in which they were
///   attached.
#[derive(Drop)]
pub struct Listing {
    pub files: Items<(Name8, bool, Items<Record>)>,
    pub ts: Items<(Name8, bool, Items<Record>)>,
    pub td: Items<(Name4, Recovery, Items<Record>)>,
    pub tasks: Items<(Name8, TaskState)>,
}

/// Returns each file in the order of the names, with copies of its records.
fn listed_files(
    alloc: Global,
    opening: &Opening,
    files: &Files,
) -> Result<Items<(Name8, bool, Items<Record>)>, NoMemory>
    ensures { IfOk result (λ listed. listed
        ≡ listed_files opening.now (map (λ e. (e.0, e.1.records)) files.now)) }
{
    let mut listed = Items::new(alloc);
    for (name, file) in files.iter() {
        listed.push((*name, opening.is_recoverable_file(name), file.listing()?))?;
    }
    Ok(listed)
}

/// Returns each temporary storage queue that is there in the order of the names, with copies of its
/// items.
fn listed_ts(
    alloc: Global,
    opening: &Opening,
    temp_storage: &TempStore,
) -> Result<Items<(Name8, bool, Items<Record>)>, NoMemory>
    ensures { IfOk result (λ listed. listed ≡ listed_ts opening.now (queues_of temp_storage.now)) }
{
    let mut listed = Items::new(alloc);
    let queues = temp_storage.listing()?.into_vec();
    for (name, items) in queues {
        listed.push((name, opening.is_recoverable_ts(&name), items))?;
    }
    Ok(listed)
}

/// Returns each transient data queue in the order of the names, with copies of its records.
fn listed_td(
    alloc: Global,
    opening: &Opening,
    trans_data: &Queues,
) -> Result<Items<(Name4, Recovery, Items<Record>)>, NoMemory>
    ensures { IfOk result (λ listed. listed
        ≡ listed_td opening.now (map (λ e. (e.0, queue_of e.1)) trans_data.now)) }
{
    let mut listed = Items::new(alloc);
    for (name, queue) in trans_data.iter() {
        listed.push((*name, opening.td_recovery(name), queue.listing()?))?;
    }
    Ok(listed)
}

impl Listing {
    /// Returns what stands in a region's files and queues, the changes of open units included, and
    /// no task. `opening` says what of it is recoverable. `alloc` gives the memory for copies of
    /// all records.
    ///
    /// Errors: `NoMemory`. Cost: O(bytes copied + q * (log q + prefixes)), for q queues of items.
    pub fn of_store(
        alloc: Global,
        opening: &Opening,
        store: &Stores<Files, TempStore, Queues>,
    ) -> Result<Listing, NoMemory>
        ensures { IfOk result (λ listing. listing
            ≡ listing_of opening.now (shown_store store.now)) }
    {
        Ok(Listing {
            files: listed_files(alloc, opening, &store.files)?,
            ts: listed_ts(alloc, opening, &store.temp_storage)?,
            td: listed_td(alloc, opening, &store.trans_data)?,
            tasks: Items::new(alloc),
        })
    }
}
