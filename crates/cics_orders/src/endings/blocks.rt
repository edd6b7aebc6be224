//! The blocks of files and queues, each as the listing of a run has it.

ghost use Rattle.std.specs.Prelude.{◌≡◌, ◌++◌, OnOk, map};
ghost use Rattle.cics_run.specs.Listing.Listings.{kept_text, transient_text};
ghost use Rattle.cics_orders.specs.Endings.Telling.{blocks};

use cics_dispatch::Region;
use cics_names::{Items, Name4, Name8, NoMemory, Record};
use cics_run::listing::{push_block, push_transient_block};
use cics_transdata::Recovery;
use std::alloc::Global;

// Adds the blocks of files or of temporary storage queues. `words` are what they are called, and
// what is counted of each.
fn add_kept(
    alloc: Global,
    parts: &mut Items<Record>,
    words: (&str, &str),
    rows: &[(Name8, bool, Items<Record>)],
) -> Result<(), NoMemory>
    ensures { OnOk result (parts.new
        ≡ parts.old ++ map (kept_text words.entry.0.now words.entry.1.now) rows.now) }
{
    for row in rows {
        let mut text = Vec::new(alloc);
        push_block(&mut text, words.0, words.1, row)?;
        parts.push(Record::new(text))?;
    }
    Ok(())
}

fn add_transient(
    alloc: Global,
    parts: &mut Items<Record>,
    queues: &[(Name4, Recovery, Items<Record>)],
) -> Result<(), NoMemory>
    ensures { OnOk result (parts.new ≡ parts.old ++ map transient_text queues.now) }
{
    for queue in queues {
        let mut text = Vec::new(alloc);
        push_transient_block(&mut text, queue)?;
        parts.push(Record::new(text))?;
    }
    Ok(())
}

/// Adds the block of each file and queue.
pub(crate) fn add_blocks(
    alloc: Global,
    parts: &mut Items<Record>,
    region: &Region,
) -> Result<(), NoMemory>
    ensures { OnOk result (parts.new ≡ parts.old ++ blocks region.now.machine) }
{
    let listing = region.listing()?;
    add_kept(alloc, parts, ("FILE", "RECORDS"), listing.files.as_slice())?;
    add_kept(alloc, parts, ("TSQUEUE", "ITEMS"), listing.ts.as_slice())?;
    add_transient(alloc, parts, listing.td.as_slice())
}
