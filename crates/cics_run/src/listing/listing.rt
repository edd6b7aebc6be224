//! The listings.

ghost use Rattle.std.specs.Prelude.{◌≡◌, ◌++◌, OnOk, length, codes};
ghost use Rattle.std.specs.List.{flat_map};
ghost use Rattle.cics_script.specs.Texts.{name_text};
ghost use Rattle.cics_run.specs.Listing.Listings.{recoverable_title, recovery_title, record_line};
ghost use Rattle.cics_run.specs.Listing.Listings.{kept_text, transient_text, state_title};
ghost use Rattle.cics_run.specs.Listing.Listings.{task_text, listing_text, replay_text, count_text};
ghost use Rattle.cics_run.specs.Listing.Listings.{parts_text};

use cics_names::{Items, Name4, Name8, NoMemory, Record};
use cics_script::spelling::{push_bare, push_name, push_number, push_str, push_text};
use cics_transdata::Recovery;
use cics_units::{Listing, TaskState};

/// Appends the listing at the end of a run.
pub fn push_listing(out: &mut Vec<u8>, listing: &Listing) -> Result<(), NoMemory>
    ensures { OnOk result (out.new.items ≡ out.old.items ++ listing_text listing.now) }
{
    push_str(out, "LISTING\n")?;
    push_parts(out, listing)
}

/// Appends the listing of a replay.
pub fn push_replay(out: &mut Vec<u8>, listing: &Listing) -> Result<(), NoMemory>
    ensures { OnOk result (out.new.items ≡ out.old.items ++ replay_text listing.now) }
{
    push_str(out, "REPLAY\n")?;
    push_parts(out, listing)
}

// Appends the files, temporary storage, transient data and tasks.
fn push_parts(out: &mut Vec<u8>, listing: &Listing) -> Result<(), NoMemory>
    ensures { OnOk result (out.new.items ≡ out.old.items ++ parts_text listing.now) }
{
    push_kept(out, "FILE", "RECORDS", listing.files.as_slice())?;
    push_kept(out, "TSQUEUE", "ITEMS", listing.ts.as_slice())?;
    push_transient(out, listing.td.as_slice())?;
    push_tasks(out, listing.tasks.as_slice())
}

// Appends the blocks of files or temporary storage queues: what they are called, what is counted of
// each, and their rows.
fn push_kept(
    out: &mut Vec<u8>,
    kind: &str,
    counted: &str,
    rows: &[(Name8, bool, Items<Record>)],
) -> Result<(), NoMemory>
    ensures { OnOk result (out.new.items
        ≡ out.old.items ++ flat_map (kept_text kind.now counted.now) rows.now) }
{
    for row in rows {
        push_block(out, kind, counted, row)?;
    }
    Ok(())
}

/// Appends the block of a file or temporary storage queue: what it is called, what is counted of
/// it, and its row of a listing.
///
/// Errors: `NoMemory`.
pub fn push_block(
    out: &mut Vec<u8>,
    kind: &str,
    counted: &str,
    row: &(Name8, bool, Items<Record>),
) -> Result<(), NoMemory>
    ensures { OnOk result (out.new.items
        ≡ out.old.items ++ kept_text kind.now counted.now row.now) }
{
    let (name, recoverable, records) = row;
    push_title(out, kind, &name.bytes(), recoverable_title(*recoverable))?;
    push_counted(out, counted, records.as_slice())
}

fn push_transient(
    out: &mut Vec<u8>,
    queues: &[(Name4, Recovery, Items<Record>)],
) -> Result<(), NoMemory>
    ensures { OnOk result (out.new.items ≡ out.old.items ++ flat_map transient_text queues.now) }
{
    for queue in queues {
        push_transient_block(out, queue)?;
    }
    Ok(())
}

/// Appends the block of a transient data queue.
///
/// Errors: `NoMemory`.
pub fn push_transient_block(
    out: &mut Vec<u8>,
    queue: &(Name4, Recovery, Items<Record>),
) -> Result<(), NoMemory>
    ensures { OnOk result (out.new.items ≡ out.old.items ++ transient_text queue.now) }
{
    let (name, recovery, records) = queue;
    push_title(out, "TDQUEUE", &name.bytes(), recovery_title(*recovery))?;
    push_counted(out, "RECORDS", records.as_slice())
}

fn push_tasks(out: &mut Vec<u8>, tasks: &[(Name8, TaskState)]) -> Result<(), NoMemory>
    ensures { OnOk result (out.new.items ≡ out.old.items ++ flat_map task_text tasks.now) }
{
    for (label, state) in tasks {
        push_str(out, "TASK ")?;
        push_bare(out, &label.bytes())?;
        push_str(out, " ")?;
        push_str(out, state_title(*state))?;
        push_str(out, "\n")?;
    }
    Ok(())
}

// Appends what a block is of.
fn push_title(out: &mut Vec<u8>, kind: &str, name: &[u8], recovery: &str) -> Result<(), NoMemory>
    ensures { OnOk result (out.new.items ≡ out.old.items
        ++ (kind.now ++ (codes " " ++ (name_text name.now ++ (codes " " ++ recovery.now))))) }
{
    push_str(out, kind)?;
    push_str(out, " ")?;
    push_name(out, name)?;
    push_str(out, " ")?;
    push_str(out, recovery)
}

// Appends how many records there are, and the records.
fn push_counted(out: &mut Vec<u8>, counted: &str, records: &[Record]) -> Result<(), NoMemory>
    ensures { OnOk result (out.new.items ≡ out.old.items
        ++ (count_text counted.now (length records.now)
        ++ (codes "\n" ++ flat_map record_line records.now))) }
{
    push_str(out, " ")?;
    push_str(out, counted)?;
    push_str(out, " ")?;
    push_number(out, records.len() as u64)?;
    push_str(out, "\n")?;
    push_records(out, records)
}

fn push_records(out: &mut Vec<u8>, records: &[Record]) -> Result<(), NoMemory>
    ensures { OnOk result (out.new.items ≡ out.old.items ++ flat_map record_line records.now) }
{
    for record in records {
        push_str(out, "  ")?;
        push_text(out, record.bytes())?;
        push_str(out, "\n")?;
    }
    Ok(())
}

/// Returns RECOVERABLE or UNRECOVERABLE.
pub fn recoverable_title(recoverable: bool) -> &'static str
    ensures { result.now ≡ recoverable_title recoverable }
{
    if recoverable {
        "RECOVERABLE"
    } else {
        "UNRECOVERABLE"
    }
}

/// Returns LOGICAL, PHYSICAL or NONE.
pub fn recovery_title(recovery: Recovery) -> &'static str
    ensures { result.now ≡ recovery_title recovery }
{
    match recovery {
        Recovery::Logical => "LOGICAL",
        Recovery::Physical => "PHYSICAL",
        Recovery::Unrecovered => "NONE",
    }
}

fn state_title(state: TaskState) -> &'static str
    ensures { result.now ≡ state_title state }
{
    match state {
        TaskState::Idle => "IDLE",
        TaskState::HasUnit => "OPEN",
        TaskState::IsWaiting => "WAITING",
    }
}
