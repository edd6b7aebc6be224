//! The serial run, as a script that can be run.

ghost use Rattle.std.specs.Prelude.{◌≡◌, ◌++◌, ◌∷◌, [], OnOk};
ghost use Rattle.std.specs.List.{flat_map};
ghost use Rattle.cics_run.specs.Listing.Serial.{load_line, file_line, file_lines, prefix_line};
ghost use Rattle.cics_run.specs.Listing.Serial.{queue_line};
ghost use Rattle.cics_run.specs.Listing.Serial.{queue_lines, opening_lines, unit_lines};
ghost use Rattle.cics_run.specs.Listing.Serial.{committed_lines, open_from, open_units, serial_text};
ghost use Rattle.cics_run.specs.Listing.UnitLines.{lines_at};

use crate::listing::listing::{recoverable_title, recovery_title};
use crate::listing::unit_lines::{gathered, push_command};
use cics_history::UnitId;
use cics_ksds::FileDef;
use cics_names::{Items, Name4, Name8, NoMemory, Record, Verb};
use cics_script::spelling::Part::{Bytes, Name, Number, Str, Text};
use cics_script::spelling::{push_parts, push_str};
use cics_transdata::Recovery;
use cics_units::{Opening, UnitState, Units};

/// Appends the serial run of units of work, behind its heading: a script that defines and loads
/// what was opened. It has a task for each committed unit, in commit order. The task does what the
/// unit did to recoverable files and queues, and commits. Behind them come the open units, in the
/// order of their numbers, which don't commit.
///
/// It takes memory for the lines of each unit, for the text and for copies of its records. On
/// `NoMemory`, the only error, `out` holds the first part of the text behind what it held.
pub fn push_serial(out: &mut Vec<u8>, units: &Units) -> Result<(), NoMemory>
    ensures { OnOk result (out.new.items ≡ out.old.items ++ serial_text units.now.state) }
{
    push_str(out, "SERIAL\n")?;
    push_opening(out, units.opening())?;
    let rows = gathered(*out.allocator(), units.opening(), units.trace())?;
    push_committed(out, &rows, units.commits())?;
    push_open(out, &rows, units.outcomes())
}

// Appends what was defined and loaded.
fn push_opening(out: &mut Vec<u8>, opening: &Opening) -> Result<(), NoMemory>
    ensures { OnOk result (out.new.items ≡ out.old.items ++ opening_lines opening.now) }
{
    push_files(out, opening.defined_files()?.as_slice())?;
    push_prefixes(out, opening.prefixes())?;
    push_queues(out, opening.defined_queues()?.as_slice())
}

fn push_files(out: &mut Vec<u8>, files: &[(Name8, FileDef, Items<Record>)]) -> Result<(), NoMemory>
    ensures { OnOk result (out.new.items ≡ out.old.items ++ flat_map file_lines files.now) }
{
    for file in files {
        let name = file.0.bytes();
        push_file_line(out, &name, file.1)?;
        push_loads(out, "FILE", &name, file.2.as_slice())?;
    }
    Ok(())
}

fn push_prefixes(out: &mut Vec<u8>, prefixes: &[Name8]) -> Result<(), NoMemory>
    ensures { OnOk result (out.new.items ≡ out.old.items ++ flat_map prefix_line prefixes.now) }
{
    for prefix in prefixes {
        push_parts(
            out,
            &[Str("DEFINE TSPREFIX("), Name(&prefix.bytes()), Str(")\n")],
        )?;
    }
    Ok(())
}

fn push_queues(
    out: &mut Vec<u8>,
    queues: &[(Name4, Recovery, Items<Record>)],
) -> Result<(), NoMemory>
    ensures { OnOk result (out.new.items ≡ out.old.items ++ flat_map queue_lines queues.now) }
{
    for queue in queues {
        let name = queue.0.bytes();
        push_queue_line(out, &name, queue.1)?;
        push_loads(out, "TDQUEUE", &name, queue.2.as_slice())?;
    }
    Ok(())
}

fn push_file_line(out: &mut Vec<u8>, name: &[u8], definition: FileDef) -> Result<(), NoMemory>
    ensures { OnOk result (out.new.items ≡ out.old.items ++ file_line name.now definition) }
{
    push_parts(
        out,
        &[
            Str("DEFINE FILE("),
            Name(name),
            Str(") KEYLENGTH("),
            Number(definition.key_length),
            Str(") KEYOFFSET("),
            Number(definition.key_offset),
            Str(") RECORDSIZE("),
            Number(definition.record_size),
            Str(") "),
            Str(recoverable_title(definition.recoverable)),
            Str("\n"),
        ],
    )
}

fn push_queue_line(out: &mut Vec<u8>, name: &[u8], recovery: Recovery) -> Result<(), NoMemory>
    ensures { OnOk result (out.new.items ≡ out.old.items ++ queue_line name.now recovery) }
{
    push_parts(
        out,
        &[
            Str("DEFINE TDQUEUE("),
            Name(name),
            Str(") "),
            Str(recovery_title(recovery)),
            Str("\n"),
        ],
    )
}

// Appends the records that were loaded into a file or queue.
fn push_loads<'a>(
    out: &mut Vec<u8>,
    kind: &'a str,
    name: &'a [u8],
    records: &'a [Record],
) -> Result<(), NoMemory>
    ensures { OnOk result (out.new.items
        ≡ out.old.items ++ flat_map (load_line kind.now name.now) records.now) }
{
    for loaded in records {
        push_parts(
            out,
            &[
                Str("LOAD "),
                Str(kind),
                Str("("),
                Name(name),
                Str(") FROM("),
                Text(loaded.bytes()),
                Str(")\n"),
            ],
        )?;
    }
    Ok(())
}

// Appends the committed units, in this order.
fn push_committed(out: &mut Vec<u8>, rows: &[Vec<u8>], commits: &[UnitId]) -> Result<(), NoMemory>
    ensures { OnOk result (out.new.items ≡ out.old.items
        ++ flat_map (committed_lines (lines_at rows.now)) commits.now) }
{
    for unit in commits {
        push_unit(out, rows, *unit)?;
        push_command(out, *unit, Verb::Syncpoint)?;
    }
    Ok(())
}

// Appends the open units.
fn push_open(out: &mut Vec<u8>, rows: &[Vec<u8>], outcomes: &[UnitState]) -> Result<(), NoMemory>
    ensures { OnOk result (out.new.items ≡ out.old.items
        ++ flat_map (unit_lines (lines_at rows.now)) (open_units outcomes.now)) }
{
    for (number, outcome) in outcomes.iter().enumerate() {
        push_if_open(out, rows, UnitId::new(number as u64), *outcome)?;
    }
    Ok(())
}

// Appends a unit with this outcome, if it is open.
fn push_if_open(
    out: &mut Vec<u8>,
    rows: &[Vec<u8>],
    unit: UnitId,
    outcome: UnitState,
) -> Result<(), NoMemory>
    ensures { OnOk result (out.new.items ≡ out.old.items
        ++ flat_map (unit_lines (lines_at rows.now)) (open_from unit (outcome ∷ []))) }
{
    match outcome {
        UnitState::Open => push_unit(out, rows, unit),
        UnitState::Committed | UnitState::BackedOut => Ok(()),
    }
}

// Appends a unit: its task is attached, and does what the unit did.
fn push_unit(out: &mut Vec<u8>, rows: &[Vec<u8>], unit: UnitId) -> Result<(), NoMemory>
    ensures { OnOk result (out.new.items
        ≡ out.old.items ++ unit_lines (lines_at rows.now) unit) }
{
    push_parts(
        out,
        &[
            Str("ATTACH U"),
            Number(unit.number()),
            Str(" TRANSID('UNIT')\n"),
            Bytes(lines_of(rows, unit)),
        ],
    )
}

// Returns the lines of a unit.
fn lines_of(rows: &[Vec<u8>], unit: UnitId) -> &[u8]
    ensures { result.now ≡ lines_at rows.now unit }
{
    match rows.get(unit.number() as usize) {
        Some(row) => row,
        None => &[],
    }
}
