//! A region without a script: the calls that docs/CALLING.md shows.

use cics_dispatch::{Command, Outcome, Region, Verb};
use cics_ksds::FileDef;
use cics_names::{Condition, Name4, Name8, Record};
use cics_units::Opening;
use std::alloc::Global;

// A recoverable file with one record, whose key is its first four bytes.
fn opening(alloc: Global) -> Option<Opening> {
    let accounts = Name8::new(b"ACCT").ok()?;
    let mut opening = Opening::new(alloc);
    let definition = FileDef {
        key_length: 4,
        key_offset: 0,
        record_size: 80,
        recoverable: true,
    };
    opening.define_file(accounts, definition).ok()?;
    let content = Record::from_slice(alloc, b"0001 100").ok()?;
    opening.load_file(accounts, content).ok()?;
    Some(opening)
}

// DELETE FILE('ACCT') RIDFLD('0001') RESP(..).
fn delete(alloc: Global) -> Option<Command> {
    Some(Command {
        verb: Verb::Delete {
            file: Name8::new(b"ACCT").ok()?,
            ridfld: Some(Record::from_slice(alloc, b"0001").ok()?),
            key_length: None,
            generic: false,
        },
        resp: true,
    })
}

// Issues a command of a task, and drops its outcome.
fn issue(region: &mut Region, label: Name8, command: Command) -> Option<()> {
    region.issue(label, command).ok()?;
    Some(())
}

// T1 deletes the record, T2 waits for T1, and T1 rolls back. Returns T2's condition.
fn play(alloc: Global, region: &mut Region) -> Option<Condition> {
    let first = Name8::new(b"T1").ok()?;
    let second = Name8::new(b"T2").ok()?;
    let transaction = Name4::new(b"PURG").ok()?;
    region.attach(first, transaction, 0).ok()?;
    region.attach(second, transaction, 0).ok()?;
    issue(region, first, delete(alloc)?)?;
    issue(region, second, delete(alloc)?)?;
    let rollback = Command {
        verb: Verb::Rollback,
        resp: false,
    };
    issue(region, first, rollback)?;
    match &region.wake().ok()??.outcome {
        Outcome::Replied(reply) => Some(reply.condition),
        _ => None,
    }
}

/// Begins a region, and makes the calls.
pub(crate) fn run(alloc: Global) -> Option<Condition> {
    match Region::new(opening(alloc)?) {
        Ok(mut region) => play(alloc, &mut region),
        Err(_opening) => None,
    }
}
