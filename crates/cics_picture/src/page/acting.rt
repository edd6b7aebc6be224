//! What is known of a command that was answered, or of a task that ended.

use crate::page::notes::{Held, Wanted};
use crate::page::owners::{end_of, keys_of, value_of};
use cics_dispatch::Outcome;
use cics_history::{Entry, UnitState};
use cics_names::{Command, Condition, NoMemory, Verb};
use cics_units::{Opening, Units};
use std::alloc::Global;

/// What is known of a command that was answered, or of a task that ended.
#[derive(Drop)]
pub struct Acted<'a> {
    command: Option<Command>,
    /// Whether it was answered NORMAL.
    pub is_normal: bool,
    /// The entries that the event added to the history.
    pub entries: &'a [Entry],
    pub units: &'a Units,
}

// Returns whether a command was answered NORMAL.
fn is_normal(outcome: &Outcome) -> bool {
    match outcome {
        Outcome::Replied(reply) => reply.condition == Condition::Normal,
        _ => false,
    }
}

impl<'a> Acted<'a> {
    /// Returns what is known of a command. The history had `followed` entries before its event.
    pub fn new(
        units: &'a Units,
        followed: usize,
        command: Option<Command>,
        outcome: &Outcome,
    ) -> Acted<'a> {
        Acted {
            command,
            is_normal: is_normal(outcome),
            entries: units.trace().get(followed..).unwrap_or(&[]),
            units,
        }
    }

    /// Returns what is known of a task that ended without a command.
    pub fn ended(units: &'a Units, followed: usize) -> Acted<'a> {
        Acted {
            command: None,
            is_normal: false,
            entries: units.trace().get(followed..).unwrap_or(&[]),
            units,
        }
    }

    /// Returns what the command asks for.
    pub fn verb(&self) -> Option<&Verb> {
        match &self.command {
            Some(command) => Some(&command.verb),
            None => None,
        }
    }

    /// Returns the unit of the last entry that the event added.
    pub fn last_unit(&self) -> Option<u64> {
        match self.entries.last() {
            Some(entry) => Some(entry.unit().number()),
            None => None,
        }
    }

    /// Returns whether a unit was backed out.
    pub fn is_backed_out(&self, unit: u64) -> bool {
        match self.units.outcomes().get(unit as usize) {
            Some(state) => *state == UnitState::BackedOut,
            None => false,
        }
    }
}

/// Returns what a waiting command wants.
pub fn wanted_by(
    alloc: Global,
    opening: &Opening,
    verb: &Verb,
) -> Result<Option<Wanted>, NoMemory> {
    let held = match verb {
        Verb::Read { file, ridfld, .. }
        | Verb::Write { file, ridfld, .. }
        | Verb::Delete {
            file,
            ridfld: Some(ridfld),
            ..
        } => keys_of(alloc, opening, *file, ridfld.bytes())?,
        Verb::WriteqTs { queue, .. } | Verb::DeleteqTs { queue } => Held::Queue(*queue),
        Verb::WriteqTd { queue, .. } => end_of(*queue, true),
        Verb::ReadqTd { queue, .. } => end_of(*queue, false),
        Verb::DeleteqTd { queue } => return Ok(Some(Wanted::BothEnds(*queue))),
        Verb::Enq {
            resource,
            length,
            ..
        } => value_of(resource, *length)?,
        _ => return Ok(None),
    };
    Ok(Some(Wanted::One(held)))
}
