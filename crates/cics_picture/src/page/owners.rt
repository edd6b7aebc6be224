//! What the open units of a region own.

use crate::page::notes::Held;
use crate::page::tracked::Tracked;
use cics_history::{Entry, OpRef, UnitId};
use cics_names::{Condition, Name4, Name8, NoMemory, Record, Verb};
use cics_units::{Opening, Units};
use std::alloc::Global;
use std::collections::BTreeMap;

/// The owner of a resource, and how many times it owns it.
#[derive(Clone, Copy)]
pub struct Owner {
    pub unit: u64,
    pub count: u64,
}

// The update read that a task has open in a file that isn't recoverable.
#[derive(Clone, Copy, PartialEq, Eq, PartialOrd, Ord)]
struct UpdateRead {
    task: Name8,
    file: Name8,
}

/// What each open unit owns.
#[derive(Drop)]
pub struct Owners {
    pub held: Tracked<Held, Owner>,
    // The key of each update read in a file that isn't recoverable.
    reads: BTreeMap<UpdateRead, Record>,
    alloc: Global,
}

/// Returns keys of a file as what a unit owns. Fewer bytes than a key has are a prefix.
pub fn keys_of(
    alloc: Global,
    opening: &Opening,
    file: Name8,
    bytes: &[u8],
) -> Result<Held, NoMemory> {
    let is_prefix = match opening.files().get(&file) {
        Some(defined) => (bytes.len() as u64) < defined.definition().key_length,
        None => false,
    };
    Ok(Held::Keys {
        file,
        bytes: Record::from_slice(alloc, bytes)?,
        is_prefix,
    })
}

/// Returns an end of a transient data queue as what a unit owns.
pub fn end_of(queue: Name4, is_writing: bool) -> Held {
    Held::End { queue, is_writing }
}

/// Returns the value of an ENQ or a DEQ: the first bytes of what it names.
pub fn value_of(resource: &Record, length: u64) -> Result<Held, NoMemory> {
    Ok(Held::Value(resource.copy()?.first(length as usize)))
}

impl Owners {
    /// Returns the owners of a region without units.
    pub fn new(alloc: Global) -> Owners {
        Owners {
            held: Tracked::new(alloc),
            reads: BTreeMap::new(alloc),
            alloc,
        }
    }

    fn set(&mut self, held: Held, owner: Option<Owner>) -> Result<(), NoMemory> {
        let again = held.copy()?;
        self.held.set(held, again, owner)
    }

    // Records that a unit owns a resource once.
    fn hold(&mut self, held: Held, unit: u64) -> Result<(), NoMemory> {
        self.set(held, Some(Owner { unit, count: 1 }))
    }

    /// Adds what a unit owns since an entry of it used a recoverable file or queue.
    pub fn follow(&mut self, unit: u64, opening: &Opening, entry: &Entry) -> Result<(), NoMemory> {
        let op = entry.op();
        if entry.condition() != Condition::Normal || !opening.is_recoverable(&op) {
            return Ok(());
        }
        match op {
            OpRef::Write(file, key, _)
            | OpRef::Rewrite(file, key, _)
            | OpRef::Delete(file, key)
            | OpRef::DeleteGeneric(file, key)
            | OpRef::ReadUpdate(file, key) => {
                self.hold(keys_of(self.alloc, opening, file, key)?, unit)
            }
            OpRef::TsWrite(queue, _) | OpRef::TsRewrite(queue, _, _) | OpRef::TsDelete(queue) => {
                self.hold(Held::Queue(queue), unit)
            }
            OpRef::TdWrite(queue, _) => self.hold(end_of(queue, true), unit),
            OpRef::TdRead(queue) => self.hold(end_of(queue, false), unit),
            OpRef::TdDelete(queue) => {
                self.hold(end_of(queue, false), unit)?;
                self.hold(end_of(queue, true), unit)
            }
        }
    }

    /// Looks up the update read of a unit after a command of its task on a file. If the file isn't
    /// recoverable, the unit owns the record while the read is open.
    pub fn read(
        &mut self,
        task: Name8,
        unit: u64,
        units: &Units,
        file: Name8,
    ) -> Result<(), NoMemory> {
        let opening = units.opening();
        if opening.is_recoverable_file(&file) {
            return Ok(());
        }
        let read = UpdateRead { task, file };
        if let Some(key) = self.reads.remove(&read) {
            self.set(keys_of(self.alloc, opening, file, key.bytes())?, None)?;
        }
        if let Some(key) = units.open_read(UnitId::new(unit), &file) {
            self.hold(keys_of(self.alloc, opening, file, key)?, unit)?;
            self.reads
                .insert(read, Record::from_slice(self.alloc, key)?)?;
        }
        Ok(())
    }

    // Returns how many times a unit owns a resource.
    fn count(&self, held: &Held, unit: u64) -> u64 {
        match self.held.get(held) {
            Some(owner) if owner.unit == unit => owner.count,
            _ => 0,
        }
    }

    /// Counts an ENQ or a DEQ of a unit. Other commands change nothing.
    pub fn enqueue(&mut self, unit: u64, verb: &Verb) -> Result<(), NoMemory> {
        match verb {
            Verb::Enq {
                resource,
                length,
                ..
            } => {
                let held = value_of(resource, *length)?;
                let count = self.count(&held, unit).saturating_add(1);
                self.set(held, Some(Owner { unit, count }))
            }
            Verb::Deq { resource, length } => {
                let held = value_of(resource, *length)?;
                let count = self.count(&held, unit);
                if count == 0 {
                    return Ok(());
                }
                let left = count - 1;
                let owner = Owner { unit, count: left };
                self.set(held, (left > 0).then_some(owner))
            }
            _ => Ok(()),
        }
    }

    /// Forgets all that the unit of a task owns.
    pub fn end(&mut self, task: &Name8, unit: u64) {
        self.reads.retain(|read, _| read.task != *task);
        self.held.retain(|owner| owner.unit != unit);
    }
}
