//! What a region opens with.

ghost use Rattle.std.specs.Prelude.{◌≡◌, true, OnOk, OnErr, IsSome};
ghost use Rattle.cics_units.specs.Opening.Prefixed.{is_temp};
ghost use Rattle.cics_names.specs.Keyed.{value_at};
ghost use Rattle.cics_images.specs.NamedValues.{changed_at};
ghost use Rattle.cics_history.specs.Openings.{is_record_size, is_key};
ghost use Rattle.cics_units.specs.Opening.Faults.{fault_number};
ghost use Rattle.cics_units.specs.Opening.RegionFiles.{IsFitFor, written_in};
ghost use Rattle.cics_units.specs.Opening.RegionQueues.{loaded_with};

use crate::opening::files::Files;
use crate::opening::prefixes::{has_prefix_in, is_defined};
use crate::opening::queues::Queues;
use cics_history::{Op, OpRef};
use cics_ksds::{File, FileDef};
use cics_names::{Items, Name4, Name8, NoMemory, Record};
use cics_transdata::{Recovery, TransQueue};
use std::alloc::Global;
use std::marker::Model;

/// Why a definition or a record to be loaded was refused.
#[derive(Clone, Copy, Debug, PartialEq, Eq)]
pub enum DefineFault {
    /// The name or the prefix is defined already, or the key of a record is in the file already.
    Duplicate,
    /// The key is not 1 to 255 bytes long, or it ends behind the record size.
    BadKey,
    /// The record size, or the length of a transient data queue's record, is not 1 to 32,767 bytes.
    /// Or a record doesn't fit its file.
    BadLength,
    /// No file or queue of the name is defined, so nothing can be loaded.
    NotThere,
    /// Memory was refused.
    NoMemory,
}

impl DefineFault {
    /// Returns the number of the fault, from 1 on, that a journal prints.
    pub fn number(&self) -> u64
        ensures { result ≡ fault_number self.now }
    {
        match self {
            DefineFault::Duplicate => 1,
            DefineFault::BadKey => 2,
            DefineFault::BadLength => 3,
            DefineFault::NotThere => 4,
            DefineFault::NoMemory => 5,
        }
    }
}

impl From<NoMemory> for DefineFault {
    ghost use Rattle.std.specs.Prelude.{◌≡◌};
    ghost use Rattle.cics_units.specs.declared.opening.opening.DefineFault.{DefineFault};

    ghost from_gives = { λ _ fault. fault ≡ DefineFault.NoMemory };

    fn from(_refusal: NoMemory) -> DefineFault {
        DefineFault::NoMemory
    }
}

/// Returns whether this number of bytes is lawful, as a file's record size or for a record of a
/// queue.
fn is_record_size(size: u64) -> bool
    ensures { result ≡ is_record_size size }
{
    1 <= size && size <= 32_767
}

/// Returns whether the key of a definition has a lawful length and ends within the record.
fn is_key(definition: FileDef) -> bool
    ensures { result ≡ is_key definition }
{
    // The key's end is never summed up: offset and length may be any, and their sum might wrap.
    1 <= definition.key_length
        && definition.key_length <= 255
        && definition.key_length <= definition.record_size
        && definition.key_offset <= definition.record_size - definition.key_length
}

/// Writes a loaded record to the file of a name. No unit of work ever undoes that.
fn write_loaded(files: &mut Files, name: &Name8, content: Record) -> Result<(), NoMemory>
    requires { IsFitFor (value_at name.now files.old) content }
    ensures files { OnOk result (files.new
        ≡ written_in files.old name.now content (value_at name.now files.old)) }
    ensures err { OnErr result (files.new ≡ files.old) }
{
    files.at_mut(name).write(content, false)?;
    Ok(())
}

/// Adds a loaded record to the queue of a name, as the last one. It counts as committed, and no
/// unit of work ever undoes it.
fn add_loaded(queues: &mut Queues, name: &Name4, content: Record) -> Result<(), NoMemory>
    requires { IsSome (value_at name.now queues.old) }
    ensures queues { OnOk result (queues.new
        ≡ changed_at (λ q. loaded_with q content) name.now queues.old) }
    ensures err { OnErr result (queues.new ≡ queues.old) }
{
    let queue = queues.at_mut(name);
    queue.write(content)?;
    queue.commit_writer();
    Ok(())
}

/// The definitions that a region opens with, and the records that were loaded into them. Unchanged
/// on error.
///
/// Contracts see the files by name, each with its definition and its records by key. They see the
/// prefixes of recoverable temporary storage queues in the order in which they were defined. They
/// see the transient data queues by name, each with its recovery and its records.
pub struct Opening {
    files: Files,
    prefixes: Items<Name8>,
    queues: Queues,
    alloc: Global,
}

// By hand: so each place that drops an opening is one call, not a drop of each field.
impl Drop for Opening {
    fn drop(self) {
        let Opening {
            files: _files,
            prefixes: _prefixes,
            queues: _queues,
            alloc: _alloc,
        } = self;
    }
}

impl Model for Opening {
    ghost use Rattle.cics_history.specs.State.{OpeningState};
    ghost use Rattle.cics_units.specs.Opening.RegionFiles.{AreLoaded};
    ghost use Rattle.cics_units.specs.Opening.RegionQueues.{AreLoadedQueues};
    ghost use Rattle.cics_units.specs.Opening.Opened.{opened_with};

    ghost Value = { OpeningState };

    ghost view = { λ o. opened_with o.files o.prefixes o.queues };

    ghost invariant = { λ o. AreLoaded o.files × AreLoadedQueues o.queues };
}

impl Opening {
    ghost use Rattle.cics_names.specs.Keyed.{has_key, is_key_in};
    ghost use Rattle.cics_history.specs.Openings.{initial_opening, with_file, with_record};
    ghost use Rattle.cics_history.specs.Openings.{with_prefix, with_queue, with_td_record};
    ghost use Rattle.cics_history.specs.Openings.{HasLawfulKeys, IsOpeningInOrder};
    ghost use Rattle.cics_history.specs.Borrowed.{as_op};
    ghost use Rattle.cics_history.specs.Store.{is_recoverable};
    ghost use Rattle.cics_history.specs.State.{file_recoverable, has_prefix_in, queue_logical};
    ghost use Rattle.cics_units.specs.Opening.Faults.{AnswersFault, file_fault, load_fault};
    ghost use Rattle.cics_units.specs.Opening.Faults.{fault_if, load_td_fault};
    ghost use Rattle.cics_units.specs.Opening.RegionFiles.{opened_files, AreLoaded};
    ghost use Rattle.cics_units.specs.Opening.RegionQueues.{opened_queues};
    ghost use Rattle.cics_units.specs.Opening.Definitions.{recovery_in, defined_files, defined_queues};
    ghost use Rattle.std.specs.Prelude.{IfOk};

    /// Returns an opening that defines nothing. `alloc` gives the memory for all that follows.
    pub fn new(alloc: Global) -> Opening
        ensures { result ≡ initial_opening }
    {
        Opening {
            files: Files::new(alloc),
            prefixes: Items::new(alloc),
            queues: Queues::new(alloc),
            alloc,
        }
    }

    /// Defines a file, without a record.
    ///
    /// Errors, in this order:
    /// - `Duplicate`: a file of the name is defined
    /// - `BadLength`: the record size isn't 1 to 32,767
    /// - `BadKey`: the key isn't 1 to 255 bytes long, or ends behind the record
    /// - `NoMemory`
    pub fn define_file(&mut self, name: Name8, definition: FileDef) -> Result<(), DefineFault>
        ensures fault { AnswersFault result (file_fault self.old name definition) }
        ensures ok { OnOk result (self.new ≡ with_file self.old name definition) }
        ensures err { OnErr result (self.new ≡ self.old) }
    {
        if self.files.contains(&name) {
            return Err(DefineFault::Duplicate);
        }
        if !is_record_size(definition.record_size) {
            return Err(DefineFault::BadLength);
        }
        if !is_key(definition) {
            return Err(DefineFault::BadKey);
        }
        self.files.insert(name, File::new(self.alloc, definition))?;
        Ok(())
    }

    /// Loads a record into a file, under the key that lies in it.
    ///
    /// Errors, in this order:
    /// - `NotThere`: no file of the name is defined
    /// - `BadLength`: the record ends before its key does, or is longer than the record size
    /// - `Duplicate`: the file has the key already
    /// - `NoMemory`
    pub fn load_file(&mut self, name: Name8, content: Record) -> Result<(), DefineFault>
        ensures fault { AnswersFault result (load_fault (value_at name self.old.files) content) }
        ensures ok { OnOk result (self.new ≡ with_record self.old name content) }
        ensures err { OnErr result (self.new ≡ self.old) }
    {
        let Some(file) = self.files.get(&name) else {
            return Err(DefineFault::NotThere);
        };
        let definition = file.definition();
        if !definition.fits(content.bytes()) {
            return Err(DefineFault::BadLength);
        }
        if file.read(definition.key_in(content.bytes())).is_some() {
            return Err(DefineFault::Duplicate);
        }
        write_loaded(&mut self.files, &name, content)?;
        Ok(())
    }

    /// Defines a prefix: temporary storage queues whose names begin with it are recoverable. The
    /// blanks that fill it up don't count.
    ///
    /// Errors, in this order: `Duplicate`, if the prefix is defined already; `NoMemory`.
    pub fn define_ts_prefix(&mut self, prefix: Name8) -> Result<(), DefineFault>
        ensures fault { AnswersFault result (fault_if (is_key_in prefix self.old.prefixes)) }
        ensures ok { OnOk result (self.new ≡ with_prefix self.old prefix) }
        ensures err { OnErr result (self.new ≡ self.old) }
    {
        if is_defined(self.prefixes.as_slice(), &prefix) {
            return Err(DefineFault::Duplicate);
        }
        self.prefixes.push(prefix)?;
        Ok(())
    }

    /// Defines a transient data queue, without a record.
    ///
    /// Errors, in this order: `Duplicate`, if a queue of the name is defined; `NoMemory`.
    pub fn define_td(&mut self, name: Name4, recovery: Recovery) -> Result<(), DefineFault>
        ensures fault { AnswersFault result (fault_if (has_key name self.old.queues)) }
        ensures ok { OnOk result (self.new ≡ with_queue self.old name recovery) }
        ensures err { OnErr result (self.new ≡ self.old) }
    {
        if self.queues.contains(&name) {
            return Err(DefineFault::Duplicate);
        }
        self.queues
            .insert(name, TransQueue::new(self.alloc, recovery))?;
        Ok(())
    }

    /// Loads a record into a transient data queue, as the last one.
    ///
    /// Errors, in this order:
    /// - `NotThere`: no queue of the name is defined
    /// - `BadLength`: the record isn't 1 to 32,767 bytes long
    /// - `NoMemory`
    pub fn load_td(&mut self, name: Name4, content: Record) -> Result<(), DefineFault>
        ensures fault { AnswersFault result (load_td_fault
            (value_at name self.old.queues) content) }
        ensures ok { OnOk result (self.new ≡ with_td_record self.old name content) }
        ensures err { OnErr result (self.new ≡ self.old) }
    {
        if !self.queues.contains(&name) {
            return Err(DefineFault::NotThere);
        }
        if !is_record_size(content.bytes().len() as u64) {
            return Err(DefineFault::BadLength);
        }
        add_loaded(&mut self.queues, &name, content)?;
        Ok(())
    }

    /// Returns an opening with the same definitions and loaded records.
    ///
    /// Errors: `NoMemory`. Cost: O(bytes copied).
    pub fn copy(&self) -> Result<Opening, NoMemory>
        ensures { IfOk result (λ copy. copy ≡ self.now) }
    {
        let mut prefixes = Items::new(self.alloc);
        for prefix in self.prefixes.as_slice() {
            prefixes.push(*prefix)?;
        }
        Ok(Opening {
            files: self.files.copy()?,
            prefixes,
            queues: self.queues.copy()?,
            alloc: self.alloc,
        })
    }

    /// Returns the allocator that gives the memory for all that is defined and loaded.
    pub fn allocator(&self) -> Global {
        self.alloc
    }

    /// Returns the files that are defined, with what was loaded into each.
    ///
    /// Their names rise, and so do the keys of each file's records. Each definition has a lawful
    /// key.
    pub fn files(&self) -> &Files
        ensures files { result.now ≡ opened_files self.now.files }
        ensures in_order { IsOpeningInOrder self.now }
        ensures lawful_keys { HasLawfulKeys self.now }
    {
        &self.files
    }

    /// Returns the prefixes that are defined, in the order of their definitions.
    pub fn prefixes(&self) -> &[Name8]
        ensures { result.now ≡ self.now.prefixes }
    {
        self.prefixes.as_slice()
    }

    /// Returns the defined transient data queues, with what was loaded. No record is marked.
    pub fn queues(&self) -> &Queues
        ensures { result.now ≡ opened_queues self.now.queues }
    {
        &self.queues
    }

    /// Returns the defined files in the order of their names. Each has its definition and copies of
    /// its loaded records, in the order of their keys.
    ///
    /// Errors: `NoMemory`. Cost: O(bytes copied).
    pub fn defined_files(&self) -> Result<Items<(Name8, FileDef, Items<Record>)>, NoMemory>
        ensures { IfOk result (λ files. files ≡ defined_files self.now) }
    {
        let mut listed = Items::new(self.alloc);
        for (name, file) in self.files().iter() {
            listed.push((*name, file.definition(), file.listing()?))?;
        }
        Ok(listed)
    }

    /// Returns the defined transient data queues in the order of their names. Each has its recovery
    /// and copies of its loaded records, first to last.
    ///
    /// Errors: `NoMemory`. Cost: O(bytes copied).
    pub fn defined_queues(&self) -> Result<Items<(Name4, Recovery, Items<Record>)>, NoMemory>
        ensures { IfOk result (λ queues. queues ≡ defined_queues self.now) }
    {
        let mut listed = Items::new(self.alloc);
        for (name, queue) in self.queues().iter() {
            listed.push((*name, queue.recovery(), queue.listing()?))?;
        }
        Ok(listed)
    }

    /// Returns whether a file is defined as recoverable.
    pub fn is_recoverable_file(&self, name: &Name8) -> bool
        ensures { result ≡ file_recoverable self.now name.now }
    {
        match self.files.get(name) {
            Some(file) => file.definition().recoverable,
            None => false,
        }
    }

    /// Returns whether a temporary storage queue is recoverable: its name begins with a prefix.
    pub fn is_recoverable_ts(&self, name: &Name8) -> bool
        ensures { result ≡ has_prefix_in self.now.prefixes name.now }
    {
        has_prefix_in(self.prefixes.as_slice(), name)
    }

    /// Returns whether a transient data queue is defined as LOGICAL: it is recoverable.
    pub(crate) fn is_logical_td(&self, name: &Name4) -> bool
        ensures { result ≡ queue_logical self.now name.now }
    {
        match self.queues.get(name) {
            Some(queue) => queue.recovery().is_logical(),
            None => false,
        }
    }

    /// Returns whether a command acts on a recoverable file or queue.
    pub fn is_recoverable(&self, op: &OpRef<'_>) -> bool
        ensures { result ≡ is_recoverable self.now (as_op op.now) }
    {
        match op {
            OpRef::Write(file, _, _) => self.is_recoverable_file(file),
            OpRef::Rewrite(file, _, _) => self.is_recoverable_file(file),
            OpRef::Delete(file, _) => self.is_recoverable_file(file),
            OpRef::DeleteGeneric(file, _) => self.is_recoverable_file(file),
            OpRef::ReadUpdate(file, _) => self.is_recoverable_file(file),
            OpRef::TsWrite(queue, _) => self.is_recoverable_ts(queue),
            OpRef::TsRewrite(queue, _, _) => self.is_recoverable_ts(queue),
            OpRef::TsDelete(queue) => self.is_recoverable_ts(queue),
            OpRef::TdWrite(queue, _) => self.is_logical_td(queue),
            OpRef::TdRead(queue) => self.is_logical_td(queue),
            OpRef::TdDelete(queue) => self.is_logical_td(queue),
        }
    }

    /// Returns whether a command acts on a recoverable temporary storage queue, by the queue's
    /// prefix. False for every other command.
    #[inline(always)]
    pub fn is_prefixed(&self, op: &Op) -> bool
        ensures { is_temp op.now ≡ true → result ≡ is_recoverable self.now op.now }
    {
        match op {
            Op::TsWrite { queue, .. } => self.is_recoverable_ts(queue),
            Op::TsRewrite { queue, .. } => self.is_recoverable_ts(queue),
            Op::TsDelete { queue } => self.is_recoverable_ts(queue),
            _ => false,
        }
    }

    /// Returns the recovery of a transient data queue, or `Recovery::Unrecovered` if no such queue
    /// is defined.
    pub fn td_recovery(&self, name: &Name4) -> Recovery
        ensures { result ≡ recovery_in (value_at name.now self.now.queues) }
    {
        match self.queues.get(name) {
            Some(queue) => queue.recovery(),
            None => Recovery::Unrecovered,
        }
    }
}
