//! What is read of units of work: who blocks a command, what stands, and the history.

ghost use Rattle.std.specs.Prelude.{◌≡◌, ◌<◌, ◌≤◌, ◌++◌, [], true, length};
ghost use Rattle.std.specs.Prelude.{IsTrue, option_map, IfOk, IfSome, OnOk};
ghost use Rattle.std.specs.Option.{option_copied};
ghost use Rattle.cics_names.specs.Keyed.{value_at};
ghost use Rattle.cics_history.specs.Openings.{is_key};
ghost use Rattle.cics_history.specs.Headline.{outcome_of};
ghost use Rattle.cics_history.specs.Store.{ts_queue};
ghost use Rattle.cics_history.specs.Holding.{awaited, value_holder};
ghost use Rattle.cics_history.specs.Execution.{is_ready_op, read_at, place_at, IsOpenUnit, IsOpenOrNone};
ghost use Rattle.cics_history.specs.Stamps.{unit_stamp, shared_stamp};
ghost use Rattle.cics_history.specs.Isolation.{IsSound};
ghost use Rattle.cics_history.specs.Serial.{NoneIsOpen};
ghost use Rattle.cics_units.specs.Replay.Listings.{listing_of, replayed_listing};

use crate::opening::Opening;
use crate::replay::{Listing, stamp_committed};
use crate::stamping::stamp_ops;
use crate::units::{Units, unit_or_next};
use cics_enqueue::ResourceRef;
use cics_history::{Entry, Op, UnitId, UnitState};
use cics_ksds::File;
use cics_names::{Name4, Name8, NoMemory};
use cics_transdata::Recovery;

impl Units {
    /// Returns the blocker of a command, if any: another unit that owns something that conflicts
    /// with what it uses. If none does, the writer of its queue blocks READQ TD, if there is no
    /// record that the task may read. Takes no memory.
    ///
    /// `asking` is the task's unit, None if it has none. It has to be open, and the command ready,
    /// as for `submit`.
    ///
    /// - `sound`: the open units are isolated. So a command that has to wait for a writer has to,
    ///   however the others end.
    pub fn awaited(&self, asking: Option<UnitId>, op: &Op) -> Option<UnitId>
        requires is_open { IsOpenOrNone self.now.state asking }
        requires ready { IsTrue (is_ready_op self.now.state asking op.now) }
        ensures awaited { result ≡ awaited self.now.state asking op.now }
        ensures is_open { IfSome result (IsOpenUnit self.now.state) }
        ensures sound { IsSound self.now.state }
    {
        // A copy for each call that takes the unit.
        let acts = asking;
        let acting = unit_or_next(acts, self.outcomes.as_slice());
        let bound = self.core.bind(acting, op, self.opening.is_prefixed(op));
        self.core.blocker(asking, &bound)
    }

    /// Returns the owner of a value, if it is a unit other than `asking`: the blocker of an ENQ.
    /// `asking` is the task's unit, None if it has none. A value has at most 255 bytes.
    pub fn value_holder(&self, asking: Option<UnitId>, value: &[u8]) -> Option<UnitId>
        requires most { length value.now ≤ 255 }
        ensures holder { result ≡ value_holder self.now.state asking value.now }
        ensures is_open { IfSome result (IsOpenUnit self.now.state) }
    {
        self.core
            .locks
            .holder_over(&ResourceRef::value(value), asking)
    }

    /// Returns the key of the record that a unit has read for update in a file, if any.
    pub fn open_read(&self, unit: UnitId, file: &Name8) -> Option<&[u8]>
        ensures key { option_copied result ≡ read_at self.now.state.reads unit file.now }
        ensures most { IfSome result (λ key. length key.now ≤ 255) }
    {
        let key = self.core.reads.key(unit, file)?;
        Some(key.bytes())
    }

    /// Returns the cursor (NEXT) of a temporary storage queue: the number of the item that READQ TS
    /// read last, for whichever task. It is 0 for an absent queue. WRITEQ TS that makes the queue
    /// sets it to 0, and so does DELETEQ TS. A backout leaves it as it is.
    pub fn next_place(&self, queue: &Name8) -> u16
        ensures { result ≡ place_at self.now.state queue.now }
    {
        self.core.store.temp_storage.next_place(queue)
    }

    /// Returns how many items a temporary storage queue has as it stands, the changes of open units
    /// included. It is 0 for an absent queue.
    pub fn item_count(&self, queue: &Name8) -> u64
        ensures { result ≡ length (ts_queue self.now.store queue.now) }
    {
        self.core.store.temp_storage.item_count(queue)
    }

    /// Returns the recovery of a transient data queue, or None if no such queue is defined.
    pub fn td_recovery(&self, queue: &Name4) -> Option<Recovery>
        ensures { result
            ≡ option_map (λ q. q.recovery) (value_at queue.now self.now.state.opening.queues) }
    {
        match self.core.store.trans_data.get(queue) {
            Some(queue) => Some(queue.recovery()),
            None => None,
        }
    }

    /// Returns the file of a name as it stands, the changes of open units included, or None if no
    /// such file is defined.
    ///
    /// - `swept`: if no unit is open, the file holds no empty slot for a backout.
    pub fn file(&self, name: &Name8) -> Option<&File>
        ensures records { value_at name.now self.now.store.files
            ≡ option_map (λ f. f.records) (option_copied result) }
        ensures definition { option_map (λ f. f.definition)
            (value_at name.now self.now.state.opening.files)
            ≡ option_map (λ f. f.definition) (option_copied result) }
        ensures lawful { IfSome result (λ f. is_key f.now.definition ≡ true) }
        ensures swept { NoneIsOpen self.now.state → IfSome result (λ f. f.now.empties ≡ []) }
    {
        self.core.store.files.get(name)
    }

    /// Returns what the units started with.
    pub fn opening(&self) -> &Opening
        ensures { result.now ≡ self.now.state.opening }
    {
        &self.opening
    }

    /// Returns the executed commands with their units and answers, in order of execution.
    pub fn trace(&self) -> &[Entry]
        ensures trace { result.now ≡ self.now.state.trace }
    {
        self.trace.as_slice()
    }

    /// Returns whether a unit that has begun has ended, and how.
    pub fn outcome(&self, unit: UnitId) -> UnitState
        requires begun { unit < length self.now.state.outcomes }
        ensures { result ≡ outcome_of self.now.state.outcomes unit }
    {
        self.outcomes[unit.number() as usize]
    }

    /// Returns the outcome of each unit that has begun, in the order in which they began.
    pub fn outcomes(&self) -> &[UnitState]
        ensures { result.now ≡ self.now.state.outcomes }
    {
        self.outcomes.as_slice()
    }

    /// Returns the units that committed, in commit order.
    ///
    /// Clause `serializable` of other calls speaks of this order: what they did gives in it what
    /// would stand in recoverable files and queues if the open units were backed out.
    pub fn commits(&self) -> &[UnitId]
        ensures commits { result.now ≡ self.now.state.commits }
    {
        self.commits.as_slice()
    }

    /// Returns what stands in the files and queues, the changes of open units included, and no
    /// task.
    ///
    /// - `replayed`: this is what `plain_replay` returns for the opening, the trace and the
    ///   outcomes.
    ///
    /// Errors: `NoMemory`. Cost: that of `Listing::of_store`.
    pub fn listing(&self) -> Result<Listing, NoMemory>
        ensures listing { IfOk result (λ listing. listing
            ≡ listing_of self.now.state.opening self.now.store) }
        ensures replayed { IfOk result (λ listing. listing ≡ replayed_listing self.now.state.opening
            self.now.state.trace self.now.state.outcomes) }
    {
        Listing::of_store(self.alloc, &self.opening, &self.core.store)
    }

    /// Appends the stamp of a unit: what it did to recoverable files and queues, its open update
    /// reads, and the values that it owns by ENQ.
    ///
    /// Errors: `NoMemory`. Cost: O(executed commands + owned resources).
    pub fn stamp_unit(&self, unit: UnitId, out: &mut Vec<u8>) -> Result<(), NoMemory>
        ensures { OnOk result (out.new.items ≡ out.old.items ++ unit_stamp self.now.state unit) }
    {
        stamp_ops(&self.opening, self.trace.as_slice(), unit, out)?;
        self.core.reads.stamp(unit, out)?;
        self.core.locks.stamp_values(unit, out)
    }

    /// Appends the stamp of what units share. This is what files and queues would hold if the open
    /// units were backed out, and the NEXT cursors.
    ///
    /// Errors: `NoMemory`. Cost: that of `plain_replay`.
    pub fn stamp_shared(&self, out: &mut Vec<u8>) -> Result<(), NoMemory>
        ensures { OnOk result (out.new.items ≡ out.old.items ++ shared_stamp self.now.state) }
    {
        let (trace, outcomes) = (self.trace.as_slice(), self.outcomes.as_slice());
        stamp_committed(&self.opening, trace, outcomes, out)?;
        self.core.store.temp_storage.stamp_places(out)
    }
}
