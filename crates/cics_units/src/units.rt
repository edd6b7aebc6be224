//! Units of work: their commands, what they acquire, and their ends.

mod blocking;
mod reading;

ghost use Rattle.std.specs.Prelude.{◌≡◌, ◌<◌, ◌≤◌, ◌+◌, [], true, length, vec_len, vec_capacity};
ghost use Rattle.std.specs.Prelude.{IsTrue, IfOk, IfErr, OnOk, OnErr};
ghost use Rattle.cics_history.specs.Openings.{IsOpeningInOrder};
ghost use Rattle.cics_history.specs.Headline.{IsHeadline, LeavesNoTrace};
ghost use Rattle.cics_history.specs.Execution.{IfMustWait, IfEnqMustWait, unit_or_next};
ghost use Rattle.cics_history.specs.Execution.{outcomes_with, IsOpenUnit, IsOpenOrNone};
ghost use Rattle.cics_history.specs.Execution.{is_ready_op, execution, after_execution, enqueue};
ghost use Rattle.cics_history.specs.Execution.{after_enqueue, after_dequeue, after_unlock};
ghost use Rattle.cics_history.specs.Execution.{after_end, item_asked, ts_reading, after_ts_reading};
ghost use Rattle.cics_history.specs.State.{initial_units};
ghost use Rattle.cics_history.specs.Serial.{IsSerializable};
ghost use Rattle.cics_history.specs.declared.ops.UnitState.TheVariants.{Committed, BackedOut};
ghost use Rattle.cics_units.specs.Words.{as_done, IsBackIfItWaits, number_asked, kept_by};
ghost use Rattle.cics_units.specs.Words.{AreOthersKept, read_item, after_read_item, KeepsQueues};

use crate::opening::Opening;
use crate::units_core::{Store, UnitsCore, reserve_images, settle_ends};
use cics_enqueue::{ResourceRef, TakeFault};
use cics_history::{Answer, Done, Enqueued, Entry, Op, UnitId, UnitState};
use cics_images::{Images, Stores};
use cics_names::{Name8, NoMemory};
use cics_tempstor::{TempStore, TsRead};
use std::alloc::Global;
use std::marker::Model;
use std::mem;

/// Result of `submit`.
#[derive(Drop)]
pub enum Submitted {
    /// The unit that executed the command, a new one if none was given, and its answer.
    Answered(UnitId, Answer),
    /// The blocker, another open unit, and the command, which wasn't executed.
    MustWait(UnitId, Op),
}

/// The units of work of a region, with its files and queues.
///
/// Contracts see two fields. `state` has the opening, the trace of executed commands, the outcomes
/// of units and the commit order. It also has the open update reads, the counts of ENQ and the
/// NEXT cursors. `store` is read off the files and queues themselves.
///
/// After every call two clauses hold:
///
/// - `headline`: the store equals a replay of the surviving entries, the trace without what
///   backed-out units did to recoverable files and queues. The replay gives each entry the answer
///   that it has here.
/// - `serializable`: committed units are serializable in commit order. Run so, their NORMAL
///   commands on recoverable files and queues give what would stand if the open units were backed
///   out. With the open units after them, in any order, they give what stands. Each is answered as
///   it is here.
///
/// The invariant behind it is `AreValid`: it ties store, images, locks and reads to the history. By
/// its `place`, undoing an open unit's images leaves what the others did. By its `table`, units own
/// what the history says, so a command waits exactly if it has to.
pub struct Units {
    opening: Opening,
    core: UnitsCore,
    trace: Vec<Entry>,
    outcomes: Vec<UnitState>,
    commits: Vec<UnitId>,
    alloc: Global,
}

// By hand: so each place that drops units is one call, not a drop of each field.
impl Drop for Units {
    fn drop(self) {
        let Units {
            opening: _opening,
            core: _core,
            trace: _trace,
            outcomes: _outcomes,
            commits: _commits,
            alloc: _alloc,
        } = self;
    }
}

impl Model for Units {
    ghost use Rattle.cics_history.specs.State.{UnitsValue};
    ghost use Rattle.cics_units.specs.Opening.StoreMatching.{shown_store};
    ghost use Rattle.cics_units.specs.Cores.{core_value};
    ghost use Rattle.cics_units.specs.KeptUnits.{state_shown, AreValid};
    ghost use Rattle.std.specs.Prelude.{◌≤◌, length, vec_capacity};

    ghost Value = { UnitsValue };

    ghost view = { λ u. record {
      state = state_shown u.opening u.trace.items u.outcomes.items u.commits.items
          (core_value u.core);
      store = shown_store u.core.store;
    } };

    ghost invariant = { λ u.
        AreValid (state_shown u.opening u.trace.items u.outcomes.items u.commits.items
        (core_value u.core)) (core_value u.core).stores u.core.locks
        × (length u.outcomes.items ≤ vec_capacity u.commits) };
}

// Returns the unit that acts: the given one, or the next to begin.
fn unit_or_next(unit: Option<UnitId>, outcomes: &[UnitState]) -> UnitId
    ensures { result ≡ unit_or_next unit outcomes.now }
{
    match unit {
        Some(unit) => unit,
        None => UnitId::new(outcomes.len() as u64),
    }
}

// Makes room for one more unit, and in `commits` for it and all that have begun.
fn reserve_unit(outcomes: &mut Vec<UnitState>, commits: &mut Vec<UnitId>) -> Result<(), NoMemory>
    ensures outcomes { outcomes.new.items ≡ outcomes.old.items }
    ensures commits { commits.new.items ≡ commits.old.items }
    ensures capacity { vec_capacity commits.old ≤ vec_capacity commits.new }
    ensures room { OnOk result (vec_len outcomes.new < vec_capacity outcomes.new) }
    ensures turns { OnOk result (length outcomes.new.items + 1 ≤ vec_capacity commits.new) }
{
    outcomes.reserve(1)?;
    let begun = outcomes.len();
    if commits.capacity() <= begun {
        commits.reserve((begun + 1).saturating_sub(commits.len()))?;
    }
    Ok(())
}

// Begins a unit, if `unit` is None.
#[inline(always)]
fn begin(outcomes: &mut Vec<UnitState>, unit: Option<UnitId>)
    requires room { vec_len outcomes.old < vec_capacity outcomes.old }
    ensures { outcomes.new.items ≡ outcomes_with unit outcomes.old.items }
{
    if unit.is_none() {
        outcomes.push_reserved(UnitState::Open);
    }
}

// Reads the item of a number, or if that is None the item after the queue's cursor. The number of
// the item that was read becomes the cursor.
fn read_ts(queues: &mut TempStore, queue: &Name8, item: Option<u64>) -> Result<TsRead, NoMemory>
    ensures answer { IfOk result (λ read. read
        ≡ read_item queues.old queue.now (number_asked queues.old queue.now item)) }
    ensures value { OnOk result (queues.new
        ≡ after_read_item queues.old queue.now (number_asked queues.old queue.now item)) }
    ensures kept { OnOk result (KeepsQueues (λ _. true) queues.old queues.new) }
    ensures err { OnErr result (queues.new ≡ queues.old) }
{
    match item {
        Some(number) => queues.read_item(queue, number),
        None => queues.read_next(queue),
    }
}

// Takes the images of a unit out of its row, which is then empty.
fn take_images(rows: &mut Vec<Images<Store>>, alloc: Global, unit: UnitId) -> Images<Store>
    requires begun { unit < length rows.old.items }
    ensures images { result.newest_first ≡ kept_by rows.old.items unit }
    ensures none { kept_by rows.new.items unit ≡ [] }
    ensures others { AreOthersKept rows.old.items rows.new.items unit }
{
    let at = unit.number() as usize;
    mem::replace(&mut rows[at], Images::new(alloc))
}

// Leaves the room of an ended unit's images in its row, if that row is the last. The next unit
// that begins takes it over.
fn leave_room(rows: &mut Vec<Images<Store>>, unit: UnitId, emptied: Images<Store>)
    requires begun { unit < length rows.old.items }
    requires emptied { emptied.newest_first ≡ [] }
    requires none { kept_by rows.old.items unit ≡ [] }
    ensures none { kept_by rows.new.items unit ≡ [] }
    ensures others { AreOthersKept rows.old.items rows.new.items unit }
{
    let at = unit.number() as usize;
    if at + 1 == rows.len() {
        rows[at] = emptied;
    }
}

impl Units {
    /// Starts with a copy of an opening's files and queues: no command is executed, and no unit has
    /// begun.
    ///
    /// - `in_order`: the opening's names rise, and so do the keys of each file. Laws suppose it.
    ///
    /// Errors: the opening, if memory is refused.
    pub fn start(opening: Opening) -> Result<Units, Opening>
        ensures state { IfOk result (λ units. units.state ≡ initial_units opening) }
        ensures in_order { IfOk result (λ units. IsOpeningInOrder units.state.opening) }
        ensures headline { IfOk result IsHeadline }
        ensures serializable { IfOk result IsSerializable }
        ensures err { IfErr result (λ back. back ≡ opening) }
    {
        let alloc = opening.allocator();
        let Ok(files) = opening.files().copy() else {
            return Err(opening);
        };
        let Ok(trans_data) = opening.queues().copy() else {
            return Err(opening);
        };
        let store = Stores {
            files,
            temp_storage: TempStore::new(alloc),
            trans_data,
        };
        Ok(Units {
            opening,
            core: UnitsCore::new(alloc, store),
            trace: Vec::new(alloc),
            outcomes: Vec::new(alloc),
            commits: Vec::new(alloc),
            alloc,
        })
    }

    /// Executes a copy of a command as `submit` does, on the same conditions.
    ///
    /// Errors: `NoMemory`, which changes nothing.
    pub fn execute(&mut self, unit: Option<UnitId>, op: &Op) -> Result<Done, NoMemory>
        requires is_open { IsOpenOrNone self.old.state unit }
        requires ready { IsTrue (is_ready_op self.old.state unit op.now) }
        ensures done { IfOk result (λ done. done ≡ execution self.old.state unit op.now) }
        ensures holder_open { IfOk result (λ done. IfMustWait done (IsOpenUnit self.old.state)) }
        ensures state { OnOk result (self.new.state ≡ after_execution self.old.state unit op.now) }
        ensures headline { IsHeadline self.new }
        ensures serializable { IsSerializable self.new }
        ensures err { OnErr result (self.new ≡ self.old) }
    {
        // The proof knows the invariant once a field is used.
        let _ = &self.opening;
        match self.submit(unit, op.copy()?)? {
            Submitted::Answered(unit, answer) => Ok(Done::Answered(unit, answer)),
            Submitted::MustWait(holder, _) => Ok(Done::MustWait(holder)),
        }
    }

    /// Executes a command for a unit, or for the next one, which begins with it. If another unit
    /// blocks the command, returns that unit and the command, and changes nothing. Nothing waits
    /// here: the region keeps the command, and submits a copy once `awaited` finds no blocker. An
    /// executed command moves into the trace, with its answer.
    ///
    /// The unit has to be open, and the command ready:
    ///
    /// - Its file or transient data queue is defined.
    /// - A record for a file fits the file under the command's key. One for a queue has 1 to 32,767
    ///   bytes. A key or a prefix has at most 255.
    /// - REWRITE is of the record that the unit has read for update. READ UPDATE is of a file of
    ///   which the unit has no open update read.
    ///
    /// Errors: `NoMemory`. Nothing changes, and the command is dropped.
    pub fn submit(&mut self, unit: Option<UnitId>, op: Op) -> Result<Submitted, NoMemory>
        requires is_open { IsOpenOrNone self.old.state unit }
        requires ready { IsTrue (is_ready_op self.old.state unit op) }
        ensures done { IfOk result (λ done. as_done done ≡ execution self.old.state unit op) }
        ensures back { IfOk result (IsBackIfItWaits op) }
        ensures holder_open { IfOk result (λ done.
            IfMustWait (as_done done) (IsOpenUnit self.old.state)) }
        ensures state { OnOk result (self.new.state ≡ after_execution self.old.state unit op) }
        ensures headline { IsHeadline self.new }
        ensures serializable { IsSerializable self.new }
        ensures err { OnErr result (self.new ≡ self.old) }
    {
        // A copy for each call that takes the unit.
        let asking = unit;
        let begins = unit;
        let acting = unit_or_next(unit, self.outcomes.as_slice());
        let bound = self.core.bind(acting, &op, self.opening.is_prefixed(&op));
        if let Some(holder) = self.core.blocker(asking, &bound) {
            return Ok(Submitted::MustWait(holder, op));
        }
        self.trace.reserve(1)?;
        reserve_unit(&mut self.outcomes, &mut self.commits)?;
        let content = self.core.given_record(&bound)?;
        let answer = self.core.execute(acting, &bound, content.as_ref())?;
        let noted = Answer {
            condition: answer.condition,
            content,
            number: answer.number,
        };
        let Ok(entry) = Entry::new(self.alloc, acting, op, noted) else {
            unreachable!()
        };
        begin(&mut self.outcomes, begins);
        self.trace.push_reserved(entry);
        Ok(Submitted::Answered(acting, answer))
    }

    /// Acquires a value for a unit, or for the next one, which begins with it: ENQ. The unit has to
    /// be open, and a value has at most 255 bytes. Unless it returns Taken, nothing changes.
    ///
    /// - Taken: the unit, which now owns the value, once more if it owned it already.
    /// - MustWait: the value's owner, another unit.
    /// - CountFull: the unit owns the value 65,535 times already.
    ///
    /// Errors: `NoMemory`.
    pub fn enq(&mut self, unit: Option<UnitId>, value: &[u8]) -> Result<Enqueued, NoMemory>
        requires is_open { IsOpenOrNone self.old.state unit }
        requires most { length value.now ≤ 255 }
        ensures done { IfOk result (λ done. done ≡ enqueue self.old.state unit value.now) }
        ensures holder_open { IfOk result (λ done. IfEnqMustWait done (IsOpenUnit self.old.state)) }
        ensures state { OnOk result (self.new.state ≡ after_enqueue self.old.state unit value.now) }
        ensures headline { IsHeadline self.new }
        ensures serializable { IsSerializable self.new }
        ensures store { self.new.store ≡ self.old.store }
        ensures err { OnErr result (self.new ≡ self.old) }
    {
        // A copy for each call that takes the unit.
        let begins = unit;
        let acting = unit_or_next(unit, self.outcomes.as_slice());
        reserve_unit(&mut self.outcomes, &mut self.commits)?;
        reserve_images(&mut self.core.rows, self.alloc, acting, 0)?;
        match self.core.locks.enq(value, acting) {
            Ok(None) => {}
            Ok(Some(holder)) => return Ok(Enqueued::MustWait(holder)),
            Err(TakeFault::Full) => return Ok(Enqueued::CountFull),
            Err(TakeFault::NoMemory) => return Err(NoMemory),
        }
        begin(&mut self.outcomes, begins);
        Ok(Enqueued::Taken(acting))
    }

    /// Releases a value once for a unit: DEQ. The value is free once the unit has released it as
    /// often as it acquired it.
    ///
    /// A value that the unit doesn't own stays as it is. Takes no memory. The unit has to be open,
    /// and a value has at most 255 bytes.
    pub fn deq(&mut self, unit: UnitId, value: &[u8])
        requires is_open { IsOpenUnit self.old.state unit }
        requires most { length value.now ≤ 255 }
        ensures state { self.new.state ≡ after_dequeue self.old.state unit value.now }
        ensures headline { IsHeadline self.new }
        ensures serializable { IsSerializable self.new }
        ensures store { self.new.store ≡ self.old.store }
    {
        self.core.locks.let_go(&ResourceRef::value(value), unit);
    }

    /// Ends a unit's update read of a file, if it has one: UNLOCK. In an unrecoverable file this
    /// releases the record. In a recoverable one the unit owns it until it ends. Takes no memory.
    pub fn unlock(&mut self, unit: UnitId, file: &Name8)
        requires is_open { IsOpenUnit self.old.state unit }
        ensures state { self.new.state ≡ after_unlock self.old.state unit file.now }
        ensures headline { IsHeadline self.new }
        ensures serializable { IsSerializable self.new }
        ensures store { self.new.store ≡ self.old.store }
    {
        let recoverable = self.opening.is_recoverable_file(file);
        self.core.end_read(unit, file, recoverable);
    }

    /// Reads the item of a number, or if `item` is None the one after the queue's cursor: READQ TS
    /// ITEM and NEXT. It sees the changes of open units. It is answered QIDERR if there is no
    /// queue, and ITEMERR if the queue has no such item.
    ///
    /// The number of the item that was read becomes the cursor. No unit acquires the queue for a
    /// read.
    ///
    /// Errors: `NoMemory`, which changes nothing.
    pub fn read_ts(&mut self, queue: &Name8, item: Option<u64>) -> Result<Answer, NoMemory>
        ensures answer { IfOk result (λ answer. answer
            ≡ ts_reading self.old.state queue.now (item_asked self.old.state queue.now item)) }
        ensures state { OnOk result (self.new.state
            ≡ after_ts_reading self.old.state queue.now
            (item_asked self.old.state queue.now item)) }
        ensures headline { IsHeadline self.new }
        ensures serializable { IsSerializable self.new }
        ensures store { self.new.store ≡ self.old.store }
        ensures err { OnErr result (self.new ≡ self.old) }
    {
        let read = read_ts(&mut self.core.store.temp_storage, queue, item)?;
        Ok(Answer {
            condition: read.condition,
            content: read.content,
            number: read.number,
        })
    }

    /// Commits a unit: what it did stays, and it releases all that it owns. In commit order it
    /// comes after the units that committed before it. Takes no memory.
    pub fn commit(&mut self, unit: UnitId)
        requires is_open { IsOpenUnit self.old.state unit }
        ensures state { self.new.state ≡ after_end self.old.state unit Committed }
        ensures headline { IsHeadline self.new }
        ensures serializable { IsSerializable self.new }
        ensures store { self.new.store ≡ self.old.store }
    {
        let mut images = take_images(&mut self.core.rows, self.alloc, unit);
        settle_ends(&mut self.core.store, images.oldest_first());
        images.forget(&mut self.core.store);
        leave_room(&mut self.core.rows, unit, images);
        self.core.locks.release_all(unit);
        self.core.reads.end(unit);
        self.outcomes[unit.number() as usize] = UnitState::Committed;
        self.commits.push_reserved(unit);
    }

    /// Backs a unit out: undoes its images, newest first, and releases all that it owns. Each
    /// recoverable file and queue is left as if the unit had executed nothing. Takes no memory.
    ///
    /// - `alone`: if the unit ran alone from some command on, each recoverable file and queue holds
    ///   what the surviving entries before that command give.
    pub fn back_out(&mut self, unit: UnitId)
        requires is_open { IsOpenUnit self.old.state unit }
        ensures state { self.new.state ≡ after_end self.old.state unit BackedOut }
        ensures headline { IsHeadline self.new }
        ensures serializable { IsSerializable self.new }
        ensures alone { LeavesNoTrace self.old self.new unit }
    {
        let mut images = take_images(&mut self.core.rows, self.alloc, unit);
        images.back_out(&mut self.core.store);
        leave_room(&mut self.core.rows, unit, images);
        self.core.locks.release_all(unit);
        self.core.reads.end(unit);
        self.outcomes[unit.number() as usize] = UnitState::BackedOut;
    }
}
