//! What units change in place: the files and queues, the images of each unit, the locks, and the
//! open update reads.
//!
//! Steps of `Units::submit` that every command takes have `inline(always)`, also in `units.rt` and
//! in `opening.rt` of `cics_units::opening`. A load of transient data was measured to need fewer
//! instructions so.

ghost use Rattle.std.specs.Prelude.{◌≡◌, ◌<◌, ◌≤◌, ℕ, true, false, not, if◌then◌else◌, [], None};
ghost use Rattle.std.specs.Prelude.{length, filter, reverse, IfOk, IfSome, OnOk, OnErr, All};
ghost use Rattle.std.specs.List.{list_any};
ghost use Rattle.std.specs.Option.{option_copied};
ghost use Rattle.cics_history.specs.Resources.{is_user};
ghost use Rattle.cics_history.specs.Cells.{Reading, Writing};
ghost use Rattle.cics_history.specs.Execution.{covers, read_at, with_read, is_read_of};
ghost use Rattle.cics_history.specs.Records.{file_of, key_of};
ghost use Rattle.cics_units.specs.Words.{IsSeen, is_writer, IsOwn, blocking_unit, core_value};
ghost use Rattle.cics_units.specs.Words.{IsBoundFor, IsExecuted, IsFitOp, given_record};
ghost use Rattle.cics_units.specs.Words.{most_images, IsCoreAsBefore, queue_of, is_temp};
ghost use Rattle.cics_units.specs.Words.{end_settled, ends_settled, is_read, covered_read, AreOnce};
ghost use Rattle.cics_units.specs.Words.{table_given_back, kept_by, room_of, listed, taken_all};
ghost use Rattle.cics_units.specs.Words.{AreFreeFor, let_go};

use crate::open_reads::OpenReads;
use crate::opening::{Files, FilesImage, QueueImage, Queues};
use crate::store;
use crate::uses::{Uses, WereFree, hold_all, holder_over_all, let_go_all, uses_of};
use cics_enqueue::{Enqueues, ResourceRef};
use cics_history::{Answer, Op, UnitId};
use cics_images::{Images, StoreImage, Stores};
use cics_names::{Condition, Name8, NoMemory, Record};
use cics_tempstor::{TempStore, TsImage};
use cics_transdata::TdImage;
use std::alloc::Global;
use std::mem;

/// The files, temporary storage and transient data of a region.
pub(crate) type Store = Stores<Files, TempStore, Queues>;

/// An image of a change of any of them.
type AnyImage = StoreImage<FilesImage, TsImage, QueueImage>;

/// The core of the units of work: files and queues in place, the images of each unit, the locks,
/// and the open update reads.
///
/// It has no invariant of its own. `Units` reaches its fields, and ties them by `AreValid`.
#[derive(Drop)]
pub(crate) struct UnitsCore {
    pub(crate) store: Store,
    /// The images of each unit that has begun or is about to, by its number. A unit that has ended
    /// has none, but the last row may keep its room.
    pub(crate) rows: Vec<Images<Store>>,
    pub(crate) locks: Enqueues,
    pub(crate) reads: OpenReads,
    pub(crate) alloc: Global,
}

/// A command of a unit with what was looked up for it: where it acts, and what it uses.
#[derive(Drop)]
pub(crate) struct BoundOp<'a> {
    pub(crate) op: &'a Op,
    /// Whether what the command acts on is recoverable.
    pub(crate) recoverable: bool,
    pub(crate) uses: Uses<'a>,
    /// For READQ TD, whether the unit owns the writing end, and so may read what it wrote itself.
    pub(crate) own: bool,
}

// Commits the writing end of an image's queue, if the image is of that end.
fn settle_writer(store: &mut Store, image: &AnyImage)
    ensures { store.new ≡ end_settled Writing store.old image.now }
{
    if let StoreImage::TransData(image) = image {
        if let TdImage::Written = image.image {
            store.trans_data.commit_writer(&image.name);
        }
    }
}

// Commits the reading end of an image's queue, if the image is of that end.
fn settle_reader(store: &mut Store, image: &AnyImage)
    ensures { store.new ≡ end_settled Reading store.old image.now }
{
    if let StoreImage::TransData(image) = image {
        if let TdImage::Taken(_) = image.image {
            store.trans_data.commit_reader(&image.name);
        }
    }
}

/// Commits the ends of queues that a unit's images are of. The list has the oldest image first. All
/// writing ends come first: so no record is marked both as written and as read when a reading end
/// is committed. What stands afterwards is the same in either order.
pub(crate) fn settle_ends(store: &mut Store, images: &[AnyImage])
    ensures { store.new ≡ ends_settled store.old (reverse images.now) }
{
    for image in images.iter().rev() {
        settle_writer(store, image);
    }
    for image in images.iter().rev() {
        settle_reader(store, image);
    }
}

// Returns how many images a command needs room for: as many as it may make, and at least one.
fn most_images(store: &Store, op: &Op) -> usize
    requires fit { IsFitOp store.now op.now }
    ensures some { 0 < result }
    ensures all { most_images store.now.files op.now ≤ result }
{
    let Op::DeleteGeneric { file, prefix } = op else {
        return 1;
    };
    match store.files.at(file).count_prefix(prefix.bytes()) as usize {
        0 => 1,
        count => count,
    }
}

// Copies a record, if there is one.
fn copied(given: Option<&Record>) -> Result<Option<Record>, NoMemory>
    ensures { IfOk result (λ copy. copy ≡ option_copied given.entry) }
{
    match given {
        Some(record) => Ok(Some(record.copy()?)),
        None => Ok(None),
    }
}

// Returns an empty list of images. It has the room of the last row if that has no images.
fn spare_images(rows: &mut Vec<Images<Store>>, alloc: Global) -> Images<Store>
    ensures empty { result.newest_first ≡ [] }
    ensures kept { (w : ℕ) → kept_by rows.new.items w ≡ kept_by rows.old.items w }
    ensures count { length rows.new.items ≡ length rows.old.items }
{
    let count = rows.len();
    if count > 0 && rows[count - 1].oldest_first().is_empty() {
        mem::replace(&mut rows[count - 1], Images::new(alloc))
    } else {
        Images::new(alloc)
    }
}

/// Makes room for `count` more images of a unit, which may be the next to begin.
/// A command that changes many cells makes room for all its images before its first change.
pub(crate) fn reserve_images(
    rows: &mut Vec<Images<Store>>,
    alloc: Global,
    unit: UnitId,
    count: usize,
) -> Result<(), NoMemory>
    requires begun { unit ≤ length rows.old.items }
    ensures kept { (w : ℕ) → kept_by rows.new.items w ≡ kept_by rows.old.items w }
    ensures longer { length rows.old.items ≤ length rows.new.items }
    ensures begun { OnOk result (unit < length rows.new.items) }
    ensures room { OnOk result (count ≤ room_of rows.new.items unit) }
{
    let at = unit.number() as usize;
    if at == rows.len() {
        let images = spare_images(rows, alloc);
        rows.push(images)?;
    }
    rows[at].make_room_for(count)
}

// Acquires what a command uses if it acts on something recoverable, else nothing. Returns what was
// free before.
fn acquire(locks: &mut Enqueues, unit: UnitId, bound: &BoundOp<'_>) -> Result<WereFree, NoMemory>
    requires plain { list_any is_user (listed bound.now.uses) ≡ false }
    requires free { AreFreeFor locks.old (listed bound.now.uses) unit }
    ensures taken { OnOk result (locks.new
        ≡ (if bound.now.recoverable then taken_all locks.old unit (listed bound.now.uses)
        else locks.old)) }
    ensures undone { IfOk result (λ were_free.
        let_go locks.new bound.now.uses were_free unit ≡ locks.old) }
    ensures err { OnErr result (locks.new ≡ locks.old) }
{
    if !bound.recoverable {
        return Ok(WereFree::none());
    }
    hold_all(locks, &bound.uses, unit)
}

impl UnitsCore {
    /// Returns a core with these files and queues, in which no unit has begun.
    pub(crate) fn new(alloc: Global, store: Store) -> UnitsCore
        ensures { core_value result ≡ record
            { stores = record { store = store; images = [] }; table = []; reads = [] } }
    {
        UnitsCore {
            store,
            rows: Vec::new(alloc),
            locks: Enqueues::new(alloc),
            reads: OpenReads::new(alloc),
            alloc,
        }
    }

    // Returns for READQ TD whether a unit owns the writing end of the queue, and so may read what
    // it wrote itself.
    fn reads_own(&self, unit: UnitId, op: &Op) -> bool
        ensures { IsOwn op.now (is_writer self.now.locks unit (queue_of op.now)) result }
    {
        let Op::TdRead { queue } = op else {
            return false;
        };
        match self.locks.holder_of(&ResourceRef::writing_end(*queue)) {
            Some(holder) => holder == unit,
            None => false,
        }
    }

    /// Looks up what a command of a unit uses, and whether it acts on something recoverable. For a
    /// command on temporary storage the argument `recoverable` says so; for others it is ignored.
    #[inline(always)]
    pub(crate) fn bind<'a>(&self, unit: UnitId, op: &'a Op, recoverable: bool) -> BoundOp<'a>
        requires fit { IsFitOp self.now.store op.now }
        requires short { length (key_of op.now) ≤ 255 }
        ensures op { result.op.now ≡ op.now }
        ensures bound { IsBoundFor (core_value self.now) unit result }
        ensures temp { is_temp op.now ≡ true → result.recoverable ≡ recoverable }
    {
        let recoverable = store::bind(&self.store, op, recoverable);
        BoundOp {
            op,
            recoverable,
            uses: uses_of(op, recoverable),
            own: self.reads_own(unit, op),
        }
    }

    /// Returns the blocker of a command, if any: a unit other than `asking` that owns something
    /// that conflicts with what the command uses. If none does, the writer of a LOGICAL queue
    /// blocks READQ TD, if the queue has no record that the acting unit may read.
    #[inline(always)]
    pub(crate) fn blocker(&self, asking: Option<UnitId>, bound: &BoundOp<'_>) -> Option<UnitId>
        ensures { (acting : ℕ) → IsBoundFor (core_value self.now) acting bound.now →
            result ≡ blocking_unit self.now.locks self.now.store.trans_data bound.now.recoverable
            asking acting bound.now.op.now }
    {
        // A copy for each call that takes the unit.
        let again = asking;
        if let Some(holder) = holder_over_all(&self.locks, &bound.uses, asking) {
            return Some(holder);
        }
        let Op::TdRead { queue: name } = bound.op else {
            return None;
        };
        let queue = self.store.trans_data.get(name)?;
        if !queue.recovery().is_logical() || queue.first(bound.own).is_some() {
            return None;
        }
        self.locks
            .holder_over(&ResourceRef::writing_end(*name), again)
    }

    /// Returns a copy, for the trace, of the record with which READ UPDATE or READQ TD would be
    /// answered now. READQ TD's may be one that the unit wrote itself. Other commands have None.
    #[inline(always)]
    pub(crate) fn given_record(&self, bound: &BoundOp<'_>) -> Result<Option<Record>, NoMemory>
        requires fit { IsFitOp self.now.store bound.now.op.now }
        ensures { IfOk result (λ given. given
            ≡ given_record self.now.store bound.now.own bound.now.op.now) }
    {
        match bound.op {
            Op::ReadUpdate { file, key } => copied(self.store.files.at(file).read(key.bytes())),
            Op::TdRead { queue } => copied(self.store.trans_data.at(queue).first(bound.own)),
            _ => Ok(None),
        }
    }

    // Returns whether a command covers an update read of its unit: whether it rewrites or deletes
    // the record of the read, which so ends.
    #[inline(always)]
    fn covers(&self, unit: UnitId, op: &Op) -> bool
        requires once { AreOnce self.now.reads }
        ensures { result ≡ list_any (covers unit op.now) self.now.reads }
    {
        match op {
            Op::Rewrite { file, key, .. } => self.reads.is_of_key(unit, file, key.bytes()),
            Op::Delete { file, key } => self.reads.is_of_key(unit, file, key.bytes()),
            Op::DeleteGeneric { file, prefix } => self.reads.is_under(unit, file, prefix.bytes()),
            _ => false,
        }
    }

    /// Ends a unit's update read of a file, if it has one, and releases its record if the file
    /// isn't recoverable.
    pub(crate) fn end_read(&mut self, unit: UnitId, file: &Name8, recoverable: bool)
        requires short { IfSome (read_at self.old.reads unit file.now) (λ key. length key ≤ 255) }
        ensures { self.new ≡ record self.old {
          locks = table_given_back recoverable unit file.now
              (read_at self.old.reads unit file.now) self.old.locks;
          reads = filter (λ r. not (is_read_of unit file.now r)) self.old.reads;
        } }
    {
        let Some(key) = self.reads.close(unit, file) else {
            return;
        };
        if !recoverable {
            self.locks
                .let_go(&ResourceRef::record(*file, key.bytes()), unit);
        }
    }

    // Ends the update read that a command covers, if any, as `end_read` does.
    #[inline(always)]
    fn end_covered(&mut self, unit: UnitId, op: &Op, recoverable: bool)
        requires short { All (λ r. length r.key ≤ 255) self.old.reads }
        requires once { AreOnce self.old.reads }
        ensures { self.new ≡ record self.old {
          locks = table_given_back recoverable unit (file_of op.now)
              (covered_read unit op.now self.old.reads) self.old.locks;
          reads = filter (λ r. not (covers unit op.now r)) self.old.reads;
        } }
    {
        if !self.covers(unit, op) {
            return;
        }
        if let Some((file, _)) = op.record() {
            self.end_read(unit, file, recoverable);
        }
    }

    // Acquires the record of a key and opens the unit's update read of it. On `NoMemory` does
    // neither.
    fn open_read(
        &mut self,
        unit: UnitId,
        file: Name8,
        key: &Record,
        uses: &Uses<'_>,
    ) -> Result<(), NoMemory>
        requires plain { list_any is_user (listed uses.now) ≡ false }
        requires free { AreFreeFor self.old.locks (listed uses.now) unit }
        requires none_open { read_at self.old.reads unit file ≡ None }
        ensures value { OnOk result (self.new ≡ record self.old {
          locks = taken_all self.old.locks unit (listed uses.now);
          reads = with_read (record { unit = unit; file = file; key = key.now }) self.old.reads;
        }) }
        ensures err { OnErr result (self.new ≡ self.old) }
    {
        let copy = key.copy()?;
        let were_free = hold_all(&mut self.locks, uses, unit)?;
        match self.reads.open(unit, file, copy) {
            Ok(()) => Ok(()),
            Err(refused) => {
                let_go_all(&mut self.locks, uses, unit, were_free);
                Err(refused)
            }
        }
    }

    /// Executes a command that nothing blocks, and returns its answer. Its unit may be the next to
    /// begin.
    ///
    /// READ UPDATE leaves the store as it is: if there is a record (`given`), it acquires that and
    /// opens the read. Every other command first gets room for its images, and acquires what it
    /// uses if that is recoverable. Then it is applied to the store, and the update read that it
    /// covers ends.
    ///
    /// If the answer isn't NORMAL, it releases what it acquired. So it does on `NoMemory`, which
    /// leaves nothing behind but room for images (`IsCoreAsBefore`).
    pub(crate) fn execute(
        &mut self,
        unit: UnitId,
        bound: &BoundOp<'_>,
        given: Option<&Record>,
    ) -> Result<Answer, NoMemory>
        requires fit { IsFitOp self.old.store bound.now.op.now }
        requires bound { IsBoundFor (core_value self.old) unit bound.now }
        requires seen { IsSeen self.old.store bound.now.op.now bound.now.own }
        requires given { option_copied given
            ≡ given_record self.old.store bound.now.own bound.now.op.now }
        requires begun { unit ≤ length self.old.rows.items }
        requires short { All (λ r. length r.key ≤ 255) self.old.reads }
        requires free { AreFreeFor self.old.locks (listed bound.now.uses) unit }
        requires once { AreOnce self.old.reads }
        requires none_open { is_read bound.now.op.now ≡ true →
            read_at self.old.reads unit (file_of bound.now.op.now) ≡ None }
        ensures executed { IfOk result (λ answer. IsExecuted (core_value self.old)
            (core_value self.new) unit bound.now.op.now bound.now.recoverable answer) }
        ensures err { OnErr result (IsCoreAsBefore (core_value self.old) (core_value self.new)) }
    {
        let most = most_images(&self.store, bound.op);
        reserve_images(&mut self.rows, self.alloc, unit, most)?;
        if let Op::ReadUpdate { file, key } = bound.op {
            let answer = store::found(copied(given)?);
            if given.is_none() {
                return Ok(answer);
            }
            self.open_read(unit, *file, key, &bound.uses)?;
            return Ok(answer);
        }
        let at = unit.number() as usize;
        let were_free = acquire(&mut self.locks, unit, bound)?;
        match store::apply(&mut self.store, bound, &mut self.rows[at]) {
            Ok(answer) => match answer.condition {
                Condition::Normal => {
                    self.end_covered(unit, bound.op, bound.recoverable);
                    Ok(answer)
                }
                _ => {
                    let_go_all(&mut self.locks, &bound.uses, unit, were_free);
                    Ok(answer)
                }
            },
            Err(refused) => {
                let_go_all(&mut self.locks, &bound.uses, unit, were_free);
                Err(refused)
            }
        }
    }
}
