//! Makes each promised call of the libraries, one library after the other. The types of arguments
//! and results are written out: if a name, an argument or a result changes, this doesn't compile.
//! `variants` has the same for the fields and variants of types.
//!
//! A function returns None if memory is refused, or if a call isn't answered as it has to be.

ghost use Rattle.std.specs.Prelude.{◌≡◌, IfSome};

mod variants;

use crate::guards::is_open;
use arrayvec::ArrayVec;
use cics_browse::{Browse, Browsed};
use cics_dispatch::{Command, Expired, Outcome, Refused, Region, Verb, Woken};
use cics_enqueue::{Enqueues, Resource, TakeFault, UnitId};
use cics_images::{Changed, Images, Undoable};
use cics_ksds::{File, FileDef, FileImage, Ordered, Removed};
use cics_names::{
    AbendCode, Condition, Items, Name4, Name8, NameFault, NoMemory, Record, from_ebcdic, to_ebcdic,
};
use cics_run::{Asked, Options, RunFault, Status, arguments, exit_status, run};
use cics_script::{Line, LineFault, read_line};
use cics_tempstor::{TempStore, TsImage, TsRead, TsWritten};
use cics_transdata::{Recovery, TdImage, TdRead, TransQueue};
use cics_units::{
    Answer, DefineFault, Done, Enqueued, Entry, Listing, Op, Opening, UnitState, Units,
    plain_replay,
};
use std::alloc::Global;
use std::hash::Hash;
use std::io::{Read, Write};

// A key, and the first bytes of it.
const KEY: &[u8] = b"0001";

const PREFIX: &[u8] = b"00";

// A user's value.
const VALUE: &[u8] = b"value";

// A recoverable file, whose keys are the first four bytes of its records.
const DEFINITION: FileDef = FileDef {
    key_length: 4,
    key_offset: 0,
    record_size: 80,
    recoverable: true,
};

fn name8(text: &[u8]) -> Option<Name8> {
    Name8::new(text).ok()
}

fn name4(text: &[u8]) -> Option<Name4> {
    Name4::new(text).ok()
}

fn record(alloc: Global, bytes: &[u8]) -> Option<Record>
    ensures { IfSome result (λ made. made ≡ bytes.now) }
{
    Record::from_slice(alloc, bytes).ok()
}

// Takes a name, which is copied, compared, ordered and hashed.
fn named<N: Copy + Ord + Hash>(_name: N) {}

// Takes a number, which is copied and compared.
fn numbered<N: Copy + Eq>(_number: N) {}

fn call_names() -> Option<()> {
    let code: Option<u8> = to_ebcdic('A');
    let _: Option<char> = from_ebcdic(code?);
    let long: Result<Name8, NameFault> = Name8::new(b"ACCT");
    let long = long.ok()?;
    let _: [u8; 8] = long.bytes();
    named::<Name8>(long);
    let short: Result<Name4, NameFault> = Name4::new(b"LOGA");
    let short = short.ok()?;
    let _: [u8; 4] = short.bytes();
    named::<Name4>(short);
    let none: Result<Name8, NameFault> = Name8::new(b"");
    variants::name_fault(none.err()?);
    Some(())
}

fn call_conditions() -> Option<()> {
    let _: u64 = Condition::Notfnd.number();
    let _: &'static str = Condition::Notfnd.name();
    let code: Option<AbendCode> = Condition::Notfnd.default_abend();
    variants::condition(Condition::Notfnd);
    variants::abend_code(&code?);
    Some(())
}

fn call_records(alloc: Global) -> Option<()> {
    let bytes: Vec<u8> = Vec::new(alloc);
    let record: Record = Record::new(bytes);
    let _: &[u8] = record.bytes();
    let copy: Result<Record, NoMemory> = record.copy();
    let is_same: bool = record == copy.ok()?;
    is_same.then_some(())
}

fn call_undo<M: Undoable>(target: &mut M, image: M::Image)
    requires { M.IsReady target.old image }
{
    let () = target.undo(image);
}

fn call_settle<M: Undoable>(target: &mut M, image: M::Image) {
    let () = target.settle(image);
}

fn call_images(alloc: Global) -> Option<()> {
    let mut file = File::new(alloc, DEFINITION);
    let written = file.write(record(alloc, b"0001aa")?, true).ok()?;
    let mut images: Images<File> = Images::new(alloc);
    let made: Result<(), NoMemory> = images.make_room();
    made.ok()?;
    let () = images.store(written.image?);
    let () = images.back_out(&mut file);
    let () = images.forget(&mut file);
    Some(())
}

fn call_file(alloc: Global) -> Option<()> {
    let mut file: File = File::new(alloc, DEFINITION);
    let definition: FileDef = file.definition();
    variants::file_def(&definition);
    let _: Option<&Record> = file.read(KEY);
    let _: Option<&Record> = file.first_from(KEY, false);
    let _: Option<&Record> = file.last_to(KEY, false);
    let content = record(alloc, b"0001aa")?;
    let written: Result<Changed<FileImage>, NoMemory> = file.write(content, true);
    written.ok()?;
    let content = record(alloc, b"0001bb")?;
    let rewritten: Changed<FileImage> = file.rewrite(content, true);
    call_undo::<File>(&mut file, rewritten.image?);
    let deleted: Result<Changed<FileImage>, NoMemory> = file.delete(KEY, true);
    let deleted: Changed<FileImage> = deleted.ok()?;
    variants::changed(&deleted);
    call_settle::<File>(&mut file, deleted.image?);
    let () = file.sweep(KEY);
    let listing: Result<Items<Record>, NoMemory> = file.listing();
    listing.ok()?;
    let _: u64 = file.interval_count();
    let _: u64 = file.count_prefix(PREFIX);
    let removed: Result<Removed, NoMemory> = file.delete_prefix(PREFIX, true);
    variants::removed(&removed.ok()?);
    call_ordered::<File>(&file);
    Some(())
}

fn call_ordered<F: Ordered>(file: &F) {
    let _: FileDef = file.definition();
    let _: Option<&Record> = file.first_from(KEY, false);
    let _: Option<&Record> = file.last_to(KEY, false);
}

fn call_browse(alloc: Global) -> Option<()> {
    let mut file = File::new(alloc, DEFINITION);
    file.write(record(alloc, b"0001aa")?, false).ok()?;
    call_browse_of::<File>(alloc, &file)
}

fn call_browse_of<F: Ordered>(alloc: Global, file: &F) -> Option<()> {
    let key: Record = record(alloc, KEY)?;
    let started: Option<Browse> = Browse::start(file, key, false, true);
    let mut browse = started?;
    let next: Result<Browsed, NoMemory> = browse.next(file);
    variants::browsed(&next.ok()?);
    let prev: Result<Browsed, NoMemory> = browse.prev(file);
    prev.ok()?;
    let key: Record = record(alloc, KEY)?;
    let _: Condition = browse.reset(file, key, false, true);
    Some(())
}

fn call_temp_storage(alloc: Global) -> Option<()> {
    let name = name8(b"PAY")?;
    let mut store: TempStore = TempStore::new(alloc);
    let item = record(alloc, b"one")?;
    let written: Result<TsWritten, NoMemory> = store.write(name, item, true);
    variants::ts_written(&written.ok()?);
    let item = record(alloc, b"uno")?;
    let rewritten: Result<TsWritten, NoMemory> = store.rewrite(&name, 1_u64, item, true);
    call_settle::<TempStore>(&mut store, rewritten.ok()?.changed.image?);
    let deleted: Changed<TsImage> = store.delete(&name, true);
    call_undo::<TempStore>(&mut store, deleted.image?);
    let read: Result<TsRead, NoMemory> = store.read_item(&name, 1_u64);
    variants::ts_read(&read.ok()?);
    let read: Result<TsRead, NoMemory> = store.read_next(&name);
    read.ok()?;
    let _: u16 = store.next_place(&name);
    let () = store.sweep(&name);
    let listing: Result<Items<(Name8, Items<Record>)>, NoMemory> = store.listing();
    listing.ok()?;
    Some(())
}

fn call_transient_data(alloc: Global) -> Option<()> {
    variants::recovery(Recovery::Logical);
    let mut queue: TransQueue = TransQueue::new(alloc, Recovery::Logical);
    let _: Option<&Record> = queue.first(true);
    let content = record(alloc, b"one")?;
    let written: Result<Changed<TdImage>, NoMemory> = queue.write(content);
    call_settle::<TransQueue>(&mut queue, written.ok()?.image?);
    let read: Result<TdRead, NoMemory> = queue.read(true);
    variants::td_read(&read.ok()?);
    let deleted: Changed<TdImage> = queue.delete();
    call_undo::<TransQueue>(&mut queue, deleted.image?);
    let _: bool = queue.committed_empty();
    let () = queue.commit_reader();
    let () = queue.commit_writer();
    let listing: Result<Items<Record>, NoMemory> = queue.listing();
    listing.ok()?;
    Some(())
}

fn call_enqueues(alloc: Global) -> Option<()> {
    let unit: UnitId = UnitId::new(0_u64);
    let _: u64 = unit.number();
    numbered::<UnitId>(unit);
    let value = Resource::User(ArrayVec::new());
    variants::resource(&value);
    let mut table: Enqueues = Enqueues::new(alloc);
    let _: Option<UnitId> = table.holder(&value);
    let _: u16 = table.count(&value);
    let taken: Result<(), TakeFault> = table.take(Resource::User(ArrayVec::new()), unit);
    taken.map_err(variants::take_fault).ok()?;
    let () = table.give_back(&value, unit);
    let () = table.release_all(unit);
    let file = name8(b"ACCT")?;
    let _: Option<UnitId> = table.held_with_prefix(file, PREFIX, Some(unit));
    Some(())
}

fn call_opening(alloc: Global) -> Option<Opening> {
    let file = name8(b"ACCT")?;
    let queue = name4(b"LOGA")?;
    let prefix = name8(b"PAY")?;
    let mut opening: Opening = Opening::new(alloc);
    let file_defined: Result<(), DefineFault> = opening.define_file(file, DEFINITION);
    let prefix_defined: Result<(), DefineFault> = opening.define_ts_prefix(prefix);
    let queue_defined: Result<(), DefineFault> = opening.define_td(queue, Recovery::Logical);
    let content = record(alloc, b"0001aa")?;
    let file_loaded: Result<(), DefineFault> = opening.load_file(file, content);
    let content = record(alloc, b"one")?;
    let queue_loaded: Result<(), DefineFault> = opening.load_td(queue, content);
    file_defined.map_err(variants::define_fault).ok()?;
    prefix_defined.ok()?;
    queue_defined.ok()?;
    file_loaded.ok()?;
    queue_loaded.ok()?;
    Some(opening)
}

// Executes a command for a unit that begins with it, and returns the unit.
fn call_execute(alloc: Global, units: &mut Units) -> Option<UnitId> {
    let op = Op::TsWrite {
        queue: name8(b"PAY")?,
        from: record(alloc, b"one")?,
    };
    variants::op(&op);
    let new: Option<UnitId> = None;
    let done: Result<Done, NoMemory> = units.execute(new, &op);
    let done = done.ok()?;
    variants::done(&done);
    match done {
        Done::Answered(unit, answer) => {
            variants::answer(&answer);
            Some(unit)
        }
        Done::MustWait(_) => None,
    }
}

// Enqueues on a value for a unit that begins with it, and returns the unit.
fn call_enq(units: &mut Units) -> Option<UnitId> {
    let new: Option<UnitId> = None;
    let enqueued: Result<Enqueued, NoMemory> = units.enq(new, VALUE);
    let enqueued = enqueued.ok()?;
    variants::enqueued(&enqueued);
    match enqueued {
        Enqueued::Taken(unit) => Some(unit),
        _ => None,
    }
}

// Ends two open units, the first by a commit.
fn call_ends(units: &mut Units, first: UnitId, second: UnitId) -> Option<()> {
    let file = name8(b"ACCT")?;
    if !is_open(units, second) {
        return None;
    }
    let () = units.deq(second, VALUE);
    let () = units.unlock(second, &file);
    let _: Option<&[u8]> = units.open_read(second, &file);
    if !is_open(units, first) {
        return None;
    }
    let () = units.commit(first);
    if !is_open(units, second) {
        return None;
    }
    let () = units.back_out(second);
    Some(())
}

fn call_reads(units: &mut Units) -> Option<()> {
    let file = name8(b"ACCT")?;
    let queue = name4(b"LOGA")?;
    let _: Option<&File> = units.file(&file);
    let _: Option<Recovery> = units.td_recovery(&queue);
    let queue = name8(b"PAY")?;
    let read: Result<Answer, NoMemory> = units.read_ts(&queue, Some(1_u64));
    read.ok()?;
    let _: u16 = units.next_place(&queue);
    Some(())
}

// An entry of any command and any answer: no READQ TD of a region is answered with a number.
fn call_entry(alloc: Global, unit: UnitId) -> Option<()> {
    let op = Op::TdRead {
        queue: name4(b"LOGA")?,
    };
    let answer = Answer {
        condition: Condition::Endfile,
        content: Some(record(alloc, b"one")?),
        number: Some(7_u64),
    };
    let made: Result<Entry, NoMemory> = Entry::new(alloc, unit, op, answer);
    let entry = made.ok()?;
    variants::entry(&entry);
    (entry.number() == Some(7_u64)).then_some(())
}

fn call_history(alloc: Global, units: &Units, unit: UnitId) -> Option<()> {
    let opening: &Opening = units.opening();
    call_entry(alloc, unit)?;
    let trace: &[Entry] = units.trace();
    variants::entry(trace.first()?);
    if unit.number() >= units.outcomes().len() as u64 {
        return None;
    }
    let outcome: UnitState = units.outcome(unit);
    variants::unit_state(outcome);
    let outcomes: &[UnitState] = units.outcomes();
    let listing: Result<Listing, NoMemory> = units.listing();
    variants::listing(&listing.ok()?);
    let replayed: Result<Listing, NoMemory> = plain_replay(alloc, opening, trace, outcomes);
    replayed.ok()?;
    Some(())
}

fn call_units(alloc: Global) -> Option<()> {
    let started: Result<Units, Opening> = Units::start(call_opening(alloc)?);
    let mut units = started.ok()?;
    let first = call_execute(alloc, &mut units)?;
    let second = call_enq(&mut units)?;
    call_ends(&mut units, first, second)?;
    call_reads(&mut units)?;
    call_history(alloc, &units, first)
}

fn call_region(alloc: Global) -> Option<()> {
    let started: Result<Region, Opening> = Region::new(call_opening(alloc)?);
    let mut region = started.ok()?;
    let label = name8(b"T1")?;
    let transaction = name4(b"PURG")?;
    let attached: Result<(), Refused> = region.attach(label, transaction, 30_u64);
    attached.map_err(variants::refused).ok()?;
    let command = Command {
        verb: Verb::Syncpoint,
        resp: true,
    };
    variants::command(&command);
    let issued: Result<Outcome, Refused> = region.issue(label, command);
    variants::outcome(&issued.ok()?);
    let woken: Result<Option<Woken>, Refused> = region.wake();
    if let Some(woken) = woken.ok()? {
        variants::woken(&woken);
    }
    let set: Result<(), Refused> = region.set_clock(30_u64);
    set.ok()?;
    let expired: Option<Expired> = region.expire();
    if let Some(expired) = expired {
        variants::expired(&expired);
    }
    call_listings(&region)?;
    let down: Result<u64, Refused> = region.shutdown();
    down.ok()?;
    Some(())
}

fn call_listings(region: &Region) -> Option<()> {
    let listing: Result<Listing, NoMemory> = region.listing();
    variants::listing(&listing.ok()?);
    let replayed: Result<Listing, NoMemory> = region.replayed();
    replayed.ok()?;
    let _: &Units = region.units();
    Some(())
}

fn call_script(alloc: Global) -> Option<()> {
    let line: Result<Line, LineFault> = read_line(alloc, b"CLOCK 1");
    variants::line(&line.ok()?);
    let fault: Result<Line, LineFault> = read_line(alloc, b"CLOCK");
    variants::line_fault(fault.err()?);
    Some(())
}

fn call_run_of<R: Read, W: Write>(
    alloc: Global,
    reader: &mut R,
    writer: &mut W,
    options: Options,
) -> Result<Status, RunFault> {
    run(alloc, reader, writer, options)
}

fn call_run(alloc: Global) -> Option<()> {
    let mut script: &[u8] = b"CLOCK 1";
    let mut journal: Vec<u8> = Vec::new(alloc);
    let options = Options {
        replay: false,
        no_list: true,
    };
    variants::options(&options);
    let ran = call_run_of::<&[u8], Vec<u8>>(alloc, &mut script, &mut journal, options);
    variants::ran(&ran);
    call_arguments(alloc)?;
    let status: u8 = exit_status(&ran);
    (status == 0).then_some(())
}

fn call_arguments(alloc: Global) -> Option<()> {
    let mut words: Vec<String> = Vec::new(alloc);
    words.push("cicsrun".to_string(alloc).ok()?).ok()?;
    let asked: Result<Asked, NoMemory> = arguments(alloc, words);
    variants::asked(&asked.ok()?);
    Some(())
}

/// Makes each promised call.
pub(crate) fn call_all(alloc: Global) -> Option<()> {
    call_names()?;
    call_conditions()?;
    call_records(alloc)?;
    call_images(alloc)?;
    call_file(alloc)?;
    call_browse(alloc)?;
    call_temp_storage(alloc)?;
    call_transient_data(alloc)?;
    call_enqueues(alloc)?;
    call_units(alloc)?;
    call_region(alloc)?;
    call_script(alloc)?;
    call_run(alloc)
}
