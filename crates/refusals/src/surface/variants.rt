//! The promised types of the libraries: each variant and each field by its name, and each field
//! with its type. If one is added, removed or changed, this doesn't compile.

use arrayvec::ArrayVec;
use cics_browse::Browsed;
use cics_dispatch::{Command, Expired, Number, Outcome, Refused, Reply, Verb, Woken};
use cics_enqueue::{Resource, TakeFault, UnitId};
use cics_images::Changed;
use cics_ksds::{FileDef, FileImage, Removed};
use cics_names::{AbendCode, Condition, Items, Name4, Name8, NameFault, Record};
use cics_run::{Asked, Options, RunFault, Status};
use cics_script::{Line, LineFault};
use cics_tempstor::{TsImage, TsRead, TsWritten};
use cics_transdata::{Recovery, TdImage, TdRead};
use cics_units::{
    Answer, DefineFault, Done, Enqueued, Entry, Listing, Op, OpRef, TaskState, UnitState,
};

// Matches a value behind a reference: it has one of these variants, with fields of these types.
macro_rules! shape {
    ($value:expr; $($($name:ident)::+
        $({ $($field:ident: $type:ty),* $(,)? })? $(( $($part:ident: $kind:ty),* ))?);+ $(;)?) => {
        match $value {
            $($($name)::+ $({ $($field),* })? $(( $($part),* ))? => {
                $($(let _: &$type = $field;)*)?
                $($(let _: &$kind = $part;)*)?
            })+
        }
    };
}

// Items of files, of queues or of tasks, by name.
type Rows<N, K> = Items<(N, K, Items<Record>)>;

pub(super) fn name_fault(fault: NameFault) {
    shape!(&fault; NameFault::Empty; NameFault::TooLong; NameFault::BadCharacter)
}

pub(super) fn condition(condition: Condition) {
    shape!(&condition;
        Condition::Normal; Condition::Dsiderr; Condition::Notfnd; Condition::Duprec;
        Condition::Invreq; Condition::Endfile; Condition::Lengerr; Condition::Qzero;
        Condition::Qbusy; Condition::Itemerr; Condition::Qiderr; Condition::Enqbusy)
}

pub(super) fn abend_code(code: &AbendCode) {
    shape!(code; AbendCode(name: Name4))
}

pub(super) fn changed(changed: &Changed<FileImage>) {
    shape!(changed; Changed { condition: Condition, image: Option<FileImage> })
}

pub(super) fn file_def(definition: &FileDef) {
    shape!(definition;
        FileDef { key_length: u64, key_offset: u64, record_size: u64, recoverable: bool })
}

pub(super) fn removed(removed: &Removed) {
    shape!(removed; Removed { number: u64, images: Items<FileImage> })
}

pub(super) fn browsed(browsed: &Browsed) {
    shape!(browsed;
        Browsed { condition: Condition, key: Option<Record>, content: Option<Record> })
}

pub(super) fn ts_written(written: &TsWritten) {
    shape!(written; TsWritten { changed: Changed<TsImage>, number: Option<u64> })
}

pub(super) fn ts_read(read: &TsRead) {
    shape!(read;
        TsRead { condition: Condition, number: Option<u64>, content: Option<Record> })
}

pub(super) fn recovery(recovery: Recovery) {
    shape!(&recovery; Recovery::Logical; Recovery::Physical; Recovery::Unrecovered)
}

pub(super) fn td_read(read: &TdRead) {
    shape!(read; TdRead { changed: Changed<TdImage>, content: Option<Record> })
}

pub(super) fn resource(resource: &Resource) {
    shape!(resource;
        Resource::FileKey(file: Name8, key: ArrayVec<u8, 255>);
        Resource::TsQueue(queue: Name8);
        Resource::TdRead(queue: Name4);
        Resource::TdWrite(queue: Name4);
        Resource::User(value: ArrayVec<u8, 255>);
        Resource::FilePrefix(file: Name8, prefix: ArrayVec<u8, 255>))
}

pub(super) fn take_fault(fault: TakeFault) {
    shape!(&fault; TakeFault::NoMemory; TakeFault::Full)
}

pub(super) fn define_fault(fault: DefineFault) {
    shape!(&fault;
        DefineFault::Duplicate; DefineFault::BadKey; DefineFault::BadLength;
        DefineFault::NotThere; DefineFault::NoMemory)
}

pub(super) fn op(op: &Op) {
    shape!(op;
        Op::Write { file: Name8, key: Record, from: Record };
        Op::Rewrite { file: Name8, key: Record, from: Record };
        Op::Delete { file: Name8, key: Record };
        Op::ReadUpdate { file: Name8, key: Record };
        Op::TsWrite { queue: Name8, from: Record };
        Op::TsRewrite { queue: Name8, item: u64, from: Record };
        Op::TsDelete { queue: Name8 };
        Op::TdWrite { queue: Name4, from: Record };
        Op::TdRead { queue: Name4 };
        Op::TdDelete { queue: Name4 };
        Op::DeleteGeneric { file: Name8, prefix: Record })
}

pub(super) fn done(done: &Done) {
    shape!(done; Done::Answered(unit: UnitId, answer: Answer); Done::MustWait(unit: UnitId))
}

pub(super) fn answer(answer: &Answer) {
    shape!(answer;
        Answer { condition: Condition, content: Option<Record>, number: Option<u64> })
}

pub(super) fn enqueued(enqueued: &Enqueued) {
    shape!(enqueued;
        Enqueued::Taken(unit: UnitId); Enqueued::MustWait(unit: UnitId); Enqueued::CountFull)
}

// The fields of an entry are calls.
pub(super) fn entry(entry: &Entry) {
    let _: UnitId = entry.unit();
    let _: OpRef<'_> = entry.op();
    let _: Condition = entry.condition();
    let _: Option<&Record> = entry.content();
    let _: Option<u64> = entry.number();
}

pub(super) fn unit_state(state: UnitState) {
    shape!(&state; UnitState::Open; UnitState::Committed; UnitState::BackedOut)
}

pub(super) fn listing(listing: &Listing) {
    shape!(listing;
        Listing { files: Rows<Name8, bool>, ts: Rows<Name8, bool>, td: Rows<Name4, Recovery>,
            tasks: Items<(Name8, TaskState)> });
    for (_, state) in listing.tasks.as_slice() {
        shape!(state; TaskState::Idle; TaskState::HasUnit; TaskState::IsWaiting)
    }
}

pub(super) fn outcome(outcome: &Outcome) {
    shape!(outcome;
        Outcome::Replied(reply: Reply);
        Outcome::Waiting(label: Name8);
        Outcome::Abended(code: AbendCode, reply: Option<Reply>);
        Outcome::Ended);
    if let Outcome::Replied(told) = outcome {
        reply(told);
    }
}

fn reply(reply: &Reply) {
    shape!(reply;
        Reply { condition: Condition, key: Option<Record>, content: Option<Record>,
            number: Option<Number> });
    if let Some(number) = &reply.number {
        shape!(number; Number::Item(item: u64); Number::Numrec(records: u64))
    }
}

pub(super) fn woken(woken: &Woken) {
    shape!(woken; Woken { label: Name8, outcome: Outcome })
}

pub(super) fn expired(expired: &Expired) {
    shape!(expired; Expired { label: Name8, code: AbendCode })
}

pub(super) fn refused(fault: Refused) {
    shape!(&fault;
        Refused::NoMemory; Refused::NoTask; Refused::TaskWaiting; Refused::TaskEnded;
        Refused::DuplicateLabel; Refused::ClockBack; Refused::RegionDown)
}

pub(super) fn command(command: &Command) {
    shape!(command; Command { verb: Verb, resp: bool });
    verb(&command.verb)
}

fn verb(verb: &Verb) {
    shape!(verb;
        Verb::Read { file: Name8, ridfld: Record, key_length: Option<u64>, length: Option<u64>,
            generic: bool, gteq: bool, update: bool };
        Verb::Write { file: Name8, ridfld: Record, key_length: Option<u64>, from: Record,
            length: Option<u64> };
        Verb::Rewrite { file: Name8, from: Record, length: Option<u64> };
        Verb::Delete { file: Name8, ridfld: Option<Record>, key_length: Option<u64>,
            generic: bool };
        Verb::Unlock { file: Name8 };
        Verb::StartBr { file: Name8, ridfld: Record, key_length: Option<u64>, generic: bool,
            equal: bool };
        Verb::ResetBr { file: Name8, ridfld: Record, key_length: Option<u64>, generic: bool,
            equal: bool };
        Verb::ReadNext { file: Name8, length: Option<u64> };
        Verb::ReadPrev { file: Name8, length: Option<u64> };
        Verb::EndBr { file: Name8 };
        Verb::WriteqTs { queue: Name8, from: Record, length: Option<u64>, item: Option<u64> };
        Verb::ReadqTs { queue: Name8, length: Option<u64>, item: Option<u64> };
        Verb::DeleteqTs { queue: Name8 };
        Verb::WriteqTd { queue: Name4, from: Record, length: Option<u64> };
        Verb::ReadqTd { queue: Name4, length: Option<u64>, nosuspend: bool };
        Verb::DeleteqTd { queue: Name4 };
        Verb::Enq { resource: Record, length: u64, nosuspend: bool };
        Verb::Deq { resource: Record, length: u64 };
        Verb::Syncpoint;
        Verb::Rollback;
        Verb::Return;
        Verb::Abend { code: Option<Name4> })
}

pub(super) fn line(line: &Line) {
    shape!(line;
        Line::Blank;
        Line::DefineFile(name: Name8, definition: FileDef);
        Line::DefineTsPrefix(prefix: Name8);
        Line::DefineTd(name: Name4, recovery: Recovery);
        Line::LoadFile(name: Name8, content: Record);
        Line::LoadTd(name: Name4, content: Record);
        Line::Attach(label: Name8, transaction: Name4, dtimout: u64);
        Line::Clock(now: u64);
        Line::Issue(label: Name8, command: Command);
        Line::Shutdown)
}

pub(super) fn line_fault(fault: LineFault) {
    shape!(&fault;
        LineFault::TooLong; LineFault::NotAscii; LineFault::UnknownWord; LineFault::BadLiteral;
        LineFault::BadNumber; LineFault::MissingOption; LineFault::DoubledOption;
        LineFault::OptionNotHere; LineFault::DefineTooLate; LineFault::NoMemory)
}

pub(super) fn options(options: &Options) {
    shape!(options; Options { replay: bool, no_list: bool })
}

pub(super) fn ran(ran: &Result<Status, RunFault>) {
    match ran {
        Ok(status) => shape!(status; Status::Done; Status::LineFault),
        Err(fault) => shape!(fault;
            RunFault::NoMemory; RunFault::ReadFault; RunFault::WriteFault;
            RunFault::InputTooLong),
    }
}

pub(super) fn asked(asked: &Asked) {
    shape!(asked;
        Asked::Run(options: Options);
        Asked::Help(text: String);
        Asked::Bad(text: String))
}
