//! Scripts on units of work: a command of the label U0 is a call for unit 0, one of NEW for a task
//! without a unit. A command of H0 or HNEW goes through `submit`.

use crate::events::Event;
use crate::guards::{is_open, is_open_or_none, is_ready};
use crate::runs::{Target, Tried};
use crate::states::{push_listed, push_units};
use cics_dispatch::{Number, Outcome, Reply};
use cics_history::UnitId;
use cics_names::{Condition, Name8, NoMemory, Record, Verb};
use cics_run::stage::journal::push_outcome;
use cics_script::Line;
use cics_script::spelling::{Part, push_parts, push_str};
use cics_units::{Answer, Done, Enqueued, Listing, Op, Opening, Submitted, Units, plain_replay};
use std::alloc::Global;

// The length of the keys of each file: a record begins with its key.
const KEY_LENGTH: usize = 4;

// The codes of the digit 0 and of the letter H.
const ZERO: u8 = 0xF0;

const H: u8 = 0xC8;

// The unit of a label, by the digit that stands second in it; None for a task without a unit.
fn unit_of(label: &Name8) -> Option<UnitId> {
    let digit = label.bytes()[1].checked_sub(ZERO)?;
    Some(UnitId::new(u64::from(digit)))
}

// The label of a unit, by the last digit of its number.
fn label_of(unit: UnitId) -> Result<Name8, NoMemory> {
    match Name8::new(&[b'U', b'0' + (unit.number() % 10) as u8]) {
        Ok(label) => Ok(label),
        Err(_) => Err(NoMemory),
    }
}

// The updating command on a queue that is asked for, if one is.
fn queue_op(verb: &Verb) -> Result<Option<Op>, NoMemory> {
    let op = match verb {
        Verb::WriteqTs {
            queue,
            from,
            item,
            ..
        } => {
            let (queue, from) = (*queue, from.copy()?);
            match *item {
                Some(item) => Op::TsRewrite { queue, item, from },
                None => Op::TsWrite { queue, from },
            }
        }
        Verb::DeleteqTs { queue } => Op::TsDelete { queue: *queue },
        Verb::WriteqTd { queue, from, .. } => Op::TdWrite {
            queue: *queue,
            from: from.copy()?,
        },
        Verb::ReadqTd { queue, .. } => Op::TdRead { queue: *queue },
        Verb::DeleteqTd { queue } => Op::TdDelete { queue: *queue },
        _ => return Ok(None),
    };
    Ok(Some(op))
}

// A rewrite of the record that has the key of this one.
fn rewrite_of(alloc: Global, file: Name8, from: &Record) -> Result<Op, NoMemory> {
    let key = &from.bytes()[..from.len().min(KEY_LENGTH)];
    Ok(Op::Rewrite {
        file,
        key: Record::from_slice(alloc, key)?,
        from: from.copy()?,
    })
}

// The updating command that is asked for, if one is.
fn op_of(alloc: Global, verb: &Verb) -> Result<Option<Op>, NoMemory> {
    let op = match verb {
        Verb::Read {
            file,
            ridfld,
            update: true,
            ..
        } => Op::ReadUpdate {
            file: *file,
            key: ridfld.copy()?,
        },
        Verb::Write {
            file,
            ridfld,
            from,
            ..
        } => Op::Write {
            file: *file,
            key: ridfld.copy()?,
            from: from.copy()?,
        },
        Verb::Rewrite { file, from, .. } => rewrite_of(alloc, *file, from)?,
        Verb::Delete {
            file,
            ridfld: Some(key),
            generic,
            ..
        } => {
            let (file, key) = (*file, key.copy()?);
            if *generic {
                Op::DeleteGeneric { file, prefix: key }
            } else {
                Op::Delete { file, key }
            }
        }
        _ => return queue_op(verb),
    };
    Ok(Some(op))
}

// Executes a command for the task of a label, or hands it over; None if that may not be done.
fn run_op(units: &mut Units, label: &Name8, op: Op) -> Result<Option<Done>, NoMemory> {
    let unit = unit_of(label);
    if !is_open_or_none(units, unit) || !is_ready(units, unit, &op) {
        return Ok(None);
    }
    if label.bytes()[0] != H {
        return Ok(Some(units.execute(unit, &op)?));
    }
    Ok(Some(match units.submit(unit, op)? {
        Submitted::Answered(unit, answer) => Done::Answered(unit, answer),
        Submitted::MustWait(blocker, _back) => Done::MustWait(blocker),
    }))
}

// An answer that is this condition, and nothing else.
fn only(condition: Condition) -> Answer {
    Answer {
        condition,
        content: None,
        number: None,
    }
}

// Enqueues on a value for a task; None if that may not be done.
fn run_enq(
    units: &mut Units,
    unit: Option<UnitId>,
    value: &[u8],
) -> Result<Option<Done>, NoMemory> {
    if value.len() > 255 || !is_open_or_none(units, unit) {
        return Ok(None);
    }
    Ok(match (units.enq(unit, value)?, unit) {
        (Enqueued::Taken(unit), _) => Some(Done::Answered(unit, only(Condition::Normal))),
        (Enqueued::MustWait(blocker), _) => Some(Done::MustWait(blocker)),
        (Enqueued::CountFull, Some(unit)) => Some(Done::Answered(unit, only(Condition::Invreq))),
        (Enqueued::CountFull, None) => None,
    })
}

// Makes the call that takes no memory, if the command of a unit asks for one and it may be made.
fn run_ending(units: &mut Units, unit: Option<UnitId>, verb: &Verb) -> Option<Done> {
    let unit = unit?;
    if !is_open(units, unit) {
        return None;
    }
    match verb {
        Verb::Unlock { file } => units.unlock(unit, file),
        Verb::Deq { resource, .. } if resource.len() <= 255 => units.deq(unit, resource.bytes()),
        Verb::Syncpoint => units.commit(unit),
        Verb::Rollback | Verb::Abend { .. } => units.back_out(unit),
        _ => return None,
    }
    Some(Done::Answered(unit, only(Condition::Normal)))
}

// Puts at the end that the task of a label was answered so. Only DELETE counts records.
fn push_answer(
    out: &mut Vec<u8>,
    label: Name8,
    answer: Answer,
    counts_records: bool,
) -> Result<(), NoMemory> {
    let number = match answer.number {
        Some(records) if counts_records => Some(Number::Numrec(records)),
        Some(item) => Some(Number::Item(item)),
        None => None,
    };
    let reply = Reply {
        condition: answer.condition,
        key: None,
        content: answer.content,
        number,
    };
    push_outcome(out, label, &Outcome::Replied(reply))
}

// Puts at the end what the task of a label was answered, or the unit that it has to wait for.
fn push_done(
    out: &mut Vec<u8>,
    label: Name8,
    done: Done,
    counts_records: bool,
) -> Result<(), NoMemory> {
    match done {
        Done::Answered(unit, answer) => push_answer(out, label_of(unit)?, answer, counts_records),
        Done::MustWait(blocker) => push_outcome(out, label, &Outcome::Waiting(label_of(blocker)?)),
    }
}

// Makes the call that a command of the task of a label asks for, if it may be made.
fn run_command(
    units: &mut Units,
    label: &Name8,
    verb: &Verb,
    out: &mut Vec<u8>,
) -> Result<(), NoMemory> {
    let done = match verb {
        Verb::ReadqTs { queue, item, .. } => {
            let answer = units.read_ts(queue, *item)?;
            return push_answer(out, *label, answer, false);
        }
        Verb::Enq { resource, .. } => run_enq(units, unit_of(label), resource.bytes())?,
        _ => {
            match op_of(units.opening().allocator(), verb)? {
                Some(op) => run_op(units, label, op)?,
                None => run_ending(units, unit_of(label), verb),
            }
        }
    };
    match done {
        Some(done) => push_done(out, *label, done, matches!(verb, Verb::Delete { .. })),
        None => push_str(out, "may not\n"),
    }
}

// What a plain replay of units lists.
fn replayed(units: &Units) -> Result<Listing, NoMemory> {
    let opening = units.opening();
    plain_replay(
        opening.allocator(),
        opening,
        units.trace(),
        units.outcomes(),
    )
}

// Puts at the end how many control intervals the files of units have.
fn push_intervals(out: &mut Vec<u8>, units: &Units) -> Result<(), NoMemory> {
    let mut count: u64 = 0;
    for (name, _, _) in units.listing()?.files.as_slice() {
        if let Some(file) = units.file(name) {
            count = count.saturating_add(file.interval_count());
        }
    }
    push_parts(out, &[Part::Number(count), Part::Str(" intervals\n")])
}

impl Tried for Units {
    fn happen(&mut self, event: Event, out: &mut Vec<u8>) -> Result<(), NoMemory> {
        match &event {
            Event::Line(Line::Issue(label, command)) => {
                run_command(self, label, &command.verb, out)
            }
            Event::Listing => push_listed(out, self.listing()),
            Event::Replay => push_listed(out, replayed(self)),
            Event::Intervals => push_intervals(out, self),
            _ => Ok(()),
        }
    }

    fn push_state(&self, out: &mut Vec<u8>) -> Result<(), NoMemory> {
        push_units(out, self, &self.listing()?)
    }
}

impl Target for Units {
    fn start(opening: Opening) -> Result<Units, Opening> {
        Units::start(opening)
    }

    fn free_tasks(&self, alloc: Global) -> Result<Vec<Name8>, NoMemory> {
        let mut free = Vec::new(alloc);
        for number in 0..self.outcomes().len() as u64 {
            let unit = UnitId::new(number);
            if is_open(self, unit) {
                free.push(label_of(unit)?)?;
            }
        }
        Ok(free)
    }
}
