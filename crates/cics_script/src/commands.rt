//! Makes a command of its word and the options that were read.
//!
//! A `CommandWord` is the word alone. A `Verb` has what the options give, too. A `Command` is a
//! verb, and whether its conditions are handled. `read_verb` makes the verb of READ, and so on.

ghost use Rattle.std.specs.Prelude.{◌≡◌, ◌||◌, Ok};
ghost use Rattle.cics_script.specs.Faults.{Reads};
ghost use Rattle.cics_script.specs.Views.{entries};
ghost use Rattle.cics_script.specs.Values.{name8_at, needed};
ghost use Rattle.cics_script.specs.Commands.{keyed_in, enqueued_in, needs_key};
ghost use Rattle.cics_script.specs.Commands.{replaced_in, verb_in, is_handled};

use crate::faults::LineFault;
use crate::options::{Found, has_option};
use crate::values::{
    name4_of, name8_of, needed, needed_number_of, number_of, optional_text_of, text_of,
};
use crate::words::{CommandWord, OptionWord};
use cics_names::{Name8, Record, Verb};
use std::alloc::Global;

/// Returns whether a command's conditions are handled: it has RESP or NOHANDLE.
pub fn is_handled(found: &[Found<'_>]) -> bool
    ensures { result ≡ is_handled (entries found.now) }
{
    has_option(found, OptionWord::Resp) || has_option(found, OptionWord::NoHandle)
}

// Returns the file of a command.
fn file_of(found: &[Found<'_>]) -> Result<Name8, LineFault>
    ensures { result ≡ needed (name8_at OptionWord.File (entries found.now)) Ok }
{
    needed(name8_of(found, OptionWord::File))
}

// Returns the file of a command, and its key.
fn keyed(alloc: Global, found: &[Found<'_>]) -> Result<(Name8, Record), LineFault>
    ensures { Reads (keyed_in (entries found.now)) result }
{
    let file = file_of(found)?;
    let ridfld = text_of(alloc, found, OptionWord::Ridfld)?;
    Ok((file, ridfld))
}

// Returns the value that ENQ acquires or DEQ releases, and how many of its bytes count.
fn enqueued(alloc: Global, found: &[Found<'_>]) -> Result<(Record, u64), LineFault>
    ensures { Reads (enqueued_in (entries found.now)) result }
{
    let resource = text_of(alloc, found, OptionWord::Resource)?;
    let length = needed(number_of(found, OptionWord::Length))?;
    Ok((resource, length))
}

fn read_verb(alloc: Global, found: &[Found<'_>]) -> Result<Verb, LineFault>
    ensures { Reads (verb_in CommandWord.Read (entries found.now)) result }
{
    let (file, ridfld) = keyed(alloc, found)?;
    Ok(Verb::Read {
        file,
        ridfld,
        key_length: number_of(found, OptionWord::KeyLength),
        length: number_of(found, OptionWord::Length),
        generic: has_option(found, OptionWord::Generic),
        gteq: has_option(found, OptionWord::Gteq),
        update: has_option(found, OptionWord::Update),
    })
}

fn write_verb(alloc: Global, found: &[Found<'_>]) -> Result<Verb, LineFault>
    ensures { Reads (verb_in CommandWord.Write (entries found.now)) result }
{
    let (file, ridfld) = keyed(alloc, found)?;
    Ok(Verb::Write {
        file,
        ridfld,
        key_length: number_of(found, OptionWord::KeyLength),
        from: text_of(alloc, found, OptionWord::From)?,
        length: number_of(found, OptionWord::Length),
    })
}

fn rewrite_verb(alloc: Global, found: &[Found<'_>]) -> Result<Verb, LineFault>
    ensures { Reads (verb_in CommandWord.Rewrite (entries found.now)) result }
{
    Ok(Verb::Rewrite {
        file: file_of(found)?,
        from: text_of(alloc, found, OptionWord::From)?,
        length: number_of(found, OptionWord::Length),
    })
}

// Returns whether DELETE has an option that needs a key.
fn has_key_option(found: &[Found<'_>]) -> bool
    ensures { result ≡ needs_key (entries found.now) }
{
    has_option(found, OptionWord::KeyLength)
        || has_option(found, OptionWord::Generic)
        || has_option(found, OptionWord::NumRec)
}

fn delete_verb(alloc: Global, found: &[Found<'_>]) -> Result<Verb, LineFault>
    ensures { Reads (verb_in CommandWord.Delete (entries found.now)) result }
{
    let file = file_of(found)?;
    match optional_text_of(alloc, found, OptionWord::Ridfld)? {
        Some(ridfld) => Ok(Verb::Delete {
            file,
            ridfld: Some(ridfld),
            key_length: number_of(found, OptionWord::KeyLength),
            generic: has_option(found, OptionWord::Generic),
        }),
        None if has_key_option(found) => Err(LineFault::MissingOption),
        None => Ok(Verb::Delete {
            file,
            ridfld: None,
            key_length: None,
            generic: false,
        }),
    }
}

fn startbr_verb(alloc: Global, found: &[Found<'_>]) -> Result<Verb, LineFault>
    ensures { Reads (verb_in CommandWord.StartBr (entries found.now)) result }
{
    let (file, ridfld) = keyed(alloc, found)?;
    Ok(Verb::StartBr {
        file,
        ridfld,
        key_length: number_of(found, OptionWord::KeyLength),
        generic: has_option(found, OptionWord::Generic),
        equal: has_option(found, OptionWord::Equal),
    })
}

fn resetbr_verb(alloc: Global, found: &[Found<'_>]) -> Result<Verb, LineFault>
    ensures { Reads (verb_in CommandWord.ResetBr (entries found.now)) result }
{
    let (file, ridfld) = keyed(alloc, found)?;
    Ok(Verb::ResetBr {
        file,
        ridfld,
        key_length: number_of(found, OptionWord::KeyLength),
        generic: has_option(found, OptionWord::Generic),
        equal: has_option(found, OptionWord::Equal),
    })
}

// Returns the item that WRITEQ TS replaces, or `None` if it has no REWRITE.
fn replaced(found: &[Found<'_>]) -> Result<Option<u64>, LineFault>
    ensures { result ≡ replaced_in (entries found.now) }
{
    if !has_option(found, OptionWord::Rewrite) {
        return Ok(None);
    }
    Ok(Some(needed_number_of(found, OptionWord::Item)?))
}

fn writeq_ts_verb(alloc: Global, found: &[Found<'_>]) -> Result<Verb, LineFault>
    ensures { Reads (verb_in CommandWord.WriteqTs (entries found.now)) result }
{
    Ok(Verb::WriteqTs {
        queue: needed(name8_of(found, OptionWord::Queue))?,
        from: text_of(alloc, found, OptionWord::From)?,
        length: number_of(found, OptionWord::Length),
        item: replaced(found)?,
    })
}

fn readq_ts_verb(found: &[Found<'_>]) -> Result<Verb, LineFault>
    ensures { result ≡ verb_in CommandWord.ReadqTs (entries found.now) }
{
    Ok(Verb::ReadqTs {
        queue: needed(name8_of(found, OptionWord::Queue))?,
        length: number_of(found, OptionWord::Length),
        item: number_of(found, OptionWord::Item),
    })
}

fn writeq_td_verb(alloc: Global, found: &[Found<'_>]) -> Result<Verb, LineFault>
    ensures { Reads (verb_in CommandWord.WriteqTd (entries found.now)) result }
{
    Ok(Verb::WriteqTd {
        queue: needed(name4_of(found, OptionWord::Queue))?,
        from: text_of(alloc, found, OptionWord::From)?,
        length: number_of(found, OptionWord::Length),
    })
}

fn readq_td_verb(found: &[Found<'_>]) -> Result<Verb, LineFault>
    ensures { result ≡ verb_in CommandWord.ReadqTd (entries found.now) }
{
    Ok(Verb::ReadqTd {
        queue: needed(name4_of(found, OptionWord::Queue))?,
        length: number_of(found, OptionWord::Length),
        nosuspend: has_option(found, OptionWord::NoSuspend),
    })
}

fn enq_verb(alloc: Global, found: &[Found<'_>]) -> Result<Verb, LineFault>
    ensures { Reads (verb_in CommandWord.Enq (entries found.now)) result }
{
    let (resource, length) = enqueued(alloc, found)?;
    Ok(Verb::Enq {
        resource,
        length,
        nosuspend: has_option(found, OptionWord::NoSuspend),
    })
}

fn deq_verb(alloc: Global, found: &[Found<'_>]) -> Result<Verb, LineFault>
    ensures { Reads (verb_in CommandWord.Deq (entries found.now)) result }
{
    let (resource, length) = enqueued(alloc, found)?;
    Ok(Verb::Deq { resource, length })
}

fn syncpoint_verb(found: &[Found<'_>]) -> Verb
    ensures { Ok result ≡ verb_in CommandWord.Syncpoint (entries found.now) }
{
    if has_option(found, OptionWord::Rollback) {
        Verb::Rollback
    } else {
        Verb::Syncpoint
    }
}

/// Returns the verb of a command's word and options.
///
/// Errors: `MissingOption` if it lacks one, `BadNumber` if ITEM of a REWRITE is no number,
/// `NoMemory`.
pub fn verb_of(alloc: Global, command: CommandWord, found: &[Found<'_>]) -> Result<Verb, LineFault>
    ensures { Reads (verb_in command (entries found.now)) result }
{
    match command {
        CommandWord::Read => read_verb(alloc, found),
        CommandWord::Write => write_verb(alloc, found),
        CommandWord::Rewrite => rewrite_verb(alloc, found),
        CommandWord::Delete => delete_verb(alloc, found),
        CommandWord::Unlock => Ok(Verb::Unlock {
            file: file_of(found)?,
        }),
        CommandWord::StartBr => startbr_verb(alloc, found),
        CommandWord::ResetBr => resetbr_verb(alloc, found),
        CommandWord::ReadNext => Ok(Verb::ReadNext {
            file: file_of(found)?,
            length: number_of(found, OptionWord::Length),
        }),
        CommandWord::ReadPrev => Ok(Verb::ReadPrev {
            file: file_of(found)?,
            length: number_of(found, OptionWord::Length),
        }),
        CommandWord::EndBr => Ok(Verb::EndBr {
            file: file_of(found)?,
        }),
        CommandWord::WriteqTs => writeq_ts_verb(alloc, found),
        CommandWord::ReadqTs => readq_ts_verb(found),
        CommandWord::DeleteqTs => Ok(Verb::DeleteqTs {
            queue: needed(name8_of(found, OptionWord::Queue))?,
        }),
        CommandWord::WriteqTd => writeq_td_verb(alloc, found),
        CommandWord::ReadqTd => readq_td_verb(found),
        CommandWord::DeleteqTd => Ok(Verb::DeleteqTd {
            queue: needed(name4_of(found, OptionWord::Queue))?,
        }),
        CommandWord::Enq => enq_verb(alloc, found),
        CommandWord::Deq => deq_verb(alloc, found),
        CommandWord::Syncpoint => Ok(syncpoint_verb(found)),
        CommandWord::Return => Ok(Verb::Return),
        CommandWord::Abend => Ok(Verb::Abend {
            code: name4_of(found, OptionWord::AbCode),
        }),
    }
}
