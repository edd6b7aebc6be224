//! Reads a line of a script.

ghost use Rattle.std.specs.Prelude.{◌≡◌, ◌-◌, Ok, IfSome, true};
ghost use Rattle.std.specs.Prelude.{length, drop};
ghost use Rattle.std.specs.List.{list_all};
ghost use lib.Chars.{codes};
ghost use Rattle.cics_script.specs.Faults.{◌>>=◌ as ◌and_next◌, Reads};
ghost use Rattle.cics_script.specs.Tokens.{tokens};
ghost use Rattle.cics_script.specs.Words.{commands};
ghost use Rattle.cics_script.specs.Views.{entries, GivesWord, GivesVerb, GivesRest};
ghost use Rattle.cics_script.specs.Views.{IsNamed, Takes};
ghost use Rattle.cics_script.specs.Values.{needed};
ghost use Rattle.cics_script.specs.Lines.{recovery_in, queue_recovery_in, definition_in, load_in};
ghost use Rattle.cics_script.specs.Lines.{word_first, behind, define, load, attach};
ghost use Rattle.cics_script.specs.Lines.{verb_first, clock, shutdown, command_at};
ghost use Rattle.cics_script.specs.Lines.{issue, statement, adds_nothing};
ghost use Rattle.cics_script.specs.Lines.{is_script_byte, line};

use crate::commands::{is_handled, verb_of};
use crate::faults::LineFault;
use crate::labels::label_of;
use crate::options::{Found, Options, has_option, read_options, skip_one_blank};
use crate::tokens::{Token, begins_with, named, next_token, next_value, next_word, skip_blanks};
use crate::values::{name4_of, name8_of, needed, number_of, text_of};
use crate::words::{
    CommandWord, DefineObject, FirstWord, LineForm, LoadObject, OptionWord, command_named,
    define_object, is_spelled, load_object, queue_command, start_of, td_command,
};
use cics_ksds::FileDef;
use cics_names::{Command, Name4, Name8, Record};
use cics_transdata::Recovery;
use std::alloc::Global;

// The most bytes of a line.
const MOST_BYTES: usize = 70_000;

// The most bytes of a file's record, if the line has no RECORDSIZE.
const RECORD_SIZE: u64 = 32_767;

/// What a line of a script says.
#[derive(Drop)]
pub enum Line {
    /// Nothing: the line is blank or a comment.
    Blank,
    /// Defines a file. Its numbers aren't checked here.
    DefineFile(Name8, FileDef),
    /// Defines a prefix: the temporary storage queues whose names begin with it are recoverable.
    DefineTsPrefix(Name8),
    /// Defines a transient data queue.
    DefineTd(Name4, Recovery),
    /// Loads one record into a file.
    LoadFile(Name8, Record),
    /// Loads one record into a transient data queue.
    LoadTd(Name4, Record),
    /// Attaches a task with this label and transaction. A command of it may wait for so many
    /// seconds of the clock; 0 is without limit.
    Attach(Name8, Name4, u64),
    /// Sets the clock, in seconds.
    Clock(u64),
    /// Issues a command of the task with this label.
    Issue(Name8, Command),
    /// Ends the region at once, and backs out each open unit of work.
    Shutdown,
}

// Returns whether a file is recoverable, if the line says it.
fn recovery_of(found: &[Found<'_>]) -> Option<bool>
    ensures { result ≡ recovery_in (entries found.now) }
{
    if has_option(found, OptionWord::Recoverable) {
        Some(true)
    } else if has_option(found, OptionWord::Unrecoverable) {
        Some(false)
    } else {
        None
    }
}

// Returns how far a transient data queue's changes are undone, if the line says it.
fn queue_recovery_of(found: &[Found<'_>]) -> Option<Recovery>
    ensures { result ≡ queue_recovery_in (entries found.now) }
{
    if has_option(found, OptionWord::Logical) {
        Some(Recovery::Logical)
    } else if has_option(found, OptionWord::Physical) {
        Some(Recovery::Physical)
    } else if has_option(found, OptionWord::Unrecovered) {
        Some(Recovery::Unrecovered)
    } else {
        None
    }
}

// Returns what a DEFINE line defines, if its options are all that it needs.
fn definition_of(object: DefineObject, found: &[Found<'_>]) -> Option<Line>
    ensures { needed result Ok ≡ definition_in object (entries found.now) }
{
    Some(match object {
        DefineObject::File => {
            let name = name8_of(found, OptionWord::File)?;
            let definition = FileDef {
                key_length: number_of(found, OptionWord::KeyLength)?,
                key_offset: number_of(found, OptionWord::KeyOffset).unwrap_or(0),
                record_size: number_of(found, OptionWord::RecordSize).unwrap_or(RECORD_SIZE),
                recoverable: recovery_of(found)?,
            };
            Line::DefineFile(name, definition)
        }
        DefineObject::TsPrefix => Line::DefineTsPrefix(name8_of(found, OptionWord::TsPrefix)?),
        DefineObject::TdQueue => {
            let name = name4_of(found, OptionWord::TdQueue)?;
            Line::DefineTd(name, queue_recovery_of(found)?)
        }
    })
}

// Returns what a LOAD line loads, from its options. Errors: `MissingOption`, `NoMemory`.
fn load_of(alloc: Global, object: LoadObject, found: &[Found<'_>]) -> Result<Line, LineFault>
    ensures { Reads (load_in object (entries found.now)) result }
{
    match object {
        LoadObject::File => {
            let name = needed(name8_of(found, OptionWord::File))?;
            Ok(Line::LoadFile(name, text_of(alloc, found, OptionWord::From)?))
        }
        LoadObject::TdQueue => {
            let name = needed(name4_of(found, OptionWord::TdQueue))?;
            Ok(Line::LoadTd(name, text_of(alloc, found, OptionWord::From)?))
        }
    }
}

// Returns the first word, and the line after it.
#[inline(always)]
fn first_word(bytes: &[u8]) -> Result<(&[u8], &[u8]), LineFault>
    ensures { GivesWord (word_first (tokens bytes.now)) result }
{
    // A line without a fault has a word here, and few words begin with X.
    if let Some(found) = next_word(bytes) {
        return Ok(found);
    }
    match next_token(bytes)? {
        Some((Token::Word(word), rest)) => Ok((word, rest)),
        _ => Err(LineFault::UnknownWord),
    }
}

// Returns the line after a word that must be the first.
#[cold]
#[inline(never)]
fn skip_word<'a>(bytes: &'a [u8], wanted: &[u8]) -> Result<&'a [u8], LineFault>
    ensures { GivesRest (behind wanted.now (tokens bytes.entry.now)) result }
{
    let (word, rest) = first_word(bytes)?;
    if is_spelled(word, wanted) {
        Ok(rest)
    } else {
        Err(LineFault::UnknownWord)
    }
}

// Reads a DEFINE line, from after its first word.
fn read_define(alloc: Global, bytes: &[u8]) -> Result<Line, LineFault>
    ensures { Reads (define (tokens bytes.now)) result }
{
    // The word is read again, as the first option.
    let (word, _) = first_word(bytes)?;
    let object = define_object(word).ok_or(LineFault::UnknownWord)?;
    let mut found = Options::new();
    read_options(alloc, LineForm::Define(object), bytes, &mut found)?;
    needed(definition_of(object, &found))
}

// Reads a LOAD line, from after its first word.
fn read_load(alloc: Global, bytes: &[u8]) -> Result<Line, LineFault>
    ensures { Reads (load (tokens bytes.now)) result }
{
    // The word is read again, as the first option.
    let (word, _) = first_word(bytes)?;
    let object = load_object(word).ok_or(LineFault::UnknownWord)?;
    let mut found = Options::new();
    read_options(alloc, LineForm::Load(object), bytes, &mut found)?;
    load_of(alloc, object, &found)
}

// Reads an ATTACH line, from after its first word.
fn read_attach(alloc: Global, bytes: &[u8]) -> Result<Line, LineFault>
    ensures { Reads (attach (tokens bytes.now)) result }
{
    // First, so that its room is cleared once.
    let mut found = Options::new();
    let (word, rest) = first_word(bytes)?;
    if start_of(word).is_some() {
        return Err(LineFault::UnknownWord);
    }
    let label = label_of(word)?;
    read_options(alloc, LineForm::Attach, rest, &mut found)?;
    let transaction = needed(name4_of(&found, OptionWord::Transid))?;
    let dtimout = number_of(&found, OptionWord::Dtimout).unwrap_or(0);
    Ok(Line::Attach(label, transaction, dtimout))
}

// Returns the same as `next_token`. Most numbers stand right behind one space.
fn next_number(bytes: &[u8]) -> Result<Option<(Token<'_>, &[u8])>, LineFault>
    ensures { Takes bytes.now result }
{
    match next_value(skip_one_blank(bytes)) {
        Some(found) => Ok(Some(found)),
        None => next_token(bytes),
    }
}

// Reads a CLOCK line, from after its first word.
fn read_clock(alloc: Global, bytes: &[u8]) -> Result<Line, LineFault>
    ensures { Reads (clock (tokens bytes.now)) result }
{
    // First, so that its room is cleared once.
    let mut found = Options::new();
    let Some((Token::Number(seconds), rest)) = next_number(bytes)? else {
        return Err(LineFault::BadNumber);
    };
    read_options(alloc, LineForm::Clock, rest, &mut found)?;
    Ok(Line::Clock(seconds))
}

// Reads a SHUTDOWN line, from after its first word.
#[cold]
fn read_shutdown(alloc: Global, bytes: &[u8]) -> Result<Line, LineFault>
    ensures { Reads (shutdown (tokens bytes.now)) result }
{
    let rest = skip_word(bytes, b"IMMEDIATE")?;
    let mut found = Options::new();
    read_options(alloc, LineForm::Shutdown, rest, &mut found)?;
    Ok(Line::Shutdown)
}

// Returns the command of a verb, with TS or TD if that follows it, and the line after them.
fn placed_command(verb: CommandWord, bytes: &[u8]) -> (CommandWord, &[u8])
    ensures { command_at verb (tokens bytes.now) ≡ (result.0, tokens result.1.now) }
{
    let Some(of_td) = td_command(verb) else {
        return (verb, bytes);
    };
    // Most lines have one space and such a word after the verb.
    let front = skip_one_blank(bytes);
    if let Some(found) = named(front, b"TS", verb) {
        return found;
    }
    if let Some(found) = named(front, b"TD", of_td) {
        return found;
    }
    match next_token(bytes) {
        Ok(Some((Token::Word(word), rest))) => match queue_command(verb, word) {
            Some(command) => (command, rest),
            None => (verb, bytes),
        },
        _ => (verb, bytes),
    }
}

// Returns a common verb in capitals, and the line after it. `None` decides nothing.
fn common_verb(bytes: &[u8]) -> Option<(CommandWord, &[u8])>
    ensures { IfSome result (λ found. IsNamed commands found.0 bytes.entry.now found.1.now) }
{
    // These verbs, but for WRITE and WRITEQ, differ in their first and fifth bytes.
    match (bytes.first()?, bytes.get(4)?) {
        (b'R', b' ') => named(bytes, b"READ", CommandWord::Read),
        (b'R', b'Q') => named(bytes, b"READQ", CommandWord::ReadqTs),
        (b'R', b'N') => named(bytes, b"READNEXT", CommandWord::ReadNext),
        (b'R', b'R') => named(bytes, b"RETURN", CommandWord::Return),
        (b'R', _) => named(bytes, b"REWRITE", CommandWord::Rewrite),
        (b'W', _) => match named(bytes, b"WRITE", CommandWord::Write) {
            Some(found) => Some(found),
            None => named(bytes, b"WRITEQ", CommandWord::WriteqTs),
        },
        (b'E', _) => named(bytes, b"ENQ", CommandWord::Enq),
        (b'D', b'T') => named(bytes, b"DELETE", CommandWord::Delete),
        (b'D', _) => named(bytes, b"DEQ", CommandWord::Deq),
        (b'S', _) => named(bytes, b"SYNCPOINT", CommandWord::Syncpoint),
        _ => None,
    }
}

// Returns the first verb, and the line after it.
fn first_verb(bytes: &[u8]) -> Result<(CommandWord, &[u8]), LineFault>
    ensures { GivesVerb (verb_first (tokens bytes.now)) result }
{
    if let Some(found) = common_verb(bytes) {
        return Ok(found);
    }
    let (word, rest) = first_word(bytes)?;
    let verb = command_named(word).ok_or(LineFault::UnknownWord)?;
    Ok((verb, rest))
}

// Returns the line after EXEC and CICS. Inlined: each command passes through it.
#[inline(always)]
fn skip_exec_cics(bytes: &[u8]) -> Result<&[u8], LineFault>
    ensures { GivesRest
        (behind (codes "EXEC") (tokens bytes.now) and_next behind (codes "CICS")) result }
{
    // Most lines go on with just these bytes.
    if begins_with(bytes, b" EXEC CICS ") {
        return Ok(bytes.split_at(11).1);
    }
    skip_word(skip_word(bytes, b"EXEC")?, b"CICS")
}

// Reads a command, from after the label of its task.
fn read_issue(alloc: Global, label: Name8, bytes: &[u8]) -> Result<Line, LineFault>
    ensures { Reads (issue label (tokens bytes.now)) result }
{
    // First, so that its room is cleared once.
    let mut found = Options::new();
    let behind_cics = skip_exec_cics(bytes)?;
    let (verb, rest) = first_verb(behind_cics)?;
    let (command, behind) = placed_command(verb, rest);
    read_options(alloc, LineForm::Command(command), behind, &mut found)?;
    let verb = verb_of(alloc, command, &found)?;
    let resp = is_handled(&found);
    Ok(Line::Issue(label, Command { verb, resp }))
}

/// Returns whether a line defines and attaches nothing, whatever is wrong behind its first words:
/// these are LOAD, CLOCK or SHUTDOWN, or EXEC CICS behind any other word.
pub fn adds_nothing(line: &[u8]) -> bool
    ensures { result ≡ adds_nothing line.now }
{
    let Ok((word, rest)) = first_word(line) else {
        return false;
    };
    match start_of(word) {
        Some(FirstWord::Define | FirstWord::Attach) => false,
        Some(FirstWord::Load | FirstWord::Clock | FirstWord::Shutdown) => true,
        None => skip_exec_cics(rest).is_ok(),
    }
}

/// Reads a line that is neither blank nor a comment. Errors: those of [`read_line`], but for
/// `TooLong` and `NotAscii`.
pub fn read_statement(alloc: Global, bytes: &[u8]) -> Result<Line, LineFault>
    ensures { Reads (statement (tokens bytes.now)) result }
{
    let (word, rest) = first_word(bytes)?;
    // A `match` with these as its values would move each once more.
    match start_of(word) {
        Some(FirstWord::Define) => return read_define(alloc, rest),
        Some(FirstWord::Load) => return read_load(alloc, rest),
        Some(FirstWord::Attach) => return read_attach(alloc, rest),
        Some(FirstWord::Clock) => return read_clock(alloc, rest),
        Some(FirstWord::Shutdown) => return read_shutdown(alloc, rest),
        None => {}
    }
    let label = label_of(word)?;
    read_issue(alloc, label, rest)
}

/// Returns whether a line may have a byte: a tab, or printable ASCII.
pub fn is_in_script(byte: u8) -> bool
    ensures { result ≡ is_script_byte byte }
{
    byte == b'\t' || (b' '..=b'~').contains(&byte)
}

// How many bytes are tested at once.
const BLOCK: usize = 16;

// Returns the same as `are_in_script`. The bytes of a block, whose length is a constant, are tested
// at once.
fn few_are_in_script(bytes: &[u8]) -> bool
    ensures { result ≡ list_all is_script_byte bytes.now }
{
    // No early end, so that the bytes aren't tested one by one.
    let mut all = true;
    for byte in bytes {
        all &= is_in_script(*byte);
    }
    all
}

// Returns whether a line may have all these bytes, if it may have the last block.
fn blocks_are_in_script(bytes: &[u8]) -> bool
    requires last { list_all is_script_byte (drop (length bytes.now - 16) bytes.now) ≡ true }
    ensures { result ≡ list_all is_script_byte bytes.now }
{
    let mut rest = bytes;
    'blocks: loop {
        match rest.split_first_chunk::<BLOCK>() {
            Some((block, behind)) => {
                if !few_are_in_script(block) {
                    return false;
                }
                rest = behind;
            }
            None => return true,
        }
    }
}

// Returns whether a line may have all these bytes.
fn are_in_script(bytes: &[u8]) -> bool
    ensures { result ≡ list_all is_script_byte bytes.now }
{
    // The last 16 bytes are tested first, and then whole blocks alone. Some bytes are tested twice.
    match bytes.last_chunk::<BLOCK>() {
        Some(last) => few_are_in_script(last) && blocks_are_in_script(bytes),
        None => few_are_in_script(bytes),
    }
}

/// Reads one line, without its LF and the CR before it. `alloc` gives the memory of its records.
///
/// Errors: the first of these that applies, or `NoMemory`.
///
/// - `TooLong`: it has more than 70,000 bytes.
/// - `NotAscii`: it has a byte that is neither a tab nor printable ASCII.
/// - The fault of the first token that can't stand where it does.
/// - `MissingOption`: it is read to its end, and an option that it needs isn't there.
/// - `BadNumber`: WRITEQ TS has REWRITE, and its ITEM is no number.
#[inline(never)]
pub fn read_line(alloc: Global, bytes: &[u8]) -> Result<Line, LineFault>
    ensures { Reads (line bytes.now) result }
{
    if bytes.len() > MOST_BYTES {
        return Err(LineFault::TooLong);
    }
    if !are_in_script(bytes) {
        return Err(LineFault::NotAscii);
    }
    if matches!(skip_blanks(bytes).first(), None | Some(b'*')) {
        return Ok(Line::Blank);
    }
    read_statement(alloc, bytes)
}
