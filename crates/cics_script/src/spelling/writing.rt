//! Writes commands as lines of a script.

ghost use Rattle.std.specs.Prelude.{◌≡◌, ◌++◌, OnOk, Some, None, true, option_map, codes};
ghost use Rattle.std.specs.Option.{option_copied};
ghost use Rattle.std.specs.List.{flat_map};
ghost use Rattle.cics_names.specs.Commands.{file_named};
ghost use Rattle.cics_script.specs.Options.{text, name8, amount};
ghost use Rattle.cics_script.specs.Spelling.Spelling.{flag, options_of, replacing, word_of};
ghost use Rattle.cics_script.specs.Words.{option_word};
ghost use Rattle.cics_script.specs.Spelling.WrittenOut.{option_text, command_text, written_out};
ghost use Rattle.cics_script.specs.Spelling.WrittenOut.{seeks_keys, is_on_ts};

use crate::spelling::texts::{push_number, push_str, push_text, unfilled};
use crate::words::{OptionWord, option_word};
use cics_names::{Command, Name8, NoMemory, Record, Verb};

/// Appends the line of a command, without LF. `label` is written as it is. `read_line` reads the
/// line back if the command's options go together (`back` of `commands_in_any_order`).
///
/// Appends nothing if no line says the command: DELETE with KEYLENGTH or GENERIC but no RIDFLD.
///
/// Errors: `NoMemory`. Then what it appended is unspecified.
pub fn write_out(out: &mut Vec<u8>, label: &[u8], command: &Command) -> Result<(), NoMemory>
    ensures { OnOk result (out.new.items
        ≡ out.old.items ++ written_out label.now command.now) }
{
    let Some(words) = command_text(&command.verb) else {
        return Ok(());
    };
    out.extend_from_slice(label)?;
    push_str(out, " EXEC CICS ")?;
    push_str(out, words)?;
    push_flag(out, OptionWord::NoHandle, command.resp)?;
    push_options(out, &command.verb)
}

// Returns the word of a command, with TS or TD if it acts on a queue. Returns `None` if no line
// says the command.
fn command_text(verb: &Verb) -> Option<&'static str>
    ensures { option_copied result ≡ option_map command_text (word_of verb.now) }
{
    match verb {
        Verb::Delete {
            ridfld: None,
            key_length: Some(_),
            ..
        } => None,
        Verb::Delete {
            ridfld: None,
            generic: true,
            ..
        } => None,
        Verb::Read { .. } => Some("READ"),
        Verb::Write { .. } => Some("WRITE"),
        Verb::Rewrite { .. } => Some("REWRITE"),
        Verb::Delete { .. } => Some("DELETE"),
        Verb::Unlock { .. } => Some("UNLOCK"),
        Verb::StartBr { .. } => Some("STARTBR"),
        Verb::ResetBr { .. } => Some("RESETBR"),
        Verb::ReadNext { .. } => Some("READNEXT"),
        Verb::ReadPrev { .. } => Some("READPREV"),
        Verb::EndBr { .. } => Some("ENDBR"),
        Verb::WriteqTs { .. } => Some("WRITEQ TS"),
        Verb::ReadqTs { .. } => Some("READQ TS"),
        Verb::DeleteqTs { .. } => Some("DELETEQ TS"),
        Verb::WriteqTd { .. } => Some("WRITEQ TD"),
        Verb::ReadqTd { .. } => Some("READQ TD"),
        Verb::DeleteqTd { .. } => Some("DELETEQ TD"),
        Verb::Enq { .. } => Some("ENQ"),
        Verb::Deq { .. } => Some("DEQ"),
        Verb::Syncpoint | Verb::Rollback => Some("SYNCPOINT"),
        Verb::Return => Some("RETURN"),
        Verb::Abend { .. } => Some("ABEND"),
    }
}

// Appends the options of a command.
fn push_options(out: &mut Vec<u8>, verb: &Verb) -> Result<(), NoMemory>
    ensures { OnOk result (out.new.items
        ≡ out.old.items ++ flat_map option_text (options_of verb.now)) }
{
    match verb {
        Verb::Read {
            file,
            ridfld,
            key_length,
            length,
            generic,
            gteq,
            update,
        } => {
            push_key(out, file, ridfld, *key_length)?;
            push_amount(out, OptionWord::Length, *length)?;
            push_flag(out, OptionWord::Generic, *generic)?;
            push_flag(out, OptionWord::Gteq, *gteq)?;
            push_flag(out, OptionWord::Update, *update)
        }
        Verb::Write {
            file,
            ridfld,
            key_length,
            from,
            length,
        } => {
            push_key(out, file, ridfld, *key_length)?;
            push_from(out, from, *length)
        }
        Verb::Rewrite { file, from, length } => {
            push_name(out, OptionWord::File, &file.bytes())?;
            push_from(out, from, *length)
        }
        Verb::Delete { .. } | Verb::StartBr { .. } | Verb::ResetBr { .. } => {
            push_seek_options(out, verb)
        }
        Verb::Unlock { file } | Verb::EndBr { file } => push_name(
            out,
            OptionWord::File,
            &file.bytes(),
        ),
        Verb::ReadNext { file, length } | Verb::ReadPrev { file, length } => {
            push_name(out, OptionWord::File, &file.bytes())?;
            push_amount(out, OptionWord::Length, *length)
        }
        _ => push_other_options(out, verb),
    }
}

// Appends the options of DELETE, STARTBR and RESETBR.
fn push_seek_options(out: &mut Vec<u8>, verb: &Verb) -> Result<(), NoMemory>
    requires { seeks_keys verb.now ≡ true }
    ensures { OnOk result (out.new.items
        ≡ out.old.items ++ flat_map option_text (options_of verb.now)) }
{
    match verb {
        Verb::Delete {
            file,
            ridfld,
            key_length,
            generic,
        } => {
            push_name(out, OptionWord::File, &file.bytes())?;
            if let Some(ridfld) = ridfld {
                push_literal(out, OptionWord::Ridfld, ridfld.bytes())?;
            }
            push_amount(out, OptionWord::KeyLength, *key_length)?;
            push_flag(out, OptionWord::Generic, *generic)
        }
        Verb::StartBr {
            file,
            ridfld,
            key_length,
            generic,
            equal,
        }
        | Verb::ResetBr {
            file,
            ridfld,
            key_length,
            generic,
            equal,
        } => {
            push_key(out, file, ridfld, *key_length)?;
            push_flag(out, OptionWord::Generic, *generic)?;
            push_flag(out, OptionWord::Equal, *equal)
        }
        _ => Ok(()),
    }
}

// Appends the options of a command that acts on no file.
fn push_other_options(out: &mut Vec<u8>, verb: &Verb) -> Result<(), NoMemory>
    requires { file_named verb.now ≡ None }
    ensures { OnOk result (out.new.items
        ≡ out.old.items ++ flat_map option_text (options_of verb.now)) }
{
    match verb {
        Verb::WriteqTs { .. } | Verb::ReadqTs { .. } | Verb::DeleteqTs { .. } => {
            push_ts_options(out, verb)
        }
        Verb::WriteqTd {
            queue,
            from,
            length,
        } => {
            push_name(out, OptionWord::Queue, &queue.bytes())?;
            push_from(out, from, *length)
        }
        Verb::ReadqTd {
            queue,
            length,
            nosuspend,
        } => {
            push_name(out, OptionWord::Queue, &queue.bytes())?;
            push_amount(out, OptionWord::Length, *length)?;
            push_flag(out, OptionWord::NoSuspend, *nosuspend)
        }
        Verb::DeleteqTd { queue } => push_name(out, OptionWord::Queue, &queue.bytes()),
        Verb::Enq {
            resource,
            length,
            nosuspend,
        } => {
            push_literal(out, OptionWord::Resource, resource.bytes())?;
            push_amount(out, OptionWord::Length, Some(*length))?;
            push_flag(out, OptionWord::NoSuspend, *nosuspend)
        }
        Verb::Deq { resource, length } => {
            push_literal(out, OptionWord::Resource, resource.bytes())?;
            push_amount(out, OptionWord::Length, Some(*length))
        }
        Verb::Rollback => push_flag(out, OptionWord::Rollback, true),
        Verb::Abend { code: Some(code) } => push_name(out, OptionWord::AbCode, &code.bytes()),
        _ => Ok(()),
    }
}

// Appends the options of a command on a temporary storage queue.
fn push_ts_options(out: &mut Vec<u8>, verb: &Verb) -> Result<(), NoMemory>
    requires { is_on_ts verb.now ≡ true }
    ensures { OnOk result (out.new.items
        ≡ out.old.items ++ flat_map option_text (options_of verb.now)) }
{
    match verb {
        Verb::WriteqTs {
            queue,
            from,
            length,
            item,
        } => {
            push_name(out, OptionWord::Queue, &queue.bytes())?;
            push_from(out, from, *length)?;
            push_replaced(out, *item)
        }
        Verb::ReadqTs {
            queue,
            length,
            item,
        } => {
            push_name(out, OptionWord::Queue, &queue.bytes())?;
            push_amount(out, OptionWord::Length, *length)?;
            push_amount(out, OptionWord::Item, *item)
        }
        Verb::DeleteqTs { queue } => push_name(out, OptionWord::Queue, &queue.bytes()),
        _ => Ok(()),
    }
}

// Appends REWRITE, and ITEM with the number of the item that is replaced, if there is one.
fn push_replaced(out: &mut Vec<u8>, item: Option<u64>) -> Result<(), NoMemory>
    ensures { OnOk result (out.new.items
        ≡ out.old.items ++ flat_map option_text (replacing item)) }
{
    let Some(item) = item else {
        return Ok(());
    };
    push_flag(out, OptionWord::Rewrite, true)?;
    push_amount(out, OptionWord::Item, Some(item))
}

// Appends FILE, RIDFLD, and KEYLENGTH if it is there.
fn push_key(
    out: &mut Vec<u8>,
    file: &Name8,
    ridfld: &Record,
    key_length: Option<u64>,
) -> Result<(), NoMemory>
    ensures { OnOk result (out.new.items ≡ out.old.items
        ++ (option_text (OptionWord.File, Some (name8 file.now))
        ++ (option_text (OptionWord.Ridfld, Some (text ridfld.now))
        ++ option_text (OptionWord.KeyLength, option_map amount key_length)))) }
{
    push_name(out, OptionWord::File, &file.bytes())?;
    push_literal(out, OptionWord::Ridfld, ridfld.bytes())?;
    push_amount(out, OptionWord::KeyLength, key_length)
}

// Appends FROM, and LENGTH if it is there.
fn push_from(out: &mut Vec<u8>, from: &Record, length: Option<u64>) -> Result<(), NoMemory>
    ensures { OnOk result (out.new.items ≡ out.old.items
        ++ (option_text (OptionWord.From, Some (text from.now))
        ++ option_text (OptionWord.Length, option_map amount length))) }
{
    push_literal(out, OptionWord::From, from.bytes())?;
    push_amount(out, OptionWord::Length, length)
}

// Appends an option that gives bytes, which it writes as a literal.
fn push_literal(out: &mut Vec<u8>, option: OptionWord, bytes: &[u8]) -> Result<(), NoMemory>
    ensures { OnOk result (out.new.items
        ≡ out.old.items ++ option_text (option, Some (text bytes.now))) }
{
    push_word(out, option)?;
    push_str(out, "(")?;
    push_text(out, bytes)?;
    push_str(out, ")")
}

// Appends an option that gives a name.
fn push_name(out: &mut Vec<u8>, option: OptionWord, name: &[u8]) -> Result<(), NoMemory>
    ensures { OnOk result (out.new.items
        ≡ out.old.items ++ option_text (option, Some (name8 name.now))) }
{
    push_literal(out, option, unfilled(name))
}

// Appends an option that gives a number, if there is one.
fn push_amount(out: &mut Vec<u8>, option: OptionWord, number: Option<u64>) -> Result<(), NoMemory>
    ensures { OnOk result (out.new.items
        ≡ out.old.items ++ option_text (option, option_map amount number)) }
{
    let Some(number) = number else {
        return Ok(());
    };
    push_word(out, option)?;
    push_str(out, "(")?;
    push_number(out, number)?;
    push_str(out, ")")
}

// Appends an option that stands alone, if `is_there`.
fn push_flag(out: &mut Vec<u8>, option: OptionWord, is_there: bool) -> Result<(), NoMemory>
    ensures { OnOk result (out.new.items
        ≡ out.old.items ++ option_text (option, flag is_there)) }
{
    if is_there {
        push_word(out, option)?;
    }
    Ok(())
}

// Appends a space and the word of an option.
fn push_word(out: &mut Vec<u8>, option: OptionWord) -> Result<(), NoMemory>
    ensures { OnOk result (out.new.items ≡ out.old.items ++ (codes " " ++ option_word option)) }
{
    push_str(out, " ")?;
    push_str(out, option_word(option))
}
