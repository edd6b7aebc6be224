//! What is told of the check that a command failed.

ghost use Rattle.std.specs.Prelude.{◌≡◌, ◌++◌, OnOk, if◌then◌else◌};
ghost use Rattle.cics_run.specs.Messages.Reasons.{key_in_from, plain_reason};
ghost use Rattle.cics_run.specs.Messages.Reasons.{state_reason, size_reason};
ghost use Rattle.cics_run.specs.Messages.Reasons.{length_reason, record_reason, reason_text};
ghost use Rattle.cics_dispatch.specs.declared.machine.reasons.Reason.TheVariants.{
  RecordTooShort,
  RecordTooLong,
};

use crate::messages::parts::{
    bytes_word, from_in, key_in, key_length_in, length_in, push_about, used_in,
};
use cics_dispatch::Reason;
use cics_ksds::FileDef;
use cics_names::{NoMemory, Verb};
use cics_script::spelling::Part::{Number, Str, Text};
use cics_script::spelling::{push_parts, push_str};

// Returns the key in what is written, or no byte if that doesn't fit the file.
fn key_in_from(definition: FileDef, content: &[u8]) -> &[u8]
    ensures { result.now ≡ key_in_from definition content.now }
{
    if definition.fits(content) {
        definition.key_in(content)
    } else {
        &[]
    }
}

// Returns what is told of a check of options alone.
fn plain_reason(reason: Reason) -> &'static str
    ensures { result.now ≡ plain_reason reason }
{
    match reason {
        Reason::UpdateNotByKey => "UPDATE goes with neither GTEQ nor GENERIC",
        Reason::PrefixEmpty => "DELETE GENERIC needs a RIDFLD of 1 byte or more",
        Reason::NoRidfld => "KEYLENGTH and GENERIC need a RIDFLD",
        Reason::BrowseIsGeneric => {
            "READPREV can't follow a start with GENERIC: RESETBR without GENERIC comes first"
        }
        _ => "",
    }
}

// Appends what is told of a check of the file or queue, or of the task's reads of it.
fn push_state_reason(out: &mut Vec<u8>, verb: &Verb, reason: Reason) -> Result<(), NoMemory>
    ensures { OnOk result (out.new.items ≡ out.old.items ++ state_reason verb.now reason) }
{
    match reason {
        Reason::FileNotDefined => push_about(out, "the file ", verb, " isn't defined"),
        Reason::QueueNotDefined => push_about(out, "the queue ", verb, " isn't defined"),
        Reason::UpdateReadOpen => push_about(
            out,
            "a record of ",
            verb,
            " is read for update already: REWRITE, DELETE or UNLOCK it first",
        ),
        Reason::NoUpdateRead => push_about(
            out,
            "no record of ",
            verb,
            " is read for update: READ it with UPDATE first",
        ),
        Reason::BrowseOpen => push_about(
            out,
            "a browse of ",
            verb,
            " is open already: RESETBR moves it, ENDBR ends it",
        ),
        Reason::NoBrowse => push_about(out, "no browse of ", verb, " is open: STARTBR opens one"),
        _ => push_str(out, plain_reason(reason)),
    }
}

// Appends LENGTH, and how many bytes FROM or RESOURCE has.
fn push_length_reason(out: &mut Vec<u8>, verb: &Verb, before: &str) -> Result<(), NoMemory>
    ensures { OnOk result (out.new.items
        ≡ out.old.items ++ length_reason verb.now before.now) }
{
    let count = from_in(verb).len();
    push_parts(
        out,
        &[
            Str("LENGTH is "),
            Number(length_in(verb)),
            Str(", "),
            Str(before),
            Number(count as u64),
            Str(bytes_word(count)),
        ],
    )
}

// Appends what is told of a check of LENGTH, or of the bytes that are written.
fn push_size_reason(out: &mut Vec<u8>, verb: &Verb, reason: Reason) -> Result<(), NoMemory>
    ensures { OnOk result (out.new.items ≡ out.old.items ++ size_reason verb.now reason) }
{
    match reason {
        Reason::LengthNotInFrom => push_length_reason(out, verb, "FROM has "),
        Reason::ItemSize => {
            let count = used_in(verb).len();
            push_parts(
                out,
                &[
                    Str("what is written has "),
                    Number(count as u64),
                    Str(bytes_word(count)),
                    Str(", not 1 to 32767"),
                ],
            )
        }
        Reason::ValueSize => push_parts(
            out,
            &[
                Str("LENGTH is "),
                Number(length_in(verb)),
                Str(", not from 1 to 255"),
            ],
        ),
        Reason::ValueTooShort => push_length_reason(out, verb, "RESOURCE has "),
        _ => push_state_reason(out, verb, reason),
    }
}

// Appends what is told of a record that ends before its key does (`is_short`), or that is longer
// than RECORDSIZE.
fn push_misfit(
    out: &mut Vec<u8>,
    definition: FileDef,
    verb: &Verb,
    is_short: bool,
) -> Result<(), NoMemory>
    ensures { OnOk result (out.new.items ≡ out.old.items
        ++ record_reason definition verb.now (if is_short then RecordTooShort else RecordTooLong)) }
{
    let count = used_in(verb).len();
    let (number, word) = (Number(count as u64), Str(bytes_word(count)));
    if is_short {
        push_parts(
            out,
            &[
                Str("the record has "),
                number,
                word,
                Str(", KEYOFFSET("),
                Number(definition.key_offset),
                Str(") and KEYLENGTH("),
                Number(definition.key_length),
                Str(") need more"),
            ],
        )
    } else {
        push_parts(
            out,
            &[
                Str("the record has "),
                number,
                word,
                Str(", RECORDSIZE("),
                Number(definition.record_size),
                Str(") allows fewer"),
            ],
        )
    }
}

// Appends what is told of a check of the record that is written.
fn push_record_reason(
    out: &mut Vec<u8>,
    definition: FileDef,
    verb: &Verb,
    reason: Reason,
) -> Result<(), NoMemory>
    ensures { OnOk result (out.new.items
        ≡ out.old.items ++ record_reason definition verb.now reason) }
{
    let key = key_in_from(definition, used_in(verb));
    match reason {
        Reason::RecordTooShort => push_misfit(out, definition, verb, true),
        Reason::RecordTooLong => push_misfit(out, definition, verb, false),
        Reason::KeyIsNotRidfld => push_parts(
            out,
            &[
                Str("the key in FROM is "),
                Text(key),
                Str(", RIDFLD is "),
                Text(key_in(verb)),
            ],
        ),
        Reason::KeyIsNotRead => push_parts(
            out,
            &[
                Str("the key in FROM is "),
                Text(key),
                Str(", another one was read for update"),
            ],
        ),
        _ => push_size_reason(out, verb, reason),
    }
}

/// Appends what is told of the check that a command failed, on a file with this definition.
pub fn push_reason(
    out: &mut Vec<u8>,
    definition: FileDef,
    verb: &Verb,
    reason: Reason,
) -> Result<(), NoMemory>
    ensures { OnOk result (out.new.items
        ≡ out.old.items ++ reason_text definition verb.now reason) }
{
    match reason {
        Reason::KeyLengthDiffers => {
            let count = key_in(verb).len();
            push_parts(
                out,
                &[
                    Str("KEYLENGTH is "),
                    Number(key_length_in(verb)),
                    Str(", RIDFLD has "),
                    Number(count as u64),
                    Str(bytes_word(count)),
                ],
            )
        }
        Reason::KeySize | Reason::PrefixTooLong => {
            let count = key_in(verb).len();
            push_parts(
                out,
                &[
                    Str("RIDFLD has "),
                    Number(count as u64),
                    Str(bytes_word(count)),
                    Str(", the file has keys of "),
                    Number(definition.key_length),
                ],
            )
        }
        _ => push_record_reason(out, definition, verb, reason),
    }
}
