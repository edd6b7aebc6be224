//! What is told of a condition that came up as a command was executed, and not by a check.

ghost use Rattle.std.specs.Prelude.{◌≡◌, ◌++◌, OnOk};
ghost use Rattle.cics_run.specs.Messages.Causes.{general_text, search_words};
ghost use Rattle.cics_run.specs.Messages.Causes.{sought_text, absent_text};
ghost use Rattle.cics_run.specs.Messages.Causes.{item_text, cause_text};

use crate::messages::parts::{key_in, length_in, push_about, used_in};
use cics_names::{Condition, NoMemory, Verb};
use cics_script::spelling::Part::{Number, Str, Text};
use cics_script::spelling::{push_number, push_parts, push_str, push_text};

/// Returns what is told of a condition if its command isn't at hand.
pub fn general_text(condition: Condition) -> &'static str
    ensures { result.now ≡ general_text condition }
{
    match condition {
        Condition::Normal => "the command did what it says",
        Condition::Dsiderr => "the file isn't defined",
        Condition::Notfnd => "no record has the key",
        Condition::Duprec => "a record has the key already",
        Condition::Invreq => "the unit has enqueued the value 65535 times",
        Condition::Endfile => "no record is left that way",
        Condition::Lengerr => "what was read is longer than LENGTH",
        Condition::Qzero => "the queue has no record",
        Condition::Qbusy => "another task uses the queue",
        Condition::Itemerr => "the queue has no such item, or has 32767",
        Condition::Qiderr => "there is no such queue",
        Condition::Enqbusy => "another task owns the value",
    }
}

// Returns which key was sought, before RIDFLD.
fn search_words(generic: bool, gteq: bool) -> &'static str
    ensures { result.now ≡ search_words generic gteq }
{
    match (generic, gteq) {
        (false, false) => " has the key ",
        (false, true) => " has this key or a higher one: ",
        (true, false) => " has a key that begins with ",
        (true, true) => " has a key that begins so, or a higher one: ",
    }
}

// Appends which key no record has.
fn push_sought(out: &mut Vec<u8>, verb: &Verb, generic: bool, gteq: bool) -> Result<(), NoMemory>
    ensures { OnOk result (out.new.items
        ≡ out.old.items ++ sought_text verb.now generic gteq) }
{
    push_about(out, "no record of ", verb, search_words(generic, gteq))?;
    push_text(out, key_in(verb))
}

// Appends what is told of NOTFND.
fn push_absent(out: &mut Vec<u8>, verb: &Verb) -> Result<(), NoMemory>
    ensures { OnOk result (out.new.items ≡ out.old.items ++ absent_text verb.now) }
{
    match verb {
        Verb::Read { generic, gteq, .. } => push_sought(out, verb, *generic, *gteq),
        Verb::Delete { generic, .. } => push_sought(out, verb, *generic, false),
        Verb::StartBr { generic, equal, .. } | Verb::ResetBr { generic, equal, .. } => {
            push_sought(out, verb, *generic, !*equal)
        }
        _ => push_about(out, "no record of ", verb, " has the key of the start"),
    }
}

// Appends what is told of ITEMERR.
fn push_item(out: &mut Vec<u8>, verb: &Verb) -> Result<(), NoMemory>
    ensures { OnOk result (out.new.items ≡ out.old.items ++ item_text verb.now) }
{
    match verb {
        Verb::ReadqTs {
            item: Some(item),
            ..
        }
        | Verb::WriteqTs {
            item: Some(item),
            ..
        } => {
            push_about(out, "queue ", verb, " has no item ")?;
            push_number(out, *item)
        }
        Verb::ReadqTs { .. } => push_about(out, "queue ", verb, " has no item after its cursor"),
        _ => push_about(out, "queue ", verb, " has 32767 items already"),
    }
}

/// Appends what is told of a condition that came up as a command was executed.
pub fn push_cause(out: &mut Vec<u8>, verb: &Verb, condition: Condition) -> Result<(), NoMemory>
    ensures { OnOk result (out.new.items ≡ out.old.items ++ cause_text verb.now condition) }
{
    match condition {
        Condition::Notfnd => push_absent(out, verb),
        Condition::Duprec => {
            push_about(out, "a record of ", verb, " has the key ")?;
            push_parts(out, &[Text(key_in(verb)), Str(" already")])
        }
        Condition::Endfile => push_about(out, "no record of ", verb, " is left that way"),
        Condition::Lengerr => push_parts(
            out,
            &[
                Str("what was read is longer than LENGTH("),
                Number(length_in(verb)),
                Str(")"),
            ],
        ),
        Condition::Qzero => push_about(out, "queue ", verb, " has no record"),
        Condition::Qbusy => push_about(out, "another task uses queue ", verb, ""),
        Condition::Itemerr => push_item(out, verb),
        Condition::Qiderr => push_about(out, "there is no queue ", verb, ""),
        Condition::Enqbusy => push_parts(
            out,
            &[Str("another task owns the value "), Text(used_in(verb))],
        ),
        _ => push_str(out, general_text(condition)),
    }
}
