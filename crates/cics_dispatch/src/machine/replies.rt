//! Replies: what a task is told of an answer, cut to LENGTH.

ghost use Rattle.std.specs.Prelude.{◌≡◌, option_map};
ghost use Rattle.cics_dispatch.specs.Machine.Replies.{cut};
ghost use Rattle.cics_dispatch.specs.Machine.Steps.{browse_reply, reply_of, reply_with};

use crate::machine::outcomes::{Number, Reply};
use cics_browse::Browsed;
use cics_names::{Condition, Verb};
use cics_units::Answer;

// Returns a reply to a command with this LENGTH. A longer content is LENGERR, with its first bytes.
fn cut(reply: Reply, length: Option<u64>) -> Reply
    ensures { result ≡ cut length reply }
{
    let Reply {
        condition,
        key,
        content,
        number,
    } = reply;
    match (content, length) {
        (Some(content), Some(length)) if length < content.len() as u64 => Reply {
            condition: Condition::Lengerr,
            key,
            content: Some(content.first(length as usize)),
            number,
        },
        (content, _) => Reply {
            condition,
            key,
            content,
            number,
        },
    }
}

/// Returns the reply to a read of a browse, with no more of the content than LENGTH. Takes no
/// memory.
pub fn reply_of_browsed(browsed: Browsed, length: Option<u64>) -> Reply
    ensures { result ≡ cut length (browse_reply browsed) }
{
    let reply = Reply {
        condition: browsed.condition,
        key: browsed.key,
        content: browsed.content,
        number: None,
    };
    cut(reply, length)
}

// Returns the reply of an answer, with this number, and with no more of the content than LENGTH.
fn reply_with(answer: Answer, number: Option<Number>, length: Option<u64>) -> Reply
    ensures { result ≡ reply_with length number answer }
{
    let reply = Reply {
        condition: answer.condition,
        key: None,
        content: answer.content,
        number,
    };
    cut(reply, length)
}

/// Returns the reply to READQ TS, with the number of the item and no more of its content than
/// LENGTH. Takes no memory, so nothing fails after the cursor has moved.
pub fn reply_of_item(answer: Answer, length: Option<u64>) -> Reply
    ensures { result ≡ reply_with length (option_map (λ k. Number.Item k) answer.number) answer }
{
    let number = answer.number.map(Number::Item);
    reply_with(answer, number, length)
}

/// Returns the reply to an executed command, with no more of the content than LENGTH. Its number is
/// that of the item or of the records deleted. Takes no memory, so nothing fails after the change.
pub fn reply_of_answer(answer: Answer, verb: &Verb) -> Reply
    ensures { result ≡ reply_of verb.now answer }
{
    let number = match verb {
        Verb::Delete { .. } => answer.number.map(Number::Numrec),
        _ => answer.number.map(Number::Item),
    };
    reply_with(answer, number, verb.length())
}
