//! READ without UPDATE.

ghost use Rattle.std.specs.Prelude.{◌≡◌, IsTrue, IfOk, false};
ghost use Rattle.cics_browse.specs.Positions.{is_asked_for};
ghost use Rattle.cics_ksds.specs.Files.{key_of, fits_file};
ghost use Rattle.cics_dispatch.specs.Machine.Replies.{read_told, plain, giving, cut};

use crate::machine::outcomes::Reply;
use cics_ksds::{File, FileDef};
use cics_names::{Condition, NoMemory, Record, Verb};

/// Returns a reply of a condition alone.
pub fn plain_reply(condition: Condition) -> Reply
    ensures { result ≡ plain condition }
{
    Reply {
        condition,
        key: None,
        content: None,
        number: None,
    }
}

// Returns whether a record has the key, or if generic a key that begins with it.
fn is_wanted(definition: FileDef, found: &Record, key: &[u8], generic: bool) -> bool
    requires { IsTrue (fits_file definition found.now) }
    ensures { result ≡ is_asked_for key.now generic (key_of definition found.now) }
{
    let own = definition.key_in(found.bytes());
    if generic {
        own.starts_with(key)
    } else {
        key.cmp(&own).is_eq()
    }
}

// Returns the reply with a copy of a record. If LENGTH is below its length, that is LENGERR, with
// its first bytes.
fn reply_giving(found: &Record, length: Option<u64>) -> Result<Reply, NoMemory>
    ensures { IfOk result (λ reply. reply ≡ cut length (giving found.now)) }
{
    let (condition, content) = match length {
        Some(length) if length < found.bytes().len() as u64 => {
            (Condition::Lengerr, found.part(0, length as usize)?)
        }
        _ => (Condition::Normal, found.copy()?),
    };
    Ok(Reply {
        condition,
        key: None,
        content: Some(content),
        number: None,
    })
}

/// Returns the reply to a READ that is executed without UPDATE, and INVREQ for another verb. Only
/// the copy of the record found takes memory.
pub fn read_plain(file: &File, verb: &Verb) -> Result<Reply, NoMemory>
    ensures { IfOk result (λ reply. reply ≡ read_told file.now.records verb.now) }
{
    let Verb::Read {
        ridfld,
        length,
        generic,
        gteq,
        ..
    } = verb
    else {
        return Ok(plain_reply(Condition::Invreq));
    };
    let key = ridfld.bytes();
    let Some(found) = file.first_from(key, false) else {
        return Ok(plain_reply(Condition::Notfnd));
    };
    if *gteq || is_wanted(file.definition(), found, key, *generic) {
        reply_giving(found, *length)
    } else {
        Ok(plain_reply(Condition::Notfnd))
    }
}
