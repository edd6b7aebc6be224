//! What is suggested for a name that isn't there.

ghost use Rattle.std.specs.Prelude.{◌≡◌, ◌++◌, OnOk};
ghost use Rattle.cics_run.specs.Messages.Instead.{instead_text, meant_queue, meant_words};
ghost use Rattle.cics_run.specs.Messages.Instead.{instead_in};

use crate::messages::nearest::{nearest_file, nearest_queue, same_queue};
use crate::stage::Stage;
use cics_names::{Condition, Name4, Name8, NoMemory, Verb};
use cics_script::spelling::Part::{Bare, Str};
use cics_script::spelling::push_parts;
use cics_units::Opening;

/// Appends the label or the file that is suggested for another one, if there is one, and what is
/// told of it.
pub fn push_instead(out: &mut Vec<u8>, name: Option<Name8>, behind: &str) -> Result<(), NoMemory>
    ensures { OnOk result (out.new.items ≡ out.old.items ++ instead_text name behind.now) }
{
    match name {
        Some(name) => push_parts(out, &[Str("; "), Bare(&name.bytes()), Str(behind)]),
        None => Ok(()),
    }
}

// Appends the queue that is suggested for another one, if there is one, and what is told of it.
fn push_instead_queue(out: &mut Vec<u8>, name: Option<Name4>, behind: &str) -> Result<(), NoMemory>
    ensures { OnOk result (out.new.items ≡ out.old.items ++ instead_text name behind.now) }
{
    match name {
        Some(name) => push_parts(out, &[Str("; "), Bare(&name.bytes()), Str(behind)]),
        None => Ok(()),
    }
}

/// Returns what is told of a queue of transient data that a command of temporary storage names.
pub fn meant_words() -> &'static str
    ensures { result.now ≡ meant_words }
{
    " is a TD queue: without TD, TS is meant"
}

/// Returns the queue of transient data with the name that a command of temporary storage has,
/// capitals or not.
///
/// Cost: O(queues).
pub fn meant_queue(opening: &Opening, verb: &Verb) -> Option<Name4>
    ensures { result ≡ meant_queue opening.now verb.now }
{
    match verb {
        Verb::WriteqTs { queue, .. } | Verb::ReadqTs { queue, .. } | Verb::DeleteqTs { queue } => {
            same_queue(opening, &queue.bytes())
        }
        _ => None,
    }
}

/// Appends what is defined almost as the file or queue that a command names, if its condition says
/// that this isn't there. Of a queue of temporary storage it is one of transient data.
pub fn push_instead_in(
    out: &mut Vec<u8>,
    stage: &Stage,
    verb: &Verb,
    condition: Condition,
) -> Result<(), NoMemory>
    ensures { OnOk result (out.new.items
        ≡ out.old.items ++ instead_in stage.now verb.now condition) }
{
    let Stage::Running(region) = stage else {
        return Ok(());
    };
    let opening = region.units().opening();
    match condition {
        Condition::Dsiderr => match verb.file() {
            Some(name) => push_instead(out, nearest_file(opening, name), " is"),
            None => Ok(()),
        },
        Condition::Qiderr => match verb {
            Verb::WriteqTd { queue, .. }
            | Verb::ReadqTd { queue, .. }
            | Verb::DeleteqTd { queue } => {
                push_instead_queue(out, nearest_queue(opening, &queue.bytes()), " is")
            }
            _ => push_instead_queue(out, meant_queue(opening, verb), meant_words()),
        },
        _ => Ok(()),
    }
}
