//! Hints at the end of a run, on RESP2 alone, and on what was written to temporary storage.

ghost use Rattle.std.specs.Prelude.{OnOk};
ghost use Rattle.cics_run.specs.Messages.Messages.{IsLonger};

use crate::messages::instead::meant_words;
use crate::session::Session;
use crate::stage::Notice;
use cics_dispatch::Region;
use cics_names::{Name4, Name8, NoMemory};
use cics_script::advice::{Origin, has_resp2_alone, push_place};
use cics_script::spelling::Part::{Bytes, Str};
use cics_script::spelling::{push_bare, push_parts, push_str};

// How many lines with RESP2 alone are kept.
const ENOUGH: usize = 64;

/// Keeps the number of a line whose command has RESP2 alone, if its condition is told: at most 64.
pub fn keep_alone(
    numbers: &mut Vec<u64>,
    number: u64,
    line: &[u8],
    notices: &[Notice],
) -> Result<(), NoMemory> {
    let is_raised = matches!(notices.first(), Some(Notice::Issued(_)));
    if is_raised && numbers.len() < ENOUGH && has_resp2_alone(*numbers.allocator(), line)? {
        numbers.push(number)?;
    }
    Ok(())
}

// Appends a line on a queue of transient data, if temporary storage has a queue of its name. `text`
// is room for the name.
fn push_namesake(
    out: &mut Vec<u8>,
    region: &Region,
    queue: &Name4,
    text: &mut Vec<u8>,
) -> Result<(), NoMemory>
    ensures { OnOk result (IsLonger out.old.items out.new.items) }
{
    text.clear();
    push_bare(text, &queue.bytes())?;
    match Name8::new(text) {
        Ok(name) if region.units().item_count(&name) > 0 => {
            push_parts(
                out,
                &[Str("cicsrun: "), Bytes(text), Str(meant_words()), Str("\n")],
            )
        }
        _ => Ok(()),
    }
}

/// Appends a line for each queue that both transient data and temporary storage have. Behind them
/// it appends one for each line of the script that is kept for its RESP2.
pub fn push_hints(
    out: &mut Vec<u8>,
    region: &Region,
    session: &Session,
    file: Option<&[u8]>,
) -> Result<(), NoMemory>
    ensures { OnOk result (IsLonger out.old.items out.new.items) }
{
    let mut text = Vec::new(*out.allocator());
    for (queue, _) in region.units().opening().queues().iter() {
        push_namesake(out, region, queue, &mut text)?;
    }
    for line in &session.journal.alone {
        push_place(out, Origin { file, line: *line }, None)?;
        push_str(out, "RESP2 alone handles nothing, write RESP or NOHANDLE\n")?;
    }
    Ok(())
}
