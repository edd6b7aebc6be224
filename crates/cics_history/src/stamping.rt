//! The stamps of commands.

ghost use Rattle.std.specs.Prelude.{◌≡◌, ◌++◌, OnOk};
ghost use Rattle.cics_names.specs.Stamps.{number_stamp, text_stamp};
ghost use Rattle.cics_history.specs.Borrowed.{as_op};
ghost use Rattle.cics_history.specs.Stamps.{op_stamp};

use crate::borrowed::OpRef;
use cics_names::{NoMemory, stamp_number, stamp_text};

// Appends the stamps of a number and of a name.
fn stamp_named(out: &mut Vec<u8>, number: u64, name: &[u8]) -> Result<(), NoMemory>
    ensures { OnOk result (out.new.items
        ≡ out.old.items ++ (number_stamp number ++ text_stamp name.now)) }
{
    stamp_number(out, number)?;
    stamp_text(out, name)
}

// Appends the stamps of a number, of a name, and of a record or its key.
fn stamp_with(out: &mut Vec<u8>, number: u64, name: &[u8], text: &[u8]) -> Result<(), NoMemory>
    ensures { OnOk result (out.new.items
        ≡ out.old.items
        ++ (number_stamp number ++ (text_stamp name.now ++ text_stamp text.now))) }
{
    stamp_named(out, number, name)?;
    stamp_text(out, text)
}

/// Appends the stamp of a command: the number of its kind, and then all that it names.
///
/// Errors: `NoMemory`.
#[tactic(auto, unfolding(crate::specs::Stamps::op_stamp))]
pub fn stamp_op(op: &OpRef<'_>, out: &mut Vec<u8>) -> Result<(), NoMemory>
    ensures { OnOk result (out.new.items ≡ out.old.items ++ op_stamp (as_op op.now)) }
{
    match op {
        OpRef::Write(file, key, from) => {
            stamp_with(out, 1, &file.bytes(), key)?;
            stamp_text(out, from)
        }
        OpRef::Rewrite(file, key, from) => {
            stamp_with(out, 2, &file.bytes(), key)?;
            stamp_text(out, from)
        }
        OpRef::Delete(file, key) => stamp_with(out, 3, &file.bytes(), key),
        OpRef::DeleteGeneric(file, prefix) => stamp_with(out, 4, &file.bytes(), prefix),
        OpRef::ReadUpdate(file, key) => stamp_with(out, 5, &file.bytes(), key),
        OpRef::TsWrite(queue, from) => stamp_with(out, 6, &queue.bytes(), from),
        OpRef::TsRewrite(queue, item, from) => {
            stamp_named(out, 7, &queue.bytes())?;
            stamp_number(out, *item)?;
            stamp_text(out, from)
        }
        OpRef::TsDelete(queue) => stamp_named(out, 8, &queue.bytes()),
        OpRef::TdWrite(queue, from) => stamp_with(out, 9, &queue.bytes(), from),
        OpRef::TdRead(queue) => stamp_named(out, 10, &queue.bytes()),
        OpRef::TdDelete(queue) => stamp_named(out, 11, &queue.bytes()),
    }
}
