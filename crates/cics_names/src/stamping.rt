//! Stamps: bytes that tell a value. Values of one type with the same stamp are equal, whatever
//! bytes follow.

ghost use Rattle.std.specs.Prelude.{◌≡◌, ◌++◌, OnOk};
ghost use Rattle.cics_names.specs.Stamps.{number_stamp, flag_stamp, text_stamp};

use crate::records::NoMemory;

// The byte before a number that takes nine bytes.
const LONG: u8 = 254;

/// Appends the stamp of a number: one byte if it is below 254, else nine.
///
/// Errors: `NoMemory`.
pub fn stamp_number(out: &mut Vec<u8>, number: u64) -> Result<(), NoMemory>
    ensures { OnOk result (out.new.items ≡ out.old.items ++ number_stamp number) }
{
    if number < u64::from(LONG) {
        out.push(number as u8)?;
        return Ok(());
    }
    out.push(LONG)?;
    out.extend_from_slice(&number.to_be_bytes())?;
    Ok(())
}

/// Appends the stamp of a flag, a byte: 1 if it is true, else 0.
///
/// Errors: `NoMemory`.
pub fn stamp_flag(out: &mut Vec<u8>, flag: bool) -> Result<(), NoMemory>
    ensures { OnOk result (out.new.items ≡ out.old.items ++ flag_stamp flag) }
{
    stamp_number(out, u64::from(flag))
}

/// Appends the stamp of a text: how many bytes it has, and the bytes.
///
/// Errors: `NoMemory`.
pub fn stamp_text(out: &mut Vec<u8>, text: &[u8]) -> Result<(), NoMemory>
    ensures { OnOk result (out.new.items ≡ out.old.items ++ text_stamp text.now) }
{
    stamp_number(out, text.len() as u64)?;
    out.extend_from_slice(text)?;
    Ok(())
}
