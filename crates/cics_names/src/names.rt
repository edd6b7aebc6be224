//! Names of data sets, queues and transactions.

ghost use Rattle.std.specs.Prelude.{◌≡◌};
ghost use Rattle.cics_names.specs.Names.{name_of};

use crate::ebcdic::to_ebcdic;
use std::hash::{Hash, Hasher};
use std::marker::Model;

// The byte that fills names up.
const BLANK: u8 = 0x40;

/// Why a text is no name.
///
/// A text is looked at for these faults in the order `TooLong`, `BadCharacter`, `Empty`, and has
/// the first one that it shows.
#[derive(Clone, Copy, Debug, PartialEq, Eq)]
pub enum NameFault {
    /// No character but blanks, or none at all.
    Empty,
    /// More bytes than a name of its kind has; trailing blanks count.
    TooLong,
    /// A byte that is none of the 85 characters.
    BadCharacter,
}

/// A name of eight EBCDIC bytes, filled up with blanks on the right: of a data set, a temporary
/// storage queue or a task.
///
/// Two spellings that are filled up to the same bytes are one name. Names are equal, are ordered
/// and are hashed by the eight bytes, the order being that of unsigned bytes from the first one on.
#[derive(Clone, Copy, PartialEq, Eq, PartialOrd, Ord)]
pub struct Name8 {
    bytes: [u8; 8],
}

/// A name of four EBCDIC bytes, filled up with blanks on the right: of a transient data queue, a
/// transaction or an abend.
///
/// Two spellings that are filled up to the same bytes are one name. Names are equal, are ordered
/// and are hashed by the four bytes, the order being that of unsigned bytes from the first one on.
#[derive(Clone, Copy, PartialEq, Eq, PartialOrd, Ord)]
pub struct Name4 {
    bytes: [u8; 4],
}

impl Model for Name8 {
    ghost use Rattle.std.specs.Prelude.{ℕ, List};

    ghost Value = { List ℕ };

    ghost view = { λ n. n.bytes };

    ghost inverse = { λ b. record { bytes = b } };
}

impl Model for Name4 {
    ghost use Rattle.std.specs.Prelude.{ℕ, List};

    ghost Value = { List ℕ };

    ghost view = { λ n. n.bytes };

    ghost inverse = { λ b. record { bytes = b } };
}

impl Hash for Name8 {
    ghost use Rattle.std.proofs.Common.{rules};
    ghost use Rattle.std.specs.Cmp.Rules.{hashing};
    ghost use Rattle.std.specs.Hash as fed;
    ghost use Rattle.std.specs.Int.{w64, from_be_bytes};

    ghost hash_input = { λ n. fed.u64 (from_be_bytes w64 n) };

    ghost respects_eq = { Prim.search (hashing, rules) };

    // As one number, which a hasher takes faster than its bytes.
    fn hash<H: Hasher>(&self, state: &mut H) {
        state.write_u64(u64::from_be_bytes(self.bytes));
    }
}

impl Hash for Name4 {
    ghost use Rattle.std.proofs.Common.{rules};
    ghost use Rattle.std.specs.Cmp.Rules.{hashing};
    ghost use Rattle.std.specs.Hash as fed;
    ghost use Rattle.std.specs.Int.{w32, from_be_bytes};

    ghost hash_input = { λ n. fed.u32 (from_be_bytes w32 n) };

    ghost respects_eq = { Prim.search (hashing, rules) };

    // As one number, which a hasher takes faster than its bytes.
    fn hash<H: Hasher>(&self, state: &mut H) {
        state.write_u32(u32::from_be_bytes(self.bytes));
    }
}

impl Name8 {
    /// Returns the name that an ASCII text of one to eight characters writes, or the first fault of
    /// the text.
    ///
    /// Blanks in front and between count as characters of the name; those at the end make no
    /// difference.
    pub fn new(text: &[u8]) -> Result<Name8, NameFault>
        ensures { result ≡ name_of 8 text.now }
    {
        Ok(Name8 {
            bytes: padded(text)?,
        })
    }

    /// Returns its eight EBCDIC bytes, with the blanks that fill it up.
    pub fn bytes(self) -> [u8; 8]
        ensures { result ≡ self }
    {
        self.bytes
    }
}

impl Name4 {
    /// Returns the name that an ASCII text of one to four characters writes, or the first fault of
    /// the text.
    ///
    /// Blanks in front and between count as characters of the name; those at the end make no
    /// difference.
    pub fn new(text: &[u8]) -> Result<Name4, NameFault>
        ensures { result ≡ name_of 4 text.now }
    {
        Ok(Name4 {
            bytes: padded(text)?,
        })
    }

    /// Returns its four EBCDIC bytes, with the blanks that fill it up.
    pub fn bytes(self) -> [u8; 4]
        ensures { result ≡ self }
    {
        self.bytes
    }

    // Returns the name of bytes that are known to be one.
    pub(crate) fn of_bytes(bytes: [u8; 4]) -> Name4
        ensures { result ≡ bytes }
    {
        Name4 { bytes }
    }
}

// Returns the bytes of a name of width N.
fn padded<const N: usize>(text: &[u8]) -> Result<[u8; N], NameFault>
    ensures { result ≡ name_of N text.now }
{
    if text.len() > N {
        return Err(NameFault::TooLong);
    }
    let mut bytes = [BLANK; N];
    let mut is_blank = true;
    for (i, character) in text.iter().enumerate() {
        let Some(code) = to_ebcdic(char::from(*character)) else {
            return Err(NameFault::BadCharacter);
        };
        bytes[i] = code;
        is_blank &= code == BLANK;
    }
    if is_blank {
        Err(NameFault::Empty)
    } else {
        Ok(bytes)
    }
}
