//! What was drawn so far.

ghost use Rattle.std.specs.Prelude.{◌≤◌, length};
ghost use Rattle.cics_picture.specs.Lanes.{most_lanes, most_rows};

use crate::bars::{Bar, Lane};
use crate::lanes::MOST_LANES;
use cics_names::{Items, Name8, NoMemory, Record};

/// How many rows a picture has at most.
pub const MOST_ROWS: u64 = 100_000;

/// The rows so far: their number, and the script's line of each, empty if a row has none.
///
/// Beside them the tasks that have lanes, the lanes, and the bars of units that have ended. The
/// texts are apart: one has the lanes and all to the left of them, the other all to the right.
#[derive(Drop)]
pub struct Drawing {
    pub rows: u64,
    pub lines: Items<Record>,
    pub tasks: Items<Name8>,
    pub marks: Vec<u8>,
    pub texts: Vec<u8>,
    pub lanes: [Lane; MOST_LANES],
    pub bars: Items<Bar>,
    ghost few: { length tasks ≤ most_lanes },
    ghost within: { rows ≤ most_rows },
}

/// Why a picture isn't drawn.
#[derive(Clone, Copy, PartialEq, Eq)]
pub enum Undrawn {
    /// A request for memory was refused.
    NoMemory,
    /// It would have more than `MOST_ROWS` rows.
    TooManyRows,
}

impl From<NoMemory> for Undrawn {
    ghost use Rattle.std.specs.Prelude.{◌≡◌};
    ghost use Rattle.cics_picture.specs.declared.drawing.Undrawn.TheVariants.{NoMemory as Wanting};

    ghost from_gives = { λ _ undrawn. undrawn ≡ Wanting };

    fn from(_want: NoMemory) -> Undrawn {
        Undrawn::NoMemory
    }
}
