//! Why a line can't be read.

ghost use Rattle.std.specs.Prelude.{◌≡◌};
ghost use Rattle.cics_script.specs.Faults.{number_of, title_of};

/// Why a line can't be read: the fault of its first wrong token, or of the whole line. The variants
/// stand in the order of the numbers that a journal prints.
#[derive(Clone, Copy, PartialEq, Eq)]
pub enum LineFault {
    /// The line has more than 70,000 bytes.
    TooLong,
    /// A byte of the line is neither a tab nor printable ASCII.
    NotAscii,
    /// A word that isn't known here, another token instead of a word, a byte that begins no token,
    /// or a token after END-EXEC.
    UnknownWord,
    /// A literal, name or area that is wrong or missing. Also a parenthesis too many or too few,
    /// unless the option takes a number.
    BadLiteral,
    /// A number that is wrong, missing or above 18,446,744,073,709,551,615. Also a parenthesis too
    /// many or too few of an option that takes a number.
    BadNumber,
    /// The line is read to its end, and an option that it needs isn't there.
    MissingOption,
    /// An option that the line has already. FILE and DATASET are the same option.
    DoubledOption,
    /// An option that only other lines take, or that an option before it excludes.
    OptionNotHere,
    /// A DEFINE or LOAD line after the first other line that isn't blank or a comment. `read_line`
    /// never returns it: it depends on the lines before.
    DefineTooLate,
    /// Memory was refused: the line itself may be good. No journal prints this.
    NoMemory,
}

impl LineFault {
    /// Returns the number that a journal prints, from 1 on.
    pub fn number(self) -> u64
        ensures { result ≡ number_of self }
    {
        self as u64 + 1
    }

    /// Returns the name that a journal prints after the number.
    pub fn name(self) -> &'static str
        ensures { result.now ≡ title_of self }
    {
        match self {
            LineFault::TooLong => "TooLong",
            LineFault::NotAscii => "NotAscii",
            LineFault::UnknownWord => "UnknownWord",
            LineFault::BadLiteral => "BadLiteral",
            LineFault::BadNumber => "BadNumber",
            LineFault::MissingOption => "MissingOption",
            LineFault::DoubledOption => "DoubledOption",
            LineFault::OptionNotHere => "OptionNotHere",
            LineFault::DefineTooLate => "DefineTooLate",
            LineFault::NoMemory => "NoMemory",
        }
    }
}
