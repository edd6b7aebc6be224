//! The lines of a lane, each with what it says.

ghost use Rattle.std.specs.Prelude.{◌≡◌, IfOk, map, option_copied};
ghost use Rattle.cics_script.specs.Lines.{line};
ghost use Rattle.cics_orders.specs.Giving.{said_at};

use crate::plans::read;
use cics_names::{Items, NoMemory, Record};
use cics_script::{Line, LineFault};
use std::alloc::Global;
use std::marker::Model;
use std::rc::Rc;

// Lines, each with its number, and what each says.
#[derive(Drop)]
struct ReadLines {
    lines: Items<(u64, Record)>,
    says: Items<Result<Line, LineFault>>,
}

/// The lines of a task or of the clock. Each was read once, and copies share them.
///
/// Contracts see the lines, each with its number.
#[derive(Drop)]
pub struct Lines {
    shared: Rc<ReadLines>,
}

impl Model for Lines {
    ghost use Rattle.std.specs.Prelude.{◌≡◌, ℕ, List, map};
    ghost use Rattle.cics_script.specs.Lines.{line};

    ghost Value = { List (ℕ × List ℕ) };

    ghost view = { λ l. l.shared.value.lines };

    ghost invariant = { λ l. l.shared.value.says
        ≡ map (λ next. line next.1) l.shared.value.lines };
}

impl Lines {
    /// Reads lines.
    ///
    /// Errors: `NoMemory`.
    pub(crate) fn new(alloc: Global, lines: &[(u64, Record)]) -> Result<Lines, NoMemory>
        ensures { IfOk result (λ own. own ≡ lines.now) }
    {
        let mut copies = Items::new(alloc);
        let mut says = Items::new(alloc);
        for (number, line) in lines {
            copies.push((*number, line.copy()?))?;
            says.push(read(alloc, line.bytes())?)?;
        }
        let read = ReadLines {
            lines: copies,
            says,
        };
        Ok(Lines {
            shared: Rc::new(alloc, read)?,
        })
    }

    /// Returns a copy, which shares the lines.
    ///
    /// Errors: `NoMemory`, if there are too many copies.
    pub(crate) fn copy(&self) -> Result<Lines, NoMemory>
        ensures { IfOk result (λ copy. copy ≡ self.now) }
    {
        Ok(Lines {
            shared: self.shared.clone()?,
        })
    }

    /// Returns the lines, each with its number.
    pub fn as_slice(&self) -> &[(u64, Record)]
        ensures { result.now ≡ self.now }
    {
        self.shared.as_ref().lines.as_slice()
    }

    // Returns what each line says.
    fn says(&self) -> &[Result<Line, LineFault>]
        ensures { result.now ≡ map (λ next. line next.1) self.now }
    {
        self.shared.as_ref().says.as_slice()
    }

    /// Returns what the line of an index says, if there is one.
    pub(crate) fn said_at(&self, index: usize) -> Option<&Result<Line, LineFault>>
        ensures { option_copied result ≡ said_at self.now index }
    {
        match self.says().get(index) {
            Some(says) => Some(says),
            None => None,
        }
    }
}
