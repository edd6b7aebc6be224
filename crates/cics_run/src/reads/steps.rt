//! The steps of a run: what its tasks looked at and changed, and where their turns ended.

ghost use Rattle.std.specs.Prelude.{◌≡◌, IfOk, Some};
ghost use Rattle.cics_names.specs.Keyed.{is_same};
ghost use Rattle.cics_run.specs.Reads.Steps.{same_cell, is_from, is_upto, views, altered, key_of};
ghost use Rattle.cics_run.specs.Reads.Steps.{view_ends, single, is_adding, is_lasting, changes};
ghost use Rattle.cics_run.specs.declared.reads.steps.Cell.TheVariants.{Record as RecordCell};

use cics_names::{Items, Name8, NoMemory, Record};

/// What a step is at: a key of a file, or an item of a temporary storage queue by its number.
#[derive(PartialEq, Eq, PartialOrd, Ord, Drop)]
pub enum Cell {
    Record(Name8, Record),
    Item(Name8, u64),
}

/// An end of an interval of keys.
#[derive(Drop)]
pub enum Bound {
    /// The key is in the interval.
    In(Record),
    /// The key isn't in the interval.
    Out(Record),
}

/// The cells that a look covers.
#[derive(Drop)]
pub enum Spot {
    /// The keys of a file from one bound to another.
    Keys { file: Name8, from: Bound, to: Bound },
    /// An item of a queue.
    Item(Name8, u64),
}

/// The cells that a command changed.
#[derive(Drop)]
pub struct Change {
    pub cells: Items<Cell>,
    /// Whether the command was WRITE, or WRITEQ TS without REWRITE.
    pub adds: bool,
    /// Whether the file or the queue is unrecoverable, so that no backout undoes the change.
    pub lasts: bool,
}

/// What a task did.
#[derive(Drop)]
pub enum Act {
    /// A READ without UPDATE, a command of a browse, or a READQ TS.
    Look(Spot),
    /// A READ UPDATE that was given the record of a key.
    LookForUpdate(Name8, Record),
    Change(Change),
    /// The end of a turn.
    End { is_committed: bool },
}

/// When a step happened: its number, line and task, and the number of its turn's first step. Both
/// numbers count the steps before.
#[derive(Clone, Copy)]
pub struct Moment {
    pub at: u64,
    pub line: u64,
    pub task: Name8,
    pub turn: u64,
}

/// A step of a run.
#[derive(Drop)]
pub struct Step {
    pub moment: Moment,
    pub act: Act,
}

/// Returns whether two names are the same.
pub(crate) fn is_same(one: &Name8, other: &Name8) -> bool
    ensures { result ≡ is_same one.now other.now }
{
    one.cmp(other).is_eq()
}

// Returns two records of a file.
fn records(file: Name8, first: &Record, last: &Record) -> Result<Option<(Cell, Cell)>, NoMemory>
    ensures { IfOk result (λ ends. ends
        ≡ Some (RecordCell file first.now, RecordCell file last.now)) }
{
    Ok(Some((
        Cell::Record(file, first.copy()?),
        Cell::Record(file, last.copy()?),
    )))
}

impl Cell {
    /// Returns the same cell.
    ///
    /// Errors: `NoMemory`.
    pub fn copy(&self) -> Result<Cell, NoMemory>
        ensures { IfOk result (λ cell. cell ≡ self.now) }
    {
        match self {
            Cell::Record(file, key) => Ok(Cell::Record(*file, key.copy()?)),
            Cell::Item(queue, number) => Ok(Cell::Item(*queue, *number)),
        }
    }

    /// Returns whether two cells are the same.
    pub fn is_same(&self, other: &Cell) -> bool
        ensures { result ≡ same_cell self.now other.now }
    {
        self.cmp(other).is_eq()
    }
}

impl Bound {
    // Returns its key.
    fn key(&self) -> &Record
        ensures { result.now ≡ key_of self.now }
    {
        match self {
            Bound::In(key) => key,
            Bound::Out(key) => key,
        }
    }

    // Returns whether a key isn't before the interval that begins here.
    fn is_from(&self, key: &Record) -> bool
        ensures { result ≡ is_from self.now key.now }
    {
        match self {
            Bound::In(first) => *key >= *first,
            Bound::Out(last) => *last < *key,
        }
    }

    // Returns whether a key isn't behind the interval that ends here.
    fn is_upto(&self, key: &Record) -> bool
        ensures { result ≡ is_upto self.now key.now }
    {
        match self {
            Bound::In(last) => *last >= *key,
            Bound::Out(first) => *key < *first,
        }
    }
}

impl Act {
    /// Returns whether it looks at a cell.
    pub fn looks_at(&self, cell: &Cell) -> bool
        ensures { result ≡ views self.now cell.now }
    {
        match (self, cell) {
            (Act::Look(Spot::Keys { file, from, to }), Cell::Record(other, key)) => {
                is_same(file, other) && from.is_from(key) && to.is_upto(key)
            }
            (Act::Look(Spot::Item(queue, number)), Cell::Item(other, other_number)) => {
                is_same(queue, other) && *number == *other_number
            }
            (Act::LookForUpdate(file, key), Cell::Record(other, other_key)) => {
                is_same(file, other) && key.cmp(other_key).is_eq()
            }
            _ => false,
        }
    }

    /// Returns two cells between which all lie that it looks at, if it is a look.
    ///
    /// Errors: `NoMemory`.
    pub fn ends(&self) -> Result<Option<(Cell, Cell)>, NoMemory>
        ensures { IfOk result (λ ends. ends ≡ view_ends self.now) }
    {
        match self {
            Act::Look(Spot::Keys { file, from, to }) => records(*file, from.key(), to.key()),
            Act::Look(Spot::Item(queue, number)) => {
                Ok(Some((Cell::Item(*queue, *number), Cell::Item(*queue, *number))))
            }
            Act::LookForUpdate(file, key) => records(*file, key, key),
            _ => Ok(None),
        }
    }

    /// Returns the only cell that it looks at, if it names no two keys.
    ///
    /// Errors: `NoMemory`.
    pub fn single(&self) -> Result<Option<Cell>, NoMemory>
        ensures { IfOk result (λ cell. cell ≡ single self.now) }
    {
        match self {
            Act::Look(
                Spot::Keys {
                    file,
                    from: Bound::In(first),
                    to: Bound::In(last),
                },
            ) if first.cmp(last).is_eq() => Ok(Some(Cell::Record(*file, first.copy()?))),
            Act::Look(Spot::Item(queue, number)) => Ok(Some(Cell::Item(*queue, *number))),
            Act::LookForUpdate(file, key) => Ok(Some(Cell::Record(*file, key.copy()?))),
            _ => Ok(None),
        }
    }

    /// Returns the cells that it changes.
    pub fn cells(&self) -> &[Cell]
        ensures { result.now ≡ altered self.now }
    {
        match self {
            Act::Change(change) => change.cells.as_slice(),
            _ => &[],
        }
    }

    /// Returns whether it adds a record or an item.
    pub fn adds(&self) -> bool
        ensures { result ≡ is_adding self.now }
    {
        match self {
            Act::Change(change) => change.adds,
            _ => false,
        }
    }

    /// Returns whether it is a change that no backout undoes.
    pub fn lasts(&self) -> bool
        ensures { result ≡ is_lasting self.now }
    {
        match self {
            Act::Change(change) => change.lasts,
            _ => false,
        }
    }
}

impl Step {
    /// Returns whether it changes a cell.
    pub fn changes(&self, cell: &Cell) -> bool
        ensures { result ≡ changes self.now cell.now }
    {
        self.act.cells().iter().any(|one| cell.is_same(one))
    }
}
