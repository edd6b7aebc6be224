//! The waiting commands of a region.

ghost use Rattle.std.specs.Prelude.{◌≡◌, [], ◌∷◌, ◌++◌, false, length, OnOk, OnErr};
ghost use Rattle.std.specs.Prelude.{◌-◌, Some, IfSome, IfNone, slice_get};
ghost use Rattle.std.specs.Option.{option_copied};
ghost use Rattle.std.specs.Map.Iter.{ShowsInOrder, deref};
ghost use Rattle.cics_dispatch.specs.Machine.Machine.{is_waiting, not_waiting};
ghost use Rattle.cics_dispatch.specs.Machine.Waits.{wait_of, AreBelow, AreApart};

use cics_names::{Command, Name8, NoMemory};
use cics_units::Op;
use indexmap::IndexMap;
use std::alloc::Global;
use std::collections::BTreeMap;
use std::collections::btree_map::Values;
use std::marker::Model;

// The parts of a waiting command.
#[derive(Drop)]
struct Wait {
    label: Name8,
    command: Command,
    op: Option<Op>,
    since: u64,
}

/// A waiting command. Boxed, since a wait that begins or ends moves others in the tree.
pub struct Suspended {
    wait: Box<Wait>,
}

// By hand: so each place that drops a wait is one call, not a drop of the box and its fields.
impl Drop for Suspended {
    fn drop(self) {
        let Suspended { wait: _wait } = self;
    }
}

impl Model for Suspended {
    ghost use Rattle.cics_dispatch.specs.Machine.Machine.{Suspended as SuspendedValue};

    ghost Value = { SuspendedValue };

    ghost view = { λ w. record {
      label = w.wait.value.label;
      command = w.wait.value.command;
      op = w.wait.value.op;
      since = w.wait.value.since;
    } };
}

impl Suspended {
    /// Returns the label of its task.
    pub fn label(&self) -> Name8
        ensures { result ≡ self.now.label }
    {
        self.wait.label
    }

    /// Returns the whole command.
    pub fn command(&self) -> &Command
        ensures { result.now ≡ self.now.command }
    {
        &self.wait.command
    }

    /// Returns the updating command that it asks for. `None` for an ENQ, which asks for none.
    pub fn op(&self) -> Option<&Op>
        ensures { option_copied result ≡ self.now.op }
    {
        self.wait.op.as_ref()
    }

    /// Returns the clock when the wait began, in seconds.
    pub fn since(&self) -> u64
        ensures { result ≡ self.now.since }
    {
        self.wait.since
    }
}

/// The waiting commands, in the order in which the waits began. A task has at most one.
///
/// Cost: O(log waits) to find the wait of a label, to add one, and to remove one.
pub struct Waits {
    // Each wait under a number that is above those of the waits that began before.
    rows: BTreeMap<u64, Suspended>,
    // The number of each label's wait.
    numbers: IndexMap<Name8, u64>,
}

// By hand: so each place that drops waits is one call, not a drop of each field.
impl Drop for Waits {
    fn drop(self) {
        let Waits {
            rows: _rows,
            numbers: _numbers,
        } = self;
    }
}

impl Model for Waits {
    ghost use Rattle.std.specs.Prelude.{List};
    ghost use Rattle.std.specs.Map.{values_of};
    ghost use Rattle.cics_dispatch.specs.Machine.Machine.{Suspended as SuspendedValue};
    ghost use Rattle.cics_dispatch.specs.Machine.Waits.{AreNumbered};

    ghost Value = { List SuspendedValue };

    ghost view = { λ w. values_of w.rows.entries };

    ghost invariant = { λ w. AreNumbered w.rows.entries w.numbers.entries };
}

// Returns a number above those of all waits. None if the greatest of them is u64::MAX.
fn next_number(rows: &BTreeMap<u64, Suspended>) -> Option<u64>
    ensures { IfSome result (λ n. AreBelow n rows.now.entries) }
{
    match rows.last_key_value() {
        Some((last, _)) if *last < u64::MAX => Some(*last + 1),
        Some(_) => None,
        None => Some(0),
    }
}

// Adds a wait, last of all, under a number above those of all waits.
fn add(
    rows: &mut BTreeMap<u64, Suspended>,
    number: u64,
    suspended: Suspended,
) -> Result<(), NoMemory>
    requires { AreBelow number rows.old.entries }
    ensures ok { OnOk result (rows.new.entries ≡ rows.old.entries ++ (number, suspended) ∷ []) }
    ensures err { OnErr result (rows.new.entries ≡ rows.old.entries) }
{
    rows.insert(number, suspended)?;
    Ok(())
}

impl Waits {
    /// Returns no waits. `alloc` gives the memory for those to come.
    pub fn new(alloc: Global) -> Waits
        ensures { result ≡ [] }
    {
        Waits {
            rows: BTreeMap::new(alloc),
            numbers: IndexMap::new(alloc),
        }
    }

    /// Returns how many commands wait.
    pub fn len(&self) -> usize
        ensures count { result ≡ length self.now }
        ensures once { AreApart self.now }
    {
        self.rows.len()
    }

    /// Returns the wait of a label's task, if a command of it waits.
    pub fn get(&self, label: &Name8) -> Option<&Suspended>
        ensures wait { option_copied result ≡ wait_of self.now label.now }
        ensures once { AreApart self.now }
    {
        // Mostly none waits: then no label is looked up.
        if self.rows.len() == 0 {
            return None;
        }
        let number = self.numbers.get(label)?;
        self.rows.get(number)
    }

    /// Returns whether a command of a label's task waits.
    pub fn is_waiting(&self, label: &Name8) -> bool
        ensures waiting { result ≡ is_waiting self.now label.now }
        ensures once { AreApart self.now }
    {
        // Mostly none waits: then no label is looked up.
        if self.rows.len() == 0 {
            return false;
        }
        self.numbers.contains_key(label)
    }

    /// Returns the waits, in the order in which they began.
    pub fn iter(&self) -> Values<'_, u64, Suspended>
        ensures rest { result ≡ self.now }
        ensures runs { ShowsInOrder (deref {X = Suspended}) }
        ensures once { AreApart self.now }
    {
        self.rows.values()
    }

    /// Returns the wait that began last, if a command waits.
    pub fn last(&self) -> Option<&Suspended>
        ensures last { IfSome result (λ wait.
            slice_get self.now (length self.now - 1) ≡ Some wait.now) }
        ensures none { IfNone result (self.now ≡ []) }
        ensures once { AreApart self.now }
    {
        let (_, wait) = self.rows.last_key_value()?;
        Some(wait)
    }

    /// Adds the wait of a command, last of all. No other command of its task waits. `op` is the
    /// updating command that it asks for, `since` the clock, in seconds.
    ///
    /// Errors: `NoMemory`, also if the last wait has the number 2^64 - 1. The waits stay as they
    /// are, and the command is dropped.
    pub fn begin(
        &mut self,
        label: Name8,
        command: Command,
        op: Option<Op>,
        since: u64,
    ) -> Result<(), NoMemory>
        requires { is_waiting self.old label ≡ false }
        ensures ok { OnOk result (self.new ≡ self.old
            ++ record { label = label; command = command; op = op; since = since } ∷ []) }
        ensures err { OnErr result (self.new ≡ self.old) }
    {
        let Some(number) = next_number(&self.rows) else {
            return Err(NoMemory);
        };
        if self.numbers.reserve(1).is_err() {
            return Err(NoMemory);
        }
        let wait = Wait {
            label,
            command,
            op,
            since,
        };
        let wait = Box::new(*self.numbers.allocator(), wait)?;
        add(&mut self.rows, number, Suspended { wait })?;
        let _ = self.numbers.insert(label, number);
        Ok(())
    }

    /// Ends the wait of a label's task, if a command of it waits. Takes no memory.
    pub fn remove(&mut self, label: &Name8)
        ensures { self.new ≡ not_waiting self.old label.now }
    {
        let Some(number) = self.numbers.swap_remove(label) else {
            return;
        };
        let Some(_) = self.rows.remove(&number) else {
            unreachable!();
        };
    }
}
