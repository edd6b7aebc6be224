//! The blockers of waiting commands, and the numbers of tasks.

ghost use Rattle.std.specs.Prelude.{◌≡◌, ◌<◌, true, IfOk, IfSome, length};
ghost use Rattle.std.specs.List.{filter_map};
ghost use Rattle.cics_history.specs.Execution.{is_ready_op};
ghost use Rattle.cics_dispatch.specs.Machine.Calls.{OfTask};
ghost use Rattle.cics_dispatch.specs.Machine.Blockers.{unit_of, shared_op, blocking_label, blockers_of};
ghost use Rattle.std.specs.Option.{option_copied};
ghost use Rattle.cics_dispatch.specs.Machine.Blockers.{blocker_of, label_at, number_of};
ghost use Rattle.cics_dispatch.specs.Machine.Blockers.{waiting_command, browse_of};

use crate::dispatcher::Dispatcher;
use cics_browse::Browse;
use cics_history::UnitId;
use cics_names::{Command, Items, Name8, NoMemory};
use cics_units::Op;

impl Dispatcher {
    /// Returns the command of a label's task that waits, if one does.
    pub(crate) fn waiting_command(&self, label: &Name8) -> Option<&Command>
        ensures { option_copied result ≡ waiting_command self.now.machine label.now }
    {
        let wait = self.waits.get(label)?;
        Some(wait.command())
    }

    /// Returns the label of the task whose unit blocks the waiting command of a label's task.
    pub(crate) fn blocker(&self, label: &Name8) -> Option<Name8>
        ensures { result ≡ blocker_of self.now.machine label.now }
    {
        let wait = self.waits.get(label)?;
        let at = self.tasks.find(label)?;
        let unit = self.awaited(at, wait)?;
        self.tasks.label_of(unit)
    }

    // Returns the waiting command of a label's task, if it may wait for more than one unit.
    fn shared_op(&self, label: &Name8) -> Option<&Op>
        ensures op { option_copied result ≡ shared_op self.now.machine label.now }
        ensures ready { IfSome result (λ op. is_ready_op self.now.machine.units
            (unit_of self.now.machine label.now) op.now ≡ true) }
    {
        let wait = self.waits.get(label)?;
        match wait.op() {
            Some(op) => match op {
                Op::DeleteGeneric { .. } | Op::TdDelete { .. } => Some(op),
                _ => None,
            },
            None => None,
        }
    }

    // Returns the label of the task at an index, if its unit blocks a command.
    fn blocking_label(&self, asking: &Option<UnitId>, op: &Op, at: usize) -> Option<Name8>
        requires within { at < length self.now.machine.tasks }
        requires ready { is_ready_op self.now.machine.units asking.now op.now ≡ true }
        ensures { OfTask self.now.machine.tasks at (λ t. result
            ≡ blocking_label self.now.machine.units asking.now op.now t) }
    {
        let task = self.tasks.get(at);
        let unit = task.unit()?;
        if self.units.blocks(unit, op, *asking) {
            Some(task.label())
        } else {
            None
        }
    }

    // Returns the labels of all tasks whose units block a command.
    fn blocking_labels(&self, asking: &Option<UnitId>, op: &Op) -> Result<Items<Name8>, NoMemory>
        requires { is_ready_op self.now.machine.units asking.now op.now ≡ true }
        ensures { IfOk result (λ labels. labels
            ≡ filter_map (blocking_label self.now.machine.units asking.now op.now)
            self.now.machine.tasks) }
    {
        let mut labels = Items::new(self.alloc);
        for at in 0..self.tasks.len() {
            if let Some(label) = self.blocking_label(asking, op, at) {
                labels.push(label)?;
            }
        }
        Ok(labels)
    }

    /// Returns the labels of the tasks that block the waiting command of a label's task.
    pub(crate) fn blockers(&self, label: &Name8) -> Result<Items<Name8>, NoMemory>
        ensures { IfOk result (λ labels. labels ≡ blockers_of self.now.machine label.now) }
    {
        if let Some(op) = self.shared_op(label) {
            return self.blocking_labels(&self.unit_of(label), op);
        }
        let mut labels = Items::new(self.alloc);
        if let Some(blocker) = self.blocker(label) {
            labels.push(blocker)?;
        }
        Ok(labels)
    }

    /// Returns the browse of a file that a label's task has open.
    pub(crate) fn browse(&self, label: &Name8, file: &Name8) -> Option<&Browse>
        ensures { option_copied result ≡ browse_of self.now.machine label.now file.now }
    {
        let at = self.tasks.find(label)?;
        self.tasks.get(at).browses().get(file)
    }

    /// Returns how many tasks were attached.
    pub(crate) fn task_count(&self) -> usize
        ensures { result ≡ length self.now.machine.tasks }
    {
        self.tasks.len()
    }

    /// Returns the label of the task of a number, if there is one.
    pub(crate) fn label_at(&self, number: usize) -> Option<Name8>
        ensures { result ≡ label_at self.now.machine.tasks number }
    {
        if number < self.tasks.len() {
            Some(self.tasks.get(number).label())
        } else {
            None
        }
    }

    /// Returns the number of the task of a label, if there is one.
    pub(crate) fn number(&self, label: &Name8) -> Option<usize>
        ensures { result ≡ number_of self.now.machine.tasks label.now }
    {
        self.tasks.find(label)
    }
}
