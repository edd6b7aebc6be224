//! What a region lists: its files, queues and tasks, and what a replay of its history gives.

ghost use Rattle.std.specs.Prelude.{◌≡◌, IfOk};
ghost use Rattle.cics_dispatch.specs.Machine.Answers.{region_listing, replayed_listing, task_state};
ghost use Rattle.cics_dispatch.specs.Machine.Answers.{tasks_listed};

use crate::dispatcher::Dispatcher;
use crate::machine::Task;
use cics_names::{Items, Name8, NoMemory};
use cics_units::{Listing, TaskState, Units, plain_replay};

impl Dispatcher {
    /// Returns the units of work of the region.
    pub fn units(&self) -> &Units
        ensures { result.now ≡ record { state = self.now.machine.units; store = self.now.store } }
    {
        &self.units
    }

    // Returns the state of a task that hasn't ended.
    fn task_state(&self, task: &Task) -> TaskState
        ensures { result ≡ task_state self.now.machine task.now }
    {
        if self.is_waiting(&task.label()) {
            TaskState::IsWaiting
        } else if task.unit().is_some() {
            TaskState::HasUnit
        } else {
            TaskState::Idle
        }
    }

    // Returns the label and state of each task that hasn't ended, in the order of attach.
    fn tasks_listed(&self) -> Result<Items<(Name8, TaskState)>, NoMemory>
        ensures { IfOk result (λ tasks. tasks ≡ tasks_listed self.now.machine) }
    {
        let mut tasks = Items::new(self.alloc);
        for at in 0..self.tasks.len() {
            let task = self.tasks.get(at);
            if !task.has_ended() {
                tasks.push((task.label(), self.task_state(task)))?;
            }
        }
        Ok(tasks)
    }

    /// Returns what stands in the files and queues, and what each task that hasn't ended does.
    pub fn listing(&self) -> Result<Listing, NoMemory>
        ensures { IfOk result (λ listing. listing ≡ region_listing self.now) }
    {
        let mut listing = self.units.listing()?;
        listing.tasks = self.tasks_listed()?;
        Ok(listing)
    }

    /// Returns the listing that a replay of the surviving entries gives, without tasks.
    pub fn replayed(&self) -> Result<Listing, NoMemory>
        ensures { IfOk result (λ listing. listing ≡ replayed_listing self.now) }
    {
        plain_replay(
            self.alloc,
            self.units.opening(),
            self.units.trace(),
            self.units.outcomes(),
        )
    }
}
