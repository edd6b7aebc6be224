//! The steps of a run so far, and what is found in them.

ghost use Rattle.std.specs.Prelude.{◌≡◌, [], IfOk, OnOk};
ghost use Rattle.cics_run.specs.Reads.Runs.{with_step};
ghost use Rattle.cics_run.specs.Reads.Written.{findings};

use crate::reads::found::Finding;
use crate::reads::ordering::{push_dirty, push_lost};
use crate::reads::past::Past;
use crate::reads::seeing::Effects;
use crate::reads::skews::{push_read_skews, push_write_skews};
use crate::reads::steps::{Act, Step};
use cics_names::{Items, Name8, NoMemory};
use std::alloc::Global;
use std::marker::Model;

/// The steps of a run so far, and what is found in them.
///
/// Contracts see the steps, the newest first. Once `note` returns `NoMemory`, the steps are lost,
/// and each later call returns it too.
#[derive(Drop)]
pub struct Reads {
    past: Option<Past>,
    effects: Effects,
}

impl Model for Reads {
    ghost use Rattle.std.specs.Prelude.{◌≡◌, [], unwrap_or, IfSome};
    ghost use Rattle.cics_run.specs.Reads.Runs.{Run};
    ghost use Rattle.cics_run.specs.Reads.Findings.{all_seen, dirty_reads, all_lost};

    ghost Value = { Run };

    ghost view = { λ r. unwrap_or r.past [] };

    ghost invariant = { λ r. record {
      seen_by_steps : IfSome r.past (λ run. r.effects.seen ≡ all_seen run);
      dirty_by_steps : IfSome r.past (λ run. r.effects.dirty ≡ dirty_reads run);
      lost_by_steps : IfSome r.past (λ run. r.effects.lost ≡ all_lost run);
    } };
}

impl Reads {
    /// Returns a run without steps. It takes no memory.
    pub fn new(alloc: Global) -> Reads
        ensures { result ≡ [] }
    {
        Reads {
            past: Some(Past::new(alloc)),
            effects: Effects {
                seen: Items::new(alloc),
                dirty: Items::new(alloc),
                lost: Items::new(alloc),
            },
        }
    }

    /// Notes what a task did by the line of this number.
    ///
    /// A READ UPDATE is left out if the task's last step at its key is a look by another command.
    ///
    /// Errors: `NoMemory`.
    pub fn note(&mut self, line: u64, task: Name8, act: Act) -> Result<(), NoMemory>
        ensures { OnOk result (self.new ≡ with_step self.old line task act) }
    {
        let Some(past) = self.past.take() else {
            return Err(NoMemory);
        };
        if past.is_no_step(&task, &act)? {
            self.past = Some(past);
            return Ok(());
        }
        let moment = past.next_moment(line, task);
        let step = Step { moment, act };
        self.effects.add(&past, &step)?;
        self.past = Some(past.with_step(step)?);
        Ok(())
    }

    /// Returns all that is found in the run so far: the dirty reads, the lost updates, the read
    /// skews and the write skews, those of one name in order.
    ///
    /// Errors: `NoMemory`.
    pub fn findings(&self) -> Result<Items<Finding>, NoMemory>
        ensures { IfOk result (λ found. found ≡ findings self.now) }
    {
        let Some(past) = &self.past else {
            return Err(NoMemory);
        };
        let mut found = Items::new(past.alloc());
        push_dirty(past, self.effects.dirty.as_slice(), &mut found)?;
        push_lost(past, self.effects.lost.as_slice(), &mut found)?;
        push_read_skews(past, self.effects.seen.as_slice(), &mut found)?;
        push_write_skews(past, &mut found)?;
        Ok(found)
    }
}
