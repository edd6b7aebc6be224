//! What a look saw, and what a change replaced.

ghost use Rattle.std.specs.Prelude.{◌≡◌, ◌++◌, OnOk};
ghost use Rattle.cics_run.specs.Reads.Findings.{seen_at, is_dirty, dirty_at, replaced_at, lost_at};

use crate::reads::found::{Fate, Lost, Pair, Seen};
use crate::reads::past::{Past, Touched};
use crate::reads::steps::{Act, Cell, Step};
use cics_names::{Items, NoMemory};

/// What the steps of a run saw and replaced.
#[derive(Drop)]
pub struct Effects {
    /// What each look saw.
    pub seen: Items<Seen>,
    /// What looks saw of turns that were open then, if a backout undoes it.
    pub dirty: Items<Pair>,
    /// The changes that replaced another one without knowing of it.
    pub lost: Items<Lost>,
}

// Returns whether what a look saw is open, and undone if it is backed out.
fn is_dirty(past: &Past, seen: &Seen) -> bool
    ensures { result ≡ is_dirty past.now seen.now }
{
    !seen.lasts && past.fate_of(seen.pair.change.turn) == Fate::Open
}

// Appends what a change replaces at a cell, if its task's last step there is a look before the last
// change.
fn push_replaced(
    past: &Past,
    change: &Step,
    cell: &Cell,
    found: &mut Items<Lost>,
) -> Result<(), NoMemory>
    ensures { OnOk result (found.new ≡ found.old ++ replaced_at past.now change.now cell.now) }
{
    let at = Touched {
        task: change.moment.task,
        cell: cell.copy()?,
    };
    match (past.near(&at), past.last(cell)) {
        (Some(look), Some(missed))
            if matches!(look.act, Act::Look(_) | Act::LookForUpdate(..))
                && look.moment.at < missed.moment.at => {
            found.push(Lost {
                missed: Pair {
                    look: look.moment,
                    change: missed.moment,
                },
                by: change.moment,
                lasts: change.act.lasts(),
            })
        }
        _ => Ok(()),
    }
}

impl Effects {
    // Adds what a step behind `past` saw, if it is a look.
    fn add_seen(&mut self, past: &Past, look: &Step) -> Result<(), NoMemory>
        ensures { OnOk result (self.new ≡ record (self.old) {
          seen = self.old.seen ++ seen_at past.now look.now;
          dirty = self.old.dirty ++ dirty_at past.now look.now;
        }) }
    {
        let Some((low, high)) = look.act.ends()? else {
            return Ok(());
        };
        for (_, one) in past.see(look, &low, &high)? {
            self.seen.push(one)?;
            if is_dirty(past, &one) {
                self.dirty.push(one.pair)?;
            }
        }
        Ok(())
    }

    /// Adds what a step behind `past` saw and replaced.
    pub fn add(&mut self, past: &Past, step: &Step) -> Result<(), NoMemory>
        ensures { OnOk result (self.new ≡ record {
          seen = self.old.seen ++ seen_at past.now step.now;
          dirty = self.old.dirty ++ dirty_at past.now step.now;
          lost = self.old.lost ++ lost_at past.now step.now;
        }) }
    {
        self.add_seen(past, step)?;
        if step.act.adds() {
            return Ok(());
        }
        for cell in step.act.cells() {
            push_replaced(past, step, cell, &mut self.lost)?;
        }
        Ok(())
    }
}
