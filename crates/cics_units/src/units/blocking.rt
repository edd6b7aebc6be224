//! Which units block a command that may wait for more than one.

ghost use Rattle.std.specs.Prelude.{◌≡◌, IsTrue};
ghost use Rattle.cics_history.specs.Execution.{is_ready_op};
ghost use Rattle.cics_history.specs.Holding.{is_other};
ghost use Rattle.cics_history.specs.declared.resources.Resource.TheVariants.{TdRead, TdWrite};
ghost use Rattle.cics_units.specs.TableInPlace.{is_holder};
ghost use Rattle.cics_units.specs.Blocking.{owns_over, blocks};

use crate::units::Units;
use cics_enqueue::ResourceRef;
use cics_history::{Op, UnitId};
use cics_names::Name4;

// Returns whether a unit isn't the one that asks.
fn is_another(asking: Option<UnitId>, unit: UnitId) -> bool
    ensures { result ≡ is_other asking unit }
{
    match asking {
        Some(asking) => unit != asking,
        None => true,
    }
}

// Returns whether a unit is the owner.
fn is_holder(holder: Option<UnitId>, unit: UnitId) -> bool
    ensures { result ≡ is_holder unit holder }
{
    match holder {
        Some(holder) => holder == unit,
        None => false,
    }
}

impl Units {
    // Returns whether a unit owns the reading end of a queue.
    fn owns_reading(&self, unit: UnitId, queue: Name4) -> bool
        ensures { result ≡ owns_over self.now.state unit (TdRead queue) }
    {
        let holder = self.core.locks.holder_of(&ResourceRef::reading_end(queue));
        is_holder(holder, unit)
    }

    // Returns whether a unit owns the writing end of a queue.
    fn owns_writing(&self, unit: UnitId, queue: Name4) -> bool
        ensures { result ≡ owns_over self.now.state unit (TdWrite queue) }
    {
        let holder = self.core.locks.holder_of(&ResourceRef::writing_end(queue));
        is_holder(holder, unit)
    }

    /// Returns whether a unit other than `asking` owns something that DELETE GENERIC or DELETEQ TD
    /// uses. `false` for other commands, which `awaited` keeps waiting for one unit at most.
    ///
    /// The command has to be ready, as for `submit`. Takes no memory.
    ///
    /// Cost: O(k log resources), k the resources that the unit ever acquired.
    pub fn blocks(&self, unit: UnitId, op: &Op, asking: Option<UnitId>) -> bool
        requires ready { IsTrue (is_ready_op self.now.state asking op.now) }
        ensures { result ≡ blocks self.now.state asking op.now unit }
    {
        if !is_another(asking, unit) {
            return false;
        }
        match op {
            Op::DeleteGeneric { file, prefix } => {
                self.core.locks.owns_under(unit, *file, prefix.bytes())
            }
            Op::TdDelete { queue } => {
                self.opening.is_logical_td(queue)
                    && (self.owns_reading(unit, *queue) || self.owns_writing(unit, *queue))
            }
            _ => false,
        }
    }
}
