//! What files and queues hold back, and for whom.
//!
//! The contract of the function is a law. Its body is empty: nothing is computed here.

ghost use Rattle.std.specs.Prelude.{◌≡◌, ℕ, true, false};
ghost use Rattle.cics_images.specs.Cells.{Cell, is_unnamed};
ghost use Rattle.cics_enqueue.specs.Table.{Table};
ghost use Rattle.cics_history.specs.State.{UnitsState};
ghost use Rattle.cics_history.specs.Events.{is_live};
ghost use Rattle.cics_history.specs.Serial.{NoneIsOpen};
ghost use Rattle.cics_units.specs.HeldBack.{HoldsNothingBack};
ghost use Rattle.cics_units.specs.ImageRows.{kept_by};
ghost use Rattle.cics_units.specs.KeptUnits.{AreValid};
ghost use Rattle.cics_units.specs.Opening.StoreMatching.{StoreWithImages, any_holds, cell_of_any};

/// Files and queues hold something back for open units alone: the empty slot of a record, the empty
/// row of a temporary storage queue, the marks of a LOGICAL queue. `AreValid` is the invariant of
/// `Units`. So this holds of all units after each call.
///
/// - `owned`: each empty slot and each empty row belongs to a before image of an open unit.
/// - `none`: if no unit is open, there is no empty slot, no empty row and no mark. So it is after
///   the last open unit commits or is backed out, and after a shutdown.
pub fn only_open_units_hold_back()
    ensures owned { (s : UnitsState) (stores : StoreWithImages) (table : Table) (x : Cell) →
        AreValid s stores table → any_holds stores.store x ≡ true →
        (u : ℕ) × (is_live s u ≡ true)
        × (is_unnamed cell_of_any (kept_by stores.images u) x ≡ false) }
    ensures none { (s : UnitsState) (stores : StoreWithImages) (table : Table) →
        AreValid s stores table → NoneIsOpen s → HoldsNothingBack stores.store }
{}
