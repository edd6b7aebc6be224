//! Plays requests, drains the region, and shows events and faults to an observer.

ghost use Rattle.std.specs.Prelude.{◌≡◌, IfOk, OnOk};
ghost use Rattle.cics_dispatch.specs.Machine.Events.{drained, all_played};
ghost use Rattle.cics_run.specs.Stage.Seen.{after_events, after_fault};
ghost use Rattle.cics_run.specs.Stage.Stages.{region_at};

use crate::stage::{Fault, Observer};
use cics_dispatch::{Event, Region, Request};
use cics_names::NoMemory;

/// Shows a request of the line with this number to an observer, plays it, and drains the region.
/// The observer sees each event too. Never inlined: a request whose address is taken is copied.
///
/// Errors: `NoMemory`.
#[inline(never)]
pub fn play_seen<O: Observer>(
    region: &mut Region,
    number: u64,
    request: Request,
    observer: &mut O,
) -> Result<(), NoMemory>
    ensures region { OnOk result (region.new
        ≡ region_at (all_played region.old.machine request).machine) }
    ensures seen { OnOk result (O.seen observer.new ≡ after_events O.sight number
        (O.sight.with_request (O.seen observer.old) number request region.old)
        (all_played region.old.machine request).turns) }
{
    observer.see_request(number, &request, region)?;
    let event = region.play(request)?;
    show(region, number, event, observer)?;
    drain(region, number, observer)
}

/// Shows an event to an observer. It owns the event, so that it is dropped by one call.
#[inline(always)]
pub fn show<O: Observer>(
    region: &Region,
    number: u64,
    event: Event,
    observer: &mut O,
) -> Result<(), NoMemory>
    ensures { OnOk result (O.seen observer.new ≡ O.sight.with_event (O.seen observer.old) number
        (record { event = event; machine = region.now.machine })) }
{
    observer.see(number, &event, region)
}

/// Shows an observer the fault of the line with this number, if there is one. Returns the fault.
///
/// Errors: `NoMemory`.
#[inline(always)]
pub fn show_fault<O: Observer>(
    number: u64,
    fault: Option<Fault>,
    observer: &mut O,
) -> Result<Option<Fault>, NoMemory>
    ensures fault { IfOk result (λ shown. shown ≡ fault) }
    ensures seen { OnOk result (O.seen observer.new
        ≡ after_fault O.sight number (O.seen observer.old) fault) }
{
    if let Some(fault) = fault {
        observer.see_fault(number, fault)?;
    }
    Ok(fault)
}

/// Drains a region, and shows each event to an observer.
pub fn drain<O: Observer>(
    region: &mut Region,
    number: u64,
    observer: &mut O,
) -> Result<(), NoMemory>
    ensures region { OnOk result (region.new ≡ region_at (drained region.old.machine).machine) }
    ensures seen { OnOk result (O.seen observer.new ≡ after_events O.sight number
        (O.seen observer.old) (drained region.old.machine).turns) }
{
    // After most lines no turn is left, and that is known.
    if region.is_at_rest() {
        region.promises();
        return Ok(());
    }
    take_turns(region, number, observer)
}

// Takes turns until none is left.
#[inline(never)]
fn take_turns<O: Observer>(
    region: &mut Region,
    number: u64,
    observer: &mut O,
) -> Result<(), NoMemory>
    ensures region { OnOk result (region.new ≡ region_at (drained region.old.machine).machine) }
    ensures seen { OnOk result (O.seen observer.new ≡ after_events O.sight number
        (O.seen observer.old) (drained region.old.machine).turns) }
{
    while let Some(event) = region.drain_step()? {
        show(region, number, event, observer)?;
    }
    Ok(())
}
