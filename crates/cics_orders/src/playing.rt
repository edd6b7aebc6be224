//! What a line does: it is asked of the region, which then drains.

ghost use Rattle.std.specs.Prelude.{◌≡◌, IfOk, OnOk};
ghost use Rattle.cics_orders.specs.Giving.{asked, told_all, happening};
ghost use Rattle.cics_orders.specs.Playing.{Takes};

use crate::lanes::{Lane, hear};
use cics_dispatch::{Region, Request};
use cics_names::NoMemory;
use cics_script::{Line, LineFault};

/// Returns what a line asks of the region: a command, the clock or the shutdown. Another line, or
/// one that can't be read, asks nothing.
pub(crate) fn asked(says: &Result<Line, LineFault>) -> Result<Option<Request>, NoMemory>
    ensures { IfOk result (λ request. request ≡ asked says.now) }
{
    match says {
        Ok(Line::Issue(label, command)) => Ok(Some(Request::Issue(*label, command.copy()?))),
        Ok(Line::Clock(seconds)) => Ok(Some(Request::Clock(*seconds))),
        Ok(Line::Shutdown) => Ok(Some(Request::Shutdown)),
        _ => Ok(None),
    }
}

// Takes one turn of draining, and tells its task the outcome. Returns whether there was one.
fn drain_once(region: &mut Region, lanes: &mut Vec<Lane>) -> Result<bool, NoMemory>
    ensures { IfOk result (Takes region.old.machine region.new.machine lanes.old.items
        lanes.new.items) }
{
    match region.drain_step()? {
        Some(event) => {
            hear(lanes, event)?;
            Ok(true)
        }
        None => Ok(false),
    }
}

/// Asks a request of the region, and drains it. Tells tasks what happens.
///
/// Errors: `NoMemory`.
///
/// Cost: that of the request and of each turn, and O(lanes) for each outcome.
pub(crate) fn play(
    region: &mut Region,
    lanes: &mut Vec<Lane>,
    request: Request,
) -> Result<(), NoMemory>
    ensures machine { OnOk result (region.new.machine
        ≡ (happening region.old.machine request).machine) }
    ensures told { OnOk result (lanes.new.items
        ≡ told_all lanes.old.items (happening region.old.machine request).turns) }
{
    let event = region.play(request)?;
    hear(lanes, event)?;
    while drain_once(region, lanes)? {}
    Ok(())
}
