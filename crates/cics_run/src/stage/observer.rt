//! Who sees what the lines of a script lead to.

ghost use Rattle.std.specs.Prelude.{◌≡◌, false, ℕ, OnOk};
ghost use Rattle.cics_dispatch.specs.Machine.Machine.{RegionValue};
ghost use Rattle.cics_dispatch.specs.declared.machine.events.Request.{Request as RequestOf};
ghost use Rattle.cics_run.specs.Stage.Seen.{Sight};

use crate::stage::Fault;
use cics_dispatch::{Event, Region, Request};
use cics_names::NoMemory;

/// Sees the requests, the events and the faults of the lines that a stage runs. The only error of
/// its calls is `NoMemory`.
pub trait Observer {
    /// What it can have seen.
    ghost Seen: { Type 0 };

    /// What it has seen.
    ghost seen: { Self → Seen };

    /// What it makes of a request, of an event and of a fault.
    ghost sight: { Sight Seen };

    /// Returns false only if no request makes a difference to what it has seen.
    fn sees_requests(&self) -> bool
        ensures { result ≡ false → (number : ℕ) (request : RequestOf) (r : RegionValue)
            → sight.with_request (seen self.now) number request r ≡ seen self.now };

    /// Sees what the line with this number asks, and the region before that.
    fn see_request(
        &mut self,
        number: u64,
        request: &Request,
        region: &Region,
    ) -> Result<(), NoMemory>
        ensures { OnOk result (seen self.new
            ≡ sight.with_request (seen self.old) number request.now region.now) };

    /// Sees an event of the line with this number, and the region behind it.
    fn see(&mut self, number: u64, event: &Event, region: &Region) -> Result<(), NoMemory>
        ensures { OnOk result (seen self.new ≡ sight.with_event (seen self.old) number
            (record { event = event.now; machine = region.now.machine })) };

    /// Sees the fault of the line with this number, which ends the run.
    fn see_fault(&mut self, number: u64, fault: Fault) -> Result<(), NoMemory>
        ensures { OnOk result (seen self.new ≡ sight.with_fault (seen self.old) number fault) };
}
