//! Whether something is amiss at the end of a strict run.

ghost use Rattle.std.specs.Prelude.{◌≡◌, Bool, true, is_some};
ghost use Rattle.cics_dispatch.specs.declared.machine.events.Event.{Event as EventOf};
ghost use Rattle.cics_run.specs.Stage.Amiss.{is_amiss as is_event_amiss};
ghost use Rattle.cics_run.specs.Stage.Notices.{noted};
ghost use Rattle.cics_run.specs.Session.{Played, HasEnd};
ghost use Rattle.cics_run.specs.Messages.Amiss.{ends_amiss};

use crate::messages::waiting::is_left_waiting;
use crate::session::Session;

/// Returns whether a strict run that ended with `Status::Done` ends with status 5: an event of it
/// was amiss (`cics_run::stage::amiss`), a task still waits, or reads are wanted and a finding
/// isn't COMMITTED. The session is the one that was run: clause `kept` of `run_over` says that it
/// has the end of the script's lines.
///
/// Cost: O(tasks).
pub fn is_amiss(session: &Session) -> bool
    ensures { (reads : Bool) (p : Played) → HasEnd reads session.now p
        → result ≡ ends_amiss reads p }
{
    session.journal.is_amiss || is_left_waiting(session)
}

/// With `strict` each event that is amiss is noted, as one of those that a person is told of.
pub fn strict_tells_all()
    ensures { (why : Bool) (e : EventOf) → is_event_amiss e ≡ true
        → is_some (noted (record { strict = true; why = why }) e) ≡ true }
{}
