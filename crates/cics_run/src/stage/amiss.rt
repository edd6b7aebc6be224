//! What a strict run finds amiss.

ghost use Rattle.std.specs.Prelude.{◌≡◌};
ghost use Rattle.cics_run.specs.Stage.Amiss.{is_time_out, is_abended_amiss, is_amiss};

use cics_dispatch::{Event, Outcome};
use cics_names::AbendCode;

// AKCS, the code of a time-out.
const TIME_OUT: [u8; 4] = [0xC1, 0xD2, 0xC3, 0xE2];

/// Returns whether a code is that of a time-out.
pub fn is_time_out(code: AbendCode) -> bool
    ensures { result ≡ is_time_out code }
{
    code.0.bytes() == TIME_OUT
}

fn is_abended_amiss(outcome: &Outcome) -> bool
    ensures { result ≡ is_abended_amiss outcome.now }
{
    match outcome {
        Outcome::Abended(code, None) => is_time_out(*code),
        Outcome::Abended(_, Some(_)) => true,
        Outcome::Replied(_) | Outcome::Waiting(_) | Outcome::Ended => false,
    }
}

/// Returns whether an event is amiss for a strict run:
///
/// - a request that was refused;
/// - an abend by a condition, as a task issued a command or a command resumed;
/// - an abend with the code of a time-out.
///
/// No other event is amiss.
pub fn is_amiss(event: &Event) -> bool
    ensures { result ≡ is_amiss event.now }
{
    match event {
        Event::Issued(_, outcome, _) => is_abended_amiss(outcome),
        Event::Woken(woken) => is_abended_amiss(&woken.outcome),
        Event::Expired(expired) => is_time_out(expired.code),
        Event::Refused(_, _) => true,
        Event::Attached(_, _) | Event::ClockSet(_) | Event::ShutDown(_) => false,
    }
}
