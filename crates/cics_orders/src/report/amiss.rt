//! What is amiss in a report.

ghost use Rattle.std.specs.Prelude.{◌≡◌};
ghost use Rattle.cics_orders.specs.Report.Amiss.{is_deadlock, is_ending_amiss, first_amiss};

use crate::report::parts::mark_in;
use crate::search::Report;
use crate::space::Ending;

/// An ending that is amiss.
#[derive(Clone, Copy, PartialEq, Eq)]
pub struct AmissEnding {
    /// Its number in the report, from 1 on.
    pub number: u64,
    /// Whether it is a deadlock. Else no serial order leads to it.
    pub is_deadlock: bool,
}

// Returns whether an ending is a deadlock.
fn is_deadlock(ending: &Ending) -> bool
    ensures { result ≡ is_deadlock ending.now }
{
    mark_in(ending.parts()).len() > 0
}

// Returns whether an ending is a deadlock, or no serial order is left out and none leads to it.
fn is_ending_amiss(has_all_serial: bool, ending: &Ending) -> bool
    ensures { result ≡ is_ending_amiss has_all_serial ending.now }
{
    is_deadlock(ending) || (has_all_serial && ending.serial() == 0)
}

/// Returns the first ending of a report that is a deadlock, or to which no serial order leads. If
/// serial orders were left out, an ending is amiss only if it is a deadlock.
///
/// Cost: O(endings).
pub fn first_amiss(report: &Report) -> Option<AmissEnding>
    ensures { result ≡ first_amiss report.now }
{
    let endings = report.endings.as_slice();
    for i in 0..endings.len() {
        if is_ending_amiss(report.has_all_serial, &endings[i]) {
            return Some(AmissEnding {
                number: i as u64 + 1,
                is_deadlock: is_deadlock(&endings[i]),
            });
        }
    }
    None
}
