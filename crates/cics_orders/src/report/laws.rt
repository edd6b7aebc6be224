//! What holds of every script.

ghost use Rattle.cics_orders.specs.Report.Leads.{ScriptsLeadThere};
ghost use Rattle.cics_orders.specs.Report.PlainFaults.{FaultsAreThoseOfRuns};

/// A script is taken apart exactly if its plain run has no fault. Else it has the fault of that
/// run, at the same line.
pub fn faults_are_those_of_runs()
    ensures { FaultsAreThoseOfRuns }
{}

/// The script of an order leads where the order does. Each lane of the order may give when its line
/// comes. The title's mark is one that endings have, and its numbers are below 2^128. Then the
/// plain run has no fault, refuses no line of a task, and comes to the region after the order.
pub fn scripts_lead_there()
    ensures { ScriptsLeadThere }
{}
