//! What holds of every survey.

ghost use Rattle.cics_orders.specs.Command.Leads.{EndingScriptsLeadThere};

/// The script of an ending, as `Surveyor::run_orders` writes it, leads to the state that the ending
/// tells. Its plain run has no fault, refuses no line of a task, and comes to the region of that
/// state.
pub fn ending_scripts_lead_there()
    ensures { EndingScriptsLeadThere }
{}
