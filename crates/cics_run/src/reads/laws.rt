//! A law of lost updates. Its function computes nothing: its contract is the law.

ghost use Rattle.cics_run.specs.Reads.Laws.{KnowsWhatItReplaces};

/// A change that adds nothing, and has no lost update, is up to date: if its task's last step at a
/// cell is a look, no change of the cell that stands came behind that look.
pub fn changes_know_what_they_replace()
    ensures { KnowsWhatItReplaces }
{}
