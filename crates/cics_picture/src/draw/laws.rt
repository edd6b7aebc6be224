//! What holds of the picture of every script.

ghost use Rattle.std.specs.Prelude.{◌≡◌, ◌↔◌, List, ℕ};
ghost use Rattle.cics_run.specs.Session.Lines.{all_lines};
ghost use Rattle.cics_run.specs.Session.Running.{play};
ghost use Rattle.cics_run.specs.declared.stage.stage.Stage.{Stage};
ghost use Rattle.cics_history.specs.Headline.{outcome_of};
ghost use Rattle.cics_history.specs.declared.ops.UnitState.TheVariants.{Committed, BackedOut};
ghost use Rattle.cics_picture.specs.Drawings.{Row, all_rows, events_of};
ghost use Rattle.cics_picture.specs.Draw.Pictures.{printed_lines, fills_of, outcomes_of};
ghost use Rattle.cics_picture.specs.Draw.Blocking.{NamesBlocker};
ghost use Rattle.cics_picture.specs.Bars.{bar_text, filled, hollow};
ghost use Rattle.cics_picture.specs.declared.bars.Bar.{Bar};

/// The rows of a picture show what the run prints, in order: their events, each with its LF, are
/// the journal.
pub fn rows_are_the_journal()
    ensures { (script : List ℕ)
        → events_of (all_rows (printed_lines script)) ≡ (play (all_lines script)).journal }
{}

/// In the picture of a script a unit's bar is filled exactly if its outcome is Committed, and
/// hollow exactly if it is BackedOut.
pub fn bars_tell_outcomes()
    ensures filled { (script : List ℕ) (b : Bar) → (bar_text (fills_of script) b ≡ filled b)
        ↔ (outcome_of (outcomes_of script) b.unit ≡ Committed) }
    ensures hollow { (script : List ℕ) (b : Bar) → (bar_text (fills_of script) b ≡ hollow b)
        ↔ (outcome_of (outcomes_of script) b.unit ≡ BackedOut) }
{}

/// If a command of a line has to wait, the row of the line has exactly one arrow. It leads from the
/// lane of its task to that of the task that blocks it then (`Region::blocker`). This supposes that
/// rows before it attach both tasks, and at most sixteen in all.
pub fn waits_name_blockers()
    ensures { (before : List Row) (number : ℕ) (stage : Stage) (line : List ℕ)
        → NamesBlocker before number stage line }
{}
