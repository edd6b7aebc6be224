//! The lines on what is found.

ghost use Rattle.std.specs.Prelude.{◌≡◌, ◌++◌, OnOk};
ghost use Rattle.cics_run.specs.Reads.Text.{moment_text, fate_text, finding_text};
ghost use Rattle.cics_run.specs.Reads.Text.{is_amiss, is_any_amiss, findings_text};

use crate::reads::found::{Fate, Finding, Pair};
use cics_names::NoMemory;
use cics_script::spelling::{Part, push_parts, push_str};

// Appends two steps, by their lines and tasks, each behind a text.
fn push_steps(out: &mut Vec<u8>, head: &str, pair: &Pair, verb: &str) -> Result<(), NoMemory>
    ensures { OnOk result (out.new.items ≡ out.old.items ++ (head.now
        ++ (moment_text pair.now.look ++ (verb.now ++ moment_text pair.now.change)))) }
{
    let Pair { look, change } = pair;
    push_parts(
        out,
        &[
            Part::Str(head),
            Part::Str("LINE "),
            Part::Number(look.line),
            Part::Str(" "),
            Part::Bare(&look.task.bytes()),
            Part::Str(verb),
            Part::Str("LINE "),
            Part::Number(change.line),
            Part::Str(" "),
            Part::Bare(&change.task.bytes()),
        ],
    )
}

// Returns how a turn ended.
fn fate_text(fate: Fate) -> &'static str
    ensures { result.now ≡ fate_text fate }
{
    match fate {
        Fate::Committed => " COMMITTED",
        Fate::BackedOut => " BACKED OUT",
        Fate::Open => " OPEN",
    }
}

// Appends the text of a finding.
fn push_finding(out: &mut Vec<u8>, found: &Finding) -> Result<(), NoMemory>
    ensures { OnOk result (out.new.items ≡ out.old.items ++ finding_text found.now) }
{
    match found {
        Finding::DirtyRead(pair, fate) => {
            push_steps(out, "DIRTY READ ", pair, " SAW ")?;
            push_str(out, fate_text(*fate))
        }
        Finding::LostUpdate(missed, by) => {
            push_steps(out, "LOST UPDATE ", missed, " MISSED ")?;
            let replaced = Pair {
                look: *by,
                change: missed.change,
            };
            push_steps(out, " AND ", &replaced, " REPLACED ")
        }
        Finding::ReadSkew(missed, seen) => {
            push_steps(out, "READ SKEW ", missed, " MISSED ")?;
            push_steps(out, " AND ", seen, " SAW ")
        }
        Finding::WriteSkew(missed, other) => {
            push_steps(out, "WRITE SKEW ", missed, " MISSED ")?;
            push_steps(out, " AND ", other, " MISSED ")
        }
    }
}

/// Returns whether a finding is amiss: each is but a dirty read of what is committed in the end.
pub fn is_amiss(found: &Finding) -> bool
    ensures { result ≡ is_amiss found.now }
{
    !matches!(found, Finding::DirtyRead(_, Fate::Committed))
}

/// Returns whether one of the findings is amiss: any but a dirty read of what is committed in the
/// end.
pub fn is_any_amiss(found: &[Finding]) -> bool
    ensures { result ≡ is_any_amiss found.now }
{
    found.iter().any(|one| is_amiss(one))
}

/// Appends a line for each finding, or for each that is amiss.
///
/// The only error is `NoMemory`. Some lines may then be there.
pub fn push_findings(out: &mut Vec<u8>, found: &[Finding], only_amiss: bool) -> Result<(), NoMemory>
    ensures { OnOk result (out.new.items ≡ out.old.items ++ findings_text only_amiss found.now) }
{
    for one in found {
        if !only_amiss || is_amiss(one) {
            push_finding(out, one)?;
            push_str(out, "\n")?;
        }
    }
    Ok(())
}
