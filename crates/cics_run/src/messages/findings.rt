//! What a strict run tells of what reads saw and missed.

ghost use Rattle.std.specs.Prelude.{◌≡◌, ◌++◌, OnOk};
ghost use Rattle.cics_run.specs.Messages.Findings.{pair_of, head_text, rest_text, fate_words};
ghost use Rattle.cics_run.specs.Messages.Findings.{finding_text};

use crate::reads::{Fate, Finding, Moment, Pair};
use cics_names::NoMemory;
use cics_script::spelling::Part::{Bare, Number, Str};
use cics_script::spelling::{push_parts, push_str};

// Returns the look of a finding, and the change that it saw or missed.
fn pair_of(found: &Finding) -> &Pair
    ensures { result.now ≡ pair_of found.now }
{
    match found {
        Finding::DirtyRead(pair, _) => pair,
        Finding::LostUpdate(missed, _) => missed,
        Finding::ReadSkew(missed, _) => missed,
        Finding::WriteSkew(missed, _) => missed,
    }
}

/// Returns the number of the line that a finding is told of: that of its look.
pub fn line_of(found: &Finding) -> u64
    ensures { result ≡ (pair_of found.now).look.line }
{
    pair_of(found).look.line
}

// Appends the name of a finding, and that its look saw or missed the change.
fn push_head<'a>(
    out: &mut Vec<u8>,
    name: &'a str,
    pair: &Pair,
    did: &'a str,
) -> Result<(), NoMemory>
    ensures { OnOk result (out.new.items
        ≡ out.old.items ++ head_text name.now pair.now did.now) }
{
    // Made first: behind parts of two lifetimes a list takes no new part that borrows nothing.
    let (line, of) = (Str("line "), Str(" of "));
    let number = Number(pair.change.line);
    push_parts(
        out,
        &[
            Str(name),
            Bare(&pair.look.task.bytes()),
            Str(did),
            line,
            number,
            of,
            Bare(&pair.change.task.bytes()),
        ],
    )
}

// Appends what another step did to a change.
fn push_rest(out: &mut Vec<u8>, step: &Moment, did: &str, change: &Moment) -> Result<(), NoMemory>
    ensures { OnOk result (out.new.items
        ≡ out.old.items ++ rest_text step.now did.now change.now) }
{
    let (line, of) = (Str("line "), Str(" of "));
    let number = Number(change.line);
    push_parts(
        out,
        &[
            Str(", and line "),
            Number(step.line),
            Str(" of "),
            Bare(&step.task.bytes()),
            Str(did),
            line,
            number,
            of,
            Bare(&change.task.bytes()),
        ],
    )
}

// Returns how the turn of a change that was seen ended.
fn fate_words(fate: Fate) -> &'static str
    ensures { result.now ≡ fate_words fate }
{
    match fate {
        Fate::Committed => ", which was committed later",
        Fate::BackedOut => ", which was backed out",
        Fate::Open => ", which is still open",
    }
}

/// Appends what is told of a finding.
pub fn push_finding(out: &mut Vec<u8>, found: &Finding) -> Result<(), NoMemory>
    ensures { OnOk result (out.new.items ≡ out.old.items ++ finding_text found.now) }
{
    match found {
        Finding::DirtyRead(pair, fate) => {
            push_head(out, "DIRTY READ: ", pair, " saw ")?;
            push_str(out, fate_words(*fate))
        }
        Finding::LostUpdate(missed, by) => {
            push_head(out, "LOST UPDATE: ", missed, " missed ")?;
            push_rest(out, by, " replaced ", &missed.change)
        }
        Finding::ReadSkew(missed, seen) => {
            push_head(out, "READ SKEW: ", missed, " missed ")?;
            push_rest(out, &seen.look, " saw ", &seen.change)
        }
        Finding::WriteSkew(missed, other) => {
            push_head(out, "WRITE SKEW: ", missed, " missed ")?;
            push_rest(out, &other.look, " missed ", &other.change)
        }
    }
}
