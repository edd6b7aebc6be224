//! What a check finds amiss in requests, none of which but ATTACH is played.

ghost use Rattle.std.specs.Prelude.{◌≡◌};
ghost use Rattle.cics_names.specs.Commands.{file_named};
ghost use Rattle.cics_run.specs.Reading.Requests.{is_attached, name_reason, name_notice};
ghost use Rattle.cics_run.specs.Reading.Requests.{notice_on};

use crate::messages::meant_queue;
use crate::stage::{Notice, Raised, Stage};
use cics_dispatch::{Reason, Refused, Region};
use cics_names::{Name8, Verb};
use cics_script::Line;

// Returns whether a task was attached with a label.
fn is_attached(stage: &Stage, label: &Name8) -> bool
    ensures { result ≡ is_attached stage.now label.now }
{
    match stage {
        Stage::Running(region) => region.number(label).is_some(),
        Stage::Opening(_) => false,
    }
}

// Returns the check that the file or queue of a command is defined, if it fails.
fn name_reason(region: &Region, verb: &Verb) -> Option<Reason>
    ensures { result ≡ name_reason region.now.machine verb.now (file_named verb.now) }
{
    let units = region.units();
    match verb {
        Verb::WriteqTd { queue, .. } | Verb::ReadqTd { queue, .. } | Verb::DeleteqTd { queue } => {
            units
                .td_recovery(queue)
                .is_none()
                .then_some(Reason::QueueNotDefined)
        }
        _ => units
            .file(verb.file()?)
            .is_none()
            .then_some(Reason::FileNotDefined),
    }
}

// Returns what a run notes of a command whose file or queue isn't defined, or that the name of a
// queue of temporary storage is one of transient data.
fn name_notice(region: &Region, verb: &Verb) -> Option<Notice>
    ensures { result ≡ name_notice region.now.machine verb.now }
{
    match name_reason(region, verb) {
        Some(reason) => Some(Notice::Issued(Raised {
            condition: reason.condition(),
            reason: Some(reason),
        })),
        None => Some(Notice::Meant(meant_queue(region.units().opening(), verb)?)),
    }
}

/// Returns what is amiss in a line, by what was attached and defined before it: its label was
/// attached before, or never was, or the file or queue that it names isn't defined, or is one of
/// transient data and not of temporary storage.
pub fn notice_on(stage: &Stage, line: &Line) -> Option<Notice>
    ensures { result ≡ notice_on stage.now line.now }
{
    match line {
        Line::Attach(label, _, _) if is_attached(stage, label) => {
            Some(Notice::Refused(*label, Refused::DuplicateLabel))
        }
        Line::Issue(label, _) if !is_attached(stage, label) => {
            Some(Notice::Refused(*label, Refused::NoTask))
        }
        Line::Issue(_, command) => match stage {
            Stage::Running(region) => name_notice(region, &command.verb),
            Stage::Opening(_) => None,
        },
        _ => None,
    }
}
