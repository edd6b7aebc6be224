//! What a person is told of a run when it has ended.

ghost use Rattle.std.specs.Prelude.{◌≡◌, ◌++◌, OnOk, IfOk};
ghost use Rattle.cics_run.specs.Messages.Messages.{IsToldOf, few_deadlock_lines};
ghost use Rattle.cics_run.specs.Messages.Messages.{IsToldOfStage, IsToldAtEnd, strict_lines};
ghost use Rattle.cics_run.specs.Messages.Messages.{watched_lines, found_lines};
ghost use Rattle.cics_run.specs.Reads.Watching.{watched_in};

use crate::messages::deadlocked::push_deadlocks;
use crate::messages::faulty::push_told;
use crate::messages::hints::push_hints;
use crate::messages::remarks::{Remarks, push_remarks};
use crate::messages::waiting::push_waiting;
use crate::reads::Watcher;
use crate::session::Session;
use crate::stage::{Scope, Stage};
use cics_dispatch::Region;
use cics_dispatch::deadlocks::waiting_count;
use cics_names::NoMemory;
use cics_script::advice::Origin;
use std::alloc::Global;

// How many tasks may wait at a run's end for its deadlocks to be told. The search is O(n^2) for n
// waiting tasks.
const MOST_WAITING: usize = 10_000;

/// Returns what to tell of a run that ended with `Status::LineFault`. First come the remarks on its
/// lines, then the faulty line's message, the line and a caret (`cics_script::advice`). The session
/// is the one that was run: clause `kept` of `run_over` says that it keeps the remarks, and that
/// line with its number and its fault. Without a fault it returns the remarks. `file` is the name
/// of the script's file, if it has one.
pub fn told_of(alloc: Global, session: &Session, file: Option<&[u8]>) -> Result<Vec<u8>, NoMemory>
    ensures told { IfOk result (λ text.
        IsToldOf file.entry session.now session.now.fault text.items) }
{
    let mut text = Vec::new(alloc);
    push_remarks(&mut text, file, &session.journal.told)?;
    let Some(fault) = session.fault else {
        return Ok(text);
    };
    let line = session.number;
    push_told(&mut text, Origin { file, line }, &session.line, fault)?;
    Ok(text)
}

// Appends what is told of what reads saw and missed.
fn push_watched(out: &mut Vec<u8>, watcher: &Watcher, file: Option<&[u8]>) -> Result<(), NoMemory>
    ensures { OnOk result (out.new.items
        ≡ out.old.items ++ watched_lines file.entry (watched_in watcher.now)) }
{
    let alloc = *out.allocator();
    let found = watcher.findings()?;
    let mut remarks = Remarks::new(alloc);
    remarks.add_findings(alloc, found.as_slice())?;
    push_remarks(out, file, &remarks)
}

// Appends what a strict run tells of that, if something is amiss.
fn push_found(out: &mut Vec<u8>, session: &Session, file: Option<&[u8]>) -> Result<(), NoMemory>
    ensures { OnOk result (out.new.items ≡ out.old.items ++ found_lines file.entry session.now) }
{
    let journal = &session.journal;
    if !journal.told.scope.strict || !journal.is_amiss {
        return Ok(());
    }
    match &journal.watcher {
        Some(watcher) => push_watched(out, watcher, file),
        None => Ok(()),
    }
}

// Appends a line for each deadlock of a region, unless too many tasks wait.
fn push_few_deadlocks(out: &mut Vec<u8>, region: &Region) -> Result<(), NoMemory>
    ensures { OnOk result (out.new.items
        ≡ out.old.items ++ few_deadlock_lines region.now.machine) }
{
    let waiting = waiting_count(region);
    if waiting == 0 || waiting > MOST_WAITING {
        return Ok(());
    }
    push_deadlocks(out, region)
}

// Appends what a strict run tells of the tasks that still wait.
fn push_strict(out: &mut Vec<u8>, region: &Region, scope: Scope) -> Result<(), NoMemory>
    ensures { OnOk result (out.new.items
        ≡ out.old.items ++ strict_lines scope region.now.machine) }
{
    if !scope.strict {
        return Ok(());
    }
    push_waiting(out, region)
}

// Appends what is told of the region in which a run ended.
fn push_stage(out: &mut Vec<u8>, session: &Session, file: Option<&[u8]>) -> Result<(), NoMemory>
    ensures { OnOk result (IsToldOfStage session.now.journal.told.scope session.now.stage
        out.old.items out.new.items) }
{
    match &session.stage {
        Stage::Running(region) => {
            push_strict(out, region, session.journal.told.scope)?;
            push_few_deadlocks(out, region)?;
            push_hints(out, region, session, file)
        }
        Stage::Opening(_) => Ok(()),
    }
}

/// Returns what to tell at the end of a run that ended with `Status::Done`. First come the remarks
/// on its lines, of a strict run those on findings of `--reads` that are amiss, and the first task
/// that still waits. A line for each deadlock follows, if at most 10,000 tasks wait. Last come
/// hints: on each queue that both transient data and temporary storage have, and on the first 64
/// commands with RESP2 alone whose condition is told. The session is the one that was run: clause
/// `kept` of `run_over` says that it has the remarks, and the region in which the script's lines
/// ended.
///
/// Errors: `NoMemory`. Cost: that of `deadlocks`, and of a strict run that of `Reads::findings`.
pub fn told_at_end(
    alloc: Global,
    session: &Session,
    file: Option<&[u8]>,
) -> Result<Vec<u8>, NoMemory>
    ensures told { IfOk result (λ text. IsToldAtEnd file.entry session.now text.items) }
{
    let mut text = Vec::new(alloc);
    push_remarks(&mut text, file, &session.journal.told)?;
    push_found(&mut text, session, file)?;
    push_stage(&mut text, session, file)?;
    Ok(text)
}
