//! The observer that notes what the tasks of a run look at and change.

ghost use Rattle.std.specs.Prelude.{◌≡◌, ◌++◌, None, length, OnOk, IfOk};
ghost use Rattle.cics_dispatch.specs.Machine.Blockers.{waiting_command};
ghost use Rattle.cics_run.specs.Reads.Watched.{reads_text, are_amiss, amiss_text, nothing_watched};
ghost use Rattle.cics_run.specs.Reads.Watched.{plain_of, end_of, with_act, change_in, executed};
ghost use Rattle.cics_run.specs.Reads.Watched.{line_of, with_backouts, run_after};
ghost use Rattle.cics_run.specs.Reads.Watched.{began, with_line, with_label, may_delete, deleting};
ghost use Rattle.cics_run.specs.Reads.Watched.{doomed_if, doomed_next, behind};
ghost use Rattle.cics_run.specs.Reads.Watching.{watched_in};
ghost use Rattle.cics_run.specs.Reads.Written.{findings};

use crate::reads::changes::{act_at, deletes_several, doomed_by};
use crate::reads::found::Finding;
use crate::reads::looks::spot_of;
use crate::reads::noting::Reads;
use crate::reads::steps::{Act, Cell};
use crate::reads::writing::{is_any_amiss, push_findings};
use crate::stage::{Fault, Observer};
use cics_dispatch::{Event, Outcome, Region, Request, Verb};
use cics_names::{Items, Name8, NoMemory};
use cics_script::spelling::push_str;
use std::alloc::Global;
use std::collections::BTreeMap;

/// Notes the steps of a run.
#[derive(Drop)]
pub struct Watcher {
    // The steps.
    reads: Reads,
    // What the command that was asked for does, if it passes its checks and leaves no entry in the
    // history.
    plain: Option<Act>,
    // The cells that are deleted if the next command is DELETE GENERIC or DELETEQ TS.
    doomed: Items<Cell>,
    // The number of entries in the history.
    entries: usize,
    // The line of each command that waited.
    lines: BTreeMap<Name8, u64>,
    // The tasks that wait with DELETE GENERIC or DELETEQ TS, in the order in which they began to.
    deleters: Vec<Name8>,
    alloc: Global,
}

// A command of a task that was executed. `line` is the line at which it was issued.
#[derive(Clone, Copy)]
struct Executed<'a> {
    line: u64,
    label: Name8,
    outcome: &'a Outcome,
}

// Returns what a command does that leaves no entry in the history, if it passes its checks.
fn plain_of(region: &Region, label: &Name8, verb: &Verb) -> Result<Option<Act>, NoMemory>
    ensures { IfOk result (λ act. act ≡ plain_of region.now label.now verb.now) }
{
    match verb {
        Verb::Syncpoint => Ok(Some(Act::End { is_committed: true })),
        Verb::Rollback => Ok(Some(Act::End {
            is_committed: false,
        })),
        _ => Ok(spot_of(region, label, verb)?.map(Act::Look)),
    }
}

// Returns how a command's outcome ends the turn of its task.
fn end_of(outcome: &Outcome) -> Option<Act>
    ensures { result ≡ end_of outcome.now }
{
    match outcome {
        Outcome::Replied(_) | Outcome::Waiting(_) => None,
        Outcome::Abended(_, _) => Some(Act::End {
            is_committed: false,
        }),
        Outcome::Ended => Some(Act::End { is_committed: true }),
    }
}

// Returns the task whose command began to wait, if this is what happened.
fn began(event: &Event) -> Option<Name8>
    ensures { result ≡ began event.now }
{
    match event {
        Event::Issued(label, Outcome::Waiting(_), _) => Some(*label),
        _ => None,
    }
}

// Returns whether the task of a label waits with DELETE GENERIC or DELETEQ TS.
fn is_deleter(region: &Region, label: &Name8) -> bool
    ensures { result ≡ may_delete (waiting_command region.now.machine label.now) }
{
    match region.waiting_command(label) {
        Some(command) => deletes_several(&command.verb),
        None => false,
    }
}

// Keeps those of some tasks that wait with DELETE GENERIC or DELETEQ TS.
fn keep_deleters(region: &Region, labels: &mut Vec<Name8>)
    ensures { labels.new.items ≡ deleting region.now.machine labels.old.items }
{
    labels.retain(|label| is_deleter(region, label));
}

// Returns the cells that the waiting command of a label's task deletes if it resumes next.
fn doomed_if(region: &Region, label: &Name8) -> Result<Items<Cell>, NoMemory>
    ensures { IfOk result (λ cells. cells
        ≡ doomed_if region.now.machine (waiting_command region.now.machine label.now)) }
{
    region.promises();
    match region.waiting_command(label) {
        Some(command) => doomed_by(region.units(), &command.verb),
        None => Ok(Items::new(region.units().opening().allocator())),
    }
}

// Returns the cells that are deleted if one of these tasks resumes next: the first that nothing
// blocks.
fn doomed_next(region: &Region, labels: &[Name8]) -> Result<Items<Cell>, NoMemory>
    ensures { IfOk result (λ cells. cells ≡ doomed_next region.now.machine labels.now) }
{
    for label in labels {
        if region.blocker(label).is_none() {
            return doomed_if(region, label);
        }
    }
    Ok(Items::new(region.units().opening().allocator()))
}

// Notes what a task did by a line, if it did something.
fn note(reads: &mut Reads, line: u64, label: Name8, act: Option<Act>) -> Result<(), NoMemory>
    ensures { OnOk result (reads.new ≡ with_act reads.old line label act) }
{
    match act {
        Some(act) => reads.note(line, label, act),
        None => Ok(()),
    }
}

// Notes that a shutdown backs out the turn of each task.
fn note_shutdown(reads: &mut Reads, line: u64, region: &Region) -> Result<(), NoMemory>
    ensures { OnOk result (reads.new ≡ with_backouts reads.old line region.now.machine.tasks
        (length region.now.machine.tasks)) }
{
    for at in 0..region.task_count() {
        if let Some(label) = region.label_at(at) {
            let end = Act::End {
                is_committed: false,
            };
            reads.note(line, label, end)?;
        }
    }
    Ok(())
}

impl Watcher {
    /// Returns a watcher before the first line.
    pub fn new(alloc: Global) -> Watcher
        ensures { watched_in result ≡ nothing_watched }
    {
        Watcher {
            reads: Reads::new(alloc),
            plain: None,
            doomed: Items::new(alloc),
            entries: 0,
            lines: BTreeMap::new(alloc),
            deleters: Vec::new(alloc),
            alloc,
        }
    }

    /// Returns what the reads of the run saw and missed.
    ///
    /// Errors: `NoMemory`.
    pub fn findings(&self) -> Result<Items<Finding>, NoMemory>
        ensures { IfOk result (λ found. found ≡ findings (watched_in self.now).run) }
    {
        self.reads.findings()
    }

    /// Appends what the reads of the run saw and missed, with its heading. Returns whether
    /// something of that is amiss.
    ///
    /// Errors: `NoMemory`.
    pub fn push_reads(&self, out: &mut Vec<u8>) -> Result<bool, NoMemory>
        ensures text { OnOk result (out.new.items
            ≡ out.old.items ++ reads_text (watched_in self.now)) }
        ensures amiss { IfOk result (λ amiss. amiss ≡ are_amiss (watched_in self.now)) }
    {
        let found = self.reads.findings()?;
        push_str(out, "READS\n")?;
        push_findings(out, found.as_slice(), false)?;
        Ok(is_any_amiss(found.as_slice()))
    }

    /// Appends the lines on what is amiss.
    ///
    /// Errors: `NoMemory`.
    pub fn push_amiss(&self, out: &mut Vec<u8>) -> Result<(), NoMemory>
        ensures { OnOk result (out.new.items
            ≡ out.old.items ++ amiss_text (watched_in self.now)) }
    {
        let found = self.reads.findings()?;
        push_findings(out, found.as_slice(), true)
    }

    // Notes what a command did: what `plain` has, what its entry says, and how it ends the turn.
    fn note_executed(&mut self, command: &Executed<'_>, region: &Region) -> Result<(), NoMemory>
        ensures { OnOk result (watched_in self.new ≡ record (watched_in self.old) {
          run = executed (watched_in self.old).run command.now.line command.now.label
              (watched_in self.old).plain (change_in (watched_in self.old) region.now.machine)
              command.now.outcome.now;
          plain = None;
          doomed = (watched_in self.new).doomed;
        }) }
    {
        let Executed {
            line,
            label,
            outcome,
        } = *command;
        note(&mut self.reads, line, label, self.plain.take())?;
        let change = act_at(region.units(), self.entries, &mut self.doomed)?;
        note(&mut self.reads, line, label, change)?;
        note(&mut self.reads, line, label, end_of(outcome))
    }

    // Returns the line at which the waiting command of a task was issued.
    fn line_of(&self, number: u64, label: &Name8) -> u64
        ensures { result ≡ line_of (watched_in self.now) number label.now }
    {
        self.lines.get(label).copied().unwrap_or(number)
    }

    // Notes the steps of an event.
    fn note_event(&mut self, number: u64, event: &Event, region: &Region) -> Result<(), NoMemory>
        ensures { OnOk result (watched_in self.new ≡ record (watched_in self.old) {
          run = run_after (watched_in self.old) number
              (record { event = event.now; machine = region.now.machine });
          plain = (watched_in self.new).plain;
          doomed = (watched_in self.new).doomed;
        }) }
    {
        match event {
            Event::Issued(label, outcome, reason) => {
                if reason.is_some() {
                    self.plain = None;
                }
                let command = Executed {
                    line: number,
                    label: *label,
                    outcome,
                };
                self.note_executed(&command, region)
            }
            Event::Woken(woken) => {
                self.plain = None;
                let command = Executed {
                    line: self.line_of(number, &woken.label),
                    label: woken.label,
                    outcome: &woken.outcome,
                };
                self.note_executed(&command, region)
            }
            Event::Expired(expired) => {
                let end = Act::End {
                    is_committed: false,
                };
                self.reads.note(number, expired.label, end)
            }
            Event::ShutDown(_) => note_shutdown(&mut self.reads, number, region),
            Event::Attached(_, _) | Event::ClockSet(_) | Event::Refused(_, _) => Ok(()),
        }
    }

    // Notes a command that began to wait.
    fn note_wait(&mut self, number: u64, event: &Event) -> Result<(), NoMemory>
        ensures { OnOk result (watched_in self.new ≡ record (watched_in self.old) {
          lines = with_line (watched_in self.old).lines number (began event.now);
          deleters = with_label (watched_in self.old).deleters (began event.now);
        }) }
    {
        match began(event) {
            Some(label) => {
                self.lines.insert(label, number)?;
                self.deleters.push(label)?;
                Ok(())
            }
            None => Ok(()),
        }
    }

    // Looks at the region behind an event: how long the history is, and what may be deleted next.
    // Forgets what the last command does.
    fn look_ahead(&mut self, region: &Region) -> Result<(), NoMemory>
        ensures { OnOk result (watched_in self.new ≡ record (watched_in self.old) {
          plain = None;
          entries = length region.now.machine.units.trace;
          deleters = deleting region.now.machine (watched_in self.old).deleters;
          doomed = doomed_next region.now.machine
              (deleting region.now.machine (watched_in self.old).deleters);
        }) }
    {
        self.plain = None;
        self.entries = region.units().trace().len();
        keep_deleters(region, &mut self.deleters);
        self.doomed = doomed_next(region, self.deleters.as_slice())?;
        Ok(())
    }
}

impl Watcher {
    // Notes an event. It isn't inlined, so that a run without a watcher is none the slower.
    #[inline(never)]
    fn watch(&mut self, number: u64, event: &Event, region: &Region) -> Result<(), NoMemory>
        ensures { OnOk result (watched_in self.new ≡ behind (watched_in self.old) number
            (record { event = event.now; machine = region.now.machine })) }
    {
        self.note_event(number, event, region)?;
        self.note_wait(number, event)?;
        self.look_ahead(region)
    }
}

impl Observer for Watcher {
    ghost use Rattle.cics_run.specs.Reads.Watched.{Watched, watcher_sight};
    ghost use Rattle.cics_run.specs.Reads.Watching.{watched_in};

    ghost Seen = { Watched };

    ghost seen = { watched_in };

    ghost sight = { watcher_sight };

    fn sees_requests(&self) -> bool {
        true
    }

    fn see_request(
        &mut self,
        _number: u64,
        request: &Request,
        region: &Region,
    ) -> Result<(), NoMemory> {
        match request {
            Request::Issue(label, command) => {
                self.plain = plain_of(region, label, &command.verb)?;
                self.doomed = doomed_by(region.units(), &command.verb)?;
            }
            _ => {
                self.plain = None;
                self.doomed = Items::new(self.alloc);
            }
        }
        Ok(())
    }

    fn see(&mut self, number: u64, event: &Event, region: &Region) -> Result<(), NoMemory> {
        self.watch(number, event, region)
    }

    fn see_fault(&mut self, _number: u64, _fault: Fault) -> Result<(), NoMemory> {
        Ok(())
    }
}
