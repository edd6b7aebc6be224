//! A run between two reads.

ghost use Rattle.std.specs.Prelude.{◌≡◌, true, false, [], ◌++◌, ◌+◌, ◌<◌, ◌≤◌, ◌^◌, length};
ghost use Rattle.std.specs.Prelude.{if◌then◌else◌, is_some, option_map, IfOk, OnOk, OnErr};
ghost use Rattle.std.specs.List.{prefix_len, list_all};
ghost use Rattle.std.specs.Io.BufRead.{strip_last};
ghost use Rattle.cics_run.specs.Session.{is_in_line, AppendsFront, Prints, stopped_writes, Rises};
ghost use Rattle.cics_run.specs.Session.{Form, listed, with_reads, are_reads_amiss, form_of};
ghost use Rattle.cics_run.specs.Session.{text_at_end, amiss_at, IsNew, Ran, next_text};
ghost use Rattle.cics_run.specs.Session.{WhereverStands, Feeds, Writes, Closes, Finishes};
ghost use Rattle.cics_run.specs.Stage.Journal.{script_line};
ghost use Rattle.cics_run.specs.Stage.Stages.{region_of};
ghost use Rattle.cics_run.specs.declared.stage.stage.Stage.TheVariants.{Running};
ghost use Rattle.std.specs.Io.KnownBytes.{Appends};
ghost use Rattle.cics_run.specs.Reads.Watching.{watched_in};

use crate::listing::{push_listing, push_replay, push_serial};
use crate::reads::Watcher;
use crate::session::running::{Options, Status, Wanted};
use crate::session::streams::Sink;
use crate::session::writing::{Stop, write_pending, write_printed};
use crate::stage::journal::push_script_line;
use crate::stage::{Fault, Journal, Stage};
use cics_dispatch::Region;
use cics_names::NoMemory;
use std::alloc::Global;

const LF: u8 = 10;

const CR: u8 = 13;

/// Run state between reads.
pub struct Session {
    /// The definitions or the region after the lines so far.
    pub stage: Stage,
    /// How many lines there were.
    pub number: u64,
    /// The bytes of the next line that have come, or the last line if it has a fault.
    pub line: Vec<u8>,
    /// The text that is printed and not yet written, and whether an event was amiss.
    pub journal: Journal,
    /// The fault of the last line.
    pub fault: Option<Fault>,
    /// Whether each line is printed in front of its journal lines.
    pub with_script: bool,
}

// What is printed at the end of a run, and the steps of the run, if those are wanted.
#[derive(Clone, Copy)]
struct AtEnd<'a> {
    wanted: Wanted,
    watcher: &'a Option<Watcher>,
}

// By hand: a derived drop is taken apart wherever a session is dropped.
impl Drop for Session {
    fn drop(self) {
        let Session {
            stage: _stage,
            number: _number,
            line: _line,
            journal: _journal,
            fault: _fault,
            with_script: _with_script,
        } = self;
    }
}

// Drops the CR right before a line's LF.
fn drop_cr(line: &mut Vec<u8>)
    ensures { line.new.items ≡ strip_last 13 line.old.items }
{
    if !line.is_empty() && line[line.len() - 1] == CR {
        line.truncate(line.len() - 1);
    }
}

// Returns whether bytes have no LF. The loop doesn't stop at one, so that the bytes are compared
// together.
fn are_in_line(bytes: &[u8]) -> bool
    ensures { result ≡ list_all is_in_line bytes.now }
{
    let mut all = true;
    for byte in bytes {
        all &= *byte != LF;
    }
    all
}

// Returns the same as `line_len`, byte by byte.
fn short_line_len(bytes: &[u8]) -> usize
    ensures value { result ≡ prefix_len is_in_line bytes.now }
    ensures within { result ≤ length bytes.now }
{
    bytes.iter().take_while(|byte| **byte != LF).count()
}

// Returns the same as `line_len`, by eight bytes at first and then byte by byte.
fn block_line_len(bytes: &[u8]) -> usize
    ensures value { result ≡ prefix_len is_in_line bytes.now }
    ensures within { result ≤ length bytes.now }
{
    match bytes.split_first_chunk::<8>() {
        Some((block, behind)) if are_in_line(block) => 8 + short_line_len(behind),
        _ => short_line_len(bytes),
    }
}

/// Returns how many bytes stand before the first LF, or before the end if there is none.
pub fn line_len(bytes: &[u8]) -> usize
    ensures value { result ≡ prefix_len is_in_line bytes.now }
    ensures within { result ≤ length bytes.now }
{
    let mut passed = 0;
    let mut rest = bytes;
    'blocks: loop {
        match rest.split_first_chunk::<16>() {
            Some((block, behind)) if are_in_line(block) => {
                passed += 16;
                rest = behind;
            }
            _ => return passed + block_line_len(rest),
        }
    }
}

// Prints a line of the script, if that is wanted.
#[inline(always)]
fn push_wanted_line(with_script: bool, line: &[u8], out: &mut Vec<u8>) -> Result<(), NoMemory>
    ensures { OnOk result (out.new.items
        ≡ out.old.items ++ (if with_script then script_line line.now else [])) }
{
    if !with_script {
        return Ok(());
    }
    push_script_line(out, line)
}

impl Session {
    /// Returns a session before its first byte.
    pub fn new(alloc: Global) -> Self
        ensures new { IsNew result }
    {
        Session {
            stage: Stage::new(alloc),
            number: 0,
            line: Vec::new(alloc),
            journal: Journal::new(alloc),
            fault: None,
            with_script: false,
        }
    }

    // Writes all that was printed and not yet written.
    fn write<K: Sink>(&mut self, sink: &mut K) -> Result<(), Stop>
        ensures writes { (form : Form) → WhereverStands form (K.contents sink.old) self.old
            (λ bytes before. Writes form bytes before (K.contents sink.new) self.new result) }
        ensures left { OnOk result (self.new.journal.text.items ≡ []) }
        ensures failed { Rises (K.failed sink.old) (K.failed sink.new) (stopped_writes result) }
    {
        write_pending(&mut self.journal.text, sink)
    }

    // Runs the line that is kept, prints its journal lines, keeps its remarks, and returns whether
    // it has a fault. A fault is written at once, and its line stays, to be told to a person.
    fn run_kept<K: Sink>(&mut self, sink: &mut K) -> Result<bool, Stop>
        requires { self.old.number + 1 < 2 ^ 64 }
        ensures ran { OnOk result (Ran self.old self.old.line.items self.new) }
        ensures line { IfOk result (λ fault. self.new.line.items
            ≡ (if fault then self.old.line.items else [])) }
        ensures fault { IfOk result (λ fault. fault ≡ is_some self.new.fault) }
        ensures printed { OnOk result (Prints (K.contents sink.old)
            (K.contents sink.new) self.old.journal.text.items self.new.journal.text.items
            (next_text self.old self.old.line.items)) }
        ensures left { IfOk result (λ fault. fault ≡ true → self.new.journal.text.items ≡ []) }
        ensures err { OnErr result
            (AppendsFront (K.contents sink.old) (K.contents sink.new)
            (self.old.journal.text.items ++ next_text self.old self.old.line.items)) }
        ensures failed { Rises (K.failed sink.old) (K.failed sink.new) (stopped_writes result) }
    {
        self.number += 1;
        push_wanted_line(self.with_script, &self.line, &mut self.journal.text)?;
        self.journal.notices.clear();
        let alloc = *self.line.allocator();
        self.fault = self
            .stage
            .run_line(alloc, self.number, &self.line, &mut self.journal)?;
        self.journal
            .keep_remarks(&self.stage, self.number, &self.line)?;
        let is_fault = self.fault.is_some();
        write_printed(&mut self.journal.text, sink, is_fault)?;
        if is_fault {
            return Ok(true);
        }
        self.line.clear();
        Ok(false)
    }

    /// Runs the lines that more bytes complete, up to the first fault, and returns whether there
    /// was one. All that they print is written, and the bytes of an unfinished line are kept. On
    /// error the first part of the text is written.
    pub(crate) fn feed<K: Sink>(&mut self, chunk: &[u8], sink: &mut K) -> Result<bool, Stop>
        requires { self.old.number + length chunk.now < 2 ^ 64 }
        ensures feeds { (form : Form) → WhereverStands form (K.contents sink.old) self.old
            (λ bytes before. Feeds form (bytes ++ chunk.now) before (K.contents sink.new) self.new
            result) }
        ensures left { IfOk result (λ fault. fault ≡ false → self.new.journal.text.items ≡ []) }
        ensures failed { Rises (K.failed sink.old) (K.failed sink.new) (stopped_writes result) }
    {
        let mut rest = chunk;
        'lines: loop {
            let (front, behind) = rest.split_at(line_len(rest));
            match self.line.extend_from_slice(front) {
                Ok(()) => {}
                Err(_) => return Err(Stop::NoMemory),
            }
            let Some((_, after)) = behind.split_first() else {
                return match self.write(sink) {
                    Ok(()) => Ok(false),
                    Err(stop) => Err(stop),
                };
            };
            drop_cr(&mut self.line);
            match self.run_kept(sink) {
                Ok(false) => rest = after,
                Ok(true) => return Ok(true),
                Err(stop) => return Err(stop),
            }
        }
    }

    // Runs the last line if it lacks its LF, and returns whether it has a fault.
    fn end_input<K: Sink>(&mut self, sink: &mut K) -> Result<bool, Stop>
        requires { self.old.number + 1 < 2 ^ 64 }
        ensures closes { (form : Form) → WhereverStands form (K.contents sink.old) self.old
            (λ bytes before. Closes form bytes before (K.contents sink.new) self.new result) }
        ensures left { IfOk result (λ fault. fault ≡ true → self.new.journal.text.items ≡ []) }
        ensures failed { Rises (K.failed sink.old) (K.failed sink.new) (stopped_writes result) }
    {
        if self.line.is_empty() {
            return Ok(false);
        }
        self.run_kept(sink)
    }

    /// Runs the last line if it lacks its LF. Without a fault it writes what is wanted of the
    /// listing, the replay, the reads and the serial run. The status tells whether there was a
    /// fault. On error the first part of the output is written.
    pub(crate) fn finish<K: Sink>(&mut self, wanted: Wanted, sink: &mut K) -> Result<Status, Stop>
        requires { self.old.number + 1 < 2 ^ 64 }
        ensures finishes { WhereverStands (form_of wanted) (K.contents sink.old) self.old
            (λ bytes before. Finishes (form_of wanted) bytes before (K.contents sink.new) self.new
            result) }
        ensures failed { Rises (K.failed sink.old) (K.failed sink.new) (stopped_writes result) }
    {
        match self.end_input(sink) {
            Ok(false) => {}
            Ok(true) => return Ok(Status::LineFault),
            Err(stop) => return Err(stop),
        }
        let at_end = AtEnd {
            wanted,
            watcher: &self.journal.watcher,
        };
        match write_end(&mut self.stage, at_end, &mut self.journal.text, sink) {
            Ok(are_amiss) => {
                self.journal.is_amiss |= are_amiss;
                Ok(Status::Done)
            }
            Err(stop) => Err(stop),
        }
    }
}

// Writes what is pending, and behind it what is wanted at the end. Returns whether something is
// amiss that reads saw or missed. Makes the region if no line has made it yet.
fn write_end<K: Sink>(
    stage: &mut Stage,
    at_end: AtEnd<'_>,
    pending: &mut Vec<u8>,
    sink: &mut K,
) -> Result<bool, Stop>
    ensures stage { OnOk result (stage.new ≡ Running (region_of stage.old)) }
    ensures amiss { IfOk result (λ are_amiss. are_amiss ≡ amiss_at at_end.entry) }
    ensures ok { OnOk result (Appends (K.contents sink.old) (K.contents sink.new)
        (pending.old.items ++ text_at_end at_end.entry stage.old)) }
    ensures err { OnErr result
        (AppendsFront (K.contents sink.old) (K.contents sink.new)
        (pending.old.items ++ text_at_end at_end.entry stage.old)) }
    ensures failed { Rises (K.failed sink.old) (K.failed sink.new) (stopped_writes result) }
{
    stage.open()?;
    let Stage::Running(region) = stage else {
        unreachable!();
    };
    let are_amiss = push_all_wanted(region, at_end, pending)?;
    write_pending(pending, sink)?;
    Ok(are_amiss)
}

// Prints what is asked for of the listing of a region and the replay of its history.
fn push_listed(region: &Region, options: Options, out: &mut Vec<u8>) -> Result<(), NoMemory>
    ensures { OnOk result (out.new.items ≡ out.old.items ++ listed options (Running region.now)) }
{
    if !options.no_list {
        push_listing(out, &region.listing()?)?;
    }
    if options.replay {
        push_replay(out, &region.replayed()?)?;
    }
    Ok(())
}

// Prints what reads saw and missed, if that is wanted, and returns whether something of it is
// amiss.
fn push_watched(watcher: &Option<Watcher>, out: &mut Vec<u8>) -> Result<bool, NoMemory>
    ensures text { OnOk result (out.new.items
        ≡ with_reads out.old.items (option_map watched_in watcher.now)) }
    ensures amiss { IfOk result (λ amiss. amiss
        ≡ are_reads_amiss (option_map watched_in watcher.now)) }
{
    match watcher {
        Some(watcher) => watcher.push_reads(out),
        None => Ok(false),
    }
}

// Prints what is wanted of the listing of a region, the replay, the reads and the serial run.
// Returns whether something is amiss that reads saw or missed.
fn push_all_wanted(region: &Region, at_end: AtEnd<'_>, out: &mut Vec<u8>) -> Result<bool, NoMemory>
    ensures text { OnOk result (out.new.items
        ≡ out.old.items ++ text_at_end at_end.entry (Running region.now)) }
    ensures amiss { IfOk result (λ are_amiss. are_amiss ≡ amiss_at at_end.entry) }
{
    push_listed(region, at_end.wanted.options, out)?;
    let are_amiss = push_watched(at_end.watcher, out)?;
    if at_end.wanted.serial {
        push_serial(out, region.units())?;
    }
    Ok(are_amiss)
}
