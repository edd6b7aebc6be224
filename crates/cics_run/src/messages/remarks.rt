//! The remarks of a run: a line for each event that a person is told of at its end.

ghost use Rattle.std.specs.Prelude.{◌≡◌, ◌++◌, [], false, OnOk};
ghost use Rattle.std.specs.List.{fold};
ghost use Rattle.cics_run.specs.Messages.Findings.{with_finding};
ghost use Rattle.cics_run.specs.Messages.Remarks.{counted, with_notice, remark_line};
ghost use Rattle.cics_run.specs.Messages.Remarks.{remark_lines};

use crate::messages::findings::{line_of, push_finding};
use crate::messages::noted::push_notice;
use crate::reads::{Finding, is_amiss};
use crate::stage::{Notice, Scope, Stage};
use cics_names::{Items, NoMemory};
use cics_script::advice::{Origin, push_place};
use cics_script::spelling::Part::{Bytes, Number, Str};
use cics_script::spelling::push_parts;
use std::alloc::Global;

// How many remarks are kept at most.
const MOST_REMARKS: usize = 64;

/// What is told of an event of the line with this number.
#[derive(Drop)]
pub struct Remark {
    pub number: u64,
    pub text: Items<u8>,
}

/// The remarks of a run so far.
#[derive(Drop)]
pub struct Remarks {
    /// Which events are told.
    pub scope: Scope,
    /// The first 64 remarks.
    pub kept: Items<Remark>,
    /// How many there were beyond these, at most 2^64 - 1.
    pub more: u64,
}

impl Remarks {
    /// Returns empty remarks.
    pub fn new(alloc: Global) -> Remarks
        ensures { result ≡ record {
          scope = record { strict = false; why = false };
          kept = [];
          more = 0;
        } }
    {
        Remarks {
            scope: Scope {
                strict: false,
                why: false,
            },
            kept: Items::new(alloc),
            more: 0,
        }
    }

    // Counts a remark that isn't kept.
    fn count(&mut self)
        ensures { self.new ≡ counted self.old }
    {
        if self.more < u64::MAX {
            self.more += 1;
        }
    }

    // Adds the remark on a notice. Beyond 64 it only counts.
    fn add(
        &mut self,
        stage: &Stage,
        number: u64,
        line: &[u8],
        notice: &Notice,
    ) -> Result<(), NoMemory>
        ensures { OnOk result (self.new ≡ with_notice stage.now number line.now self.old notice.now) }
    {
        if self.kept.len() >= MOST_REMARKS {
            self.count();
            return Ok(());
        }
        let mut text = Vec::new(stage.allocator());
        push_notice(&mut text, stage, line, notice)?;
        self.kept.push(Remark {
            number,
            text: Items::from_vec(text),
        })
    }

    /// Adds a remark on each notice of the line of this number. The stage is that behind the line.
    ///
    /// Errors: `NoMemory`.
    #[cold]
    pub fn add_all(
        &mut self,
        stage: &Stage,
        number: u64,
        line: &[u8],
        notices: &[Notice],
    ) -> Result<(), NoMemory>
        ensures { OnOk result (self.new
            ≡ fold (with_notice stage.now number line.now) self.old notices.now) }
    {
        for notice in notices {
            self.add(stage, number, line, notice)?;
        }
        Ok(())
    }

    // Adds the remark on what reads saw or missed, if that is amiss. Beyond 64 it only counts.
    fn add_finding(&mut self, alloc: Global, found: &Finding) -> Result<(), NoMemory>
        ensures { OnOk result (self.new ≡ with_finding self.old found.now) }
    {
        if !is_amiss(found) {
            return Ok(());
        }
        if self.kept.len() >= MOST_REMARKS {
            self.count();
            return Ok(());
        }
        let mut text = Vec::new(alloc);
        push_finding(&mut text, found)?;
        self.kept.push(Remark {
            number: line_of(found),
            text: Items::from_vec(text),
        })
    }

    /// Adds a remark on each finding of `--reads` that is amiss.
    ///
    /// Errors: `NoMemory`.
    pub fn add_findings(&mut self, alloc: Global, found: &[Finding]) -> Result<(), NoMemory>
        ensures { OnOk result (self.new ≡ fold with_finding self.old found.now) }
    {
        for one in found {
            self.add_finding(alloc, one)?;
        }
        Ok(())
    }
}

// Appends the line of a remark.
fn push_remark(out: &mut Vec<u8>, file: Option<&[u8]>, remark: &Remark) -> Result<(), NoMemory>
    ensures { OnOk result (out.new.items ≡ out.old.items ++ remark_line file.entry remark.now) }
{
    let line = remark.number;
    push_place(out, Origin { file, line }, None)?;
    push_parts(out, &[Bytes(remark.text.as_slice()), Str("\n")])
}

/// Appends a line for each remark that is kept, and one that says how many more there were. `file`
/// is the name of the script's file, if it has one.
pub fn push_remarks(
    out: &mut Vec<u8>,
    file: Option<&[u8]>,
    remarks: &Remarks,
) -> Result<(), NoMemory>
    ensures { OnOk result (out.new.items ≡ out.old.items ++ remark_lines file.entry remarks.now) }
{
    for remark in remarks.kept.as_slice() {
        push_remark(out, file, remark)?;
    }
    match remarks.more {
        0 => Ok(()),
        more => push_parts(out, &[Str("cicsrun: and "), Number(more), Str(" more\n")]),
    }
}
