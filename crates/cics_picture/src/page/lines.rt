//! Lines of a script and their steps, as a page has them.

ghost use Rattle.std.specs.Prelude.{◌≡◌, ◌++◌, ◌+◌, ◌<◌, ◌≤◌, [], List, ℕ, length, IfErr, OnOk};
ghost use Rattle.cics_picture.specs.Draw.Standings.{outcomes_at};
ghost use Rattle.cics_picture.specs.Page.Lines.{page_line, rest, step_text, steps_text};
ghost use Rattle.cics_picture.specs.Page.Lines.{quiet_text, inside_text};
ghost use Rattle.cics_picture.specs.Page.Sheets.{HasLine, most_steps, most_bytes};
ghost use Rattle.cics_picture.specs.declared.page.lines.Unwritten.TheVariants.{TooLong};
ghost use Rattle.cics_picture.specs.declared.page.lines.Unwritten.TheVariants.{TooManySteps};

use crate::draw::outcomes_at;
use crate::elements::push_spoken;
use crate::page::kinds::{kind_class, woken_class};
use crate::page::notes::Note;
use crate::page::pieces::{Piece, push_pieces};
use crate::page::recording::PageStep;
use crate::page::texts::{push_note, push_notes};
use crate::xml::Tag;
use cics_history::UnitState;
use cics_names::NoMemory;
use cics_run::stage::Stage;
use cics_script::spelling::{Part, push_parts, push_str};
use std::alloc::Global;

/// How many steps a page has at most.
pub const MOST_STEPS: u64 = 100_000;

/// How many bytes the lines of a page have at most.
pub const MOST_BYTES: usize = 67_108_864;

/// Why a page isn't written.
#[derive(Clone, Copy, PartialEq, Eq)]
pub enum Unwritten {
    /// A request for memory was refused.
    NoMemory,
    /// It would have more than `MOST_STEPS` steps.
    TooManySteps,
    /// Its lines would have more than `MOST_BYTES` bytes.
    TooLong,
}

impl From<NoMemory> for Unwritten {
    ghost use Rattle.std.specs.Prelude.{◌≡◌};
    ghost use Rattle.cics_picture.specs.declared.page.lines.Unwritten.TheVariants.{NoMemory as Wanting};

    ghost from_gives = { λ _ unwritten. unwritten ≡ Wanting };

    fn from(_want: NoMemory) -> Unwritten {
        Unwritten::NoMemory
    }
}

/// The lines of a page so far, and how many steps they have.
#[derive(Drop)]
pub struct Sheet {
    pub text: Vec<u8>,
    pub steps: u64,
    /// The end of the run: it says how each unit ends.
    pub last: Stage,
}

// Puts what a step tells.
fn push_rest(out: &mut Vec<u8>, outcomes: &[UnitState], step: &PageStep) -> Result<(), NoMemory>
    ensures { OnOk result (out.new.items ≡ out.old.items ++ rest outcomes.now step.now) }
{
    push_pieces(
        out,
        &[
            Piece::Element(Tag::Samp, Part::Bytes(step.text.bytes())),
            Piece::Markup("\n"),
        ],
    )?;
    push_notes(out, outcomes, step.notes.as_slice())?;
    push_str(out, "</div>")
}

impl Sheet {
    /// Returns a sheet without lines, for a run that ends at this stage.
    pub fn new(alloc: Global, last: Stage) -> Sheet
        ensures text { result.text.items ≡ [] }
        ensures steps { result.steps ≡ 0 }
        ensures last { result.last ≡ last }
    {
        Sheet {
            text: Vec::new(alloc),
            steps: 0,
            last,
        }
    }

    // Puts a line without steps, and what it defines.
    fn push_quiet(&mut self, code: &[u8], defined: &Option<Note>) -> Result<(), NoMemory>
        ensures text { OnOk result (self.new.text.items ≡ self.old.text.items
            ++ quiet_text (outcomes_at self.old.last) code.now defined.now) }
        ensures steps { self.new.steps ≡ self.old.steps }
        ensures last { self.new.last ≡ self.old.last }
    {
        push_parts(&mut self.text, &[Part::Bytes(code), Part::Str("\n")])?;
        match defined {
            Some(note) => push_note(&mut self.text, outcomes_at(&self.last), note),
            None => Ok(()),
        }
    }

    // Puts a step, with the text of the line that it is the first of, or nothing.
    fn push_step(&mut self, code: &[u8], step: &PageStep) -> Result<(), NoMemory>
        requires { self.old.steps < most_steps }
        ensures text { OnOk result (self.new.text.items ≡ self.old.text.items
            ++ step_text (outcomes_at self.old.last) (self.old.steps + 1) code.now step.now) }
        ensures steps { OnOk result (self.new.steps ≡ self.old.steps + 1) }
        ensures last { self.new.last ≡ self.old.last }
    {
        push_parts(
            &mut self.text,
            &[
                Part::Str("<div id=\"s"),
                Part::Number(self.steps + 1),
                Part::Str("\" class=\""),
                Part::Str(woken_class(step.is_woken)),
                Part::Str(kind_class(step.kind)),
                Part::Str("\">"),
                Part::Bytes(code),
                Part::Str("\n"),
            ],
        )?;
        push_rest(&mut self.text, outcomes_at(&self.last), step)?;
        self.steps += 1;
        Ok(())
    }

    // Puts steps, the first of them with the text of the line.
    fn push_steps(&mut self, code: &[u8], steps: &[PageStep]) -> Result<(), NoMemory>
        requires { self.old.steps + length steps.now ≤ most_steps }
        ensures text { OnOk result (self.new.text.items ≡ self.old.text.items
            ++ steps_text (outcomes_at self.old.last) (self.old.steps + 1) code.now steps.now) }
        ensures steps { OnOk result (self.new.steps ≡ self.old.steps + length steps.now) }
        ensures last { self.new.last ≡ self.old.last }
    {
        let mut code = code;
        for step in steps {
            self.push_step(code, step)?;
            code = &[];
        }
        Ok(())
    }

    // Puts what a line has: its steps, or if it has none its text and what it defines.
    fn push_inside(
        &mut self,
        line: &[u8],
        steps: &[PageStep],
        defined: &Option<Note>,
    ) -> Result<(), NoMemory>
        requires { self.old.steps + length steps.now ≤ most_steps }
        ensures text { OnOk result (self.new.text.items ≡ self.old.text.items
            ++ inside_text (outcomes_at self.old.last) (self.old.steps + 1) line.now defined.now
            steps.now) }
        ensures steps { OnOk result (self.new.steps ≡ self.old.steps + length steps.now) }
        ensures last { self.new.last ≡ self.old.last }
    {
        let mut code = Vec::new(*self.text.allocator());
        push_spoken(&mut code, Tag::Code, line)?;
        if steps.is_empty() {
            return self.push_quiet(&code, defined);
        }
        self.push_steps(&code, steps)
    }

    /// Puts a line that was run, its steps, and if it has none what it defines.
    ///
    /// Errors: `TooManySteps`; `TooLong`; `NoMemory`. A sheet that was refused a line is of no use.
    pub fn push_line(
        &mut self,
        line: &[u8],
        steps: &[PageStep],
        defined: &Option<Note>,
    ) -> Result<(), Unwritten>
        ensures text { OnOk result (HasLine self.old self.new.text.items
            (page_line line.now steps.now defined.now)) }
        ensures steps { OnOk result (self.new.steps ≡ self.old.steps + length steps.now) }
        ensures last { self.new.last ≡ self.old.last }
        ensures too_many { IfErr result (λ e. e ≡ TooManySteps
            → most_steps < self.old.steps + length steps.now) }
        ensures too_long { IfErr result (λ e. e ≡ TooLong → (text : List ℕ)
            × HasLine self.old text (page_line line.now steps.now defined.now)
            × (most_bytes < length text)) }
    {
        if self.steps.saturating_add(steps.len() as u64) > MOST_STEPS {
            return Err(Unwritten::TooManySteps);
        }
        push_str(&mut self.text, "<li>")?;
        self.push_inside(line, steps, defined)?;
        push_str(&mut self.text, "</li>\n")?;
        if self.text.len() > MOST_BYTES {
            return Err(Unwritten::TooLong);
        }
        Ok(())
    }
}
