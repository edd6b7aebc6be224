//! The rows of a picture and the marks in its lanes.

ghost use Rattle.std.specs.Prelude.{◌≡◌, ◌++◌, ◌<◌, ◌≤◌, ◌+◌, ◌*◌, [], length, OnOk};
ghost use Rattle.std.specs.Prelude.{IfErr, codes};
ghost use Rattle.std.specs.List.{fold};
ghost use Rattle.cics_picture.specs.Lanes.{most_lanes, most_rows, lane_of, lane_x};
ghost use Rattle.cics_picture.specs.Drawings.{drawn_of, nothing_drawn, beside};
ghost use Rattle.cics_picture.specs.Drawings.{label_text, lane_marks, waited, line_text};
ghost use Rattle.cics_picture.specs.Elements.{stroke, words};
ghost use Rattle.cics_picture.specs.Events.{class_of};
ghost use Rattle.cics_picture.specs.Drawings.{row_marks, row_number, told_text, with_row};
ghost use Rattle.cics_picture.specs.Drawings.{row, rows_from, printed, with_line};
ghost use Rattle.cics_picture.specs.declared.drawing.Undrawn.TheVariants.{TooManyRows};

use crate::bars::{Lane, Standing, lane_at, new_lanes, note_row};
use crate::drawing::{Drawing, MOST_ROWS, Undrawn};
use crate::elements::{cut, push_arrow, push_cut_words, push_mark, push_stroke, push_words};
use crate::events::{RowKind, Told};
use crate::lanes::{give_lane, lane_of, lane_x, row_y};
use cics_names::{Items, Name8, NoMemory, Record};
use cics_script::spelling::Part;
use std::alloc::Global;

// Puts the label of a task above its lane.
fn push_label(out: &mut Vec<u8>, lane: usize, task: Option<Name8>) -> Result<(), NoMemory>
    requires { lane < most_lanes }
    ensures { OnOk result (out.new.items
        ≡ out.old.items ++ words (codes "b m") (lane_x lane) 98 (label_text task)) }
{
    let place = (lane_x(lane), 98);
    match task {
        Some(label) => push_words(out, "b m".as_bytes(), place, &[Part::Bare(&label.bytes())]),
        None => push_words(out, "b m".as_bytes(), place, &[]),
    }
}

// Puts what an event has beside its mark: an attached task its heading, a wait its arrow to the
// blocker, if that has a lane.
fn push_beside(
    out: &mut Vec<u8>,
    tasks: &[Name8],
    place: (usize, u64),
    told: &Told,
) -> Result<(), NoMemory>
    requires few { length tasks.now ≤ most_lanes }
    requires lane { place.0 < most_lanes }
    ensures { OnOk result (out.new.items ≡ out.old.items
        ++ beside tasks.now place.0 place.1 told.now told.now.kind) }
{
    match told.kind {
        RowKind::Attached => push_label(out, place.0, told.task),
        RowKind::Waiting => match lane_of(tasks, told.blocker) {
            Some(holder) => push_arrow(out, place.0, holder, place.1),
            None => Ok(()),
        },
        _ => Ok(()),
    }
}

// Puts a line across the lanes.
fn push_across(out: &mut Vec<u8>, lanes: usize, y: u64, kind: RowKind) -> Result<(), NoMemory>
    requires { lanes ≤ most_lanes }
    ensures { OnOk result (out.new.items
        ≡ out.old.items ++ stroke (class_of kind) 66 y (66 + 60 * lanes) y) }
{
    push_stroke(
        out,
        kind.class().as_bytes(),
        (66, y),
        (66 + 60 * (lanes as u64), y),
    )
}

// Puts the marks of an event in the lane of its task, if it has one. An event of no task has its
// mark to the left of the lanes.
fn push_lane_marks(out: &mut Vec<u8>, tasks: &[Name8], y: u64, told: &Told) -> Result<(), NoMemory>
    requires { length tasks.now ≤ most_lanes }
    ensures { OnOk result (out.new.items ≡ out.old.items
        ++ lane_marks tasks.now y told.now (lane_of tasks.now told.now.task)) }
{
    match lane_of(tasks, told.task) {
        Some(lane) => {
            push_beside(out, tasks, (lane, y), told)?;
            push_mark(out, told.kind, lane_x(lane), y)
        }
        None if told.task.is_some() => Ok(()),
        None => push_mark(out, told.kind, 66, y),
    }
}

// Puts the marks of a row.
fn push_marks(out: &mut Vec<u8>, tasks: &[Name8], y: u64, told: &Told) -> Result<(), NoMemory>
    requires { length tasks.now ≤ most_lanes }
    ensures { OnOk result (out.new.items ≡ out.old.items ++ row_marks tasks.now y told.now) }
{
    match told.kind {
        RowKind::Clock => push_across(out, tasks.len(), y, RowKind::Clock),
        RowKind::Down => push_across(out, tasks.len(), y, RowKind::Down),
        _ => push_lane_marks(out, tasks, y, told),
    }
}

// Puts the number of a line of the script, unless it is 0.
fn push_row_number(out: &mut Vec<u8>, y: u64, number: u64) -> Result<(), NoMemory>
    ensures { OnOk result (out.new.items ≡ out.old.items ++ row_number y number) }
{
    if number == 0 {
        return Ok(());
    }
    push_words(out, "d e".as_bytes(), (52, y), &[Part::Number(number)])
}

// Returns the line with which the task of a lane last waited. If it never waited, that is the line
// of the first row; without a lane there are no bytes.
fn waited<'a>(lines: &'a [Record], lanes: &[Lane], lane: Option<usize>) -> &'a [u8]
    ensures { result.now ≡ waited lines.now lanes.now lane }
{
    let Some(lane) = lane else {
        return &[];
    };
    match lines.get(lane_at(lanes, lane).asked as usize) {
        Some(line) => line.bytes(),
        None => &[],
    }
}

// Puts the line of a row, of this height and this number of its line. Without a number it puts the
// line with which the task waited, dimmed.
fn push_line_text(
    out: &mut Vec<u8>,
    place: (u64, u64),
    line: &[u8],
    asked: &[u8],
) -> Result<(), NoMemory>
    ensures { OnOk result (out.new.items
        ≡ out.old.items ++ line_text place.0 place.1 line.now asked.now) }
{
    if place.1 == 0 {
        push_cut_words(out, "d".as_bytes(), (78, place.0), cut(asked, 90))
    } else {
        push_cut_words(out, "line".as_bytes(), (78, place.0), cut(line, 90))
    }
}

// Puts what a row tells.
fn push_told_text(out: &mut Vec<u8>, y: u64, told: &Told) -> Result<(), NoMemory>
    ensures { OnOk result (out.new.items ≡ out.old.items ++ told_text y told.now) }
{
    let note = told.note.bytes();
    let (front, dots) = cut(told.text.bytes(), 70 - note.len().min(36));
    push_words(
        out,
        told.kind.class().as_bytes(),
        (744, y),
        &[Part::Bytes(front), Part::Bytes(dots), Part::Bytes(note)],
    )
}

impl Drawing {
    /// Returns a drawing without rows.
    pub fn new(alloc: Global) -> Drawing
        ensures { drawn_of result ≡ nothing_drawn }
    {
        Drawing {
            rows: 0,
            lines: Items::new(alloc),
            tasks: Items::new(alloc),
            marks: Vec::new(alloc),
            texts: Vec::new(alloc),
            lanes: new_lanes(),
            bars: Items::new(alloc),
        }
    }

    // Draws a row. `number` and `line` are those of the script's line, or 0 and nothing for an
    // event that comes by itself.
    fn push_row(&mut self, number: u64, line: &[u8], told: &Told) -> Result<(), NoMemory>
        requires { self.old.rows < 100000 }
        ensures { OnOk result (drawn_of self.new
            ≡ with_row (drawn_of self.old) (row number line.now told.now)) }
    {
        let y = row_y(self.rows);
        give_lane(&mut self.tasks, told)?;
        push_row_number(&mut self.marks, y + 4, number)?;
        push_marks(&mut self.marks, self.tasks.as_slice(), y, told)?;
        let lane = lane_of(self.tasks.as_slice(), told.task);
        let asked = waited(self.lines.as_slice(), &self.lanes, lane);
        push_line_text(&mut self.texts, (y + 4, number), line, asked)?;
        push_told_text(&mut self.texts, y + 4, told)?;
        let alloc = *self.texts.allocator();
        self.lines.push(Record::from_slice(alloc, line)?)?;
        note_row(&mut self.lanes, lane, self.rows, told.kind);
        self.rows += 1;
        Ok(())
    }

    // Draws the rows of what a line of the script led to. The first row has the line's number and
    // its text.
    fn push_rows(&mut self, number: u64, line: &[u8], rows: &[Told]) -> Result<(), Undrawn>
        ensures drawn { OnOk result (drawn_of self.new
            ≡ fold with_row (drawn_of self.old) (rows_from number line.now rows.now)) }
        ensures too_many { IfErr result (λ e. e ≡ TooManyRows
            → most_rows < self.old.rows + length (rows_from number line.now rows.now)) }
    {
        let mut number = number;
        let mut line = line;
        for told in rows {
            if self.rows == MOST_ROWS {
                return Err(Undrawn::TooManyRows);
            }
            self.push_row(number, line, told)?;
            number = 0;
            line = &[];
        }
        Ok(())
    }

    /// Draws the rows of what a line of the script led to. Then it draws how the task of each lane
    /// stands. The first row has the line's number and its text.
    ///
    /// Errors: `TooManyRows` if that is more rows than a picture may have; `NoMemory`. A picture
    /// that was refused a row is of no use.
    pub fn push_line(
        &mut self,
        number: u64,
        line: &[u8],
        rows: &[Told],
        standings: &[Standing],
    ) -> Result<(), Undrawn>
        requires { length standings.now ≤ most_lanes }
        ensures drawn { OnOk result (drawn_of self.new ≡ with_line (drawn_of self.old)
            (printed number line.now rows.now standings.now)) }
        ensures too_many { IfErr result (λ e. e ≡ TooManyRows
            → most_rows < self.old.rows + length (rows_from number line.now rows.now)) }
    {
        let first = row_y(self.rows);
        self.push_rows(number, line, rows)?;
        self.end_line(first, standings)?;
        Ok(())
    }
}
