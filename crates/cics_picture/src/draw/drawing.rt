//! The lines of a script, run and drawn.

ghost use Rattle.std.specs.Prelude.{◌≡◌, ◌++◌, ◌<◌, ◌≤◌, ◌+◌, ◌^◌, [], IfOk, IfErr, OnOk, length};
ghost use Rattle.cics_run.specs.Session.Standing.{IsNew, next_step};
ghost use Rattle.cics_run.specs.Session.Lines.{all_lines};
ghost use Rattle.cics_run.specs.Session.Running.{is_faulty, play};
ghost use Rattle.cics_run.specs.Stage.Seen.{after_step};
ghost use Rattle.cics_picture.specs.Lanes.{most_lanes, most_rows};
ghost use Rattle.cics_picture.specs.Drawings.{drawn_of, nothing_drawn, with_line, rows_of};
ghost use Rattle.cics_picture.specs.declared.drawing.Undrawn.TheVariants.{TooManyRows};
ghost use Rattle.cics_picture.specs.Draw.Pictures.{next_printed, drawing_of, picture_of};
ghost use Rattle.cics_picture.specs.Draw.Pictures.{standings_behind, RunsLine, KeepsLast};
ghost use Rattle.cics_picture.specs.Draw.Recording.{recorded_in, nothing_recorded, recorded};

use crate::draw::reads::{shown_at, with_shown};
use crate::draw::recording::{Given, Recorder};
use crate::draw::standings::{entries_at, fills_at, standings_at};
use crate::draw::titles::title_of;
use crate::{Drawing, Standing, Undrawn, push_sheet};
use cics_names::{Items, NoMemory};
use cics_run::reading::next_line;
use cics_run::session::Session;
use cics_run::stage::Observer;

/// Runs a line and returns whether it has a fault. The observer sees what it leads to. The session
/// keeps a line with a fault, for what is told on standard error.
pub fn run_line<O: Observer>(
    session: &mut Session,
    observer: &mut O,
    line: &[u8],
) -> Result<bool, NoMemory>
    requires number { session.old.number + 1 < 2 ^ 64 }
    requires none { session.old.line.items ≡ [] }
    ensures runs { RunsLine session.old line.now session.new result }
    ensures seen { OnOk result (O.seen observer.new ≡ after_step O.sight (session.old.number + 1)
        (O.seen observer.old) (next_step session.old line.now)) }
{
    session.number += 1;
    let alloc = *session.line.allocator();
    session.fault = session
        .stage
        .run_line(alloc, session.number, line, observer)?;
    let is_fault = session.fault.is_some();
    if is_fault {
        session.line.extend_from_slice(line)?;
    }
    Ok(is_fault)
}

// Runs a line and returns whether it has a fault. A recorder keeps what it leads to.
fn record_line(
    session: &mut Session,
    recorder: &mut Recorder,
    line: &[u8],
) -> Result<bool, NoMemory>
    requires number { session.old.number + 1 < 2 ^ 64 }
    requires none { session.old.line.items ≡ [] }
    requires nothing { recorded_in recorder.old ≡ nothing_recorded }
    ensures runs { RunsLine session.old line.now session.new result }
    ensures recorded { OnOk result (recorded_in recorder.new
        ≡ recorded (session.old.number + 1) (next_step session.old line.now)) }
{
    run_line(session, recorder, line)
}

// Returns how the tasks stand after a line that a session has run, and what its read shows.
fn standings_behind(
    before: usize,
    session: &Session,
    line: &[u8],
    given: &Option<Given>,
) -> Result<Items<Standing>, NoMemory>
    ensures value { IfOk result (λ standings. standings
        ≡ standings_behind before session.now.stage line.now given.now) }
    ensures few { IfOk result (λ standings. length standings ≤ most_lanes) }
{
    let standings = standings_at(*session.line.allocator(), before, &session.stage)?;
    let shown = shown_at(&session.stage, line, given)?;
    Ok(with_shown(standings, shown))
}

// Runs a line, draws what it leads to, and returns whether it has a fault.
fn draw_line(session: &mut Session, drawing: &mut Drawing, line: &[u8]) -> Result<bool, Undrawn>
    requires number { session.old.number + 1 < 2 ^ 64 }
    requires none { session.old.line.items ≡ [] }
    ensures runs { RunsLine session.old line.now session.new result }
    ensures drawn { OnOk result (drawn_of drawing.new
        ≡ with_line (drawn_of drawing.old) (next_printed session.old line.now)) }
    ensures too_many { IfErr result (λ e. e ≡ TooManyRows
        → most_rows < drawing.old.rows + length (rows_of (next_printed session.old line.now))) }
{
    let before = entries_at(&session.stage).len();
    let mut recorder = Recorder::new(*session.line.allocator());
    let is_fault = record_line(session, &mut recorder, line)?;
    let standings = standings_behind(before, session, line, &recorder.given)?;
    drawing.push_line(session.number, line, &recorder.told, standings.as_slice())?;
    Ok(is_fault)
}

// Runs the lines of a script up to the first fault, draws what they lead to, and returns whether
// there was a fault.
fn draw_lines(session: &mut Session, drawing: &mut Drawing, script: &[u8]) -> Result<bool, Undrawn>
    requires new { IsNew session.old }
    requires nothing { drawn_of drawing.old ≡ nothing_drawn }
    ensures drawn { OnOk result (drawn_of drawing.new ≡ drawing_of script.now) }
    ensures fault { IfOk result (λ fault. is_faulty script.now ≡ fault) }
    ensures kept { IfOk result (KeepsLast script.now session.new) }
    ensures stage { OnOk result (session.new.stage ≡ (play (all_lines script.now)).stage) }
    ensures too_many { IfErr result (λ e. e ≡ TooManyRows
        → most_rows < (drawing_of script.now).rows) }
{
    let mut rest = script;
    'lines: loop {
        let Some((line, after)) = next_line(rest) else {
            return Ok(false);
        };
        match draw_line(session, drawing, line) {
            Ok(false) => rest = after,
            Ok(true) => return Ok(true),
            Err(undrawn) => return Err(undrawn),
        }
    }
}

/// Runs a script in a new session, and puts its picture at the end of a text. Returns whether a
/// line has a fault: the picture then ends with this fault, and the session keeps the line.
///
/// Errors: `TooManyRows` if the run has more events than a picture may have rows; `NoMemory`.
pub fn draw_script(session: &mut Session, script: &[u8], out: &mut Vec<u8>) -> Result<bool, Undrawn>
    requires new { IsNew session.old }
    ensures picture { OnOk result (out.new.items ≡ out.old.items ++ picture_of script.now) }
    ensures fault { IfOk result (λ fault. is_faulty script.now ≡ fault) }
    ensures kept { IfOk result (KeepsLast script.now session.new) }
    ensures too_many { IfErr result (λ e. e ≡ TooManyRows
        → most_rows < (drawing_of script.now).rows) }
{
    let mut drawing = Drawing::new(*out.allocator());
    let is_faulty = draw_lines(session, &mut drawing, script)?;
    let fills = fills_at(*out.allocator(), &session.stage)?;
    push_sheet(out, &mut drawing, fills.as_slice(), title_of(script))?;
    Ok(is_faulty)
}
