//! What a line of a script defines or loads.

ghost use Rattle.std.specs.Prelude.{◌≡◌, OnOk, OnErr, Ok};
ghost use Rattle.cics_units.specs.Opening.Faults.{AnswersFault};
ghost use Rattle.cics_orders.specs.Plans.Defining.{define_fault, defined_by};

use cics_script::Line;
use cics_units::{DefineFault, Opening};

/// Defines or loads what a line says. Another line does nothing.
///
/// Errors: those of the line's definition (`Opening`). They change nothing.
#[tactic(auto, unfolding(crate::specs::Plans::Defining::defined_by))]
pub fn define(opening: &mut Opening, line: Line) -> Result<(), DefineFault>
    ensures fault { AnswersFault result (define_fault opening.old line) }
    ensures ok { OnOk result (opening.new ≡ defined_by opening.old (Ok line)) }
    ensures err { OnErr result (opening.new ≡ opening.old) }
{
    match line {
        Line::DefineFile(name, definition) => opening.define_file(name, definition),
        Line::DefineTsPrefix(prefix) => opening.define_ts_prefix(prefix),
        Line::DefineTd(name, recovery) => opening.define_td(name, recovery),
        Line::LoadFile(name, content) => opening.load_file(name, content),
        Line::LoadTd(name, content) => opening.load_td(name, content),
        _ => Ok(()),
    }
}
