//! A picture of a run: a row for each event, a lane for each task, a bar for each unit of work.
//!
//! [`Drawing::push_line`] draws a row for each event of a line of a script, and for its fault. Then
//! it draws how the tasks stand after it. [`push_sheet`] puts the whole picture at the end of a
//! text, as SVG. Laws say that each picture is well formed ([`sheets_are_documents`]), that each
//! wait has its arrow ([`waits_have_arrows`]), and each unit of a lane a bar ([`units_have_bars`]).
//! They say where the bar of a unit that has ended begins and ends ([`bars_span_units`]), and where
//! further arrows and rings stand ([`new_blockers_have_signs`]).
#![tactic(auto)]

mod bars;
pub mod draw;
mod drawing;
mod elements;
mod events;
mod lanes;
pub mod page;
mod rows;
mod sheet;
mod style;
pub mod xml;

pub use bars::{Fill, NOBODY, Standing};
pub use drawing::{Drawing, MOST_ROWS, Undrawn};
pub use events::{RowKind, Told};
pub use lanes::MOST_LANES;
pub use sheet::{
    bars_span_units, new_blockers_have_signs, push_sheet, sheets_are_documents, units_have_bars,
    waits_have_arrows,
};
