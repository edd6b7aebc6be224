//! Reads the lines of a script.
//!
//! The modules, in the order to read them:
//!
//! - `faults`: why a line can't be read.
//! - `tokens`, `literals`: the words, numbers, literals and parentheses that a line is cut into.
//! - `words`: the grammar as tables. They say which word begins which line, and which options each
//!   line takes.
//! - `options`: reads the options of a line into a list of at most 13.
//! - `values`, `commands`: what the options in that list give, and the command that they ask for.
//! - `labels`, `lines`: `read_line` returns the `Line` that the bytes say, or their first fault.
//! - `columns`: `find_fault` returns that fault with its column.
//!
//! `cics_script::spelling` writes commands as lines. Cost of a call: O(bytes that it reads), but
//! for `find_fault`.
#![tactic(auto)]

pub mod advice;
mod columns;
mod commands;
mod faults;
mod labels;
mod lines;
mod literals;
mod options;
pub mod spelling;
mod tokens;
mod values;
mod words;

pub use columns::{Placed, find_fault};
pub use faults::LineFault;
pub use lines::{Line, adds_nothing, read_line};
pub use tokens::{skip_blanks, whole_token};
