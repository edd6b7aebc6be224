//! A page of a run: what each line of a script is answered, and what it changed.
//!
//! [`run_page`] reads a whole script, runs it as `cics_run::session` does, and writes one HTML
//! file. That has a head with the style, the data, and a player that shows a step.
//!
//! - `notes`: what an event changed in what a region shows.
//! - `viewer`, `following`, `acting`, `cells`, `owners`, `tracked`, `differences`: the view of a
//!   region, and its notes.
//! - `recording`, `kinds`, `definitions`: the steps of a line, and what a line defines.
//! - `pieces`, `texts`, `lines`: how notes, steps and lines are written.
//! - `pages`, `written`: a script that is run, and its page that is written.
//! - `head`, `body`, `player`: what is the same in each page (`tools/page/join`).

mod acting;
mod body;
mod cells;
mod definitions;
mod differences;
mod following;
mod head;
mod kinds;
mod lines;
pub mod notes;
mod owners;
mod pages;
mod pieces;
mod player;
mod recording;
mod texts;
mod tracked;
pub mod viewer;
mod written;

pub use lines::{Sheet, Unwritten};
pub use pages::page_script;
pub use recording::{PageStep, Pager};
pub use written::{NoPage, run_page};
