//! What each line of a script leads to in a region, and who sees it.
//!
//! - `stage`: the definitions, then the region, and what a line makes of them.
//! - `draining`: a request, and what the region does by itself after it.
//! - `observer`: who sees each event.
//! - `printing`, `journal`: the observer that prints, and the lines of the journal.
//! - `amiss`: what a strict run finds amiss.
//! - `notices`: which events are told to a person at the end of a run.

pub mod amiss;
mod draining;
pub mod journal;
mod notices;
mod observer;
mod printing;
mod stage;

pub use cics_script::LineFault;
pub use notices::{Notice, Raised, Scope};
pub use observer::Observer;
pub use printing::Journal;
pub use stage::{Fault, Stage};
