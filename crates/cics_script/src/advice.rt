//! What a faulty line of a script needs, told to a person: a message, the line, and a caret.
//!
//! `push_advice` adds three lines behind what was printed. `specs/Advice` states them to the byte,
//! but for the words of the message. `push_place` says which line they are about (`origin`). The
//! fault is that of `crate::find_fault`, and so is its column, but within a literal (`placing`).
//! Tables say what to mend, by what stands in front of the column (`tables`, `messages`, `unknown`,
//! `values`). `meant` finds the word that is meant, `bytes` says what bytes are. These words are
//! tested, and no clause states them.

mod bytes;
mod context;
mod filling;
mod meant;
mod messages;
mod origin;
mod placing;
mod showing;
mod tables;
mod unhandled;
mod unknown;
mod values;

pub use messages::{Cause, push_advice};
pub use origin::{Origin, push_place};
pub use unhandled::has_resp2_alone;
