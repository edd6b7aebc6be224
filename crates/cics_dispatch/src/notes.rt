//! Notes of waiting commands: which command must be looked at, and whose task has waited too long.
//!
//! - `notes`: the notes. `specs/Notes` says what callers see of them, `specs/Filed` how they are
//!   stored.
//! - `groups`: the notes by wait groups, and the lists of what each unit blocks.
//! - `firsts`: a row of keys that finds the first key below a limit (`specs/Firsts`). By it notes
//!   find the first command that must be looked at, and the first deadline that is past.

mod firsts;
mod groups;
mod notes;

pub use groups::WaitNote;
pub use notes::Notes;
