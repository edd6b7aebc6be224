//! Writes records, names, numbers and commands as a script and a journal have them.
//!
//! - `texts`: how records, names and numbers are printed, in lines, journals and listings.
//! - `parts`: texts of several parts, printed by one call.
//! - `writing`, `spelling`: `write_out` writes a command as a line. A law says how else it can be
//!   written.
//!
//! Cost of a call: O(bytes that it writes).

mod parts;
mod spelling;
mod texts;
mod writing;

pub use parts::{Part, push_parts};
pub use spelling::commands_in_any_order;
pub use texts::{push_bare, push_hexadecimal, push_name, push_number, push_str, push_text};
pub use writing::write_out;
