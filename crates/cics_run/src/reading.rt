//! A script that is read whole, and its lines.

mod checking;
mod lines;
mod requests;
mod scripts;

pub use checking::{Nobody, check_script};
pub use lines::{lines_of, next_line};
pub use scripts::read_script;
