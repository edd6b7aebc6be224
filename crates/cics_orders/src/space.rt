//! The orders in which lanes may give their lines, and what these lead to.
//!
//! A *lane* has lines that it gives one after the other, such as the lines of a task. An *order*
//! says for each line that is given which lane gives it. A *run* is an order with the ending that
//! it leads to. An ending is told in *parts*, each a text. A *stamp* is bytes that tell how a state
//! goes on.
//!
//! Read `states`, `endings` and `groups`.

mod endings;
mod groups;
mod states;

pub use endings::{Ending, Met, Parts, Tally, endings_of};
pub use groups::{Join, add};
pub use states::{Led, Reached, Scope, Stamp, go_as_written, go_to, look, with_lane};
