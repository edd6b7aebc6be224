//! The parts that an ending of a script's orders is told in.

mod blocks;
mod tasks;
mod telling;

pub use telling::parts_of;
