//! Browsing a file: reading it forward and back from a position, record by record.
#![tactic(auto)]

mod browses;

pub use browses::{Browse, Browsed, Move};
