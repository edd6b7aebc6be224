//! Regions that have the same future.
//!
//! `specs/Futures` says when two regions are alike, whatever the numbers of their units and their
//! histories are. The laws say that each event is then answered the same in both, and leaves
//! regions that are alike again. Nothing is computed here.

mod laws;

pub use laws::{
    events_keep_the_future, futures_tell_the_same, looks_tell_the_future, stamps_tell_the_future,
};
