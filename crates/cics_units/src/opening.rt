//! What a region opens with: files and queues by name, with what is loaded.
//!
//! - `named`, `files`, `queues`: files and transient data queues by name, undone by images.
//! - `opening`, `prefixes`: the definitions and loads, with their faults.

mod files;
mod named;
mod opening;
mod prefixes;
mod queues;

pub use files::{Files, FilesImage};
pub use named::Named;
pub use opening::{DefineFault, Opening};
pub use queues::{QueueImage, Queues};
