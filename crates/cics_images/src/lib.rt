//! Before images: what a change leaves so that it can be undone.
//!
//! A resource whose changes can be undone is `Undoable`; each change of it makes an image. A unit
//! of work has its images in `Images`. A backout undoes them, newest first, and a commit drops
//! them.
#![tactic(auto)]

mod images;
mod named;
mod stores;
mod undoable;

pub use images::Images;
pub use named::NamedImage;
pub use stores::{StoreImage, Stores};
pub use undoable::{Changed, Undoable};
