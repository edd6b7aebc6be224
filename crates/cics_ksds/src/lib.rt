//! Key-sequenced files: maps from keys to records in key order, with before images that undo each
//! change without taking memory.
#![tactic(auto)]

mod areas;
mod comparing;
mod dataset;
mod definition;
mod files;
mod images;
mod intervals;
mod numbered;
mod ordered;
mod prefixes;
mod ranges;
mod rooms;
mod slots;
mod undoing;

pub use comparing::word_of;
pub use definition::FileDef;
pub use files::File;
pub use images::FileImage;
pub use ordered::Ordered;
pub use prefixes::Removed;
