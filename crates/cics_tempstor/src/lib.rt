//! Temporary storage: queues of numbered items, each with a NEXT cursor, and before images that
//! undo each change without taking memory.
#![tactic(auto)]

mod answers;
mod images;
mod item_lists;
pub mod laws;
mod queue_rows;
mod stores;
mod undoing;

pub use answers::{TsRead, TsWritten};
pub use images::TsImage;
pub use stores::TempStore;
