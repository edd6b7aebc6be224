//! Before images of a queue's changes.

/// The before image of one change of a LOGICAL queue: enough to undo it without taking memory.
///
/// A change of a LOGICAL queue makes one if its condition is NORMAL, a change of another queue
/// none. The same queue takes it once: `undo` and then `settle`, or `settle` alone.
#[derive(Drop)]
pub enum TdImage {
    /// Records were marked as read. This is how many were so marked before.
    Taken(usize),
    /// A record was added at the end, and marked as written.
    Written,
}
