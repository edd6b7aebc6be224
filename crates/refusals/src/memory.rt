//! What becomes of requests for memory, where the library of `tools/refuse_memory` is preloaded.
//!
//! The program tells the library by requests of sizes that nothing else asks for. Each is granted
//! but the last, which asks whether a request was refused, and is refused if one was. Without the
//! library all are granted, and nothing was refused.

use std::alloc::{AllocError, Global};

/// What becomes of the requests that follow.
#[derive(Clone, Copy)]
pub(crate) enum Requests {
    /// They are granted.
    Granted,
    /// A single one ends the program, as a failure.
    Forbidden,
    /// The next event begins: none of its requests has been refused yet.
    First,
    /// One further of them than the last time is granted, and the one behind it is refused.
    Next,
}

// The size of the request that asks whether one was refused.
const ASK: usize = 70_004;

// Asks for so many bytes, and gives them back. Returns whether they were granted.
fn is_granted(alloc: Global, size: usize) -> bool {
    let bytes: Result<Vec<u8>, AllocError> = Vec::with_capacity(alloc, size);
    bytes.is_ok()
}

/// Tells the library what becomes of the requests that follow. The library learns it even if it
/// can't grant the request that tells it.
pub(crate) fn switch(alloc: Global, requests: Requests) {
    let size = match requests {
        Requests::Granted => 70_002,
        Requests::Forbidden => 70_003,
        Requests::First => 70_005,
        Requests::Next => 70_006,
    };
    let _is_granted = is_granted(alloc, size);
}

/// Returns whether a request was refused since this was asked last.
pub(crate) fn was_refused(alloc: Global) -> bool {
    !is_granted(alloc, ASK)
}

/// Returns whether requests are refused at all, as they are if the library is loaded.
pub(crate) fn are_refused(alloc: Global) -> bool {
    switch(alloc, Requests::First);
    switch(alloc, Requests::Next);
    let granted = is_granted(alloc, 1);
    switch(alloc, Requests::Granted);
    was_refused(alloc) && !granted
}
