//! Commands that seem to handle their conditions.

use crate::advice::context::Context;
use cics_names::NoMemory;
use std::alloc::Global;

/// Returns whether a command has RESP2, but neither RESP nor NOHANDLE. RESP2 alone handles nothing.
pub fn has_resp2_alone(alloc: Global, line: &[u8]) -> Result<bool, NoMemory> {
    let whole = Context::new(alloc, line, line.len().saturating_add(1))?;
    Ok(whole.is_command() && whole.has_one("RESP2") && !whole.has_one("RESP NOHANDLE"))
}
