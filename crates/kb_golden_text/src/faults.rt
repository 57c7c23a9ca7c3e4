//! How a golden file writes a fault.
use kb_base::{FaultKind, NoMemory};
use std::alloc::Global;

/// The number of a fault and its name.
pub fn fault_text(alloc: Global, fault: FaultKind) -> Result<String, NoMemory> {
    format!(in alloc; "{fault}")
}
