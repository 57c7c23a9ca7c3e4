//! Refused memory.
use std::alloc::AllocError;

/// Memory was refused (5). It is std's error under the engine's name.
pub type NoMemory = AllocError;
