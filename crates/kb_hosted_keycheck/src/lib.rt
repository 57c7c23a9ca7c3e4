//! `keycheck` as a call: over files in memory, with what it writes as texts.
#![tactic(auto)]

pub mod desk;
mod memory_files;
mod streams;

pub use desk::Desk;
