//! All problems of the files of a load: why it refuses them, and else its warnings and lints, in order.
//!
//! [`find_problems`] loads the files by the engine's own calls.
#![tactic(auto)]

mod context_keys;
mod hidden_lints;
mod known_commands;
mod lints;
mod list_lints;
mod loading;
mod pattern_lints;
pub mod problems;
mod removal_lints;
mod rule_lints;

pub use problems::{Findings, find_problems};
