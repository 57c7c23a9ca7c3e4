//! The execution of a command on the session's core, with the trace lines that it writes. The command
//! is a native command, a handler, or `runCommands` with its list.
#![tactic(auto)]

pub mod held_core;
mod run_commands;
pub mod start;

pub use held_core::{Ended, HeldCore};
pub use start::{Finish, start_command};
