//! A program from its command line to its exit status, with closures of its own for the native commands.
#![tactic(auto)]

pub mod host;
pub mod line;

pub use host::run_host;
pub use line::run_program;
