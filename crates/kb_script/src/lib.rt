//! Scripts for a session: lines with events, reloads, registrations and disposals, read from a reader.
//! The session's trace is written to a writer.
#![tactic(auto)]

pub mod fault;
pub mod laws;
pub mod script;
pub mod script_run;
pub mod shelf;

pub use fault::ScriptFault;
pub use script::{ScriptLine, read_line};
pub use script_run::{SCRIPT_LIMIT, run_script, stream_script};
pub use shelf::obey;
