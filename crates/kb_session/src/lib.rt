//! A session of the engine: each input changes its state and adds lines to its trace.
#![tactic(auto)]

pub mod fault;
pub mod handled;
pub mod laws;
mod press;
pub mod session;

pub use fault::SessionFault;
pub use handled::{EventEnd, Handled};
pub use session::Session;
