//! Events and answers of a session, and the lines of its trace.
#![tactic(auto)]

pub mod event;
pub mod lines;

pub use event::{Answer, Event};
