//! The virtual machine for handlers: the meaning of a run, and a loop over frames that implements it.
#![tactic(auto)]

mod action;
mod arena;
mod blocks;
mod call_line;
mod callers;
mod given;
pub mod laws;
pub mod machine;
mod operands;
pub mod starting;
pub mod trap;
mod values;

pub use machine::{End, Outcome};
pub use starting::{start, start_coded};
pub use trap::Trap;
