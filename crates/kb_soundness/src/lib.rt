//! Soundness of the verifier: verified handlers never trap.
#![tactic(auto)]

pub mod laws;
pub mod starting;

pub use starting::{start, start_coded};
