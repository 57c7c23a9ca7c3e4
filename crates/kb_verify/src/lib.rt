//! The verifier of handler code. It accepts only handlers that can't trap, and reports why it rejects a
//! handler.
#![tactic(auto)]

mod backward;
pub mod callable;
mod callees;
mod check;
pub mod costing;
pub mod fault;
mod forward;
pub mod laws;
pub mod provider;
mod route;
mod shape;
pub mod verified;
pub mod verified_list;

pub use backward::instr_cost;
pub use callable::{Callable, SharedSignature};
pub use callees::Callee;
pub use costing::dearest_cost;
pub use fault::{Defect, Step, VerifyFault};
pub use provider::{Provider, callable_of, is_needed};
pub use verified::{Verified, verify};
pub use verified_list::VerifiedList;
