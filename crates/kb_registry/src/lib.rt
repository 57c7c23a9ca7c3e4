//! The registry of live commands: the contract of a host's closures, the registered closures, and the
//! live handlers.
#![tactic(auto)]

pub mod command;
pub mod fault;
mod missing;
pub mod registry;

pub use command::{HostCommand, NativeCommand, Permit, Registered, Run};
pub use fault::RegistryFault;
pub use registry::{Registry, Ticket};
