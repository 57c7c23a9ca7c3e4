//! The core that commands change, the arguments of commands, and the native commands.
#![tactic(auto)]

pub mod arg;
pub mod args;
pub mod buffer;
pub mod core_state;
pub mod native;
pub mod parameter;
mod reading;
pub mod run;
pub mod signature;

pub use arg::{Arg, Kind};
pub use args::Args;
pub use buffer::Buffer;
pub use core_state::Core;
pub use native::{NATIVES, Native};
pub use parameter::{NamedKind, Param};
pub use run::{Ran, at_budget, plain};
pub use signature::Signature;
