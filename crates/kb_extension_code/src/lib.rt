//! The code of extensions in a session: the live commands of a load (the host's closures, and the handlers of
//! extensions, verified or raw), when extensions may be enabled, disabled or updated, the code of an update,
//! and why verified handlers never trap, whatever is done.
#![tactic(auto)]

pub mod callable;
pub mod checked;
pub mod dependencies;
pub mod laws;
mod natives;
pub mod raw;
pub mod switching;
pub mod updating;
pub mod verifying;

pub use callable::callable_of;
pub use checked::checked_commands;
pub use dependencies::{Named, extension_named};
pub use raw::raw_commands;
pub use switching::{Obstacle, disable_obstacle, enable_obstacle};
pub use updating::updated_code;
pub use verifying::{Rejection, verify_all};
