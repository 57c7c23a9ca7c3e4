//! `keycheck`: what people read of their files, of a key press, of the rules in force and of the context; and
//! the assembly language of handlers.
#![tactic(auto)]

pub mod checking;
pub mod commands_file;
pub mod dispatch;
pub mod ending;
pub mod explaining;
pub mod files;
pub mod logging;
pub mod mistakes;
pub mod pressing;
mod reason;
pub mod request;
pub mod running;
pub mod translating;
pub mod words;

pub use reason::Reasons;
pub use running::{keycheck, keycheck_over};
