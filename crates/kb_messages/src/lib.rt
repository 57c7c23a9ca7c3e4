//! Messages of the language server protocol as bytes: a header that says how many bytes follow, a blank line,
//! and the body. [`Incoming`] takes a stream in whatever pieces it arrives and gives the messages in it;
//! [`write_frame`] makes the bytes of a message.
#![tactic(auto)]

mod fault;
mod frame;
mod front;
mod header;
mod incoming;
pub mod laws;

pub use fault::FrameFault;
pub use frame::write_frame;
pub use incoming::{Incoming, Received};
