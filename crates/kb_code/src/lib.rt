//! Handler code: its instructions and their bytes, the commands that it calls, and the interface through
//! which the virtual machine finds live commands.
#![tactic(auto)]

mod blocks;
mod callees;
pub mod code;
pub mod coding;
pub mod commands;
pub mod exits;
pub mod face;
pub mod fault;
pub mod handler;
pub mod instr;
pub mod laws;
mod nest;
pub mod same;
pub mod target;
pub mod version;

pub use code::Code;
pub use coding::{decode, encode};
pub use commands::{Commands, Found, Linked};
pub use exits::Exits;
pub use face::same_face;
pub use fault::CodeFault;
pub use handler::Handler;
pub use instr::Instr;
pub use same::same_signature;
pub use target::{Spot, Target};
pub use version::Version;
