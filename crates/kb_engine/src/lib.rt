//! The engine for hosts in other languages. A host hands in the bytes of its files, has a session loaded of
//! them, and tells it events or lines of a script. After each call it reads the trace lines of this call, and
//! what a key press or a choice took. It needs no closure of its own.
#![tactic(auto)]

pub mod engine;
pub mod events;
pub mod files;
mod lookups;
pub mod notice;
pub mod outcome;
pub mod part;
pub mod plain;
pub mod reading;
pub mod running;
mod steps;
pub mod taken;
mod telling;

pub use engine::Engine;
pub use files::HostFiles;
pub use outcome::Outcome;
pub use part::Part;
pub use plain::{Cost, PlainCommand, commands};
pub use reading::read_over;
pub use running::Running;
pub use taken::{Taken, TakenKind};
