//! Reading handler files (`handlers.json`): JSON values become handlers.
#![tactic(auto)]

mod code;
mod entry;
pub mod fault;
pub mod handler_file;
mod limits;
mod names;
mod parameters;

pub use fault::{HandlersExpected, HandlersFault};
pub use handler_file::HandlerFile;
