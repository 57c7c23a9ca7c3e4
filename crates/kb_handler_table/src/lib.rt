//! The table of live handlers: the code of extensions, by extension and by name.
#![tactic(auto)]

pub mod code_table;
pub mod codes;
pub mod fault;
pub mod group;
mod links;
mod names;

pub use code_table::CodeTable;
pub use codes::Codes;
pub use fault::CodesFault;
pub use group::Group;
