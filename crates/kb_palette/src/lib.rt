//! The command palette: which commands a query finds, in which order, and the history of choices.
#![tactic(auto)]

pub mod command;
pub mod history;
pub mod laws;
pub mod listing;
mod words;

pub use command::PaletteCommand;
pub use history::History;
pub use listing::{Entry, list};
