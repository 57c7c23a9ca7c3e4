//! What a check of files says: each problem as text with the line of the file, as JSON, or for a service.
#![tactic(auto)]

mod changing;
pub mod checking;
mod diff;
pub mod format;
mod github;
mod grouped;
mod guess;
mod json_lines;
mod last_line;
mod listing;
mod marks;
mod page;
mod sarif;
mod shown;
mod text_lines;
mod whose;

pub use checking::check;
pub use format::{FORMAT_NAMES, Format};
