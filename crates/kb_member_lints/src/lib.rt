//! Lints on the members of JSON files: names next to known ones, and double quotes in clauses.
#![tactic(auto)]

mod double_quotes;
mod file_members;
pub mod member_lints;
mod near_members;

pub use member_lints::{add_double_quotes, add_misspelled};
