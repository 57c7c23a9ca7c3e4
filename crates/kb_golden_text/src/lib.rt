//! Golden files: their blocks and cases, their escapes, and the comparison of expected with actual output.
//! The libraries above run the cases, each those of some kinds.
#![tactic(auto)]

pub mod escapes;
pub mod faults;
pub mod files;
pub mod runner;

pub use escapes::{escape, unescape};
pub use faults::fault_text;
pub use files::compare_files;
pub use runner::{BlockRunner, CaseRunner, run_cases};
