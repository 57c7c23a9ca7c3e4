//! What is wrong in the files of a load, and where: why a load refuses them, and its warnings.
//!
//! [`refused`] and [`warned`] give problems as values, with their places and sentences. Lints, which the
//! crates above look for, are problems too: [`open_all`] opens the files for the places of their entries.
#![tactic(auto)]

pub mod cause;
pub mod choices;
mod clause_mistakes;
pub mod commands;
pub mod element;
mod entries;
pub mod faulty;
mod grouped;
mod handler_culprit;
mod handler_sentence;
pub mod key_mistakes;
mod layout_culprit;
mod manifest_culprit;
mod meaning;
mod mismatch_place;
pub mod near;
pub mod opened;
pub mod problem;
pub mod refusal;
pub mod severity;
pub mod warnings;

pub use cause::{Cause, LINT_NAMES, Lint};
pub use choices::Choices;
pub use commands::{KnownCommands, LIST_COMMAND};
pub use element::{removal_problem, rule_problem, spot_of};
pub use faulty::clause_member;
pub use key_mistakes::key_sentence;
pub use near::is_near;
pub use opened::{Opened, OpenedFiles, open_all};
pub use problem::{Problem, linted, push_other};
pub use refusal::refused;
pub use severity::{SEVERITY_NAMES, Severity};
pub use warnings::warned;
