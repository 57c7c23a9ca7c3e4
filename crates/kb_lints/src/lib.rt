//! Lints on key rules: rules that can never start, and removals that take nothing.
//!
//! They are about the rules in force as the engine's own search sees them. Where a lint says that a rule can
//! never start, its contract says so of every context.
#![tactic(auto)]

mod chords;
pub mod condition;
pub mod hidden;
pub mod idle_removal;
pub mod laws;
mod seen;
mod spelling;

pub use condition::covers;
pub use hidden::{Hidden, Hiding, hidden_rules};
pub use idle_removal::{RuleTargets, Taking};
