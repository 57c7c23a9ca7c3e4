//! Explanations for people who write clauses and rules: why a key press does what it does, why a clause fails
//! and whether two clauses can hold at once, what the focus sees, which rules a removal took or belong to an
//! extension that isn't enabled, and why the palette doesn't list a command.
#![tactic(auto)]

pub mod cause;
pub mod disabled;
pub mod overlap;
pub mod palette;
pub mod press;
pub mod removed;
pub mod seen;
pub mod started;

pub use cause::{Cause, Literal, cause_in, cause_of_clause, first_shown};
pub use disabled::rules_disabled;
pub use overlap::contradict;
pub use palette::{Unlisted, why_unlisted};
pub use press::{Explained, Obstacle, Passed, explain};
pub use removed::{Removed, rules_removed};
pub use seen::{Seen, keys_seen, scope_of, scope_with};
pub use started::{commands_without_keys, starts};
