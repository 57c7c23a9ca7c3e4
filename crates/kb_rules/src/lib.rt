//! Key rules: the elements of a rule file that are kept, a warning for each that isn't, and the
//! list of the rules in force.
//!
//! The members of a rule are those of VS Code's documentation of keyboard shortcuts. What it leaves
//! open is our decision, and the comment at each decision names it as ours.
#![tactic(auto)]

mod entry;
pub mod json;
pub mod removal;
mod removal_index;
pub mod rule;
pub mod rule_list;
pub mod rule_set;
mod whole;

pub use json::Json;
pub use kb_base::Origin;
pub use removal::Removal;
pub use rule::Rule;
pub use rule_list::{RuleList, is_dropped, read_list};
pub use rule_set::RuleSet;
