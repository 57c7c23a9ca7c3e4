//! What is said of a key press, of the rules in force, of the context and of the palette: as lines for
//! people, and as JSON, one object a line.
#![tactic(auto)]

pub mod cause_said;
mod clauses;
pub mod context_said;
pub mod disabled_said;
pub mod dropped_said;
pub mod list_said;
pub mod palette_said;
pub mod press_said;
pub mod removed_said;
pub mod rule_places;
pub mod rule_said;
pub mod trace_said;
pub mod unbound_said;
pub mod value_said;

pub use context_said::say_context;
pub use list_said::{Listed, say_rules};
pub use palette_said::{say_command, say_commands};
pub use press_said::{Press, Situation, explained_press, say_press};
pub use rule_places::RulePlaces;
pub use rule_said::Named;
pub use trace_said::say_trace;
pub use unbound_said::say_unbound;
