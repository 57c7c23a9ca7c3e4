//! Context keys in nested scopes: layouts, values, and the values that are visible from the focused scope.
#![tactic(auto)]

mod at_hand;
mod draft;
pub mod fault;
pub mod layout;
pub mod scope_tree;
pub mod scopes;
pub mod sight;
pub mod value;

pub use fault::{ScopeFault, UnknownScope};
pub use layout::{Layout, LayoutScope, SCOPE_LIMIT};
pub use scope_tree::{KEY_LIMIT, Scope};
pub use scopes::Scopes;
pub use sight::{Seen, SeenKey, Sight};
pub use value::ContextValue;
