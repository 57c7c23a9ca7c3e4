//! The meaning of a key press: the search for the rule that matches the pressed keystrokes at the
//! focus, and the state of an open chord.
//!
//! Both follow VS Code's documentation of keyboard shortcuts. Where it leaves a choice, the item says
//! that it is our decision.
#![tactic(auto)]

pub mod chord_state;
pub mod enablements;
pub mod found;
mod index;
pub mod pressed;
pub mod resolved;
pub mod resolver;

pub use chord_state::ChordState;
pub use enablements::{Contribution, Enablements};
pub use found::Found;
pub use pressed::{Press, Pressed};
pub use resolved::{Placed, Resolved};
pub use resolver::Resolver;
