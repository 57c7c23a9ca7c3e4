//! Layouts and values of context keys, read from JSON. Texts are moved out of the values, which are taken.
#![tactic(auto)]

pub mod context;
pub mod layout;
pub mod shape;

pub use context::read_context;
pub use layout::read_layout;
pub use shape::layout_mismatch;
