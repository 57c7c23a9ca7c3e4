//! Regular expressions of when clauses, compiled by `regex`.
#![tactic(auto)]

pub mod flags;
pub mod pattern;

pub use flags::Flags;
pub use pattern::Pattern;
