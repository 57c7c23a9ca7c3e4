//! How reports are written: the form of their lines, as text or as JSON, and why a report stopped.
#![tactic(auto)]

pub mod members;
pub mod output;

pub use members::{add_member, add_number, add_text};
pub use output::{Form, Stop, say, say_object, say_text};
