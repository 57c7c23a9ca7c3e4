//! Exchanges strings in a text of JSON with comments: where the strings are that are values of members with
//! given names, what they say, the text with other strings in their places, and the way back from an index in
//! the new text to one in the old.
//!
//! Everything but the strings that are exchanged stays byte for byte, comments and white space too.
#![tactic(auto)]

pub mod exchanging;
pub mod members;
pub mod moves;
pub mod renewal;
pub mod strings;

pub use exchanging::{Exchange, Exchanged, exchange_all};
pub use members::values;
pub use moves::{Move, Moves};
pub use renewal::{Renewal, exchange_values};
pub use strings::{says, string_of, text_of};
