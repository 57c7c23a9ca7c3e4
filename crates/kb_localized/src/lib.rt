//! Titles of commands in the user's language: a manifest (`package.json`) in which each `%key%` of a title, a
//! category or a short title is replaced by its message of the bundle of a language and of the one for all
//! languages, `package.nls.json`.
//!
//! It follows VS Code's documentation of extensions and its `extensionNls.ts`: a key is looked up in the
//! first bundle that has it. Its value is a text, or an object with a text `message`; where it is anything
//! else, or an empty text, the key stays.
#![tactic(auto)]

pub mod bundle;
pub mod bundle_fault;
pub mod manifest;
mod messages;

pub use bundle::{Bundle, LIMIT};
pub use bundle_fault::BundleFault;
pub use kb_exchange::{Exchanged, Move, Moves};
pub use kb_places::Span;
pub use manifest::localize;
