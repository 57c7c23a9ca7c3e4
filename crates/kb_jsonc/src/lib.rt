//! JSON with comments, and parts of JSON values: JSON with line comments, block comments and trailing commas,
//! as in VS Code's `keybindings.json`.
//!
//! [`plain`] replaces comments and trailing commas by blanks and keeps every other byte at its index.
//! [`read`] passes the result to `serde_json`. The definitions in `specs/` cut a text into pieces. They do
//! not depend on the one-pass algorithm in `src/scan.rt`, which is proved to give the same result.
//!
//! Members, elements and texts are moved out of the values that contain them; [`FileFault`] has the faults of
//! a value with the wrong shape, and [`Mismatch`] the place where a value isn't what was expected.
#![tactic(auto)]

mod bytes;
mod fault;
pub mod file_fault;
pub mod member;
pub mod mismatch;
pub mod parts;
mod pieces;
mod reader;
mod scan;
mod text;
pub mod texts;

pub use fault::JsoncFault;
pub use file_fault::FileFault;
pub use member::{optional_text, required_text, text_of};
pub use mismatch::{Expected, Mismatch, Place};
pub use parts::{elements_in, lacks, members_in, take_member, text_in, word_in};
pub use pieces::string_len;
pub use reader::read;
pub use text::plain;
pub use texts::{read_texts, texts_at};
