//! Documents that an editor has open: their text, the positions in it as the language server protocol counts
//! them, and the edits that the editor sends.
#![tactic(auto)]

mod document;
mod encoding;
pub mod laws;
mod lines;
mod position;

pub use document::Document;
pub use encoding::Encoding;
pub use position::{Position, Range};
