//! The small types that every crate stands on: a text that contracts see as its bytes, a list that they see
//! as its items, a map from texts, the one error of a refused allocation, why a call gave nothing, the
//! table of all faults, and refusals.
#![tactic(auto)]

pub mod blank;
pub mod extension_id;
pub mod failure;
pub mod fault;
pub mod fingerprint;
pub mod hashed_map;
pub mod hashed_text;
pub mod memory;
pub mod note;
pub mod refusal;
pub mod seq;
pub mod text;
pub mod text_map;

pub use blank::{is_blank, is_blank_text};
pub use extension_id::{ExtensionId, same_id};
pub use failure::Failure;
pub use fault::FaultKind;
pub use fingerprint::{Fingerprint, TextStart};
pub use hashed_map::HashedMap;
pub use hashed_text::{HASHES, HashedText};
pub use memory::NoMemory;
pub use note::{EntryPattern, Origin, Part, UnreadPattern, Warning, WarningLine};
pub use refusal::Refusal;
pub use seq::Seq;
pub use text::Text;
pub use text_map::TextMap;
