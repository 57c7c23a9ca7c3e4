//! Keystrokes and chords: parsing of key texts and their canonical form.
//!
//! Modifiers, key names and the form of a chord text follow VS Code's documentation of keyboard shortcuts.
//! Our own decisions are marked as such where they are made.
#![tactic(auto)]

pub mod chord;
pub mod key_fault;
pub mod key_name;
pub mod keystroke;
mod modifier;
pub mod modifiers;
pub mod platform;

pub use chord::{Chord, LIMIT, write_strokes};
pub use key_fault::KeyFault;
pub use key_name::KeyName;
pub use keystroke::{Keystroke, STROKES};
pub use modifiers::Modifiers;
pub use platform::Platform;
