//! Keyboards: key texts with scan codes, respelled for the layout of a keyboard, and the keystroke that an
//! event of a browser or a toolkit is.
//!
//! Both name a key by the same rules, so that a rule for the key at a place finds the press of that key.
#![tactic(auto)]

pub mod event;
pub mod layout;
pub mod layout_fault;
mod naming;
pub mod respelling;
mod tables;

pub use event::{Held, KeyEvent, Pressed, keystroke_of};
pub use kb_exchange::{Exchanged, Move, Moves};
pub use kb_places::Span;
pub use layout::{Layout, LayoutKey};
pub use layout_fault::LayoutFault;
pub use respelling::{respell, respell_file};
