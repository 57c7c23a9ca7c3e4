//! What a host shows of the keys before one is pressed: the keystrokes that start a command in the present
//! context, for menus and the palette, and those that go on from the keystrokes of an open chord. Nothing is
//! pressed.
#![tactic(auto)]

pub mod going_on;
pub mod starting;

pub use going_on::continuations;
pub use starting::keys_of;
