//! The commands of the palette: what the enabled extensions contribute.
#![tactic(auto)]

pub mod contributed;
pub mod items;
pub mod palette;

pub use palette::palette_commands;
