//! The manifests of extensions, read from JSON. Texts are moved out of the values, which are taken.
#![tactic(auto)]

pub mod command;
pub mod command_table;
mod condition;
mod entries;
mod judged;
pub mod manifest;
pub mod notes;
pub mod palette_item;
mod points;

pub use command::Command;
pub use command_table::{CommandTable, Named};
pub use manifest::{Manifest, Package};
pub use notes::Notes;
pub use palette_item::PaletteItem;
