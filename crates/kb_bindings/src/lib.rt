//! What binds keys: the default rules, the extensions and the user's rules, read from their files, the search
//! among them, and the commands of the palette. A load also reads the scopes and the handlers of extensions.
#![tactic(auto)]

pub mod bindings;
pub mod load;
pub mod unread;
pub mod warning;

pub use bindings::{Bindings, Renewed};
pub use load::{Loaded, load_files};
pub use unread::unread_rules;
