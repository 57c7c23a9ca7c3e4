//! The files of an engine, read from bytes: the layout of its scopes, files of rules, the manifests of
//! extensions and their files of handlers, and the values of context keys. A file is JSON with comments.
#![tactic(auto)]

pub mod context_text;
pub mod extension_file;
pub mod extensions;
mod failures;
pub mod fault;
pub mod handler_file;
pub mod identifiers;
pub mod inputs;
pub mod layout_file;
mod plain_value;
pub mod rule_file;
pub mod source_files;
mod value;

pub use context_text::read_context_text;
pub use extension_file::{Extension, read_extension};
pub use extensions::{EXTENSION_LIMIT, ReadExtensions, read_extensions};
pub use fault::{LoadFault, LoadFile, failure_of, of_file};
pub use handler_file::read_handlers;
pub use identifiers::{Identified, IdentifierFault, identifier_fault};
pub use inputs::{ExtensionFiles, Inputs};
pub use layout_file::read_scopes;
pub use rule_file::read_rules;
pub use source_files::{ExtensionSource, SourceFile, SourceFiles};
