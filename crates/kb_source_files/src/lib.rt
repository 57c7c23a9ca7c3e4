//! The files of a load with their paths, so that messages can name the file of an entry.
#![tactic(auto)]

pub mod source_files;

pub use source_files::{ExtensionSource, SourceFile, SourceFiles};
