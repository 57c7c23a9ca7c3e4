//! Reads the files that options name and those of directories of extensions, up to a limit on their size.
//! Programs stand on this crate; nothing here knows sessions or commands.
#![tactic(auto)]

pub mod cannot_read;
pub mod directory;
pub mod files;
pub mod load_files;
pub mod options;

pub use cannot_read::{CannotRead, DirFile};
pub use directory::{handlers_in, manifest_in, path_in};
pub use files::{FILE_LIMIT, FileSource, SystemFiles, file_named};
pub use load_files::read_files;
pub use options::Options;
