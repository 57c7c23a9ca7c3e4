//! Versions of handler files.

/// The version of a handler file. It decides which instructions its code may have: `Repeat` and `End` are
/// those of version 2 alone. (Our decision.)
#[derive(Clone, Copy, Debug, PartialEq, Eq)]
pub enum Version {
    /// Code without blocks.
    One,
    /// Code with repeated blocks.
    Two,
}
