//! The files of a session.
use kb_keys::Platform;

/// The bytes of an extension's files, lent.
#[derive(Clone, Copy)]
pub struct ExtensionFiles<'a> {
    /// Its `package.json`.
    pub package: &'a [u8],
    /// Its `handlers.json`, if there is such a file.
    pub handlers: Option<&'a [u8]>,
}

/// The bytes of the files that a session is made of, lent. An absent file of rules is the empty text.
#[derive(Clone, Copy)]
pub struct Inputs<'a> {
    /// The layout of the scopes. Without it there is one scope, `window`, without keys (our
    /// decision).
    pub layout: Option<&'a [u8]>,
    /// The default rules, in the form of VS Code's `keybindings.json`.
    pub defaults: &'a [u8],
    /// The user's rules, as VS Code's `keybindings.json`.
    pub user: &'a [u8],
    /// The system that the keys of extensions are chosen for.
    pub platform: Platform,
    /// The files of each extension, in load order.
    pub extensions: &'a [ExtensionFiles<'a>],
}
