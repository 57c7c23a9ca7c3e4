//! The options of a run.

use kb_keys::Platform;

/// What a command line asks for. Paths are as the command line has them. The options are our decision.
#[derive(Debug, Drop)]
pub struct Options<'a> {
    /// The file of the layout of scopes, `--layout F`. Without it there is one scope, `window`.
    pub layout: Option<&'a str>,
    /// The file of the default rules, `--defaults F`. Without it there are none.
    pub defaults: Option<&'a str>,
    /// The file of the user's rules, `--user F`. Without it there are none.
    pub user: Option<&'a str>,
    /// The platform whose keys the rules of extensions use, `--platform P`. Without it, Linux.
    pub platform: Platform,
    /// The file of the script, `--script F`. Without it the script is standard input.
    pub script: Option<&'a str>,
    /// The directories of extensions, in the order of the command line.
    pub dirs: Vec<&'a str>,
}
