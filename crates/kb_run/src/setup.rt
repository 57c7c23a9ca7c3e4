//! What a host chooses for a run: its closures, and whether handlers are verified.

/// Whether a load verifies the handlers of extensions.
#[derive(Clone, Copy, Debug, PartialEq, Eq)]
pub enum Verification {
    /// Each handler is verified, so that no handler traps.
    Verified,
    /// No handler is verified. A handler that traps stops the session.
    Raw,
}

/// The closures of a host: those that a load registers, and the shelf, from which a script takes more.
#[derive(Drop)]
pub struct HostClosures<H> {
    pub natives: Vec<H>,
    pub shelf: Vec<H>,
}

/// What a host chooses for a run.
#[derive(Drop)]
pub struct Setup<H> {
    pub verification: Verification,
    pub closures: HostClosures<H>,
    /// Whether lines `rule KEY COMMAND [TEXT]` of the script add rules, as in a program without any argument.
    pub takes_rules: bool,
}
