//! The result of a key press.
use crate::found::Found;
use kb_rules::Rule;

/// What a key press does. Contracts see it as the `Step` of `specs/`, which has the rule itself
/// instead of a reference.
#[derive(Clone, Copy, Debug)]
pub enum Pressed<'r> {
    /// The command of this rule is to be started. A rule with the empty command is returned like any
    /// other; the caller has to start nothing for it.
    Start(&'r Rule),
    /// The press starts or continues a chord.
    More,
    /// No rule matches, and the open chord was ended.
    Left,
    /// No rule matches, and no chord was open.
    Unbound,
}

/// The result of a key press: what it does, and what its search found.
#[derive(Clone, Copy, Debug)]
pub struct Press<'r> {
    /// What the press does.
    pub does: Pressed<'r>,
    /// What the search found, without a reference.
    pub found: Found,
}
