//! One key rule.
use crate::json::Json;
use kb_base::{HashedText, Origin};
use kb_keys::Chord;
use kb_when::Clause;

/// Keystrokes, and the command that they start where the clause holds. The members are those of VS
/// Code's documentation of keyboard shortcuts.
#[derive(Debug, Drop)]
pub struct Rule {
    /// The keystrokes, one after another.
    pub chord: Chord,
    /// The identifier of the command, which need not exist. The empty one starts nothing: such a
    /// rule takes its keystrokes from the rules above it (VS Code's documentation). It has its hash, by which
    /// a search finds the command's enablement.
    pub command: HashedText,
    /// The condition on the context. A rule without one counts in any context (VS Code's
    /// documentation).
    pub when: Option<Clause>,
    /// The member `args`, if the rule has it: each number in it is whole within i64.
    pub args: Option<Json>,
    /// The file of the rule.
    pub origin: Origin,
    /// The place of the rule in its list: the number of elements above it, including dropped ones and
    /// removals.
    pub place: usize,
}
