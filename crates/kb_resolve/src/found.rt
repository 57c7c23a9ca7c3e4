//! What a search found, without a reference.

/// What a search found. It borrows no rule, so a caller can keep it while other things change, and take the
/// rule later: by [`Resolver::at`](crate::Resolver::at), as long as the rules are the same.
#[derive(Clone, Copy, Debug, PartialEq, Eq)]
pub enum Found {
    /// The rule at this position of the rules in force, counted from 0 at the top.
    At(usize),
    /// A rule with more keystrokes, so further presses decide.
    More,
    /// No rule.
    Nothing,
}
