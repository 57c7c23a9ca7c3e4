//! The result of a search for a rule.
ghost use Rattle.std.specs.Prelude.{◌≡◌};
ghost use Rattle.kb_resolve.specs.Resolved.{place_of};

use crate::found::Found;
use kb_rules::Rule;

/// A rule in force, with its position among the rules in force, counted from 0 at the top.
#[derive(Clone, Copy, Debug)]
pub struct Placed<'r> {
    /// The position.
    pub position: usize,
    /// The rule.
    pub rule: &'r Rule,
}

/// The result of a search for pressed keystrokes. The chosen rule is the lowest one whose keystrokes
/// begin with all of them, and whose clause and command's enablement hold. Contracts see it as the
/// `Resolution` of `specs/`, which has the rule itself instead of a reference.
#[derive(Clone, Copy, Debug)]
pub enum Resolved<'r> {
    /// The chosen rule, which has exactly the pressed keystrokes.
    Found(Placed<'r>),
    /// The chosen rule has more keystrokes, so further presses decide.
    More,
    /// No rule matches.
    Nothing,
}

impl<'r> Resolved<'r> {
    /// The same without a reference.
    pub fn place(self) -> Found
        ensures { result ≡ place_of self.entry }
    {
        match self {
            Resolved::Found(placed) => Found::At(placed.position),
            Resolved::More => Found::More,
            Resolved::Nothing => Found::Nothing,
        }
    }
}
