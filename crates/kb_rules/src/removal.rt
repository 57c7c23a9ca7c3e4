//! Removals of rules.
ghost use Rattle.std.specs.Prelude.{◌≡◌, ◌↔◌, IsTrue};
ghost use Rattle.kb_rules.specs.Removal.{fits_keys, fits_clause, takes, Takes};

use crate::rule::Rule;
use kb_base::{Origin, Text};
use kb_keys::Chord;
use kb_when::Clause;

/// An element whose command begins with `-`, which removes rules (VS Code's documentation of keyboard
/// shortcuts). `RuleSet::assemble` defines which rules it can remove.
#[derive(Drop)]
pub struct Removal {
    /// The command whose rules it takes: the text after the `-`.
    pub command: Text,
    /// The keystrokes of the rules that it takes. Without them it takes rules of any keystrokes (our
    /// decision).
    pub chord: Option<Chord>,
    /// The clause of the rules that it takes. Without one it takes rules with any clause, or none (our
    /// decision).
    pub when: Option<Clause>,
    /// The file of the removal.
    pub origin: Origin,
    /// The place of the removal in its list: the number of elements above it, including dropped ones and
    /// rules.
    pub place: usize,
}

impl Removal {
    /// Whether this is one of the rules that it takes: of its command, with its keystrokes if it has some,
    /// and with its clause if it has one. Clauses are compared as trees, so that neither blanks nor
    /// parentheses round the whole count (our decision).
    pub fn takes(&self, rule: &Rule) -> bool
        ensures value { result ≡ takes self.now rule.now }

        // What `value` computes.
        ensures meaning { IsTrue result ↔ Takes self.now rule.now }
    {
        self.command.as_str() == rule.command.as_str()
            && fits_keys(&self.chord, &rule.chord)
            && fits_clause(&self.when, &rule.when)
    }
}

/// Whether a removal with these keystrokes, or none, takes rules of a chord.
fn fits_keys(keys: &Option<Chord>, chord: &Chord) -> bool
    ensures { result ≡ fits_keys keys.now chord.now }
{
    match keys {
        Some(keys) => keys.same_keys(chord),
        None => true,
    }
}

/// Whether a removal with this clause, or none, takes rules with a clause, or none.
fn fits_clause(clause: &Option<Clause>, when: &Option<Clause>) -> bool
    ensures { result ≡ fits_clause clause.now when.now }
{
    match (clause, when) {
        (Some(clause), Some(when)) => clause.same_tree(when),
        (Some(_), None) => false,
        (None, _) => true,
    }
}
