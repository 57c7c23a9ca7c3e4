//! When clauses.
ghost use Rattle.std.specs.Prelude.{◌≡◌, ◌↔◌, [], IsTrue, IfOk, IfErr, option_copied};
ghost use Rattle.kb_base.specs.Failure.{Gives};
ghost use Rattle.kb_when.specs.ClauseText.{clause_in};
ghost use Rattle.kb_when.specs.Tree.{clause_of};

use crate::fault::WhenFault;
use crate::flat::Flat;
use crate::parser::parse_tokens;
use crate::tokenizer::tokenize;
use crate::tree::Tree;
use crate::unread::unread_patterns;
use kb_base::{Failure, NoMemory, Seq, UnreadPattern};
use kb_context::Scopes;
use std::alloc::Global;
use std::marker::Model;

/// A condition on context keys, as in VS Code's documentation of when clause contexts: keys, `true` and
/// `false`, `!`, `&&`, `||` and parentheses, `==`, `===`, `!=` and `!==`, `<`, `<=`, `>` and `>=`, `=~`,
/// `in` and `not in`. `!` binds tightest, then `&&`, then `||`. Tokens, precedence, faults, and everything
/// else that the documentation leaves open are our decision. Contracts see the tree of the clause, and
/// separately the marks of its patterns.
#[derive(Debug, Drop)]
pub struct Clause {
    tree: Tree,
    flat: Flat,
    unread: Seq<UnreadPattern>,
    alloc: Global,
}

impl Model for Clause {
    ghost use Rattle.kb_when.specs.Marks.{MarkedClause, coded_marked, beside};
    ghost use Rattle.kb_when.specs.Tree.{marked_of};

    ghost Value = { MarkedClause };

    ghost coded = { coded_marked };

    ghost view = { λ c. beside (marked_of c.tree) };

    ghost use Rattle.kb_when.specs.Flat.{Decides};
    ghost use Rattle.kb_when.specs.Unread.{IsKept};

    ghost invariant = { λ c. IsKept (marked_of c.tree) c.unread
        × Decides c.flat.jumps.items (marked_of c.tree) c.flat.entry };
}

/// Parses a text into a tree. Errors: as for `Clause::parse`.
#[tactic(auto, unfolding(crate::specs::ClauseText::clause_in))]
fn read_tree(alloc: Global, text: &str) -> Result<Tree, Failure<WhenFault>>
    ensures { Gives clause_of result (clause_in text.now) }
{
    let tokens = tokenize(alloc, text)?;
    parse_tokens(alloc, &tokens)
}

impl Clause {
    ghost use Rattle.kb_context.specs.Scopes.{context};
    ghost use Rattle.kb_when.specs.Tokenizer.{CountSuffices};
    ghost use Rattle.kb_when.specs.ClauseText.{StandsFor, ReadsByGrammar};
    ghost use Rattle.kb_when.specs.Marks.{HasReadPattern, when_holds, WhenHasReadPattern, beside};
    ghost use Rattle.kb_when.specs.Tree.{marked_of};
    ghost use Rattle.kb_when.specs.Value.{value};
    ghost use Rattle.kb_when.specs.Clause.{never, patterns_of};
    ghost use Rattle.kb_pattern.specs.Pattern.{AreRight};
    ghost use Rattle.kb_when.specs.Unread.{unread_of, marked_by};

    /// Parses a clause.
    ///
    /// Errors: `BadToken` (30) if a part of the text is not a token. Otherwise the first of these from the
    /// left: `TooDeep` (32) if an operand is nested in more than 64 `(` and `!`, `BadNumber` (33) if a
    /// word or a quoted text that is not a number follows a comparison, `Unexpected` (31) for any other
    /// misplaced token or an early end of the text. `NoMemory` at any point. A pattern that `regex`
    /// rejects is not an error: it is marked as unread.
    pub fn parse(alloc: Global, text: &str) -> Result<Clause, Failure<WhenFault>>
        ensures read { Gives (λ clause. clause.tree) result (clause_in text.now) }
        ensures stands { IfOk result (λ clause. StandsFor text.now clause.tree) }
        ensures only { IfOk result (λ clause.
            (other : _) → StandsFor text.now other → other ≡ clause.tree) }
        ensures marks { IfOk result (λ clause. AreRight (patterns_of clause.tree) clause.marks) }

        // The parser agrees with the grammar for every text.
        ensures grammar { ReadsByGrammar text.now }

        // The definition of the tokens has a bound on their number; any larger bound gives the same tokens.
        ensures counted { CountSuffices text.now }
    {
        let tree = read_tree(alloc, text)?;
        let unread = unread_patterns(alloc, &tree)?;
        let flat = Flat::new(alloc, &tree)?;
        Ok(Clause {
            tree,
            flat,
            unread,
            alloc,
        })
    }

    /// The clause `false`.
    pub fn never(alloc: Global) -> Clause
        ensures { result ≡ record { tree = never; marks = [] } }
    {
        Clause {
            tree: Tree::never(),
            flat: Flat::never(alloc),
            unread: Seq::new(alloc),
            alloc,
        }
    }

    /// The tree, with the marks of its patterns inside.
    pub fn tree(&self) -> &Tree
        ensures { beside (marked_of result.now) ≡ self.now }
    {
        &self.tree
    }

    /// The patterns that `regex` rejects, in the order of the text.
    pub fn unread(&self) -> &[UnreadPattern]
        ensures listed { result.now ≡ unread_of self.now }

        // The tree and these patterns determine the clause with its marks.
        ensures whole { marked_by result.now self.now.tree ≡ self.now }

        // A pattern is marked as unread only if it is outside the grammar of `regex` or nests too deep. A
        // pattern without the mark is in the grammar.
        ensures right { AreRight (patterns_of self.now.tree) self.now.marks }
    {
        self.unread.as_slice()
    }

    /// Whether the clause holds for the keys that are visible from the focus. A key alone holds unless it
    /// is absent, `false`, 0 or the empty text. If a key is absent or its value is a list or an object,
    /// then `==`, `<`, `<=`, `>`, `>=` and `=~` are false. A pattern that is marked as unread never
    /// matches. Evaluation stops at the first operand that decides. Error: `NoMemory` if a search for a
    /// pattern is refused memory; a clause whose patterns are all marked as unread allocates nothing.
    #[tactic(auto, using(crate::proofs::MarkedLemmas::value_beside))]
    pub fn holds(&self, scopes: &Scopes) -> Result<bool, NoMemory>
        ensures value { IfOk result (λ holds.
            holds ≡ value (context scopes.now.seen) self.now.marks self.now.tree) }
        ensures memory { IfErr result (λ _. HasReadPattern self.now) }
    {
        self.flat.holds(self.alloc, scopes)
    }

    /// Whether a clause that may be missing holds, as for `Clause::holds`. A missing clause holds (VS Code's
    /// documentation of keybindings: `when` is optional). Error: as for `Clause::holds`.
    pub fn optional_holds(clause: Option<&Clause>, scopes: &Scopes) -> Result<bool, NoMemory>
        ensures value { IfOk result (λ holds.
            holds ≡ when_holds (context scopes.now.seen) (option_copied clause.entry)) }
        ensures memory { IfErr result (λ _. WhenHasReadPattern (option_copied clause.entry)) }
    {
        match clause {
            Some(clause) => clause.holds(scopes),
            None => Ok(true),
        }
    }

    /// Whether both clauses have the same tree, as the removal of a rule requires. The marks are not
    /// compared.
    pub fn same_tree(&self, other: &Clause) -> bool
        ensures { IsTrue result ↔ (self.now.tree ≡ other.now.tree) }
    {
        self.tree.same(&other.tree)
    }
}
