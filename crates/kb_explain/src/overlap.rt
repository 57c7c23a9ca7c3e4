//! Whether two clauses can hold at once.
ghost use Rattle.std.specs.Prelude.{◌≡◌, true, map, All, IfOk, IsTrue, OnOk, Option, Some, option_copied};
ghost use Rattle.kb_explain.specs.Overlap.{AllFollow, Excludes, FollowsFrom, IsNeeded, NeverTogether};
ghost use Rattle.kb_explain.specs.Overlap as overlaps;
ghost use Rattle.kb_when.specs.Marks.{MarkedClause};
ghost use Rattle.kb_when.specs.Tree.{marked_of};

use crate::cause::Literal;
use kb_base::NoMemory;
use kb_when::{Clause, Leaf, Tree};
use std::alloc::Global;

/// Adds the literals that all have to hold where the trees have the value that is wanted.
#[cycle(literals)]
fn add_all<'c>(
    trees: &'c [Tree],
    wanted: bool,
    literals: &mut Vec<Literal<'c>>,
) -> Result<(), NoMemory>
    ensures { OnOk result ((clause : Option MarkedClause)
        → AllFollow clause wanted (map marked_of trees.entry.now)
        → All (IsNeeded clause) literals.old.items → All (IsNeeded clause) literals.new.items) }
{
    for tree in trees {
        add_literals(tree, wanted, literals)?;
    }
    Ok(())
}

/// Adds literals that all have to hold where a tree has the value that is wanted: those of a conjunction,
/// with negations pushed inward, but none of a disjunction in it.
#[cycle(literals)]
#[tactic(auto, using(crate::proofs::OverlapLemmas::not_follows))]
fn add_literals<'c>(
    tree: &'c Tree,
    wanted: bool,
    literals: &mut Vec<Literal<'c>>,
) -> Result<(), NoMemory>
    ensures { OnOk result ((clause : Option MarkedClause)
        → FollowsFrom clause wanted (marked_of tree.entry.now)
        → All (IsNeeded clause) literals.old.items → All (IsNeeded clause) literals.new.items) }
{
    match tree {
        Tree::True | Tree::False => Ok(()),
        Tree::Atom(atom) => {
            literals.push(Literal { atom, wanted })?;
            Ok(())
        }
        Tree::Not(tree) => add_literals(tree, !wanted, literals),
        Tree::And(trees) => {
            if wanted {
                add_all(trees, wanted, literals)
            } else {
                Ok(())
            }
        }
        Tree::Or(trees) => {
            if wanted {
                Ok(())
            } else {
                add_all(trees, wanted, literals)
            }
        }
    }
}

/// The literals that all have to hold where a clause holds.
fn literals_of_clause<'c>(alloc: Global, clause: &'c Clause) -> Result<Vec<Literal<'c>>, NoMemory>
    ensures { IfOk result (λ literals. All (IsNeeded (Some clause.entry.now)) literals.items) }
{
    let mut literals = Vec::new(alloc);
    add_literals(clause.tree(), true, &mut literals)?;
    Ok(literals)
}

/// The literals that all have to hold where a clause holds that may be missing.
fn literals_of<'c>(alloc: Global, clause: Option<&'c Clause>) -> Result<Vec<Literal<'c>>, NoMemory>
    ensures { IfOk result (λ literals. All (IsNeeded (option_copied clause.entry)) literals.items) }
{
    match clause {
        Some(clause) => literals_of_clause(alloc, clause),
        None => Ok(Vec::new(alloc)),
    }
}

/// Whether an atom matches a pattern. Its value depends on a mark that a comparison of atoms leaves out.
fn is_match(atom: &Leaf) -> bool
    ensures { result ≡ overlaps.is_match atom.now }
{
    matches!(atom, Leaf::Matches(_, _))
}

/// Whether a literal is the negation of another one, of equal atoms that match no pattern.
#[tactic(auto, using(crate::proofs::OverlapLemmas::negated))]
fn negates(one: &Literal<'_>, other: &Literal<'_>) -> bool
    ensures { IsTrue result → (keys : _) → overlaps.literal_holds keys one.now ≡ true
        → overlaps.literal_holds keys other.now ≡ true → ⊥ }
{
    if one.wanted == other.wanted || is_match(one.atom) || is_match(other.atom) {
        return false;
    }
    one.atom.same(other.atom)
}
/// Whether a literal is the negation of one of these.
fn is_negated(literal: &Literal<'_>, others: &[Literal<'_>]) -> bool
    ensures { IsTrue result → (clause : Option MarkedClause) → All (IsNeeded clause) others.now
        → Excludes literal.now clause }
{
    for other in others {
        if negates(literal, other) {
            return true;
        }
    }
    false
}

/// Whether one of these literals is the negation of one of the others.
fn one_is_negated(ones: &[Literal<'_>], others: &[Literal<'_>]) -> bool
    ensures { IsTrue result → (one other : Option MarkedClause) → All (IsNeeded one) ones.now
        → All (IsNeeded other) others.now → NeverTogether one other }
{
    for literal in ones {
        if is_negated(literal, others) {
            return true;
        }
    }
    false
}

/// Whether two clauses contradict by a literal: one of those that all have to hold where the one clause holds
/// is the negation of such a literal of the other. Then they never hold at once. Otherwise they may. Literals
/// with patterns aren't compared, and an absent clause contradicts none. Error: `NoMemory`.
pub fn contradict(
    alloc: Global,
    one: Option<&Clause>,
    other: Option<&Clause>,
) -> Result<bool, NoMemory>
    ensures { IfOk result (λ answer.
        IsTrue answer → NeverTogether (option_copied one.entry) (option_copied other.entry)) }
{
    let ones = literals_of(alloc, one)?;
    let others = literals_of(alloc, other)?;
    Ok(one_is_negated(ones.as_slice(), others.as_slice()))
}
