//! Trees of clauses.
ghost use Rattle.std.specs.Prelude.{◌≡◌, map};
ghost use Rattle.kb_when.specs.Same.{same_all};
ghost use Rattle.kb_when.specs.Tree.{clause_of, clauses_of};

use crate::leaf::Leaf;
use std::rc::Rc;

/// The tree of a clause. Parentheses have no node of their own.
#[derive(Debug, Drop)]
pub enum Tree {
    /// `true`.
    True,
    /// `false`.
    False,
    /// An atom, shared with the flat form of the clause.
    Atom(Rc<Leaf>),
    /// The negation of a tree.
    Not(Box<Tree>),
    /// Two or more trees that must all hold, in the order of the text.
    And(Vec<Tree>),
    /// Two or more trees of which one must hold, in the order of the text.
    Or(Vec<Tree>),
}

/// One constructor for each case. The clause of a tree is a fold, which does not compute in a proof. The
/// contracts of these functions state its value for each case.
impl Tree {
    ghost use Rattle.kb_when.specs.Clause.{always, never, not_of, all_of, any_of};
    ghost use Rattle.kb_when.specs.Leaf.{clause_of_leaf};
    ghost use Rattle.kb_when.specs.Marked as marked;
    ghost use Rattle.kb_when.specs.Tree.{marked_of, clause_of, clauses_of};

    pub(crate) fn always() -> Tree
        ensures { clause_of result ≡ always }
    {
        Tree::True
    }

    pub(crate) fn never() -> Tree
        ensures clause { clause_of result ≡ never }
        ensures marked { marked_of result ≡ marked.never }
    {
        Tree::False
    }

    pub(crate) fn atom(leaf: Rc<Leaf>) -> Tree
        ensures { clause_of result ≡ clause_of_leaf leaf.value }
    {
        Tree::Atom(leaf)
    }

    pub(crate) fn negation(tree: Box<Tree>) -> Tree
        ensures { clause_of result ≡ not_of (clause_of tree.value) }
    {
        Tree::Not(tree)
    }

    #[tactic(auto, using(crate::proofs::MarkedLemmas::and_seen))]
    pub(crate) fn all(trees: Vec<Tree>) -> Tree
        ensures { clause_of result ≡ all_of (clauses_of (map clause_of trees.items)) }
    {
        Tree::And(trees)
    }

    #[tactic(auto, using(crate::proofs::MarkedLemmas::or_seen))]
    pub(crate) fn any(trees: Vec<Tree>) -> Tree
        ensures { clause_of result ≡ any_of (clauses_of (map clause_of trees.items)) }
    {
        Tree::Or(trees)
    }
}

#[cycle(same)]
fn same_trees(trees: &[Tree], others: &[Tree]) -> bool
    ensures { result ≡
        same_all (clauses_of (map clause_of trees.now)) (clauses_of (map clause_of others.now)) }
{
    if trees.len() != others.len() {
        return false;
    }
    for (i, tree) in trees.iter().enumerate() {
        if !tree.same(&others[i]) {
            return false;
        }
    }
    true
}

impl Tree {
    ghost use Rattle.kb_when.specs.Same.{same};
    ghost use Rattle.kb_when.specs.Leaf.{clause_of_leaf};
    ghost use Rattle.kb_when.specs.Tree.{clause_of};

    /// Whether this tree is the same atom.
    fn is_atom(&self, leaf: &Leaf) -> bool
        ensures { result ≡ same (clause_of_leaf leaf.now) (clause_of self.now) }
    {
        match self {
            Tree::Atom(other) => leaf.same(other),
            _ => false,
        }
    }

    /// Whether both trees are the same clause.
    #[cycle(same)]
    #[tactic(auto, using(crate::proofs::MarkedLemmas::and_seen, crate::proofs::MarkedLemmas::or_seen))]
    pub(crate) fn same(&self, other: &Tree) -> bool
        ensures { result ≡ same (clause_of self.now) (clause_of other.now) }
    {
        match self {
            Tree::True => matches!(other, Tree::True),
            Tree::False => matches!(other, Tree::False),
            Tree::Atom(leaf) => other.is_atom(leaf),
            Tree::Not(tree) => match other {
                Tree::Not(other) => tree.same(other),
                _ => false,
            },
            Tree::And(trees) => match other {
                Tree::And(others) => same_trees(trees, others),
                _ => false,
            },
            Tree::Or(trees) => match other {
                Tree::Or(others) => same_trees(trees, others),
                _ => false,
            },
        }
    }
}
