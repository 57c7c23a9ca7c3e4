//! Why a clause fails: the literal at which it does.
ghost use Rattle.std.specs.Prelude.{◌≡◌, IfOk, true, map, is_none, option_copied, option_map};
ghost use Rattle.kb_context.specs.Scopes.{context};
ghost use Rattle.kb_explain.specs.Cause.{agrees, cause_data, shown, unless, Fails, IsCauseOf};
ghost use Rattle.kb_explain.specs.Cause as causes;
ghost use Rattle.kb_when.specs.Leaf.{marked_of_leaf};
ghost use Rattle.kb_when.specs.Marked.{marked_value};
ghost use Rattle.kb_when.specs.Marks.{when_holds};
ghost use Rattle.kb_when.specs.Tree.{marked_of, markeds_of};

use kb_base::NoMemory;
use kb_context::Scopes;
use kb_when::{Clause, Leaf, Tree};
use std::alloc::Global;

/// An atom of a clause, or its negation.
#[derive(Clone, Copy, Debug)]
pub struct Literal<'c> {
    /// The atom.
    pub atom: &'c Leaf,
    /// Whether the atom has to hold. The atom of a negation has to fail.
    pub wanted: bool,
}

/// Why a clause fails.
#[derive(Clone, Copy, Debug)]
pub enum Cause<'c> {
    /// It fails in every context: `false` stands there, or a negated `true`.
    Never,
    /// This literal doesn't hold.
    Literal(Literal<'c>),
}

/// Whether a value is the wanted one.
fn agrees(wanted: bool, value: bool) -> bool
    ensures { result ≡ agrees wanted value }
{
    if wanted { value } else { !value }
}

/// Why a constant isn't what is wanted, if it isn't.
fn cause_of_constant<'c>(value: bool, wanted: bool) -> Option<Cause<'c>>
    ensures { option_map cause_data result ≡ unless (agrees wanted value) causes.never }
{
    if agrees(wanted, value) {
        None
    } else {
        Some(Cause::Never)
    }
}

/// Why an atom isn't what is wanted, if it isn't.
fn cause_of_atom<'c>(
    alloc: Global,
    atom: &'c Leaf,
    wanted: bool,
    scopes: &Scopes,
) -> Result<Option<Cause<'c>>, NoMemory>
    ensures { IfOk result (λ found. option_map cause_data found
        ≡ causes.cause_of_atom (context scopes.now.seen) wanted (marked_of_leaf atom.entry.now)) }
{
    if agrees(wanted, atom.holds(alloc, scopes)?) {
        return Ok(None);
    }
    Ok(Some(Cause::Literal(Literal { atom, wanted })))
}

/// Why not all of these trees are what is wanted, if not all are: the cause of the first that isn't.
#[cycle(causes)]
fn first_cause<'c>(
    alloc: Global,
    trees: &'c [Tree],
    wanted: bool,
    scopes: &Scopes,
) -> Result<Option<Cause<'c>>, NoMemory>
    ensures { IfOk result (λ found. option_map cause_data found
        ≡ causes.first_cause (context scopes.now.seen) wanted (markeds_of (map marked_of trees.entry.now))) }
{
    for tree in trees {
        let found = cause_in(alloc, tree, wanted, scopes)?;
        if found.is_some() {
            return Ok(found);
        }
    }
    Ok(None)
}

/// Of the causes of two operands that both fail the one to name: the first that has a literal.
pub fn first_shown<'c>(first: Option<Cause<'c>>, second: Option<Cause<'c>>) -> Option<Cause<'c>>
    ensures { option_map cause_data result
        ≡ shown (option_map cause_data first.entry) (option_map cause_data second.entry) }
{
    match first {
        Some(Cause::Literal(literal)) => Some(Cause::Literal(literal)),
        Some(Cause::Never) | None => second,
    }
}

/// Why none of these trees is what is wanted, if none is: the first literal among their causes.
#[cycle(causes)]
fn cause_of_all<'c>(
    alloc: Global,
    trees: &'c [Tree],
    wanted: bool,
    scopes: &Scopes,
) -> Result<Option<Cause<'c>>, NoMemory>
    ensures { IfOk result (λ found. option_map cause_data found
        ≡ causes.cause_of_all (context scopes.now.seen) wanted (markeds_of (map marked_of trees.entry.now))) }
{
    let mut first = None;
    for tree in trees {
        let found = cause_in(alloc, tree, wanted, scopes)?;
        if found.is_none() {
            return Ok(None);
        }
        first = first_shown(first, found);
    }
    Ok(Some(first.unwrap_or(Cause::Never)))
}

/// Why a tree doesn't have the value that is wanted, if it hasn't, for the keys that the focus sees. It is
/// the first literal, in the order of the text and with negations pushed inward, that doesn't hold in an
/// operand that fails: of operands that all have to hold the first that fails, and of operands of which one
/// has to hold the first that isn't constant. `NoMemory` only from a pattern.
#[cycle(causes)]
pub fn cause_in<'c>(
    alloc: Global,
    tree: &'c Tree,
    wanted: bool,
    scopes: &Scopes,
) -> Result<Option<Cause<'c>>, NoMemory>
    ensures { IfOk result (λ found. option_map cause_data found
        ≡ causes.cause_in (context scopes.now.seen) wanted (marked_of tree.entry.now)) }
{
    match tree {
        Tree::True => Ok(cause_of_constant(true, wanted)),
        Tree::False => Ok(cause_of_constant(false, wanted)),
        Tree::Atom(atom) => cause_of_atom(alloc, atom, wanted, scopes),
        Tree::Not(tree) => cause_in(alloc, tree, !wanted, scopes),
        Tree::And(trees) => {
            if wanted {
                first_cause(alloc, trees, wanted, scopes)
            } else {
                cause_of_all(alloc, trees, wanted, scopes)
            }
        }
        Tree::Or(trees) => {
            if wanted {
                cause_of_all(alloc, trees, wanted, scopes)
            } else {
                first_cause(alloc, trees, wanted, scopes)
            }
        }
    }
}

/// Why a clause fails, if it does; an absent one never fails. `NoMemory` only from a pattern.
#[tactic(auto, using(crate::proofs::CauseLemmas::is_cause, crate::proofs::CauseLemmas::fails_none))]
pub fn cause_of_clause<'c>(
    alloc: Global,
    clause: Option<&'c Clause>,
    scopes: &Scopes,
) -> Result<Option<Cause<'c>>, NoMemory>
    ensures cause { IfOk result (λ found.
        IsCauseOf (context scopes.now.seen) (option_copied clause.entry) (option_map cause_data found)) }

    // There is a cause exactly if the clause fails.
    ensures holds { IfOk result (λ found.
        is_none found ≡ when_holds (context scopes.now.seen) (option_copied clause.entry)) }

    // A literal that is named doesn't hold; where none is, the clause is false in every context.
    ensures fails { IfOk result (λ found.
        Fails (context scopes.now.seen) (option_copied clause.entry) (option_map cause_data found)) }
{
    match clause {
        Some(clause) => cause_in(alloc, clause.tree(), true, scopes),
        None => Ok(None),
    }
}
