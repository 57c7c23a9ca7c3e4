//! Clauses as texts that are equal where the clauses are.
use kb_base::NoMemory;
use kb_when::{Clause, Leaf, Operator, Tree};
use std::alloc::Global;

/// The order in which the operands of `&&` and `||` are written.
#[derive(Clone, Copy, Debug, PartialEq, Eq)]
pub(crate) enum Operands {
    /// As in the clause.
    InOrder,
    /// Sorted, so that clauses are written alike that differ in this order alone.
    Sorted,
}

/// Writes a clause behind a text.
pub(crate) fn write_clause(
    alloc: Global,
    clause: &Clause,
    operands: Operands,
    text: &mut String,
) -> Result<(), NoMemory> {
    write_tree(alloc, clause.tree(), operands, text)
}

/// The sign of a comparison.
fn sign_of(operator: Operator) -> &'static str {
    match operator {
        Operator::Below => "<",
        Operator::AtMost => "<=",
        Operator::Above => ">",
        Operator::AtLeast => ">=",
    }
}

/// Writes an atom behind a text.
fn write_leaf(leaf: &Leaf, text: &mut String) -> Result<(), NoMemory> {
    match leaf {
        Leaf::Key(key) => text.push_str(key.as_str()),
        Leaf::Equals(key, value) => {
            let (key, value) = (key.as_str(), value.as_str());
            write!(text, "{key} == {value:?}")
        }
        Leaf::Compare(key, operator, number) => {
            let (key, sign) = (key.as_str(), sign_of(*operator));
            write!(text, "{key} {sign} {number}")
        }
        Leaf::Matches(key, pattern) => {
            let (key, pattern) = (key.as_str(), pattern.text().as_str());
            write!(text, "{key} =~ {pattern:?}")
        }
        Leaf::Member(key, list) => {
            let (key, list) = (key.as_str(), list.as_str());
            write!(text, "{key} in {list}")
        }
    }
}

/// Writes a tree behind a text.
#[cycle(writing)]
fn write_tree(
    alloc: Global,
    tree: &Tree,
    operands: Operands,
    text: &mut String,
) -> Result<(), NoMemory> {
    match tree {
        Tree::True => text.push_str("true"),
        Tree::False => text.push_str("false"),
        Tree::Atom(leaf) => write_leaf(leaf, text),
        Tree::Not(tree) => {
            text.push_str("!")?;
            write_tree(alloc, tree, operands, text)
        }
        Tree::And(trees) => write_trees(alloc, trees.as_slice(), " && ", operands, text),
        Tree::Or(trees) => write_trees(alloc, trees.as_slice(), " || ", operands, text),
    }
}

/// Writes the operands of a sign behind a text, in parentheses.
#[cycle(writing)]
fn write_trees(
    alloc: Global,
    trees: &[Tree],
    sign: &str,
    operands: Operands,
    text: &mut String,
) -> Result<(), NoMemory> {
    let mut parts = Vec::new(alloc);
    for tree in trees {
        let mut part = String::new(alloc);
        write_tree(alloc, tree, operands, &mut part)?;
        parts.push(part)?;
    }
    if operands == Operands::Sorted {
        parts.sort()?;
    }
    write_parts(parts.as_slice(), sign, text)
}

/// Writes parts with a sign between each two, in parentheses.
fn write_parts(parts: &[String], sign: &str, text: &mut String) -> Result<(), NoMemory> {
    text.push_str("(")?;
    for (place, part) in parts.iter().enumerate() {
        if place > 0 {
            text.push_str(sign)?;
        }
        text.push_str(part.as_str())?;
    }
    text.push_str(")")
}
