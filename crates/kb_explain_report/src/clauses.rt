//! Clauses as texts.
use kb_base::NoMemory;
use kb_when::{Clause, Leaf, Operator, Tree};
use std::alloc::Global;

/// What a tree stands in, which says where it needs parentheses.
#[derive(Clone, Copy, PartialEq, Eq)]
enum Around {
    /// Nothing.
    Nothing,
    /// An operand of `||`.
    Or,
    /// An operand of `&&`.
    And,
    /// The operand of `!`.
    Not,
}

/// Whether a text can stand in a clause without quotes.
fn is_plain(text: &str) -> bool {
    if text.is_empty() || matches!(text, "true" | "false" | "in" | "not") {
        return false;
    }
    for byte in text.as_bytes() {
        if !byte.is_ascii_alphanumeric() && !matches!(*byte, b'_' | b'-' | b'.' | b':' | b'/') {
            return false;
        }
    }
    true
}

/// Adds a text that a key is compared with.
fn write_compared(compared: &str, text: &mut String) -> Result<(), NoMemory> {
    if is_plain(compared) {
        return text.push_str(compared);
    }
    text.push('\'')?;
    text.push_str(compared)?;
    text.push('\'')
}

/// The sign of a comparison.
fn sign_of(operator: Operator) -> &'static str {
    match operator {
        Operator::Below => "<",
        Operator::AtMost => "<=",
        Operator::Above => ">",
        Operator::AtLeast => ">=",
    }
}

/// Adds a comparison with a text, or its negation.
fn write_equals(
    key: &str,
    compared: &str,
    wanted: bool,
    text: &mut String,
) -> Result<(), NoMemory> {
    text.push_str(key)?;
    text.push_str(if wanted { " == " } else { " != " })?;
    write_compared(compared, text)
}

/// Adds a test for a member, or its negation.
fn write_member(key: &str, list: &str, wanted: bool, text: &mut String) -> Result<(), NoMemory> {
    text.push_str(key)?;
    text.push_str(if wanted { " in " } else { " not in " })?;
    text.push_str(list)
}

/// Adds an atom.
fn write_atom(atom: &Leaf, text: &mut String) -> Result<(), NoMemory> {
    match atom {
        Leaf::Key(key) => text.push_str(key.as_str()),
        Leaf::Equals(key, compared) => write_equals(key.as_str(), compared.as_str(), true, text),
        Leaf::Member(key, list) => write_member(key.as_str(), list.as_str(), true, text),
        Leaf::Compare(key, operator, number) => {
            let key = key.as_str();
            let sign = sign_of(*operator);
            let number = *number;
            write!(text, "{key} {sign} {number}")?;
            Ok(())
        }
        Leaf::Matches(key, pattern) => {
            let key = key.as_str();
            let source = pattern.text().as_str();
            write!(text, "{key} =~ /{source}/")?;
            let flags = pattern.flags();
            text.push_str(if flags.ignore_case { "i" } else { "" })?;
            text.push_str(if flags.multi_line { "m" } else { "" })?;
            text.push_str(if flags.dot_all { "s" } else { "" })
        }
    }
}

/// Adds the negation of an atom.
fn write_negated(atom: &Leaf, text: &mut String) -> Result<(), NoMemory> {
    match atom {
        Leaf::Equals(key, compared) => write_equals(key.as_str(), compared.as_str(), false, text),
        Leaf::Member(key, list) => write_member(key.as_str(), list.as_str(), false, text),
        Leaf::Key(_) => {
            text.push('!')?;
            write_atom(atom, text)
        }
        Leaf::Compare(_, _, _) | Leaf::Matches(_, _) => {
            text.push_str("!(")?;
            write_atom(atom, text)?;
            text.push(')')
        }
    }
}

/// Adds a literal: an atom, or its negation.
pub(crate) fn write_literal(atom: &Leaf, wanted: bool, text: &mut String) -> Result<(), NoMemory> {
    if wanted {
        write_atom(atom, text)
    } else {
        write_negated(atom, text)
    }
}

/// The parentheses round a tree, none where it stands alone.
fn parentheses(is_alone: bool) -> (&'static str, &'static str) {
    if is_alone { ("", "") } else { ("(", ")") }
}

/// Adds trees with a sign between them.
#[cycle(writing)]
fn write_joined(
    trees: &[Tree],
    sign: &str,
    around: Around,
    text: &mut String,
) -> Result<(), NoMemory> {
    let mut is_first = true;
    for tree in trees {
        if !is_first {
            text.push_str(sign)?;
        }
        is_first = false;
        write_tree(tree, around, text)?;
    }
    Ok(())
}

/// The atom that a tree is, if it is one.
fn atom_of(tree: &Tree) -> Option<&Leaf> {
    match tree {
        Tree::Atom(atom) => Some(atom),
        _ => None,
    }
}

/// Adds a tree.
#[cycle(writing)]
fn write_tree(tree: &Tree, around: Around, text: &mut String) -> Result<(), NoMemory> {
    match tree {
        Tree::True => text.push_str("true"),
        Tree::False => text.push_str("false"),
        Tree::Atom(atom) => write_atom(atom, text),
        Tree::Not(tree) => match atom_of(tree) {
            Some(atom) => write_negated(atom, text),
            None => {
                text.push('!')?;
                write_tree(tree, Around::Not, text)
            }
        },
        Tree::And(trees) => {
            let (open, close) = parentheses(matches!(around, Around::Nothing | Around::Or));
            text.push_str(open)?;
            write_joined(trees, " && ", Around::And, text)?;
            text.push_str(close)
        }
        Tree::Or(trees) => {
            let (open, close) = parentheses(matches!(around, Around::Nothing));
            text.push_str(open)?;
            write_joined(trees, " || ", Around::Or, text)?;
            text.push_str(close)
        }
    }
}

/// A clause as a text that reads as the same tree: with one blank round each sign, without parentheses that
/// it doesn't need. Error: `NoMemory`.
pub(crate) fn clause_text(alloc: Global, clause: &Clause) -> Result<String, NoMemory> {
    let mut text = String::new(alloc);
    write_tree(clause.tree(), Around::Nothing, &mut text)?;
    Ok(text)
}
