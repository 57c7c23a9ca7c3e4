//! Clauses: their faults, their trees, and whether they hold.
use kb_base::{Failure, NoMemory, UnreadPattern};
use kb_context::Scopes;
use kb_golden_text::fault_text;
use kb_when::{Clause, WhenFault};
use std::alloc::{AllocError, Global};

fn when_fault(alloc: Global, wrong: Failure<WhenFault>) -> Result<String, NoMemory> {
    match wrong {
        Failure::Fault(wrong) => fault_text(alloc, wrong.kind()),
        Failure::NoMemory => Err(AllocError),
    }
}

fn held(alloc: Global, clause: &Clause, scopes: &Scopes) -> Result<String, NoMemory> {
    let holds = clause.holds(scopes)?;
    format!(in alloc; "{holds}")
}

/// Whether a clause holds.
pub(crate) fn when(alloc: Global, text: &str, scopes: &Scopes) -> Result<String, NoMemory> {
    match Clause::parse(alloc, text) {
        Ok(clause) => held(alloc, &clause, scopes),
        Err(wrong) => when_fault(alloc, wrong),
    }
}

fn digit_at(clause: &Clause, scopes: &mut Scopes, scope: &str) -> Result<char, NoMemory> {
    match scopes.focus(scope) {
        Ok(()) => Ok(if clause.holds(scopes)? { '1' } else { '0' }),
        Err(_) => Ok('?'),
    }
}

fn digits(
    alloc: Global,
    clause: &Clause,
    scopes: &mut Scopes,
    names: &str,
) -> Result<String, NoMemory> {
    let mut output = String::new(alloc);
    for name in names.split(' ') {
        output.push(digit_at(clause, scopes, name)?)?;
    }
    Ok(output)
}

/// For each of some scopes, 1 where a clause holds with the focus there, 0 where it doesn't, and `?` where
/// the scope is unknown.
pub(crate) fn choices(
    alloc: Global,
    names: &str,
    text: &str,
    scopes: &mut Scopes,
) -> Result<String, NoMemory> {
    match Clause::parse(alloc, text) {
        Ok(clause) => digits(alloc, &clause, scopes, names),
        Err(wrong) => when_fault(alloc, wrong),
    }
}

fn add_fault(wrong: Failure<WhenFault>, output: &mut String) -> Result<(), NoMemory> {
    match wrong {
        Failure::Fault(wrong) => {
            let number = wrong.kind().number();
            write!(output, "{number}")
        }
        Failure::NoMemory => Err(AllocError),
    }
}

fn add_fault_of(alloc: Global, text: &str, output: &mut String) -> Result<(), NoMemory> {
    match Clause::parse(alloc, text) {
        Ok(_) => output.push_str("ok"),
        Err(wrong) => add_fault(wrong, output),
    }
}

fn listed(alloc: Global, unread: &[UnreadPattern]) -> Result<String, NoMemory> {
    if unread.is_empty() {
        return String::from_str(alloc, "none");
    }
    let mut output = String::new(alloc);
    for entry in unread {
        if !output.is_empty() {
            output.push(' ')?;
        }
        let number = entry.number;
        write!(output, "{number}:")?;
        output.push_str(entry.pattern.as_str())?;
    }
    Ok(output)
}

/// The patterns of a clause that `regex` rejects, each behind its number in the clause.
pub(crate) fn unread(alloc: Global, text: &str) -> Result<String, NoMemory> {
    match Clause::parse(alloc, text) {
        Ok(clause) => listed(alloc, clause.unread()),
        Err(wrong) => when_fault(alloc, wrong),
    }
}

fn add_fault_with(
    alloc: Global,
    text: &str,
    token: &str,
    output: &mut String,
) -> Result<(), NoMemory> {
    let longer = format!(in alloc; "{text}{token} ")?;
    output.push(' ')?;
    add_fault_of(alloc, longer.as_str(), output)
}

fn add_faults_with(
    alloc: Global,
    text: &str,
    tokens: &str,
    output: &mut String,
) -> Result<(), NoMemory> {
    output.push(':')?;
    for token in tokens.split(' ') {
        add_fault_with(alloc, text, token, output)?;
    }
    Ok(())
}

// The text ends in a blank.
fn faults_with(alloc: Global, tokens: &str, text: &str) -> Result<String, NoMemory> {
    let mut output = String::new(alloc);
    add_fault_of(alloc, text, &mut output)?;
    add_faults_with(alloc, text, tokens, &mut output)?;
    Ok(output)
}

/// The number of the fault of a text (`ok` without one), and that of the text followed by each of some
/// tokens.
pub(crate) fn behind(alloc: Global, tokens: &str, text: &str) -> Result<String, NoMemory> {
    let text = format!(in alloc; "{text} ")?;
    faults_with(alloc, tokens, text.as_str())
}

// `one way` where the order of the two matters.
fn same_trees(alloc: Global, first: &Clause, second: &Clause) -> Result<String, NoMemory> {
    let is_same = first.same_tree(second);
    if second.same_tree(first) == is_same {
        format!(in alloc; "{is_same}")
    } else {
        String::from_str(alloc, "one way")
    }
}

fn same_as(alloc: Global, first: &Clause, second: &str) -> Result<String, NoMemory> {
    match Clause::parse(alloc, second) {
        Ok(second) => same_trees(alloc, first, &second),
        Err(wrong) => when_fault(alloc, wrong),
    }
}

/// Whether two clauses have equal trees.
pub(crate) fn same(alloc: Global, text: &str) -> Result<String, NoMemory> {
    let (first, second) = text.split_once(" <=> ").unwrap_or((text, text));
    match Clause::parse(alloc, first) {
        Ok(first) => same_as(alloc, &first, second),
        Err(wrong) => when_fault(alloc, wrong),
    }
}
