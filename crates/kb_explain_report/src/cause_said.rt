//! Why a clause fails, said.
use crate::clauses::write_literal;
use crate::value_said::{value_json, value_text};
use kb_base::NoMemory;
use kb_context::{ContextValue, Scopes};
use kb_explain::{Cause, Literal, scope_of, scope_with};
use kb_when::Leaf;
use serde_json::{Value, json};
use std::alloc::Global;

/// The keys that an atom reads: its own, and that of the list in which the value is looked for.
fn keys_of(atom: &Leaf) -> (&str, Option<&str>) {
    match atom {
        Leaf::Key(key) | Leaf::Equals(key, _) | Leaf::Compare(key, _, _) | Leaf::Matches(key, _) =>
            (key.as_str(), None),
        Leaf::Member(key, list) => (key.as_str(), Some(list.as_str())),
    }
}

/// The name of the scope that has the focus.
fn focus_of(scopes: &Scopes) -> &str {
    match scopes.scopes().get(scopes.focused()) {
        Some(scope) => scope.name.as_str(),
        None => "",
    }
}

/// A scope that has a key which the focus doesn't see, with its value there, if there is one.
fn elsewhere<'s>(scopes: &'s Scopes, key: &str) -> Option<(&'s str, &'s ContextValue)> {
    let scope = scope_with(scopes, key)?;
    let value = scope.keys.get(key)?;
    Some((scope.name.as_str(), value))
}

/// That the focus doesn't see a key, with a scope that has it.
fn unseen_text(alloc: Global, key: &str, scopes: &Scopes) -> Result<String, NoMemory> {
    match elsewhere(scopes, key) {
        Some((scope, value)) => {
            let value = value_text(alloc, value)?;
            let focus = focus_of(scopes);
            format!(in alloc;
                "{key} is {value} in scope {scope}, which the focus {focus} doesn't see"
            )
        }
        None => format!(in alloc; "{key} has no value"),
    }
}

/// The same as JSON.
fn unseen_json(alloc: Global, key: &str, scopes: &Scopes) -> Result<Value, NoMemory> {
    match elsewhere(scopes, key) {
        Some((scope, value)) => {
            let value = value_json(alloc, value)?;
            json!(in alloc; {"key": key, "unseen": {"value": value, "scope": scope}})
        }
        None => json!(in alloc; {"key": key}),
    }
}

/// What the focus sees of a key.
fn key_text(alloc: Global, key: &str, scopes: &Scopes) -> Result<String, NoMemory> {
    let Some(value) = scopes.get(key) else {
        return unseen_text(alloc, key, scopes);
    };
    let value = value_text(alloc, value)?;
    match scope_of(scopes, key) {
        Some(scope) => format!(in alloc; "{key} is {value}, in scope {scope}"),
        None => format!(in alloc; "{key} is {value}"),
    }
}

/// What the focus sees of a key, as JSON.
fn key_json(alloc: Global, key: &str, scopes: &Scopes) -> Result<Value, NoMemory> {
    let Some(value) = scopes.get(key) else {
        return unseen_json(alloc, key, scopes);
    };
    let value = value_json(alloc, value)?;
    match scope_of(scopes, key) {
        Some(scope) => json!(in alloc; {"key": key, "value": value, "scope": scope}),
        None => json!(in alloc; {"key": key, "value": value}),
    }
}

/// A literal as a text.
fn literal_text(alloc: Global, literal: &Literal<'_>) -> Result<String, NoMemory> {
    let mut text = String::new(alloc);
    write_literal(literal.atom, literal.wanted, &mut text)?;
    Ok(text)
}

/// Whether an atom compares with a pattern that isn't supported.
fn is_unread(atom: &Leaf) -> bool {
    match atom {
        Leaf::Matches(_, pattern) => pattern.is_unread(),
        _ => false,
    }
}

/// Why a literal doesn't hold, in words.
fn literal_said(alloc: Global, literal: &Literal<'_>, scopes: &Scopes) -> Result<String, NoMemory> {
    let said = literal_text(alloc, literal)?;
    if is_unread(literal.atom) {
        return format!(in alloc;
            "{said} never holds: its pattern isn't supported (keycheck check says why)"
        );
    }
    let (key, list) = keys_of(literal.atom);
    let first = key_text(alloc, key, scopes)?;
    match list {
        Some(list) => {
            let second = key_text(alloc, list, scopes)?;
            format!(in alloc; "{said} doesn't hold: {first}; {second}")
        }
        None => format!(in alloc; "{said} doesn't hold: {first}"),
    }
}

/// Why a clause fails, in words.
pub(crate) fn cause_said(
    alloc: Global,
    cause: &Cause<'_>,
    scopes: &Scopes,
) -> Result<String, NoMemory> {
    match cause {
        Cause::Never => String::from_str(alloc, "it is false in every context"),
        Cause::Literal(literal) => literal_said(alloc, literal, scopes),
    }
}

/// Why a literal doesn't hold, as JSON.
fn literal_json(alloc: Global, literal: &Literal<'_>, scopes: &Scopes) -> Result<Value, NoMemory> {
    let said = literal_text(alloc, literal)?;
    let said = said.as_str();
    let (key, list) = keys_of(literal.atom);
    let first = key_json(alloc, key, scopes)?;
    if is_unread(literal.atom) {
        return json!(in alloc; {"literal": said, "reads": [first], "unread": true});
    }
    match list {
        Some(list) => {
            let second = key_json(alloc, list, scopes)?;
            json!(in alloc; {"literal": said, "reads": [first, second]})
        }
        None => json!(in alloc; {"literal": said, "reads": [first]}),
    }
}

/// Why a clause fails, as JSON.
pub(crate) fn cause_json(
    alloc: Global,
    cause: &Cause<'_>,
    scopes: &Scopes,
) -> Result<Value, NoMemory> {
    match cause {
        Cause::Never => json!(in alloc; {"literal": "false", "reads": []}),
        Cause::Literal(literal) => literal_json(alloc, literal, scopes),
    }
}
