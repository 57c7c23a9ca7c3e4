//! What a refused layout is wrong in.
use crate::grouped::grouped;
use crate::mismatch_place::span_of_place;
use crate::refusal::Said;
use kb_base::{FaultKind, NoMemory};
use kb_context::{KEY_LIMIT, SCOPE_LIMIT};
use kb_jsonc::{Expected, Mismatch, Place};
use kb_layout::layout_mismatch;
use kb_places::{Source, Span};
use serde_json::Value;
use std::alloc::Global;

/// What the names of a scope are wrong in.
#[derive(Clone, Copy)]
enum Wrong<'v> {
    /// An earlier scope has this name.
    Repeated(&'v str),
    /// It is the first one, and has a parent.
    FirstWithParent,
    /// It isn't the first one, and has no parent.
    NoParent,
    /// No earlier scope has the name of its parent.
    UnknownParent(&'v str),
}

/// What is wrong with a layout: where, and a sentence.
pub(crate) fn layout_culprit(
    alloc: Global,
    source: &Source<'_>,
    kind: FaultKind,
) -> Result<Said, NoMemory> {
    let value = source.value();
    let scopes = value.get("scopes").and_then(Value::as_array);
    let scopes = scopes.map(Vec::as_slice).unwrap_or(&[]);
    match layout_mismatch(value) {
        Some(found) => {
            let span = span_of_place(alloc, source, found.place)?;
            Ok((Some(span), shape_sentence(alloc, scopes, found)?))
        }
        None => in_scopes(alloc, source, scopes, kind),
    }
}

/// The sentence on the mismatch of a layout with these scopes.
fn shape_sentence(
    alloc: Global,
    scopes: &[Value],
    found: Mismatch<'_, Expected>,
) -> Result<String, NoMemory> {
    match found.place.entry {
        Some(scope) => scope_sentence(alloc, scopes.get(scope).map_or("", name_of), found),
        None => match found.expected {
            Expected::Object => format!(in alloc;
                "a layout has to be an object with the member `scopes`"
            ),
            Expected::Present => format!(in alloc; "the layout has no member `scopes`"),
            Expected::List => format!(in alloc; "`scopes` has to be a list of scopes"),
            _ => format!(in alloc; "`focus` has to be a text, the name of a scope"),
        },
    }
}

/// The sentence on the mismatch of a scope of this name.
fn scope_sentence(
    alloc: Global,
    name: &str,
    found: Mismatch<'_, Expected>,
) -> Result<String, NoMemory> {
    if let Some(key) = found.place.inner {
        return format!(in alloc;
            "the value of `{key}` in the scope `{name}` has to be true, false, a whole number, a text, \
                a list of texts or an object"
        );
    }
    match found.place.member {
        "" => format!(in alloc; "a scope has to be an object with the member `name`"),
        "name" if found.expected == Expected::Present => {
            format!(in alloc; "this scope has no member `name`")
        }
        "name" => format!(in alloc; "`name` has to be a text"),
        "parent" => format!(in alloc; "`parent` of the scope `{name}` has to be a text"),
        _ => format!(in alloc;
            "`keys` of the scope `{name}` has to be an object with the context keys"
        ),
    }
}

/// A sentence about a part of a file.
pub(crate) fn said(alloc: Global, span: Span, sentence: &str) -> Result<Said, NoMemory> {
    Ok((Some(span), String::from_str(alloc, sentence)?))
}

/// What is wrong with the scopes of a layout as a tree, or else with its focus.
fn in_scopes(
    alloc: Global,
    source: &Source<'_>,
    scopes: &[Value],
    kind: FaultKind,
) -> Result<Said, NoMemory> {
    let span = span_of_place(alloc, source, Place::in_file("scopes"))?;
    if kind == FaultKind::TooManyKeys {
        let limit = grouped(alloc, KEY_LIMIT)?;
        let sentence = format!(in alloc; "all scopes together have more than {limit} keys")?;
        return Ok((Some(span), sentence));
    }
    if scopes.is_empty() || scopes.len() > SCOPE_LIMIT {
        let limit = grouped(alloc, SCOPE_LIMIT)?;
        let sentence = format!(in alloc; "a layout has to have 1 to {limit} scopes")?;
        return Ok((Some(span), sentence));
    }
    let Some((scope, wrong)) = first_wrong(scopes) else {
        return in_focus(alloc, source);
    };
    let place = Place::in_entry("scopes", scope, member_of(&wrong));
    let name = scopes.get(scope).map_or("", name_of);
    Ok((
        Some(span_of_place(alloc, source, place)?),
        sentence_of(alloc, name, &wrong)?,
    ))
}

/// The first scope whose names are wrong, by its place, and what they are wrong in.
fn first_wrong(scopes: &[Value]) -> Option<(usize, Wrong<'_>)> {
    for (place, scope) in scopes.iter().enumerate() {
        if let Some(wrong) = wrong_name(&scopes[..place], scope) {
            return Some((place, wrong));
        }
    }
    None
}

/// The name of a scope, or the empty text.
fn name_of(scope: &Value) -> &str {
    scope.get("name").and_then(Value::as_str).unwrap_or("")
}

/// What is wrong with the focus of a layout, which is no scope.
fn in_focus(alloc: Global, source: &Source<'_>) -> Result<Said, NoMemory> {
    let span = span_of_place(alloc, source, Place::in_file("focus"))?;
    let name = source.value().get("focus").and_then(Value::as_str);
    let name = name.unwrap_or("");
    let sentence = format!(in alloc;
        "`focus` has to be the name of a scope, and no scope has the name `{name}`"
    )?;
    Ok((Some(span), sentence))
}

/// The member of a scope that is wrong.
fn member_of(wrong: &Wrong<'_>) -> &'static str {
    match wrong {
        Wrong::Repeated(_) | Wrong::NoParent => "name",
        Wrong::FirstWithParent | Wrong::UnknownParent(_) => "parent",
    }
}

/// The sentence on a scope of this name.
fn sentence_of(alloc: Global, name: &str, wrong: &Wrong<'_>) -> Result<String, NoMemory> {
    match wrong {
        Wrong::Repeated(name) => format!(in alloc; "an earlier scope has the name `{name}`"),
        Wrong::FirstWithParent => format!(in alloc;
            "the first scope, `{name}`, is the outermost one, and has no `parent`"
        ),
        Wrong::NoParent => format!(in alloc;
            "the scope `{name}` has no `parent`; only the first one may be without"
        ),
        Wrong::UnknownParent(parent) => format!(in alloc;
            "no earlier scope has the name `{parent}`, the `parent` of the scope `{name}`"
        ),
    }
}

/// What the names of a scope are wrong in, behind these scopes.
fn wrong_name<'v>(earlier: &[Value], scope: &'v Value) -> Option<Wrong<'v>> {
    let name = name_of(scope);
    if is_name_of_one(earlier, name) {
        return Some(Wrong::Repeated(name));
    }
    match scope.get("parent").and_then(Value::as_str) {
        Some(_) if earlier.is_empty() => Some(Wrong::FirstWithParent),
        Some(parent) if !is_name_of_one(earlier, parent) => Some(Wrong::UnknownParent(parent)),
        None if !earlier.is_empty() => Some(Wrong::NoParent),
        _ => None,
    }
}

/// Whether one of these scopes has a name.
fn is_name_of_one(scopes: &[Value], name: &str) -> bool {
    for scope in scopes {
        if scope.get("name").and_then(Value::as_str) == Some(name) {
            return true;
        }
    }
    false
}
