//! The first place where a JSON value isn't what a layout has there. It is asked before a part of the layout
//! is made, so that a fault is never reported as refused memory. Nothing is allocated.
ghost use Rattle.std.specs.Prelude.{◌≡◌, None, Some, codes, is_none, is_some, option_map};
ghost use Rattle.std.specs.FinMap.{empty};
ghost use Rattle.std.specs.List.{list_any};
ghost use Rattle.std.specs.Result.{result_err};
ghost use Rattle.serde_json.specs.Find.{as_str, get};
ghost use Rattle.serde_json.specs.View.{view, items_view, members_view};
ghost use Rattle.kb_jsonc.specs.Mismatch.{fault_at, fault_of, path_of, unread};
ghost use Rattle.kb_jsonc.specs.Parts.{each, lacks, listed, optional, pairs_of};
ghost use Rattle.kb_layout.specs.Context.{value_of};
ghost use Rattle.kb_layout.specs.Layout.{key_of, keys_of, lacks_member, layout_of, record_of, scope_of};
ghost use Rattle.kb_layout.specs.Layout.{scopes_at, some_text, text_at};

use kb_jsonc::{Expected, Mismatch, Place, lacks};
use serde_json::{Map, Value};

/// The first place where a value isn't what a layout has there, or `None` where the value is a layout. Its
/// fault is that of `read_layout`. A missing member comes first: `scopes`, or else the first `name`. Then the
/// layout, `scopes`, each scope with its `name`, `parent` and `keys`, and `focus` last.
pub fn layout_mismatch(value: &Value) -> Option<Mismatch<'_, Expected>>
    ensures { option_map fault_at result ≡ result_err (layout_of (view value.now)) }
{
    if let Some(place) = missing_member(value) {
        return Some(Mismatch {
            place,
            expected: Expected::Present,
        });
    }
    wrong_layout(value)
}

/// The place of `scopes`, if a layout lacks it, or else that of the first `name` that a scope lacks.
#[tactic(auto, unfolding(crate::specs::Layout::lacks_member))]
fn missing_member(value: &Value) -> Option<Place<'_>>
    ensures { is_some result ≡ lacks_member (view value.now) }
{
    if lacks(value, "scopes") {
        return Some(Place::in_file("scopes"));
    }
    match value.get("scopes").and_then(Value::as_array) {
        Some(scopes) => nameless_scope(scopes),
        None => None,
    }
}

/// The place of the first name that a scope lacks.
fn nameless_scope(scopes: &[Value]) -> Option<Place<'_>>
    ensures { is_some result ≡ list_any (lacks (codes "name")) (listed (items_view scopes.now)) }
{
    for (scope, element) in scopes.iter().enumerate() {
        if lacks(element, "name") {
            return Some(in_scope(scope, "name"));
        }
    }
    None
}

/// A member of a scope, or all of the scope for the empty name.
fn in_scope<'v>(scope: usize, member: &'static str) -> Place<'v>
    ensures { path_of result ≡ record {
      list = codes "scopes";
      entry = Some scope;
      member = member.now;
      item = None;
      inner = None;
    } }
{
    Place::in_entry("scopes", scope, member)
}

/// What was expected at a place.
fn expected_at(place: Place<'_>, expected: Expected) -> Option<Mismatch<'_, Expected>>
    ensures { option_map fault_at result ≡ Some (fault_of expected) }
{
    Some(Mismatch { place, expected })
}

/// The first place where a value isn't what a layout has there, if no member is missing.
#[tactic(auto, unfolding(crate::specs::Layout::record_of), using(crate::proofs::ShapeLemmas::record_shape))]
fn wrong_layout(value: &Value) -> Option<Mismatch<'_, Expected>>
    ensures { option_map fault_at result ≡ unread (record_of (view value.now)) }
{
    if !value.is_object() {
        return expected_at(Place::in_file(""), Expected::Object);
    }
    if let Some(found) = wrong_scopes(value) {
        return Some(found);
    }
    if !may_have_text(value, "focus") {
        return expected_at(Place::in_file("focus"), Expected::Text);
    }
    None
}

/// The first place where the scopes that a value has aren't a list of scopes.
fn wrong_scopes(value: &Value) -> Option<Mismatch<'_, Expected>>
    ensures { option_map fault_at result ≡ unread (scopes_at (view value.now)) }
{
    match value.get("scopes").and_then(Value::as_array) {
        Some(scopes) => wrong_elements(scopes),
        None => expected_at(Place::in_file("scopes"), Expected::List),
    }
}

/// The first place where one of these elements isn't a scope.
#[tactic(auto, using(crate::proofs::ShapeLemmas::each_at_first, crate::proofs::ShapeLemmas::each_later))]
fn wrong_elements(elements: &[Value]) -> Option<Mismatch<'_, Expected>>
    ensures { option_map fault_at result
        ≡ unread (each scope_of (listed (items_view elements.now))) }
{
    for (scope, element) in elements.iter().enumerate() {
        if let Some(found) = wrong_scope(element, scope) {
            return Some(found);
        }
    }
    None
}

/// The first place where an element isn't a scope, if it is this one of the elements.
#[tactic(auto, unfolding(crate::specs::Layout::scope_of), using(crate::proofs::ShapeLemmas::scope_shape))]
fn wrong_scope(element: &Value, scope: usize) -> Option<Mismatch<'_, Expected>>
    ensures { option_map fault_at result ≡ unread (scope_of (view element.now)) }
{
    if !element.is_object() {
        return expected_at(in_scope(scope, ""), Expected::Object);
    }
    if !has_text(element, "name") {
        return expected_at(in_scope(scope, "name"), Expected::Text);
    }
    if !may_have_text(element, "parent") {
        return expected_at(in_scope(scope, "parent"), Expected::Text);
    }
    wrong_keys(element, in_scope(scope, "keys"))
}

/// The first place where the keys of a scope, which are at a place, aren't an object of context values.
fn wrong_keys<'v>(scope: &'v Value, place: Place<'v>) -> Option<Mismatch<'v, Expected>>
    ensures { option_map fault_at result
        ≡ unread (optional empty keys_of (get (codes "keys") (view scope.now))) }
{
    match scope.get("keys") {
        Some(keys) => wrong_object(keys, place),
        None => None,
    }
}

/// The first place where keys, which are at a place, aren't an object of context values.
fn wrong_object<'v>(keys: &'v Value, place: Place<'v>) -> Option<Mismatch<'v, Expected>>
    ensures { option_map fault_at result ≡ unread (keys_of (view keys.now)) }
{
    match keys {
        Value::Object(members) => match wrong_key(members) {
            Some(key) => expected_at(place.inner(key), Expected::KeyValue),
            None => None,
        },
        _ => expected_at(place, Expected::Object),
    }
}

/// The first of these members that is no context value.
#[tactic(auto, using(crate::proofs::ShapeLemmas::key_fails, crate::proofs::ShapeLemmas::key_goes_on))]
fn wrong_key(members: &Map<String, Value>) -> Option<&str>
    ensures { is_none result ≡ is_some (each key_of (pairs_of (members_view members.now.entries))) }
{
    for (name, member) in members.iter() {
        if !is_value(member) {
            return Some(name.as_str());
        }
    }
    None
}

/// Whether a value has a text as a member.
fn has_text(value: &Value, name: &str) -> bool
    ensures { result ≡ is_some (text_at name.now (view value.now)) }
{
    match value.get(name) {
        Some(member) => member.is_string(),
        None => false,
    }
}

/// Whether a member is a text, if a value has it.
fn may_have_text(value: &Value, name: &str) -> bool
    ensures { result ≡ is_some (optional None some_text (get name.now (view value.now))) }
{
    match value.get(name) {
        Some(member) => member.is_string(),
        None => true,
    }
}

/// Whether a value is a context value.
fn is_value(value: &Value) -> bool
    ensures { result ≡ is_some (value_of (view value.now)) }
{
    match value {
        Value::Null => false,
        Value::Bool(_) | Value::String(_) | Value::Object(_) => true,
        Value::Number(number) => number.is_i64(),
        Value::Array(elements) => are_texts(elements),
    }
}

/// Whether each of these values is a text.
#[tactic(auto, using(crate::proofs::ShapeLemmas::each_fails, crate::proofs::ShapeLemmas::each_goes_on))]
fn are_texts(elements: &[Value]) -> bool
    ensures { result ≡ is_some (each as_str (listed (items_view elements.now))) }
{
    for element in elements {
        if !element.is_string() {
            return false;
        }
    }
    true
}
