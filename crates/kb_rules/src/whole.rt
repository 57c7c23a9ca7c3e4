//! Whether all numbers in a JSON value are whole.
ghost use Rattle.std.specs.Prelude.{◌≡◌};
ghost use Rattle.serde_json.specs.View.{view, items_view, members_view};
ghost use Rattle.kb_rules.specs.Whole.{is_whole, items_whole, members_whole};

use serde_json::{Map, Value};

/// Whether each number in the value, at any depth, is whole within i64.
#[cycle(whole)]
pub(crate) fn has_whole_numbers(value: &Value) -> bool
    ensures { result ≡ is_whole (view value.now) }
{
    match value {
        Value::Null | Value::Bool(_) | Value::String(_) => true,
        Value::Number(number) => number.is_i64(),
        Value::Array(items) => all_items_whole(items),
        Value::Object(members) => all_members_whole(members),
    }
}

/// Whether each number in the items of a list is.
#[cycle(whole)]
fn all_items_whole(items: &Vec<Value>) -> bool
    ensures { result ≡ items_whole (items_view items.now.items) }
{
    for item in items {
        if !has_whole_numbers(item) {
            return false;
        }
    }
    true
}

/// Whether each number in the members of an object is.
#[cycle(whole)]
fn all_members_whole(members: &Map<String, Value>) -> bool
    ensures { result ≡ members_whole (members_view members.now.entries) }
{
    for (_name, member) in members.iter() {
        if !has_whole_numbers(member) {
            return false;
        }
    }
    true
}
