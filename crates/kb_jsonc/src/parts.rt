//! The parts of a JSON value, moved out of it, and whether it has them.
ghost use Rattle.std.specs.Prelude.{◌≡◌, ℕ, List, false, bytes_eq, option_map};
ghost use Rattle.serde_json.specs.Find.{get_member, as_str, as_object};
ghost use Rattle.serde_json.specs.View.{view, items_view, members_view};
ghost use Rattle.kb_jsonc.specs.Parts.{lacks, listed, elements_of, without_member, word_of};

use kb_base::Text;
use serde_json::{Map, Value};

/// The text that a value is, moved out of it, or `None` where it is something else.
pub fn text_in(value: Value) -> Option<Text>
    ensures { result ≡ as_str (view value) }
{
    match value {
        Value::String(text) => Some(Text::from_string(text)),
        _ => None,
    }
}

/// The text that a value is, moved out of it, or `None` where it is something else or empty.
pub fn word_in(value: Value) -> Option<Text>
    ensures { result ≡ word_of (view value) }
{
    let text = text_in(value)?;
    if text.as_str().is_empty() {
        return None;
    }
    Some(text)
}

/// The elements of the array that a value is, moved out of it in order, or `None` where it is something
/// else.
pub fn elements_in(value: Value) -> Option<Vec<Value>>
    ensures { option_map (λ list. listed (items_view list.items)) result ≡ elements_of (view value) }
{
    match value {
        Value::Array(elements) => Some(elements),
        _ => None,
    }
}

/// The members of the object that a value is, moved out of it, or `None` where it is something else.
pub fn members_in(value: Value) -> Option<Map<String, Value>>
    ensures { option_map (λ members. members_view members.entries) result ≡ as_object (view value) }
{
    match value {
        Value::Object(members) => Some(members),
        _ => None,
    }
}

/// A member, taken out of an object, or `None` where the object lacks it. The others stay.
pub fn take_member(members: &mut Map<String, Value>, name: &str) -> Option<Value>
    ensures member { option_map view result ≡ get_member name.now (members_view members.old.entries) }
    ensures rest { members_view members.new.entries
        ≡ without_member name.now (members_view members.old.entries) }
    ensures others { (other : List ℕ) → bytes_eq other name.now ≡ false
        → get_member other (members_view members.new.entries)
        ≡ get_member other (members_view members.old.entries) }
{
    members.remove(name)
}

/// Whether a value is an object without a member. What is no object lacks none.
pub fn lacks(value: &Value, name: &str) -> bool
    ensures { result ≡ lacks name.now (view value.now) }
{
    value.is_object() && value.get(name).is_none()
}
