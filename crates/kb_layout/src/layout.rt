//! Layouts, read from JSON.
ghost use Rattle.std.specs.Prelude.{◌≡◌, IfOk, IfErr, None, option_map, codes};
ghost use Rattle.std.specs.Result.{result_err};
ghost use Rattle.std.specs.FinMap.{empty, insert};
ghost use Rattle.serde_json.specs.Data.{object};
ghost use Rattle.serde_json.specs.Find.{as_str, get_member};
ghost use Rattle.serde_json.specs.View.{view, items_view, members_view};
ghost use Rattle.kb_base.specs.Failure.{Gives, IsRefusalOrMemory};
ghost use Rattle.kb_base.specs.Reading.{or_fault, seen};
ghost use Rattle.kb_jsonc.specs.declared.file_fault.FileFault.TheVariants.{WrongShape};
ghost use Rattle.kb_jsonc.specs.Parts.{each, optional, listed};
ghost use Rattle.kb_layout.specs.Context.{value_of};
ghost use Rattle.kb_layout.specs.Layout.{some_text, keys_of, list_of};
ghost use Rattle.kb_layout.specs.Layout.{names_of, scope_in, scope_of};
ghost use Rattle.kb_layout.specs.Layout.{first_name, record_in, record_of, layout_of};

use crate::context::read_context;
use crate::shape::layout_mismatch;
use kb_base::{Failure, NoMemory, Seq, Text, TextMap};
use kb_context::{ContextValue, Layout, LayoutScope};
use kb_jsonc::{FileFault, elements_in, members_in, take_member, text_in};
use serde_json::{Map, Value};
use std::alloc::Global;

/// The layout that a JSON value is, as in
/// `{"scopes":[{"name":"window","keys":{"k":1}},{"name":"editor","parent":"window"}],"focus":"editor"}`.
/// The format is our decision. `scopes` and each scope's `name` have to be there. A scope without
/// `parent` has none, one without `keys` has no key, and without `focus` the first scope has it, or
/// the empty text where there is no scope. Other members are ignored. Whether the scopes are a tree
/// is asked by `Scopes::new`.
///
/// Errors: `MissingMember` (40) where `scopes` or a `name` is absent, with or without other faults; what is
/// no object or no list lacks nothing. Then `WrongShape` (41) where the layout, a scope or `keys` is no
/// object, `scopes` no list, a `name`, a `parent` or the `focus` no text, or a key's value no context value:
/// `null` is there, and is none of these. `NoMemory` only if none of these applies.
#[tactic(auto, using(crate::proofs::ShapeLemmas::is_err, crate::proofs::ShapeLemmas::read_whole))]
pub fn read_layout(alloc: Global, value: Value) -> Result<Layout, Failure<FileFault>>
    ensures layout { Gives (λ layout. layout) result (layout_of (view value)) }

    // The shape is looked at before memory is asked for.
    ensures memory { IfErr result (IsRefusalOrMemory (result_err (layout_of (view value)))) }
{
    if let Some(found) = layout_mismatch(&value) {
        return Err(Failure::Fault(found.fault()));
    }
    read_record(alloc, value)
}

/// The layout that a value is, if each part has its shape.
#[tactic(auto, unfolding(crate::specs::Layout::record_of))]
fn read_record(alloc: Global, value: Value) -> Result<Layout, Failure<FileFault>>
    ensures { Gives (λ layout. layout) result (or_fault WrongShape (record_of (view value))) }
{
    let mut members = members_in(value).ok_or(FileFault::WrongShape)?;
    record_in(alloc, &mut members)
}

/// The layout that members are, taken out of them.
fn record_in(alloc: Global, members: &mut Map<String, Value>) -> Result<Layout, Failure<FileFault>>
    ensures { Gives (λ layout. layout) result
        (or_fault WrongShape (record_in (members_view members.old.entries))) }
{
    let elements = read_list(take_member(members, "scopes"))?;
    let scopes = read_scopes(alloc, elements)?;
    let focus = read_focus(alloc, take_member(members, "focus"), scopes.as_slice())?;
    Ok(Layout { scopes, focus })
}

/// The elements of a member that is an array.
fn read_list(member: Option<Value>) -> Result<Vec<Value>, FileFault>
    ensures { seen (λ elements. listed (items_view elements.items)) result
        ≡ or_fault WrongShape (list_of (option_map view member)) }
{
    match member {
        Some(list) => elements_in(list).ok_or(FileFault::WrongShape),
        None => Err(FileFault::WrongShape),
    }
}

/// The name of the scope that has the focus, that of the first one where the member is absent.
fn read_focus(
    alloc: Global,
    focus: Option<Value>,
    scopes: &[LayoutScope],
) -> Result<Text, Failure<FileFault>>
    ensures { Gives (λ name. name) result
        (or_fault WrongShape (optional (first_name scopes.now) as_str (option_map view focus))) }
{
    match focus {
        Some(focus) => Ok(text_in(focus).ok_or(FileFault::WrongShape)?),
        None => Ok(first_name(alloc, scopes)?),
    }
}

/// The name of the first scope, or the empty text where there is none.
fn first_name(alloc: Global, scopes: &[LayoutScope]) -> Result<Text, NoMemory>
    ensures { IfOk result (λ name. name ≡ first_name scopes.now) }
{
    match scopes {
        [first, ..] => first.name.copied(),
        [] => Ok(Text::new(alloc)),
    }
}

/// The scopes that the elements of a list are.
fn read_scopes(alloc: Global, elements: Vec<Value>) -> Result<Seq<LayoutScope>, Failure<FileFault>>
    ensures { Gives (λ scopes. scopes) result
        (or_fault WrongShape (each scope_of (listed (items_view elements.items)))) }
{
    let mut scopes = Seq::new(alloc);
    for element in elements {
        scopes.push(read_scope(alloc, element)?)?;
    }
    Ok(scopes)
}

/// The scope that an element is.
#[tactic(auto, unfolding(crate::specs::Layout::scope_of))]
fn read_scope(alloc: Global, element: Value) -> Result<LayoutScope, Failure<FileFault>>
    ensures { Gives (λ scope. scope) result (or_fault WrongShape (scope_of (view element))) }
{
    let mut members = members_in(element).ok_or(FileFault::WrongShape)?;
    scope_in(alloc, &mut members)
}

/// The scope that members are, taken out of them.
fn scope_in(
    alloc: Global,
    members: &mut Map<String, Value>,
) -> Result<LayoutScope, Failure<FileFault>>
    ensures { Gives (λ scope. scope) result
        (or_fault WrongShape (scope_in (members_view members.old.entries))) }
{
    let (name, parent) = names_in(members)?;
    let keys = read_keys(alloc, take_member(members, "keys"))?;
    Ok(LayoutScope { name, parent, keys })
}

/// The names of a scope and of the one around it, taken out of its members. The keys stay.
fn names_in(members: &mut Map<String, Value>) -> Result<(Text, Option<Text>), FileFault>
    ensures names { result ≡ or_fault WrongShape (names_of
        (get_member (codes "name") (members_view members.old.entries))
        (get_member (codes "parent") (members_view members.old.entries))) }
    ensures keys { get_member (codes "keys") (members_view members.new.entries)
        ≡ get_member (codes "keys") (members_view members.old.entries) }
{
    let name = take_member(members, "name")
        .and_then(text_in)
        .ok_or(FileFault::WrongShape)?;
    let parent = read_parent(take_member(members, "parent"))?;
    Ok((name, parent))
}

/// The name of the scope around a scope, if its member is there.
fn read_parent(parent: Option<Value>) -> Result<Option<Text>, FileFault>
    ensures { result ≡ or_fault WrongShape (optional None some_text (option_map view parent)) }
{
    match parent {
        Some(parent) => Ok(Some(text_in(parent).ok_or(FileFault::WrongShape)?)),
        None => Ok(None),
    }
}

/// The keys of a scope, none where the member is absent.
fn read_keys(
    alloc: Global,
    keys: Option<Value>,
) -> Result<TextMap<ContextValue>, Failure<FileFault>>
    ensures { Gives (λ keys. keys) result
        (or_fault WrongShape (optional empty keys_of (option_map view keys))) }
{
    match keys {
        Some(keys) => read_object(alloc, keys),
        None => Ok(TextMap::new(alloc)),
    }
}

/// The keys that an object has, each with its value.
fn read_object(alloc: Global, object: Value) -> Result<TextMap<ContextValue>, Failure<FileFault>>
    ensures { Gives (λ keys. keys) result (or_fault WrongShape (keys_of (view object))) }
{
    match object {
        Value::Object(members) => read_members(alloc, members),
        _ => Err(Failure::Fault(FileFault::WrongShape)),
    }
}

/// Puts a key in a map, with the value that a member is.
fn put_key(
    alloc: Global,
    keys: &mut TextMap<ContextValue>,
    name: Text,
    member: Value,
) -> Result<(), Failure<FileFault>>
    ensures { Gives (λ done. keys.new) result
        (or_fault WrongShape (option_map (insert keys.old name) (value_of (view member)))) }
{
    keys.insert(name, read_context(alloc, member)?)?;
    Ok(())
}

/// The keys that members are, put in a map one by one.
#[tactic(auto, using(crate::proofs::KeysLemmas::key_put, crate::proofs::KeysLemmas::key_fails))]
fn read_members(
    alloc: Global,
    members: Map<String, Value>,
) -> Result<TextMap<ContextValue>, Failure<FileFault>>
    ensures { Gives (λ keys. keys) result
        (or_fault WrongShape (keys_of (object (members_view members.entries)))) }
{
    let mut keys = TextMap::new(alloc);
    for (name, member) in members {
        put_key(alloc, &mut keys, Text::from_string(name), member)?;
    }
    Ok(keys)
}
