//! Where the entries of a file are, by the parts that hold them.
ghost use Rattle.std.specs.Prelude.{◌≡◌, ◌==◌, ◌&&◌, IfOk, is_some, map, option_and_then, option_map};
ghost use Rattle.serde_json.specs.Find.{as_object};
ghost use Rattle.serde_json.specs.View.{view};
ghost use Rattle.kb_places.specs.Place.{member, step_data};
ghost use Rattle.kb_problems.specs.Placed.{is_alone, members_to, steps_in, value_in};

use kb_base::{NoMemory, Part};
use kb_places::{Source, Span, Step, items, last_member, members};
use serde_json::Value;
use std::alloc::Global;

/// The members that lead to a part of a `package.json`.
pub(crate) fn steps_to(part: Part) -> &'static [&'static str]
    ensures { map (λ name. name.now) result.now ≡ members_to part }
{
    match part {
        Part::Commands => &["contributes", "commands"],
        Part::Keybindings => &["contributes", "keybindings"],
        Part::Palette => &["contributes", "menus", "commandPalette"],
    }
}

/// Where the value at some members of a file is.
pub(crate) fn span_at(
    alloc: Global,
    source: &Source<'_>,
    names: &[&str],
) -> Result<Option<Span>, NoMemory> {
    let mut span = source.whole();
    for name in names {
        match span_of_member(alloc, source, span, name)? {
            Some(inner) => span = inner,
            None => return Ok(None),
        }
    }
    Ok(Some(span))
}

/// Where the value of a member of the object at a part of a file is.
pub(crate) fn span_of_member(
    alloc: Global,
    source: &Source<'_>,
    object: Span,
    name: &str,
) -> Result<Option<Span>, NoMemory> {
    let text = source.plain().as_bytes();
    let members = members(alloc, text, object)?;
    match last_member(alloc, text, members.as_slice(), name)? {
        Some(member) => Ok(Some(member.value)),
        None => Ok(None),
    }
}

/// The value behind some members, if it is there.
pub(crate) fn member_at<'v>(value: &'v Value, names: &[&str]) -> Option<&'v Value>
    ensures { option_map (λ v. view v.now) result
        ≡ value_in (map (λ name. name.now) names.now) (view value.now) }
{
    let mut found = value;
    for name in names {
        match found.get(*name) {
            Some(inner) => found = inner,
            None => return None,
        }
    }
    Some(found)
}

/// Where the entries of the list, or the lone object, at a part of a file are, in the order of the file.
pub(crate) fn entries_at(
    alloc: Global,
    source: &Source<'_>,
    span: Option<Span>,
) -> Result<Vec<Span>, NoMemory> {
    let Some(span) = span else {
        return Ok(Vec::new(alloc));
    };
    let text = source.plain().as_bytes();
    if text.get(span.begin) != Some(&b'{') {
        return items(alloc, text, span);
    }
    let mut spans = Vec::new(alloc);
    spans.push(span)?;
    Ok(spans)
}

/// Whether one object stands in place of the list at some members, and is the entry at a place.
fn is_alone(value: &Value, names: &[&str], place: usize) -> bool
    ensures { result ≡ is_alone (map (λ name. name.now) names.now) (view value.now) place }
{
    match member_at(value, names) {
        Some(found) => place == 0 && found.is_object(),
        None => false,
    }
}

/// The steps to some members.
fn member_steps<'a>(alloc: Global, names: &[&'a str]) -> Result<Vec<Step<'a>>, NoMemory>
    ensures { IfOk result (λ steps. map step_data steps.items ≡ map (λ name. member name.now) names.now) }
{
    let mut steps = Vec::new(alloc);
    for name in names {
        steps.push(Step::Member(*name))?;
    }
    Ok(steps)
}

/// The path to the entry at a place of the list at some members of a value.
#[tactic(auto, using(crate::proofs::PlacedLemmas::lone_path, crate::proofs::PlacedLemmas::item_path))]
pub(crate) fn path_to<'a>(
    alloc: Global,
    value: &Value,
    names: &[&'a str],
    place: usize,
) -> Result<Vec<Step<'a>>, NoMemory>
    ensures { IfOk result (λ path.
        map step_data path.items ≡ steps_in (map (λ name. name.now) names.now) (view value.now) place) }
{
    let mut path = member_steps(alloc, names)?;
    if is_alone(value, names, place) {
        return Ok(path);
    }
    path.push(Step::Item(place))?;
    Ok(path)
}
