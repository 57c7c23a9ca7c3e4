//! Where the items of a list and the members of an object are.
ghost use Rattle.std.specs.Prelude.{◌≡◌, ◌+◌, ◌<◌, true, if◌then◌else◌, [], ◌∷◌, ◌++◌, ◌&&◌, reverse, find};
ghost use Rattle.std.specs.Prelude.{IfOk, IsTrue, IsFalse, Some, None};
ghost use Rattle.std.specs.Str.{bytes_eq};
ghost use Rattle.serde_json.specs.Find.{as_str};
ghost use Rattle.serde_json.specs.View.{view};
ghost use Rattle.kb_places.specs.Children.{begins_name, has_name, is_name, opens, reads_as, says};
ghost use Rattle.kb_places.specs.Children.{AreItems, AreMembers, EndsItem, EndsString, IsGap};

use crate::scan::{skip, string_end, value_end};
use crate::span::{Span, part_of};
use kb_base::NoMemory;
use serde_json::Value;
use std::alloc::Global;

/// A member of an object.
#[derive(Clone, Copy, Debug)]
pub struct Member {
    /// Its name, with the quotes.
    pub name: Span,
    /// Its value.
    pub value: Span,
}

/// The index behind the bracket that a part of a text begins with.
fn behind_bracket(text: &[u8], part: Span, bracket: u8) -> Option<usize>
    ensures { result ≡ (if opens bracket text.now part then Some (part.begin + 1) else None) }
{
    if part.begin < part.end && part.end <= text.len() && text[part.begin] == bracket {
        Some(part.begin + 1)
    } else {
        None
    }
}

/// The items of the list at a part of a text, in order, or none where there is no list. Each byte is read at
/// most twice. Error: `NoMemory`.
#[tactic(auto, using(crate::proofs::ChildrenLemmas::one_more))]
pub fn items(alloc: Global, text: &[u8], list: Span) -> Result<Vec<Span>, NoMemory>
    ensures items { IfOk result (λ found.
        IsTrue (opens 91 text.now list) → AreItems text.now list found.items) }
    ensures none { IfOk result (λ found. IsFalse (opens 91 text.now list) → found.items ≡ []) }
{
    let mut found = Vec::new(alloc);
    let Some(first) = behind_bracket(text, list, b'[') else {
        return Ok(found);
    };
    let mut at = skip(text, first, b',');
    while at < list.end {
        let end = value_end(text, at);
        if end <= at {
            break;
        }
        found.push(Span { begin: at, end })?;
        at = skip(text, end, b',');
    }
    Ok(found)
}

/// Whether a name begins at an index.
fn begins_name(text: &[u8], index: usize) -> bool
    ensures { result ≡ begins_name text.now index }
{
    index < text.len() && text[index] == b'"'
}

/// The members of the object at a part of a text, in order, or none where there is no object. Each byte is
/// read at most twice. Error: `NoMemory`.
#[tactic(auto, using(crate::proofs::ChildrenLemmas::one_member_more))]
pub fn members(alloc: Global, text: &[u8], object: Span) -> Result<Vec<Member>, NoMemory>
    ensures members { IfOk result (λ found.
        IsTrue (opens 123 text.now object) → AreMembers text.now object found.items) }
    ensures none { IfOk result (λ found. IsFalse (opens 123 text.now object) → found.items ≡ []) }
{
    let mut found = Vec::new(alloc);
    let Some(first) = behind_bracket(text, object, b'{') else {
        return Ok(found);
    };
    let mut at = skip(text, first, b',');
    while at < object.end && begins_name(text, at) {
        let member = member_from(text, at);
        found.push(member)?;
        at = skip(text, member.value.end, b',');
    }
    Ok(found)
}

/// The member whose name begins at an index.
fn member_from(text: &[u8], from: usize) -> Member
    requires { begins_name text.now from ≡ true }
    ensures name { result.name.begin ≡ from }
    ensures between { IsGap text.now 58 result.name.end result.value.begin }
    ensures further { from < result.value.end }
    ensures named { EndsString text.now (from + 1) result.name.end }
    ensures valued { EndsItem text.now result.value }
{
    let behind = string_end(text, from + 1);
    let begin = skip(text, behind, b':');
    Member {
        name: Span {
            begin: from,
            end: behind,
        },
        value: Span {
            begin,
            end: value_end(text, begin),
        },
    }
}

/// Whether a text is this name and another one a quote.
fn are_name_and_quote(front: &[u8], name: &[u8], back: &[u8]) -> bool
    ensures { result ≡ (bytes_eq front.now name.now && bytes_eq back.now (34 ∷ [])) }
{
    front == name && back == b"\"".as_slice()
}

/// Whether a text is this name and a quote.
fn is_closed(text: &[u8], name: &[u8]) -> bool
    ensures { result ≡ bytes_eq text.now (name.now ++ 34 ∷ []) }
{
    if text.len() < name.len() {
        return false;
    }
    let (front, back) = text.split_at(name.len());
    are_name_and_quote(front, name, back)
}

/// Whether a text is this name in quotes.
fn is_quoted(text: &[u8], name: &[u8]) -> bool
    ensures { result ≡ bytes_eq text.now (34 ∷ name.now ++ 34 ∷ []) }
{
    match text {
        [first, rest @ ..] => *first == b'"' && is_closed(rest, name),
        [] => false,
    }
}

/// Whether a text is a string of JSON that reads as this name.
#[tactic(auto, using(crate::proofs::ChildrenLemmas::names))]
fn reads_as(alloc: Global, text: &[u8], name: &str) -> Result<bool, NoMemory>
    ensures { IfOk result (λ answer. answer ≡ reads_as name.now text.now) }
{
    let Ok(text) = str::from_utf8(text) else {
        return Ok(false);
    };
    match Value::from_str(alloc, text) {
        Ok(value) => Ok(is_text(&value, name)),
        Err(error) if error.is_memory() => Err(std::alloc::AllocError),
        Err(_) => Ok(false),
    }
}

/// Whether a value is this text.
fn is_text(value: &Value, name: &str) -> bool
    ensures { result ≡ says name.now (as_str (view value.now)) }
{
    match value.as_str() {
        Some(text) => text == name,
        None => false,
    }
}

/// Whether a name with its quotes is this one. A name without escapes is compared by its bytes.
fn is_name(alloc: Global, quoted: &[u8], name: &str) -> Result<bool, NoMemory>
    ensures { IfOk result (λ answer. answer ≡ is_name name.now quoted.now) }
{
    if quoted.contains(&b'\\') {
        reads_as(alloc, quoted, name)
    } else {
        Ok(is_quoted(quoted, name.as_bytes()))
    }
}

/// The last member of a name, as a file with several counts it. Error: `NoMemory`, where a name has escapes.
#[tactic(auto, using(crate::proofs::ChildrenLemmas::from_end, crate::proofs::ChildrenLemmas::passed_by))]
pub fn last_member(
    alloc: Global,
    text: &[u8],
    members: &[Member],
    name: &str,
) -> Result<Option<Member>, NoMemory>
    ensures { IfOk result (λ found. found ≡ find (has_name text.now name.now) (reverse members.now)) }
{
    for member in members.iter().rev() {
        if is_name(alloc, part_of(text, member.name), name)? {
            return Ok(Some(*member));
        }
    }
    Ok(None)
}
