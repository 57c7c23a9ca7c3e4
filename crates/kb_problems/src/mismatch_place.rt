//! Where a mismatch of a file is.
use crate::entries::span_of_member;
use kb_base::NoMemory;
use kb_jsonc::Place;
use kb_places::{Source, Span, items};
use std::alloc::Global;

/// Where a place of a file is, or else where the last of its steps is that the file has.
pub(crate) fn span_of_place(
    alloc: Global,
    source: &Source<'_>,
    place: Place<'_>,
) -> Result<Span, NoMemory> {
    let whole = source.whole();
    let Some(list) = at_member(alloc, source, whole, place.list)? else {
        return Ok(whole);
    };
    let Some(entry) = at_item(alloc, source, list, place.entry)? else {
        return Ok(list);
    };
    let Some(member) = at_member(alloc, source, entry, place.member)? else {
        return Ok(entry);
    };
    let Some(item) = at_item(alloc, source, member, place.item)? else {
        return Ok(member);
    };
    let Some(inner) = place.inner else {
        return Ok(item);
    };
    Ok(span_of_member(alloc, source, item, inner)?.unwrap_or(item))
}

/// Where the member of a part of a file is, or the part itself for the empty name.
fn at_member(
    alloc: Global,
    source: &Source<'_>,
    part: Span,
    name: &str,
) -> Result<Option<Span>, NoMemory> {
    if name.is_empty() {
        return Ok(Some(part));
    }
    span_of_member(alloc, source, part, name)
}

/// Where an element of a part of a file is, or the part itself without one.
fn at_item(
    alloc: Global,
    source: &Source<'_>,
    part: Span,
    item: Option<usize>,
) -> Result<Option<Span>, NoMemory> {
    let Some(item) = item else {
        return Ok(Some(part));
    };
    let spans = items(alloc, source.plain().as_bytes(), part)?;
    Ok(spans.get(item).copied())
}
