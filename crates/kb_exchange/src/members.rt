//! Where the strings of members are.
ghost use Rattle.std.specs.Prelude.{◌≡◌, ◌<◌, ◌++◌, ◌∷◌, [], false, length, map, slice_index, IfOk, OnOk};
ghost use Rattle.kb_base.specs.Blank.{is_blank};
ghost use Rattle.kb_exchange.specs.Span.{AreInOrder};
ghost use Rattle.kb_exchange.specs.Values as words;

use crate::strings::says;
use kb_base::{Failure, NoMemory, is_blank};
use kb_jsonc::{plain, string_len};
use kb_places::{Span, part_of};
use std::alloc::{AllocError, Global};

/// What the last tokens before an index are, as far as they tell whether a string there is the value of a
/// member.
#[derive(Clone, Copy, Debug)]
enum Before {
    /// Neither of the others.
    Other,
    /// A string, which may be the name of a member.
    String(Span),
    /// Such a string, and a colon.
    Colon(Span),
}

/// What the last tokens are behind a byte that is no token of a string.
fn behind_byte(before: Before, byte: u8) -> Before
    ensures { result ≡ words.behind_byte before byte }
{
    if is_blank(byte) {
        return before;
    }
    match before {
        Before::String(name) if byte == b':' => Before::Colon(name),
        _ => Before::Other,
    }
}

/// Whether a string of a text says one of these names.
#[tactic(auto, unfolding(crate::specs::Values::is_named))]
fn is_named(alloc: Global, text: &[u8], names: &[&str], name: Span) -> Result<bool, NoMemory>
    ensures { IfOk result (λ answer. answer ≡ words.is_named text.now (map (λ n. n.now) names.now) name) }
{
    let string = part_of(text, name);
    for name in names {
        if says(alloc, string, name)? {
            return Ok(true);
        }
    }
    Ok(false)
}

/// Whether a string behind these tokens is the value of a member with one of these names.
fn is_value(alloc: Global, text: &[u8], names: &[&str], before: Before) -> Result<bool, NoMemory>
    ensures { IfOk result
        (λ answer. answer ≡ words.is_value (words.is_named text.now (map (λ n. n.now) names.now)) before) }
{
    match before {
        Before::Colon(name) => is_named(alloc, text, names, name),
        _ => Ok(false),
    }
}

/// Where the strings are, with their quotes, that are values of members with these names, in a text without
/// comments, in order.
fn values_in(alloc: Global, text: &[u8], names: &[&str]) -> Result<Vec<Span>, NoMemory>
    ensures values { IfOk result
        (λ found. found.items ≡ words.values_in (map (λ n. n.now) names.now) text.now) }
    ensures order { IfOk result (λ found. AreInOrder 0 (length text.now) found.items) }
{
    let mut found = Vec::new(alloc);
    let mut before = Before::Other;
    let mut at = 0;
    while at < text.len() {
        if text[at] != b'"' {
            before = behind_byte(before, text[at]);
            at += 1;
            continue;
        }
        let Some(count) = string_len(&text[at + 1..]) else {
            return Ok(found);
        };
        let string = Span {
            begin: at,
            end: at + 1 + count,
        };
        if is_value(alloc, text, names, before)? {
            found.push(string)?;
        }
        before = Before::String(string);
        at = string.end;
    }
    Ok(found)
}

/// Where the strings are, with their quotes, that are values of members with these names, in a file of JSON
/// with comments, in order. A file that isn't UTF-8, or has a comment or a string without its end, has none.
/// The time is linear in the file.
///
/// Error: `NoMemory`.
#[tactic(auto, using(crate::proofs::ValuesLemmas::in_file))]
pub fn values(alloc: Global, file: &[u8], names: &[&str]) -> Result<Vec<Span>, NoMemory>
    ensures values { IfOk result
        (λ found. found.items ≡ words.values_of (map (λ n. n.now) names.now) file.now) }
    ensures order { IfOk result (λ found. AreInOrder 0 (length file.now) found.items) }
{
    let Ok(text) = str::from_utf8(file) else {
        return Ok(Vec::new(alloc));
    };
    match plain(alloc, text) {
        Ok(plain) => values_in(alloc, plain.as_bytes(), names),
        Err(Failure::NoMemory) => Err(AllocError),
        Err(Failure::Fault(_)) => Ok(Vec::new(alloc)),
    }
}
