//! Evaluation of clauses.
ghost use Rattle.std.specs.Prelude.{◌≡◌, true, false, not, IfOk, IfErr, option_copied};
ghost use Rattle.std.specs.FinMap.{get};
ghost use Rattle.std.specs.List.{list_any};
ghost use Rattle.std.specs.Str.{bytes_eq};
ghost use Rattle.kb_context.specs.Scopes.{context};
ghost use Rattle.kb_when.specs.Value.{key_holds, equals_holds, compare_holds, match_holds, member_holds};

use crate::leaf::Leaf;
use crate::number::{is_spelling, read_number};
use crate::operator::Operator;
use itoa::Buffer;
use kb_base::{HashedText, NoMemory, Seq, Text};
use kb_context::{ContextValue, Scopes};
use kb_pattern::Pattern;
use std::alloc::Global;

/// Whether a key alone holds: its value is not absent, `false`, 0 or the empty text.
fn key_of(value: Option<&ContextValue>) -> bool
    ensures { result ≡ key_holds (option_copied value.entry) }
{
    match value {
        None => false,
        Some(ContextValue::Truth(truth)) => *truth,
        Some(ContextValue::Number(number)) => *number != 0,
        Some(ContextValue::Text(text)) => !text.as_str().is_empty(),
        Some(ContextValue::Texts(_)) => true,
        Some(ContextValue::Names(_)) => true,
    }
}

/// Whether a key's value is this text, or a number whose decimal form is this text.
fn equals_of(value: Option<&ContextValue>, text: &str) -> bool
    ensures { result ≡ equals_holds (option_copied value.entry) text.now }
{
    match value {
        Some(ContextValue::Text(found)) => found.as_str() == text,
        Some(ContextValue::Number(number)) => is_spelling(text, *number),
        _ => false,
    }
}

/// Whether a key's value is a number, or the text of a number, for which the comparison holds.
fn compare_of(value: Option<&ContextValue>, operator: Operator, number: i64) -> bool
    ensures { result ≡ compare_holds (option_copied value.entry) operator number }
{
    match value {
        Some(ContextValue::Number(found)) => operator.compares(*found, number),
        Some(ContextValue::Text(text)) => match read_number(text.as_str()) {
            Some(found) => operator.compares(found, number),
            None => false,
        },
        _ => false,
    }
}

/// Whether the pattern matches somewhere in a key's value. A number is matched in its decimal form, a
/// boolean as `true` or `false`. Error: `NoMemory`, only if the pattern is not marked as unread.
fn match_of(
    alloc: Global,
    value: Option<&ContextValue>,
    pattern: &Pattern,
) -> Result<bool, NoMemory>
    ensures value { IfOk result (λ holds.
        holds ≡ match_holds (option_copied value.entry) pattern.now) }
    ensures memory { IfErr result (λ _. pattern.now.unread ≡ false) }
{
    match value {
        Some(ContextValue::Text(text)) => pattern.matches(alloc, text.as_str()),
        Some(ContextValue::Number(number)) => {
            let mut buffer = Buffer::new();
            pattern.matches(alloc, buffer.format(*number))
        }
        Some(ContextValue::Truth(truth)) => {
            pattern.matches(alloc, if *truth { "true" } else { "false" })
        }
        _ => Ok(false),
    }
}

fn contains(texts: &Seq<Text>, text: &str) -> bool
    ensures { result ≡ list_any (bytes_eq text.now) texts.now }
{
    for item in texts.as_slice() {
        if text == item.as_str() {
            return true;
        }
    }
    false
}

/// Whether a key's value is a text that is an element of the other key's list, or a member's name of its
/// object.
fn member_of(value: Option<&ContextValue>, other: Option<&ContextValue>) -> bool
    ensures { result ≡ member_holds (option_copied value.entry) (option_copied other.entry) }
{
    match value {
        Some(ContextValue::Text(text)) => match other {
            Some(ContextValue::Texts(texts)) => contains(texts, text.as_str()),
            Some(ContextValue::Names(names)) => contains(names, text.as_str()),
            _ => false,
        },
        _ => false,
    }
}

/// Whether a key alone holds in these scopes.
fn key_in(scopes: &Scopes, key: &HashedText) -> bool
    ensures { result ≡ key_holds (get (context scopes.now.seen) key.now) }
{
    key_of(scopes.get_hashed(key))
}

/// Whether a key's value in these scopes is this text, or a number whose decimal form is this text.
fn equals_in(scopes: &Scopes, key: &HashedText, text: &Text) -> bool
    ensures { result ≡ equals_holds (get (context scopes.now.seen) key.now) text.now }
{
    equals_of(scopes.get_hashed(key), text.as_str())
}

/// Whether the comparison holds for a key's value in these scopes.
fn compare_in(scopes: &Scopes, key: &HashedText, operator: Operator, number: i64) -> bool
    ensures { result ≡ compare_holds (get (context scopes.now.seen) key.now) operator number }
{
    compare_of(scopes.get_hashed(key), operator, number)
}

/// Whether the pattern matches a key's value in these scopes. Error: `NoMemory`, only if the pattern is not
/// marked as unread.
fn match_in(
    alloc: Global,
    scopes: &Scopes,
    key: &HashedText,
    pattern: &Pattern,
) -> Result<bool, NoMemory>
    ensures value { IfOk result (λ holds.
        holds ≡ match_holds (get (context scopes.now.seen) key.now) pattern.now) }
    ensures memory { IfErr result (λ _. pattern.now.unread ≡ false) }
{
    match_of(alloc, scopes.get_hashed(key), pattern)
}

/// Whether the other key's value in these scopes contains this key's value.
fn member_in(scopes: &Scopes, key: &HashedText, other: &HashedText) -> bool
    ensures { result ≡
        member_holds (get (context scopes.now.seen) key.now) (get (context scopes.now.seen) other.now) }
{
    member_of(scopes.get_hashed(key), scopes.get_hashed(other))
}

impl Leaf {
    ghost use Rattle.kb_when.specs.Leaf.{marked_of_leaf};
    ghost use Rattle.kb_when.specs.Marked.{marked_value, marks_of};

    /// Whether the atom holds for the keys that are visible from the focus. Error: `NoMemory`, only if it has
    /// a pattern that is not marked as unread.
    pub fn holds(&self, alloc: Global, scopes: &Scopes) -> Result<bool, NoMemory>
        ensures value { IfOk result (λ holds.
            holds ≡ marked_value (context scopes.now.seen) (marked_of_leaf self.now)) }
        ensures memory { IfErr result (λ _. list_any not (marks_of (marked_of_leaf self.now)) ≡ true) }
    {
        match self {
            Leaf::Key(key) => Ok(key_in(scopes, key)),
            Leaf::Equals(key, text) => Ok(equals_in(scopes, key, text)),
            Leaf::Compare(key, operator, number) => {
                Ok(compare_in(scopes, key, *operator, *number))
            }
            Leaf::Matches(key, pattern) => match_in(alloc, scopes, key, pattern),
            Leaf::Member(key, other) => Ok(member_in(scopes, key, other)),
        }
    }
}
