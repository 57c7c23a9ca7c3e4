//! Leaves of trees: atoms that own their texts.
ghost use Rattle.std.specs.Prelude.{◌≡◌};
ghost use Rattle.std.specs.Str.{bytes_eq};

use crate::operator::Operator;
use kb_base::{HashedText, Text};
use kb_pattern::Pattern;

/// An atom with its own texts, and its keys with their hashes. The tree and the flat form of a clause share
/// it.
#[derive(Debug, Drop)]
pub enum Leaf {
    /// A key alone.
    Key(HashedText),
    /// A key and the text that its value must equal.
    Equals(HashedText, Text),
    /// A key and the number with which its value is compared.
    Compare(HashedText, Operator, i64),
    /// A key and the pattern that its value must match.
    Matches(HashedText, Pattern),
    /// A key, and the key of the list or object that must contain its value.
    Member(HashedText, HashedText),
}

fn same_text(one: &Text, other: &Text) -> bool
    ensures { result ≡ bytes_eq one.now other.now }
{
    one.as_str() == other.as_str()
}

fn same_key(one: &HashedText, other: &HashedText) -> bool
    ensures { result ≡ bytes_eq one.now other.now }
{
    one.as_str() == other.as_str()
}

impl Leaf {
    ghost use Rattle.kb_when.specs.Same.{same, is_key, is_equals, is_compare, is_matches, is_member};
    ghost use Rattle.kb_when.specs.Leaf.{clause_of_leaf};

    /// Whether this is the key alone.
    fn is_key(&self, key: &HashedText) -> bool
        ensures { result ≡ is_key key.now (clause_of_leaf self.now) }
    {
        match self {
            Leaf::Key(other) => same_key(key, other),
            _ => false,
        }
    }

    /// Whether this is the key with the same text.
    fn is_equals(&self, key: &HashedText, text: &Text) -> bool
        ensures { result ≡ is_equals key.now text.now (clause_of_leaf self.now) }
    {
        match self {
            Leaf::Equals(other, value) => same_key(key, other) && same_text(text, value),
            _ => false,
        }
    }

    /// Whether this is the key with the same comparison and the same number.
    fn is_compare(&self, key: &HashedText, operator: Operator, number: i64) -> bool
        ensures { result ≡ is_compare key.now operator number (clause_of_leaf self.now) }
    {
        match self {
            Leaf::Compare(other, by, with) => {
                same_key(key, other) && operator.is(*by) && number == *with
            }
            _ => false,
        }
    }

    /// Whether this is the key with the same pattern.
    fn is_matches(&self, key: &HashedText, pattern: &Pattern) -> bool
        ensures { result ≡
            is_matches key.now pattern.now.text pattern.now.flags (clause_of_leaf self.now) }
    {
        match self {
            Leaf::Matches(other, with) => same_key(key, other) && pattern.is(with),
            _ => false,
        }
    }

    /// Whether this is the key with the same list or object.
    fn is_member(&self, key: &HashedText, among: &HashedText) -> bool
        ensures { result ≡ is_member key.now among.now (clause_of_leaf self.now) }
    {
        match self {
            Leaf::Member(other, list) => same_key(key, other) && same_key(among, list),
            _ => false,
        }
    }

    /// Whether both leaves are the same atom. The marks of patterns are not compared.
    pub fn same(&self, other: &Leaf) -> bool
        ensures { result ≡ same (clause_of_leaf self.now) (clause_of_leaf other.now) }
    {
        match self {
            Leaf::Key(key) => other.is_key(key),
            Leaf::Equals(key, text) => other.is_equals(key, text),
            Leaf::Compare(key, operator, number) => other.is_compare(key, *operator, *number),
            Leaf::Matches(key, pattern) => other.is_matches(key, pattern),
            Leaf::Member(key, among) => other.is_member(key, among),
        }
    }
}
