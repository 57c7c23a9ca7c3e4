//! Atoms: a key alone, or a key and what its value is compared with. An atom borrows its words from the
//! tokens. Parsing an atom allocates nothing, so its result is never `NoMemory`.
ghost use Rattle.std.specs.Prelude.{◌≡◌, ◌∷◌, [], IfOk, IfErr, MatchOption, if◌then◌else◌};
ghost use Rattle.kb_pattern.specs.Pattern.{flags_of};
ghost use Rattle.kb_when.specs.Clause.{key as key_clause, not_of, equals, compare, matches, member};
ghost use Rattle.kb_when.specs.Leaf.{clause_of_leaf};
ghost use Rattle.kb_when.specs.Tree.{clause_of};
ghost use Rattle.kb_when.specs.Words.{is_equal, is_unequal};
ghost use Rattle.kb_when.specs.Reading.{behind_key, behind_not, at_value, at_other, at_number, at_pattern};
ghost use Rattle.kb_when.specs.Parser.{clause_of_atom, clause_of_condition, ReadsAtom, FailsAt};

use crate::fault::WhenFault;
use crate::leaf::Leaf;
use crate::number::read_number;
use crate::operator::Operator;
use crate::token::Token;
use crate::tree::Tree;
use crate::words::{is_reserved, is_word};
use kb_base::{HashedText, NoMemory, Text};
use kb_pattern::{Flags, Pattern};
use std::alloc::Global;
use std::rc::Rc;

/// An atom, with words borrowed from the tokens.
#[derive(Clone, Copy)]
pub(crate) enum Atom<'t> {
    /// `true`.
    True,
    /// `false`.
    False,
    /// A key alone.
    Key(&'t Text),
    /// A key and the text that its value must equal.
    Equals(&'t Text, &'t Text),
    /// A key and the number with which its value is compared.
    Compare(&'t Text, Operator, i64),
    /// A key, the pattern that its value must match, and the letters of the pattern's flags.
    Matches(&'t Text, &'t Text, &'t Text),
    /// A key, and the key of the list or object that must contain its value.
    Member(&'t Text, &'t Text),
}

/// An atom, or the negation of one.
#[derive(Clone, Copy)]
pub(crate) struct Condition<'t> {
    /// Whether the atom is negated.
    pub(crate) negated: bool,
    /// The atom.
    pub(crate) atom: Atom<'t>,
}

/// The first token, and the tokens after it.
pub(crate) fn next(tokens: &[Token]) -> Option<(&Token, &[Token])>
    ensures { MatchOption result (tokens.now ≡ []) (λ p. tokens.now ≡ p.0.now ∷ p.1.now) }
{
    tokens.split_first()
}

/// Parses the rest of an atom that begins with a key. Errors: `Unexpected` and `BadNumber`.
pub(crate) fn key_tail<'t>(
    key: &'t Text,
    tokens: &'t [Token],
) -> Result<(Condition<'t>, &'t [Token]), WhenFault>
    ensures ok { IfOk result (λ r.
        ReadsAtom (behind_key key.now) tokens.now (clause_of_condition r.0) r.1.now) }
    ensures err { IfErr result (FailsAt (behind_key key.now) tokens.now) }
{
    let Some((first, rest)) = next(tokens) else {
        return Ok((plain(Atom::Key(key)), tokens));
    };
    match first {
        Token::Equal => value(key, true, rest),
        Token::Unequal => value(key, false, rest),
        Token::Comparison(operator) => number(key, *operator, rest),
        Token::Like => pattern(key, rest),
        Token::Word(word) => {
            if is_word(word, "in") {
                return other(key, true, rest);
            }
            if is_word(word, "not") {
                return no_member(key, rest);
            }
            Err(WhenFault::Unexpected)
        }
        _ => Ok((plain(Atom::Key(key)), tokens)),
    }
}

/// An atom that is not negated.
pub(crate) fn plain(atom: Atom<'_>) -> Condition<'_>
    ensures { clause_of_condition result ≡ clause_of_atom atom.entry }
{
    Condition {
        negated: false,
        atom,
    }
}

/// Parses the value after `==` (`equal`) or `!=`. Error: `Unexpected`.
fn value<'t>(
    key: &'t Text,
    equal: bool,
    tokens: &'t [Token],
) -> Result<(Condition<'t>, &'t [Token]), WhenFault>
    ensures ok { IfOk result (λ r.
        ReadsAtom (at_value equal key.now) tokens.now (clause_of_condition r.0) r.1.now) }
    ensures err { IfErr result (FailsAt (at_value equal key.now) tokens.now) }
{
    let Some((first, rest)) = next(tokens) else {
        return Err(WhenFault::Unexpected);
    };
    match first {
        Token::Word(value) => Ok((equal_word(key, equal, value), rest)),
        Token::Quoted(value) => Ok((equal_text(key, equal, value), rest)),
        _ => Err(WhenFault::Unexpected),
    }
}

/// The condition `key == 'value'`, negated unless `equal`.
fn equal_text<'t>(key: &'t Text, equal: bool, value: &'t Text) -> Condition<'t>
    ensures { clause_of_condition result ≡
        (if equal then equals key.now value.now else not_of (equals key.now value.now)) }
{
    Condition {
        negated: !equal,
        atom: Atom::Equals(key, value),
    }
}

/// The condition `key == value` for an unquoted word, negated unless `equal`. For the words `true` and
/// `false`, the condition is whether the key alone holds.
fn equal_word<'t>(key: &'t Text, equal: bool, value: &'t Text) -> Condition<'t>
    ensures { clause_of_condition result ≡
        (if equal then is_equal key.now value.now else is_unequal key.now value.now) }
{
    if is_word(value, "true") {
        return Condition {
            negated: !equal,
            atom: Atom::Key(key),
        };
    }
    if is_word(value, "false") {
        return Condition {
            negated: equal,
            atom: Atom::Key(key),
        };
    }
    equal_text(key, equal, value)
}

/// Parses the number after a comparison. Errors: `BadNumber` for a word or a quoted text that is not a
/// number, and `Unexpected` for anything else.
fn number<'t>(
    key: &'t Text,
    operator: Operator,
    tokens: &'t [Token],
) -> Result<(Condition<'t>, &'t [Token]), WhenFault>
    ensures ok { IfOk result (λ r.
        ReadsAtom (at_number operator key.now) tokens.now (clause_of_condition r.0) r.1.now) }
    ensures err { IfErr result (FailsAt (at_number operator key.now) tokens.now) }
{
    let Some((first, rest)) = next(tokens) else {
        return Err(WhenFault::Unexpected);
    };
    match first {
        Token::Word(word) => match read_number(word.as_str()) {
            Some(number) => Ok((plain(Atom::Compare(key, operator, number)), rest)),
            None => Err(WhenFault::BadNumber),
        },
        Token::Quoted(_) => Err(WhenFault::BadNumber),
        _ => Err(WhenFault::Unexpected),
    }
}

/// Parses the pattern after `=~`. Error: `Unexpected`.
fn pattern<'t>(
    key: &'t Text,
    tokens: &'t [Token],
) -> Result<(Condition<'t>, &'t [Token]), WhenFault>
    ensures ok { IfOk result (λ r.
        ReadsAtom (at_pattern key.now) tokens.now (clause_of_condition r.0) r.1.now) }
    ensures err { IfErr result (FailsAt (at_pattern key.now) tokens.now) }
{
    let Some((first, rest)) = next(tokens) else {
        return Err(WhenFault::Unexpected);
    };
    match first {
        Token::Pattern(text, letters) => Ok((plain(Atom::Matches(key, text, letters)), rest)),
        _ => Err(WhenFault::Unexpected),
    }
}

/// Parses the other key after `in` (`inside`) or `not in`. Error: `Unexpected`.
fn other<'t>(
    key: &'t Text,
    inside: bool,
    tokens: &'t [Token],
) -> Result<(Condition<'t>, &'t [Token]), WhenFault>
    ensures ok { IfOk result (λ r.
        ReadsAtom (at_other inside key.now) tokens.now (clause_of_condition r.0) r.1.now) }
    ensures err { IfErr result (FailsAt (at_other inside key.now) tokens.now) }
{
    let Some((first, rest)) = next(tokens) else {
        return Err(WhenFault::Unexpected);
    };
    match first {
        Token::Word(word) => {
            if is_reserved(word) {
                return Err(WhenFault::Unexpected);
            }
            Ok((among(key, inside, word), rest))
        }
        _ => Err(WhenFault::Unexpected),
    }
}

/// The condition `key in other`, negated unless `inside`.
fn among<'t>(key: &'t Text, inside: bool, other: &'t Text) -> Condition<'t>
    ensures { clause_of_condition result ≡
        (if inside then member key.now other.now else not_of (member key.now other.now)) }
{
    Condition {
        negated: !inside,
        atom: Atom::Member(key, other),
    }
}

/// Parses `in` and the other key, after `not`. Error: `Unexpected`.
fn no_member<'t>(
    key: &'t Text,
    tokens: &'t [Token],
) -> Result<(Condition<'t>, &'t [Token]), WhenFault>
    ensures ok { IfOk result (λ r.
        ReadsAtom (behind_not key.now) tokens.now (clause_of_condition r.0) r.1.now) }
    ensures err { IfErr result (FailsAt (behind_not key.now) tokens.now) }
{
    let Some((first, rest)) = next(tokens) else {
        return Err(WhenFault::Unexpected);
    };
    match first {
        Token::Word(word) => {
            if !is_word(word, "in") {
                return Err(WhenFault::Unexpected);
            }
            other(key, false, rest)
        }
        _ => Err(WhenFault::Unexpected),
    }
}

/// The tree of an atom. Error: `NoMemory`.
fn leaf_tree(alloc: Global, leaf: Leaf) -> Result<Tree, NoMemory>
    ensures { IfOk result (λ t. clause_of t ≡ clause_of_leaf leaf) }
{
    Ok(Tree::atom(Rc::new(alloc, leaf)?))
}

/// A copy of a key, with its hash. Error: `NoMemory`.
fn hashed(key: &Text) -> Result<HashedText, NoMemory>
    ensures { IfOk result (λ made. made ≡ key.now) }
{
    Ok(HashedText::new(key.copied()?))
}

/// The tree of a key alone. Error: `NoMemory`.
fn key_tree(alloc: Global, key: &Text) -> Result<Tree, NoMemory>
    ensures { IfOk result (λ t. clause_of t ≡ key_clause key.now) }
{
    leaf_tree(alloc, Leaf::Key(hashed(key)?))
}

/// Copies of a key and of a text. Error: `NoMemory`.
fn both(key: &Text, text: &Text) -> Result<(HashedText, Text), NoMemory>
    ensures { IfOk result (λ texts. texts ≡ (key.now, text.now)) }
{
    let key = hashed(key)?;
    Ok((key, text.copied()?))
}

/// The tree of a key and the text that its value must equal. Error: `NoMemory`.
fn equal_tree(alloc: Global, key: &Text, value: &Text) -> Result<Tree, NoMemory>
    ensures { IfOk result (λ t. clause_of t ≡ equals key.now value.now) }
{
    let (key, value) = both(key, value)?;
    leaf_tree(alloc, Leaf::Equals(key, value))
}

/// The tree of a key and the number with which its value is compared. Error: `NoMemory`.
fn compare_tree(
    alloc: Global,
    key: &Text,
    operator: Operator,
    number: i64,
) -> Result<Tree, NoMemory>
    ensures { IfOk result (λ t. clause_of t ≡ compare key.now operator number) }
{
    leaf_tree(alloc, Leaf::Compare(hashed(key)?, operator, number))
}

/// The tree of a key and the pattern that its value must match. Error: `NoMemory`.
fn matching_tree(alloc: Global, key: &Text, text: &Text, letters: &Text) -> Result<Tree, NoMemory>
    ensures { IfOk result (λ t. clause_of t ≡ matches key.now text.now (flags_of letters.now)) }
{
    let (key, text) = both(key, text)?;
    let pattern = Pattern::new(alloc, text, Flags::of(letters.as_str()))?;
    leaf_tree(alloc, Leaf::Matches(key, pattern))
}

/// The tree of a key, and the key of the list or object that must contain its value. Error: `NoMemory`.
fn member_tree(alloc: Global, key: &Text, other: &Text) -> Result<Tree, NoMemory>
    ensures { IfOk result (λ t. clause_of t ≡ member key.now other.now) }
{
    let (key, other) = both(key, other)?;
    leaf_tree(alloc, Leaf::Member(key, HashedText::new(other)))
}

impl Atom<'_> {
    ghost use Rattle.kb_when.specs.Parser.{clause_of_atom};

    fn tree(self, alloc: Global) -> Result<Tree, NoMemory>
        ensures { IfOk result (λ t. clause_of t ≡ clause_of_atom self.entry) }
    {
        match self {
            Atom::True => Ok(Tree::always()),
            Atom::False => Ok(Tree::never()),
            Atom::Key(key) => key_tree(alloc, key),
            Atom::Equals(key, value) => equal_tree(alloc, key, value),
            Atom::Compare(key, operator, number) => compare_tree(alloc, key, operator, number),
            Atom::Matches(key, text, letters) => matching_tree(alloc, key, text, letters),
            Atom::Member(key, other) => member_tree(alloc, key, other),
        }
    }
}

impl Condition<'_> {
    ghost use Rattle.kb_when.specs.Parser.{clause_of_condition};

    /// The tree of the condition, with copies of its words. Error: `NoMemory`.
    pub(crate) fn tree(self, alloc: Global) -> Result<Tree, NoMemory>
        ensures { IfOk result (λ t. clause_of t ≡ clause_of_condition self.entry) }
    {
        let tree = self.atom.tree(alloc)?;
        if !self.negated {
            return Ok(tree);
        }
        Ok(Tree::negation(Box::new(alloc, tree)?))
    }
}
