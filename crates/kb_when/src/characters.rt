//! Classes and runs of characters.
ghost use Rattle.std.specs.Prelude.{◌≡◌, ◌+◌, ◌≤◌, IfOk, IfSome, length, option_map};
ghost use Rattle.kb_base.specs.Blank.{is_blank};
ghost use Rattle.kb_when.specs.Characters.{begins_blank, ends_word, ends_at, skipped};
ghost use Rattle.kb_when.specs.Characters.{front, behind, bytes_of, behind_sign};

use kb_base::{NoMemory, Text};
use std::alloc::Global;

/// Whether a character is white space: space, tab, carriage return or line feed.
pub(crate) fn is_blank(character: char) -> bool
    ensures { result ≡ is_blank character }
{
    character == ' ' || character == '\t' || character == '\r' || character == '\n'
}

/// Whether the first character is white space.
pub(crate) fn begins_blank(characters: &[char]) -> bool
    ensures { result ≡ begins_blank characters.now }
{
    match characters.split_first() {
        Some((first, _)) => is_blank(*first),
        None => false,
    }
}

/// Whether a word ends before this character.
pub(crate) fn ends_word(character: char) -> bool
    ensures { result ≡ ends_word character }
{
    is_blank(character) || matches!(character, '(' | ')' | '\'' | '!' | '=' | '&' | '|')
}

/// The characters after leading white space.
pub(crate) fn skip_blanks(characters: &[char]) -> &[char]
    ensures value { result.now ≡ skipped characters.now }
    ensures len { length result.now ≤ length characters.now }
{
    for (i, character) in characters.iter().enumerate() {
        if !is_blank(*character) {
            return &characters[i..];
        }
    }
    &characters[characters.len()..]
}

/// The characters after a sign, or `None` if the characters do not begin with it.
pub(crate) fn after_sign<'c>(characters: &'c [char], sign: &[char]) -> Option<&'c [char]>
    ensures value { option_map (λ r. r.now) result ≡ behind_sign sign.now characters.now }
    ensures len { IfSome result (λ r. length r.now + length sign.now ≡ length characters.now) }
{
    let mut rest = characters;
    for expected in sign {
        match rest.split_first() {
            Some((first, more)) => {
                if *expected != *first {
                    return None;
                }
                rest = more;
            }
            None => return None,
        }
    }
    Some(rest)
}

/// The kind of character that ends a run of characters.
#[derive(Clone, Copy)]
pub(crate) enum Until {
    /// A character that ends a word.
    WordEnd,
    /// A single quote.
    Quote,
    /// A character that is not an ASCII letter.
    NoLetter,
}

impl Until {
    ghost use Rattle.kb_when.specs.Characters.{ends_at};

    fn is_at(self, character: char) -> bool
        ensures { result ≡ ends_at self character }
    {
        match self {
            Until::WordEnd => ends_word(character),
            Until::Quote => character == '\'',
            Until::NoLetter => !matches!(character, 'a'..='z' | 'A'..='Z'),
        }
    }
}

/// The characters before the end of the run, and the characters from there on.
pub(crate) fn split_run(characters: &[char], until: Until) -> (&[char], &[char])
    ensures front { result.0.now ≡ front (ends_at until) characters.now }
    ensures rest { result.1.now ≡ behind (ends_at until) characters.now }
    ensures len { length result.1.now ≤ length characters.now }
{
    for (i, character) in characters.iter().enumerate() {
        if until.is_at(*character) {
            return (&characters[..i], &characters[i..]);
        }
    }
    (characters, &characters[characters.len()..])
}

/// The text of characters. Error: `NoMemory`.
pub(crate) fn text_of(alloc: Global, characters: &[char]) -> Result<Text, NoMemory>
    ensures { IfOk result (λ text. text ≡ bytes_of characters.now) }
{
    let mut text = String::new(alloc);
    for character in characters {
        text.push(*character)?;
    }
    Ok(Text::from_string(text))
}
