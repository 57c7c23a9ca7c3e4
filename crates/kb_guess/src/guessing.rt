//! What a sentence guesses.
ghost use Rattle.std.specs.Prelude.{◌≡◌, option_map};
ghost use Rattle.kb_guess.specs.Guessing as words;
ghost use Rattle.kb_guess.specs.Guessing.{meant};

use crate::cutting::{around, before, behind, without_end};

/// What is wrong in a value, and what would stand in its place. Both are parts of the sentence.
#[derive(Clone, Copy, Debug, PartialEq, Eq)]
pub struct Guess<'s> {
    /// The word that is wrong, or `None` for the whole value.
    pub wrong: Option<&'s str>,
    /// The text in its place.
    pub right: &'s str,
}

/// What stands before the end of a quotation.
fn until_quote(text: &str) -> Option<&str>
    ensures { option_map (λ part. part.now) result ≡ words.until_quote text.now }
{
    if let Some(front) = before(text, "` meant?") {
        return Some(front);
    }
    if let Some(front) = before(text, "`; ") {
        return Some(front);
    }
    without_end(text, "`")
}

/// A word and another one in its place, if both are there.
fn pair<'s>(wrong: Option<&'s str>, right: Option<&'s str>) -> Option<Guess<'s>>
    ensures { option_map meant result
        ≡ words.pair (option_map (λ w. w.now) wrong.entry) (option_map (λ w. w.now) right.entry) }
{
    match (wrong, right) {
        (Some(wrong), Some(right)) => Some(Guess {
            wrong: Some(wrong),
            right,
        }),
        _ => None,
    }
}

/// The word and the one in its place that a sentence quotes on both sides of a mark.
fn quoted<'s>(sentence: &'s str, mark: &str) -> Option<Guess<'s>>
    ensures { option_map meant result ≡ words.quoted mark.now sentence.now }
{
    match around(sentence, mark) {
        Some((front, back)) => pair(behind(front, "`"), until_quote(back)),
        None => None,
    }
}

/// The text that a sentence has in the place of the whole value.
fn whole(sentence: &str) -> Option<Guess<'_>>
    ensures { option_map meant result ≡ words.whole sentence.now }
{
    let back = behind(sentence, "; write `")?;
    let right = until_quote(back)?;
    Some(Guess { wrong: None, right })
}

/// The keystroke with a comma that a sentence on commas quotes, and the same without it.
fn without_comma(sentence: &str) -> Option<Guess<'_>>
    ensures { option_map meant result ≡ words.without_comma sentence.now }
{
    if around(sentence, "have a space between them, and no comma").is_none() {
        return None;
    }
    let back = behind(sentence, "`")?;
    let wrong = before(back, "`; ")?;
    pair(Some(wrong), without_end(wrong, ","))
}

/// What a sentence quotes on both sides of one of its marks.
fn quoted_by_any(sentence: &str) -> Option<Guess<'_>>
    ensures { option_map meant result ≡ words.quoted_by_any sentence.now }
{
    if let Some(guess) = quoted(sentence, "`; write `") {
        return Some(guess);
    }
    if let Some(guess) = quoted(sentence, "`; is `") {
        return Some(guess);
    }
    quoted(sentence, "`; on a US keyboard it is `")
}

/// What a sentence on a problem, as `keycheck check` says it, would have in the place of what it quotes, or
/// `None` if it says nothing of the kind. It is an answer to "`WRONG`; write `RIGHT`", "`WRONG`; is `RIGHT`
/// meant?", "`WRONG`; on a US keyboard it is `RIGHT`" and "; write `RIGHT`", and to a sentence on a comma
/// behind a keystroke. Which sentences count is our decision.
pub fn guess_in(sentence: &str) -> Option<Guess<'_>>
    ensures { option_map meant result ≡ words.guess_in sentence.now }
{
    if let Some(guess) = quoted_by_any(sentence) {
        return Some(guess);
    }
    match whole(sentence) {
        Some(guess) => Some(guess),
        None => without_comma(sentence),
    }
}
