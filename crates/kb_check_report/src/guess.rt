//! What the sentence of a problem guesses, as a change of its file.
use kb_guess::guess_in;
use kb_places::{Span, part_of};
use kb_problems::Problem;

/// A change of a file: another text in place of a part, which is in one line.
#[derive(Clone, Copy)]
pub(crate) struct Change<'p> {
    /// The part.
    pub(crate) span: Span,
    /// The text in its place.
    pub(crate) text: &'p str,
}

/// Whether a text stands for itself in a string of JSON.
fn is_plain(text: &str) -> bool {
    for byte in text.as_bytes() {
        if *byte == b'"' || *byte == b'\\' || *byte < b' ' {
            return false;
        }
    }
    true
}

/// Whether two neighbouring bytes are of one word.
fn is_joined(left: Option<&u8>, right: Option<&u8>) -> bool {
    match (left, right) {
        (Some(left), Some(right)) => left.is_ascii_alphanumeric() && right.is_ascii_alphanumeric(),
        _ => false,
    }
}

/// Whether a word stands at a place of a text, and doesn't go on before it or behind it.
fn is_word_at(text: &[u8], at: usize, word: &[u8]) -> bool {
    let end = at.saturating_add(word.len());
    if text.get(at..end) != Some(word) {
        return false;
    }
    let before = at.saturating_sub(1);
    let begins = at == 0 || !is_joined(text.get(before), word.first());
    begins && !is_joined(word.last(), text.get(end))
}

/// Where a word stands in a text, if it stands there once.
fn only_place(text: &[u8], word: &[u8]) -> Option<usize> {
    let mut found = None;
    for at in 0..text.len() {
        if is_word_at(text, at, word) {
            if found.is_some() {
                return None;
            }
            found = Some(at);
        }
    }
    found
}

/// The part of a file that a guess is about, of the value at a span.
fn part_meant(bytes: &[u8], span: Span, wrong: Option<&str>) -> Option<Span> {
    let value = part_of(bytes, span);
    let Some(word) = wrong else {
        return match value {
            [b'"', .., b'"'] => Some(Span {
                begin: span.begin.saturating_add(1),
                end: span.end.saturating_sub(1),
            }),
            _ => None,
        };
    };
    if word.is_empty() || !is_plain(word) {
        return None;
    }
    let at = only_place(value, word.as_bytes())?;
    let begin = span.begin.saturating_add(at);
    Some(Span {
        begin,
        end: begin.saturating_add(word.len()),
    })
}

/// The change that a problem guesses of its file, behind whose byte order mark these bytes stand.
pub(crate) fn change_of<'p>(bytes: &[u8], problem: &'p Problem) -> Option<Change<'p>> {
    let guess = guess_in(problem.sentence.as_str())?;
    if !is_plain(guess.right) {
        return None;
    }
    let span = part_meant(bytes, problem.span?, guess.wrong)?;
    Some(Change {
        span,
        text: guess.right,
    })
}
