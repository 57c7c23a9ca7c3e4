//! Where values of a JSON text end. The text is taken to be JSON: of any other text the answers are some
//! index.
ghost use Rattle.std.specs.Prelude.{◌+◌, ◌≡◌, ◌≤◌, ◌<◌, false, length, slice_index};
ghost use Rattle.kb_places.specs.Children as words;
ghost use Rattle.kb_places.specs.Children.{is_closing, is_separator, EndsString, IsGap};

use kb_base::is_blank;
use kb_jsonc::string_len;

/// The index behind the string whose first byte behind the quote is at `from`, or the end of the text if the
/// string isn't closed.
pub(crate) fn string_end(text: &[u8], from: usize) -> usize
    ensures least { from ≤ result }
    ensures ends { EndsString text.now from result }
{
    if from > text.len() {
        return from;
    }
    match string_len(&text[from..]) {
        Some(count) => from + count,
        None => text.len(),
    }
}

/// Whether a byte ends a number or a word.
fn ends_word(byte: u8) -> bool
    ensures { result ≡ words.ends_word byte }
{
    is_blank(byte) || matches!(byte, b',' | b':' | b']' | b'}' | b'[' | b'{' | b'"')
}

/// The index behind the number or the word that begins at `from`.
fn word_end(text: &[u8], from: usize) -> usize
    ensures least { from ≤ result }
    ensures further { from < length text.now → words.ends_word (slice_index text.now from) ≡ false
        → from < result }
{
    let mut at = from;
    while at < text.len() && !ends_word(text[at]) {
        at += 1;
    }
    at
}

/// The index behind the list or the object that begins at `from`.
fn bracket_end(text: &[u8], from: usize) -> usize
    ensures { from < length text.now → from < result }
{
    let mut depth = 0usize;
    let mut at = from;
    while at < text.len() {
        match text[at] {
            b'"' => at = string_end(text, at + 1),
            b'[' | b'{' => {
                depth = depth.saturating_add(1);
                at += 1;
            }
            b']' | b'}' => {
                at += 1;
                if depth <= 1 {
                    return at;
                }
                depth -= 1;
            }
            _ => at += 1,
        }
    }
    text.len()
}

/// The index behind the value that begins at `from`.
pub(crate) fn value_end(text: &[u8], from: usize) -> usize
    ensures further { from < length text.now → is_separator 44 (slice_index text.now from) ≡ false
        → is_closing (slice_index text.now from) ≡ false → from < result }
    ensures least { result < from → result ≡ length text.now }
    ensures string { from < length text.now → slice_index text.now from ≡ 34
        → EndsString text.now (from + 1) result }
{
    if from >= text.len() {
        return text.len();
    }
    match text[from] {
        b'"' => string_end(text, from + 1),
        b'[' | b'{' => bracket_end(text, from),
        _ => word_end(text, from),
    }
}

/// The index of the first byte from `from` on that is neither blank nor this sign.
pub(crate) fn skip(text: &[u8], from: usize, sign: u8) -> usize
    ensures gap { IsGap text.now sign from result }
    ensures end { result < length text.now → is_separator sign (slice_index text.now result) ≡ false }
{
    let mut at = from;
    while at < text.len() && (is_blank(text[at]) || text[at] == sign) {
        at += 1;
    }
    at
}
