//! The header of a message.
ghost use Rattle.std.specs.Prelude.{◌≡◌, ◌+◌, ◌<◌, ◌≤◌, ◌==◌, IfOk, length, option_map, position};
ghost use Rattle.std.specs.Char.{is_ascii_digit};
ghost use Rattle.std.specs.List.{before_first, list_all};
ghost use Rattle.kb_messages.specs.Header as words;
ghost use Rattle.kb_messages.specs.Header.{is_number, length_of, name_begins, trimmed, value_in};

use crate::fault::FrameFault;

/// The most bytes that a body may have.
const BODY_LIMIT: usize = 16_777_216;

/// The name in front of a length.
const NAME: &[u8] = b"Content-Length:";

/// Whether a text begins with the end of a line and a blank line.
fn ends_header(text: &[u8]) -> bool
    ensures { result ≡ words.ends_header text.now }
{
    text.starts_with(b"\r\n\r\n".as_slice())
}

/// The number of bytes before the first blank line and the end of the line before it, or of all bytes where
/// there is none.
pub(crate) fn header_len(text: &[u8]) -> usize
    ensures len { result ≡ words.header_len text.now }
    ensures within { result ≤ length text.now }
    ensures blank { result < length text.now → result + 4 ≤ length text.now }
{
    let mut at = 0;
    while at < text.len() && !ends_header(&text[at..]) {
        at += 1;
    }
    at
}

/// Whether a text begins with the name in front of a length, in any case.
fn name_begins(text: &[u8]) -> bool
    ensures { result ≡ name_begins text.now }
{
    text.len() >= 15 && text[..15].eq_ignore_ascii_case(NAME)
}

/// What stands behind the last name in front of a length, if there is one.
fn value_in(header: &[u8]) -> Option<&[u8]>
    ensures { option_map (λ value. value.now) result ≡ value_in header.now }
{
    let mut left = header.len();
    while left > 0 {
        left -= 1;
        if name_begins(&header[left..]) {
            return Some(&header[left + 15..]);
        }
    }
    None
}

/// The index of the first line feed, if there is one.
fn line_feed(text: &[u8]) -> Option<usize>
    ensures { result ≡ position (λ b. b == 10) text.now }
{
    text.iter().position(|byte| *byte == b'\n')
}

/// The first line of a text, without its end.
#[tactic(auto, using(crate::proofs::HeaderLemmas::line_ends))]
fn first_line(text: &[u8]) -> &[u8]
    ensures { result.now ≡ before_first (λ b. b == 10) text.now }
{
    match line_feed(text) {
        Some(end) => &text[..end],
        None => text,
    }
}

/// A text without blanks before and behind it.
fn trimmed(text: &[u8]) -> &[u8]
    ensures { result.now ≡ trimmed text.now }
{
    text.trim_ascii()
}

/// Whether all bytes of a text are digits.
fn are_digits(text: &[u8]) -> bool
    ensures { result ≡ list_all is_ascii_digit text.now }
{
    text.iter().all(|byte| byte.is_ascii_digit())
}

/// Whether a text is a number.
fn is_number(text: &[u8]) -> bool
    ensures { result ≡ is_number text.now }
{
    !text.is_empty() && are_digits(text)
}

/// The length that a text says. Errors: `WrongLength`, `TooLong`.
fn length_of(text: &[u8]) -> Result<usize, FrameFault>
    ensures length { result ≡ length_of text.now }
    ensures within { IfOk result (λ n. n ≤ 16777216) }
{
    if !is_number(text) {
        return Err(FrameFault::WrongLength);
    }
    let Ok(digits) = str::from_utf8(text) else {
        unreachable!()
    };
    match digits.parse::<usize>() {
        Ok(length) if length <= BODY_LIMIT => Ok(length),
        _ => Err(FrameFault::TooLong),
    }
}

/// The length of the body that a header says. Errors: `NoLength`, `WrongLength`, `TooLong`.
pub(crate) fn body_len(header: &[u8]) -> Result<usize, FrameFault>
    ensures length { result ≡ words.body_len header.now }
    ensures within { IfOk result (λ n. n ≤ 16777216) }
{
    let Some(value) = value_in(header) else {
        return Err(FrameFault::NoLength);
    };
    length_of(trimmed(first_line(value)))
}
