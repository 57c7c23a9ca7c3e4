//! Integers in texts.
ghost use Rattle.std.specs.Prelude.{◌≡◌};
ghost use Rattle.std.specs.Str.{bytes_eq};
ghost use Rattle.std.specs.Fmt.{signed_decimal};
ghost use Rattle.kb_when.specs.Number.{number_of};

use itoa::Buffer;

/// Parses an integer: an optional `-` and digits, within 64 signed bits. Leading zeros are allowed. `None`
/// for any other text.
pub(crate) fn read_number(text: &str) -> Option<i64>
    ensures { result ≡ number_of text.now }
{
    // Rust's `parse` accepts a leading `+`, but a clause does not.
    let bytes = text.as_bytes();
    if !bytes.is_empty() && bytes[0] == b'+' {
        return None;
    }
    text.parse().ok()
}

/// Whether a text is the decimal form of a number, without leading zeros.
pub(crate) fn is_spelling(text: &str, number: i64) -> bool
    ensures { result ≡ bytes_eq (signed_decimal number) text.now }
{
    let mut buffer = Buffer::new();
    buffer.format(number) == text
}
