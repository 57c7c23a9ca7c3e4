//! Context values whose text is JSON as it stands: whole numbers, and texts without escapes.
ghost use Rattle.std.specs.Prelude.{◌≡◌, ◌∷◌, ◌++◌, ◌<◌, ◌^◌, [], IfSome, true};
ghost use Rattle.std.specs.Fmt.{signed_decimal};
ghost use Rattle.std.specs.Int.Signed.{mag};
ghost use Rattle.std.specs.List.{list_all};
ghost use Rattle.kb_files.specs.PlainValue.{is_plain};

use itoa::Buffer;

/// The whole number that a text spells, without a leading zero or plus.
pub(crate) fn spelled_number(text: &str) -> Option<i64>
    ensures spelled { IfSome result (λ number. text.now ≡ signed_decimal number) }
    ensures within { IfSome result (λ number. mag number < 2 ^ 63) }
{
    let number = text.parse::<i64>().ok()?;
    let mut buffer = Buffer::new();
    if buffer.format(number) == text {
        Some(number)
    } else {
        None
    }
}

/// The text between two quotes, if it needs no escapes.
pub(crate) fn quoted_text(text: &str) -> Option<&str>
    ensures quoted { IfSome result (λ inner. text.now ≡ 34 ∷ (inner.now ++ 34 ∷ [])) }
    ensures plain { IfSome result (λ inner. list_all is_plain inner.now ≡ true) }
{
    let inner = text.strip_prefix('"')?.strip_suffix('"')?;
    if is_plain_text(inner) {
        Some(inner)
    } else {
        None
    }
}

fn is_plain_text(text: &str) -> bool
    ensures { result ≡ list_all is_plain text.now }
{
    text.as_bytes().iter().all(|byte| is_plain(*byte))
}

/// Whether a byte stands for itself between the quotes of JSON.
fn is_plain(byte: u8) -> bool
    ensures { result ≡ is_plain byte }
{
    byte >= 32 && byte != b'"' && byte != b'\\'
}
