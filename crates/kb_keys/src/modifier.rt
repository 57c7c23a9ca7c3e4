//! A single modifier of a key text.
ghost use Rattle.std.specs.Prelude.{◌≡◌, ◌<◌, length, option_map, slice_index, IfSome, IsTrue, true, false};
ghost use Rattle.std.specs.Str.{IsUtf8};
ghost use Rattle.kb_keys.specs.Modifier.{modifier_named, modifier_before, first_modifier, is_sign};

use crate::key_name::same_name;

/// A modifier key. Command on macOS, the Windows key on Windows and Meta on Linux are one modifier,
/// `Meta`, since VS Code's documentation has one row for them.
#[derive(Clone, Copy, Debug, PartialEq, Eq)]
pub(crate) enum Modifier {
    Ctrl,
    Shift,
    Alt,
    Meta,
}

impl Modifier {
    /// The modifier with this name, in any ASCII letter case. `cmd`, `win` and `meta` are accepted on
    /// every platform (our decision).
    pub(crate) fn named(word: &str) -> Option<Modifier>
        ensures { result ≡ modifier_named word.now }
    {
        match word {
            "ctrl" => Some(Modifier::Ctrl),
            "shift" => Some(Modifier::Shift),
            "alt" => Some(Modifier::Alt),
            "cmd" | "win" | "meta" => Some(Modifier::Meta),
            _ => Modifier::searched(word),
        }
    }

    /// The same for a word that isn't in lower case. It stays out of line for speed, since few words need it.
    #[inline(never)]
    fn searched(word: &str) -> Option<Modifier>
        ensures { result ≡ modifier_named word.now }
    {
        if same_name(word, "ctrl") {
            Some(Modifier::Ctrl)
        } else if same_name(word, "shift") {
            Some(Modifier::Shift)
        } else if same_name(word, "alt") {
            Some(Modifier::Alt)
        } else if same_name(word, "cmd") || same_name(word, "win") || same_name(word, "meta") {
            Some(Modifier::Meta)
        } else {
            None
        }
    }

    /// The modifier at the beginning of a text, followed by `+` or `-`, and the text after that separator.
    // No modifier's name contains a separator, so only the first separator of the text matters.
    #[tactic(auto, using(std::proofs::lemmas::Str::lead_after_ascii))]
    pub(crate) fn split(text: &str) -> Option<(Modifier, &str)>
        ensures first { option_map (λ p. (p.0, p.1.now)) result ≡ first_modifier text.now }
        ensures text { IfSome result (λ p. IsUtf8 p.1.now) }
        ensures shorter { IfSome result (λ p. length p.1.now < length text.now) }
    {
        let at = sign_at(text)?;
        let modifier = Modifier::named(&text[..at])?;
        Some((modifier, &text[at + 1..]))
    }
}

/// The index of the first `+` or `-` behind three to five bytes. The names of modifiers have as many, so a
/// separator at another index matters only if it is before this one, and then neither follows a modifier.
/// Three bytes of a key's name are compared, not all.
fn sign_at(text: &str) -> Option<usize>
    ensures word { modifier_before text.now result ≡ first_modifier text.now }
    ensures within { IfSome result (λ at. at < length text.now) }
    ensures ascii { IfSome result (λ at. slice_index text.now at < 128) }
{
    let bytes = text.as_bytes();
    if has_sign(bytes, 3) {
        Some(3)
    } else if has_sign(bytes, 4) {
        Some(4)
    } else if has_sign(bytes, 5) {
        Some(5)
    } else {
        None
    }
}

/// Whether a `+` or a `-` is at an index.
fn has_sign(bytes: &[u8], at: usize) -> bool
    ensures sign { IsTrue result → (at < length bytes.now) × (is_sign (slice_index bytes.now at) ≡ true) }
    ensures none { result ≡ false → at < length bytes.now → is_sign (slice_index bytes.now at) ≡ false }
{
    at < bytes.len() && (bytes[at] == b'+' || bytes[at] == b'-')
}
