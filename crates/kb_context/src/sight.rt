//! What the focus sees of context keys, at hand: by numbers, without a look-up by text.
ghost use Rattle.std.specs.Prelude.{◌≡◌, ◌<◌, ℕ, List, None, false, length, slice_set, option_copied};
ghost use Rattle.std.specs.Fmt.{signed_decimal};
ghost use Rattle.std.specs.FinMap.{get};
ghost use Rattle.kb_base.specs.Fingerprint.{IsBytes, fingerprint_of, start_of};
ghost use Rattle.kb_base.specs.HashedText.{hash_of};
ghost use Rattle.kb_context.specs.Scopes.{Keys};
ghost use Rattle.kb_context.specs.Sights.{AnyKey, IsSeen, Tells};

use crate::value::ContextValue;
use itoa::Buffer;
use kb_base::{Fingerprint, TextStart};

/// What a clause may ask of a key's value, in short.
#[derive(Clone, Copy, Debug)]
pub struct Seen {
    /// The first bytes of the text that the value equals: its own, or the decimal form of a number.
    pub start: Option<TextStart>,
    /// Whether the key alone holds: it is not absent, `false`, 0 or the empty text.
    pub holds: bool,
    /// Whether the value is a text.
    pub is_text: bool,
}

/// What the focus sees of the key of at most 32 bytes that has these numbers.
#[derive(Clone, Copy, Debug)]
pub struct SeenKey {
    /// The numbers of the key.
    pub key: Fingerprint,
    /// Its value.
    pub seen: Seen,
}

/// What the focus sees of the keys of one hash.
#[derive(Clone, Copy, Debug)]
pub enum Sight {
    /// It sees none of them.
    Nothing,
    /// That isn't at hand.
    Unknown,
    /// The value of one of them is at hand.
    Key(SeenKey),
}

/// The first bytes of a number's decimal form.
fn decimal_start(number: i64) -> TextStart
    ensures start { result ≡ start_of (signed_decimal number) }
    ensures bytes { IsBytes (signed_decimal number) }
{
    let mut buffer = Buffer::new();
    TextStart::of(buffer.format(number))
}

/// The first bytes of a text.
fn text_start(text: &str) -> TextStart
    ensures start { result ≡ start_of text.now }
    ensures bytes { IsBytes text.now }
{
    TextStart::of(text)
}

impl Seen {
    /// What a clause may ask of a value that is seen, or of a key that isn't.
    fn of(value: Option<&ContextValue>) -> Seen
        ensures { IsSeen (option_copied value.entry) result }
    {
        match value {
            Some(ContextValue::Truth(truth)) => Seen::without_text(*truth),
            Some(ContextValue::Number(number)) => Seen {
                start: Some(decimal_start(*number)),
                holds: *number != 0,
                is_text: false,
            },
            Some(ContextValue::Text(text)) => Seen {
                start: Some(text_start(text.as_str())),
                holds: !text.as_str().is_empty(),
                is_text: true,
            },
            Some(ContextValue::Texts(_)) => Seen::without_text(true),
            Some(ContextValue::Names(_)) => Seen::without_text(true),
            None => Seen::without_text(false),
        }
    }

    /// A value that equals no text.
    fn without_text(holds: bool) -> Seen
        ensures { result ≡ record { start = None; holds = holds; is_text = false } }
    {
        Seen {
            start: None,
            holds,
            is_text: false,
        }
    }
}

/// The numbers of a key.
fn numbers_of(key: &str) -> Fingerprint
    ensures numbers { result ≡ fingerprint_of key.now }
    ensures bytes { IsBytes key.now }
{
    Fingerprint::of(key)
}

/// Puts a sight in the place of the one of a hash.
pub(crate) fn put_sight(sights: &mut Vec<Sight>, hash: usize, sight: Sight)
    requires { hash < length sights.old.items }
    ensures { sights.new.items ≡ slice_set sights.old.items hash sight }
{
    sights[hash] = sight;
}

impl Sight {
    /// What the focus sees of the key with these numbers, with this value or unseen.
    fn of_numbers(key: Fingerprint, value: Option<&ContextValue>) -> Sight
        ensures { (keys : Keys) (text : List ℕ) (hash : ℕ) → key ≡ fingerprint_of text → IsBytes text
            → get keys text ≡ option_copied value.entry → Tells AnyKey keys hash result }
    {
        if key.is_exact() {
            Sight::Key(SeenKey {
                key,
                seen: Seen::of(value),
            })
        } else {
            Sight::Unknown
        }
    }

    /// The hash of a key, and what the focus sees of it, with this value or unseen.
    pub(crate) fn of(key: &str, value: Option<&ContextValue>) -> (usize, Sight)
        ensures hash { result.0 ≡ hash_of key.now }
        ensures small { result.0 < 1024 }
        ensures tells { (keys : Keys) (hash : ℕ) → get keys key.now ≡ option_copied value.entry
            → Tells AnyKey keys hash result.1 }
    {
        let numbers = numbers_of(key);
        (numbers.hash(), Sight::of_numbers(numbers, value))
    }
}
