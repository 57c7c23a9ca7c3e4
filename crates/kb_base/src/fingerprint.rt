//! Texts as a few numbers, which are compared where comparing texts would cost too much.
ghost use Rattle.std.specs.Prelude.{◌≡◌, ◌≤◌, ◌<◌, ◌^◌, ◌↔◌, IsTrue, drop, length, min};
ghost use Rattle.std.specs.Int.Digits.{number_from_digits};
ghost use Rattle.kb_base.specs.Fingerprint.{word_of, narrowed, fingerprint_of, start_of};
ghost use Rattle.kb_base.specs.HashedText.{hash_of};

use crate::hashed_text::hash_of;

/// The numbers of a text: its hash, its length, up to the largest number of 32 bits, and its first 32 bytes,
/// in words of eight. Texts of at most 32 bytes with the same numbers are the same.
#[derive(Clone, Copy, Debug)]
pub struct Fingerprint {
    hash: u32,
    length: u32,
    first: u64,
    second: u64,
    third: u64,
    fourth: u64,
}

/// The first eight bytes of a text as a number, and its length, up to the largest number of 32 bits. Texts of
/// at most eight bytes with the same numbers are the same.
#[derive(Clone, Copy, Debug)]
pub struct TextStart {
    word: u64,
    length: u32,
}

/// A number of 32 bits, or the largest one in place of a larger number.
pub(crate) fn narrow(number: usize) -> u32
    ensures { result ≡ narrowed number }
{
    u32::try_from(number).unwrap_or(u32::MAX)
}

/// These bytes as a number in base 256.
fn number_of(bytes: &[u8]) -> u64
    requires { length bytes.now ≤ 8 }
    ensures { result ≡ number_from_digits 256 bytes.now }
{
    let mut word = 0;
    for byte in bytes {
        word = word * 256 + u64::from(*byte);
    }
    word
}

/// The first eight bytes as a number, and the bytes behind them.
fn cut(bytes: &[u8]) -> (u64, &[u8])
    ensures word { result.0 ≡ word_of bytes.now }
    ensures rest { result.1.now ≡ drop 8 bytes.now }
{
    let (first, rest) = bytes.split_at(bytes.len().min(8));
    (number_of(first), rest)
}

impl Fingerprint {
    /// The numbers of a text.
    #[tactic(auto, unfolding(crate::specs::Fingerprint::fingerprint_of))]
    pub fn of(text: &str) -> Fingerprint
        ensures { result ≡ fingerprint_of text.now }
    {
        let (first, rest) = cut(text.as_bytes());
        let (second, rest) = cut(rest);
        let (third, rest) = cut(rest);
        let (fourth, _) = cut(rest);
        Fingerprint {
            hash: narrow(hash_of(text)),
            length: narrow(text.len()),
            first,
            second,
            third,
            fourth,
        }
    }

    /// The hash of the text.
    pub fn hash(&self) -> usize
        ensures { result ≡ self.now.hash }
    {
        self.hash as usize
    }

    /// Whether the text has at most 32 bytes, so that no other text has the same numbers.
    pub fn is_exact(&self) -> bool
        ensures { IsTrue result ↔ (self.now.length ≤ 32) }
    {
        self.length <= 32
    }

    /// Whether all numbers are the same.
    pub fn is(&self, other: &Fingerprint) -> bool
        ensures { IsTrue result ↔ (self.now ≡ other.now) }
    {
        self.first == other.first
            && self.hash == other.hash
            && self.length == other.length
            && self.second == other.second
            && self.third == other.third
            && self.fourth == other.fourth
    }
}

impl TextStart {
    /// The numbers of a text.
    #[tactic(auto, unfolding(crate::specs::Fingerprint::start_of))]
    pub fn of(text: &str) -> TextStart
        ensures { result ≡ start_of text.now }
    {
        let (word, _) = cut(text.as_bytes());
        TextStart {
            word,
            length: narrow(text.len()),
        }
    }

    /// Whether the text has at most eight bytes, so that no other text has the same numbers.
    pub fn is_exact(&self) -> bool
        ensures { IsTrue result ↔ (self.now.length ≤ 8) }
    {
        self.length <= 8
    }

    /// Whether both numbers are the same.
    pub fn is(&self, other: &TextStart) -> bool
        ensures { IsTrue result ↔ (self.now ≡ other.now) }
    {
        self.word == other.word && self.length == other.length
    }
}
