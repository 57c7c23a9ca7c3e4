//! Texts with their hash.
ghost use Rattle.std.specs.Prelude.{◌≡◌, ◌<◌};
ghost use Rattle.kb_base.specs.HashedText.{hash_of};

use crate::text::Text;
use std::marker::Model;

/// The number of hashes.
pub const HASHES: usize = 1024;

/// A text with its hash, by which a [`crate::HashedMap`] finds it. Contracts see the bytes of the text.
#[derive(Debug, Drop)]
pub struct HashedText {
    text: Text,
    hash: usize,
}

impl Model for HashedText {
    ghost use Rattle.std.specs.Prelude.{◌≡◌, ℕ, List};
    ghost use Rattle.kb_base.specs.HashedText.{hash_of};

    ghost Value = { List ℕ };

    ghost view = { λ t. t.text };

    ghost invariant = { λ t. t.hash ≡ hash_of t.text };
}

/// The hash of a text, which is below `HASHES`.
#[tactic(auto, unfolding(crate::specs::HashedText::hash_of))]
pub(crate) fn hash_of(text: &str) -> usize
    ensures value { result ≡ hash_of text.now }
    ensures small { result < 1024 }
{
    let mut hash = 0;
    for byte in text.as_bytes() {
        hash = (hash * 31 + usize::from(*byte)) % HASHES;
    }
    hash
}

impl HashedText {
    /// The text with its hash.
    pub fn new(text: Text) -> HashedText
        ensures { result ≡ text }
    {
        let hash = hash_of(text.as_str());
        HashedText { text, hash }
    }

    /// The text.
    pub fn as_str(&self) -> &str
        ensures { result.now ≡ self.now }
    {
        self.text.as_str()
    }

    /// The hash of the text.
    pub(crate) fn hash(&self) -> usize
        ensures { result ≡ hash_of self.now }
    {
        self.hash
    }
}
