//! What an atom asks of its key, in numbers, by which most atoms are decided without a look-up.
ghost use Rattle.std.specs.Prelude.{◌≡◌, ℕ, List, Option, IfSome, option_map};
ghost use Rattle.std.specs.FinMap.{get};
ghost use Rattle.kb_base.specs.Fingerprint.{IsBytes, fingerprint_of, start_of};
ghost use Rattle.kb_context.specs.Scopes.{Keys};
ghost use Rattle.kb_context.specs.Sights.{IsSeen, TellsSeen};
ghost use Rattle.kb_when.specs.Probe.{IsAnswer, asks_of, is_spelled, key_of, probe_of, text_of};
ghost use Rattle.kb_when.specs.declared.leaf.Leaf.{Leaf as LeafData};

use crate::leaf::Leaf;
use kb_base::{Fingerprint, TextStart};
use kb_context::{Seen, Sight};

/// What an atom asks of its key's value.
#[derive(Clone, Copy, Debug)]
pub(crate) enum Asks {
    /// Whether the key alone holds.
    Holds,
    /// Whether the value equals a text that begins like this.
    Equals(TextStart),
    /// Whether it is a text. If not, the atom doesn't hold.
    Text,
    /// What isn't at hand.
    Other,
}

/// The numbers of an atom's key, and what the atom asks of its value.
#[derive(Clone, Copy, Debug)]
pub(crate) struct Probe {
    pub(crate) key: Fingerprint,
    pub(crate) asks: Asks,
}

/// The numbers of a key.
fn numbers_of(key: &str) -> Fingerprint
    ensures numbers { result ≡ fingerprint_of key.now }
    ensures bytes { IsBytes key.now }
{
    Fingerprint::of(key)
}

/// The start of a text.
fn begin_of(text: &str) -> TextStart
    ensures start { result ≡ start_of text.now }
    ensures bytes { IsBytes text.now }
{
    TextStart::of(text)
}

/// Whether a value's text is the text that begins like `start`, or `None` if that isn't determined.
#[inline]
fn is_text(its: Option<TextStart>, start: &TextStart) -> Option<bool>
    ensures { (value : Option (List ℕ)) (text : List ℕ) → its ≡ option_map start_of value
        → start.now ≡ start_of text → IfSome value IsBytes → IsBytes text
        → IfSome result (λ same. same ≡ is_spelled value text) }
{
    let Some(its) = its else {
        return Some(false);
    };
    if !its.is(start) {
        return Some(false);
    }
    if start.is_exact() { Some(true) } else { None }
}

impl Asks {
    /// Whether an atom that asks this holds for a value, or `None` if the value itself has to be asked.
    #[inline]
    fn answer(&self, seen: &Seen) -> Option<bool>
        ensures { (leaf : LeafData) (keys : Keys) → self.now ≡ asks_of leaf → IsBytes (text_of leaf)
            → IsSeen (get keys (key_of leaf)) seen.now → IsAnswer keys leaf result }
    {
        match self {
            Asks::Holds => Some(seen.holds),
            Asks::Equals(start) => is_text(seen.start, start),
            Asks::Text => {
                if seen.is_text {
                    return None;
                }
                Some(false)
            }
            Asks::Other => None,
        }
    }
}

impl Probe {
    /// The probe of an atom.
    pub(crate) fn of(leaf: &Leaf) -> Probe
        ensures numbers { result ≡ probe_of leaf.now }
        ensures key { IsBytes (key_of leaf.now) }
        ensures text { IsBytes (text_of leaf.now) }
    {
        match leaf {
            Leaf::Key(key) => Probe {
                key: numbers_of(key.as_str()),
                asks: Asks::Holds,
            },
            Leaf::Equals(key, text) => Probe {
                key: numbers_of(key.as_str()),
                asks: Asks::Equals(begin_of(text.as_str())),
            },
            Leaf::Compare(key, _, _) => Probe {
                key: numbers_of(key.as_str()),
                asks: Asks::Other,
            },
            Leaf::Matches(key, _) => Probe {
                key: numbers_of(key.as_str()),
                asks: Asks::Other,
            },
            Leaf::Member(key, _) => Probe {
                key: numbers_of(key.as_str()),
                asks: Asks::Text,
            },
        }
    }

    /// Whether an atom with this probe holds, or `None` if it has to be evaluated.
    #[inline]
    pub(crate) fn answer(&self, sights: &[Sight]) -> Option<bool>
        ensures { (leaf : LeafData) (keys : Keys) → self.now ≡ probe_of leaf → IsBytes (key_of leaf)
            → IsBytes (text_of leaf) → TellsSeen keys sights.now → IsAnswer keys leaf result }
    {
        let Some(sight) = sights.get(self.key.hash()) else {
            return None;
        };
        match sight {
            Sight::Nothing => Some(false),
            Sight::Unknown => None,
            Sight::Key(seen) => {
                if !self.key.is(&seen.key) {
                    return None;
                }
                self.asks.answer(&seen.seen)
            }
        }
    }
}
