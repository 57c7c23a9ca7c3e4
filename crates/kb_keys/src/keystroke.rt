//! Keystrokes: a key with its modifiers.
ghost use Rattle.std.specs.Prelude.{◌≡◌, ◌<◌, ◌≤◌, ◌+◌, ◌++◌, string_bytes, string_len, Ok};
ghost use Rattle.std.specs.Prelude.{IfOk, OnOk, OnErr};
ghost use Rattle.std.specs.String.{string_capacity};
ghost use Rattle.kb_keys.specs.KeyName.{key_count};
ghost use Rattle.kb_keys.specs.Keystroke.{keystroke_of, spelling, split_of, ReadsFromLeft};
ghost use Rattle.kb_keys.specs.Keystroke.{number, stroke_count};
ghost use Rattle.kb_keys.specs.declared.keystroke.Keystroke.{Keystroke};

use crate::key_fault::KeyFault;
use crate::key_name::{KEYS, KeyName, LONGEST_NAME};
use crate::modifier::Modifier;
use crate::modifiers::Modifiers;
use kb_base::NoMemory;
use std::alloc::Global;

/// The number of bytes of the longest canonical text: all modifiers, then the longest name.
const LONGEST: usize = "ctrl+shift+alt+meta+".len() + LONGEST_NAME;

/// The number of keystrokes: each key with each of the 16 sets of modifiers.
pub const STROKES: usize = 1584;

/// A key that is pressed while modifiers are held. Two keystrokes are equal if their keys and modifiers
/// are.
// `Default` has no meaning here. The list in a chord needs it for its unused slots.
#[derive(Clone, Copy, Debug, Default, PartialEq, Eq, Hash)]
pub struct Keystroke {
    pub mods: Modifiers,
    pub key: KeyName,
}

impl Keystroke {
    /// Parses a key text: any number of modifiers (`ctrl`, `shift`, `alt`, `cmd`, `win`, `meta`), each
    /// followed by `+` or `-`, then the name of a key. Modifiers may come in any order and more than once.
    /// ASCII letter case is ignored. (`-` as a separator and repeated modifiers are our decision.) The
    /// text is neither split at spaces nor trimmed.
    ///
    /// Errors: `EmptyKey` (12) if no text follows the modifiers, and `UnknownKey` (10) if that text is not
    /// the name of a key. So `ctrl` is `UnknownKey`, `ctrl+` is `EmptyKey`, and `ctrl--` is `ctrl` with
    /// the key `-`.
    #[tactic(auto, unfolding(crate::specs::Keystroke::keystroke_of), using(crate::proofs::KeystrokeLaw::reads_from_left))]
    pub fn parse(text: &str) -> Result<Keystroke, KeyFault>
        ensures value { result ≡ keystroke_of text.now }

        // The meaning of `keystroke_of`, read from the left: a modifier and its separator add that
        // modifier to the keystroke of the text after them.
        ensures law { ReadsFromLeft keystroke_of }
    {
        let (mods, rest) = split_modifiers(text);
        if rest.is_empty() {
            return Err(KeyFault::EmptyKey);
        }
        match KeyName::named(rest) {
            Some(key) => Ok(Keystroke { mods, key }),
            None => Err(KeyFault::UnknownKey),
        }
    }

    /// The canonical text, which `parse` reads back: lower case, the modifiers in the order `ctrl`,
    /// `shift`, `alt`, `meta`, each followed by `+`, then the key's name (our decision). Error:
    /// `NoMemory`.
    pub fn text(self, alloc: Global) -> Result<String, NoMemory>
        ensures spelling { IfOk result (λ text. string_bytes text ≡ spelling self) }
        ensures reads_back { IfOk result (λ text. keystroke_of (string_bytes text) ≡ Ok self) }
    {
        let mut text = String::new(alloc);
        self.write_to(&mut text)?;
        Ok(text)
    }

    /// Appends the canonical text to a line. Error: `NoMemory`; the line is then unchanged.
    pub fn write_to(self, line: &mut String) -> Result<(), NoMemory>
        ensures ok { OnOk result (string_bytes line.new ≡ string_bytes line.old ++ spelling self) }
        ensures err { OnErr result (string_bytes line.new ≡ string_bytes line.old) }
        ensures reads_back { keystroke_of (spelling self) ≡ Ok self }
        ensures known { self.key < key_count }
    {
        line.reserve(LONGEST)?;
        self.write_reserved(line);
        Ok(())
    }

    /// The number of the keystroke, below `STROKES`. Different keystrokes have different numbers. The order
    /// of the numbers is our decision.
    #[tactic(auto, using(crate::proofs::KeystrokeNumber::number_apart))]
    pub fn number(self) -> usize
        ensures value { result ≡ number self }
        ensures fits { result < stroke_count }
        ensures known { self.key < key_count }
        ensures apart { (other : Keystroke) → other.key < key_count → number other ≡ number self
            → other ≡ self }
    {
        self.mods.number() * KEYS + self.key.number()
    }

    /// Appends the canonical text to a line that has enough reserved memory.
    fn write_reserved(self, line: &mut String)
        requires { string_len line.old + LONGEST ≤ string_capacity line.old }
        ensures spelling { string_bytes line.new ≡ string_bytes line.old ++ spelling self }
        ensures known { self.key < key_count }
    {
        line.push_str(self.mods.prefix()).unwrap();
        line.push_str(self.key.as_str()).unwrap();
    }
}

/// The modifiers at the beginning of a text, and the text after them.
fn split_modifiers(text: &str) -> (Modifiers, &str)
    ensures mods { result.0 ≡ (split_of text.now).mods }
    ensures rest { result.1.now ≡ (split_of text.now).rest }
{
    let mut mods = Modifiers::NONE;
    let mut rest = text;
    while let Some((modifier, after)) = Modifier::split(rest) {
        mods = mods.with(modifier);
        rest = after;
    }
    (mods, rest)
}
