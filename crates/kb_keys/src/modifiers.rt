//! Sets of modifiers.
ghost use Rattle.std.specs.Prelude.{◌≡◌, ◌<◌, ◌≤◌, length};
ghost use Rattle.kb_keys.specs.Modifiers.{with_modifier, bit, set_number, spelled};

use crate::modifier::Modifier;

/// The beginnings of canonical texts, by the number of the set of modifiers. Only for speed: a press writes
/// one.
const PREFIXES: [&str; 16] = [
    "",
    "meta+",
    "alt+",
    "alt+meta+",
    "shift+",
    "shift+meta+",
    "shift+alt+",
    "shift+alt+meta+",
    "ctrl+",
    "ctrl+meta+",
    "ctrl+alt+",
    "ctrl+alt+meta+",
    "ctrl+shift+",
    "ctrl+shift+meta+",
    "ctrl+shift+alt+",
    "ctrl+shift+alt+meta+",
];

/// The set of modifiers that are held. `meta` is Command on macOS, the Windows key on Windows, and Meta on
/// Linux.
#[derive(Clone, Copy, Debug, Default, PartialEq, Eq, Hash)]
pub struct Modifiers {
    pub ctrl: bool,
    pub shift: bool,
    pub alt: bool,
    pub meta: bool,
}

impl Modifiers {
    /// The empty set.
    pub const NONE: Modifiers = Modifiers {
        ctrl: false,
        shift: false,
        alt: false,
        meta: false,
    };

    /// These modifiers and one more. Adding one that is already held changes nothing.
    pub(crate) fn with(self, modifier: Modifier) -> Modifiers
        ensures { result ≡ with_modifier modifier self }
    {
        match modifier {
            Modifier::Ctrl => Modifiers { ctrl: true, ..self },
            Modifier::Shift => Modifiers {
                shift: true,
                ..self
            },
            Modifier::Alt => Modifiers { alt: true, ..self },
            Modifier::Meta => Modifiers { meta: true, ..self },
        }
    }

    /// The beginning of the canonical text: the modifiers in the order `ctrl`, `shift`, `alt`, `meta`, each
    /// followed by `+`.
    pub(crate) fn prefix(self) -> &'static str
        ensures spelling { result.now ≡ spelled self }
        ensures short { length result.now ≤ 20 }
    {
        let prefixes = PREFIXES.as_slice();
        prefixes[self.number()]
    }

    /// The number of the set, below 16.
    pub(crate) fn number(self) -> usize
        ensures value { result ≡ set_number self }
        ensures fits { result < 16 }
    {
        ((bit(self.ctrl) * 2 + bit(self.shift)) * 2 + bit(self.alt)) * 2 + bit(self.meta)
    }
}

/// 1 if a modifier is held.
fn bit(held: bool) -> usize
    ensures value { result ≡ bit held }
    ensures fits { result < 2 }
{
    if held { 1 } else { 0 }
}
