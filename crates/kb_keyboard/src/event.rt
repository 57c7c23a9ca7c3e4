//! From an event of a browser or a toolkit to a keystroke.
ghost use Rattle.std.specs.Prelude.{◌≡◌};
ghost use Rattle.kb_keyboard.specs.Event as words;

use crate::naming::key_at;
use crate::tables::is_silent;
use kb_keys::{Keystroke, Modifiers, Platform};

/// The modifiers that are held.
#[derive(Clone, Copy, Debug, PartialEq, Eq)]
pub struct Held {
    pub ctrl: bool,
    pub shift: bool,
    pub alt: bool,
    /// Command on macOS, the Windows key on Windows, Meta or Super on Linux.
    pub meta: bool,
    /// AltGr: `getModifierState("AltGraph")`. It is no modifier of key rules.
    pub alt_graph: bool,
}

/// A press of a key, as `KeyboardEvent` tells it.
#[derive(Clone, Copy, Debug)]
pub struct KeyEvent<'e> {
    /// The place of the key: `KeyboardEvent.code`, such as `KeyZ`. Empty where it isn't known.
    pub code: &'e str,
    /// What it means or writes: `KeyboardEvent.key`, such as `y`, `Enter` or `Dead`.
    pub key: &'e str,
    /// The modifiers that are held.
    pub held: Held,
}

/// What a press of a key is for key rules.
#[derive(Clone, Copy, Debug, PartialEq, Eq)]
pub enum Pressed {
    /// No press: a modifier alone, a lock, or a step of an input method. A host ignores it.
    Silent,
    /// A key that no rule can name. A host leaves an open chord by it.
    Nameless,
    /// A keystroke.
    Named(Keystroke),
}

/// The modifiers of key rules that are held. On Windows AltGr is ctrl and alt for some toolkits; then neither
/// is held.
fn modifiers_of(held: Held, platform: Platform) -> Modifiers
    ensures { result ≡ words.modifiers_of held platform }
{
    let writes = held.alt_graph && platform == Platform::Windows;
    Modifiers {
        ctrl: held.ctrl && !writes,
        shift: held.shift,
        alt: held.alt && !writes,
        meta: held.meta,
    }
}

/// The keystroke that an event is.
///
/// The key's name is the one by which a rule with a scan code is respelled ([`crate::respell`]): of a key
/// that the layout doesn't change what it means, of a digit its place, else the letter or, without Shift, the
/// sign that it writes, and if rules have no name for that the place. A dead key has the name of its place.
/// This is how VS Code names keys, as far as `code` and `key` tell it; modifiers are those of VS Code's
/// `keyboard.mapAltGrToCtrlAlt: false`.
#[tactic(auto, unfolding(crate::specs::Event::keystroke_of))]
pub fn keystroke_of(event: KeyEvent<'_>, platform: Platform) -> Pressed
    ensures { result ≡ words.keystroke_of event.entry.code.now event.entry.key.now event.entry.held platform }
{
    if is_silent(event.key) {
        return Pressed::Silent;
    }
    match key_at(event.code, event.key, event.held.shift) {
        Some(key) => Pressed::Named(Keystroke {
            mods: modifiers_of(event.held, platform),
            key,
        }),
        None if event.key == "Dead" => Pressed::Silent,
        None => Pressed::Nameless,
    }
}
