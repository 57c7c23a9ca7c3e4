//! What a host can see of a session between its events.
ghost use Rattle.std.specs.Prelude.{◌≡◌, [], ◌∷◌, ◌++◌, IfOk};
ghost use Rattle.kb_resolve.specs.Resolved.{resolution_of};
ghost use Rattle.kb_session.specs.Inspect.{found_by};

use crate::session::Session;
use kb_base::NoMemory;
use kb_bindings::Bindings;
use kb_core::Core;
use kb_keys::Keystroke;
use kb_registry::HostCommand;
use kb_resolve::Resolved;
use std::alloc::Global;

impl<C: HostCommand> Session<C> {
    /// The text around the caret, and the scopes with their context keys.
    pub fn core(&self) -> &Core
        ensures { result.now ≡ self.now.state.core }
    {
        self.core.core()
    }

    /// What binds keys: the rules, the extensions, and the search among them.
    pub fn bindings(&self) -> &Bindings
        ensures { result.now ≡ self.now.state.sources }
    {
        &self.bindings
    }

    /// The keystrokes of the open chord, in order, or none if no chord is open.
    pub fn pressed(&self) -> &[Keystroke]
        ensures { result.now ≡ self.now.state.pressed }
    {
        self.chord.pressed()
    }

    /// What a press of the key would find now, behind the keystrokes of the open chord: the rule whose
    /// command it would start, that a chord would be open, or nothing. Nothing is pressed. `NoMemory`
    /// changes nothing.
    pub fn look_up(&self, key: Keystroke) -> Result<Resolved<'_>, NoMemory>
        ensures { IfOk result (λ found. resolution_of found ≡ found_by key self.now.state) }
    {
        let strokes = with_key(self.alloc, self.chord.pressed(), key)?;
        self.bindings
            .look_up(strokes.as_slice(), self.core.core().scopes())
    }
}

/// Keystrokes with one more behind them.
fn with_key(
    alloc: Global,
    pressed: &[Keystroke],
    key: Keystroke,
) -> Result<Vec<Keystroke>, NoMemory>
    ensures { IfOk result (λ made. made.items ≡ pressed.now ++ key ∷ []) }
{
    let mut strokes = Vec::with_capacity(alloc, pressed.len() + 1)?;
    strokes.extend_from_slice(pressed)?;
    strokes.push(key)?;
    Ok(strokes)
}
