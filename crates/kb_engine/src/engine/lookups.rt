//! What a host looks up before a key is pressed. No look changes the session. Before the load the outcome is
//! `OutOfOrder`, behind a stop `Stopped`; only if it is `Done` is anything noted.
ghost use Rattle.std.specs.Prelude.{◌≡◌};
ghost use Rattle.kb_engine.specs.Lookups.{Lists, ListsKeys, LooksUp};
ghost use Rattle.kb_engine.specs.Lookups.{continuations_text, stroke_told, text_told};

use crate::engine::Engine;
use crate::events::{stroke_told, text_in};
use crate::lookups::{continuations_text, keys_text};
use crate::outcome::Outcome;
use crate::taken::looked_up;

impl Engine {
    /// Notes what a press of a key would take now, behind the keystrokes of the open chord, as the press
    /// itself does: `kind`, the parts and the place tell it. The outcomes are `Done`, `OutOfOrder` before the
    /// load, `Stopped`, `NoMemory`, and `NoKey` for a text that is no key.
    pub fn look_up(&mut self, key: &[u8]) -> Outcome
        ensures { LooksUp (stroke_told key.now) self.old result self.new }
    {
        let Some(key) = stroke_told(key) else {
            return Outcome::NoKey;
        };
        let Some(running) = &self.running else {
            return Outcome::OutOfOrder;
        };
        if running.session().is_stopped() {
            return Outcome::Stopped;
        }
        match looked_up(self.alloc, &key, running.session()) {
            Ok(taken) => {
                self.taken = taken;
                Outcome::Done
            }
            Err(_) => Outcome::NoMemory,
        }
    }

    /// Notes the keystrokes that start a command now (`kb_lookup::keys_of`), as `Part::Keys`: the first line
    /// is what a menu shows. The outcomes are `Done`, `OutOfOrder` before the load, `Stopped`, `NoMemory`,
    /// and `NoText` for bytes that aren't UTF-8.
    pub fn keys_of(&mut self, command: &[u8]) -> Outcome
        ensures { ListsKeys (text_told command.now) self.old result self.new }
    {
        let Some(command) = text_in(command) else {
            return Outcome::NoText;
        };
        let Some(running) = &self.running else {
            return Outcome::OutOfOrder;
        };
        if running.session().is_stopped() {
            return Outcome::Stopped;
        }
        match keys_text(self.alloc, running.session(), command) {
            Ok(shown) => {
                self.shown = shown;
                Outcome::Done
            }
            Err(_) => Outcome::NoMemory,
        }
    }

    /// Notes the keystrokes that go on from those of the open chord (`kb_lookup::continuations`), or the
    /// first keystrokes of rules if no chord is open, as `Part::Keys`. `look_up` says what a press of each
    /// takes. The outcomes are `Done`, `OutOfOrder` before the load, `Stopped` and `NoMemory`.
    pub fn continuations(&mut self) -> Outcome
        ensures { Lists continuations_text self.old result self.new }
    {
        let Some(running) = &self.running else {
            return Outcome::OutOfOrder;
        };
        if running.session().is_stopped() {
            return Outcome::Stopped;
        }
        match continuations_text(self.alloc, running.session()) {
            Ok(shown) => {
                self.shown = shown;
                Outcome::Done
            }
            Err(_) => Outcome::NoMemory,
        }
    }
}
