//! Texts of a host, as the engine reads them.
ghost use Rattle.std.specs.Prelude.{◌≡◌, false, true, MatchOption};
ghost use Rattle.std.specs.Str.{is_utf8};
ghost use Rattle.kb_engine.specs.Engine.{key_told};
ghost use Rattle.kb_engine.specs.Lookups.{stroke_told};

use kb_keys::Keystroke;
use kb_trace::Event;
use std::str;

/// The text of bytes, or `None` if they aren't UTF-8.
#[tactic(auto, using(kb_script::proofs::LineLemmas::is_text, kb_script::proofs::LineLemmas::is_no_text))]
pub fn text_in(bytes: &[u8]) -> Option<&str>
    ensures { MatchOption result (is_utf8 bytes.now ≡ false)
        (λ text. (text.now ≡ bytes.now) × (is_utf8 bytes.now ≡ true)) }
{
    match str::from_utf8(bytes) {
        Ok(text) => Some(text),
        Err(_) => None,
    }
}

/// The press of a key, by its text as in `key` lines of a script; or `None` if the bytes are no key's text.
pub fn key_told(key: &[u8]) -> Option<Event>
    ensures { result ≡ key_told key.now }
{
    match stroke_told(key) {
        Some(key) => Some(Event::Key(key)),
        None => None,
    }
}

/// The keystroke of a text, as in `key` lines of a script; or `None` if the bytes are no key's text.
pub(crate) fn stroke_told(key: &[u8]) -> Option<Keystroke>
    ensures { result ≡ stroke_told key.now }
{
    match text_in(key) {
        Some(key) => match Keystroke::parse(key) {
            Ok(key) => Some(key),
            Err(_) => None,
        },
        None => None,
    }
}
