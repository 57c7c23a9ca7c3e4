//! Keys and their messages.
ghost use Rattle.std.specs.Prelude.{◌≡◌, map, option_and_then, option_map};
ghost use Rattle.serde_json.specs.View.{view};
ghost use Rattle.kb_jsonc.specs.Parts.{word_of};
ghost use Rattle.kb_localized.specs.Messages as words;

use crate::bundle::Bundle;
use kb_base::{NoMemory, Text};
use kb_exchange::{Renewal, string_of, text_of};
use serde_json::Value;
use std::alloc::Global;

/// Whether a text stands between two `%`.
#[tactic(auto, unfolding(crate::specs::Messages::has_key))]
fn has_key(text: &str) -> bool
    ensures { result ≡ words.has_key text.now }
{
    let bytes = text.as_bytes();
    bytes.len() >= 2 && bytes[0] == b'%' && bytes[bytes.len() - 1] == b'%'
}

/// The key that a text between two `%` is.
#[tactic(auto, unfolding(crate::specs::Messages::key_in))]
fn key_in(text: &str) -> Option<&str>
    ensures { option_map (λ key. key.now) result ≡ words.key_in text.now }
{
    if !has_key(text) {
        return None;
    }
    Some(&text[1..text.len() - 1])
}

/// The text that a value is, if it isn't empty.
fn word_in(value: &Value) -> Option<&str>
    ensures { option_map (λ text. text.now) result ≡ word_of (view value.now) }
{
    match value.as_str() {
        Some(text) if !text.is_empty() => Some(text),
        _ => None,
    }
}

/// The message that a value is: a text that isn't empty, or an object whose member `message` is one.
#[tactic(auto, unfolding(crate::specs::Messages::message_in))]
fn message_in(value: &Value) -> Option<&str>
    ensures { option_map (λ text. text.now) result ≡ words.message_in (view value.now) }
{
    match word_in(value) {
        Some(text) => Some(text),
        None => word_in(value.get("message")?),
    }
}

/// The message of a key, in the first bundle that has it.
fn message_of<'b>(bundles: &'b [Bundle], key: &str) -> Option<&'b str>
    ensures { option_map (λ text. text.now) result
        ≡ words.message_of key.now (map (λ b. view b.value) bundles.now) }
{
    for bundle in bundles {
        if let Some(value) = bundle.value.get(key) {
            return message_in(value);
        }
    }
    None
}

/// The messages of some bundles, in the place of their keys.
#[derive(Clone, Copy)]
pub(crate) struct Messages<'b> {
    pub(crate) bundles: &'b [Bundle],
}

impl Messages<'_> {
    /// The message of the key that a text is.
    fn message_for(&self, text: &str) -> Option<&str>
        ensures { option_map (λ text. text.now) result
            ≡ option_and_then (λ key. words.message_of key (map (λ b. view b.value) self.now.bundles.now))
            (words.key_in text.now) }
    {
        message_of(self.bundles, key_in(text)?)
    }
}

impl Renewal for Messages<'_> {
    ghost renewed = { λ messages. words.renewed (map (λ b. view b.value) messages.bundles.now) };

    #[tactic(auto, unfolding(crate::specs::Messages::renewed))]
    fn renewed(&self, alloc: Global, string: &[u8]) -> Result<Option<Text>, NoMemory> {
        let Some(text) = text_of(alloc, string)? else {
            return Ok(None);
        };
        match self.message_for(text.as_str()) {
            Some(message) => Ok(Some(string_of(alloc, message)?)),
            None => Ok(None),
        }
    }
}
