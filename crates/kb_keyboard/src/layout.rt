//! Layouts of keyboards: what each key writes.
ghost use Rattle.std.specs.Prelude.{◌≡◌, find, option_map};
ghost use Rattle.kb_keyboard.specs.Layout as words;

use crate::layout_fault::LayoutFault;
use crate::naming::key_at;
use crate::tables::same_word;
use kb_base::{Seq, Text};
use std::marker::Model;

/// The most keys that a layout may have.
pub const LIMIT: usize = 256;

/// A key of a layout.
#[derive(Debug, Drop)]
pub struct LayoutKey {
    /// Its place: a `KeyboardEvent.code`, such as `KeyZ`.
    pub code: Text,
    /// What it writes without a modifier, such as `y`.
    pub character: Text,
}

/// The layout of a keyboard. Contracts see its keys.
#[derive(Drop)]
pub struct Layout {
    keys: Seq<LayoutKey>,
}

impl Model for Layout {
    ghost use Rattle.std.specs.Prelude.{List};
    ghost use Rattle.kb_keyboard.specs.declared.layout.LayoutKey.{LayoutKey};

    ghost Value = { List LayoutKey };

    ghost view = { λ l. l.keys };
}

/// The key with this code, in any ASCII letter case.
fn key_with<'k>(keys: &'k [LayoutKey], code: &str) -> Option<&'k LayoutKey>
    ensures { option_map (λ key. key.now) result ≡ find (words.has_code code.now) keys.now }
{
    for key in keys {
        if same_word(key.code.as_str(), code) {
            return Some(key);
        }
    }
    None
}

/// Whether two keys have the same code.
fn has_twice(keys: &[LayoutKey]) -> bool
    ensures { result ≡ words.has_twice keys.now }
{
    let mut left = keys;
    while let [first, rest @ ..] = left {
        if key_with(rest, first.code.as_str()).is_some() {
            return true;
        }
        left = rest;
    }
    false
}

impl Layout {
    ghost use Rattle.kb_base.specs.Reading.{seen};

    /// The layout with these keys, as Chromium's `navigator.keyboard.getLayoutMap()` lists them: each has a
    /// place and what it writes without a modifier. It may have none.
    ///
    /// Errors, in this order: `TooLarge` (44) for more than 256 keys, `CodeTwice` (70) if two keys have the
    /// same code, in any ASCII letter case.
    pub fn new(keys: Vec<LayoutKey>) -> Result<Layout, LayoutFault>
        ensures { result ≡ words.layout_of keys.items }
    {
        if keys.len() > LIMIT {
            return Err(LayoutFault::TooLarge);
        }
        if has_twice(keys.as_slice()) {
            return Err(LayoutFault::CodeTwice);
        }
        Ok(Layout {
            keys: Seq::from_vec(keys),
        })
    }

    /// The name of the key of key rules that a code stands for, where Shift is held or not. `None` if the
    /// layout has no such code, or rules can't name the key.
    pub(crate) fn name_at(&self, code: &str, shifted: bool) -> Option<&'static str>
        ensures { option_map (λ name. name.now) result ≡ words.name_at self.now code.now shifted }
    {
        let key = key_with(self.keys.as_slice(), code)?;
        let name = key_at(key.code.as_str(), key.character.as_str(), shifted)?;
        Some(name.as_str())
    }
}
