//! The names of the keys.
ghost use Rattle.std.specs.Prelude.{◌≡◌, ◌<◌, ◌≤◌, ◌↔◌, length, Some, IsTrue};
ghost use Rattle.kb_keys.specs.KeyName.{key_count, longest_name, name_of, key_named, lowered};

use std::marker::Model;

/// The number of keys.
pub const KEYS: usize = 99;

/// The number of bytes in the longest name.
pub(crate) const LONGEST_NAME: usize = 16;

/// The names that VS Code's documentation accepts, in lower case. The order is our decision, and `hint` has
/// to follow it.
pub const NAMES: [&str; KEYS] = [
    // Letters and digits.
    "a",
    "b",
    "c",
    "d",
    "e",
    "f",
    "g",
    "h",
    "i",
    "j",
    "k",
    "l",
    "m",
    "n",
    "o",
    "p",
    "q",
    "r",
    "s",
    "t",
    "u",
    "v",
    "w",
    "x",
    "y",
    "z",
    "0",
    "1",
    "2",
    "3",
    "4",
    "5",
    "6",
    "7",
    "8",
    "9",
    // Signs.
    "`",
    "-",
    "=",
    "[",
    "]",
    "\\",
    ";",
    "'",
    ",",
    ".",
    "/",
    // Cursor keys.
    "left",
    "up",
    "right",
    "down",
    "pageup",
    "pagedown",
    "end",
    "home",
    // Editing keys.
    "tab",
    "enter",
    "escape",
    "space",
    "backspace",
    "delete",
    // Other keys.
    "pausebreak",
    "capslock",
    "insert",
    // Function keys.
    "f1",
    "f2",
    "f3",
    "f4",
    "f5",
    "f6",
    "f7",
    "f8",
    "f9",
    "f10",
    "f11",
    "f12",
    "f13",
    "f14",
    "f15",
    "f16",
    "f17",
    "f18",
    "f19",
    // Number pad.
    "numpad0",
    "numpad1",
    "numpad2",
    "numpad3",
    "numpad4",
    "numpad5",
    "numpad6",
    "numpad7",
    "numpad8",
    "numpad9",
    "numpad_multiply",
    "numpad_add",
    "numpad_separator",
    "numpad_subtract",
    "numpad_decimal",
    "numpad_divide",
];

/// A key, stored as the index of its name in `NAMES`. Contracts see this index.
#[derive(Clone, Copy, Debug, Default, PartialEq, Eq, Hash)]
pub struct KeyName {
    index: u8,
}

impl Model for KeyName {
    ghost use Rattle.std.specs.Prelude.{ℕ, ◌<◌};
    ghost use Rattle.kb_keys.specs.KeyName.{key_count};

    ghost Value = { ℕ };

    ghost view = { λ k. k.index };

    ghost invariant = { λ k. k.index < key_count };

    ghost inverse = { λ n. record { index = n } };
}

impl KeyName {
    /// The key with this name, in any ASCII letter case, or `None`. Names of physical keys, such as
    /// `[KeyA]`, are not supported (our decision).
    #[tactic(auto, using(crate::proofs::KeyNameLemmas::named_at))]
    pub fn named(text: &str) -> Option<KeyName>
        ensures { result ≡ key_named text.now }
    {
        let index = hint(text.as_bytes());
        if index < KEYS && same_name(name_at(index), text) {
            return Some(KeyName { index: index as u8 });
        }
        KeyName::searched(text)
    }

    /// The same, by a search of the whole table. Only a text that is no name needs it.
    fn searched(text: &str) -> Option<KeyName>
        ensures { result ≡ key_named text.now }
    {
        let names = NAMES.as_slice();
        let index = names
            .iter()
            .position(|name| name.eq_ignore_ascii_case(text))?;
        Some(KeyName { index: index as u8 })
    }

    /// The name, in lower case.
    pub fn as_str(self) -> &'static str
        ensures name { result.now ≡ name_of self }
        ensures known { self < key_count }
        ensures read { key_named result.now ≡ Some self }
        ensures lower { lowered result.now ≡ result.now }
        ensures short { length result.now ≤ longest_name }
    {
        name_at(self.index as usize)
    }

    /// The index of the name in `NAMES`.
    pub(crate) fn number(self) -> usize
        ensures value { result ≡ self }
        ensures known { self < key_count }
    {
        self.index as usize
    }
}

/// The name at an index of the table.
fn name_at(index: usize) -> &'static str
    requires { index < key_count }
    ensures { result.now ≡ name_of index }
{
    let names = NAMES.as_slice();
    names[index]
}

/// Whether two names are the same in any ASCII letter case. Most texts are in lower case, so they are
/// compared as they are first, several bytes at a time.
pub(crate) fn same_name(name: &str, text: &str) -> bool
    ensures { IsTrue result ↔ (lowered name.now ≡ lowered text.now) }
{
    name == text || name.eq_ignore_ascii_case(text)
}

/// The index of the only name that a text can be, by its length, its first byte and its last one. It is
/// compared with that name, so a wrong index costs time only.
fn hint(text: &[u8]) -> usize {
    match text {
        [byte] => sign_hint(*byte | 32),
        [first, .., last] => word_hint(*first | 32, text.len(), *last | 32),
        [] => 0,
    }
}

/// The index of a letter, a digit or a sign. Bit 5 of the byte is set, which changes a letter to lower case
/// and `[`, `]` and `\` to `{`, `}` and `|`.
fn sign_hint(byte: u8) -> usize {
    match byte {
        b'a'..=b'z' => byte.wrapping_sub(b'a') as usize,
        b'0'..=b'9' => byte.wrapping_sub(22) as usize,
        b'`' => 36,
        b'-' => 37,
        b'=' => 38,
        b'{' => 39,
        b'}' => 40,
        b'|' => 41,
        b';' => 42,
        b'\'' => 43,
        b',' => 44,
        b'.' => 45,
        _ => 46,
    }
}

/// The index of a name of two bytes or more.
fn word_hint(first: u8, len: usize, last: u8) -> usize {
    let digit = last.wrapping_sub(b'0') as usize;
    match first {
        b'l' => 47,
        b'u' => 48,
        b'r' => 49,
        b'd' => if len == 4 { 50 } else { 60 },
        b'p' => match len {
            6 => 51,
            8 => 52,
            _ => 61,
        },
        b'e' => match len {
            3 => 53,
            5 => 56,
            _ => 57,
        },
        b'h' => 54,
        b't' => 55,
        b's' => 58,
        b'b' => 59,
        b'c' => 62,
        b'f' => digit.wrapping_add(if len == 2 { 63 } else { 73 }),
        b'n' => pad_hint(len, last),
        _ => 63,
    }
}

/// The index of a key of the number pad.
fn pad_hint(len: usize, last: u8) -> usize {
    match len {
        7 => last.wrapping_add(35) as usize,
        10 => 94,
        13 => 98,
        14 => 97,
        16 => 95,
        _ => if last == b'y' { 93 } else { 96 },
    }
}
