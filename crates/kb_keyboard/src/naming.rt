//! Which key of key rules a key of a keyboard is.
ghost use Rattle.std.specs.Prelude.{◌≡◌, option_map};
ghost use Rattle.kb_keyboard.specs.Naming as words;

use crate::tables::{meaning, pad_sign, place};
use kb_keys::KeyName;

/// What is behind the beginning of a text.
fn behind<'t>(text: &'t str, beginning: &str) -> Option<&'t str>
    ensures { option_map (λ rest. rest.now) result ≡ words.behind text.now beginning.now }
{
    text.strip_prefix(beginning)
}

/// Whether a text is one digit.
fn is_digit(text: &str) -> bool
    ensures { result ≡ words.is_digit text.now }
{
    matches!(text.as_bytes(), [b'0'..=b'9'])
}

/// Whether a text is one letter from A to Z, in either case.
fn is_letter(text: &str) -> bool
    ensures { result ≡ words.is_letter text.now }
{
    matches!(text.as_bytes(), [b'a'..=b'z' | b'A'..=b'Z'])
}

/// Whether a text is a sign that rules name.
fn is_sign(text: &str) -> bool
    ensures { result ≡ words.is_sign text.now }
{
    matches!(
        text.as_bytes(),
        [b'`' | b'-' | b'=' | b'[' | b']' | b'\\' | b';' | b'\'' | b',' | b'.' | b'/']
    )
}

/// The name of a digit of the number pad, where it writes one.
fn pad_digit<'t>(code: &'t str, key: &str) -> Option<&'t str>
    ensures { option_map (λ name. name.now) result ≡ words.pad_digit code.now key.now }
{
    match behind(code, "Numpad") {
        Some(digit) if is_digit(digit) && is_digit(key) => Some(code),
        _ => None,
    }
}

/// The digit at a place of the row of digits.
fn digit_at(code: &str) -> Option<&str>
    ensures { option_map (λ name. name.now) result ≡ words.digit_at code.now }
{
    match behind(code, "Digit") {
        Some(digit) if is_digit(digit) => Some(digit),
        _ => None,
    }
}

/// The letter at a place of a US keyboard.
fn letter_at(code: &str) -> Option<&str>
    ensures { option_map (λ name. name.now) result ≡ words.letter_at code.now }
{
    match behind(code, "Key") {
        Some(letter) if is_letter(letter) => Some(letter),
        _ => None,
    }
}

/// The name of a key by what it writes, or the letter at its place.
#[tactic(auto, unfolding(crate::specs::Naming::written))]
fn written<'t>(code: &'t str, key: &'t str, shifted: bool) -> Option<&'t str>
    ensures { option_map (λ name. name.now) result ≡ words.written code.now key.now shifted }
{
    if is_letter(key) {
        return Some(key);
    }
    if let Some(letter) = letter_at(code) {
        return Some(letter);
    }
    if !shifted && is_sign(key) {
        return Some(key);
    }
    None
}

/// The name of a key that the layout doesn't change, or the digit at its place.
#[tactic(auto, unfolding(crate::specs::Naming::fixed))]
fn fixed<'t>(code: &'t str, key: &'t str) -> Option<&'t str>
    ensures { option_map (λ name. name.now) result ≡ words.fixed code.now key.now }
{
    if let Some(name) = pad_digit(code, key) {
        return Some(name);
    }
    if let Some(name) = meaning(key) {
        return Some(name);
    }
    if let Some(name) = pad_sign(code) {
        return Some(name);
    }
    digit_at(code)
}

/// The name of a key, or what it writes if nothing else names it.
#[tactic(auto, unfolding(crate::specs::Naming::name_of))]
fn name_of<'t>(code: &'t str, key: &'t str, shifted: bool) -> &'t str
    ensures { result.now ≡ words.name_of code.now key.now shifted }
{
    if let Some(name) = fixed(code, key) {
        return name;
    }
    if let Some(name) = written(code, key, shifted) {
        return name;
    }
    match place(code) {
        Some(name) => name,
        None => key,
    }
}

/// The key of key rules that the key at a place is, which means or writes this, while Shift is held or not.
/// `None` if rules can't name it.
///
/// A key that the layout of the keyboard doesn't change has the name of what it means. Digits have the names
/// of their places. Any other key has the name of the letter or, without Shift, of the sign that it writes;
/// if rules have no name for that, as in Cyrillic, the name of its place on a US keyboard.
#[tactic(auto, unfolding(crate::specs::Naming::key_at))]
pub(crate) fn key_at(code: &str, key: &str, shifted: bool) -> Option<KeyName>
    ensures { result ≡ words.key_at code.now key.now shifted }
{
    KeyName::named(name_of(code, key, shifted))
}
