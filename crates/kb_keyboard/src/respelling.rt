//! Key texts with scan codes, respelled for a layout.
ghost use Rattle.std.specs.Prelude.{◌≡◌, ◌<◌, ◌++◌, [], length, slice_index, IfOk, OnOk};
ghost use Rattle.std.specs.Prelude.{option_map};
ghost use Rattle.kb_exchange.specs.Exchange.{exchanged};
ghost use Rattle.kb_exchange.specs.Moves.{moves_of, KeepsOthers};
ghost use Rattle.kb_keyboard.specs.Respelling as words;

use crate::layout::Layout;
use crate::tables::{oem_name, same_word};
use kb_base::{NoMemory, Text};
use kb_exchange::{Exchanged, Renewal, exchange_values, string_of, text_of};
use std::alloc::Global;

/// Whether a word stands between brackets, and something is in them.
#[tactic(auto, unfolding(crate::specs::Respelling::has_code))]
fn has_code(word: &str) -> bool
    ensures { result ≡ words.has_code word.now }
{
    let bytes = word.as_bytes();
    bytes.len() >= 3 && bytes[0] == b'[' && bytes[bytes.len() - 1] == b']'
}

/// The code that a word between brackets is.
#[tactic(auto, unfolding(crate::specs::Respelling::code_in))]
fn code_in(word: &str) -> Option<&str>
    ensures { option_map (λ code. code.now) result ≡ words.code_in word.now }
{
    if !has_code(word) {
        return None;
    }
    Some(&word[1..word.len() - 1])
}

/// The name of the key that a word stands for, if it is a code or another name.
#[tactic(auto, unfolding(crate::specs::Respelling::new_name))]
fn new_name(layout: &Layout, word: &str, shifted: bool) -> Option<&'static str>
    ensures { option_map (λ name. name.now) result ≡ words.new_name layout.now shifted word.now }
{
    match code_in(word) {
        Some(code) => layout.name_at(code, shifted),
        None => oem_name(word),
    }
}

/// The word that is to stand for a word of a key text.
#[tactic(auto, unfolding(crate::specs::Respelling::new_word))]
fn new_word<'w>(layout: &Layout, word: &'w str, shifted: bool) -> &'w str
    ensures { result.now ≡ words.new_word layout.now shifted word.now }
{
    match new_name(layout, word, shifted) {
        Some(name) => name,
        None => word,
    }
}

/// Whether a byte parts the words of a key text.
fn is_separator(byte: u8) -> bool
    ensures { result ≡ words.is_separator byte }
{
    matches!(byte, b' ' | b'+' | b'-')
}

/// Whether Shift is held behind a word and its separator.
fn shifted_behind(shifted: bool, word: &str, separator: u8) -> bool
    ensures { result ≡ words.shifted_behind shifted word.now separator }
{
    separator != b' ' && (shifted || same_word(word, "shift"))
}

/// The byte at an index of a text.
fn byte_at(text: &str, at: usize) -> u8
    requires { at < length text.now }
    ensures { result ≡ slice_index text.now at }
{
    text.as_bytes()[at]
}

/// Appends two texts.
fn push_both(made: &mut Text, first: &str, second: &str) -> Result<(), NoMemory>
    ensures { OnOk result (made.new ≡ (made.old ++ first.now) ++ second.now) }
{
    made.push_str(first)?;
    made.push_str(second)?;
    Ok(())
}

/// A key text in which each code and each name of a virtual key is the name of its key.
///
/// A word `[CODE]` becomes the name of the key that the layout has at this place ([`Layout::new`]), as
/// [`crate::keystroke_of`] names it; behind `shift` as it does with Shift. VS Code's names of virtual keys,
/// such as `oem_1`, become the names that VS Code has for the same keys, whatever the layout. ASCII letter
/// case doesn't matter. All else stays: a code that the layout hasn't, or a key without a name, stays as it
/// is.
///
/// Error: `NoMemory`.
pub fn respell(alloc: Global, text: &str, layout: &Layout) -> Result<Text, NoMemory>
    ensures { IfOk result (λ made. made ≡ words.respelled layout.now text.now) }
{
    let mut made = Text::new(alloc);
    let mut shifted = false;
    let mut begin = 0;
    for at in 0..text.len() {
        let byte = byte_at(text, at);
        if !is_separator(byte) {
            continue;
        }
        let word = &text[begin..at];
        push_both(
            &mut made,
            new_word(layout, word, shifted),
            &text[at..at + 1],
        )?;
        shifted = shifted_behind(shifted, word, byte);
        begin = at + 1;
    }
    made.push_str(new_word(layout, &text[begin..], shifted))?;
    Ok(made)
}

/// A layout, for the strings of a file.
#[derive(Clone, Copy)]
struct Respelling<'l> {
    layout: &'l Layout,
}

impl Renewal for Respelling<'_> {
    ghost renewed = { λ respelling. words.renewed respelling.layout.now };

    #[tactic(auto, unfolding(crate::specs::Respelling::renewed))]
    fn renewed(&self, alloc: Global, string: &[u8]) -> Result<Option<Text>, NoMemory> {
        let Some(text) = text_of(alloc, string)? else {
            return Ok(None);
        };
        let respelled = respell(alloc, text.as_str(), self.layout)?;
        if respelled.as_str() == text.as_str() {
            return Ok(None);
        }
        Ok(Some(string_of(alloc, respelled.as_str())?))
    }
}

/// A `keybindings.json` or a `package.json`, in which the key texts are respelled for a layout ([`respell`]):
/// those that are values of members `key`, `mac`, `linux` and `win`. All other bytes stay, and so does all of
/// a file that isn't UTF-8, or has a comment or a string without its end: loading it has the fault. The moves
/// lead from a place in the new file back to one in this.
///
/// Error: `NoMemory`.
pub fn respell_file(alloc: Global, file: &[u8], layout: &Layout) -> Result<Exchanged, NoMemory>
    ensures bytes { IfOk result (λ made. made.bytes
        ≡ exchanged file.now (words.respellings layout.now file.now)) }
    ensures moves { IfOk result (λ made. made.moves
        ≡ moves_of file.now (words.respellings layout.now file.now)) }

    // What isn't respelled stays, and stands where the moves say.
    ensures kept { IfOk result (λ made. KeepsOthers file.now made.bytes made.moves) }

    // Without a key text that is respelled the file is the same.
    ensures same { words.respellings layout.now file.now ≡ []
        → IfOk result (λ made. made.bytes ≡ file.now) }
{
    let respelling = Respelling { layout };
    exchange_values(alloc, file, &["key", "mac", "linux", "win"], &respelling)
}
