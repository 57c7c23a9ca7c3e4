//! What a string of JSON says.
ghost use Rattle.std.specs.Prelude.{◌≡◌, IfOk, Some};
ghost use Rattle.json.specs.Print.{quoted};
ghost use Rattle.serde_json.specs.Data as json;
ghost use Rattle.serde_json.specs.Read.{read};
ghost use Rattle.kb_exchange.specs.Says as words;

use kb_base::{NoMemory, Text};
use kb_jsonc::text_in;
use serde_json::Value;
use std::alloc::{AllocError, Global};

/// What stands between the first and the last byte of a string of JSON, which are its quotes.
fn inside(string: &[u8]) -> &[u8]
    ensures { result.now ≡ words.inside string.now }
{
    if string.len() < 2 {
        return &[];
    }
    &string[1..string.len() - 1]
}

/// The text that is read from a string of JSON, or `None` where it is none.
#[tactic(auto, using(crate::proofs::SaysLemmas::readings))]
fn read_text(alloc: Global, string: &[u8]) -> Result<Option<Text>, NoMemory>
    ensures { IfOk result (λ found. found ≡ words.read_text string.now) }
{
    let Ok(string) = str::from_utf8(string) else {
        return Ok(None);
    };
    match Value::from_str(alloc, string) {
        Ok(value) => Ok(text_in(value)),
        Err(error) if error.is_memory() => Err(AllocError),
        Err(_) => Ok(None),
    }
}

/// What a string of JSON says, or `None` where it is no string of JSON. A string without a backslash says
/// what stands between its quotes; of any other it is what `serde_json` reads.
///
/// Error: `NoMemory`.
#[tactic(auto, using(crate::proofs::SaysLemmas::texts))]
pub fn text_of(alloc: Global, string: &[u8]) -> Result<Option<Text>, NoMemory>
    ensures { IfOk result (λ found. found ≡ words.text_of string.now) }
{
    if string.contains(&b'\\') {
        return read_text(alloc, string);
    }
    match str::from_utf8(inside(string)) {
        Ok(text) => Ok(Some(Text::from_str(alloc, text)?)),
        Err(_) => Ok(None),
    }
}

/// Whether a string of JSON says this text. A string without a backslash is compared where it stands.
///
/// Error: `NoMemory`.
#[tactic(auto, using(crate::proofs::SaysLemmas::sayings))]
pub fn says(alloc: Global, string: &[u8], text: &str) -> Result<bool, NoMemory>
    ensures { IfOk result (λ answer. answer ≡ words.says text.now string.now) }
{
    if string.contains(&b'\\') {
        let read = read_text(alloc, string)?;
        return Ok(is_text(&read, text));
    }
    Ok(inside(string) == text.as_bytes())
}

/// Whether there is a text, and it is this one.
fn is_text(found: &Option<Text>, text: &str) -> bool
    ensures { result ≡ words.is_text text.now found.now }
{
    match found {
        Some(found) => found.as_str() == text,
        None => false,
    }
}

/// A text as a string of JSON, with its quotes and the shortest escapes: control characters, `"` and `\` are
/// escaped, and nothing else. It reads back as that text.
///
/// Error: `NoMemory`.
pub fn string_of(alloc: Global, text: &str) -> Result<Text, NoMemory>
    ensures string { IfOk result (λ made. made ≡ quoted text.now) }
    ensures reads_back { IfOk result (λ made. read made ≡ Some (json.string text.now)) }
{
    let value = Value::try_from_str(alloc, text)?;
    let string = value.to_string(alloc)?;
    Ok(Text::from_string(string))
}
