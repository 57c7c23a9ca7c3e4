//! Reading a file of JSON with comments.
ghost use Rattle.std.specs.Prelude.{◌≡◌, ◌≤◌, IfOk};
ghost use Rattle.serde_json.specs.Data.{depth as nesting};
ghost use Rattle.serde_json.specs.Read.{max_depth};
ghost use Rattle.serde_json.specs.View.{view};
ghost use Rattle.kb_base.specs.Failure.{Gives};
ghost use Rattle.kb_jsonc.specs.Reader.{value_of, plain_value, without_mark, TellsError};

use crate::fault::JsoncFault;
use crate::text::plain;
use kb_base::{Failure, is_blank_text};
use serde_json::{Error, Value};
use std::alloc::Global;

/// Parses the bytes of a file of JSON with comments.
///
/// The file is UTF-8 text that may have line comments, block comments and trailing commas, as VS Code's
/// documentation describes for "JSON with Comments"; see [`plain`] for the rules. Our decisions: one byte
/// order mark at the start is ignored, a file with only white space and comments is the empty list, and
/// brackets may nest 127 levels deep.
///
/// Errors, in this order: `NotUtf8` (1) if the bytes are not UTF-8. `OpenComment` (2) or `OpenString` (3),
/// for the first block comment or string that is not closed. `Syntax` (4) if the rest is not JSON, has a
/// number out of range, or nests deeper. `NoMemory` (5) at any point.
pub fn read(alloc: Global, bytes: &[u8]) -> Result<Value, Failure<JsoncFault>>
    ensures exact { Gives view result (value_of bytes.now) }
    ensures nests { IfOk result (λ value. nesting (view value) ≤ max_depth) }
{
    let Ok(text) = str::from_utf8(without_mark(bytes)) else {
        return Err(Failure::Fault(JsoncFault::NotUtf8));
    };
    let plain = plain(alloc, text)?;
    plain_value(alloc, plain.as_str())
}

/// Parses a text without comments and trailing commas.
fn plain_value(alloc: Global, text: &str) -> Result<Value, Failure<JsoncFault>>
    ensures exact { Gives view result (plain_value text.now) }
    ensures nests { IfOk result (λ value. nesting (view value) ≤ max_depth) }
{
    if is_blank_text(text) {
        return Ok(Value::Array(Vec::new(alloc)));
    }
    match Value::from_str(alloc, text) {
        Ok(value) => Ok(value),
        Err(error) => Err(syntax_failure(&error)),
    }
}

/// The failure for an error of `serde_json`: `NoMemory` or `Syntax`.
fn syntax_failure(error: &Error) -> Failure<JsoncFault>
    ensures { TellsError error.now result }
{
    if error.is_memory() {
        return Failure::NoMemory;
    }
    Failure::Fault(JsoncFault::Syntax)
}

/// The bytes after the byte order mark, or all bytes if there is none.
fn without_mark(bytes: &[u8]) -> &[u8]
    ensures { result.now ≡ without_mark bytes.now }
{
    match bytes {
        [0xEF, 0xBB, 0xBF, rest @ ..] => rest,
        _ => bytes,
    }
}
