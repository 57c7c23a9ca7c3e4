//! The text of a JSON file without comments and trailing commas.
ghost use Rattle.std.specs.Prelude.{◌≡◌, length, string_bytes, string_len, IfOk};
ghost use Rattle.kb_base.specs.Failure.{Gives};
ghost use Rattle.kb_jsonc.specs.Text.{plain_text};

use crate::fault::JsoncFault;
use crate::scan::make_plain;
use kb_base::Failure;
use std::alloc::Global;

/// Replaces the comments and trailing commas of a text by blanks. The result is JSON if the text has no
/// other fault.
///
/// A line comment goes from `//` to the end of its line, a block comment from `/*` to the next `*/`.
/// Neither begins inside a string. This is "JSON with Comments" of VS Code's documentation.
///
/// Our decisions: line ends inside comments are kept. A comma is trailing if the next non-blank byte is a
/// closing bracket and an element or a member comes before it, where comments count as blank. So the
/// commas of `[,]` and `[1,,]` are kept. Each byte keeps its index, so an index in the result is an index
/// in the file.
///
/// Errors: `OpenComment` (2) or `OpenString` (3), for the first block comment or string that is not
/// closed. `NoMemory` (5) if the one copy of the text cannot be allocated.
pub fn plain(alloc: Global, text: &str) -> Result<String, Failure<JsoncFault>>
    ensures exact { Gives string_bytes result (plain_text text.now) }
    ensures length { IfOk result (λ plain. string_len plain ≡ length text.now) }
{
    let mut bytes = text.as_bytes().to_vec(alloc)?;
    make_plain(&mut bytes)?;
    // The result is UTF-8: a comment begins and ends next to ASCII bytes, and a comma is ASCII.
    Ok(String::from_utf8(bytes).unwrap())
}
