//! A file of JSON with comments that was read, with its text, for places in it.
ghost use Rattle.std.specs.Prelude.{◌≡◌, ◌≤◌, false, IfOk, IfSome, IsTrue, Some, slice_index, string_bytes};
ghost use Rattle.kb_base.specs.Blank.{is_blank as blank};
ghost use Rattle.serde_json.specs.Data.{depth as nesting};
ghost use Rattle.serde_json.specs.Read.{max_depth, read as read_text};
ghost use Rattle.serde_json.specs.View.{view};
ghost use Rattle.kb_places.specs.Children.{IsWhole};
ghost use Rattle.kb_places.specs.Place.{StandsAt};

use crate::path::{Step, value_at};
use crate::same::same_value;
use crate::scan::{skip, value_end};
use crate::span::{Span, part_of};
use kb_base::{NoMemory, is_blank};
use serde_json::Value;
use std::alloc::{AllocError, Global};

/// A file that was read.
#[derive(Drop)]
pub struct Source<'a> {
    pub(crate) bytes: &'a [u8],
    pub(crate) plain: String,
    pub(crate) value: Value,
    ghost nests: { nesting (view value) ≤ max_depth },
}

impl<'a> Source<'a> {
    /// The bytes behind the byte order mark. All indices are among them.
    pub fn bytes(&self) -> &'a [u8]
        ensures { result.now ≡ self.now.bytes.now }
    {
        self.bytes
    }

    /// The blanked text, byte by byte under the file's.
    pub fn plain(&self) -> &str
        ensures { result.now ≡ string_bytes self.now.plain }
    {
        self.plain.as_str()
    }

    /// The value of the file.
    pub fn value(&self) -> &Value
        ensures { result.now ≡ self.now.value }
    {
        &self.value
    }

    /// Where the value of the file is.
    pub fn whole(&self) -> Span
        ensures { IsWhole (string_bytes self.now.plain) result }
    {
        let text = self.plain.as_bytes();
        let begin = skip(text, 0, b' ');
        Span {
            begin,
            end: value_end(text, begin),
        }
    }

    /// The place of the value at a path, if it is this one: what is read from there is that value, and it
    /// begins there, with no blank before it. Error: `NoMemory`.
    #[tactic(auto, using(crate::proofs::DepthLemmas::found_depth, crate::proofs::PlaceLemmas::stands))]
    pub fn place(
        &self,
        alloc: Global,
        path: &[Step<'_>],
        guess: Span,
    ) -> Result<Option<Span>, NoMemory>
        ensures { IfOk result (λ found. IfSome found
            (StandsAt (string_bytes self.now.plain) (view self.now.value) path.now)) }
    {
        let Some(value) = value_at(&self.value, path) else {
            return Ok(None);
        };
        let text = self.plain.as_bytes();
        if begins_value(text, guess.begin) {
            if reads_as(alloc, part_of(text, guess), value)? {
                return Ok(Some(guess));
            }
        }
        Ok(None)
    }
}

/// Whether a text has a byte at an index that isn't blank.
fn begins_value(text: &[u8], index: usize) -> bool
    ensures { IsTrue result → blank (slice_index text.now index) ≡ false }
{
    if index < text.len() {
        !is_blank(text[index])
    } else {
        false
    }
}

/// Whether a text reads as a value.
fn reads_as(alloc: Global, text: &[u8], value: &Value) -> Result<bool, NoMemory>
    requires { nesting (view value.now) ≤ max_depth }
    ensures { IfOk result (λ same. IsTrue same → read_text text.now ≡ Some (view value.now)) }
{
    let Ok(text) = str::from_utf8(text) else {
        return Ok(false);
    };
    match Value::from_str(alloc, text) {
        Ok(read) => same_value(alloc, &read, value),
        Err(error) if error.is_memory() => Err(AllocError),
        Err(_) => Ok(false),
    }
}
