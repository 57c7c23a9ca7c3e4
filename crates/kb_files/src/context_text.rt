//! The value of a context key, read from a text.
ghost use Rattle.kb_base.specs.Failure.{Gives};
ghost use Rattle.kb_files.specs.Context.{context_in};

use crate::failures::shape_failure;
use crate::plain_value::{quoted_text, spelled_number};
use crate::value::read_value;
use kb_base::{Failure, Refusal, Text};
use kb_context::ContextValue;
use kb_layout::read_context;
use std::alloc::Global;

/// The value of a context key that a text is: JSON with comments, as in a file (`read_context` says
/// which values there are). A blank text reads as the empty list. `true`, `false` and whole numbers, which
/// most keys have, are read without memory, and a text without escapes takes its copy alone.
///
/// Errors: the text's fault (1 to 4), or another shape (41); or `NoMemory`.
pub fn read_context_text(alloc: Global, text: &str) -> Result<ContextValue, Failure<Refusal>>
    ensures { Gives (λ value. value) result (context_in text.now) }
{
    match text {
        "true" => Ok(ContextValue::Truth(true)),
        "false" => Ok(ContextValue::Truth(false)),
        _ => read_other(alloc, text),
    }
}

/// The value that a text is, other than `true` and `false`.
#[tactic(auto, using(crate::proofs::PlainValueLemmas::reading))]
fn read_other(alloc: Global, text: &str) -> Result<ContextValue, Failure<Refusal>>
    ensures { Gives (λ value. value) result (context_in text.now) }
{
    if let Some(number) = spelled_number(text) {
        return Ok(ContextValue::Number(number));
    }
    match quoted_text(text) {
        Some(inner) => Ok(ContextValue::Text(Text::from_str(alloc, inner)?)),
        None => read_json(alloc, text),
    }
}

/// The value that a text is, read as JSON.
fn read_json(alloc: Global, text: &str) -> Result<ContextValue, Failure<Refusal>>
    ensures { Gives (λ value. value) result (context_in text.now) }
{
    let value = read_value(alloc, text.as_bytes())?;
    read_context(alloc, value).map_err(shape_failure)
}
