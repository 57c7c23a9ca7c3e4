//! Lists of texts.
ghost use Rattle.serde_json.specs.Find.{as_str};
ghost use Rattle.serde_json.specs.View.{items_view};
ghost use Rattle.kb_base.specs.Failure.{Gives};
ghost use Rattle.kb_base.specs.Reading.{or_fault};
ghost use Rattle.kb_jsonc.specs.declared.file_fault.FileFault.TheVariants.{WrongShape};
ghost use Rattle.kb_jsonc.specs.Mismatch.{GivesOr, fault_at};
ghost use Rattle.kb_jsonc.specs.Parts.{each, listed};

use crate::file_fault::FileFault;
use crate::mismatch::{Expected, Mismatch, Place};
use crate::parts::text_in;
use kb_base::{Failure, Seq, Text};
use serde_json::Value;
use std::alloc::Global;

/// The texts that the elements of a list are, moved out of them in order.
///
/// Errors: `WrongShape` (41) where an element is no text; or `NoMemory`.
pub fn read_texts(alloc: Global, elements: Vec<Value>) -> Result<Seq<Text>, Failure<FileFault>>
    ensures { Gives (λ texts. texts) result
        (or_fault WrongShape (each as_str (listed (items_view elements.items)))) }
{
    let mut texts = Seq::new(alloc);
    for element in elements {
        texts.push(text_in(element).ok_or(FileFault::WrongShape)?)?;
    }
    Ok(texts)
}

/// The texts that the elements of a list at a place are, moved out of them in order. The place has to be
/// `'static`, since the elements are taken.
///
/// Errors: the mismatch (41) of the first element that is no text, at its place; or `NoMemory`.
pub fn texts_at(
    alloc: Global,
    elements: Vec<Value>,
    place: Place<'static>,
) -> Result<Seq<Text>, Failure<Mismatch<'static, Expected>>>
    ensures { GivesOr fault_at (λ texts. texts) result
        (or_fault WrongShape (each as_str (listed (items_view elements.items)))) }
{
    let mut texts = Seq::new(alloc);
    for element in elements {
        let text = text_in(element).ok_or(Mismatch {
            place: place.item(texts.len()),
            expected: Expected::Text,
        })?;
        texts.push(text)?;
    }
    Ok(texts)
}
