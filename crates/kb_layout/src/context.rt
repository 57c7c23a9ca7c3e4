//! Context values, read from JSON.
ghost use Rattle.std.specs.Prelude.{◌≡◌, IfOk, IfErr};
ghost use Rattle.serde_json.specs.Data.{array, number as json_number};
ghost use Rattle.serde_json.specs.View.{view, items_view, members_view, number_view};
ghost use Rattle.kb_base.specs.Failure.{Gives};
ghost use Rattle.kb_jsonc.specs.Parts.{names_of};
ghost use Rattle.kb_layout.specs.Context.{context_of, MayFail};

use kb_base::{Failure, NoMemory, Seq, Text};
use kb_context::ContextValue;
use kb_jsonc::{FileFault, read_texts};
use serde_json::{Map, Number, Value};
use std::alloc::Global;

/// The context value that a JSON value is: a boolean, a whole number within i64, a text, a list of
/// texts, or the names of an object's members, whatever their values. The kinds are those that the
/// documentation of when clause contexts has; what a number and a list may hold is our decision.
///
/// Errors: `WrongShape` (41) for `null`, any other number, and a list with an element that is no text;
/// or `NoMemory`, where a list or an object is put together.
pub fn read_context(alloc: Global, value: Value) -> Result<ContextValue, Failure<FileFault>>
    ensures exact { Gives (λ value. value) result (context_of (view value)) }
    ensures memory { IfErr result (MayFail (view value)) }
{
    match value {
        Value::Null => Err(Failure::Fault(FileFault::WrongShape)),
        Value::Bool(truth) => Ok(ContextValue::Truth(truth)),
        Value::Number(number) => Ok(read_number(number)?),
        Value::String(text) => Ok(ContextValue::Text(Text::from_string(text))),
        Value::Array(elements) => read_list(alloc, elements),
        Value::Object(members) => Ok(ContextValue::Names(names_in(alloc, members)?)),
    }
}

/// The context value of a number.
fn read_number(number: Number) -> Result<ContextValue, FileFault>
    ensures { result ≡ context_of (json_number (number_view number)) }
{
    let number = number.as_i64().ok_or(FileFault::WrongShape)?;
    Ok(ContextValue::Number(number))
}

/// The context value of a list.
fn read_list(alloc: Global, elements: Vec<Value>) -> Result<ContextValue, Failure<FileFault>>
    ensures { Gives (λ value. value) result (context_of (array (items_view elements.items))) }
{
    Ok(ContextValue::Texts(read_texts(alloc, elements)?))
}

/// The names of an object's members, in order.
#[tactic(auto, using(kb_jsonc::proofs::PartsLemmas::names_seen))]
fn names_in(alloc: Global, members: Map<String, Value>) -> Result<Seq<Text>, NoMemory>
    ensures { IfOk result (λ names. names ≡ names_of (members_view members.entries)) }
{
    let mut names = Seq::new(alloc);
    for name in members.into_keys() {
        names.push(Text::from_string(name))?;
    }
    Ok(names)
}
