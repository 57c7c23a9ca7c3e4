//! Values of context keys.
use kb_base::{NoMemory, Text};
use kb_context::ContextValue;
use serde_json::{Value, json};
use std::alloc::Global;

/// A list of texts as JSON.
fn list_of(alloc: Global, texts: &[Text]) -> Result<Value, NoMemory> {
    let mut list = Vec::new(alloc);
    for text in texts {
        list.push(Value::try_from_str(alloc, text.as_str())?)?;
    }
    Ok(Value::Array(list))
}

/// A value as JSON. Of an object only the names of its members are known, so it is an object with a list of
/// them.
pub(crate) fn value_json(alloc: Global, value: &ContextValue) -> Result<Value, NoMemory> {
    match value {
        ContextValue::Truth(truth) => Ok(json!(in alloc; (*truth))?),
        ContextValue::Number(number) => Ok(json!(in alloc; (*number))?),
        ContextValue::Text(text) => Value::try_from_str(alloc, text.as_str()),
        ContextValue::Texts(texts) => list_of(alloc, texts.as_slice()),
        ContextValue::Names(names) => {
            let members = list_of(alloc, names.as_slice())?;
            json!(in alloc; {"members": members})
        }
    }
}

/// A value as a text.
pub(crate) fn value_text(alloc: Global, value: &ContextValue) -> Result<String, NoMemory> {
    match value {
        ContextValue::Names(names) => {
            let members = list_of(alloc, names.as_slice())?.to_string(alloc)?;
            format!(in alloc; "an object with the members {members}")
        }
        _ => value_json(alloc, value)?.to_string(alloc),
    }
}
