//! What is said of the first mismatch of a refused `handlers.json`.
use crate::grouped::grouped;
use kb_base::NoMemory;
use kb_handler_file::HandlersExpected;
use kb_jsonc::{Expected, Mismatch};
use serde_json::Value;
use std::alloc::Global;

/// The command of a handler, or the empty text.
pub(crate) fn command_of(handler: &Value) -> &str {
    handler.get("command").and_then(Value::as_str).unwrap_or("")
}

/// The sentence on the mismatch of a value.
pub(crate) fn handlers_sentence(
    alloc: Global,
    value: &Value,
    found: Mismatch<'static, HandlersExpected>,
) -> Result<String, NoMemory> {
    match found.place.entry {
        Some(handler) => match found.expected {
            HandlersExpected::Shape(expected) => shape_sentence(alloc, found, expected),
            HandlersExpected::AtMost(limit) => few_sentence(alloc, found.place.member, limit),
            HandlersExpected::UpTo(limit) => within_sentence(alloc, found.place.member, limit),
            HandlersExpected::NewCommand => repeated_sentence(alloc, value, handler),
            _ => format!(in alloc; "{}", found.expected.fault().kind().meaning()),
        },
        None => head_sentence(alloc, found),
    }
}

/// The sentence on a mismatch before the handlers.
fn head_sentence(
    alloc: Global,
    found: Mismatch<'static, HandlersExpected>,
) -> Result<String, NoMemory> {
    match found.expected {
        HandlersExpected::Shape(Expected::Object) => format!(in alloc;
            "a handlers.json has to be an object with `version` and `handlers`"
        ),
        HandlersExpected::Shape(Expected::Present) => format!(in alloc;
            "the handlers.json has no member `{}`",
            found.place.member
        ),
        HandlersExpected::Shape(Expected::List) => {
            format!(in alloc; "`{}` has to be a list", found.place.member)
        }
        HandlersExpected::AtMost(limit) => {
            let limit = grouped(alloc, limit)?;
            format!(in alloc; "there are more than {limit} handlers")
        }
        _ => format!(in alloc; "`{}` has to be 1 or 2", found.place.member),
    }
}

/// The sentence on a value of another shape in a handler.
fn shape_sentence(
    alloc: Global,
    found: Mismatch<'static, HandlersExpected>,
    expected: Expected,
) -> Result<String, NoMemory> {
    let member = found.place.member;
    if member == "params" && found.place.item.is_some() {
        return param_sentence(alloc, expected);
    }
    match expected {
        Expected::Object => format!(in alloc; "a handler has to be an object"),
        Expected::Present => format!(in alloc; "the handler has no member `{member}`"),
        Expected::Word => format!(in alloc; "`{member}` has to be a text that isn't empty"),
        Expected::Whole => format!(in alloc; "`{member}` has to be a whole number"),
        Expected::List if member == "params" => format!(in alloc;
            "`params` has to be a list of parameters"
        ),
        Expected::Text if member == "code" => format!(in alloc; "`code` has to be a text"),
        _ => format!(in alloc; "`{member}` has to be a list of texts"),
    }
}

/// The sentence on a parameter of another shape.
fn param_sentence(alloc: Global, expected: Expected) -> Result<String, NoMemory> {
    match expected {
        Expected::Word => format!(in alloc;
            "a parameter has to have a `name`, a text that isn't empty"
        ),
        Expected::Known => format!(in alloc;
            "a parameter has to have a `kind`, `text`, `number`, `truth` or `any`"
        ),
        Expected::New => format!(in alloc;
            "an earlier parameter of this handler has the same `name`"
        ),
        _ => format!(in alloc; "a parameter has to be an object with `name` and `kind`"),
    }
}

/// The sentence on a member that has more elements than it may have.
fn few_sentence(alloc: Global, member: &str, limit: usize) -> Result<String, NoMemory> {
    let limit = grouped(alloc, limit)?;
    match member {
        "params" => format!(in alloc; "the handler has more than {limit} parameters"),
        "texts" => format!(in alloc; "the handler has more than {limit} texts"),
        "calls" => format!(in alloc; "the handler calls more than {limit} commands"),
        _ => format!(in alloc; "the handler has more than {limit} instructions"),
    }
}

/// The sentence on a number outside its limits.
fn within_sentence(alloc: Global, member: &str, limit: u32) -> Result<String, NoMemory> {
    let limit = grouped(alloc, limit as usize)?;
    format!(in alloc; "`{member}` has to be 1 to {limit}")
}

/// The sentence on a handler with the command of an earlier one.
fn repeated_sentence(alloc: Global, value: &Value, handler: usize) -> Result<String, NoMemory> {
    let handlers = value.get("handlers").and_then(Value::as_array);
    let command = match handlers.and_then(|list| list.get(handler)) {
        Some(handler) => command_of(handler),
        None => "",
    };
    format!(in alloc; "an earlier handler has the same command, `{command}`")
}
