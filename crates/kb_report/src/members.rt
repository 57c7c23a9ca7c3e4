//! Members of an object that is written as JSON.
use kb_base::NoMemory;
use serde_json::{Map, Value};
use std::alloc::Global;

/// Adds a member. Error: `NoMemory`.
pub fn add_member(
    alloc: Global,
    name: &str,
    value: Value,
    members: &mut Map<String, Value>,
) -> Result<(), NoMemory> {
    members.insert(String::from_str(alloc, name)?, value)?;
    Ok(())
}

/// Adds a text as a member. Error: `NoMemory`.
pub fn add_text(
    alloc: Global,
    name: &str,
    text: &str,
    members: &mut Map<String, Value>,
) -> Result<(), NoMemory> {
    let value = Value::String(String::from_str(alloc, text)?);
    add_member(alloc, name, value, members)
}

/// Adds a number as a member. Error: `NoMemory`.
pub fn add_number(
    alloc: Global,
    name: &str,
    number: u64,
    members: &mut Map<String, Value>,
) -> Result<(), NoMemory> {
    add_member(alloc, name, Value::from(number), members)
}
