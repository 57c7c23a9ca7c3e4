//! Problems as JSON, one object a line.
use kb_base::NoMemory;
use kb_places::Position;
use kb_problems::Problem;
use kb_report::{add_number, add_text};
use serde_json::{Map, Value};
use std::alloc::Global;

/// The object of a problem.
fn object_of(
    alloc: Global,
    problem: &Problem,
    path: &str,
    position: Option<Position>,
) -> Result<Value, NoMemory> {
    let mut members = Map::new(alloc);
    add_text(alloc, "path", path, &mut members)?;
    if let Some(Position { line, column }) = position {
        add_number(alloc, "line", line as u64, &mut members)?;
        add_number(alloc, "column", column as u64, &mut members)?;
    }
    add_text(alloc, "kind", problem.cause.kind(), &mut members)?;
    if let Some(fault) = problem.cause.fault() {
        add_number(alloc, "number", u64::from(fault.number()), &mut members)?;
    }
    add_text(alloc, "name", problem.cause.name(), &mut members)?;
    add_text(alloc, "message", problem.sentence.as_str(), &mut members)?;
    let severity = problem.cause.severity();
    add_text(alloc, "severity", severity.name(), &mut members)?;
    Ok(Value::Object(members))
}

/// Writes a problem behind a text.
pub(crate) fn write_object(
    alloc: Global,
    problem: &Problem,
    path: &str,
    position: Option<Position>,
    text: &mut String,
) -> Result<(), NoMemory> {
    let object = object_of(alloc, problem, path, position)?;
    let line = object.to_string(alloc)?;
    text.push_str(line.as_str())?;
    text.push_str("\n")
}
