//! Problems as one document of SARIF 2.1.0, the static analysis results interchange format of OASIS. Each
//! problem is a result on a line of its own.
use kb_base::NoMemory;
use kb_places::Position;
use kb_problems::{Problem, Severity};
use kb_report::{add_member, add_number, add_text};
use serde_json::{Map, Value};
use std::alloc::Global;

/// What stands before the results. Columns count characters.
pub(crate) const HEAD: &str = "{\"$schema\":\"https://json.schemastore.org/sarif-2.1.0.json\",\
\"version\":\"2.1.0\",\"runs\":[{\"tool\":{\"driver\":{\"name\":\"keycheck\"}},\
\"columnKind\":\"unicodeCodePoints\",\"results\":[";

/// What stands behind the results.
const END: &str = "\n]}]}\n";

/// The digits of a byte in a path that is written as a reference.
const DIGITS: [char; 16] = [
    '0', '1', '2', '3', '4', '5', '6', '7', '8', '9', 'A', 'B', 'C', 'D', 'E', 'F',
];

/// Whether a byte of a path stands for itself in a reference (RFC 3986).
fn is_plain(byte: u8) -> bool {
    byte.is_ascii_alphanumeric() || matches!(byte, b'-' | b'.' | b'_' | b'~' | b'/')
}

/// A digit of a byte.
fn digit(number: u8) -> char {
    match DIGITS.get(usize::from(number)) {
        Some(digit) => *digit,
        None => '0',
    }
}

/// A path as a reference to a file.
fn reference_of(alloc: Global, path: &str) -> Result<String, NoMemory> {
    let mut reference = String::new(alloc);
    for byte in path.as_bytes() {
        if is_plain(*byte) {
            reference.push(char::from(*byte))?;
        } else {
            reference.push('%')?;
            reference.push(digit(*byte / 16))?;
            reference.push(digit(*byte % 16))?;
        }
    }
    Ok(reference)
}

/// The word for a severity.
fn level_of(severity: Severity) -> &'static str {
    match severity {
        Severity::Error => "error",
        Severity::Warning => "warning",
        Severity::Note => "note",
    }
}

/// An object with one member that is a text.
fn object_with_text(alloc: Global, name: &str, text: &str) -> Result<Value, NoMemory> {
    let mut members = Map::new(alloc);
    add_text(alloc, name, text, &mut members)?;
    Ok(Value::Object(members))
}

/// The region that begins at a position.
fn region_at(alloc: Global, position: Position) -> Result<Value, NoMemory> {
    let mut members = Map::new(alloc);
    add_number(alloc, "startLine", position.line as u64, &mut members)?;
    add_number(alloc, "startColumn", position.column as u64, &mut members)?;
    Ok(Value::Object(members))
}

/// The place of a problem in a file.
fn physical_location(
    alloc: Global,
    path: &str,
    position: Option<Position>,
) -> Result<Value, NoMemory> {
    let mut members = Map::new(alloc);
    let reference = reference_of(alloc, path)?;
    let file = object_with_text(alloc, "uri", reference.as_str())?;
    add_member(alloc, "artifactLocation", file, &mut members)?;
    if let Some(position) = position {
        add_member(alloc, "region", region_at(alloc, position)?, &mut members)?;
    }
    Ok(Value::Object(members))
}

/// The list of the one place of a problem.
fn locations(alloc: Global, path: &str, position: Option<Position>) -> Result<Value, NoMemory> {
    let mut members = Map::new(alloc);
    let place = physical_location(alloc, path, position)?;
    add_member(alloc, "physicalLocation", place, &mut members)?;
    let mut list = Vec::new(alloc);
    list.push(Value::Object(members))?;
    Ok(Value::Array(list))
}

/// The result of a problem.
fn result_of(
    alloc: Global,
    problem: &Problem,
    path: &str,
    position: Option<Position>,
) -> Result<Value, NoMemory> {
    let mut members = Map::new(alloc);
    add_text(alloc, "ruleId", problem.cause.name(), &mut members)?;
    add_text(
        alloc,
        "level",
        level_of(problem.cause.severity()),
        &mut members,
    )?;
    let message = object_with_text(alloc, "text", problem.sentence.as_str())?;
    add_member(alloc, "message", message, &mut members)?;
    let places = locations(alloc, path, position)?;
    add_member(alloc, "locations", places, &mut members)?;
    Ok(Value::Object(members))
}

/// Writes a result behind a text, the first one or a further one.
fn write_line(
    alloc: Global,
    value: &Value,
    is_first: bool,
    text: &mut String,
) -> Result<(), NoMemory> {
    let line = value.to_string(alloc)?;
    text.push_str(if is_first { "\n" } else { ",\n" })?;
    text.push_str(line.as_str())
}

/// Writes a problem behind a text, as the first result or a further one.
pub(crate) fn write_result(
    alloc: Global,
    problem: &Problem,
    path: &str,
    position: Option<Position>,
    is_first: bool,
    text: &mut String,
) -> Result<(), NoMemory> {
    let value = result_of(alloc, problem, path, position)?;
    write_line(alloc, &value, is_first, text)
}

/// The result of a name that was given for files, but that no file and no extension has.
fn unknown_result(alloc: Global, name: &str) -> Result<Value, NoMemory> {
    let mut members = Map::new(alloc);
    let sentence = format!(in alloc; "no file and no extension is called `{name}`")?;
    add_text(alloc, "ruleId", "unknown-name", &mut members)?;
    add_text(alloc, "level", "error", &mut members)?;
    let message = object_with_text(alloc, "text", sentence.as_str())?;
    add_member(alloc, "message", message, &mut members)?;
    Ok(Value::Object(members))
}

/// Writes a result for each name that no file and no extension has, and what stands behind the results.
pub(crate) fn write_last_results(
    alloc: Global,
    unknown: &[&str],
    is_first: bool,
    text: &mut String,
) -> Result<(), NoMemory> {
    let mut is_first = is_first;
    for name in unknown {
        let value = unknown_result(alloc, *name)?;
        write_line(alloc, &value, is_first, text)?;
        is_first = false;
    }
    text.push_str(END)
}
