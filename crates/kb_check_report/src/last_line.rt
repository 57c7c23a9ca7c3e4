//! The last line: how many problems are shown, and how many aren't.
use crate::marks::Counts;
use kb_base::NoMemory;
use kb_report::{add_member, add_number};
use serde_json::{Map, Value};
use std::alloc::Global;

/// Adds a number of problems to a list, if there are some.
fn list_number(number: usize, word: &str, list: &mut String) -> Result<(), NoMemory> {
    if number == 0 {
        return Ok(());
    }
    let sign = if list.is_empty() { "" } else { ", " };
    let end = if number == 1 { "" } else { "s" };
    write!(list, "{sign}{number} {word}{end}")
}

/// How many problems are shown, with how many of each severity.
fn shown_text(alloc: Global, counts: &Counts) -> Result<String, NoMemory> {
    let mut list = String::new(alloc);
    list_number(counts.errors, "error", &mut list)?;
    list_number(counts.warnings, "warning", &mut list)?;
    list_number(counts.notes, "note", &mut list)?;
    match counts.shown() {
        0 => String::from_str(alloc, "no problem"),
        1 => format!(in alloc; "1 problem: {list}"),
        number => format!(in alloc; "{number} problems: {list}"),
    }
}

/// How many problems aren't shown, with the options that show them.
fn hidden_text(alloc: Global, counts: &Counts) -> Result<String, NoMemory> {
    let mut list = String::new(alloc);
    list_number(counts.low_warnings, "warning", &mut list)?;
    list_number(counts.low_notes, "note", &mut list)?;
    if counts.low_notes > 0 {
        list.push_str(" (--level note)")?;
    } else if counts.low_warnings > 0 {
        list.push_str(" (--level warning)")?;
    }
    if counts.elsewhere > 0 {
        let sign = if list.is_empty() { "" } else { ", " };
        let number = counts.elsewhere;
        write!(list, "{sign}{number} of other files (--only all)")?;
    }
    Ok(list)
}

/// Adds names that are of no file and of no extension, each behind a comma.
fn write_unknown(unknown: &[&str], text: &mut String) -> Result<(), NoMemory> {
    for name in unknown {
        write!(text, "; no file and no extension is called `{name}`")?;
    }
    Ok(())
}

/// Writes the last line behind a text, if there is a problem, or a name that no file and no extension has.
pub(crate) fn write_last_line(
    alloc: Global,
    counts: &Counts,
    unknown: &[&str],
    text: &mut String,
) -> Result<(), NoMemory> {
    let shown = shown_text(alloc, counts)?;
    let hidden = hidden_text(alloc, counts)?;
    if hidden.is_empty() && unknown.is_empty() && counts.shown() == 0 {
        return Ok(());
    }
    text.push_str(shown.as_str())?;
    if !hidden.is_empty() {
        write!(text, "; not shown: {hidden}")?;
    }
    write_unknown(unknown, text)?;
    text.push('\n')
}

/// The object of those that are shown.
fn shown_object(alloc: Global, counts: &Counts) -> Result<Value, NoMemory> {
    let mut members = Map::new(alloc);
    add_number(alloc, "errors", counts.errors as u64, &mut members)?;
    add_number(alloc, "notes", counts.notes as u64, &mut members)?;
    add_number(alloc, "warnings", counts.warnings as u64, &mut members)?;
    Ok(Value::Object(members))
}

/// The object of those that aren't shown.
fn hidden_object(alloc: Global, counts: &Counts) -> Result<Value, NoMemory> {
    let mut members = Map::new(alloc);
    add_number(alloc, "notes", counts.low_notes as u64, &mut members)?;
    add_number(alloc, "other_files", counts.elsewhere as u64, &mut members)?;
    add_number(alloc, "warnings", counts.low_warnings as u64, &mut members)?;
    Ok(Value::Object(members))
}

/// The list of some texts.
fn list_of(alloc: Global, texts: &[&str]) -> Result<Value, NoMemory> {
    let mut list = Vec::new(alloc);
    for text in texts {
        list.push(Value::String(String::from_str(alloc, *text)?))?;
    }
    Ok(Value::Array(list))
}

/// The last object.
fn last_object(alloc: Global, counts: &Counts, unknown: &[&str]) -> Result<Value, NoMemory> {
    let mut members = Map::new(alloc);
    add_member(
        alloc,
        "not_shown",
        hidden_object(alloc, counts)?,
        &mut members,
    )?;
    add_member(alloc, "shown", shown_object(alloc, counts)?, &mut members)?;
    if !unknown.is_empty() {
        add_member(alloc, "unknown", list_of(alloc, unknown)?, &mut members)?;
    }
    Ok(Value::Object(members))
}

/// Writes the last object behind a text.
pub(crate) fn write_last_object(
    alloc: Global,
    counts: &Counts,
    unknown: &[&str],
    text: &mut String,
) -> Result<(), NoMemory> {
    let object = last_object(alloc, counts, unknown)?;
    let line = object.to_string(alloc)?;
    text.push_str(line.as_str())?;
    text.push_str("\n")
}
