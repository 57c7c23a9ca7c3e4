//! Changes of a file as a unified diff without context, which `patch -p0` takes.
use crate::guess::Change;
use crate::text_lines::text_of;
use kb_base::NoMemory;

/// A line of a file: its number, and where it begins and ends, with its line feed.
#[derive(Clone, Copy)]
pub(crate) struct Line {
    number: usize,
    begin: usize,
    end: usize,
}

/// The index behind the line feed of the line that an index is in, or the end of the text.
fn line_end(bytes: &[u8], from: usize) -> usize {
    let rest = bytes.get(from..).unwrap_or(&[]);
    for (place, byte) in rest.iter().enumerate() {
        if *byte == b'\n' {
            return from.saturating_add(place).saturating_add(1);
        }
    }
    bytes.len()
}

/// The first line of a file.
pub(crate) fn first_line(bytes: &[u8]) -> Line {
    Line {
        number: 1,
        begin: 0,
        end: line_end(bytes, 0),
    }
}

/// The line that an index is in, from an earlier line on.
pub(crate) fn line_with(bytes: &[u8], index: usize, from: Line) -> Line {
    let rest = bytes.get(from.begin..index).unwrap_or(&[]);
    let (mut number, mut begin) = (from.number, from.begin);
    for (place, byte) in rest.iter().enumerate() {
        if *byte == b'\n' {
            number = number.saturating_add(1);
            begin = from.begin.saturating_add(place).saturating_add(1);
        }
    }
    Line {
        number,
        begin,
        end: line_end(bytes, begin),
    }
}

impl Line {
    /// Whether an index is in the line.
    pub(crate) fn has(self, index: usize) -> bool {
        self.begin <= index && index < self.end
    }
}

/// The text between two indexes.
fn between(bytes: &[u8], from: usize, to: usize) -> &str {
    text_of(bytes.get(from..to).unwrap_or(&[]))
}

/// Ends a line of a diff: a last line without a line feed is marked.
fn end_line(bytes: &[u8], line: Line, text: &mut String) -> Result<(), NoMemory> {
    match bytes.get(line.end.saturating_sub(1)) {
        Some(b'\n') => Ok(()),
        _ => text.push_str("\n\\ No newline at end of file\n"),
    }
}

/// Writes the line before its changes.
fn write_old(bytes: &[u8], line: Line, mark: &str, text: &mut String) -> Result<(), NoMemory> {
    text.push('-')?;
    text.push_str(mark)?;
    text.push_str(between(bytes, line.begin, line.end))?;
    end_line(bytes, line, text)
}

/// Writes the line with its changes, which stand in order. One that begins in an earlier one is left out.
fn write_new(
    bytes: &[u8],
    line: Line,
    mark: &str,
    changes: &[Change<'_>],
    text: &mut String,
) -> Result<(), NoMemory> {
    text.push('+')?;
    text.push_str(mark)?;
    let mut at = line.begin;
    for change in changes {
        if change.span.begin >= at {
            text.push_str(between(bytes, at, change.span.begin))?;
            text.push_str(change.text)?;
            at = change.span.end;
        }
    }
    text.push_str(between(bytes, at, line.end))?;
    end_line(bytes, line, text)
}

/// Writes a line and what changes of it make of it behind a text. `mark` is the byte order mark of the file,
/// if it has one.
pub(crate) fn write_change(
    bytes: &[u8],
    line: Line,
    mark: &str,
    changes: &[Change<'_>],
    text: &mut String,
) -> Result<(), NoMemory> {
    let number = line.number;
    let mark = if line.begin == 0 { mark } else { "" };
    write!(text, "@@ -{number} +{number} @@\n")?;
    write_old(bytes, line, mark, text)?;
    write_new(bytes, line, mark, changes, text)
}

/// Writes the lines that name a file.
pub(crate) fn write_names(path: &str, text: &mut String) -> Result<(), NoMemory> {
    let end = if path.contains(" ") { "\t" } else { "" };
    write!(text, "--- {path}{end}\n+++ {path}{end}\n")
}
