//! Problems as lines for people: a sentence with the place, and below it the line of the file with a caret.
ghost use Rattle.std.specs.Prelude.{◌≡◌};

use kb_base::NoMemory;
use kb_places::{Position, Walker};
use kb_problems::Problem;

/// The most characters of a line that are shown. A line of no more bytes is shown from its beginning on.
const WIDTH: usize = 160;

/// The most characters of a longer line that are shown before the caret.
const BEFORE: usize = 99;

/// Writes the line of a problem behind a text.
pub(crate) fn write_headline(
    problem: &Problem,
    path: &str,
    position: Option<Position>,
    text: &mut String,
) -> Result<(), NoMemory> {
    text.push_str(path)?;
    if let Some(Position { line, column }) = position {
        write!(text, ":{line}:{column}")?;
    }
    let severity = problem.cause.severity().name();
    write!(text, ": {severity}: ")?;
    if let Some(fault) = problem.cause.fault() {
        let number = fault.number();
        write!(text, "{number} ")?;
    }
    let name = problem.cause.name();
    let sentence = problem.sentence.as_str();
    write!(text, "{name}: {sentence}\n")
}

/// Whether a byte ends a line.
fn ends_line(byte: u8) -> bool {
    byte == b'\n' || byte == b'\r'
}

/// Whether a byte is inside a character, behind its first one.
fn is_inside(byte: u8) -> bool {
    128 <= byte && byte <= 191
}

/// The bytes from an index on, as far as the line goes, but no more than so many characters.
fn shown_from(bytes: &[u8], from: usize, count: usize) -> &[u8] {
    let rest = bytes.get(from..).unwrap_or(&[]);
    let mut left = count;
    for (index, byte) in rest.iter().enumerate() {
        if ends_line(*byte) {
            return &rest[..index];
        }
        if !is_inside(*byte) {
            if left == 0 {
                return &rest[..index];
            }
            left -= 1;
        }
    }
    rest
}

/// Whether the line that begins at an index is longer than what is shown of a line.
fn is_long(bytes: &[u8], begin: usize) -> bool {
    let rest = bytes.get(begin..).unwrap_or(&[]);
    for byte in rest.iter().take(WIDTH) {
        if ends_line(*byte) {
            return false;
        }
    }
    match rest.get(WIDTH) {
        Some(byte) => !ends_line(*byte),
        None => false,
    }
}

/// The index of the first character that is shown of a line before an index in it.
fn first_shown(bytes: &[u8], begin: usize, at: usize) -> usize {
    if !is_long(bytes, begin) {
        return begin;
    }
    let mut from = at;
    let mut left = BEFORE;
    while begin < from && left > 0 {
        from -= 1;
        match bytes.get(from) {
            Some(byte) if is_inside(*byte) => {}
            _ => left -= 1,
        }
    }
    from
}

/// The text of a part of a file, up to the first byte that belongs to no text.
pub(crate) fn text_of(bytes: &[u8]) -> &str {
    match str::from_utf8(bytes) {
        Ok(text) => text,
        Err(error) => match bytes.get(..error.valid_up_to()) {
            Some(front) => str::from_utf8(front).unwrap_or(""),
            None => "",
        },
    }
}

/// Writes the line of a file that begins at an index behind a text, with a caret below a byte of it. Of a
/// long line the part round the caret is shown, and no other byte of it is read.
pub(crate) fn write_source(
    bytes: &[u8],
    begin: usize,
    at: usize,
    text: &mut String,
) -> Result<(), NoMemory> {
    let from = first_shown(bytes, begin, at);
    let line = text_of(shown_from(bytes, from, WIDTH));
    if line.is_empty() {
        return Ok(());
    }
    text.push_str("    ")?;
    text.push_str(line)?;
    text.push_str("\n    ")?;
    write_blanks(text_of(bytes.get(from..at).unwrap_or(&[])), text)?;
    text.push_str("^\n")
}

/// Writes a blank for each character of a part of a line; tabs stay tabs.
fn write_blanks(part: &str, text: &mut String) -> Result<(), NoMemory> {
    for character in part.chars() {
        text.push(if character == '\t' { '\t' } else { ' ' })?;
    }
    Ok(())
}

/// Writes a problem with its position behind a text.
pub(crate) fn write_problem(
    problem: &Problem,
    path: &str,
    position: Option<Position>,
    walker: &mut Walker<'_>,
    bytes: &[u8],
    text: &mut String,
) -> Result<(), NoMemory>
    ensures { walker.new.text.now ≡ walker.old.text.now }
{
    write_headline(problem, path, position, text)?;
    match problem.span {
        Some(span) => {
            let at = span.begin.min(bytes.len());
            let begin = walker.line_begin(at);
            write_source(bytes, begin, at, text)
        }
        None => Ok(()),
    }
}
