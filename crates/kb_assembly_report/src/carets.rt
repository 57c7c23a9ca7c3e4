//! Faults as lines for people: a sentence with the place, and below it the line of the file with carets.
use crate::found::{Faults, Found, SHOWN, Spot};
use crate::line_words::{word_around, word_span};
use kb_base::NoMemory;

/// The most bytes of a line that are shown.
const WIDTH: usize = 160;

/// The most bytes of a longer line that are shown before the first caret.
const BEFORE: usize = 100;

/// Whether a byte is inside a character, behind its first one.
fn is_inside(byte: u8) -> bool {
    128 <= byte && byte <= 191
}

/// The number of characters of bytes. Bytes that are no text count one by one, as far as they begin no
/// character.
fn characters(bytes: &[u8]) -> usize {
    let mut count = 0usize;
    for byte in bytes {
        if !is_inside(*byte) {
            count = count.wrapping_add(1);
        }
    }
    count
}

/// The bytes of a line between two indexes.
fn part(line: &[u8], from: usize, to: usize) -> &[u8] {
    line.get(from..to).unwrap_or(&[])
}

/// Where a fault begins and ends in its line.
fn span_of(line: &[u8], spot: Spot) -> (usize, usize) {
    match spot {
        Spot::Byte(at) => (at, at),
        Spot::Word(word) => word_span(line, word),
        Spot::Around(byte) => word_around(line, byte),
    }
}

/// Writes bytes as text. A byte that no text can show becomes a question mark.
fn write_bytes(bytes: &[u8], text: &mut String) -> Result<(), NoMemory> {
    match str::from_utf8(bytes) {
        Ok(shown) => {
            for character in shown.chars() {
                text.push(if character < ' ' && character != '\t' {
                    '?'
                } else {
                    character
                })?;
            }
            Ok(())
        }
        Err(_) => {
            for byte in bytes {
                text.push(if b' ' <= *byte && *byte < 127 {
                    char::from(*byte)
                } else {
                    '?'
                })?;
            }
            Ok(())
        }
    }
}

/// Writes a blank for each character of a part of a line; tabs stay tabs.
fn write_blanks(bytes: &[u8], text: &mut String) -> Result<(), NoMemory> {
    for byte in bytes {
        if !is_inside(*byte) {
            text.push(if *byte == b'\t' { '\t' } else { ' ' })?;
        }
    }
    Ok(())
}

/// Writes a caret for each character of a part of a line, and at least one.
fn write_carets(bytes: &[u8], text: &mut String) -> Result<(), NoMemory> {
    text.push('^')?;
    for _ in 1..characters(bytes) {
        text.push('^')?;
    }
    Ok(())
}

/// The index of the first byte that is shown of a line with a fault at an index.
fn first_shown(line: &[u8], at: usize) -> usize {
    if line.len() <= WIDTH || at <= BEFORE {
        return 0;
    }
    let mut from = at.saturating_sub(BEFORE);
    for _ in 0..3 {
        match line.get(from) {
            Some(byte) if is_inside(*byte) => from = from.wrapping_add(1),
            _ => {}
        }
    }
    from
}

/// The index behind the last byte that is shown of a line, of which the bytes from an index on are.
fn last_shown(line: &[u8], from: usize) -> usize {
    let mut to = from.saturating_add(WIDTH).min(line.len());
    for _ in 0..3 {
        match line.get(to) {
            Some(byte) if is_inside(*byte) => to = to.saturating_sub(1),
            _ => {}
        }
    }
    to
}

/// The line without a carriage return at its end.
fn trimmed(line: &[u8]) -> &[u8] {
    match line {
        [front @ .., b'\r'] => front,
        _ => line,
    }
}

/// Writes a line of a file, and carets below a part of it.
pub(crate) fn write_source(
    line: &[u8],
    begin: usize,
    end: usize,
    text: &mut String,
) -> Result<(), NoMemory> {
    let from = first_shown(line, begin);
    let to = last_shown(line, from);
    text.push_str("    ")?;
    write_bytes(part(line, from, to), text)?;
    text.push_str("\n    ")?;
    write_blanks(part(line, from, begin), text)?;
    write_carets(part(line, begin, end.min(to)), text)?;
    text.push_str("\n")
}

/// Writes a fault: its place and sentence, and below it the line of the file, and carets.
fn write_found(path: &str, line: &[u8], found: &Found, text: &mut String) -> Result<(), NoMemory> {
    let line = trimmed(line);
    let (begin, end) = span_of(line, found.spot);
    let begin = begin.min(line.len());
    let number = found.line.saturating_add(1);
    let column = characters(part(line, 0, begin)).saturating_add(1);
    let sentence = found.sentence.as_str();
    write!(text, "{path}:{number}:{column}: {sentence}\n")?;
    write_source(line, begin, end, text)
}

/// Writes the faults of a line, from an index on. Returns the index behind the last of them.
fn write_line(
    path: &str,
    line: &[u8],
    number: usize,
    found: &[Found],
    from: usize,
    text: &mut String,
) -> Result<usize, NoMemory> {
    let mut next = from;
    for one in found.get(from..).unwrap_or(&[]) {
        if one.line != number {
            return Ok(next);
        }
        write_found(path, line, one, text)?;
        next = next.wrapping_add(1);
    }
    Ok(next)
}

/// Writes faults, which are in the order of their lines, each with its line, and how many more there are.
/// Error: `NoMemory`.
pub(crate) fn write_all(
    path: &str,
    bytes: &[u8],
    faults: &Faults,
    text: &mut String,
) -> Result<(), NoMemory> {
    let found = faults.found.as_slice();
    let shown = found.get(..SHOWN).unwrap_or(found);
    let mut next = 0usize;
    for (number, line) in bytes.split(|byte| *byte == b'\n').enumerate() {
        next = write_line(path, line, number, shown, next, text)?;
    }
    match faults.count.saturating_sub(next) {
        0 => Ok(()),
        more => write!(text, "{path}: {more} more faults\n"),
    }
}
