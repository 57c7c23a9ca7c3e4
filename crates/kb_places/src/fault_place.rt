//! Where a file that is no JSON with comments has its fault.
ghost use Rattle.std.specs.Prelude.{◌≡◌, IfOk};

use crate::scan::string_end;
use kb_base::{NoMemory, is_blank};
use kb_jsonc::{JsoncFault, plain};
use serde_json::Value;
use std::alloc::{AllocError, Global};

/// Why a file isn't read, and where.
#[derive(Clone, Copy, Debug)]
pub struct Misread {
    /// Its fault.
    pub fault: JsoncFault,
    /// The index of the byte where the fault is.
    pub at: usize,
}

/// The index of the first byte that belongs to no UTF-8 text.
fn first_broken(bytes: &[u8]) -> usize {
    match str::from_utf8(bytes) {
        Ok(_) => bytes.len(),
        Err(error) => error.valid_up_to(),
    }
}

/// The index behind a line comment from `from` on.
fn line_end(text: &[u8], from: usize) -> usize {
    let mut at = from;
    while at < text.len() && text[at] != b'\n' && text[at] != b'\r' {
        at += 1;
    }
    at
}

/// The index behind `*/` from `from` on, if there is one.
fn block_end(text: &[u8], from: usize) -> Option<usize> {
    let mut at = from;
    while at < text.len() {
        if text[at] == b'*' && text.get(at + 1) == Some(&b'/') {
            return Some(at.saturating_add(2));
        }
        at += 1;
    }
    None
}

/// The index behind a comment that begins at `at`, or `None` where it has no end. What begins no comment is
/// one byte.
fn comment_end(text: &[u8], at: usize) -> Option<usize> {
    match text.get(at.saturating_add(1)) {
        Some(b'/') => Some(line_end(text, at.saturating_add(2))),
        Some(b'*') => block_end(text, at.saturating_add(2)),
        _ => Some(at.saturating_add(1)),
    }
}

/// The index behind a string that begins at `at`, or `None` where it has no end.
fn closed_string_end(text: &[u8], at: usize) -> Option<usize> {
    let end = string_end(text, at.saturating_add(1));
    if end > at.saturating_add(1) && text.get(end.saturating_sub(1)) == Some(&b'"') {
        return Some(end);
    }
    None
}

/// The index at which the first comment or string begins that has no end.
fn first_open(text: &[u8]) -> usize {
    let mut at = 0;
    while at < text.len() {
        let end = match text[at] {
            b'"' => closed_string_end(text, at),
            b'/' => comment_end(text, at),
            _ => Some(at.saturating_add(1)),
        };
        match end {
            Some(end) if end > at => at = end,
            _ => return at,
        }
    }
    at
}

/// The index of a line's column, both counted from 1; the column counts bytes, and only LF ends a line.
fn index_of(text: &[u8], line: usize, column: usize) -> usize {
    let mut rest = line;
    let mut begin = 0;
    for (index, byte) in text.iter().enumerate() {
        if rest <= 1 {
            break;
        }
        if *byte == b'\n' {
            rest -= 1;
            begin = index.saturating_add(1);
        }
    }
    begin
        .saturating_add(column.saturating_sub(1))
        .min(text.len())
}

/// The index where a text without comments stops being JSON.
fn syntax_place(alloc: Global, text: &str) -> Result<usize, NoMemory> {
    match Value::from_str(alloc, text) {
        Ok(_) => Ok(0),
        Err(error) if error.is_memory() => Err(AllocError),
        Err(error) => {
            let at = index_of(text.as_bytes(), error.line(), error.column());
            Ok(wrong_bracket(alloc, text, at)?.unwrap_or(at))
        }
    }
}

/// The index of the last byte before `at` that isn't blank, if there is one.
fn last_before(text: &[u8], at: usize) -> Option<usize> {
    text[..at.min(text.len())]
        .iter()
        .rposition(|byte| !is_blank(*byte))
}

/// The index of the closing bracket before `at`, if it is wrong: then the text up to it is no beginning of a
/// JSON text. The reader names the place behind a bracket that closes nothing or closes too early.
fn wrong_bracket(alloc: Global, text: &str, at: usize) -> Result<Option<usize>, NoMemory> {
    let Some(last) = last_before(text.as_bytes(), at) else {
        return Ok(None);
    };
    let Some(front) = text.get(..last.saturating_add(1)) else {
        return Ok(None);
    };
    if !front.ends_with('}') && !front.ends_with(']') {
        return Ok(None);
    }
    match Value::from_str(alloc, front) {
        Ok(_) => Ok(None),
        Err(error) if error.is_memory() => Err(AllocError),
        Err(error) => Ok((!error.is_eof()).then_some(last)),
    }
}

/// The place of a fault that reading these bytes, which have no byte order mark, gave.
pub fn find_fault(alloc: Global, bytes: &[u8], fault: JsoncFault) -> Result<Misread, NoMemory>
    ensures { IfOk result (λ misread. misread.fault ≡ fault) }
{
    let at = match fault {
        JsoncFault::NotUtf8 => first_broken(bytes),
        JsoncFault::OpenComment | JsoncFault::OpenString => first_open(bytes),
        JsoncFault::Syntax => plain_fault(alloc, bytes)?,
    };
    Ok(Misread { fault, at })
}

/// The index where a text with comments stops being JSON.
fn plain_fault(alloc: Global, bytes: &[u8]) -> Result<usize, NoMemory> {
    let Ok(text) = str::from_utf8(bytes) else {
        return Ok(0);
    };
    match plain(alloc, text) {
        Ok(plain) => syntax_place(alloc, plain.as_str()),
        Err(_) => Ok(0),
    }
}
