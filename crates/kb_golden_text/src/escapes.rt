//! Escapes of golden files. `⟨9⟩` and `⟨ef bb bf⟩` are bytes in hexadecimal digits, and `⟨⟩` is the empty
//! text. `⟨64*(⟩` repeats a piece 64 times; in the piece `#` is the number of the repetition, counted from
//! 1, and `~` is that number less one. Any other text between `⟨` and `⟩` is no escape.
use std::alloc::{AllocError, Global};

/// The bytes that words of hexadecimal digits denote; `None` where a word isn't such a number.
fn bytes_of_digits(alloc: Global, digits: &str) -> Result<Option<Vec<u8>>, AllocError> {
    let mut bytes = Vec::new(alloc);
    for word in digits.split_whitespace() {
        let Ok(byte) = u8::from_str_radix(word, 16) else {
            return Ok(None);
        };
        bytes.push(byte).map_err(AllocError::from)?;
    }
    Ok(Some(bytes))
}

fn add_number(alloc: Global, bytes: &mut Vec<u8>, number: usize) -> Result<(), AllocError> {
    let text = format!(in alloc; "{number}")?;
    bytes.extend_from_slice(text.as_bytes())
}

/// Appends one repetition of a piece; `before` counts the repetitions before it.
fn add_repetition(
    alloc: Global,
    bytes: &mut Vec<u8>,
    piece: &str,
    before: usize,
) -> Result<(), AllocError> {
    for byte in piece.as_bytes() {
        match byte {
            b'#' => add_number(alloc, bytes, before.saturating_add(1))?,
            b'~' => add_number(alloc, bytes, before)?,
            _ => bytes.push(*byte).map_err(AllocError::from)?,
        }
    }
    Ok(())
}

fn add_repetitions(
    alloc: Global,
    bytes: &mut Vec<u8>,
    count: usize,
    piece: &str,
) -> Result<(), AllocError> {
    for before in 0..count {
        add_repetition(alloc, bytes, piece, before)?;
    }
    Ok(())
}

fn add_unchanged(bytes: &mut Vec<u8>, escape: &str) -> Result<(), AllocError> {
    bytes.extend_from_slice("⟨".as_bytes())?;
    bytes.extend_from_slice(escape.as_bytes())?;
    bytes.extend_from_slice("⟩".as_bytes())
}

fn add_digits(alloc: Global, bytes: &mut Vec<u8>, digits: &str) -> Result<(), AllocError> {
    match bytes_of_digits(alloc, digits)? {
        Some(more) => bytes.extend_from_slice(more.as_slice()),
        None => add_unchanged(bytes, digits),
    }
}

fn add_escape(alloc: Global, bytes: &mut Vec<u8>, escape: &str) -> Result<(), AllocError> {
    match escape.split_once('*') {
        Some((count, piece)) => match count.parse::<usize>() {
            Ok(count) => add_repetitions(alloc, bytes, count, piece),
            Err(_) => add_unchanged(bytes, escape),
        },
        None => add_digits(alloc, bytes, escape),
    }
}

/// `prefix`, followed by the bytes that an escaped text denotes.
pub fn unescape(alloc: Global, prefix: &[u8], text: &str) -> Result<Vec<u8>, AllocError> {
    let mut bytes = Vec::from_slice(alloc, prefix)?;
    for piece in text.split('⟨') {
        match piece.split_once('⟩') {
            Some((escape, rest)) => {
                add_escape(alloc, &mut bytes, escape)?;
                bytes.extend_from_slice(rest.as_bytes())?;
            }
            None => bytes.extend_from_slice(piece.as_bytes())?,
        }
    }
    Ok(bytes)
}

/// An output on one line: the empty text, tabs and line ends are escaped.
pub fn escape(alloc: Global, output: &str) -> Result<String, AllocError> {
    if output.is_empty() {
        return String::from_str(alloc, "⟨⟩");
    }
    let mut line = String::new(alloc);
    for character in output.chars() {
        match character {
            '\t' => line.push_str("⟨9⟩")?,
            '\n' => line.push_str("⟨a⟩")?,
            '\r' => line.push_str("⟨d⟩")?,
            _ => line.push(character)?,
        }
    }
    Ok(line)
}
