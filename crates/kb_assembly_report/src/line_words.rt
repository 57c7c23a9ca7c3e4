//! Where the words of a line are.

/// Whether a byte is white space.
fn is_blank(byte: u8) -> bool {
    byte == b' ' || byte == b'\t' || byte == b'\r'
}

/// The index behind a word without quotes that an index is in.
fn bare_end(line: &[u8], from: usize) -> usize {
    let rest = line.get(from..).unwrap_or(&[]);
    for (place, byte) in rest.iter().enumerate() {
        if is_blank(*byte) || *byte == b';' {
            return from.saturating_add(place);
        }
    }
    line.len()
}

/// The index behind the quotes that end a text, which goes on at an index; the end of the line without them.
fn quoted_end(line: &[u8], from: usize) -> usize {
    let rest = line.get(from..).unwrap_or(&[]);
    let mut is_escaped = false;
    for (place, byte) in rest.iter().enumerate() {
        if is_escaped {
            is_escaped = false;
        } else if *byte == b'\\' {
            is_escaped = true;
        } else if *byte == b'"' {
            return from.saturating_add(place).saturating_add(1);
        }
    }
    line.len()
}

/// Where the first word from an index on begins and ends, if there is one before the comment.
fn word_from(line: &[u8], from: usize) -> Option<(usize, usize)> {
    let rest = line.get(from..).unwrap_or(&[]);
    for (place, byte) in rest.iter().enumerate() {
        let at = from.saturating_add(place);
        if *byte == b';' {
            return None;
        }
        if *byte == b'"' {
            return Some((at, quoted_end(line, at.saturating_add(1))));
        }
        if !is_blank(*byte) {
            return Some((at, bare_end(line, at)));
        }
    }
    None
}

/// Where a word of a line begins and ends: the end of its last word if the line has no such word.
pub(crate) fn word_span(line: &[u8], word: usize) -> (usize, usize) {
    let mut last = 0usize;
    for _ in 0..word {
        match word_from(line, last) {
            Some((_, end)) => last = end,
            None => return (last, last),
        }
    }
    word_from(line, last).unwrap_or((last, last))
}

/// Where the word begins and ends that a byte of a line is in. The end of the line is in the last word.
pub(crate) fn word_around(line: &[u8], byte: usize) -> (usize, usize) {
    let mut last = 0usize;
    for _ in line {
        match word_from(line, last) {
            Some((begin, end)) if byte < end || end == line.len() => return (begin, end),
            Some((_, end)) => last = end,
            None => return (byte, byte),
        }
    }
    (byte, byte)
}
