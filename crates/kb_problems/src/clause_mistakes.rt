//! What is wrong with the text of a clause.
use kb_base::{FaultKind, NoMemory};
use std::alloc::Global;

/// Words of other languages, with what a clause has in their place.
fn sign_for(word: &str) -> Option<&'static str> {
    match word {
        "and" | "AND" | "And" => Some("&&"),
        "or" | "OR" | "Or" => Some("||"),
        "NOT" | "Not" => Some("!"),
        "===" | "is" | "equals" => Some("=="),
        "!==" | "<>" => Some("!="),
        _ => None,
    }
}

/// Whether a sign stands alone that a clause has only twice or behind another one.
fn is_lone(before: u8, sign: u8, after: u8) -> bool {
    match sign {
        b'=' => !matches!(before, b'=' | b'!' | b'<' | b'>') && !matches!(after, b'=' | b'~'),
        b'&' | b'|' => before != sign && after != sign,
        _ => false,
    }
}

/// What a clause has in place of a sign that stands alone.
fn doubled(sign: u8) -> Option<(&'static str, &'static str)> {
    match sign {
        b'=' => Some(("=", "==")),
        b'&' => Some(("&", "&&")),
        b'|' => Some(("|", "||")),
        _ => None,
    }
}

/// What is seen of a clause from its beginning up to a byte.
#[derive(Clone, Copy)]
struct Scan {
    /// The byte before the last one, and the last one; blanks before the beginning.
    before: u8,
    last: u8,
    /// Whether a single quote is open.
    quoted: bool,
    /// The first sign that stands alone outside of quotes.
    lone: Option<u8>,
    /// How many parentheses are open outside of quotes, and whether one is closed that isn't open.
    open: usize,
    is_closed: bool,
}

impl Scan {
    /// Nothing is seen yet.
    fn new() -> Scan {
        Scan {
            before: b' ',
            last: b' ',
            quoted: false,
            lone: None,
            open: 0,
            is_closed: false,
        }
    }

    /// The last byte is looked at with the one behind it, which is the last one then.
    fn with(self, byte: u8) -> Scan {
        let mut seen = self;
        if seen.last == b'\'' {
            seen.quoted = !seen.quoted;
        } else if !seen.quoted {
            if seen.lone.is_none() && is_lone(seen.before, seen.last, byte) {
                seen.lone = Some(seen.last);
            }
            match seen.last {
                b'(' => seen.open = seen.open.saturating_add(1),
                b')' if seen.open == 0 => seen.is_closed = true,
                b')' => seen.open = seen.open.saturating_sub(1),
                _ => {}
            }
        }
        seen.before = seen.last;
        seen.last = byte;
        seen
    }
}

/// What is seen of a whole clause.
fn whole_of(text: &str) -> Scan {
    let mut seen = Scan::new();
    for byte in text.as_bytes() {
        seen = seen.with(*byte);
    }
    seen.with(b' ')
}

/// The first word between spaces that another language has in place of a sign, with that sign.
fn foreign_word(text: &str) -> Option<(&str, &'static str)> {
    for word in text.split(' ') {
        if let Some(sign) = sign_for(word) {
            return Some((word, sign));
        }
    }
    None
}

/// The sign that a text ends with, which needs an operand behind it.
fn sign_at_end(text: &str) -> Option<&'static str> {
    for sign in ["&&", "||", "==", "!=", "=~", "<=", ">=", "<", ">", "!"].as_slice() {
        if text.ends_with(*sign) {
            return Some(*sign);
        }
    }
    if text.ends_with(" in") {
        Some("in")
    } else {
        None
    }
}

/// The sign of two operands that a text begins with.
fn sign_at_beginning(text: &str) -> Option<&'static str> {
    for sign in ["&&", "||", "==", "!=", "=~", "<", ">"].as_slice() {
        if text.starts_with(*sign) {
            return Some(*sign);
        }
    }
    None
}

/// A sentence on a clause with a part that is no token.
fn token_sentence(alloc: Global, text: &str) -> Result<Option<String>, NoMemory> {
    let seen = whole_of(text);
    if seen.quoted {
        return Ok(Some(String::from_str(alloc, "a quote `'` of the clause isn't closed")?));
    }
    match seen.lone.and_then(doubled) {
        Some((sign, both)) => Ok(Some(format!(in alloc;
            "the clause has a lone `{sign}`; write `{both}`"
        )?)),
        None => Ok(None),
    }
}

/// A sentence on a clause with a token, or its end, where the grammar doesn't allow it.
fn grammar_sentence(alloc: Global, text: &str) -> Result<Option<String>, NoMemory> {
    let text = text.trim();
    if text.is_empty() {
        return Ok(Some(String::from_str(alloc, "the clause is blank")?));
    }
    if let Some((word, sign)) = foreign_word(text) {
        return Ok(Some(format!(in alloc; "a clause has no `{word}`; write `{sign}`")?));
    }
    if let Some(sign) = sign_at_end(text) {
        return Ok(Some(format!(in alloc; "nothing stands behind the last `{sign}`")?));
    }
    if let Some(sign) = sign_at_beginning(text) {
        return Ok(Some(format!(in alloc; "nothing stands before the first `{sign}`")?));
    }
    let seen = whole_of(text);
    if seen.is_closed {
        return Ok(Some(String::from_str(alloc, "a `)` of the clause closes no `(`")?));
    }
    if seen.open > 0 {
        return Ok(Some(String::from_str(alloc, "a `(` of the clause isn't closed")?));
    }
    Ok(None)
}

/// A sentence on a clause that has a fault: the mistake that people make, where it is one of those that are
/// known, and else what the fault means.
pub(crate) fn clause_sentence(
    alloc: Global,
    kind: FaultKind,
    text: &str,
) -> Result<String, NoMemory> {
    let known = match kind {
        FaultKind::BadToken => token_sentence(alloc, text)?,
        FaultKind::Unexpected => grammar_sentence(alloc, text)?,
        _ => None,
    };
    match known {
        Some(sentence) => Ok(sentence),
        None => String::from_str(alloc, kind.meaning()),
    }
}
