//! Double quotes in the text of a clause.

/// Where a byte of a clause stands.
#[derive(Clone, Copy, Debug, PartialEq, Eq)]
enum Spot {
    /// In a word or a sign, or between them.
    Plain,
    /// Behind a `=`.
    BehindEqual,
    /// Behind `=~` and blanks, where a pattern may begin.
    BehindLike,
    /// In a text in single quotes.
    Quoted,
    /// In a pattern.
    Pattern,
    /// In a pattern, behind a backslash.
    Escaped,
    /// In brackets in a pattern.
    Class,
    /// In brackets in a pattern, behind a backslash.
    EscapedInClass,
}

impl Spot {
    /// The spot behind a byte that is in no text in single quotes and in no pattern.
    fn behind_plain(self, byte: u8) -> Spot {
        match byte {
            b'=' => Spot::BehindEqual,
            b'~' if self == Spot::BehindEqual => Spot::BehindLike,
            b'/' if self == Spot::BehindLike => Spot::Pattern,
            b' ' | b'\t' | b'\r' | b'\n' if self == Spot::BehindLike => Spot::BehindLike,
            b'\'' => Spot::Quoted,
            _ => Spot::Plain,
        }
    }

    /// The spot behind a byte of a pattern.
    fn behind_in_pattern(self, byte: u8) -> Spot {
        match byte {
            b'\\' => Spot::Escaped,
            b'[' => Spot::Class,
            b'/' => Spot::Plain,
            _ => Spot::Pattern,
        }
    }

    /// The spot behind a byte in brackets in a pattern.
    fn behind_in_class(self, byte: u8) -> Spot {
        match byte {
            b'\\' => Spot::EscapedInClass,
            b']' => Spot::Pattern,
            _ => Spot::Class,
        }
    }

    /// The spot behind a byte.
    fn behind(self, byte: u8) -> Spot {
        match self {
            Spot::Plain | Spot::BehindEqual | Spot::BehindLike => self.behind_plain(byte),
            Spot::Quoted if byte == b'\'' => Spot::Plain,
            Spot::Quoted => Spot::Quoted,
            Spot::Pattern => self.behind_in_pattern(byte),
            Spot::Escaped => Spot::Pattern,
            Spot::Class => self.behind_in_class(byte),
            Spot::EscapedInClass => Spot::Class,
        }
    }

    /// Whether a double quote is a part of a word here.
    fn is_plain(self) -> bool {
        matches!(self, Spot::Plain | Spot::BehindEqual | Spot::BehindLike)
    }
}

/// Whether a clause has a double quote in a word: not in a text in single quotes, and not in a pattern.
pub(crate) fn has_double_quotes(clause: &str) -> bool {
    let mut spot = Spot::Plain;
    for byte in clause.as_bytes() {
        if *byte == b'"' && spot.is_plain() {
            return true;
        }
        spot = spot.behind(*byte);
    }
    false
}
