//! Lines and columns.
ghost use Rattle.std.specs.Prelude.{◌≡◌, ◌<◌, ◌≤◌, ◌+◌, ◌^◌, if◌then◌else◌, length, min};
ghost use Rattle.kb_places.specs.Position.{begin, below, beside, behind, behind_feed, ends_line, head_at};
ghost use Rattle.kb_places.specs.Position.{IsLineBegin, position_of};

/// A place in a text as editors show it: both numbers are counted from 1, the column in characters.
#[derive(Clone, Copy, Debug, PartialEq, Eq)]
pub struct Position {
    /// The number of the line. A line ends with LF, CR LF or CR alone.
    pub line: usize,
    /// The number of the character in its line.
    pub column: usize,
}

/// A position, and whether the byte before it is CR.
#[derive(Clone, Copy)]
pub struct Head {
    pub(crate) position: Position,
    pub(crate) behind_return: bool,
}

/// The beginning of a text.
fn beginning() -> Head
    ensures { result ≡ begin }
{
    Head {
        position: Position { line: 1, column: 1 },
        behind_return: false,
    }
}

impl Head {
    /// The first character of the next line.
    fn below(self, behind_return: bool) -> Head
        requires { self.position.line < 2 ^ 63 }
        ensures { result ≡ below self behind_return }
    {
        Head {
            position: Position {
                line: self.position.line + 1,
                column: 1,
            },
            behind_return,
        }
    }

    /// The next character of the line.
    fn beside(self) -> Head
        requires { self.position.column < 2 ^ 63 }
        ensures { result ≡ beside self }
    {
        Head {
            position: Position {
                line: self.position.line,
                column: self.position.column + 1,
            },
            behind_return: false,
        }
    }

    /// The place behind a line feed.
    fn behind_feed(self) -> Head
        requires { self.position.line < 2 ^ 63 }
        ensures { result ≡ behind_feed self }
    {
        if self.behind_return {
            Head {
                position: self.position,
                behind_return: false,
            }
        } else {
            self.below(false)
        }
    }

    /// The place behind a byte.
    fn behind(self, byte: u8) -> Head
        requires line { self.position.line < 2 ^ 63 }
        requires column { self.position.column < 2 ^ 63 }
        ensures { result ≡ behind self byte }
    {
        if byte == b'\n' {
            self.behind_feed()
        } else if byte == b'\r' {
            self.below(true)
        } else if 128 <= byte && byte <= 191 {
            self
        } else {
            self.beside()
        }
    }
}

/// Where the line of an index begins, if the line of the byte before the index begins at `begin`.
fn next_begin(byte: u8, index: usize, begin: usize) -> usize
    ensures { result ≡ (if ends_line byte then index else begin) }
{
    if byte == b'\n' || byte == b'\r' {
        index
    } else {
        begin
    }
}

/// Finds the positions of indices in a text. Indices that rise are found in one pass over the text.
#[derive(Clone, Copy)]
pub struct Walker<'t> {
    text: &'t [u8],
    at: usize,
    head: Head,
    line_begin: usize,
    ghost within: { at ≤ length text.now },
    ghost counted: { head ≡ head_at text.now at },
    ghost begun: { IsLineBegin text.now at line_begin },
}

impl<'t> Walker<'t> {
    /// A walker at the beginning of a text.
    #[tactic(auto, unfolding(crate::specs::Position::head_at), using(crate::proofs::LineLemmas::first_line))]
    pub fn new(text: &'t [u8]) -> Walker<'t>
        ensures text { result.text.now ≡ text.now }
        ensures begin { result.at ≡ 0 }
    {
        Walker {
            text,
            at: 0,
            head: beginning(),
            line_begin: 0,
        }
    }

    /// Goes over one byte.
    #[tactic(auto, using(crate::proofs::PositionLemmas::moving))]
    fn step(self) -> Walker<'t>
        requires { self.at < length self.text.now }
        ensures text { result.text.now ≡ self.entry.text.now }
        ensures next { result.at ≡ self.entry.at + 1 }
    {
        let byte = self.text[self.at];
        let at = self.at + 1;
        Walker {
            text: self.text,
            at,
            head: self.head.behind(byte),
            line_begin: next_begin(byte, at, self.line_begin),
        }
    }

    /// Goes to an index, or to the end of the text where it has none.
    fn to(self, index: usize) -> Walker<'t>
        ensures text { result.text.now ≡ self.entry.text.now }
        ensures at { result.at ≡ min index (length self.entry.text.now) }
    {
        let mut walker = if index < self.at {
            Walker::new(self.text)
        } else {
            self
        };
        while walker.at < index && walker.at < walker.text.len() {
            walker = walker.step();
        }
        walker
    }

    /// The position where the walker stands.
    fn here(self) -> Position
        ensures { result ≡ position_of self.entry.text.now self.entry.at }
    {
        self.head.position
    }

    /// Where the line begins in which the walker stands.
    fn begin(self) -> usize
        ensures { IsLineBegin self.entry.text.now self.entry.at result }
    {
        self.line_begin
    }

    /// The position of an index, or of the end of the text where it has none.
    pub fn position(&mut self, index: usize) -> Position
        ensures position { result ≡ position_of self.old.text.now (min index (length self.old.text.now)) }
        ensures text { self.new.text.now ≡ self.old.text.now }
    {
        let walker = (*self).to(index);
        *self = walker;
        walker.here()
    }

    /// The index of the first byte of the line that an index is in, or the end of the text where it has none.
    #[tactic(auto, using(crate::proofs::LineLemmas::same_line))]
    pub fn line_begin(&mut self, index: usize) -> usize
        ensures begin { IsLineBegin self.old.text.now (min index (length self.old.text.now)) result }
        ensures text { self.new.text.now ≡ self.old.text.now }
    {
        let walker = (*self).to(index);
        *self = walker;
        walker.begin()
    }
}
