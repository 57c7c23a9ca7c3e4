//! Positions and ranges, as the language server protocol has them.

/// A place in a text. Both numbers are counted from 0.
#[derive(Clone, Copy, Debug, PartialEq, Eq)]
pub struct Position {
    /// The number of the line.
    pub line: usize,
    /// The column, in code units of the encoding that the client asked for.
    pub character: usize,
}

/// A part of a text, from a position up to another one.
#[derive(Clone, Copy, Debug, PartialEq, Eq)]
pub struct Range {
    /// Where it begins.
    pub start: Position,
    /// Where it ends.
    pub end: Position,
}
