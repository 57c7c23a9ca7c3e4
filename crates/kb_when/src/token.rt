//! Tokens of clauses.
use crate::operator::Operator;
use kb_base::Text;

/// A token of a clause. `===` is read as `==`, and `!==` as `!=`.
#[derive(Drop)]
pub(crate) enum Token {
    /// `||`.
    Or,
    /// `&&`.
    And,
    /// `!`.
    Not,
    /// `(`.
    Open,
    /// `)`.
    Close,
    /// `==`.
    Equal,
    /// `!=`.
    Unequal,
    /// `<`, `<=`, `>` or `>=`, with white space around it.
    Comparison(Operator),
    /// `=~`.
    Like,
    /// A word: a key, a value, a number, `true`, `false`, `in` or `not`.
    Word(Text),
    /// The text between single quotes.
    Quoted(Text),
    /// The pattern between slashes, and the letters after it.
    Pattern(Text, Text),
}
