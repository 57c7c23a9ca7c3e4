//! Tokens that borrow their characters from the text. Finding them allocates nothing, so its result is
//! never `NoMemory`.
ghost use Rattle.std.specs.Prelude.{◌≡◌, IfOk, false};
ghost use Rattle.kb_when.specs.Characters.{bytes_of};
ghost use Rattle.kb_when.specs.Tokenizer.{pattern_text};

use crate::characters::text_of;
use crate::operator::Operator;
use crate::token::Token;
use kb_base::{NoMemory, Text};
use std::alloc::Global;

/// A token without a text.
#[derive(Clone, Copy)]
pub(crate) enum Sign {
    /// `||`.
    Or,
    /// `&&`.
    And,
    /// `!`.
    Not,
    /// `(`.
    Open,
    /// `)`.
    Close,
    /// `==` or `===`.
    Equal,
    /// `!=` or `!==`.
    Unequal,
    /// `=~`.
    Like,
    /// A comparison.
    Comparison(Operator),
}

/// A token, with characters borrowed from the text.
#[derive(Clone, Copy)]
pub(crate) enum Piece<'c> {
    /// A sign or a comparison.
    Sign(Sign),
    /// A word.
    Word(&'c [char]),
    /// The characters between single quotes.
    Quoted(&'c [char]),
    /// The characters between slashes, and the letters after them.
    Pattern(&'c [char], &'c [char]),
}

impl Sign {
    ghost use Rattle.kb_when.specs.Tokenizer.{token_of_sign};

    fn token(self) -> Token
        ensures { result ≡ token_of_sign self }
    {
        match self {
            Sign::Or => Token::Or,
            Sign::And => Token::And,
            Sign::Not => Token::Not,
            Sign::Open => Token::Open,
            Sign::Close => Token::Close,
            Sign::Equal => Token::Equal,
            Sign::Unequal => Token::Unequal,
            Sign::Like => Token::Like,
            Sign::Comparison(operator) => Token::Comparison(operator),
        }
    }
}

impl Piece<'_> {
    ghost use Rattle.kb_when.specs.Tokenizer.{token_of};

    /// The token, with copies of its texts. Error: `NoMemory`.
    pub(crate) fn token(self, alloc: Global) -> Result<Token, NoMemory>
        ensures { IfOk result (λ token. token ≡ token_of self.entry) }
    {
        match self {
            Piece::Sign(sign) => Ok(sign.token()),
            Piece::Word(word) => Ok(Token::Word(text_of(alloc, word)?)),
            Piece::Quoted(text) => Ok(Token::Quoted(text_of(alloc, text)?)),
            Piece::Pattern(pattern, flags) => Ok(Token::Pattern(
                pattern_of(alloc, pattern)?,
                text_of(alloc, flags)?,
            )),
        }
    }
}

/// The text of a pattern, in which `\/` is replaced by `/`. Error: `NoMemory`.
fn pattern_of(alloc: Global, characters: &[char]) -> Result<Text, NoMemory>
    ensures { IfOk result (λ text. text ≡ bytes_of (pattern_text false characters.now)) }
{
    let mut text = String::new(alloc);
    let mut escaped = false;
    for character in characters {
        if escaped {
            if *character != '/' {
                text.push('\\')?;
            }
            text.push(*character)?;
            escaped = false;
        } else if *character == '\\' {
            escaped = true;
        } else {
            text.push(*character)?;
        }
    }
    Ok(Text::from_string(text))
}
