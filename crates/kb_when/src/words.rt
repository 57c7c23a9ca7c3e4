//! Reserved words.
ghost use Rattle.std.specs.Prelude.{◌≡◌};
ghost use Rattle.std.specs.Str.{bytes_eq};
ghost use Rattle.kb_when.specs.Words.{is_reserved};

use kb_base::Text;

/// Whether the text equals the word.
pub(crate) fn is_word(text: &Text, word: &str) -> bool
    ensures { result ≡ bytes_eq word.now text.now }
{
    word == text.as_str()
}

/// Whether the word is reserved and so cannot be a key: `true`, `false`, `in`, `not`.
pub(crate) fn is_reserved(word: &Text) -> bool
    ensures { result ≡ is_reserved word.now }
{
    is_word(word, "true") || is_word(word, "false") || is_word(word, "in") || is_word(word, "not")
}
