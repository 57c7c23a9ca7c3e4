//! Splits texts into tokens. At each position, the first rule that applies wins: a comparison, another
//! sign, a pattern, a quoted text, a word.
ghost use Rattle.std.specs.Prelude.{◌≡◌, ◌+◌, ◌<◌, ◌≤◌, if◌then◌else◌, false, chars, length};
ghost use Rattle.std.specs.Prelude.{IfOk, IfSome, option_map, is_some};
ghost use Rattle.kb_base.specs.Failure.{Gives};
ghost use Rattle.kb_base.specs.Reading.{or_fault, seen};
ghost use Rattle.kb_when.specs.Characters.{behind_sign};
ghost use Rattle.kb_when.specs.Tokenizer.{blank_around, next_comparison, next_sign, up_to_close, from_close};
ghost use Rattle.kb_when.specs.Tokenizer.{next_pattern, next_quoted, next_word, next_token, is_like};
ghost use Rattle.kb_when.specs.Tokenizer.{token_of, token_of_sign, tokens_or_fault};
ghost use Rattle.kb_when.specs.declared.fault.WhenFault.TheVariants.{BadToken};
ghost use Rattle.kb_when.specs.declared.token.Token.TheVariants.{Comparison};

use crate::characters::{Until, after_sign, begins_blank, skip_blanks, split_run};
use crate::fault::WhenFault;
use crate::operator::Operator;
use crate::piece::{Piece, Sign};
use crate::token::Token;
use kb_base::{Failure, NoMemory};
use std::alloc::Global;

/// The comparisons, longer ones before shorter ones.
const COMPARISONS: [(&[char], Operator); 4] = [
    (&['<', '='], Operator::AtMost),
    (&['>', '='], Operator::AtLeast),
    (&['<'], Operator::Below),
    (&['>'], Operator::Above),
];

/// The other signs, longer ones before shorter ones.
const SIGNS: [(&[char], Sign); 10] = [
    (&['=', '=', '='], Sign::Equal),
    (&['!', '=', '='], Sign::Unequal),
    (&['=', '='], Sign::Equal),
    (&['!', '='], Sign::Unequal),
    (&['=', '~'], Sign::Like),
    (&['&', '&'], Sign::And),
    (&['|', '|'], Sign::Or),
    (&['!'], Sign::Not),
    (&['('], Sign::Open),
    (&[')'], Sign::Close),
];

/// The longest sign at the beginning of the characters, and the characters after it.
fn sign(characters: &[char]) -> Option<(Sign, &[char])>
    ensures value { (other : _) → next_sign characters.now other ≡
        (if is_some result then option_map (λ r. (token_of_sign r.0, r.1.now)) result else other) }
    ensures shorter { IfSome result (λ r. length r.1.now < length characters.now) }
{
    for (sign, kind) in SIGNS.as_slice() {
        if let Some(rest) = after_sign(characters, sign) {
            return Some((*kind, rest));
        }
    }
    None
}

/// The characters after a sign that has white space on both sides. `spaced`: whether white space comes
/// before it.
fn after_spaced<'c>(characters: &'c [char], sign: &[char], spaced: bool) -> Option<&'c [char]>
    ensures value { option_map (λ r. r.now) result ≡
        blank_around spaced (behind_sign sign.now characters.now) }
    ensures len { IfSome result (λ r. length r.now + length sign.now ≡ length characters.now) }
{
    let rest = after_sign(characters, sign)?;
    if spaced && begins_blank(rest) {
        Some(rest)
    } else {
        None
    }
}

/// The comparison at the beginning of the characters, and the characters after it.
fn comparison(characters: &[char], spaced: bool) -> Option<(Operator, &[char])>
    ensures value { (other : _) → next_comparison spaced characters.now other ≡
        (if is_some result then option_map (λ r. (Comparison r.0, r.1.now)) result else other) }
    ensures shorter { IfSome result (λ r. length r.1.now < length characters.now) }
{
    for (sign, operator) in COMPARISONS.as_slice() {
        if let Some(rest) = after_spaced(characters, sign, spaced) {
            return Some((*operator, rest));
        }
    }
    None
}

/// The characters of a pattern before its closing `/`, and the characters from there on. A backslash and
/// the character after it form a pair, and a `/` inside `[..]` does not close the pattern.
fn split_pattern(characters: &[char]) -> (&[char], &[char])
    ensures front { result.0.now ≡ up_to_close false false characters.now }
    ensures rest { result.1.now ≡ from_close false false characters.now }
    ensures len { length result.1.now ≤ length characters.now }
{
    let mut escaped = false;
    let mut in_class = false;
    for (i, character) in characters.iter().enumerate() {
        if escaped {
            escaped = false;
        } else if *character == '\\' {
            escaped = true;
        } else {
            if *character == '/' && !in_class {
                return (&characters[..i], &characters[i..]);
            }
            in_class = *character == '[' || (in_class && *character != ']');
        }
    }
    (characters, &characters[characters.len()..])
}

/// The pattern after its opening `/`, or `None` if it is not closed.
fn pattern(characters: &[char]) -> Option<(Piece<'_>, &[char])>
    ensures value { option_map (λ r. (token_of r.0, r.1.now)) result ≡ next_pattern characters.now }
    ensures shorter { IfSome result (λ r. length r.1.now < length characters.now) }
{
    let (text, more) = split_pattern(characters);
    let (_, more) = more.split_first()?;
    let (flags, rest) = split_run(more, Until::NoLetter);
    Some((Piece::Pattern(text, flags), rest))
}

/// The quoted text after its opening quote, or `None` if it is not closed.
fn quotation(characters: &[char]) -> Option<(Piece<'_>, &[char])>
    ensures value { option_map (λ r. (token_of r.0, r.1.now)) result ≡ next_quoted characters.now }
    ensures shorter { IfSome result (λ r. length r.1.now < length characters.now) }
{
    let (text, more) = split_run(characters, Until::Quote);
    let (_, rest) = more.split_first()?;
    Some((Piece::Quoted(text), rest))
}

/// The word at the beginning of the characters, or `None` if there is none.
fn word(characters: &[char]) -> Option<(Piece<'_>, &[char])>
    ensures value { option_map (λ r. (token_of r.0, r.1.now)) result ≡ next_word characters.now }
    ensures shorter { IfSome result (λ r. length r.1.now < length characters.now) }
{
    let (text, rest) = split_run(characters, Until::WordEnd);
    if text.is_empty() {
        return None;
    }
    Some((Piece::Word(text), rest))
}

/// The token at the beginning of the characters. `spaced`: whether white space comes before them.
/// `behind_like`: whether the token before is `=~`.
fn next_piece(characters: &[char], spaced: bool, behind_like: bool) -> Option<(Piece<'_>, &[char])>
    ensures value { option_map (λ r. (token_of r.0, r.1.now)) result ≡
        next_token spaced behind_like characters.now }
    ensures shorter { IfSome result (λ r. length r.1.now < length characters.now) }
{
    if let Some((operator, rest)) = comparison(characters, spaced) {
        return Some((Piece::Sign(Sign::Comparison(operator)), rest));
    }
    if let Some((sign, rest)) = sign(characters) {
        return Some((Piece::Sign(sign), rest));
    }
    if behind_like && let Some(rest) = after_sign(characters, &['/']) {
        return pattern(rest);
    }
    if let Some(rest) = after_sign(characters, &['\'']) {
        return quotation(rest);
    }
    word(characters)
}

/// The next token. Error: `BadToken`.
fn read_piece(
    characters: &[char],
    spaced: bool,
    behind_like: bool,
) -> Result<(Piece<'_>, &[char]), WhenFault>
    ensures value { seen (λ r. (token_of r.0, r.1.now)) result ≡
        or_fault BadToken (next_token spaced behind_like characters.now) }
    ensures shorter { IfOk result (λ r. length r.1.now < length characters.now) }
{
    next_piece(characters, spaced, behind_like).ok_or(WhenFault::BadToken)
}

fn is_like(token: &Token) -> bool
    ensures { result ≡ is_like token.now }
{
    matches!(token, Token::Like)
}

// Characters are pushed one by one: `collect` continues if the allocation for its size hint is refused,
// but here every refusal must end the reading.
fn characters_of(alloc: Global, text: &str) -> Result<Vec<char>, NoMemory>
    ensures { IfOk result (λ characters. characters.items ≡ chars text.now) }
{
    let mut characters = Vec::new(alloc);
    for character in text.chars() {
        characters.push(character)?;
    }
    Ok(characters)
}

/// Splits a text into tokens. Errors: `BadToken` (30) if a part of the text is not a token, and
/// `NoMemory`.
pub(crate) fn tokenize(alloc: Global, text: &str) -> Result<Vec<Token>, Failure<WhenFault>>
    ensures { Gives (λ tokens. tokens.items) result (tokens_or_fault text.now) }
{
    let characters = characters_of(alloc, text)?;
    let mut tokens = Vec::new(alloc);
    let mut spaced = begins_blank(&characters);
    let mut behind_like = false;
    let mut rest = skip_blanks(&characters);
    while !rest.is_empty() {
        let (piece, more) = read_piece(rest, spaced, behind_like)?;
        let token = piece.token(alloc)?;
        behind_like = is_like(&token);
        tokens.push(token)?;
        spaced = begins_blank(more);
        rest = skip_blanks(more);
    }
    Ok(tokens)
}
