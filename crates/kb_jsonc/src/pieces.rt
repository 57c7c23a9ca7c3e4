//! Lengths of strings and comments.
ghost use Rattle.std.specs.Prelude.{◌≡◌, ◌-◌, ◌<◌, ◌≤◌, length, slice_index, Ok, IfOk, IfErr, IfSome};
ghost use Rattle.std.specs.Prelude.{MatchOption};
ghost use Rattle.kb_jsonc.specs.Bytes.{slash};
ghost use Rattle.kb_jsonc.specs.Pieces.{single, string_len, block_len, line_len, first_of, OpensComment};

use crate::bytes::is_line_end;
use crate::fault::JsoncFault;

/// The number of bytes of a string after its opening quote, including the closing quote.
///
/// `None` if the string is not closed.
#[tactic(auto, using(crate::proofs::PiecesLemmas::string_steps))]
pub fn string_len(bytes: &[u8]) -> Option<usize>
    ensures value { result ≡ string_len bytes.now }
    ensures within { IfSome result (λ n. n ≤ length bytes.now) }
{
    let mut at = 0;
    while at < bytes.len() {
        match bytes[at] {
            b'"' => return Some(at + 1),
            b'\\' => at += 2,
            _ => at += 1,
        }
    }
    None
}

/// The number of bytes of the comment that begins with the slash at index 0, or `None` if the slash does
/// not begin a comment.
///
/// Error: `OpenComment` for a block comment that is not closed.
pub fn comment_len(bytes: &[u8]) -> Result<Option<usize>, JsoncFault>
    requires { slice_index bytes.now 0 ≡ slash }
    ensures ok { IfOk result
        (λ found. MatchOption found (first_of bytes.now ≡ Ok (single slash)) (OpensComment bytes.now)) }
    ensures err { IfErr result (λ fault. first_of bytes.now ≡ Err fault) }
{
    match bytes {
        [_, b'/', rest @ ..] => Ok(Some(2 + line_len(rest))),
        [_, b'*', rest @ ..] => {
            let Some(len) = block_len(rest) else {
                return Err(JsoncFault::OpenComment);
            };
            Ok(Some(2 + len))
        }
        _ => Ok(None),
    }
}

/// The number of bytes of a block comment after `/*`, including `*/`.
///
/// `None` if the comment is not closed.
#[tactic(auto, using(crate::proofs::PiecesLemmas::block_steps))]
fn block_len(bytes: &[u8]) -> Option<usize>
    ensures value { result ≡ block_len bytes.now }
    ensures within { IfSome result (λ n. n ≤ length bytes.now) }
    ensures mark { IfSome result (λ n. (0 < n) × (slice_index bytes.now (n - 1) ≡ slash)) }
{
    let mut at = 1;
    while at < bytes.len() {
        if bytes[at - 1] == b'*' && bytes[at] == b'/' {
            return Some(at + 1);
        }
        at += 1;
    }
    None
}

/// The number of bytes before the end of the line.
#[tactic(auto, using(crate::proofs::PiecesLemmas::line_steps))]
fn line_len(bytes: &[u8]) -> usize
    ensures value { result ≡ line_len bytes.now }
    ensures within { result ≤ length bytes.now }
    ensures end { result < length bytes.now → slice_index bytes.now result < 128 }
{
    for (i, byte) in bytes.iter().enumerate() {
        if is_line_end(*byte) {
            return i;
        }
    }
    bytes.len()
}
