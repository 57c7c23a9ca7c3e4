//! A text with some of its parts exchanged.
ghost use Rattle.std.specs.Prelude.{◌≡◌, [], IfOk, length, map};
ghost use Rattle.kb_exchange.specs.Exchange as words;
ghost use Rattle.kb_exchange.specs.Moves.{moves_of, KeepsOthers};
ghost use Rattle.kb_exchange.specs.Span.{AreInOrder};

use crate::moves::{Move, Moves};
use kb_base::{NoMemory, Seq, Text};
use kb_places::{Span, part_of};
use std::alloc::Global;

/// A part of a text, and what is to stand in its place.
#[derive(Debug, Drop)]
pub struct Exchange {
    /// The part of the text.
    pub old: Span,
    /// What is to stand there.
    pub text: Text,
}

/// A text with some of its parts exchanged.
#[derive(Drop)]
pub struct Exchanged {
    /// The bytes of the new text.
    pub bytes: Seq<u8>,
    /// Where the exchanged parts are, in both texts.
    pub moves: Moves,
}

/// The bytes of the text with these parts exchanged, and where these are.
fn bytes_and_moves(
    alloc: Global,
    text: &[u8],
    exchanges: &[Exchange],
) -> Result<(Vec<u8>, Vec<Move>), NoMemory>
    ensures bytes { IfOk result (λ made. made.0.items ≡ words.exchanged text.now exchanges.now) }
    ensures moves { IfOk result (λ made. made.1.items ≡ moves_of text.now exchanges.now) }
{
    let mut bytes = Vec::new(alloc);
    let mut moves = Vec::new(alloc);
    let mut at = 0;
    for exchange in exchanges {
        let kept = Span {
            begin: at,
            end: exchange.old.begin,
        };
        bytes.extend_from_slice(part_of(text, kept))?;
        let begin = bytes.len();
        bytes.extend_from_slice(exchange.text.as_str().as_bytes())?;
        let end = bytes.len();
        moves.push(Move {
            old: exchange.old,
            new: Span { begin, end },
        })?;
        at = exchange.old.end;
    }
    let kept = Span {
        begin: at,
        end: text.len(),
    };
    bytes.extend_from_slice(part_of(text, kept))?;
    Ok((bytes, moves))
}

/// The text with these parts exchanged, which are in order: each begins at or behind the end of the one
/// before. A part that isn't in the text counts as an empty one. All other bytes are kept, and where nothing
/// is exchanged the text is the same.
///
/// Error: `NoMemory`.
#[tactic(auto, using(crate::proofs::ExchangeLemmas::none_exchanged))]
pub fn exchange_all(
    alloc: Global,
    text: &[u8],
    exchanges: &[Exchange],
) -> Result<Exchanged, NoMemory>
    ensures bytes { IfOk result (λ made. made.bytes ≡ words.exchanged text.now exchanges.now) }
    ensures moves { IfOk result (λ made. made.moves ≡ moves_of text.now exchanges.now) }
    ensures kept { AreInOrder 0 (length text.now) (map (λ e. e.old) exchanges.now)
        → IfOk result (λ made. KeepsOthers text.now made.bytes made.moves) }
    ensures same { exchanges.now ≡ [] → IfOk result (λ made. made.bytes ≡ text.now) }
{
    let (bytes, moves) = bytes_and_moves(alloc, text, exchanges)?;
    Ok(Exchanged {
        bytes: Seq::from_vec(bytes),
        moves: Moves::from_vec(moves),
    })
}
