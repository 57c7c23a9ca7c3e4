//! The way back from an index in the new text to one in the old.
ghost use Rattle.std.specs.Prelude.{◌≡◌, ◌-◌, ◌^◌, min};
ghost use Rattle.kb_exchange.specs.Moves as words;

use kb_base::Seq;
use kb_places::Span;
use std::marker::Model;

/// A part that was exchanged: where it was, and where what stands in its place is.
#[derive(Clone, Copy, Debug, PartialEq, Eq)]
pub struct Move {
    /// Where it was in the old text.
    pub old: Span,
    /// Where the new part is in the new text.
    pub new: Span,
}

/// The parts that were exchanged, in order. Contracts see the list of them.
#[derive(Drop)]
pub struct Moves {
    list: Seq<Move>,
}

impl Model for Moves {
    ghost use Rattle.std.specs.Prelude.{List};
    ghost use Rattle.kb_exchange.specs.declared.moves.Move.{Move};
    ghost use Rattle.kb_exchange.specs.Moves.{AreSorted};

    ghost Value = { List Move };

    ghost view = { λ m. m.list };

    ghost invariant = { λ m. AreSorted m.list };
}

/// Where a byte was that stands at an index in or behind a new part.
fn behind(last: Option<Move>, index: usize) -> usize
    ensures { result ≡ min (words.behind last index) (2 ^ 64 - 1) }
{
    match last {
        None => index,
        Some(last) if index < last.new.end => last.old.begin,
        Some(last) => last.old.end.saturating_add(index - last.new.end),
    }
}

/// The last new part that begins at an index or before it, of sorted ones.
fn last_begun(moves: &[Move], index: usize) -> Option<Move>
    requires { words.AreSorted moves.now }
    ensures { result ≡ words.last_begun moves.now index }
{
    let count = moves.partition_point(|part| part.new.begin <= index);
    if count == 0 {
        return None;
    }
    Some(moves[count - 1])
}

impl Moves {
    /// The moves of a list.
    pub(crate) fn from_vec(list: Vec<Move>) -> Moves
        requires { words.AreSorted list.items }
        ensures { result ≡ list.items }
    {
        Moves {
            list: Seq::from_vec(list),
        }
    }

    /// The parts that were exchanged, in order.
    pub fn as_slice(&self) -> &[Move]
        ensures { result.now ≡ self.now }
    {
        self.list.as_slice()
    }

    /// Where a byte of the new text was in the old one. All bytes of a new part are where the old part began.
    /// An index behind the end of the new text is one as far behind the end of the old; where that has no
    /// `usize`, the answer is the largest. The time is logarithmic in the number of parts.
    pub fn old_place(&self, index: usize) -> usize
        ensures { result ≡ min (words.old_place self.now index) (2 ^ 64 - 1) }
    {
        behind(last_begun(self.list.as_slice(), index), index)
    }
}
