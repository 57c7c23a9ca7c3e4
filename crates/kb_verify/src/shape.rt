//! Shapes: the kinds of the operands on the stack at a place.
ghost use Rattle.std.specs.Prelude.{◌≡◌, ◌≤◌, ◌∷◌, ◌↔◌, [], length, MatchOption, IsTrue};
ghost use Rattle.kb_verify.specs.Check.{fitting};
ghost use Rattle.kb_verify.specs.Packed.{low_bit, high_bit, kind_of};

use crate::fault::Defect;
use kb_core::Kind;
use std::marker::Model;

/// The largest number of operands on the stack.
const OPERAND_LIMIT: usize = 64;

/// The kinds of the operands on the stack at a place, at most 64. Each kind has one bit in each of two
/// words, so a shape is copied and compared as three numbers. (A field of one byte would be copied in
/// pieces, together with its padding.) Contracts see a list of kinds, the topmost first.
#[derive(Clone, Copy, Debug)]
pub(crate) struct Shape {
    height: usize,
    low: u64,
    high: u64,
}

impl Model for Shape {
    ghost use Rattle.std.specs.Prelude.{◌≤◌, ◌<◌, ◌^◌, List, length};
    ghost use Rattle.kb_core.specs.declared.arg.Kind.{Kind};
    ghost use Rattle.kb_verify.specs.Packed.{kinds_in, low_word, high_word};
    ghost use Rattle.kb_verify.specs.Packed.{counted, low_back, high_back};

    ghost Value = { List Kind };

    ghost view = { λ s. kinds_in s.height s.low s.high };

    ghost invariant = { λ s. (s.height ≤ 64) × (s.low < 2 ^ s.height) × (s.high < 2 ^ s.height) };

    ghost inverse = { λ ks. record { height = length ks; low = low_word ks; high = high_word ks } };

    ghost inverse_ok = { λ s h i. record {
      height = counted s.height s.low s.high i;
      low = low_back s.height s.low s.high h.1 i;
      high = high_back s.height s.low s.high h.2 i;
    } };
}

impl Shape {
    /// The empty stack.
    pub(crate) fn new() -> Shape
        ensures { result ≡ [] }
    {
        Shape {
            height: 0,
            low: 0,
            high: 0,
        }
    }

    /// The number of operands.
    pub(crate) fn len(self) -> usize
        ensures len { result ≡ length self }
        ensures fits { length self ≤ 64 }
    {
        self.height
    }

    /// The shape itself. A shape never has more operands than allowed.
    pub(crate) fn fitted(self) -> Result<Shape, Defect>
        ensures { result ≡ fitting self }
    {
        Ok(self)
    }

    /// Pushes a kind. `TooHigh` if the stack already has 64 operands.
    pub(crate) fn with(self, kind: Kind) -> Result<Shape, Defect>
        ensures { result ≡ fitting (kind ∷ self) }
    {
        if self.height >= OPERAND_LIMIT {
            return Err(Defect::TooHigh);
        }
        Ok(Shape {
            height: self.height + 1,
            low: 2 * self.low + low_bit(kind),
            high: 2 * self.high + high_bit(kind),
        })
    }

    /// The topmost kind and the shape below it, or `None` for the empty stack.
    pub(crate) fn split(self) -> Option<(Kind, Shape)>
        ensures { MatchOption result (self ≡ []) (λ parts. self ≡ parts.0 ∷ parts.1) }
    {
        if self.height == 0 {
            return None;
        }
        let below = Shape {
            height: self.height - 1,
            low: self.low / 2,
            high: self.high / 2,
        };
        Some((kind_of(self.low % 2, self.high % 2), below))
    }

    /// Whether both shapes are equal.
    pub(crate) fn is_same(self, other: Shape) -> bool
        ensures { IsTrue result ↔ (self ≡ other) }
    {
        if self.height != other.height {
            return false;
        }
        if self.low != other.low {
            return false;
        }
        self.high == other.high
    }
}

fn low_bit(kind: Kind) -> u64
    ensures { result ≡ low_bit kind }
{
    match kind {
        Kind::Text | Kind::Truth => 0,
        Kind::Number | Kind::Any => 1,
    }
}

fn high_bit(kind: Kind) -> u64
    ensures { result ≡ high_bit kind }
{
    match kind {
        Kind::Text | Kind::Number => 0,
        Kind::Truth | Kind::Any => 1,
    }
}

/// The kind with these two bits.
fn kind_of(low: u64, high: u64) -> Kind
    ensures { result ≡ kind_of low high }
{
    match (low, high) {
        (0, 0) => Kind::Text,
        (_, 0) => Kind::Number,
        (0, _) => Kind::Truth,
        _ => Kind::Any,
    }
}
