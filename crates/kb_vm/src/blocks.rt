//! Repeated blocks of code.
ghost use Rattle.std.specs.Prelude.{◌≡◌, ◌<◌, [], ◌∷◌, length, IfSome, MatchOption};

use std::marker::Model;

/// The largest number of open blocks of a handler.
pub(crate) const BLOCK_LIMIT: usize = 8;

/// The remaining iterations of each open block, at most 8 of them, stored in the frame itself.
/// Contracts see a list, the innermost block first.
#[derive(Drop)]
pub(crate) struct Turns {
    left: [u16; BLOCK_LIMIT],
    count: usize,
}

impl Model for Turns {
    ghost use Rattle.std.specs.Prelude.{◌≤◌, ℕ, List, reverse, take};

    ghost Value = { List ℕ };

    ghost view = { λ t. reverse (take t.count t.left) };

    ghost invariant = { λ t. t.count ≤ 8 };
}

impl Turns {
    /// No open block.
    pub(crate) fn none() -> Turns
        ensures { result ≡ [] }
    {
        Turns {
            left: [0; BLOCK_LIMIT],
            count: 0,
        }
    }

    /// The number of open blocks.
    #[inline]
    pub(crate) fn len(&self) -> usize
        ensures { result ≡ length self.now }
    {
        self.count
    }

    /// Opens a block that runs this many times.
    #[inline]
    pub(crate) fn push(&mut self, turns: u16)
        requires { length self.old < 8 }
        ensures { self.new ≡ turns ∷ self.old }
    {
        self.left[self.count] = turns;
        self.count += 1;
    }

    /// Closes the innermost block, and returns its remaining iterations.
    #[inline]
    pub(crate) fn pop(&mut self) -> Option<u16>
        ensures turns { MatchOption result
            ((self.old ≡ []) × (self.new ≡ [])) (λ n. self.old ≡ n ∷ self.new) }
        ensures few { IfSome result (λ _. length self.new < 8) }
    {
        if self.count == 0 {
            None
        } else {
            self.count -= 1;
            Some(self.left[self.count])
        }
    }
}
