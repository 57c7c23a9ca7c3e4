//! The open blocks at a place of code.
ghost use Rattle.std.specs.Prelude.{◌≡◌, ◌<◌, [], ◌∷◌, length};
ghost use Rattle.kb_code.specs.Blocks.{first_of, outermost, closed};

use std::marker::Model;

/// The largest number of blocks that are open at a place.
pub(crate) const BLOCK_LIMIT: usize = 8;

/// The places of the `Repeat`s of open blocks, at most 8, stored in the value itself. Contracts see their
/// list, the innermost block first.
#[derive(Drop)]
pub(crate) struct Nest {
    starts: [usize; BLOCK_LIMIT],
    count: usize,
}

impl Model for Nest {
    ghost use Rattle.std.specs.Prelude.{◌≤◌, ℕ, List, reverse, take};

    ghost Value = { List ℕ };

    ghost view = { λ n. reverse (take n.count n.starts) };

    ghost invariant = { λ n. n.count ≤ 8 };
}

impl Nest {
    /// No open block.
    pub(crate) fn none() -> Nest
        ensures { result ≡ [] }
    {
        Nest {
            starts: [0; BLOCK_LIMIT],
            count: 0,
        }
    }

    /// The number of open blocks.
    pub(crate) fn len(&self) -> usize
        ensures { result ≡ length self.now }
    {
        self.count
    }

    /// The start of the innermost block.
    pub(crate) fn innermost(&self) -> Option<usize>
        ensures { result ≡ first_of self.now }
    {
        if self.count == 0 {
            None
        } else {
            Some(self.starts[self.count - 1])
        }
    }

    /// The start of the outermost block.
    pub(crate) fn outermost(&self) -> Option<usize>
        ensures { result ≡ outermost self.now }
    {
        if self.count == 0 {
            None
        } else {
            Some(self.starts[0])
        }
    }

    /// Opens a block that starts at a place.
    pub(crate) fn open(&mut self, start: usize)
        requires { length self.old < 8 }
        ensures { self.new ≡ start ∷ self.old }
    {
        self.starts[self.count] = start;
        self.count += 1;
    }

    /// Closes the innermost block, if one is open.
    pub(crate) fn close(&mut self)
        ensures { self.new ≡ closed self.old }
    {
        if self.count > 0 {
            self.count -= 1;
        }
    }
}
