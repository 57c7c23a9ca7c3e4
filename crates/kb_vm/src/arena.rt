//! The texts that a run creates.
ghost use Rattle.std.specs.Prelude.{◌≡◌, ◌++◌, IfOk};
ghost use Rattle.std.specs.Fmt.{signed_decimal};

use bumpalo::Bump;
use kb_base::NoMemory;
use std::alloc::Global;

/// The texts that a run creates. They are freed when it ends, so operands can borrow them.
#[derive(Drop)]
pub(crate) struct Arena {
    alloc: Global,
    texts: Bump,
}

impl Arena {
    /// An arena without texts.
    pub(crate) fn new(alloc: Global) -> Arena {
        Arena {
            alloc,
            texts: Bump::new(alloc),
        }
    }

    /// A copy of a text.
    pub(crate) fn copied(&self, text: &str) -> Result<&str, NoMemory>
        ensures { IfOk result (λ made. made.now ≡ text.now) }
    {
        self.texts.try_alloc_str(text)
    }

    /// The first text followed by the second.
    pub(crate) fn joined(&self, first: &str, second: &str) -> Result<&str, NoMemory>
        ensures { IfOk result (λ made. made.now ≡ first.now ++ second.now) }
    {
        let mut text = String::from_str(self.alloc, first)?;
        text.push_str(second)?;
        self.copied(text.as_str())
    }

    /// The decimal form of a number.
    pub(crate) fn spelled(&self, number: i64) -> Result<&str, NoMemory>
        ensures { IfOk result (λ made. made.now ≡ signed_decimal number) }
    {
        let text = format!(in self.alloc; "{number}")?;
        self.copied(text.as_str())
    }
}
