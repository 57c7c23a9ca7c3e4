//! Lists of arguments.
ghost use Rattle.std.specs.Prelude.{◌≡◌, ◌<◌, ◌≤◌, ◌-◌, [], ◌∷◌, ◌++◌, length, take, slice_get};
ghost use Rattle.std.specs.Prelude.{OnOk, OnErr};
ghost use Rattle.kb_core.specs.Declaration.{parameter_limit};

use crate::arg::Arg;
use kb_base::NoMemory;
use smallvec::SmallVec;
use std::alloc::Global;
use std::marker::Model;

/// The number of arguments that are stored inline, enough for every native command. It is small, since a
/// list is moved several times before its command runs.
const INLINE: usize = 2;

/// A list of at most eight arguments, the maximum number of parameters (our decision). Contracts see the
/// list.
#[derive(Drop)]
pub struct Args {
    items: SmallVec<Arg, INLINE>,
}

impl Model for Args {
    ghost use Rattle.std.specs.Prelude.{◌≤◌, List, length};
    ghost use Rattle.kb_core.specs.Declaration.{parameter_limit};
    ghost use Rattle.kb_core.specs.declared.arg.Arg.{Arg};

    ghost Value = { List Arg };

    ghost view = { λ a. a.items.items };

    ghost invariant = { λ a. (length a.items.items ≤ parameter_limit) × (2 ≤ a.items.capacity) };
}

impl Args {
    /// An empty list.
    pub fn new(alloc: Global) -> Args
        ensures { result ≡ [] }
    {
        Args {
            items: SmallVec::new(alloc),
        }
    }

    /// Adds an argument at the end. Error: `NoMemory`; the list is then unchanged. The first two arguments
    /// are stored inline, so adding them allocates nothing.
    pub fn push(&mut self, arg: Arg) -> Result<(), NoMemory>
        requires { length self.old < parameter_limit }
        ensures ok { OnOk result (self.new ≡ self.old ++ arg ∷ []) }
        ensures err { OnErr result (self.new ≡ self.old) }
        ensures more { OnErr result (2 ≤ length self.old) }
    {
        self.items.push(arg)?;
        Ok(())
    }

    /// Removes the last argument and returns it, or `None` if there is none.
    pub fn pop(&mut self) -> Option<Arg>
        ensures last { result ≡ slice_get self.old (length self.old - 1) }
        ensures rest { self.new ≡ take (length self.old - 1) self.old }
    {
        self.items.pop()
    }

    /// The arguments, in order.
    pub fn as_slice(&self) -> &[Arg]
        ensures items { result.now ≡ self.now }
        ensures few { length self.now ≤ parameter_limit }
    {
        self.items.as_slice()
    }
}
