//! The operands of a frame: a stack with a fixed capacity and borrowed texts, so a push doesn't
//! allocate.
ghost use Rattle.std.specs.Prelude.{◌≡◌, ◌<◌, ◌≤◌, [], ◌∷◌, length, drop, map, reverse, take};
ghost use Rattle.std.specs.Prelude.{IfOk, MatchOption};
ghost use Rattle.kb_vm.specs.Operand.{arg_of};

use crate::given::Given;
use kb_base::NoMemory;
use std::alloc::Global;
use std::marker::Model;

/// The capacity of a frame's operand stack.
const ROOM: usize = 64;

/// An operand. Its text is borrowed from a handler, from an argument, or from the texts that the run
/// created.
#[derive(Clone, Copy, Debug)]
pub enum Operand<'a> {
    Text(&'a str),
    Number(i64),
    Truth(bool),
}

/// The operand stack of a frame, with capacity for 64. Contracts see a list, the topmost operand first.
#[derive(Drop)]
pub(crate) struct Operands<'a> {
    items: Vec<Operand<'a>>,
}

impl<'a> Model for Operands<'a> {
    ghost use Rattle.std.specs.Prelude.{◌≤◌, List, length, map, reverse, vec_capacity};
    ghost use Rattle.kb_core.specs.declared.arg.Arg.{Arg};
    ghost use Rattle.kb_vm.specs.Operand.{arg_of};

    ghost Value = { List Arg };

    ghost view = { λ o. reverse (map arg_of o.items.items) };

    ghost invariant = { λ o. (64 ≤ vec_capacity o.items) × (length o.items.items ≤ 64) };
}

impl<'a> Operands<'a> {
    /// An empty stack with capacity for 64 operands.
    pub(crate) fn new(alloc: Global) -> Result<Operands<'a>, NoMemory>
        ensures { IfOk result (λ o. o ≡ []) }
    {
        Ok(Operands {
            items: Vec::with_capacity(alloc, ROOM)?,
        })
    }

    /// The number of operands.
    #[inline]
    pub(crate) fn len(&self) -> usize
        ensures value { result ≡ length self.now }
        ensures few { result ≤ 64 }
    {
        self.items.len()
    }

    /// Pushes an operand. The stack must have fewer than 64.
    #[inline]
    pub(crate) fn push(&mut self, value: Operand<'a>)
        requires { length self.old < 64 }
        ensures { self.new ≡ arg_of value.entry ∷ self.old }
    {
        self.items.push_reserved(value);
    }

    /// Pops the topmost operand.
    #[inline]
    pub(crate) fn pop(&mut self) -> Option<Operand<'a>>
        ensures top { MatchOption result (self.old ≡ []) (λ v. self.old ≡ arg_of v ∷ self.new) }
        ensures few { length self.old ≤ 64 }
    {
        self.items.pop()
    }

    /// The `count` topmost operands, in the order in which they were pushed.
    pub(crate) fn topmost(&self, count: usize) -> &[Operand<'a>]
        requires { count ≤ length self.now }
        ensures { map arg_of result.now ≡ reverse (take count self.now) }
    {
        let at = self.items.len() - count;
        &self.items[at..]
    }

    /// All operands, in the order in which they were pushed.
    pub(crate) fn as_slice(&self) -> &[Operand<'a>]
        ensures items { map arg_of result.now ≡ reverse self.now }
        ensures few { length self.now ≤ 64 }
    {
        self.items.as_slice()
    }

    /// Removes all operands.
    pub(crate) fn clear(&mut self)
        ensures { self.new ≡ [] }
    {
        self.items.clear();
    }

    /// Replaces the operands with others, at most 64.
    pub(crate) fn refill(&mut self, values: &[Operand<'a>])
        requires { length values.now ≤ 64 }
        ensures { self.new ≡ reverse (map arg_of values.now) }
    {
        self.items.clear();
        self.items.extend_from_slice(values).unwrap();
    }

    /// Pops the `count` topmost operands, at most 8, in the order in which they were pushed. They
    /// replace the contents of `spare`, which is returned.
    pub(crate) fn take(&mut self, count: usize, spare: Given<'a>) -> Given<'a>
        requires enough { count ≤ length self.old }
        requires few { count ≤ 8 }
        ensures given { result ≡ reverse (take count self.old) }
        ensures rest { self.new ≡ drop count self.old }
    {
        let mut given = spare;
        let at = self.items.len() - count;
        given.refill(&self.items[at..]);
        self.items.truncate(at);
        given
    }
}
