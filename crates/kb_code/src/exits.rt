//! Control flow of instructions.
ghost use Rattle.std.specs.Prelude.{◌≡◌};
ghost use Rattle.kb_code.specs.Exits.{exits_of};

use crate::instr::Instr;

/// The later places where execution can continue after an instruction. They may lie outside the code.
#[derive(Clone, Copy, Debug, PartialEq, Eq)]
pub enum Exits {
    /// None: the handler returns.
    Stop,
    /// One place.
    One(usize),
    /// One of two places.
    Two(usize, usize),
    /// The first place of a block that runs this many times.
    Around(u16, usize),
    /// The place after a block. An `End` that goes back leads to no later place.
    Close(usize),
}

impl Exits {
    /// The exits of an instruction. `next` is the place after it. The control flow is our decision.
    pub fn of(instr: Instr, next: usize) -> Exits
        ensures { result ≡ exits_of next instr }
    {
        match instr {
            Instr::Return => Exits::Stop,
            Instr::Jump(to) => Exits::One(usize::from(to)),
            Instr::JumpIfFalse(to) => Exits::Two(next, usize::from(to)),
            Instr::Repeat(turns) => Exits::Around(turns, next),
            Instr::End => Exits::Close(next),
            _ => Exits::One(next),
        }
    }
}
