//! Faults of encoded code.
ghost use Rattle.std.specs.Prelude.{◌≡◌};
ghost use Rattle.kb_code.specs.Fault.{kind_of};

use kb_base::FaultKind;
use thiserror::Error;

/// Why bytes or instructions are not code. A place is the index of an instruction, counted from 0. The
/// numbers are our decision.
#[derive(Clone, Copy, Debug, PartialEq, Eq, Error)]
pub enum CodeFault {
    /// The number of bytes is not a multiple of three, the size of an instruction.
    #[error("the code is no whole number of instructions")]
    BadLength,
    /// No instruction has the opcode at this place.
    #[error("no instruction has the opcode at place {0}")]
    BadOpcode(usize),
    /// The instruction at this place does not allow its operand.
    #[error("the instruction at place {0} may not have its operand")]
    BadOperand(usize),
    /// The blocks are not well formed at this place: an `End` without an open block, a ninth open block, a
    /// `Return` inside a block, or else the outermost `Repeat` that is never closed.
    #[error("the blocks are not well formed at place {0}")]
    BadBlock(usize),
}

impl CodeFault {
    /// The fault in the table of all faults, which has its number and its name.
    pub fn kind(self) -> FaultKind
        ensures { result ≡ kind_of self }
    {
        match self {
            CodeFault::BadLength => FaultKind::BadLength,
            CodeFault::BadOpcode(_) => FaultKind::BadOpcode,
            CodeFault::BadOperand(_) => FaultKind::BadOperand,
            CodeFault::BadBlock(_) => FaultKind::BadBlock,
        }
    }
}
