//! The reasons for which a handler traps.
ghost use Rattle.std.specs.Prelude.{◌≡◌};
ghost use Rattle.kb_vm.specs.Trap.{kind_of};

use kb_base::FaultKind;

/// The reason why a handler can't continue at an instruction. The cases are our decision.
#[derive(Clone, Copy, Debug, PartialEq, Eq)]
pub enum Trap {
    /// The stack has fewer operands than the instruction takes.
    MissingOperand,
    /// No live command has the called name.
    UnknownCommand,
    /// An operand or argument has a wrong kind.
    WrongArgument,
    /// The cost of the instruction, or the budget of the called command, exceeds the remaining budget.
    OutOfBudget,
    /// The declared depth of the called command isn't less than the caller's.
    TooDeep,
    /// There is no instruction, text or argument at a place or index, a jump doesn't go to a later place
    /// of the same block, or the stack already has 64 operands.
    BadCode,
}

impl Trap {
    /// The fault in the table of all faults, which has its number and its name.
    pub fn kind(self) -> FaultKind
        ensures { result ≡ kind_of self }
    {
        match self {
            Trap::MissingOperand => FaultKind::TrapMissingOperand,
            Trap::UnknownCommand => FaultKind::TrapUnknownCommand,
            Trap::WrongArgument => FaultKind::TrapWrongArgument,
            Trap::OutOfBudget => FaultKind::OutOfBudget,
            Trap::TooDeep => FaultKind::CallTooDeep,
            Trap::BadCode => FaultKind::BadCode,
        }
    }
}
