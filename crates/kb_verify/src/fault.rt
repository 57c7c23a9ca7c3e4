//! The faults for which the verifier rejects a handler.
ghost use Rattle.std.specs.Prelude.{◌≡◌};
ghost use Rattle.kb_verify.specs.Fault.{kind_of, place_of};

use kb_base::FaultKind;
use thiserror::Error;

/// A defect at a reachable place. The cases are our decision. They are in the order of their numbers,
/// 60 to 67.
#[derive(Clone, Copy, Debug, PartialEq, Eq, Error)]
pub enum Defect {
    /// The instruction takes more operands than are on the stack.
    #[error("too few operands")]
    MissingOperand,
    /// An operand has a kind that the instruction doesn't accept, or no text or parameter has the
    /// instruction's index.
    #[error("a wrong operand")]
    WrongOperand,
    /// The called command is not callable, or the list of calls has no entry at the instruction's
    /// index.
    #[error("an unknown command")]
    UnknownCommand,
    /// An argument of the call has a kind that the command doesn't accept.
    #[error("a wrong argument")]
    WrongArgument,
    /// A jump doesn't go to a later place of the code in the same block.
    #[error("a bad jump")]
    BadJump,
    /// The code ends after this instruction, which isn't a return.
    #[error("the code falls off its end")]
    FallsOff,
    /// Two paths reach the place with operands of different kinds, or an iteration of a block would end
    /// with others than it began with.
    #[error("two ways with different operands")]
    ShapesDiffer,
    /// The stack would have more than 64 operands.
    #[error("too many operands")]
    TooHigh,
}

/// A step of a path. A path has one for each `JumpIfFalse` and for each `Repeat` (our decision).
#[derive(Debug, Drop)]
pub enum Step {
    /// A branch, and whether the path jumps there.
    Choice(bool),
    /// A block, and the steps of the path that each of its iterations takes.
    Turns(Vec<Step>),
}

/// The reason why a handler isn't accepted. A place is the index of an instruction, from 0. The cases
/// and the order of the checks are our decision.
#[derive(Debug, Drop, Error)]
pub enum VerifyFault {
    /// The defect of the first reachable place that has one, and this place.
    #[error("{0} at place {1}")]
    Wrong(Defect, usize),
    /// The steps of a path from the first place to a return that costs more than the budget that the
    /// handler declares.
    #[error("a path costs more than the budget")]
    OverBudget(Vec<Step>),
    /// The first place with a call of a command whose declared depth is not less than the handler's.
    #[error("the call at place {0} nests too deep")]
    OverDepth(usize),
}

impl VerifyFault {
    /// The fault in the table of all faults, which has its number and its name.
    pub fn kind(&self) -> FaultKind
        ensures { result ≡ kind_of self.now }
    {
        match self {
            VerifyFault::Wrong(Defect::MissingOperand, _) => FaultKind::MissingOperand,
            VerifyFault::Wrong(Defect::WrongOperand, _) => FaultKind::WrongOperand,
            VerifyFault::Wrong(Defect::UnknownCommand, _) => FaultKind::UnknownCommand,
            VerifyFault::Wrong(Defect::WrongArgument, _) => FaultKind::WrongArgument,
            VerifyFault::Wrong(Defect::BadJump, _) => FaultKind::BadJump,
            VerifyFault::Wrong(Defect::FallsOff, _) => FaultKind::FallsOff,
            VerifyFault::Wrong(Defect::ShapesDiffer, _) => FaultKind::ShapesDiffer,
            VerifyFault::Wrong(Defect::TooHigh, _) => FaultKind::TooHigh,
            VerifyFault::OverDepth(_) => FaultKind::OverDepth,
            VerifyFault::OverBudget(_) => FaultKind::OverBudget,
        }
    }

    /// The place of the fault. It is 0 for a path that costs too much.
    pub fn place(&self) -> usize
        ensures { result ≡ place_of self.now }
    {
        match self {
            VerifyFault::Wrong(_, place) | VerifyFault::OverDepth(place) => *place,
            VerifyFault::OverBudget(_) => 0,
        }
    }
}
