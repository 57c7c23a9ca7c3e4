//! Faults of handler files, and what was expected where a file has one.
ghost use Rattle.std.specs.Prelude.{◌≡◌};
ghost use Rattle.kb_handler_file.specs.Fault.{fault_at};
ghost use Rattle.kb_handler_file.specs.declared.fault.HandlersExpected.TheVariants.{Shape};
ghost use Rattle.kb_handler_file.specs.declared.fault.HandlersFault.TheVariants as handlers_fault;
ghost use Rattle.kb_jsonc.specs.Mismatch.{fault_at as shape_at};

use kb_base::FaultKind;
use kb_code::CodeFault;
use kb_jsonc::{Expected, FileFault, Mismatch};
use thiserror::Error;

/// Why a JSON value is not a handler file. The cases are our decision.
#[derive(Clone, Copy, Debug, PartialEq, Eq, Error)]
pub enum HandlersFault {
    /// A member is missing (40), or a value has the wrong shape (41).
    #[error("{0}")]
    Shape(FileFault),
    /// The code of a handler is not hexadecimal text.
    #[error("the code is no hexadecimal text")]
    BadHex,
    /// Two handlers have the same command.
    #[error("a command is named twice")]
    DuplicateHandler,
    /// The file has too many handlers, or a handler exceeds a limit.
    #[error("a limit is passed")]
    TooLarge,
    /// The bytes of a handler's code cannot be decoded (50 to 52), or its blocks are not well formed (53).
    #[error("{0}")]
    Code(CodeFault),
}

impl HandlersFault {
    ghost use Rattle.std.specs.Prelude.{◌≡◌};
    ghost use Rattle.kb_handler_file.specs.Fault.{kind_of};

    /// The fault in the table of all faults, which has its number and its name.
    pub fn kind(self) -> FaultKind
        ensures { result ≡ kind_of self }
    {
        match self {
            HandlersFault::Shape(fault) => fault.kind(),
            HandlersFault::BadHex => FaultKind::BadHex,
            HandlersFault::DuplicateHandler => FaultKind::DuplicateHandler,
            HandlersFault::TooLarge => FaultKind::TooLarge,
            HandlersFault::Code(fault) => fault.kind(),
        }
    }
}

/// What was expected of a value in a handler file.
#[derive(Clone, Copy, Debug, PartialEq, Eq)]
pub enum HandlersExpected {
    /// This, which other files may have too.
    Shape(Expected),
    /// At most so many elements, or instructions of code.
    AtMost(usize),
    /// A number from 1 to this one.
    UpTo(u32),
    /// Hexadecimal digits, two for each byte.
    Hex,
    /// Code without this fault.
    CodeWithout(CodeFault),
    /// A command that no handler above has.
    NewCommand,
}

impl HandlersExpected {
    ghost use Rattle.std.specs.Prelude.{◌≡◌};
    ghost use Rattle.kb_handler_file.specs.Fault.{fault_of};

    /// The fault of a file where this is expected and isn't so.
    pub fn fault(self) -> HandlersFault
        ensures { result ≡ fault_of self }
    {
        match self {
            HandlersExpected::Shape(expected) => HandlersFault::Shape(expected.fault()),
            HandlersExpected::AtMost(_) | HandlersExpected::UpTo(_) => HandlersFault::TooLarge,
            HandlersExpected::Hex => HandlersFault::BadHex,
            HandlersExpected::CodeWithout(fault) => HandlersFault::Code(fault),
            HandlersExpected::NewCommand => HandlersFault::DuplicateHandler,
        }
    }
}

/// The fault of a file that has this mismatch.
pub(crate) fn fault_at(mismatch: Mismatch<'static, HandlersExpected>) -> HandlersFault
    ensures { result ≡ fault_at mismatch.entry }
{
    mismatch.expected.fault()
}

/// A mismatch as one of a handler file.
pub(crate) fn shaped(mismatch: Mismatch<'static, Expected>) -> Mismatch<'static, HandlersExpected>
    ensures expected { result.expected ≡ Shape mismatch.entry.expected }
    ensures fault { fault_at result ≡ handlers_fault.Shape (shape_at mismatch.entry) }
{
    Mismatch {
        place: mismatch.place,
        expected: HandlersExpected::Shape(mismatch.expected),
    }
}
