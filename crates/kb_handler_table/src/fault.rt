//! The fault of code that can't be added to the live handlers.
ghost use Rattle.std.specs.Prelude.{◌≡◌};
ghost use Rattle.kb_handler_table.specs.Fault.{kind_of};

use kb_base::FaultKind;
use thiserror::Error;

/// The reason why an extension's handlers can't be added. The cases are our decision.
#[derive(Clone, Copy, Debug, PartialEq, Eq, Error)]
pub enum CodesFault {
    /// A handler has the name of a native command, of `runCommands`, of a live handler, or of another
    /// handler of the same extension.
    #[error("a command of this name is there already")]
    AlreadyExists,
}

impl CodesFault {
    /// The fault in the table of all faults, which has its number and its name.
    pub fn kind(self) -> FaultKind
        ensures { result ≡ kind_of self }
    {
        match self {
            CodesFault::AlreadyExists => FaultKind::AlreadyExists,
        }
    }
}
