//! The faults of a JSON value that is not what a file should hold.
use kb_base::{Failure, FaultKind};
use thiserror::Error;

/// Why a JSON value was not read as what a file should hold. The cases are our decision.
#[derive(Clone, Copy, Debug, PartialEq, Eq, Error)]
pub enum FileFault {
    /// A member that must be there is absent.
    #[error("a member is missing")]
    MissingMember,
    /// The value, or one inside it, is of another kind than it should be.
    #[error("a value has the wrong shape")]
    WrongShape,
}

impl FileFault {
    ghost use Rattle.std.specs.Prelude.{◌≡◌};
    ghost use Rattle.kb_jsonc.specs.FileFault.{kind_of};

    /// The fault in the table of all faults, which has its number and its name.
    pub fn kind(self) -> FaultKind
        ensures { result ≡ kind_of self }
    {
        match self {
            FileFault::MissingMember => FaultKind::MissingMember,
            FileFault::WrongShape => FaultKind::WrongShape,
        }
    }
}

impl From<FileFault> for Failure<FileFault> {
    ghost use Rattle.std.specs.Prelude.{◌≡◌};
    ghost use Rattle.kb_base.specs.declared.failure.Failure.TheVariants.{Fault};

    ghost from_gives = { λ fault failure. failure ≡ Fault fault };

    fn from(fault: FileFault) -> Failure<FileFault> {
        Failure::Fault(fault)
    }
}
