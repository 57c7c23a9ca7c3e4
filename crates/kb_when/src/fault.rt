//! Faults of when clauses.
ghost use Rattle.std.specs.Prelude.{◌≡◌};

use kb_base::{Failure, FaultKind};
use thiserror::Error;

/// Why a text is not a when clause. The cases are our decision.
#[derive(Clone, Copy, Debug, PartialEq, Eq, Error)]
pub enum WhenFault {
    /// A character begins no token, or a quoted text or a pattern is not closed.
    #[error("no token begins here")]
    BadToken,
    /// A token that the grammar does not allow here, or the text ends too early.
    #[error("unexpected token or end")]
    Unexpected,
    /// An operand is nested in more `(` and `!` than the limit.
    #[error("nested too deep")]
    TooDeep,
    /// The operand of a comparison is not a signed 64-bit integer.
    #[error("not a number")]
    BadNumber,
}

impl WhenFault {
    ghost use Rattle.kb_when.specs.WhenFault.{kind_of};

    /// The fault in the table of all faults, which has its number and its name.
    pub fn kind(self) -> FaultKind
        ensures { result ≡ kind_of self }
    {
        match self {
            WhenFault::BadToken => FaultKind::BadToken,
            WhenFault::Unexpected => FaultKind::Unexpected,
            WhenFault::TooDeep => FaultKind::ClauseTooDeep,
            WhenFault::BadNumber => FaultKind::BadNumber,
        }
    }
}

impl From<WhenFault> for Failure<WhenFault> {
    ghost use Rattle.kb_base.specs.declared.failure.Failure.TheVariants.{Fault};

    ghost from_gives = { λ fault failure. failure ≡ Fault fault };

    fn from(fault: WhenFault) -> Failure<WhenFault> {
        Failure::Fault(fault)
    }
}
