//! Faults of bundles.
use kb_base::{Failure, FaultKind};
use kb_jsonc::JsoncFault;
use thiserror::Error;

/// Why a bundle isn't read. The variants are listed in the order in which they are checked; the cases are our
/// decision.
#[derive(Clone, Copy, Debug, PartialEq, Eq, Error)]
pub enum BundleFault {
    /// It has more than 16,777,216 bytes.
    #[error("the bundle is too large")]
    TooLarge,
    /// It is no JSON with comments.
    #[error("the bundle is no JSON with comments")]
    Text(JsoncFault),
    /// Its value is no object.
    #[error("the bundle is no object")]
    WrongShape,
}

impl BundleFault {
    ghost use Rattle.std.specs.Prelude.{◌≡◌};
    ghost use Rattle.kb_localized.specs.BundleFault.{kind_of};

    /// The fault in the table of all faults, which has its number and its name: 44, one of 1 to 4, or 41.
    pub fn kind(self) -> FaultKind
        ensures { result ≡ kind_of self }
    {
        match self {
            BundleFault::TooLarge => FaultKind::TooLarge,
            BundleFault::Text(fault) => fault.kind(),
            BundleFault::WrongShape => FaultKind::WrongShape,
        }
    }
}

impl From<BundleFault> for Failure<BundleFault> {
    ghost use Rattle.std.specs.Prelude.{◌≡◌};
    ghost use Rattle.kb_base.specs.declared.failure.Failure.TheVariants.{Fault};

    ghost from_gives = { λ fault failure. failure ≡ Fault fault };

    fn from(fault: BundleFault) -> Failure<BundleFault> {
        Failure::Fault(fault)
    }
}
