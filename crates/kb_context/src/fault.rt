//! Faults of calls on scopes.
ghost use Rattle.std.specs.Prelude.{◌≡◌};

use kb_base::FaultKind;
use thiserror::Error;

/// Why a call on scopes is refused. The cases are our decision.
#[derive(Clone, Copy, Debug, PartialEq, Eq, Error)]
pub enum ScopeFault {
    /// No scope has the given name.
    #[error("no scope has this name")]
    UnknownScope,
    /// The layout is not a tree of scopes, or its focus is not the name of one of them.
    #[error("the layout of the scopes is bad")]
    BadLayout,
    /// All scopes together would have more keys than `KEY_LIMIT`.
    #[error("too many context keys")]
    TooManyKeys,
}

impl ScopeFault {
    ghost use Rattle.kb_context.specs.ScopeFault.{kind_of};

    /// The fault in the table of all faults, which has its number and its name.
    pub fn kind(self) -> FaultKind
        ensures { result ≡ kind_of self }
    {
        match self {
            ScopeFault::UnknownScope => FaultKind::UnknownScope,
            ScopeFault::BadLayout => FaultKind::BadLayout,
            ScopeFault::TooManyKeys => FaultKind::TooManyKeys,
        }
    }
}

/// The only fault of `unset` and `focus`: no scope has the given name.
#[derive(Clone, Copy, Debug, PartialEq, Eq, Error)]
#[error("no scope has this name")]
pub struct UnknownScope;
