//! The faults of a session's calls.
ghost use Rattle.std.specs.Prelude.{◌≡◌};
ghost use Rattle.kb_session.specs.Fault as fault;

use kb_base::{Failure, FaultKind, NoMemory, Refusal};
use std::alloc::AllocError;
use thiserror::Error;

/// The reason why a session's call failed.
#[derive(Debug, Drop, Error)]
pub enum SessionFault {
    /// The call was refused. The state is unchanged, and the trace has the line of the refusal.
    #[error("the call is refused")]
    Refused(Refusal),
    /// Memory was refused. The session is stopped from then on.
    #[error("out of memory")]
    NoMemory,
    /// The session was already stopped. Nothing changed.
    #[error("the session is stopped")]
    Stopped,
}

/// Splits a failure: `Ok` with the fault, or `Err` for refused memory.
pub(crate) fn fault_in<F>(failure: Failure<F>) -> Result<F, NoMemory>
    ensures { result ≡ fault.fault_in failure }
{
    match failure {
        Failure::NoMemory => Err(AllocError),
        Failure::Fault(fault) => Ok(fault),
    }
}

impl SessionFault {
    /// The fault in the table of all faults: that of the refusal, `NoMemory` (5) or `Stopped` (97). (Our
    /// decision.)
    pub fn kind(&self) -> FaultKind
        ensures { result ≡ fault.session_kind self.now }
    {
        match self {
            SessionFault::Refused(refusal) => refusal.kind,
            SessionFault::NoMemory => FaultKind::NoMemory,
            SessionFault::Stopped => FaultKind::Stopped,
        }
    }
}

impl From<NoMemory> for SessionFault {
    ghost use Rattle.std.specs.Prelude.{◌≡◌};
    ghost use Rattle.kb_session.specs.declared.fault.SessionFault.TheVariants as variant;

    ghost from_gives = { λ _ made. made ≡ variant.NoMemory };

    fn from(_refused: NoMemory) -> SessionFault {
        SessionFault::NoMemory
    }
}
