//! The faults of scripts.
use kb_base::FaultKind;
use thiserror::Error;

/// The reason why a script did not run to its end, other than refused memory.
#[derive(Clone, Copy, Debug, PartialEq, Eq, Error)]
pub enum ScriptFault {
    /// The session was already stopped.
    #[error("the session is stopped")]
    Stopped,
    /// The script has more bytes than allowed.
    #[error("the script is too long")]
    TooLong,
    /// The reader failed.
    #[error("the script can't be read")]
    ReadFailed,
    /// The writer failed, or accepted no bytes.
    #[error("the trace can't be written")]
    WriteFailed,
    /// A handler trapped, which stopped the session.
    #[error("a handler trapped")]
    Trapped,
}

impl ScriptFault {
    ghost use Rattle.std.specs.Prelude.{◌≡◌};
    ghost use Rattle.kb_script.specs.Fault.{script_kind};

    /// The fault in the table of all faults, which has its number and its name.
    pub fn kind(self) -> FaultKind
        ensures { result ≡ script_kind self }
    {
        match self {
            ScriptFault::Stopped => FaultKind::Stopped,
            ScriptFault::TooLong => FaultKind::TooLong,
            ScriptFault::ReadFailed => FaultKind::ReadFailed,
            ScriptFault::WriteFailed => FaultKind::WriteFailed,
            ScriptFault::Trapped => FaultKind::Trapped,
        }
    }
}
