//! The faults of a registry.
ghost use Rattle.std.specs.Prelude.{◌≡◌};
ghost use Rattle.kb_registry.specs.Fault.{kind_of};

use kb_base::FaultKind;
use thiserror::Error;

/// The reason why a registry refused a call. The cases are our decision.
#[derive(Clone, Copy, Debug, PartialEq, Eq, Error)]
pub enum RegistryFault {
    /// A closure is already registered for the native command, or a handler has the name of an existing
    /// command.
    #[error("a command of this name is there already")]
    AlreadyExists,
    /// The limit of registrations is reached.
    #[error("no more registrations may be made")]
    Exhausted,
    /// No registered closure has the ticket.
    #[error("no live closure has this ticket")]
    StaleTicket,
    /// A live handler calls the native command of the closure, or a verified handler of another extension
    /// calls a handler of the code.
    #[error("a live handler calls this command")]
    InUse,
    /// A callee of verified code is neither live nor one of the code's own handlers, with the signature
    /// that it had when the code was verified.
    #[error("a command that the code calls is not live as it was declared")]
    CalleeNotLive,
    /// The code doesn't have the same commands, with the same parameters, budgets and depths, as the code
    /// that it replaces.
    #[error("the code declares other commands than before")]
    SignatureChanged,
}

impl RegistryFault {
    /// The fault in the table of all faults, which has its number and its name.
    pub fn kind(self) -> FaultKind
        ensures { result ≡ kind_of self }
    {
        match self {
            RegistryFault::AlreadyExists => FaultKind::AlreadyExists,
            RegistryFault::Exhausted => FaultKind::Exhausted,
            RegistryFault::StaleTicket => FaultKind::StaleTicket,
            RegistryFault::InUse => FaultKind::InUse,
            RegistryFault::CalleeNotLive => FaultKind::CalleeNotLive,
            RegistryFault::SignatureChanged => FaultKind::SignatureChanged,
        }
    }
}
