//! Errors of key texts and chord texts.
ghost use Rattle.std.specs.Prelude.{◌≡◌};
ghost use Rattle.kb_keys.specs.KeyFault.{kind_of};

use kb_base::FaultKind;
use thiserror::Error;

/// Why a key text or a chord text is invalid. The cases are our decision.
#[derive(Clone, Copy, Debug, PartialEq, Eq, Error)]
pub enum KeyFault {
    /// The text after the modifiers is not the name of a key.
    #[error("no key has this name")]
    UnknownKey,
    /// The text has more keystrokes than `LIMIT`.
    #[error("a chord has at most {limit} keystrokes", limit = crate::chord::LIMIT)]
    TooManySteps,
    /// No text follows the modifiers, or a chord text has only spaces.
    #[error("the key is missing")]
    EmptyKey,
}

impl KeyFault {
    /// The fault in the table of all faults, which has its number and its name.
    pub fn kind(self) -> FaultKind
        ensures { result ≡ kind_of self }
    {
        match self {
            KeyFault::UnknownKey => FaultKind::UnknownKey,
            KeyFault::TooManySteps => FaultKind::TooManySteps,
            KeyFault::EmptyKey => FaultKind::EmptyKey,
        }
    }
}
