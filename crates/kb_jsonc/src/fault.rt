//! Faults of a text of JSON with comments.
use kb_base::{Failure, FaultKind};
use thiserror::Error;

/// Why a file of JSON with comments cannot be read.
///
/// The variants are listed in the order in which they are checked; a file with several faults gets the
/// first of them. The order and the cases are our decision.
#[derive(Clone, Copy, Debug, PartialEq, Eq, Error)]
pub enum JsoncFault {
    /// The bytes are not UTF-8.
    #[error("the file is no UTF-8 text")]
    NotUtf8,
    /// A block comment is not closed.
    #[error("a block comment has no end")]
    OpenComment,
    /// A string is not closed.
    #[error("a string has no end")]
    OpenString,
    /// The text without comments and trailing commas is not JSON, or nests deeper than 127 levels.
    #[error("the file is no JSON text")]
    Syntax,
}

impl JsoncFault {
    ghost use Rattle.std.specs.Prelude.{◌≡◌};
    ghost use Rattle.kb_jsonc.specs.Fault.{kind_of};

    /// The fault in the table of all faults, which has its number and its name.
    pub fn kind(self) -> FaultKind
        ensures { result ≡ kind_of self }
    {
        match self {
            JsoncFault::NotUtf8 => FaultKind::NotUtf8,
            JsoncFault::OpenComment => FaultKind::OpenComment,
            JsoncFault::OpenString => FaultKind::OpenString,
            JsoncFault::Syntax => FaultKind::Syntax,
        }
    }
}

impl From<JsoncFault> for Failure<JsoncFault> {
    ghost use Rattle.std.specs.Prelude.{◌≡◌};
    ghost use Rattle.kb_base.specs.declared.failure.Failure.TheVariants.{Fault};

    ghost from_gives = { λ fault failure. failure ≡ Fault fault };

    fn from(fault: JsoncFault) -> Failure<JsoncFault> {
        Failure::Fault(fault)
    }
}
