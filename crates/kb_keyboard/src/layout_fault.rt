//! Faults of layouts of keyboards.
use kb_base::FaultKind;
use thiserror::Error;

/// Why a layout of a keyboard isn't taken. The variants are listed in the order in which they are checked;
/// the cases are our decision.
#[derive(Clone, Copy, Debug, PartialEq, Eq, Error)]
pub enum LayoutFault {
    /// It has more than 256 keys.
    #[error("the layout has too many keys")]
    TooLarge,
    /// Two of its keys have the same code.
    #[error("the layout has a code twice")]
    CodeTwice,
}

impl LayoutFault {
    ghost use Rattle.std.specs.Prelude.{◌≡◌};
    ghost use Rattle.kb_keyboard.specs.LayoutFault.{kind_of};

    /// The fault in the table of all faults, which has its number and its name: 44 or 70.
    pub fn kind(self) -> FaultKind
        ensures { result ≡ kind_of self }
    {
        match self {
            LayoutFault::TooLarge => FaultKind::TooLarge,
            LayoutFault::CodeTwice => FaultKind::AlreadyExists,
        }
    }
}
