//! Refusals: what a refused file or event answers.
ghost use Rattle.std.specs.Prelude.{◌≡◌};
ghost use Rattle.kb_base.specs.Refusal.{refused_for};

use crate::fault::FaultKind;
use crate::text::Text;

/// A refusal: a fault, and the detail that its trace line prints behind the fault's name. A refused event
/// changes only the trace.
#[derive(Debug, Drop)]
pub struct Refusal {
    /// The fault.
    pub kind: FaultKind,
    /// The detail, such as a command, if the line has one.
    pub detail: Option<Text>,
}

impl Refusal {
    /// The refusal without a detail.
    pub fn of(kind: FaultKind) -> Refusal
        ensures { result ≡ refused_for kind }
    {
        Refusal { kind, detail: None }
    }
}
