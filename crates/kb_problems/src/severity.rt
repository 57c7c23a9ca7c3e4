//! How bad a problem is.
ghost use Rattle.std.specs.Prelude.{◌≡◌};
ghost use Rattle.kb_problems.specs.Severity.{severity_in, severity_in_other, severity_in_rule};
ghost use Rattle.kb_problems.specs.Severity.{severity_name, severity_named};

use kb_base::{FaultKind, Part};

/// How bad a problem is.
#[derive(Clone, Copy, Debug, PartialEq, Eq)]
pub enum Severity {
    /// The load is refused, or an entry is dropped.
    Error,
    /// An entry never does what it says.
    Warning,
    /// All others.
    Note,
}

/// The names of all severities, from the worst on.
pub const SEVERITY_NAMES: [&str; 3] = ["error", "warning", "note"];

impl Severity {
    /// The name of a severity.
    pub fn name(self) -> &'static str
        ensures { result.now ≡ severity_name self }
    {
        match self {
            Severity::Error => "error",
            Severity::Warning => "warning",
            Severity::Note => "note",
        }
    }

    /// The severity of this name.
    pub fn named(name: &str) -> Option<Severity>
        ensures { result ≡ severity_named name.now }
    {
        match name {
            "error" => Some(Severity::Error),
            "warning" => Some(Severity::Warning),
            "note" => Some(Severity::Note),
            _ => None,
        }
    }
}

/// How bad the fault of a rule is.
fn severity_in_rule(kind: FaultKind) -> Severity
    ensures { result ≡ severity_in_rule kind }
{
    match kind {
        FaultKind::UnreadPattern => Severity::Warning,
        _ => Severity::Error,
    }
}

/// How bad the fault of a command or of an item of the palette is.
fn severity_in_other(kind: FaultKind) -> Severity
    ensures { result ≡ severity_in_other kind }
{
    match kind {
        FaultKind::BadToken
        | FaultKind::Unexpected
        | FaultKind::ClauseTooDeep
        | FaultKind::BadNumber
        | FaultKind::UnreadPattern => Severity::Warning,
        _ => Severity::Error,
    }
}

/// How bad the fault of an entry of a part is.
pub(crate) fn severity_in(part: Part, kind: FaultKind) -> Severity
    ensures { result ≡ severity_in part kind }
{
    match part {
        Part::Keybindings => severity_in_rule(kind),
        Part::Commands | Part::Palette => severity_in_other(kind),
    }
}
