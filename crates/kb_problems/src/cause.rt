//! What a problem is: a refusal, a warning of the load, or a lint.
ghost use Rattle.std.specs.Prelude.{◌≡◌};
ghost use Rattle.kb_problems.specs.Cause.{cause_name, kind_of, fault_of};
ghost use Rattle.kb_problems.specs.Choices.{is_off, lint_name};
ghost use Rattle.kb_problems.specs.Severity.{severity_of, severity_of_lint};

use crate::severity::{Severity, severity_in};
use kb_base::{FaultKind, Warning};
use kb_files::LoadFile;

/// A mistake that a load passes in silence.
#[derive(Clone, Copy, Debug, PartialEq, Eq)]
pub enum Lint {
    /// A command that is not known, and next to no known one.
    UnknownCommand,
    /// A command that is not known, next to a known one.
    MisspelledCommand,
    /// Arguments that the command's parameters don't take.
    WrongArguments,
    /// A removal that takes no rule.
    IdleRemoval,
    /// A rule that can never start, since a lower rule of the same file takes its keystrokes.
    NeverStarts,
    /// A rule that can never start, since a rule of another file takes its keystrokes.
    Overridden,
    /// A rule that can never start, since a lower rule takes the first of its keystrokes.
    ChordNeverOpens,
    /// A rule that can never start, since a lower rule has its keystrokes and more.
    ChordHidesRule,
    /// A pattern that `regex` rejects.
    UnreadPattern,
    /// A member that isn't known, next to a known one.
    MisspelledMember,
    /// A text in double quotes in a clause.
    DoubleQuotes,
    /// A context key that no scope of the layout has at first.
    UnknownContextKey,
}

/// The names of all lints.
pub const LINT_NAMES: [&str; 12] = [
    "unknown-command",
    "misspelled-command",
    "wrong-arguments",
    "idle-removal",
    "never-starts",
    "overridden",
    "chord-never-opens",
    "chord-hides-rule",
    "unread-pattern",
    "misspelled-member",
    "double-quotes",
    "unknown-context-key",
];

impl Lint {
    /// The name by which a lint is allowed or asked for.
    pub fn name(self) -> &'static str
        ensures { result.now ≡ lint_name self }
    {
        match self {
            Lint::UnknownCommand => "unknown-command",
            Lint::MisspelledCommand => "misspelled-command",
            Lint::WrongArguments => "wrong-arguments",
            Lint::IdleRemoval => "idle-removal",
            Lint::NeverStarts => "never-starts",
            Lint::Overridden => "overridden",
            Lint::ChordNeverOpens => "chord-never-opens",
            Lint::ChordHidesRule => "chord-hides-rule",
            Lint::UnreadPattern => "unread-pattern",
            Lint::MisspelledMember => "misspelled-member",
            Lint::DoubleQuotes => "double-quotes",
            Lint::UnknownContextKey => "unknown-context-key",
        }
    }

    /// Whether the lint is only looked for if it is asked for.
    pub fn is_off(self) -> bool
        ensures { result ≡ is_off self }
    {
        matches!(self, Lint::UnknownContextKey)
    }

    /// How bad a problem of the lint is.
    pub fn severity(self) -> Severity
        ensures { result ≡ severity_of_lint self }
    {
        match self {
            Lint::UnknownCommand | Lint::Overridden => Severity::Note,
            _ => Severity::Warning,
        }
    }
}

/// Why there is a problem.
#[derive(Clone, Copy, Debug, PartialEq, Eq)]
pub enum Cause {
    /// The load refuses this file, for this fault.
    Refused(LoadFile, FaultKind),
    /// The load warns of an entry.
    Warned(Warning),
    /// A mistake that the load passes in silence.
    Linted(Lint),
}

impl Cause {
    /// The fault; a lint has none.
    pub fn fault(self) -> Option<FaultKind>
        ensures { result ≡ fault_of self }
    {
        match self {
            Cause::Refused(_, kind) => Some(kind),
            Cause::Warned(warning) => Some(warning.kind),
            Cause::Linted(_) => None,
        }
    }

    /// The name of the fault or of the lint.
    pub fn name(self) -> &'static str
        ensures { result.now ≡ cause_name self }
    {
        match self {
            Cause::Refused(_, kind) => kind.name(),
            Cause::Warned(warning) => warning.kind.name(),
            Cause::Linted(lint) => lint.name(),
        }
    }

    /// The word for what a problem is.
    pub fn kind(self) -> &'static str
        ensures { result.now ≡ kind_of self }
    {
        match self {
            Cause::Refused(_, _) => "refused",
            Cause::Warned(_) => "warning",
            Cause::Linted(_) => "lint",
        }
    }

    /// How bad a problem of this cause is.
    pub fn severity(self) -> Severity
        ensures { result ≡ severity_of self }
    {
        match self {
            Cause::Refused(_, _) => Severity::Error,
            Cause::Warned(warning) => severity_in(warning.part, warning.kind),
            Cause::Linted(lint) => lint.severity(),
        }
    }
}
