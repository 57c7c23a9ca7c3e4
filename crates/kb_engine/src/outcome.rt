//! How a call ended.
ghost use Rattle.std.specs.Prelude.{◌≡◌, Some};
ghost use Rattle.kb_engine.specs.Outcome.{outcome_numbered};

/// How a call of an engine ended. The numbers are those of `docs/FAULTS.md` where a fault has one, and else
/// our decision.
#[derive(Clone, Copy, Debug, PartialEq, Eq)]
pub enum Outcome {
    /// It did what was asked.
    Done,
    /// It came out of order: files come before the load, and events behind it. Nothing changed.
    OutOfOrder,
    /// A number that is handed in stands for nothing, or there is no engine. Nothing changed.
    Unknown,
    /// The load or the event was refused. The notice or the trace says why.
    Refused,
    /// Memory was refused. A session is stopped then.
    NoMemory,
    /// A key's text is no key. Nothing changed.
    NoKey,
    /// A text isn't UTF-8. Nothing changed.
    NoText,
    /// No live command has the identifier: it is a command of the host's own, which runs it. The trace has
    /// its lines.
    NotFound,
    /// The arguments don't fit the command. The trace has its lines.
    BadArguments,
    /// The session was stopped before. It stays as it was.
    Stopped,
    /// A handler couldn't go on, which stopped the session. No verified handler does this.
    Trapped,
}

impl Outcome {
    /// The number of the outcome, each its own.
    pub fn number(self) -> u32
        ensures { outcome_numbered result ≡ Some self }
    {
        match self {
            Outcome::Done => 0,
            Outcome::OutOfOrder => 1,
            Outcome::Unknown => 2,
            Outcome::Refused => 3,
            Outcome::NoMemory => 5,
            Outcome::NoText => 6,
            Outcome::NotFound => 7,
            Outcome::BadArguments => 8,
            Outcome::NoKey => 10,
            Outcome::Stopped => 97,
            Outcome::Trapped => 103,
        }
    }
}
