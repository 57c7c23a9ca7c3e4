//! Why a check stopped before its end, and the exit status.
ghost use Rattle.std.specs.Prelude.{◌≡◌};
ghost use Rattle.kb_handler_report.specs.Stop as stops;

use kb_base::{FaultKind, NoMemory, Text};
use std::fmt;

/// Why a check stopped before each handler was verified.
#[derive(Debug, Drop)]
pub enum Stop {
    /// The file at this path could not be read.
    CannotRead(Text),
    /// The file at this path is refused, for this fault.
    Refused(Text, FaultKind),
    /// There are more than 100 extensions.
    TooMany,
    /// Memory was refused.
    NoMemory,
    /// A write failed.
    NotWritten,
}

impl From<NoMemory> for Stop {
    ghost use Rattle.kb_handler_report.specs.declared.stop.Stop.TheVariants as stop;

    ghost from_gives = { λ _ made. made ≡ stop.NoMemory };

    fn from(_refused: NoMemory) -> Self {
        Stop::NoMemory
    }
}

/// Shows the line for standard error, without a line feed.
impl fmt::Display for Stop {
    fn fmt<W: fmt::Write>(&self, f: &mut fmt::Formatter<W>) -> fmt::Result {
        match self {
            Stop::CannotRead(path) => {
                let path = path.as_str();
                write!(f, "cannot read {path}")
            }
            Stop::Refused(path, fault) => {
                let path = path.as_str();
                let meaning = fault.meaning();
                write!(f, "{path} is refused, for {fault}: {meaning}.")
            }
            Stop::TooMany => f.write_str(
                "the extensions are refused, for 44 TooLarge: there are more than 100.",
            ),
            Stop::NoMemory => f.write_str("stopped: out of memory"),
            Stop::NotWritten => f.write_str("stopped: write failed"),
        }
    }
}

/// The exit status of a check (our decision): 0 if all handlers are accepted, 1 if a handler is not, 3 if a
/// file could not be read or is refused, and 4 if memory was refused or a write failed.
pub fn status_of(end: &Result<bool, Stop>) -> u8
    ensures { result ≡ stops.status_of end.now }
{
    match end {
        Ok(true) => 0,
        Ok(false) => 1,
        Err(Stop::CannotRead(_)) | Err(Stop::Refused(_, _)) | Err(Stop::TooMany) => 3,
        Err(Stop::NoMemory) | Err(Stop::NotWritten) => 4,
    }
}
