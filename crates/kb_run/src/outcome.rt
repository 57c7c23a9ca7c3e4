//! Why a run of a program stopped before its end.
ghost use Rattle.std.specs.Prelude.{◌≡◌};

use kb_base::{Failure, NoMemory};
use kb_disk::CannotRead;
use kb_files::LoadFault;
use kb_script::ScriptFault;

/// Why a run stopped before its end, after the command line was read.
#[derive(Debug, Drop)]
pub enum Stop<'a> {
    /// A file could not be read.
    Unread(CannotRead<'a>),
    /// The load was refused.
    Load(LoadFault),
    /// The script did not run to its end, or not all of the trace was written.
    Script(ScriptFault),
    /// Memory was refused.
    NoMemory,
}

impl From<NoMemory> for Stop<'_> {
    ghost use Rattle.kb_run.specs.declared.outcome.Stop.TheVariants as stop;

    ghost from_gives = { λ _ made. made ≡ stop.NoMemory };

    fn from(_refused: NoMemory) -> Self {
        Stop::NoMemory
    }
}

/// Stops for a file that could not be read, or for refused memory.
impl<'a> From<Failure<CannotRead<'a>>> for Stop<'a> {
    ghost use Rattle.kb_run.specs.ExitStatus.{read_stop};

    ghost from_gives = { λ failure made. made ≡ read_stop failure };

    fn from(failure: Failure<CannotRead<'a>>) -> Self {
        match failure {
            Failure::NoMemory => Stop::NoMemory,
            Failure::Fault(unread) => Stop::Unread(unread),
        }
    }
}

/// Stops for a fault of a load, or for refused memory.
impl From<Failure<LoadFault>> for Stop<'_> {
    ghost use Rattle.kb_run.specs.ExitStatus.{load_stop};

    ghost from_gives = { λ failure made. made ≡ load_stop failure };

    fn from(failure: Failure<LoadFault>) -> Self {
        match failure {
            Failure::NoMemory => Stop::NoMemory,
            Failure::Fault(fault) => Stop::Load(fault),
        }
    }
}
