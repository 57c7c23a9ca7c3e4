//! How a run ends: why it stopped before its end, and its exit status.
ghost use Rattle.std.specs.Prelude.{◌≡◌};
ghost use Rattle.kb_keycheck.specs.Ends as ends;

use kb_base::{Failure, NoMemory};
use kb_disk::CannotRead;
use kb_files::LoadFault;
use kb_keys::KeyFault;
use std::fmt;

/// Why a run stopped before its end, behind a command line that was read.
#[derive(Debug, Drop)]
pub enum Stop<'a> {
    /// The keystrokes of the command line can't be read.
    Keys(KeyFault),
    /// It stopped as a run of `keyrun` does: a file can't be read, the load was refused, the script did
    /// not run to its end, or memory was refused.
    Run(kb_run::Stop<'a>),
    /// A write failed.
    NotWritten,
}

impl From<NoMemory> for Stop<'_> {
    ghost use Rattle.kb_run.specs.declared.outcome.Stop.TheVariants as run;
    ghost use Rattle.kb_keycheck.specs.declared.ending.Stop.TheVariants as stop;

    ghost from_gives = { λ _ made. made ≡ stop.Run run.NoMemory };

    fn from(_refused: NoMemory) -> Self {
        Stop::Run(kb_run::Stop::NoMemory)
    }
}

/// Stops for a file that could not be read, or for refused memory.
impl<'a> From<Failure<CannotRead<'a>>> for Stop<'a> {
    ghost use Rattle.kb_run.specs.ExitStatus.{read_stop};
    ghost use Rattle.kb_keycheck.specs.declared.ending.Stop.TheVariants as stop;

    ghost from_gives = { λ failure made. made ≡ stop.Run (read_stop failure) };

    fn from(failure: Failure<CannotRead<'a>>) -> Self {
        Stop::Run(kb_run::Stop::from(failure))
    }
}

/// Stops for a fault of a load, or for refused memory.
impl From<Failure<LoadFault>> for Stop<'_> {
    ghost use Rattle.kb_run.specs.ExitStatus.{load_stop};
    ghost use Rattle.kb_keycheck.specs.declared.ending.Stop.TheVariants as stop;

    ghost from_gives = { λ failure made. made ≡ stop.Run (load_stop failure) };

    fn from(failure: Failure<LoadFault>) -> Self {
        Stop::Run(kb_run::Stop::from(failure))
    }
}

impl From<kb_report::Stop> for Stop<'_> {
    ghost use Rattle.kb_keycheck.specs.Ends.{report_stop};

    ghost from_gives = { λ stop made. made ≡ report_stop stop };

    fn from(stop: kb_report::Stop) -> Self {
        match stop {
            kb_report::Stop::NoMemory => Stop::Run(kb_run::Stop::NoMemory),
            kb_report::Stop::NotWritten => Stop::NotWritten,
        }
    }
}

/// What is wrong with keystrokes.
fn keys_line(fault: KeyFault) -> &'static str {
    match fault {
        KeyFault::UnknownKey =>
            "the keystrokes can't be read, for 10 UnknownKey: a key has no known name",
        KeyFault::TooManySteps =>
            "the keystrokes can't be read, for 11 TooManySteps: they are more than four",
        KeyFault::EmptyKey => "the keystrokes can't be read, for 12 EmptyKey: a key is missing",
    }
}

/// Shows the line for standard error, without a line feed.
impl fmt::Display for Stop<'_> {
    fn fmt<W: fmt::Write>(&self, f: &mut fmt::Formatter<W>) -> fmt::Result {
        match self {
            Stop::Keys(fault) => f.write_str(keys_line(*fault)),
            Stop::Run(stop) => {
                write!(f, "{stop}")?;
                f.write_str(advice(stop))
            }
            Stop::NotWritten => f.write_str("stopped: write failed"),
        }
    }
}

/// What stands behind the line of a run that stopped.
fn advice(stop: &kb_run::Stop<'_>) -> &'static str {
    match stop {
        kb_run::Stop::Load(_) => " (keycheck check says where)",
        _ => "",
    }
}

/// The exit status of a run that stopped: 2 if the keystrokes of the command line can't be read, 3 if a file
/// can't be read or a load is refused, and 4 otherwise.
pub(crate) fn stop_status(stop: &Stop<'_>) -> u8
    ensures { result ≡ ends.stop_status stop.now }
{
    match stop {
        Stop::Keys(_) => 2,
        Stop::Run(kb_run::Stop::Unread(_)) | Stop::Run(kb_run::Stop::Load(_)) => 3,
        Stop::Run(kb_run::Stop::Script(_)) | Stop::Run(kb_run::Stop::NoMemory) | Stop::NotWritten =>
            4,
    }
}

/// The exit status of a check (our decision): 0 if it showed no problem, 1 if it showed one, and that of the
/// stop if it stopped.
pub(crate) fn check_status(end: &Result<bool, Stop<'_>>) -> u8
    ensures { result ≡ ends.check_status end.now }
{
    match end {
        Ok(true) => 0,
        Ok(false) => 1,
        Err(stop) => stop_status(stop),
    }
}

/// The exit status of an answer (our decision): 0 if it was given, and that of the stop if the run stopped.
pub(crate) fn answer_status(end: &Result<(), Stop<'_>>) -> u8
    ensures { result ≡ ends.answer_status end.now }
{
    match end {
        Ok(()) => 0,
        Err(stop) => stop_status(stop),
    }
}
