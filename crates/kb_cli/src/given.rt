//! The program whose command line is parsed, and why a command line gives no options.
ghost use Rattle.std.specs.Prelude.{◌≡◌};
ghost use Rattle.std.specs.IoError.{error_kind};
ghost use Rattle.clap.specs.Words.{kind_of};
ghost use Rattle.kb_cli.specs.CommandLine.{RefusesWith, line_status_of, words_fault_of};

use clap::error::ErrorKind;
use kb_base::NoMemory;
use std::io;
use thiserror::Error;

/// The version that `--version` prints, which the packages of the hosts have too.
pub const VERSION: &str = "1.0.0";

/// The program whose command line is parsed.
#[derive(Clone, Copy, Debug)]
pub struct Program<'a> {
    /// Its name, which the help text shows.
    pub name: &'a str,
    /// What it does, in a sentence, which the help text shows.
    pub about: &'a str,
}

/// Why a command line gives no options.
#[derive(Debug, Drop, Error)]
pub enum OptionsFault {
    /// `clap` refuses the words, or they ask for help. The kind of this error is never `OutOfMemory`.
    #[error(transparent)]
    Line(clap::Error),
    /// Memory was refused.
    #[error("out of memory")]
    NoMemory,
}

impl From<NoMemory> for OptionsFault {
    ghost use Rattle.kb_cli.specs.declared.given.OptionsFault.TheVariants as fault;

    ghost from_gives = { λ _ made. made ≡ fault.NoMemory };

    fn from(_refused: NoMemory) -> OptionsFault {
        OptionsFault::NoMemory
    }
}

/// `clap` reports refused memory as one of its errors. Here exactly that error is `NoMemory`.
impl From<clap::Error> for OptionsFault {
    ghost use Rattle.kb_cli.specs.CommandLine.{fault_by};

    ghost from_gives = { λ error made. made ≡ fault_by error };

    fn from(error: clap::Error) -> OptionsFault {
        match error.kind() {
            ErrorKind::OutOfMemory => OptionsFault::NoMemory,
            _ => OptionsFault::Line(error),
        }
    }
}

/// The exit status of a command line that gives no options: 2 if it is refused. If it asks for help or the
/// version, 0, or 4 if the text can't be written (our decision).
fn line_status(error: &clap::Error, is_written: bool) -> u8
    ensures { result ≡ line_status_of (kind_of error.now) is_written }
{
    match (error.kind(), is_written) {
        (ErrorKind::DisplayHelp | ErrorKind::DisplayVersion, true) => 0,
        (ErrorKind::DisplayHelp | ErrorKind::DisplayVersion, false) => 4,
        _ => 2,
    }
}

/// Prints why a command line is refused, or the help or the version that it asks for, and returns the exit
/// status of the program.
///
/// Errors: if the text can't be written, `stopped: write failed` goes to the standard error.
pub fn refuse_line<R: Print + Eprint>(rt: &R, error: &clap::Error) -> u8
    ensures { RefusesWith (kind_of error.now) result }
{
    let is_written = error.print(rt).is_ok();
    if !is_written {
        let _ = rt.eprintln("stopped: write failed");
    }
    line_status(error, is_written)
}

/// Why the words of a command line could not be read.
#[derive(Clone, Copy, Debug, PartialEq, Eq)]
pub enum WordsFault {
    /// A word is no UTF-8 text.
    NotText,
    /// Memory was refused.
    NoMemory,
}

/// Why the words could not be read, from the error of `env::args`: `InvalidData` for a word that is no text.
/// Its only other error is refused memory.
pub fn words_fault(error: &io::Error) -> WordsFault
    ensures { result ≡ words_fault_of (error_kind error.now) }
{
    match error.kind() {
        io::ErrorKind::InvalidData => WordsFault::NotText,
        _ => WordsFault::NoMemory,
    }
}
