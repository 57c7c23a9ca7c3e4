//! Why a load was refused. The numbers are the engine's own.
ghost use Rattle.std.specs.Prelude.{◌≡◌};
ghost use Rattle.kb_files.specs.Fault as fault;

use kb_base::{Failure, Refusal};
use std::fmt;

/// What a load reads, in its order: the files, and then the closures of the host for native commands.
#[derive(Clone, Copy, Debug, PartialEq, Eq)]
pub enum LoadFile {
    /// The layout of the scopes.
    Layout,
    /// The default rules.
    Defaults,
    /// The user's rules.
    User,
    /// All extensions together.
    Extensions,
    /// The `package.json` of an extension, by its number in load order, from 0 on.
    Package(usize),
    /// The `handlers.json` of an extension, by its number in load order, from 0 on.
    Handlers(usize),
    /// The closures that the host gives for native commands.
    Natives,
}

/// Why a session was not loaded: the first file in the order of loading that is refused, and why.
#[derive(Debug, Drop)]
pub struct LoadFault {
    pub file: LoadFile,
    pub refusal: Refusal,
}

/// Shows the name of the file in the line of a refused load.
impl fmt::Display for LoadFile {
    ghost use Rattle.std.specs.Prelude.{Some};
    ghost use Rattle.kb_files.specs.Fault.{load_file_word};

    ghost output = { λ file. Some (load_file_word file) };

    fn fmt<W: fmt::Write>(&self, f: &mut fmt::Formatter<W>) -> fmt::Result {
        match self {
            LoadFile::Layout => f.write_str("layout"),
            LoadFile::Defaults => f.write_str("defaults"),
            LoadFile::User => f.write_str("user"),
            LoadFile::Extensions => f.write_str("extensions"),
            LoadFile::Package(number) => write!(f, "ext {number} package.json"),
            LoadFile::Handlers(number) => write!(f, "ext {number} handlers.json"),
            LoadFile::Natives => f.write_str("natives"),
        }
    }
}

/// Shows the line of a refused load, without a line feed: the file, the fault's number and name, and its
/// detail, if it has one.
impl fmt::Display for LoadFault {
    ghost use Rattle.std.specs.Prelude.{Some};
    ghost use Rattle.kb_files.specs.Fault.{load_line};

    ghost output = { λ fault. Some (load_line fault) };

    fn fmt<W: fmt::Write>(&self, f: &mut fmt::Formatter<W>) -> fmt::Result {
        let file = self.file;
        let kind = self.refusal.kind;
        match &self.refusal.detail {
            Some(detail) => {
                let detail = detail.as_str();
                write!(f, "load refused: {file} {kind} {detail}")
            }
            None => write!(f, "load refused: {file} {kind}"),
        }
    }
}

/// Why a load failed, by the failure of one of its files.
pub fn failure_of(file: LoadFile, failure: Failure<Refusal>) -> Failure<LoadFault>
    ensures { result ≡ fault.failure_of file failure }
{
    failure.map_fault(|refusal| LoadFault { file, refusal })
}

/// What was read of a file, or the failure of that file: its fault with the file's name, or `NoMemory`.
pub fn of_file<T: Drop>(
    file: LoadFile,
    read: Result<T, Failure<Refusal>>,
) -> Result<T, Failure<LoadFault>>
    ensures { result ≡ fault.of_file file read }
{
    match read {
        Ok(value) => Ok(value),
        Err(failure) => Err(failure_of(file, failure)),
    }
}
