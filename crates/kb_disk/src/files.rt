//! Opens and reads the files that options name.
ghost use Rattle.std.specs.Prelude.{◌≡◌};
ghost use Rattle.std.specs.IoError.{error_kind};
ghost use Rattle.kb_disk.specs.Files.{Opens, HasRead, HasIfThere, NamesBytes, NamesFile};
ghost use Rattle.kb_disk.specs.Files.{failure_of, file_failure, is_missing};

use crate::cannot_read::CannotRead;
use kb_base::{Failure, Seq, Text};
use kb_files::SourceFile;
use kb_stream::{ReadFault, read_within};
use std::alloc::Global;
use std::io::{ErrorKind, Read};
use std::rt::Files;
use std::{fs, io};

/// The most bytes that a file may have. Our decision.
pub const FILE_LIMIT: usize = 16_777_216;

/// Files by their paths.
pub trait FileSource {
    ghost use Rattle.std.specs.Prelude.{ℕ, List};
    ghost use Rattle.kb_disk.specs.Files.{Held, unknown};

    type File: Read + Drop;

    /// What there is at a path, where that is known.
    ghost held: { Self → List ℕ → Held } = { λ _ _. unknown };

    /// Opens the file at a path for reading. Error: the system's.
    fn open(&self, path: &str) -> io::Result<Self::File>
        ensures { Opens Self.File.remaining (held self.now path.now) result };
}

/// The files of the system, of which contracts know nothing.
#[derive(Clone, Copy)]
pub struct SystemFiles<'a, R> {
    pub rt: &'a R,
}

impl<R: Files> FileSource for SystemFiles<'_, R> {
    type File = R::File;

    fn open(&self, path: &str) -> io::Result<R::File> {
        fs::open(self.rt, path)
    }
}

/// Why a file did not open: memory was refused, or any other error of the system.
fn open_failure(error: &io::Error) -> Failure<ReadFault>
    ensures { result ≡ failure_of (error_kind error.now) }
{
    match error.kind() {
        ErrorKind::OutOfMemory => Failure::NoMemory,
        _ => Failure::Fault(ReadFault::Failed),
    }
}

/// Whether a file did not open because no such file exists.
fn is_not_found(error: &io::Error) -> bool
    ensures { result ≡ is_missing (error_kind error.now) }
{
    matches!(error.kind(), ErrorKind::NotFound)
}

/// Adds to a failure which file could not be read.
fn file_failure<'a>(path: &'a str, failure: Failure<ReadFault>) -> Failure<CannotRead<'a>>
    ensures { result ≡ file_failure path.entry failure }
{
    failure.map_fault(|_| CannotRead::File(path))
}

/// All bytes of the file at a path.
///
/// Errors: `Failed` if the file does not open or a read fails, `TooLong` past [`FILE_LIMIT`], or refused
/// memory.
pub(crate) fn read_file<F: FileSource>(
    files: &F,
    alloc: Global,
    path: &str,
) -> Result<Vec<u8>, Failure<ReadFault>>
    ensures { HasRead (F.held files.now path.now) (λ bytes. bytes.items) result }
{
    match files.open(path) {
        Ok(mut file) => read_within(alloc, &mut file, FILE_LIMIT),
        Err(error) => Err(open_failure(&error)),
    }
}

/// All bytes of the file at a path, or `None` if no such file exists.
///
/// Errors: those of [`read_file`].
pub(crate) fn read_if_there<F: FileSource>(
    files: &F,
    alloc: Global,
    path: &str,
) -> Result<Option<Vec<u8>>, Failure<ReadFault>>
    ensures { HasIfThere (F.held files.now path.now) (λ bytes. bytes.items) result }
{
    match files.open(path) {
        Ok(mut file) => match read_within(alloc, &mut file, FILE_LIMIT) {
            Ok(bytes) => Ok(Some(bytes)),
            Err(failure) => Err(failure),
        },
        Err(error) => {
            if is_not_found(&error) {
                Ok(None)
            } else {
                Err(open_failure(&error))
            }
        }
    }
}

/// All of the file at a path.
///
/// Errors: those of [`read_file`].
#[tactic(auto, using(crate::proofs::FilesLemmas::refused_behind))]
fn read_source<F: FileSource>(
    files: &F,
    alloc: Global,
    path: &str,
) -> Result<SourceFile, Failure<ReadFault>>
    ensures { HasRead (F.held files.now path.now) (λ file. file.bytes) result }
{
    match read_file(files, alloc, path) {
        Ok(bytes) => match Text::from_str(alloc, path) {
            Ok(path) => Ok(SourceFile {
                path,
                bytes: Seq::from_vec(bytes),
            }),
            Err(_) => Err(Failure::NoMemory),
        },
        Err(failure) => Err(failure),
    }
}

/// The file that an option names, read, or `None` if the option names no file.
///
/// Errors: `CannotRead::File` if the file does not open, cannot be read or is longer than [`FILE_LIMIT`], or
/// refused memory.
pub(crate) fn source_named<'a, F: FileSource>(
    files: &F,
    alloc: Global,
    path: Option<&'a str>,
) -> Result<Option<SourceFile>, Failure<CannotRead<'a>>>
    ensures { NamesBytes (F.held files.now) (λ file. file.bytes) path.entry result }
{
    let Some(path) = path else {
        return Ok(None);
    };
    match read_source(files, alloc, path) {
        Ok(file) => Ok(Some(file)),
        Err(failure) => Err(file_failure(path, failure)),
    }
}

/// The file that an option names, open for reading, or `None` if the option names no file.
///
/// Errors: `CannotRead::File` if the file does not open, or refused memory.
pub fn file_named<'a, F: FileSource>(
    files: &F,
    path: Option<&'a str>,
) -> Result<Option<F::File>, Failure<CannotRead<'a>>>
    ensures { NamesFile (F.held files.now) F.File.remaining path.entry result }
{
    let Some(path) = path else {
        return Ok(None);
    };
    match files.open(path) {
        Ok(file) => Ok(Some(file)),
        Err(error) => Err(file_failure(path, open_failure(&error))),
    }
}
