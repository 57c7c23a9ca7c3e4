//! Reads the files of an extension's directory.
ghost use Rattle.std.specs.Prelude.{◌≡◌, IfOk, MatchResult, Ok};
ghost use Rattle.kb_disk.specs.CannotRead.{path_in};
ghost use Rattle.kb_disk.specs.Files.{FailsAt, GivesIfThere, HasHandlers, HasManifest, HasRead, failure_in};
ghost use Rattle.kb_disk.specs.declared.cannot_read.DirFile.TheVariants.{Package, Handlers};

use crate::cannot_read::{CannotRead, DirFile};
use crate::files::{FileSource, read_file, read_if_there};
use kb_base::{Failure, NoMemory, Seq, Text};
use kb_files::SourceFile;
use kb_stream::ReadFault;
use std::alloc::Global;

/// The path of a file of an extension's directory: the directory's path as given, `/` and the file's name.
///
/// Errors: `NoMemory`.
pub fn path_in(alloc: Global, dir: &str, file: DirFile) -> Result<String, NoMemory>
    ensures { IfOk result (λ path. path.bytes.items ≡ path_in dir.now file) }
{
    let name = file.name();
    format!(in alloc; "{dir}/{name}")
}

/// A file that was read.
fn source_of(path: String, bytes: Vec<u8>) -> SourceFile
    ensures { result.bytes ≡ bytes.items }
{
    SourceFile {
        path: Text::from_string(path),
        bytes: Seq::from_vec(bytes),
    }
}

/// Adds to a failure which file of a directory could not be read.
fn failure_in<'a>(
    dir: &'a str,
    file: DirFile,
    failure: Failure<ReadFault>,
) -> Failure<CannotRead<'a>>
    ensures { result ≡ failure_in dir.entry file failure }
{
    failure.map_fault(|_| CannotRead::InDirectory(dir, file))
}

/// The bytes of the manifest at its path in `dir`.
///
/// Errors: those of [`read_file`], with the directory and the file.
#[tactic(auto, using(crate::proofs::FilesLemmas::manifest_fails))]
fn manifest_at<'a, F: FileSource>(
    files: &F,
    alloc: Global,
    dir: &'a str,
    path: &str,
) -> Result<Vec<u8>, Failure<CannotRead<'a>>>
    ensures { MatchResult result (λ bytes. HasRead (F.held files.now path.now) (λ b. b.items) (Ok bytes))
        (FailsAt Package (F.held files.now path.now) dir.entry) }
{
    match read_file(files, alloc, path) {
        Ok(bytes) => Ok(bytes),
        Err(failure) => Err(failure_in(dir, DirFile::Package, failure)),
    }
}

/// The bytes of the handlers at their path in `dir`, or `None` if no such file exists.
///
/// Errors: those of [`read_if_there`], with the directory and the file.
#[tactic(auto, using(crate::proofs::FilesLemmas::handlers_fail))]
fn handlers_at<'a, F: FileSource>(
    files: &F,
    alloc: Global,
    dir: &'a str,
    path: &str,
) -> Result<Option<Vec<u8>>, Failure<CannotRead<'a>>>
    ensures { MatchResult result (GivesIfThere (F.held files.now path.now) (λ bytes. bytes.items))
        (FailsAt Handlers (F.held files.now path.now) dir.entry) }
{
    match read_if_there(files, alloc, path) {
        Ok(bytes) => Ok(bytes),
        Err(failure) => Err(failure_in(dir, DirFile::Handlers, failure)),
    }
}

/// The manifest of an extension's directory, which is the file `package.json` in it.
///
/// Errors: `CannotRead::InDirectory` if the file does not open, cannot be read or is longer than
/// `FILE_LIMIT`, or refused memory.
#[tactic(auto, using(crate::proofs::FilesLemmas::unread_in))]
pub fn manifest_in<'a, F: FileSource>(
    files: &F,
    alloc: Global,
    dir: &'a str,
) -> Result<SourceFile, Failure<CannotRead<'a>>>
    ensures { HasManifest (F.held files.now) (λ file. file.bytes) dir.entry result }
{
    let path = path_in(alloc, dir, DirFile::Package)?;
    match manifest_at(files, alloc, dir, path.as_str()) {
        Ok(bytes) => Ok(source_of(path, bytes)),
        Err(failure) => Err(failure),
    }
}

/// The handlers of an extension's directory, which are the file `handlers.json` in it, or `None` if no such
/// file exists. A file that exists and does not open is an error (our decision).
///
/// Errors: those of [`manifest_in`].
#[tactic(auto, using(crate::proofs::FilesLemmas::unread_in))]
pub fn handlers_in<'a, F: FileSource>(
    files: &F,
    alloc: Global,
    dir: &'a str,
) -> Result<Option<SourceFile>, Failure<CannotRead<'a>>>
    ensures { HasHandlers (F.held files.now) (λ file. file.bytes) dir.entry result }
{
    let path = path_in(alloc, dir, DirFile::Handlers)?;
    match handlers_at(files, alloc, dir, path.as_str()) {
        Ok(Some(bytes)) => Ok(Some(source_of(path, bytes))),
        Ok(None) => Ok(None),
        Err(failure) => Err(failure),
    }
}
