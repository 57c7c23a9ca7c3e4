//! Reads the files of extensions.
ghost use Rattle.std.specs.Prelude.{◌≡◌, ◌<◌, ◌≤◌, IfErr, IfOk, None, length, map, slice_get};
ghost use Rattle.kb_disk.specs.CannotRead as paths;
ghost use Rattle.kb_disk.specs.declared.cannot_read.DirFile.TheVariants.{Package, Handlers};
ghost use Rattle.kb_files.specs.Identifiers as identifiers;
ghost use Rattle.kb_handler_report.specs.Extension.{names_of};
ghost use Rattle.kb_handler_report.specs.Files.{HasExtension, HasExtensions, HandlersIn, NamesIn};
ghost use Rattle.kb_handler_report.specs.Files.{HasHandlers, HasNames};
ghost use Rattle.kb_handler_report.specs.Stopping.{StopsReading, StopsAt, StopsInDirectory};
ghost use Rattle.kb_handler_report.specs.Stopping.{StopsInDirectories, StopsAtBytes, StopsAtHandlers};
ghost use Rattle.kb_handler_report.specs.Stopping.{IsOfExtension, IsOfRefused, IsOfUnread, IsRefusedAt};

use crate::extension::ExtensionCode;
use crate::stop::Stop;
use kb_base::{ExtensionId, Failure, FaultKind, NoMemory, Refusal, Seq, Text};
use kb_code::Handler;
use kb_disk::{CannotRead, DirFile, FileSource, path_in};
use kb_files::{
    EXTENSION_LIMIT, Extension, IdentifierFault, SourceFile, identifier_fault, read_extension,
    read_handlers,
};
use kb_keys::Platform;
use std::alloc::Global;
use std::mem;

/// Reads the extensions in these directories: of each the manifest, and then the handlers, if there are any.
///
/// Errors: first that there are more than 100 directories; then the first file that cannot be read or is
/// refused, or refused memory; and last the faults of the extensions' identifiers.
#[tactic(auto, using(crate::proofs::FilesLemmas::fault_within))]
pub(crate) fn read_extensions<F: FileSource>(
    files: &F,
    alloc: Global,
    dirs: &[&str],
) -> Result<Vec<ExtensionCode>, Stop>
    ensures read { IfOk result (λ read. HasExtensions (F.held files.now) dirs.now read.items) }
    ensures names { IfOk result (λ read.
        identifiers.identifier_fault (map names_of read.items) ≡ None) }
    ensures few { IfOk result (λ read. length dirs.now ≤ 100) }
    ensures stopped { IfErr result (StopsReading (F.held files.now) dirs.now) }
{
    if dirs.len() > EXTENSION_LIMIT {
        return Err(Stop::TooMany);
    }
    let extensions = read_directories(files, alloc, dirs)?;
    match identifier_fault(extensions.as_slice()) {
        Some(fault) => Err(refused_extension(alloc, extensions.as_slice(), fault)),
        None => Ok(extensions),
    }
}

/// Reads the extensions in these directories, whichever identifiers they have.
fn read_directories<F: FileSource>(
    files: &F,
    alloc: Global,
    dirs: &[&str],
) -> Result<Vec<ExtensionCode>, Stop>
    ensures read { IfOk result (λ read. HasExtensions (F.held files.now) dirs.now read.items) }
    ensures stopped { IfErr result (StopsInDirectories (F.held files.now) dirs.now) }
{
    let mut extensions = Vec::new(alloc);
    for dir in dirs {
        let extension = read_directory(files, alloc, *dir)?;
        extensions.push(extension).map_err(NoMemory::from)?;
    }
    Ok(extensions)
}

/// Reads the extension in a directory.
#[tactic(auto, using(crate::proofs::StoppingLemmas::handlers_stop_directory))]
fn read_directory<F: FileSource>(files: &F, alloc: Global, dir: &str) -> Result<ExtensionCode, Stop>
    ensures read { IfOk result (HasExtension (F.held files.now) dir.entry) }
    ensures stopped { IfErr result (StopsInDirectory (F.held files.now) dir.entry) }
{
    let (id, dependencies) = read_names(files, alloc, dir)?;
    let handlers = handlers_in(files, alloc, dir)?;
    Ok(ExtensionCode {
        dir: Text::from_str(alloc, dir)?,
        id,
        dependencies,
        handlers,
    })
}

/// Reads the identifier and the dependencies of the extension in a directory.
#[tactic(auto, using(crate::proofs::FilesLemmas::has_names, crate::proofs::StoppingLemmas::files_stop))]
fn read_names<F: FileSource>(
    files: &F,
    alloc: Global,
    dir: &str,
) -> Result<(ExtensionId, Seq<ExtensionId>), Stop>
    ensures read { IfOk result (λ names. HasNames (F.held files.now) dir.entry names.0 names.1) }
    ensures stopped { IfErr result (StopsAt Package (F.held files.now) dir.entry) }
{
    match kb_disk::manifest_in(files, alloc, dir) {
        Ok(file) => {
            let names = names_in(alloc, dir, file.bytes.as_slice())?;
            Ok(names)
        }
        Err(failure) => Err(unread(alloc, failure)),
    }
}

/// The identifier and the dependencies that a manifest states.
#[tactic(auto, using(crate::proofs::FilesLemmas::has_names_in))]
fn names_in(alloc: Global, dir: &str, bytes: &[u8]) -> Result<(ExtensionId, Seq<ExtensionId>), Stop>
    ensures read { IfOk result (λ names. NamesIn bytes.now names.0 names.1) }
    ensures stopped { IfErr result (StopsAtBytes Package dir.now bytes.now) }
{
    match read_extension(alloc, bytes, 0, Platform::Linux) {
        Ok(extension) => Ok(take_names(alloc, extension)),
        Err(failure) => Err(failed_file(alloc, dir, DirFile::Package, &failure)),
    }
}

/// The identifier and the dependencies, moved out of an extension.
fn take_names(alloc: Global, extension: Extension) -> (ExtensionId, Seq<ExtensionId>)
    ensures id { result.0 ≡ extension.manifest.id }
    ensures dependencies { result.1 ≡ extension.manifest.dependencies }
{
    let mut extension = extension;
    let id = mem::replace(
        &mut extension.manifest.id,
        ExtensionId::new(Text::new(alloc)),
    );
    let dependencies = mem::replace(&mut extension.manifest.dependencies, Seq::new(alloc));
    drop(extension);
    (id, dependencies)
}

/// Reads the handlers in a directory, or returns `None` if there is no such file.
#[tactic(auto, using(crate::proofs::FilesLemmas::has_handlers, crate::proofs::StoppingLemmas::files_stop))]
fn handlers_in<F: FileSource>(
    files: &F,
    alloc: Global,
    dir: &str,
) -> Result<Option<Seq<Handler>>, Stop>
    ensures read { IfOk result (HasHandlers (F.held files.now) dir.entry) }
    ensures stopped { IfErr result (StopsAt Handlers (F.held files.now) dir.entry) }
{
    match kb_disk::handlers_in(files, alloc, dir) {
        Ok(file) => {
            let handlers = listed(alloc, dir, &file)?;
            Ok(handlers)
        }
        Err(failure) => Err(unread(alloc, failure)),
    }
}

/// The handlers that a file lists, or `None` if there is no file.
#[tactic(auto, using(crate::proofs::StoppingLemmas::handlers_refused))]
fn listed(alloc: Global, dir: &str, file: &Option<SourceFile>) -> Result<Option<Seq<Handler>>, Stop>
    ensures read { IfOk result (HandlersIn (λ file. file.bytes) file.now) }
    ensures stopped { IfErr result (StopsAtHandlers (λ file. file.bytes) dir.now file.now) }
{
    let Some(file) = file else {
        return Ok(None);
    };
    match read_handlers(alloc, file.bytes.as_slice()) {
        Ok(handlers) => Ok(Some(handlers)),
        Err(failure) => Err(failed_file(alloc, dir, DirFile::Handlers, &failure)),
    }
}

/// The error for a file that could not be read.
fn unread(alloc: Global, failure: Failure<CannotRead<'_>>) -> Stop
    ensures { IsOfUnread failure.entry result }
{
    let Failure::Fault(unread) = failure else {
        return Stop::NoMemory;
    };
    match format!(in alloc; "{unread}") {
        Ok(path) => Stop::CannotRead(Text::from_string(path)),
        Err(_) => Stop::NoMemory,
    }
}

/// The error for the extension with this fault of its identifier or its dependencies.
fn refused_extension(alloc: Global, extensions: &[ExtensionCode], fault: IdentifierFault) -> Stop
    requires { fault.place < length extensions.now }
    ensures { IsOfExtension (slice_get extensions.now fault.place) fault.kind result }
{
    let dir = extensions[fault.place].dir.as_str();
    refused_file(alloc, dir, DirFile::Package, fault.kind)
}

/// The error for a file in a directory that is refused, for this fault.
fn refused_file(alloc: Global, dir: &str, file: DirFile, kind: FaultKind) -> Stop
    ensures { IsRefusedAt (paths.path_in dir.now file) kind result }
{
    match path_in(alloc, dir, file) {
        Ok(path) => Stop::Refused(Text::from_string(path), kind),
        Err(_) => Stop::NoMemory,
    }
}

/// The error for a file in a directory whose bytes could not be parsed.
fn failed_file(alloc: Global, dir: &str, file: DirFile, failure: &Failure<Refusal>) -> Stop
    ensures { IsOfRefused (paths.path_in dir.now file) failure.now result }
{
    match failure {
        Failure::NoMemory => Stop::NoMemory,
        Failure::Fault(refusal) => refused_file(alloc, dir, file, refusal.kind),
    }
}
