//! Reads the files of a load.
ghost use Rattle.std.specs.Prelude.{◌≡◌, IfOk, IfErr, map};
ghost use Rattle.kb_disk.specs.Directory.{FailsInDirectories, FailsInDirectory, HasDirectories, HasDirectory};
ghost use Rattle.kb_disk.specs.LoadFiles.{FailsReadingFiles, HasFiles};
ghost use Rattle.kb_files.specs.SourceFiles.{bytes_of_extension, files_in};

use crate::cannot_read::CannotRead;
use crate::directory::{handlers_in, manifest_in};
use crate::files::{FileSource, source_named};
use crate::options::Options;
use kb_base::{Failure, NoMemory, Seq};
use kb_files::{ExtensionSource, SourceFiles};
use std::alloc::Global;

/// Reads the files in a directory: the manifest, and then the handlers.
#[tactic(auto, using(crate::proofs::DirectoryLemmas::directory))]
fn read_directory<'a, F: FileSource>(
    alloc: Global,
    dir: &'a str,
    files: &F,
) -> Result<ExtensionSource, Failure<CannotRead<'a>>>
    ensures ok { IfOk result (λ read. HasDirectory (F.held files.now) dir.entry (bytes_of_extension read)) }
    ensures err { IfErr result (FailsInDirectory (F.held files.now) dir.entry) }
{
    let manifest = manifest_in(files, alloc, dir)?;
    let handlers = handlers_in(files, alloc, dir)?;
    Ok(ExtensionSource { manifest, handlers })
}

/// Reads the files in each directory, in order.
///
/// Errors: the first file that cannot be read, or refused memory.
fn read_directories<'a, F: FileSource>(
    alloc: Global,
    dirs: &[&'a str],
    files: &F,
) -> Result<Vec<ExtensionSource>, Failure<CannotRead<'a>>>
    ensures ok { IfOk result (λ read.
        HasDirectories (F.held files.now) dirs.now (map bytes_of_extension read.items)) }
    ensures err { IfErr result (FailsInDirectories (F.held files.now) dirs.now) }
{
    let mut sources = Vec::new(alloc);
    for dir in dirs {
        let read = read_directory(alloc, *dir, files)?;
        sources.push(read).map_err(NoMemory::from)?;
    }
    Ok(sources)
}

/// Reads all files of a load, in this order: the layout, the default rules, the user's rules, and in each
/// directory the manifest and then the handlers, which need not exist.
///
/// Errors: the first file that cannot be read, or refused memory.
#[tactic(auto, using(crate::proofs::LoadFilesLemmas::named_files))]
pub fn read_files<'a, F: FileSource>(
    alloc: Global,
    options: &Options<'a>,
    files: &F,
) -> Result<SourceFiles, Failure<CannotRead<'a>>>
    ensures ok { IfOk result (λ read. HasFiles (F.held files.now) options.now (files_in read)) }
    ensures err { IfErr result (FailsReadingFiles (F.held files.now) options.now) }
{
    let layout = source_named(files, alloc, options.layout)?;
    let defaults = source_named(files, alloc, options.defaults)?;
    let user = source_named(files, alloc, options.user)?;
    let extensions = read_directories(alloc, options.dirs.as_slice(), files)?;
    Ok(SourceFiles {
        layout,
        defaults,
        user,
        platform: options.platform,
        extensions: Seq::from_vec(extensions),
    })
}
