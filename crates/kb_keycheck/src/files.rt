//! Lends the files of a load to those that say something of them.
ghost use Rattle.std.specs.Prelude.{◌≡◌, IfOk, map};
ghost use Rattle.kb_check.specs.Problems as problems;
ghost use Rattle.kb_files.specs.SourceFiles as owned;
ghost use Rattle.kb_source_files.specs.SourceFiles.{bytes_of, bytes_of_extension};

use kb_base::NoMemory;
use kb_source_files::{ExtensionSource, SourceFile, SourceFiles};
use std::alloc::Global;

/// A file that was read, lent.
fn lent(file: &kb_files::SourceFile) -> SourceFile<'_>
    ensures { result.bytes.now ≡ file.now.bytes }
{
    SourceFile {
        path: file.path.as_str(),
        bytes: file.bytes.as_slice(),
    }
}

/// A file, if it was read, lent.
fn file_of(file: &Option<kb_files::SourceFile>) -> Option<SourceFile<'_>>
    ensures { bytes_of result ≡ owned.bytes_of file.now }
{
    match file {
        Some(file) => Some(lent(file)),
        None => None,
    }
}

/// The files of an extension, lent.
fn lent_extension(read: &kb_files::ExtensionSource) -> ExtensionSource<'_>
    ensures { bytes_of_extension result ≡ owned.bytes_of_extension read.now }
{
    ExtensionSource {
        package: lent(&read.manifest),
        handlers: file_of(&read.handlers),
    }
}

/// The files of the extensions, lent.
pub(crate) fn extension_sources<'b>(
    alloc: Global,
    read: &'b kb_files::SourceFiles,
) -> Result<Vec<ExtensionSource<'b>>, NoMemory>
    ensures { IfOk result (λ sources.
        map bytes_of_extension sources.items ≡ map owned.bytes_of_extension read.now.extensions) }
{
    let mut sources = Vec::new(alloc);
    for one in read.extensions.as_slice() {
        sources.push(lent_extension(one)).map_err(NoMemory::from)?;
    }
    Ok(sources)
}

/// The files, lent, with those of the extensions.
pub(crate) fn sources<'b>(
    read: &'b kb_files::SourceFiles,
    extensions: &'b [ExtensionSource<'b>],
) -> SourceFiles<'b>
    requires { map bytes_of_extension extensions.now ≡ map owned.bytes_of_extension read.now.extensions }
    ensures { problems.files_in result ≡ owned.files_in read.now }
{
    SourceFiles {
        layout: file_of(&read.layout),
        defaults: file_of(&read.defaults),
        user: file_of(&read.user),
        platform: read.platform,
        extensions,
    }
}
