//! The files of a load with their paths: a disk or a host fills them, a load takes their bytes, and messages
//! name their paths.
ghost use Rattle.std.specs.Prelude.{◌≡◌, [], IfOk, map, option_map, slice_get, unwrap_or};
ghost use Rattle.kb_files.specs.Extensions.{extension_bytes};
ghost use Rattle.kb_files.specs.Inputs.{files_of};
ghost use Rattle.kb_files.specs.SourceFiles.{bytes_of, bytes_of_extension, files_in, no_sources};

use crate::fault::LoadFile;
use crate::inputs::{ExtensionFiles, Inputs};
use kb_base::{NoMemory, Origin, Seq, Text};
use kb_keys::Platform;
use std::alloc::Global;

/// A file.
#[derive(Debug, Drop)]
pub struct SourceFile {
    /// The path by which messages name it. A file that a host hands in may have the empty one.
    pub path: Text,
    /// The bytes.
    pub bytes: Seq<u8>,
}

/// The files of an extension.
#[derive(Debug, Drop)]
pub struct ExtensionSource {
    /// Its `package.json`.
    pub manifest: SourceFile,
    /// Its `handlers.json`, if there is such a file.
    pub handlers: Option<SourceFile>,
}

/// The files of a load.
#[derive(Debug, Drop)]
pub struct SourceFiles {
    /// The layout of the scopes, if there is one.
    pub layout: Option<SourceFile>,
    /// The default rules, if there is such a file.
    pub defaults: Option<SourceFile>,
    /// The user's rules, if there is such a file.
    pub user: Option<SourceFile>,
    /// The system that the keys of extensions are chosen for.
    pub platform: Platform,
    /// The files of each extension, in load order.
    pub extensions: Seq<ExtensionSource>,
}

/// The bytes of a file, if there is one.
fn lent(file: &Option<SourceFile>) -> Option<&[u8]>
    ensures { option_map (λ bytes. bytes.now) result ≡ bytes_of file.now }
{
    match file {
        Some(file) => Some(file.bytes.as_slice()),
        None => None,
    }
}

/// The bytes of a file, none without a file.
fn lent_or_empty(file: &Option<SourceFile>) -> &[u8]
    ensures { result.now ≡ unwrap_or (bytes_of file.now) [] }
{
    match file {
        Some(file) => file.bytes.as_slice(),
        None => &[],
    }
}

/// The bytes of an extension's files.
fn lent_extension(source: &ExtensionSource) -> ExtensionFiles<'_>
    ensures { extension_bytes result ≡ bytes_of_extension source.now }
{
    ExtensionFiles {
        package: source.manifest.bytes.as_slice(),
        handlers: lent(&source.handlers),
    }
}

impl SourceFiles {
    ghost use Rattle.kb_files.specs.SourceFiles.{file_of_origin, file_of};

    /// No files, on Linux.
    pub fn new(alloc: Global) -> SourceFiles
        ensures { result ≡ no_sources }
    {
        SourceFiles {
            layout: None,
            defaults: None,
            user: None,
            platform: Platform::Linux,
            extensions: Seq::new(alloc),
        }
    }

    /// The bytes of the extensions' files, in load order, lent. `inputs` takes them. Error: `NoMemory`.
    pub fn extension_files(&self, alloc: Global) -> Result<Vec<ExtensionFiles<'_>>, NoMemory>
        ensures { IfOk result (λ files.
            map extension_bytes files.items ≡ map bytes_of_extension self.now.extensions) }
    {
        let mut files = Vec::new(alloc);
        for source in self.extensions.as_slice() {
            files.push(lent_extension(source)).map_err(NoMemory::from)?;
        }
        Ok(files)
    }

    /// What a load takes: the bytes of these files, lent, with those of the extensions that
    /// `extension_files` gave. An absent file of rules is the empty text.
    pub fn inputs<'a>(&'a self, extensions: &'a [ExtensionFiles<'a>]) -> Inputs<'a>
        requires { map extension_bytes extensions.now ≡ map bytes_of_extension self.now.extensions }
        ensures { files_of result ≡ files_in self.now }
    {
        Inputs {
            layout: lent(&self.layout),
            defaults: lent_or_empty(&self.defaults),
            user: lent_or_empty(&self.user),
            platform: self.platform,
            extensions,
        }
    }

    /// The file that entries of an origin are read from, if there is one.
    pub fn file_of_origin(&self, origin: Origin) -> Option<&SourceFile>
        ensures { option_map (λ file. file.now) result ≡ file_of_origin self.now origin }
    {
        match origin {
            Origin::Defaults => self.defaults.as_ref(),
            Origin::Extension(number) => self.manifest_of(number as usize),
            Origin::User => self.user.as_ref(),
        }
    }

    /// The file that a refused load names, if it names a single file and there is one.
    pub fn file_of(&self, file: LoadFile) -> Option<&SourceFile>
        ensures { option_map (λ file. file.now) result ≡ file_of self.now file }
    {
        match file {
            LoadFile::Layout => self.layout.as_ref(),
            LoadFile::Defaults => self.defaults.as_ref(),
            LoadFile::User => self.user.as_ref(),
            LoadFile::Package(number) => self.manifest_of(number),
            LoadFile::Handlers(number) => match self.extensions.as_slice().get(number) {
                Some(source) => source.handlers.as_ref(),
                None => None,
            },
            LoadFile::Extensions | LoadFile::Natives => None,
        }
    }

    /// The manifest of the extension at a place in load order, if there is one.
    fn manifest_of(&self, number: usize) -> Option<&SourceFile>
        ensures { option_map (λ file. file.now) result
            ≡ option_map (λ source. source.manifest) (slice_get self.now.extensions number) }
    {
        match self.extensions.as_slice().get(number) {
            Some(source) => Some(&source.manifest),
            None => None,
        }
    }
}
