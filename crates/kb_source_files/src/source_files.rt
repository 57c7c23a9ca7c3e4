//! Files with their paths.
ghost use Rattle.std.specs.Prelude.{◌≡◌, IfOk, option_map, map};
ghost use Rattle.kb_files.specs.Extensions.{extension_bytes};
ghost use Rattle.kb_source_files.specs.SourceFiles.{bytes_in, bytes_of, bytes_of_extension};

use kb_base::{NoMemory, Origin};
use kb_files::{ExtensionFiles, Inputs, LoadFile};
use kb_keys::Platform;
use std::alloc::Global;

/// A file: its path as messages name it, and its bytes.
#[derive(Clone, Copy)]
pub struct SourceFile<'a> {
    /// The path, as the command line gives it, or as its folder does.
    pub path: &'a str,
    /// The bytes.
    pub bytes: &'a [u8],
}

/// The files of an extension.
#[derive(Clone, Copy)]
pub struct ExtensionSource<'a> {
    /// Its `package.json`.
    pub package: SourceFile<'a>,
    /// Its `handlers.json`, if there is such a file.
    pub handlers: Option<SourceFile<'a>>,
}

/// The files of a load, each with its path.
#[derive(Clone, Copy)]
pub struct SourceFiles<'a> {
    /// The layout of the scopes, if there is one.
    pub layout: Option<SourceFile<'a>>,
    /// The default rules, if there is such a file.
    pub defaults: Option<SourceFile<'a>>,
    /// The user's rules, if there is such a file.
    pub user: Option<SourceFile<'a>>,
    /// The system that the keys of extensions are chosen for.
    pub platform: Platform,
    /// The files of each extension, in load order.
    pub extensions: &'a [ExtensionSource<'a>],
}

/// The bytes of a file, if there is one.
fn bytes_of<'a>(file: Option<SourceFile<'a>>) -> Option<&'a [u8]>
    ensures { option_map (λ bytes. bytes.now) result ≡ bytes_of file.entry }
{
    match file {
        Some(file) => Some(file.bytes),
        None => None,
    }
}

/// The bytes of a file, none without a file.
fn bytes_in<'a>(file: Option<SourceFile<'a>>) -> &'a [u8]
    ensures { result.now ≡ bytes_in file.entry }
{
    match file {
        Some(file) => file.bytes,
        None => &[],
    }
}

/// The bytes of an extension's files.
fn bytes_of_extension<'a>(source: &ExtensionSource<'a>) -> ExtensionFiles<'a>
    ensures { extension_bytes result ≡ bytes_of_extension source.now }
{
    ExtensionFiles {
        package: source.package.bytes,
        handlers: bytes_of(source.handlers),
    }
}

impl<'a> SourceFiles<'a> {
    ghost use Rattle.kb_source_files.specs.SourceFiles.{file_of_origin, file_of};

    /// The bytes of the extensions' files, in load order. `inputs` takes them. Error: `NoMemory`.
    pub fn extension_files(&self, alloc: Global) -> Result<Vec<ExtensionFiles<'a>>, NoMemory>
        ensures { IfOk result (λ files.
            map extension_bytes files.items ≡ map bytes_of_extension self.now.extensions.now) }
    {
        let sources = self.extensions;
        let mut files = Vec::new(alloc);
        for source in sources {
            files
                .push(bytes_of_extension(source))
                .map_err(NoMemory::from)?;
        }
        Ok(files)
    }

    /// What a load takes: the bytes of these files, with those of extensions that `extension_files` gave. An
    /// absent file of rules is the empty text.
    pub fn inputs(&self, extensions: &'a [ExtensionFiles<'a>]) -> Inputs<'a>
        ensures layout { option_map (λ bytes. bytes.now) result.layout ≡ bytes_of self.now.layout }
        ensures defaults { result.defaults.now ≡ bytes_in self.now.defaults }
        ensures user { result.user.now ≡ bytes_in self.now.user }
        ensures platform { result.platform ≡ self.now.platform }
        ensures extensions { result.extensions.now ≡ extensions.now }
    {
        Inputs {
            layout: bytes_of(self.layout),
            defaults: bytes_in(self.defaults),
            user: bytes_in(self.user),
            platform: self.platform,
            extensions,
        }
    }

    /// The file that entries of an origin are read from, if there is one.
    pub fn file_of_origin(&self, origin: Origin) -> Option<SourceFile<'a>>
        ensures { result ≡ file_of_origin self.now origin }
    {
        match origin {
            Origin::Defaults => self.defaults,
            Origin::Extension(number) => match self.extensions.get(number as usize) {
                Some(source) => Some(source.package),
                None => None,
            },
            Origin::User => self.user,
        }
    }

    /// The file that a refused load names, if it names a single file and there is one.
    pub fn file_of(&self, file: LoadFile) -> Option<SourceFile<'a>>
        ensures { result ≡ file_of self.now file }
    {
        match file {
            LoadFile::Layout => self.layout,
            LoadFile::Defaults => self.defaults,
            LoadFile::User => self.user,
            LoadFile::Package(number) => match self.extensions.get(number) {
                Some(source) => Some(source.package),
                None => None,
            },
            LoadFile::Handlers(number) => match self.extensions.get(number) {
                Some(source) => source.handlers,
                None => None,
            },
            LoadFile::Extensions | LoadFile::Natives => None,
        }
    }
}
