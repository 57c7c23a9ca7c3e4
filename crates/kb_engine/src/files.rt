//! The files that an engine is loaded from, as a host hands them in.
ghost use Rattle.std.specs.Prelude.{◌≡◌, ℕ, List, false, None, Some, IfOk, IsTrue, OnOk, OnErr, map};
ghost use Rattle.std.specs.Prelude.{is_some, option_map};
ghost use Rattle.kb_bindings.specs.Load.{MarksAreRight};
ghost use Rattle.kb_core.specs.Native.{natives};
ghost use Rattle.kb_engine.specs.Files.{no_files, platform_numbered};
ghost use Rattle.kb_engine.specs.Files.{with_extension, with_file, with_platform};
ghost use Rattle.kb_files.specs.Inputs.{Files};
ghost use Rattle.kb_files.specs.SourceFiles.{bytes_of, bytes_of_extension};
ghost use Rattle.kb_session.specs.Session.{Loads};
ghost use Rattle.kb_session.specs.State.{IsSafe};

use crate::plain::{Cost, PlainCommand, commands};
use kb_base::{Failure, NoMemory, Seq, Text};
use kb_files::{ExtensionSource, LoadFault, SourceFile, SourceFiles};
use kb_keys::Platform;
use kb_session::Session;
use std::alloc::Global;
use std::marker::Model;

/// The files of a load, without paths. Contracts see their bytes, as a load does.
#[derive(Drop)]
pub struct HostFiles {
    sources: SourceFiles,
}

impl Model for HostFiles {
    ghost use Rattle.kb_files.specs.Inputs.{Files};
    ghost use Rattle.kb_files.specs.SourceFiles.{files_in};

    ghost Value = { Files };

    ghost view = { λ f. files_in f.sources };
}

/// Whether a number stands for a file: 0 is the layout, 1 the default rules, 2 the user's rules.
pub(crate) fn is_file(number: u32) -> bool
    ensures { (bytes : List ℕ) (files : Files) → is_some (with_file number bytes files) ≡ result }
{
    number == 0 || number == 1 || number == 2
}

impl HostFiles {
    /// No files, on Linux.
    pub fn new(alloc: Global) -> HostFiles
        ensures { result ≡ no_files }
    {
        HostFiles {
            sources: SourceFiles::new(alloc),
        }
    }

    /// Takes a file in the place of the one before: 0 is the layout, 1 the default rules, 2 the user's rules.
    /// Returns whether the number is one of these; if not, nothing changes.
    pub fn set(&mut self, number: u32, file: SourceFile) -> bool
        ensures known { IsTrue result → with_file number file.bytes self.old ≡ Some self.new }
        ensures unknown { result ≡ false → with_file number file.bytes self.old ≡ None }
        ensures unchanged { result ≡ false → self.new ≡ self.old }
    {
        match number {
            0 => self.sources.layout = Some(file),
            1 => self.sources.defaults = Some(file),
            2 => self.sources.user = Some(file),
            _ => return false,
        }
        true
    }

    /// Names the platform.
    pub fn set_platform(&mut self, platform: Platform)
        ensures { self.new ≡ with_platform platform self.old }
    {
        self.sources.platform = platform;
    }

    /// Copies the bytes of an extension's files behind those of earlier extensions. Error: `NoMemory`; then
    /// nothing changes.
    pub fn add_extension(
        &mut self,
        alloc: Global,
        manifest: &[u8],
        handlers: Option<&[u8]>,
    ) -> Result<(), NoMemory>
        ensures ok { OnOk result (self.new ≡ with_extension manifest.now
            (option_map (λ bytes. bytes.now) handlers.entry) self.old) }
        ensures err { OnErr result (self.new ≡ self.old) }
    {
        let extension = copied_extension(alloc, manifest, handlers)?;
        self.sources.extensions.push(extension)
    }

    /// Loads a session of these files, with a command of cost 1 for each native command.
    ///
    /// Errors: those of `Session::load`.
    pub fn load(&self, alloc: Global) -> Result<Session<PlainCommand>, Failure<LoadFault>>
        ensures read { Loads self.now natives result }
        ensures right { IfOk result (λ session. MarksAreRight self.now session.state.sources) }
        ensures safe { IfOk result (λ session. IsSafe session.state) }
    {
        let extensions = self.sources.extension_files(alloc)?;
        let natives = commands(alloc, Cost::One)?;
        let inputs = self.sources.inputs(extensions.as_slice());
        Session::load(alloc, inputs, natives)
    }
}

/// The platform that a number stands for: 0 is Linux, 1 Mac, 2 Windows; or `None`.
pub(crate) fn platform_numbered(number: u32) -> Option<Platform>
    ensures { result ≡ platform_numbered number }
{
    match number {
        0 => Some(Platform::Linux),
        1 => Some(Platform::Mac),
        2 => Some(Platform::Windows),
        _ => None,
    }
}

/// A file without a path, of a copy of these bytes. Error: `NoMemory`.
pub(crate) fn copied(alloc: Global, bytes: &[u8]) -> Result<SourceFile, NoMemory>
    ensures { IfOk result (λ made. made.bytes ≡ bytes.now) }
{
    Ok(SourceFile {
        path: Text::new(alloc),
        bytes: Seq::from_vec(bytes.to_vec(alloc)?),
    })
}

/// A file of a copy of these bytes, if there are any. Error: `NoMemory`.
fn copied_handlers(alloc: Global, handlers: Option<&[u8]>) -> Result<Option<SourceFile>, NoMemory>
    ensures { IfOk result (λ made. bytes_of made ≡ option_map (λ bytes. bytes.now) handlers.entry) }
{
    match handlers {
        Some(bytes) => Ok(Some(copied(alloc, bytes)?)),
        None => Ok(None),
    }
}

/// The files of an extension, of copies of these bytes.
fn copied_extension(
    alloc: Global,
    manifest: &[u8],
    handlers: Option<&[u8]>,
) -> Result<ExtensionSource, NoMemory>
    ensures { IfOk result (λ made. bytes_of_extension made ≡ record {
      manifest = manifest.now;
      handlers = option_map (λ bytes. bytes.now) handlers.entry;
    }) }
{
    let manifest = copied(alloc, manifest)?;
    let handlers = copied_handlers(alloc, handlers)?;
    Ok(ExtensionSource { manifest, handlers })
}
