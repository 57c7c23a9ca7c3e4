//! The load of the files, by the engine's own call.
ghost use Rattle.std.specs.Prelude.{◌≡◌, IfOk, map};
ghost use Rattle.kb_files.specs.Inputs.{files_of};
ghost use Rattle.kb_core.specs.Native.{natives};
ghost use Rattle.kb_files.specs.Extensions.{extension_bytes};
ghost use Rattle.kb_session.specs.Session.{Loads};
ghost use Rattle.kb_source_files.specs.SourceFiles.{bytes_of_extension};
ghost use Rattle.kb_check.specs.Problems.{files_in};

use kb_base::{Failure, NoMemory};
use kb_core::{Args, Core, NATIVES, Native, Ran, plain};
use kb_files::{ExtensionFiles, Inputs, LoadFault};
use kb_registry::{HostCommand, Permit};
use kb_session::Session;
use kb_source_files::SourceFiles;
use std::alloc::Global;

/// A native command that runs as it is declared.
#[derive(Clone, Copy)]
pub struct PlainNative {
    native: Native,
}

impl HostCommand for PlainNative {
    ghost stands_for = { λ c. c.native };

    fn native(&self) -> Native {
        self.native
    }

    fn call(&self, core: Core, args: Args, _permit: Permit) -> Ran {
        plain(self.native, core, args)
    }
}

/// These native commands.
fn plain_natives(alloc: Global, list: &[Native]) -> Result<Vec<PlainNative>, NoMemory>
    ensures { IfOk result (λ made. map (λ c. c.native) made.items ≡ list.now) }
{
    let mut made = Vec::with_capacity(alloc, list.len())?;
    for native in list {
        made.push(PlainNative { native: *native })?;
    }
    Ok(made)
}

/// All native commands.
fn all_natives(alloc: Global) -> Result<Vec<PlainNative>, NoMemory>
    ensures { IfOk result (λ made. map (λ c. c.native) made.items ≡ natives) }
{
    plain_natives(alloc, NATIVES.as_slice())
}

/// Loads the files of a session, with all native commands and with verified handlers.
fn load(alloc: Global, inputs: Inputs<'_>) -> Result<Session<PlainNative>, Failure<LoadFault>>
    ensures { Loads (files_of inputs.entry) natives result }
{
    let natives = all_natives(alloc)?;
    Session::load(alloc, inputs, natives)
}

/// What a load takes of these files, with the bytes of their extensions.
fn inputs_of<'a>(files: &SourceFiles<'a>, extensions: &'a [ExtensionFiles<'a>]) -> Inputs<'a>
    requires { map extension_bytes extensions.now ≡ map bytes_of_extension files.now.extensions.now }
    ensures { files_of result ≡ files_in files.now }
{
    files.inputs(extensions)
}

/// Loads a session from these files, with all native commands and with verified handlers.
pub(crate) fn load_sources(
    alloc: Global,
    files: &SourceFiles<'_>,
) -> Result<Session<PlainNative>, Failure<LoadFault>>
    ensures { Loads (files_in files.now) natives result }
{
    let extensions = files.extension_files(alloc)?;
    load(alloc, inputs_of(files, extensions.as_slice()))
}
