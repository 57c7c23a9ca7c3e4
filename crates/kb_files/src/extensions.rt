//! The extensions of a load, read from their files, with the first fault in load order.
ghost use Rattle.std.specs.Prelude.{◌≡◌, ◌≤◌, [], ◌∷◌, ◌++◌, length, map, option_map, IfOk, IfErr, OnOk};
ghost use Rattle.kb_base.specs.declared.failure.Failure.TheVariants.{NoMemory};
ghost use Rattle.kb_base.specs.Failure.{Gives};
ghost use Rattle.kb_files.specs.Extension.{outline_in, IsRightlyMarked};
ghost use Rattle.kb_files.specs.Extensions.{extension_bytes, manifests, handlers_in_file, extension_held};
ghost use Rattle.kb_files.specs.Extensions.{extensions_from, extensions_held, names_fault, names_of};
ghost use Rattle.kb_files.specs.Extensions.{AllRightlyMarked, IsExtension, IsHeld, AreHeld};
ghost use Rattle.kb_files.specs.Fault.{refused_by};
ghost use Rattle.kb_files.specs.Marked.{GivesOf};

use crate::extension_file::{Extension, read_extension};
use crate::fault::{LoadFault, LoadFile, of_file};
use crate::handler_file::read_handlers;
use crate::identifiers::{Identified, identifier_fault};
use crate::inputs::ExtensionFiles;
use kb_base::{ExtensionId, Failure, FaultKind, NoMemory, Refusal, Seq};
use kb_code::Handler;
use kb_keys::Platform;
use std::alloc::Global;

/// The most extensions of a load (our decision).
pub const EXTENSION_LIMIT: usize = 100;

impl Identified for Extension {
    ghost use Rattle.kb_files.specs.Extensions.{names_of};

    ghost names = { names_of };

    fn id(&self) -> &str {
        self.manifest.id.as_str()
    }

    fn dependencies(&self) -> &[ExtensionId] {
        self.manifest.dependencies.as_slice()
    }
}

/// The extensions of a load, and the handlers of each.
#[derive(Drop)]
pub struct ReadExtensions {
    /// The extensions in load order.
    pub extensions: Seq<Extension>,
    /// The handlers of each extension in the order of its file, none without a file. Their code isn't
    /// verified.
    pub handlers: Seq<Seq<Handler>>,
}

impl ReadExtensions {
    /// Adds an extension and its handlers.
    fn push(&mut self, extension: Extension, handlers: Seq<Handler>) -> Result<(), NoMemory>
        ensures { OnOk result (self.new ≡ record {
          extensions = self.old.extensions ++ extension ∷ [];
          handlers = self.old.handlers ++ handlers ∷ [];
        }) }
    {
        self.extensions.push(extension)?;
        self.handlers.push(handlers)
    }
}

/// The extensions of these files, in load order, with their handlers. Keys are those of a platform.
///
/// Errors: the first file that is refused, and why, in this order (our decision): more than 100 extensions
/// (44), for each extension in load order its manifest (1 to 4, 40, 41) and then its handlers (1 to 4, 40 to
/// 44, 50 to 53), the first extension that repeats the identifier of an earlier one (91), the first that
/// depends on an extension that isn't before it (90); or `NoMemory`.
pub fn read_extensions(
    alloc: Global,
    extensions: &[ExtensionFiles<'_>],
    platform: Platform,
) -> Result<ReadExtensions, Failure<LoadFault>>
    ensures read { GivesOf (AreHeld platform) result
        (extensions_held (map extension_bytes extensions.now)) }
    ensures right { IfOk result (λ all.
        AllRightlyMarked (manifests (map extension_bytes extensions.now)) all.extensions) }

    // Too many extensions are refused before memory is asked for.
    ensures few { IfErr result (λ failure. failure ≡ NoMemory → length extensions.now ≤ 100) }
{
    if extensions.len() > EXTENSION_LIMIT {
        return Err(Failure::Fault(LoadFault {
            file: LoadFile::Extensions,
            refusal: Refusal::of(FaultKind::TooLarge),
        }));
    }
    let all = read_each(alloc, extensions, platform)?;
    match names_fault(all.extensions.as_slice()) {
        Some(fault) => {
            drop(all);
            Err(Failure::Fault(fault))
        }
        None => Ok(all),
    }
}

/// The extensions of these files, with any identifiers.
fn read_each(
    alloc: Global,
    extensions: &[ExtensionFiles<'_>],
    platform: Platform,
) -> Result<ReadExtensions, Failure<LoadFault>>
    requires { length extensions.now ≤ 100 }
    ensures read { GivesOf (AreHeld platform) result
        (extensions_from 0 (map extension_bytes extensions.now)) }
    ensures right { IfOk result (λ all.
        AllRightlyMarked (manifests (map extension_bytes extensions.now)) all.extensions) }
{
    let mut all = ReadExtensions {
        extensions: Seq::new(alloc),
        handlers: Seq::new(alloc),
    };
    let mut number = 0;
    for bytes in extensions {
        let (extension, handlers) = load_extension(alloc, bytes, number, platform)?;
        all.push(extension, handlers)?;
        number += 1;
    }
    Ok(all)
}

/// The extension of these files, by its number in load order, with its handlers. The manifest is looked at
/// first.
#[tactic(auto, using(crate::proofs::ExtensionsLemmas::extension_with_handlers))]
fn load_extension(
    alloc: Global,
    bytes: &ExtensionFiles<'_>,
    number: u32,
    platform: Platform,
) -> Result<(Extension, Seq<Handler>), Failure<LoadFault>>
    ensures read { GivesOf (λ held one. IsHeld number platform held one.0 one.1) result
        (extension_held number (extension_bytes bytes.now)) }
    ensures right { IfOk result (λ one. IsRightlyMarked bytes.now.package.now one.0) }
{
    let extension = load_package(alloc, bytes.package, number, platform)?;
    match load_handlers(alloc, bytes.handlers, number) {
        Ok(handlers) => Ok((extension, handlers)),
        Err(failure) => {
            drop(extension);
            Err(failure)
        }
    }
}

/// The extension of a manifest, by its number in load order.
#[tactic(auto, using(crate::proofs::ExtensionsLemmas::file_of_extension))]
fn load_package(
    alloc: Global,
    bytes: &[u8],
    number: u32,
    platform: Platform,
) -> Result<Extension, Failure<LoadFault>>
    ensures read { GivesOf (IsExtension number platform) result
        (refused_by (LoadFile.Package number) (outline_in bytes.now)) }
    ensures right { IfOk result (IsRightlyMarked bytes.now) }
{
    of_file(
        LoadFile::Package(number as usize),
        read_extension(alloc, bytes, number, platform),
    )
}

/// The handlers of an extension's file, by its number in load order; none without a file.
#[tactic(auto, using(crate::proofs::ExtensionsLemmas::file_of_handlers))]
fn load_handlers(
    alloc: Global,
    bytes: Option<&[u8]>,
    number: u32,
) -> Result<Seq<Handler>, Failure<LoadFault>>
    ensures { Gives (λ handlers. handlers) result (refused_by (LoadFile.Handlers number)
        (handlers_in_file (option_map (λ bytes. bytes.now) bytes.entry))) }
{
    match bytes {
        Some(bytes) => of_file(
            LoadFile::Handlers(number as usize),
            read_handlers(alloc, bytes),
        ),
        None => Ok(Seq::new(alloc)),
    }
}

/// The fault of the extensions' identifiers, if there is one.
fn names_fault(extensions: &[Extension]) -> Option<LoadFault>
    ensures { result ≡ names_fault (map names_of extensions.now) }
{
    match identifier_fault(extensions) {
        Some(fault) => Some(LoadFault {
            file: LoadFile::Package(fault.place),
            refusal: Refusal::of(fault.kind),
        }),
        None => None,
    }
}
