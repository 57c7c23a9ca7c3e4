//! The commands that the handlers of an extension may call, from the commands that are live.
ghost use Rattle.std.specs.Prelude.{◌≡◌, IfOk, OnOk, map};
ghost use Rattle.kb_extension_code.specs.Callable.{callable_among, callable_of, dependencies_of};
ghost use Rattle.kb_extension_code.specs.Callable.{live_among, provided_by, with_native, with_natives};
ghost use Rattle.kb_verify.specs.Provider.{provided};

use kb_base::{ExtensionId, NoMemory};
use kb_code::Handler;
use kb_core::{NATIVES, Native};
use kb_files::Extension;
use kb_registry::{HostCommand, Registry};
use kb_verify::{Callable, Provider};
use std::alloc::Global;

/// The commands that the handlers of an extension of this number may call: the live native commands, the
/// handlers of the extensions that it depends on, in load order, live or not, and its own. Of equal names the
/// first counts (our decision). Error: `NoMemory`.
pub fn callable_of<C: HostCommand>(
    alloc: Global,
    registry: &Registry<C>,
    extensions: &[Extension],
    number: u32,
    own: &[Handler],
) -> Result<Callable, NoMemory>
    ensures { IfOk result (λ callable. callable ≡ callable_of extensions.now number own.now registry.now) }
{
    callable_among(alloc, registry, &NATIVES, extensions, number, own)
}

/// The same with any list of native commands. (The proof needs a list that it does not compute with.)
fn callable_among<C: HostCommand>(
    alloc: Global,
    registry: &Registry<C>,
    natives: &[Native],
    extensions: &[Extension],
    number: u32,
    own: &[Handler],
) -> Result<Callable, NoMemory>
    ensures { IfOk result (λ callable. callable
        ≡ callable_among natives.now extensions.now number own.now registry.now) }
{
    let natives = live_natives(alloc, registry, natives)?;
    let providers = providers(alloc, registry, extensions)?;
    kb_verify::callable_of(
        alloc,
        natives.as_slice(),
        dependencies_of(extensions, number),
        providers.as_slice(),
        own,
    )
}

/// The dependencies of the extension of a number.
fn dependencies_of(extensions: &[Extension], number: u32) -> &[ExtensionId]
    ensures { result.now ≡ dependencies_of number extensions.now }
{
    match extensions.get(number as usize) {
        Some(extension) => extension.manifest.dependencies.as_slice(),
        None => &[],
    }
}

/// Those of the native commands that are live.
#[tactic(auto, using(crate::proofs::CallableLemmas::live_from_none))]
fn live_natives<C: HostCommand>(
    alloc: Global,
    registry: &Registry<C>,
    natives: &[Native],
) -> Result<Vec<Native>, NoMemory>
    ensures { IfOk result (λ live. live.items ≡ live_among natives.now registry.now) }
{
    let mut live = Vec::new(alloc);
    add_all_live(registry, natives, &mut live)?;
    Ok(live)
}

/// Adds those of the native commands that are live.
fn add_all_live<C: HostCommand>(
    registry: &Registry<C>,
    natives: &[Native],
    live: &mut Vec<Native>,
) -> Result<(), NoMemory>
    ensures { OnOk result (live.new.items ≡ with_natives natives.now registry.now live.old.items) }
{
    for native in natives {
        add_live(registry, *native, live)?;
    }
    Ok(())
}

/// Adds a native command, if it is live.
fn add_live<C: HostCommand>(
    registry: &Registry<C>,
    native: Native,
    live: &mut Vec<Native>,
) -> Result<(), NoMemory>
    ensures { OnOk result (live.new.items ≡ with_native native registry.now live.old.items) }
{
    match registry.native_signature(native) {
        Some(_) => live.push(native).map_err(NoMemory::from),
        None => Ok(()),
    }
}

/// The extensions, each with its handlers.
fn providers<'a, C: HostCommand>(
    alloc: Global,
    registry: &'a Registry<C>,
    extensions: &'a [Extension],
) -> Result<Vec<Provider<'a>>, NoMemory>
    ensures { IfOk result (λ providers. map provided providers.items
        ≡ map (provided_by registry.now) extensions.now) }
{
    let mut providers = Vec::with_capacity(alloc, extensions.len())?;
    for extension in extensions {
        providers
            .push(provider(registry, extension))
            .map_err(NoMemory::from)?;
    }
    Ok(providers)
}

/// An extension with its handlers.
fn provider<'a, C: HostCommand>(registry: &'a Registry<C>, extension: &'a Extension) -> Provider<'a>
    ensures { provided result ≡ provided_by registry.now extension.now }
{
    Provider {
        id: extension.manifest.id.as_str(),
        handlers: registry.handlers(extension.number),
    }
}
