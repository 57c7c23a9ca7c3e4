//! The commands that the handlers of an extension may call.
ghost use Rattle.std.specs.Prelude.{◌≡◌, IfOk, OnOk, map};
ghost use Rattle.kb_verify.specs.Provider.{callable_of, is_needed, provided, with_handlers, with_natives};
ghost use Rattle.kb_verify.specs.Provider.{with_needed};

use crate::callable::Callable;
use kb_base::{ExtensionId, NoMemory, same_id};
use kb_code::Handler;
use kb_core::Native;
use std::alloc::Global;

/// An extension with the handlers that extensions which depend on it may call.
#[derive(Clone, Copy)]
pub struct Provider<'a> {
    /// The extension's identifier.
    pub id: &'a str,
    /// Its handlers, in file order.
    pub handlers: &'a [Handler],
}

/// The commands that the handlers of an extension may call: these native commands, the handlers of the
/// providers that are among its dependencies, in their order, and its own handlers. Of equal names the first
/// counts. A handler may be called whether it is accepted itself or not (our decision). Error: `NoMemory`.
pub fn callable_of(
    alloc: Global,
    natives: &[Native],
    dependencies: &[ExtensionId],
    providers: &[Provider<'_>],
    own: &[Handler],
) -> Result<Callable, NoMemory>
    ensures { IfOk result (λ callable. callable
        ≡ callable_of natives.now dependencies.now (map provided providers.now) own.now) }
{
    let mut callable = Callable::new(alloc);
    add_natives(alloc, natives, &mut callable)?;
    add_needed(alloc, dependencies, providers, &mut callable)?;
    add_handlers(alloc, own, &mut callable)?;
    Ok(callable)
}

/// Adds native commands.
fn add_natives(alloc: Global, natives: &[Native], callable: &mut Callable) -> Result<(), NoMemory>
    ensures { OnOk result (callable.new ≡ with_natives natives.now callable.old) }
{
    for native in natives {
        let signature = native.signature(alloc)?;
        callable.add(alloc, native.name(), &signature)?;
    }
    Ok(())
}

/// Adds the handlers of the providers that are among the dependencies.
fn add_needed(
    alloc: Global,
    dependencies: &[ExtensionId],
    providers: &[Provider<'_>],
    callable: &mut Callable,
) -> Result<(), NoMemory>
    ensures { OnOk result (callable.new
        ≡ with_needed dependencies.now (map provided providers.now) callable.old) }
{
    for provider in providers {
        if is_needed(provider.id, dependencies) {
            add_handlers(alloc, provider.handlers, callable)?;
        }
    }
    Ok(())
}

/// Whether an extension with this identifier is among the dependencies. ASCII letter case is ignored (our
/// decision).
pub fn is_needed(id: &str, dependencies: &[ExtensionId]) -> bool
    ensures { result ≡ is_needed id.now dependencies.now }
{
    for other in dependencies {
        if same_id(id, other.as_str()) {
            return true;
        }
    }
    false
}

/// Adds handlers.
fn add_handlers(
    alloc: Global,
    handlers: &[Handler],
    callable: &mut Callable,
) -> Result<(), NoMemory>
    ensures { OnOk result (callable.new ≡ with_handlers handlers.now callable.old) }
{
    for handler in handlers {
        callable.add(alloc, handler.command().as_str(), handler.signature())?;
    }
    Ok(())
}
