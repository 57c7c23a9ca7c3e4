//! The commands that the handlers of an extension may call.
ghost use Rattle.std.specs.Prelude.{◌≡◌, IfOk, map};
ghost use Rattle.kb_handler_report.specs.Callable.{callable_of, provided_by};
ghost use Rattle.kb_verify.specs.Provider.{provided};

use crate::extension::{ExtensionCode, handlers_of};
use kb_base::NoMemory;
use kb_core::NATIVES;
use kb_verify::{Callable, Provider};
use std::alloc::Global;

/// The commands that the handlers of an extension may call: the native commands, the handlers of the
/// extensions that it depends on, in load order, and its own. Of equal names the first counts. A handler may
/// be called whether it is accepted itself or not (our decision). Error: `NoMemory`.
pub fn callable_of(
    alloc: Global,
    extensions: &[ExtensionCode],
    own: &ExtensionCode,
) -> Result<Callable, NoMemory>
    ensures { IfOk result (λ callable. callable ≡ callable_of extensions.now own.now) }
{
    let providers = providers(alloc, extensions)?;
    kb_verify::callable_of(
        alloc,
        &NATIVES,
        own.dependencies.as_slice(),
        providers.as_slice(),
        handlers_of(own),
    )
}

/// The extensions, each with its handlers.
fn providers<'a>(
    alloc: Global,
    extensions: &'a [ExtensionCode],
) -> Result<Vec<Provider<'a>>, NoMemory>
    ensures { IfOk result (λ providers. map provided providers.items ≡ map provided_by extensions.now) }
{
    let mut providers = Vec::with_capacity(alloc, extensions.len())?;
    for extension in extensions {
        providers.push(provider(extension)).map_err(NoMemory::from)?;
    }
    Ok(providers)
}

/// An extension with its handlers.
fn provider(extension: &ExtensionCode) -> Provider<'_>
    ensures { provided result ≡ provided_by extension.now }
{
    Provider {
        id: extension.id.as_str(),
        handlers: handlers_of(extension),
    }
}
