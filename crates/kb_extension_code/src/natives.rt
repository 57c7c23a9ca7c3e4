//! The closures that a host provides at the start of a session.
ghost use Rattle.std.specs.Prelude.{◌≡◌, map};
ghost use Rattle.kb_base.specs.Failure.{Gives};
ghost use Rattle.kb_extension_code.specs.Natives.{load_failure, natives_held};

use kb_base::{Failure, Refusal};
use kb_files::{LoadFault, LoadFile};
use kb_registry::{HostCommand, Registry, RegistryFault};
use std::alloc::Global;

/// The maximum number of registrations during a session (our decision).
const REGISTRATION_LIMIT: u64 = 1_000_000;

/// A registry with these closures, registered in order. If one is refused, all are dropped.
#[tactic(auto, using(crate::proofs::NativesLemmas::registering))]
pub(crate) fn register_all<C: HostCommand>(
    alloc: Global,
    natives: Vec<C>,
) -> Result<Registry<C>, Failure<LoadFault>>
    ensures { Gives (λ live. live) result (natives_held (map C.stands_for natives.items)) }
{
    let mut registry = Registry::new(alloc, REGISTRATION_LIMIT)?;
    for command in natives {
        match registry.register(command) {
            Ok(_) => {}
            Err((_, failure)) => return Err(load_failure(LoadFile::Natives, failure)),
        }
    }
    Ok(registry)
}

/// The fault of a load whose commands, from this file, were not all registered.
pub(crate) fn load_failure(file: LoadFile, failure: Failure<RegistryFault>) -> Failure<LoadFault>
    ensures { result ≡ load_failure file failure }
{
    failure.map_fault(|fault| LoadFault {
        file,
        refusal: Refusal::of(fault.kind()),
    })
}
