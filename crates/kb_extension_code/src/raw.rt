//! The live commands of a new session whose handlers are not verified.
ghost use Rattle.std.specs.Prelude.{◌≡◌, ◌≤◌, ℕ, [], length, map};
ghost use Rattle.kb_base.specs.Failure.{Gives};
ghost use Rattle.kb_extension_code.specs.Raw.{codes_held, raw_held};

use crate::natives::{load_failure, register_all};
use kb_base::{Failure, Seq};
use kb_code::Handler;
use kb_files::{LoadFault, LoadFile};
use kb_handler_table::Codes;
use kb_registry::{HostCommand, Registry};
use std::alloc::Global;

/// A registry with these closures, registered in order with tickets from 1 on, and then with the
/// handlers of extensions, in load order, without verification.
///
/// Errors: two closures for one native command (70); then, in load order, an extension with a handler
/// whose name is taken (70); or refused memory. On an error all closures and handlers are dropped.
#[tactic(auto, using(crate::proofs::NativesLemmas::held_alone))]
pub fn raw_commands<C: HostCommand>(
    alloc: Global,
    natives: Vec<C>,
    handlers: Seq<Seq<Handler>>,
) -> Result<Registry<C>, Failure<LoadFault>>
    requires { length handlers ≤ 100 }
    ensures { Gives (λ live. live) result (raw_held (map C.stands_for natives.items) handlers) }
{
    let registry = register_all(alloc, natives)?;
    register_codes(registry, handlers)
}

/// Adds the handlers of extensions to a registry, in load order. If some are refused, all commands are
/// dropped.
#[tactic(auto, using(crate::proofs::RawLemmas::registering, crate::proofs::Numbers::numbering))]
fn register_codes<C: HostCommand>(
    registry: Registry<C>,
    handlers: Seq<Seq<Handler>>,
) -> Result<Registry<C>, Failure<LoadFault>>
    requires few { length handlers ≤ 100 }
    requires alone { registry.code ≡ [] }
    ensures { Gives (λ live. live) result (codes_held 0 handlers registry) }
{
    let mut registry = registry;
    let mut number = 0u32;
    for group in handlers.into_vec() {
        match registry.register_code(number, Codes::raw(group)) {
            Ok(()) => number += 1,
            Err((_, failure)) => {
                return Err(load_failure(LoadFile::Handlers(number as usize), failure));
            }
        }
    }
    Ok(registry)
}
