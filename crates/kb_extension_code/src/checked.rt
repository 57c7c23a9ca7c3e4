//! The live commands of a new session whose handlers are verified.
ghost use Rattle.std.specs.Prelude.{◌≡◌, ◌≤◌, ℕ, [], None, IfOk, length, map};
ghost use Rattle.kb_handler_table.specs.Live.{group_of};
ghost use Rattle.kb_extension_code.specs.Checked.{IsAdmitted, IsCode, IsRejectionAt, JoinAll, Joins};
ghost use Rattle.kb_extension_code.specs.Checked.{LiveChecked};
ghost use Rattle.kb_files.specs.Fault.{refused_file};
ghost use Rattle.kb_files.specs.declared.fault.LoadFile.TheVariants.{Handlers};
ghost use Rattle.kb_extension_code.specs.Checked.{refused_handler};

use crate::callable::callable_of;
use crate::natives::{load_failure, register_all};
use crate::verifying::{Rejection, verify_all};
use kb_base::{Failure, NoMemory, Refusal, Seq, Text};
use kb_code::Handler;
use kb_files::{Extension, LoadFault, LoadFile};
use kb_handler_table::Codes;
use kb_registry::{HostCommand, Registry};
use std::alloc::Global;

/// A registry with these closures, registered in order with tickets from 1 on, and then with the
/// handlers of extensions, in load order. Each handler is verified against the commands that its
/// extension may call: the live native commands, the handlers of the extensions that it depends on, and
/// its own handlers (our decision).
///
/// Errors: two closures for one native command (70); then, in load order, the first handler of an
/// extension that isn't accepted (60 to 69, with its command and place), or an extension with a handler
/// whose name is taken (70); or refused memory. On an error all closures and handlers are dropped.
#[tactic(auto, using(crate::proofs::NativesLemmas::held_alone))]
pub fn checked_commands<C: HostCommand>(
    alloc: Global,
    natives: Vec<C>,
    extensions: &[Extension],
    handlers: Seq<Seq<Handler>>,
) -> Result<Registry<C>, Failure<LoadFault>>
    requires { length handlers ≤ 100 }
    ensures { LiveChecked (map C.stands_for natives.items) extensions.now handlers result }
{
    let registry = register_all(alloc, natives)?;
    join_all(alloc, registry, extensions, handlers)
}

/// Adds the handlers of extensions to a registry, verified in load order.
#[tactic(auto, using(crate::proofs::CheckedLemmas::joining))]
fn join_all<C: HostCommand>(
    alloc: Global,
    registry: Registry<C>,
    extensions: &[Extension],
    handlers: Seq<Seq<Handler>>,
) -> Result<Registry<C>, Failure<LoadFault>>
    requires few { length handlers ≤ 100 }
    requires alone { registry.code ≡ [] }
    ensures { JoinAll extensions.now 0 handlers registry result }
{
    let mut registry = registry;
    let mut number = 0u32;
    for group in handlers.into_vec() {
        match join(alloc, registry, extensions, number, group) {
            Ok(joined) => registry = joined,
            Err(failure) => return Err(failure),
        }
        number += 1;
    }
    Ok(registry)
}

/// Adds the handlers of an extension to a registry, after their verification.
#[tactic(auto, using(crate::proofs::CheckedLemmas::code_joins, crate::proofs::CheckedLemmas::no_code_joins))]
fn join<C: HostCommand>(
    alloc: Global,
    registry: Registry<C>,
    extensions: &[Extension],
    number: u32,
    handlers: Seq<Handler>,
) -> Result<Registry<C>, Failure<LoadFault>>
    requires { group_of number registry.code ≡ None }
    ensures { Joins extensions.now number handlers registry result }
{
    match checked_codes(alloc, &registry, extensions, number, handlers) {
        Ok(codes) => admit(registry, number, codes),
        Err(failure) => {
            // Explicit, so the value is dropped by a call, and the proof doesn't drop it field by
            // field.
            drop(registry);
            Err(failure)
        }
    }
}

/// The code of an extension's handlers, verified against the commands that they may call.
fn checked_codes<C: HostCommand>(
    alloc: Global,
    registry: &Registry<C>,
    extensions: &[Extension],
    number: u32,
    handlers: Seq<Handler>,
) -> Result<Codes, Failure<LoadFault>>
    ensures { IsCode extensions.now number handlers registry.now result }
{
    let callable = callable_of(alloc, registry, extensions, number, handlers.as_slice())?;
    match verify_all(alloc, handlers, &callable) {
        Ok(verified) => Ok(Codes::checked(verified)),
        Err(failure) => Err(failure_at(alloc, number, failure)),
    }
}

/// Adds code to a registry.
fn admit<C: HostCommand>(
    registry: Registry<C>,
    number: u32,
    codes: Codes,
) -> Result<Registry<C>, Failure<LoadFault>>
    requires { group_of number registry.code ≡ None }
    ensures { IsAdmitted number codes registry result }
{
    let mut registry = registry;
    match registry.register_code(number, codes) {
        Ok(()) => Ok(registry),
        Err((_, failure)) => Err(load_failure(LoadFile::Handlers(number as usize), failure)),
    }
}

/// The failure of a load whose handlers, of this extension, weren't all accepted.
fn failure_at(alloc: Global, number: u32, failure: Failure<Rejection>) -> Failure<LoadFault>
    ensures { IsRejectionAt number failure result }
{
    failure.try_map_fault(|rejection| refused_at(alloc, number, &rejection))
}

/// The fault of a load with a handler, of this extension, that isn't accepted.
fn refused_at(alloc: Global, number: u32, rejection: &Rejection) -> Result<LoadFault, NoMemory>
    ensures { IfOk result (λ fault.
        fault ≡ refused_file (Handlers number) (refused_handler rejection.now)) }
{
    Ok(LoadFault {
        file: LoadFile::Handlers(number as usize),
        refusal: refused_handler(alloc, rejection)?,
    })
}

/// The refusal of a handler that isn't accepted, with its command and place.
fn refused_handler(alloc: Global, rejection: &Rejection) -> Result<Refusal, NoMemory>
    ensures { IfOk result (λ refusal. refusal ≡ refused_handler rejection.now) }
{
    let command = rejection.command.as_str();
    let place = rejection.place;
    let detail = format!(in alloc; "{command} {place}")?;
    Ok(Refusal {
        kind: rejection.kind,
        detail: Some(Text::from_string(detail)),
    })
}
