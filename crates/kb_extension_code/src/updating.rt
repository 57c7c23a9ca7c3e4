//! The code that an update gives an extension.
ghost use Rattle.std.specs.Prelude.{◌≡◌, true, IfOk};
ghost use Rattle.kb_base.specs.Failure.{Gives};
ghost use Rattle.kb_code.specs.Face.{same_face};
ghost use Rattle.kb_handler_table.specs.Live.{handlers_of};
ghost use Rattle.kb_extension_code.specs.Updating as updating;

use crate::callable::callable_of;
use crate::verifying::{Rejection, verify_all};
use kb_base::{Failure, FaultKind, Refusal, Seq};
use kb_code::{Handler, same_face};
use kb_files::{Extension, read_handlers};
use kb_handler_table::Codes;
use kb_registry::{HostCommand, Registry};
use kb_verify::Callable;
use std::alloc::Global;

/// The code of an extension after an update with the bytes of a `handlers.json`. It is verified if the code
/// before was: against the native commands that are live now, its own handlers, and the handlers of the
/// extensions that it depends on, enabled or not (our decision).
///
/// Errors: the first fault of the file (1 to 4, 40 to 44, 50 to 53); then 95 if the handlers aren't of the
/// same commands as before, with the same parameters, budgets and depths; then the first handler that isn't
/// accepted (60 to 69, with its command); or `NoMemory`.
pub fn updated_code<C: HostCommand>(
    alloc: Global,
    extension: &Extension,
    extensions: &[Extension],
    registry: &Registry<C>,
    bytes: &[u8],
) -> Result<Codes, Failure<Refusal>>
    ensures code { Gives (λ codes. codes) result
        (updating.updated_code extension.now extensions.now registry.now bytes.now) }
    ensures face { IfOk result (λ codes.
        same_face (handlers_of extension.now.number registry.now.code) codes.handlers ≡ true) }
{
    let handlers = read_handlers(alloc, bytes)?;
    if !same_face(registry.handlers(extension.number), handlers.as_slice()) {
        return Err(Failure::Fault(Refusal::of(FaultKind::SignatureChanged)));
    }
    code_of(alloc, extension, extensions, registry, handlers)
}

/// The code of an extension's handlers, verified if the code before was.
#[tactic(auto, using(crate::proofs::UpdatingLemmas::raw_code, crate::proofs::UpdatingLemmas::checked_code))]
fn code_of<C: HostCommand>(
    alloc: Global,
    extension: &Extension,
    extensions: &[Extension],
    registry: &Registry<C>,
    handlers: Seq<Handler>,
) -> Result<Codes, Failure<Refusal>>
    ensures code { Gives (λ codes. codes) result
        (updating.code_of extension.now extensions.now registry.now handlers) }
    ensures handlers { IfOk result (λ codes. codes.handlers ≡ handlers) }
{
    let number = extension.number;
    if !is_verified(number, registry) {
        return Ok(Codes::raw(handlers));
    }
    let callable = callable_of(alloc, registry, extensions, number, handlers.as_slice())?;
    checked_by(alloc, handlers, &callable)
}

/// The code of handlers that are accepted with these callable commands.
#[tactic(auto, using(crate::proofs::UpdatingLemmas::verdict))]
fn checked_by(
    alloc: Global,
    handlers: Seq<Handler>,
    callable: &Callable,
) -> Result<Codes, Failure<Refusal>>
    ensures code { Gives (λ codes. codes) result (updating.checked_by callable.now handlers) }
    ensures handlers { IfOk result (λ codes. codes.handlers ≡ handlers) }
{
    match verify_all(alloc, handlers, callable) {
        Ok(verified) => Ok(Codes::checked(verified)),
        Err(failure) => Err(rejected_by(failure)),
    }
}

/// The failure of an update, by that of its handlers.
fn rejected_by(failure: Failure<Rejection>) -> Failure<Refusal>
    ensures { result ≡ updating.rejected_by failure }
{
    failure.map_fault(|rejection| {
        let Rejection { command, kind, .. } = rejection;
        Refusal {
            kind,
            detail: Some(command),
        }
    })
}

/// Whether the code of an extension was verified.
fn is_verified<C: HostCommand>(number: u32, registry: &Registry<C>) -> bool
    ensures { result ≡ updating.is_verified number registry.now }
{
    match registry.codes(number) {
        Some(codes) => codes.callees().is_some(),
        None => true,
    }
}
