//! The verification of the handlers of a file.
ghost use Rattle.std.specs.Prelude.{◌≡◌, IfOk};
ghost use Rattle.kb_extension_code.specs.Verified.{IsFailureOf, Verifies, rejection};

use kb_base::{Failure, FaultKind, NoMemory, Seq, Text};
use kb_code::Handler;
use kb_verify::{Callable, VerifiedList, VerifyFault, verify};
use std::alloc::Global;

/// A handler that the verifier doesn't accept.
#[derive(Debug, Drop)]
pub struct Rejection {
    /// The command of the handler.
    pub command: Text,
    /// Its fault, of 60 to 69.
    pub kind: FaultKind,
    /// The place of its fault in the code, from 0.
    pub place: usize,
}

/// The handlers of a file, verified in order against the commands that they may call. Errors: the first
/// handler that isn't accepted, or `NoMemory`. On an error all handlers are dropped.
#[tactic(auto, using(crate::proofs::VerifiedLemmas::verifying))]
pub fn verify_all(
    alloc: Global,
    handlers: Seq<Handler>,
    callable: &Callable,
) -> Result<VerifiedList, Failure<Rejection>>
    ensures { Verifies callable.now handlers result }
{
    let mut verified = VerifiedList::new(alloc);
    for handler in handlers.into_vec() {
        match verify(alloc, handler, callable) {
            Ok(one) => verified = verified.with(one)?,
            Err((handler, failure)) => return Err(failure_of(&handler, failure)),
        }
    }
    Ok(verified)
}

/// The rejection of a handler that isn't accepted.
fn failure_of(handler: &Handler, failure: Failure<VerifyFault>) -> Failure<Rejection>
    ensures { IsFailureOf handler.now failure result }
{
    failure.try_map_fault(|fault| rejected(handler, &fault))
}

/// The rejection of a handler for its fault. Its command is copied.
fn rejected(handler: &Handler, fault: &VerifyFault) -> Result<Rejection, NoMemory>
    ensures { IfOk result (λ made. made ≡ rejection handler.now fault.now) }
{
    Ok(Rejection {
        command: handler.command().copied()?,
        kind: fault.kind(),
        place: fault.place(),
    })
}
