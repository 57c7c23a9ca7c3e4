//! The cost of the most expensive path of a handler.
ghost use Rattle.std.specs.Prelude.{IfOk, IfErr, MatchResult};
ghost use Rattle.kb_verify.specs.Accepted.{IsAccepted};
ghost use Rattle.kb_verify.specs.Faults.{IsFailure, IsTrueFault};
ghost use Rattle.kb_verify.specs.Paths.{IsDearestCost};

use crate::callable::Callable;
use crate::fault::VerifyFault;
use crate::verified::examine;
use kb_base::Failure;
use kb_code::Handler;
use std::alloc::Global;

/// Verifies a borrowed handler and returns the cost of its most expensive path. The errors are those of
/// `verify`: the first fault of a handler that is not accepted, or refused memory.
pub fn dearest_cost(
    alloc: Global,
    callable: &Callable,
    handler: &Handler,
) -> Result<u64, Failure<VerifyFault>>
    ensures accepts { MatchResult result (λ _. IsAccepted callable.now handler.now)
        (λ failure. IsTrueFault failure → IsAccepted callable.now handler.now → ⊥) }
    ensures dearest { IfOk result (IsDearestCost callable.now handler.now) }
    ensures fault { IfErr result (IsFailure callable.now handler.now) }
{
    match examine(alloc, callable, handler) {
        Ok((cost, _)) => Ok(cost),
        Err(failure) => Err(failure),
    }
}
