//! The result of the verifier for a handler.
ghost use Rattle.std.specs.Prelude.{IfOk};
ghost use Rattle.kb_handler_report.specs.Judgement.{IsJudged};

use kb_base::{Failure, NoMemory};
use kb_code::Handler;
use kb_verify::{Callable, VerifyFault, dearest_cost};
use std::alloc::{AllocError, Global};

/// The result of the verifier for a handler.
#[derive(Debug, Drop)]
pub enum Judgement {
    /// The handler is accepted. The most expensive path costs this many instructions.
    Accepted(u64),
    /// The handler is not accepted, for this first fault.
    Refused(VerifyFault),
}

/// Verifies a handler against the commands that it may call.
///
/// Errors: `NoMemory`.
pub fn judge(alloc: Global, callable: &Callable, handler: &Handler) -> Result<Judgement, NoMemory>
    ensures { IfOk result (IsJudged callable.now handler.now) }
{
    match dearest_cost(alloc, callable, handler) {
        Ok(cost) => Ok(Judgement::Accepted(cost)),
        Err(Failure::Fault(fault)) => Ok(Judgement::Refused(fault)),
        Err(Failure::NoMemory) => Err(AllocError),
    }
}
