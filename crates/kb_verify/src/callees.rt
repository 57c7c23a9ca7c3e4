//! The commands that a handler calls, and the check of their depths.
ghost use Rattle.std.specs.Prelude.{◌≡◌, ◌<◌, length, MatchOption, MatchResult};
ghost use Rattle.kb_code.specs.Blocks.{IsFormed};
ghost use Rattle.kb_code.specs.Reachable.{Calls};
ghost use Rattle.kb_verify.specs.Accepted.{AreCallees, IsCallee, IsShallow};
ghost use Rattle.kb_verify.specs.Faults.{IsFailure};
ghost use Rattle.kb_verify.specs.Marks.{IsMarked};
ghost use Rattle.kb_verify.specs.Paths.{IsWithinBudget};
ghost use Rattle.kb_verify.specs.Shapes.{HasShapes};

use crate::callable::{Callable, SharedSignature};
use crate::check::signature_at;
use crate::fault::VerifyFault;
use crate::forward::Mark;
use kb_base::{Failure, Seq};
use kb_code::{Handler, Instr};
use std::alloc::Global;

/// A command that a handler calls. The handler's list of calls has its name, at the index.
#[derive(Drop)]
pub struct Callee {
    /// The index of the command's name in the handler's list of calls.
    pub index: u16,
    /// The signature that the command declared when the handler was verified.
    pub signature: SharedSignature,
}

/// The callees, or the fault of the first call whose command declares a depth that isn't less than the
/// handler's.
pub(crate) fn shallow_callees(
    alloc: Global,
    callable: &Callable,
    handler: &Handler,
    marks: &[Mark],
) -> Result<Seq<Callee>, Failure<VerifyFault>>
    requires marked { IsMarked callable.now handler.now (length handler.now.code) marks.now }
    requires formed { IsFormed handler.now.code }
    requires some_code { 0 < length handler.now.code }
    requires shapes { HasShapes callable.now handler.now }
    requires within_budget { IsWithinBudget callable.now handler.now }
    ensures { MatchResult result
        (λ callees. AreCallees callable.now handler.now callees × IsShallow callable.now handler.now)
        (λ failure. IsFailure callable.now handler.now failure) }
{
    let mut callees = Vec::new(alloc);
    for place in 0..handler.code().instrs().len() {
        if let Some((index, signature)) = callee_at(callable, handler, marks, place) {
            if signature.as_signature().depth() >= handler.signature().depth() {
                return Err(Failure::Fault(VerifyFault::OverDepth(place)));
            }
            callees.push(Callee {
                index,
                signature: signature.share()?,
            })?;
        }
    }
    Ok(Seq::from_vec(callees))
}

/// The callee at a place, or `None` if no reachable call is there.
fn callee_at<'a>(
    callable: &'a Callable,
    handler: &Handler,
    marks: &[Mark],
    place: usize,
) -> Option<(u16, &'a SharedSignature)>
    requires marked { IsMarked callable.now handler.now (length handler.now.code) marks.now }
    requires shapes { HasShapes callable.now handler.now }
    requires within { place < length handler.now.code }
    ensures { MatchOption result
        ((index : _) → Calls handler.now place index → ⊥)
        (λ found. IsCallee callable.now handler.now place found.0 found.1.now) }
{
    let Instr::Call(index) = handler.code().instrs()[place] else {
        return None;
    };
    if let Mark::Unreached = &marks[place] {
        return None;
    }
    match signature_at(callable, handler, index) {
        Some(signature) => Some((index, signature)),
        None => None,
    }
}
