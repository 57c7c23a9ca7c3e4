//! Handlers that the verifier accepted.
ghost use Rattle.std.specs.Prelude.{◌≡◌, ◌<◌, length, MatchResult, IfOk, IfErr};
ghost use Rattle.kb_code.specs.Blocks.{IsFormed};
ghost use Rattle.kb_verify.specs.Accepted.{AreCallees, IsAccepted, IsChecked};
ghost use Rattle.kb_verify.specs.Faults.{IsFailure, IsTrueFault};
ghost use Rattle.kb_verify.specs.Paths.{IsDearestCost, IsWithinBudget};
ghost use Rattle.kb_verify.specs.Shapes.{HasShapes};

use crate::backward::dearest_costs;
use crate::callable::Callable;
use crate::callees::{Callee, shallow_callees};
use crate::fault::{Defect, VerifyFault};
use crate::forward::assign;
use crate::route::dearest_path;
use kb_base::{Failure, Seq};
use kb_code::Handler;
use std::alloc::Global;
use std::marker::Model;

/// A handler that was accepted with some table of callable commands, and its callees with the
/// signatures that this table declares.
#[derive(Drop)]
pub struct Verified {
    handler: Handler,
    callees: Seq<Callee>,
}

impl Model for Verified {
    ghost use Rattle.kb_verify.specs.Accepted.{AreCallees, CheckedHandler, IsAccepted};
    ghost use Rattle.kb_verify.specs.Callable.{Commands};

    ghost Value = { CheckedHandler };

    ghost view = { λ v. record { handler = v.handler; callees = v.callees } };

    ghost invariant = { λ v. (commands : Commands) × IsAccepted commands v.handler
        × AreCallees commands v.handler v.callees };
}

impl Verified {
    /// The handler.
    pub fn handler(&self) -> &Handler
        ensures { result.now ≡ self.now.handler }
    {
        &self.handler
    }

    /// The callees: one for each reachable call, in order of their places.
    pub fn callees(&self) -> &[Callee]
        ensures callees { result.now ≡ self.now.callees }
        ensures accepted { IsChecked self.now }
    {
        self.callees.as_slice()
    }

    /// The handler and its callees, by value.
    pub fn into_parts(self) -> (Handler, Seq<Callee>)
        ensures handler { result.0 ≡ self.handler }
        ensures callees { result.1 ≡ self.callees }
        ensures accepted { IsChecked self }
    {
        let Verified { handler, callees } = self;
        (handler, callees)
    }
}

/// Verifies a handler against the commands that it may call, in time linear in its code. The check of a
/// handler without code never allocates. Errors, each with the handler: the first fault of a handler that
/// isn't accepted, or `NoMemory`. Our decision: defects of places, 60 to 67, come before the budget, 69, and
/// the budget before the depth, 68.
pub fn verify(
    alloc: Global,
    handler: Handler,
    callable: &Callable,
) -> Result<Verified, (Handler, Failure<VerifyFault>)>
    ensures accepts { MatchResult result (λ v. IsAccepted callable.now handler)
        (λ e. IsTrueFault e.1 → IsAccepted callable.now handler → ⊥) }
    ensures handler { MatchResult result (λ v. v.handler ≡ handler) (λ e. e.0 ≡ handler) }
    ensures callees { IfOk result (λ v. AreCallees callable.now handler v.callees) }
    ensures fault { IfErr result (λ e. IsFailure callable.now handler e.1) }
{
    match examine(alloc, callable, &handler) {
        Ok((_, callees)) => Ok(Verified { handler, callees }),
        Err(failure) => Err((handler, failure)),
    }
}

/// The cost of the most expensive path of an accepted handler, and its callees.
pub(crate) fn examine(
    alloc: Global,
    callable: &Callable,
    handler: &Handler,
) -> Result<(u64, Seq<Callee>), Failure<VerifyFault>>
    ensures { MatchResult result
        (λ found. IsAccepted callable.now handler.now × IsDearestCost callable.now handler.now found.0
        × AreCallees callable.now handler.now found.1)
        (λ failure. IsFailure callable.now handler.now failure) }
{
    let instrs = handler.code().instrs();
    if instrs.is_empty() {
        return Err(Failure::Fault(VerifyFault::Wrong(Defect::FallsOff, 0)));
    }
    let marks = assign(alloc, callable, handler)?;
    let cost = cost_within_budget(alloc, callable, handler)?;
    let callees = shallow_callees(alloc, callable, handler, marks.as_slice())?;
    Ok((cost, callees))
}

/// The cost of the most expensive path, if it is within the budget.
fn cost_within_budget(
    alloc: Global,
    callable: &Callable,
    handler: &Handler,
) -> Result<u64, Failure<VerifyFault>>
    requires formed { IsFormed handler.now.code }
    requires some_code { 0 < length handler.now.code }
    requires shapes { HasShapes callable.now handler.now }
    ensures { MatchResult result
        (λ cost. IsWithinBudget callable.now handler.now × IsDearestCost callable.now handler.now cost)
        (λ failure. IsFailure callable.now handler.now failure) }
{
    let costs = dearest_costs(alloc, callable, handler)?;
    let cost = costs[0];
    if cost <= u64::from(handler.signature().budget()) {
        return Ok(cost);
    }
    let path = dearest_path(alloc, callable, handler, costs.as_slice(), 0)?;
    Err(Failure::Fault(VerifyFault::OverBudget(path)))
}
