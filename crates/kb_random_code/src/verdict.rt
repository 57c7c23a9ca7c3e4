//! The verdict of the verifier on a random handler, and whether it is right.
use crate::counts::Counts;
use crate::finding::Finding;
use crate::live::FullBudget;
use crate::paths::{cost_by, has_bad_blocks, steps_by};
use crate::starts::run;
use crate::steps::{jumps_in, steps_text};
use crate::trial::Trial;
use kb_base::{Failure, NoMemory};
use kb_code::Handler;
use kb_registry::Registry;
use kb_verify::{Callable, Step, VerifyFault, verify};
use std::alloc::Global;

/// The verdict of the verifier on a handler.
#[derive(Clone, Copy)]
pub(crate) enum Verdict {
    /// The handler is accepted. No start spends more than this, and one spends it.
    Accepted(u64),
    /// The handler is refused by the fault with this number.
    Refused(u32),
}

// Whether a path is one of this code, costs as much as the most expensive one, and more than the budget.
fn is_over_budget(
    alloc: Global,
    callable: &Callable,
    trial: &Trial,
    path: &[Step],
) -> Result<bool, NoMemory> {
    let code = trial.draft.code.as_slice();
    let steps = steps_text(alloc, path)?;
    let jumps = jumps_in(steps.as_str());
    let taken = steps_by(alloc, code, jumps)?;
    match cost_by(callable, code, jumps) {
        Some(cost) if cost == trial.highest_cost => {
            Ok(taken.as_str() == steps.as_str() && cost > trial.budget)
        }
        _ => Ok(false),
    }
}

// The number of a fault, where its place and its path are right.
fn fault_number(
    alloc: Global,
    callable: &Callable,
    trial: &Trial,
    fault: &VerifyFault,
) -> Result<u32, Failure<Finding>> {
    let number = fault.kind().number();
    let place = fault.place();
    if place >= trial.draft.code.len() {
        return Err(Failure::Fault(Finding::Outside { number, place }));
    }
    let VerifyFault::OverBudget(path) = fault else {
        return Ok(number);
    };
    if is_over_budget(alloc, callable, trial, path.as_slice())? {
        Ok(number)
    } else {
        Err(Failure::Fault(Finding::Path))
    }
}

fn refused(
    alloc: Global,
    callable: &Callable,
    trial: &Trial,
    failure: &Failure<VerifyFault>,
) -> Result<Verdict, Failure<Finding>> {
    match failure {
        Failure::NoMemory => Err(Failure::NoMemory),
        Failure::Fault(fault) => {
            let number = fault_number(alloc, callable, trial, fault)?;
            Ok(Verdict::Refused(number))
        }
    }
}

// The verdict on a handler that was read.
fn judge_read(
    alloc: Global,
    callable: &Callable,
    registry: &mut Registry<FullBudget>,
    trial: &Trial,
    handler: Handler,
    counts: &mut Counts,
) -> Result<Verdict, Failure<Finding>> {
    match verify(alloc, handler, callable) {
        Ok(verified) => match run(alloc, registry, trial, verified, counts) {
            Ok(most) => Ok(Verdict::Accepted(most)),
            Err(failure) => Err(failure),
        },
        Err((handler, failure)) => {
            drop(handler);
            let verdict = refused(alloc, callable, trial, &failure);
            drop(failure);
            verdict
        }
    }
}

// The verdict on a handler whose file is refused, which has to be for its blocks.
fn judge_unread(alloc: Global, trial: &Trial) -> Result<Verdict, Failure<Finding>> {
    let said = trial.file_fault(alloc)?;
    if has_bad_blocks(trial.draft.code.as_slice()) && said.as_str() == "53 BadBlock" {
        Ok(Verdict::Refused(53))
    } else {
        Err(Failure::Fault(Finding::NotRead))
    }
}

/// The verdict on a handler under its budget. An accepted handler is live from then on.
pub(crate) fn judge(
    alloc: Global,
    callable: &Callable,
    registry: &mut Registry<FullBudget>,
    trial: &Trial,
    counts: &mut Counts,
) -> Result<Verdict, Failure<Finding>> {
    match trial.handler(alloc)? {
        Some(handler) if has_bad_blocks(trial.draft.code.as_slice()) => {
            drop(handler);
            Err(Failure::Fault(Finding::Read))
        }
        Some(handler) => judge_read(alloc, callable, registry, trial, handler, counts),
        None => judge_unread(alloc, trial),
    }
}
