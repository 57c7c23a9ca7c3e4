//! Starts of accepted handlers.
use crate::choices;
use crate::counts::Counts;
use crate::finding::Finding;
use crate::live::{FullBudget, replace};
use crate::trial::Trial;
use kb_base::Failure;
use kb_registry::Registry;
use kb_verify::Verified;
use kb_vm::{End, Outcome, start};
use std::alloc::Global;

// What a start spends, where it ends without a trap and within the budget.
fn spent(outcome: &Outcome<'_>, choice: u16, budget: u64) -> Result<u64, Failure<Finding>> {
    let spent = outcome.spent;
    match &outcome.finish {
        End::Done if spent <= budget => Ok(spent),
        End::Done => Err(Failure::Fault(Finding::Spent { choice, spent })),
        End::NoMemory => Err(Failure::NoMemory),
        End::NotFound => Err(Failure::Fault(Finding::NotFound { choice })),
        End::Trap(trap, _, place) => {
            let number = trap.kind().number();
            let place = *place;
            Err(Failure::Fault(Finding::Trapped {
                choice,
                number,
                place,
            }))
        }
    }
}

fn start_once(
    alloc: Global,
    registry: &Registry<FullBudget>,
    trial: &Trial,
    choice: u16,
) -> Result<u64, Failure<Finding>> {
    let args = choices::args(alloc, trial.draft.params.as_slice(), choice)?;
    let core = choices::core(alloc, choice)?;
    let outcome = start(alloc, registry, trial.name(), args, core);
    let spent = spent(&outcome, choice, trial.budget);
    drop(outcome);
    spent
}

// Starts a handler once for each choice: the most that a start spends.
fn start_all(
    alloc: Global,
    registry: &Registry<FullBudget>,
    trial: &Trial,
    counts: &mut Counts,
) -> Result<u64, Failure<Finding>> {
    let mut most = 0u64;
    for choice in 0..choices::count(trial.draft.params.len()) {
        let spent = start_once(alloc, registry, trial, choice)?;
        most = most.max(spent);
        counts.starts = counts.starts.wrapping_add(1);
    }
    Ok(most)
}

/// Registers an accepted handler and starts it once for each choice: the most that a start spends, or 0 where
/// the handler is too expensive to be started.
pub(crate) fn run(
    alloc: Global,
    registry: &mut Registry<FullBudget>,
    trial: &Trial,
    verified: Verified,
    counts: &mut Counts,
) -> Result<u64, Failure<Finding>> {
    replace(alloc, registry, u32::from(trial.place), verified)?;
    if trial.is_started() {
        start_all(alloc, registry, trial, counts)
    } else {
        Ok(0)
    }
}
