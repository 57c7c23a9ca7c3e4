//! The random test. An accepted handler never traps and never spends more than its budget, under any choice.
//! A handler is refused for its budget only where a path costs more.
use crate::counts::Counts;
use crate::finding::Finding;
use crate::handler_files::file;
use crate::live::{FullBudget, clear, natives};
use crate::random::{Random, Source};
use crate::trial::{Trial, random_trial};
use crate::verdict::{Verdict, judge};
use kb_base::{Failure, NoMemory};
use kb_golden_code::callable_with;
use kb_registry::Registry;
use kb_verify::Callable;
use std::alloc::{AllocError, Global};

/// The number of handlers of a file.
const HANDLERS: u16 = 3;

// An accepted handler has to be refused under a budget of one less than its highest cost.
fn try_below_cost(
    alloc: Global,
    callable: &Callable,
    registry: &mut Registry<FullBudget>,
    trial: &mut Trial,
    counts: &mut Counts,
) -> Result<(), Failure<Finding>> {
    if trial.highest_cost <= 1 {
        return Ok(());
    }
    trial.budget = trial.highest_cost.saturating_sub(1);
    match judge(alloc, callable, registry, trial, counts)? {
        Verdict::Refused(69) => Ok(()),
        Verdict::Refused(number) => Err(Failure::Fault(Finding::Refused { number })),
        Verdict::Accepted(_) => Err(Failure::Fault(Finding::Accepted)),
    }
}

// An accepted handler has to be accepted under a budget of its highest cost.
fn try_at_cost(
    alloc: Global,
    callable: &Callable,
    registry: &mut Registry<FullBudget>,
    trial: &mut Trial,
    counts: &mut Counts,
) -> Result<(), Failure<Finding>> {
    trial.budget = trial.highest_cost;
    match judge(alloc, callable, registry, trial, counts)? {
        Verdict::Accepted(most) => {
            if most == trial.highest_cost {
                counts.costliest = counts.costliest.wrapping_add(1);
            }
            Ok(())
        }
        Verdict::Refused(number) => Err(Failure::Fault(Finding::Refused { number })),
    }
}

// Whether a handler is accepted. If so it is live from now on, with the least budget that it needs.
fn is_accepted(
    alloc: Global,
    callable: &Callable,
    registry: &mut Registry<FullBudget>,
    trial: &mut Trial,
    counts: &mut Counts,
) -> Result<bool, Failure<Finding>> {
    match judge(alloc, callable, registry, trial, counts)? {
        Verdict::Refused(number) => {
            counts.refuse(number);
            Ok(false)
        }
        Verdict::Accepted(_) if trial.highest_cost > trial.budget => {
            Err(Failure::Fault(Finding::Accepted))
        }
        Verdict::Accepted(_) => {
            counts.accept(trial.has_blocks(), trial.is_started());
            try_below_cost(alloc, callable, registry, trial, counts)?;
            try_at_cost(alloc, callable, registry, trial, counts)?;
            Ok(true)
        }
    }
}

// Lets later handlers of the file call this one.
fn admit(
    alloc: Global,
    callable: &mut Callable,
    registry: &Registry<FullBudget>,
    trial: &Trial,
    live: &mut String,
) -> Result<(), NoMemory> {
    if let Some(signature) = registry.signature(trial.name()) {
        callable.add(alloc, trial.name(), signature)?;
    }
    let object = trial.object(alloc)?;
    write!(live, ",{object}")
}

// A finding, and the file that shows it: the handler, followed by those that it may call.
fn finding_text(
    alloc: Global,
    finding: Finding,
    trial: &Trial,
    live: &str,
) -> Result<String, NoMemory> {
    let object = trial.object(alloc)?;
    let objects = format!(in alloc; "{object}{live}")?;
    let file = file(alloc, trial.draft.version, objects.as_str())?;
    format!(in alloc; "{finding:?}: {file}")
}

// Tests a handler: what is wrong, or `None`.
fn try_handler(
    alloc: Global,
    callable: &mut Callable,
    registry: &mut Registry<FullBudget>,
    mut trial: Trial,
    live: &mut String,
    counts: &mut Counts,
) -> Result<Option<String>, NoMemory> {
    match is_accepted(alloc, callable, registry, &mut trial, counts) {
        Ok(true) => {
            admit(alloc, callable, registry, &trial, live)?;
            Ok(None)
        }
        Ok(false) => Ok(None),
        Err(Failure::NoMemory) => Err(AllocError),
        Err(Failure::Fault(finding)) => {
            Ok(Some(finding_text(alloc, finding, &trial, live.as_str())?))
        }
    }
}

fn try_handlers(
    alloc: Global,
    source: &mut Source,
    callable: &mut Callable,
    registry: &mut Registry<FullBudget>,
    live: &mut String,
    counts: &mut Counts,
) -> Result<Option<String>, NoMemory> {
    for place in 0..HANDLERS {
        let trial = random_trial(alloc, source, callable, place)?;
        let found = try_handler(alloc, callable, registry, trial, live, counts)?;
        if found.is_some() {
            return Ok(found);
        }
    }
    Ok(None)
}

fn try_file(
    alloc: Global,
    source: &mut Source,
    registry: &mut Registry<FullBudget>,
    counts: &mut Counts,
) -> Result<Option<String>, NoMemory> {
    clear(registry, u32::from(HANDLERS));
    let mut callable = callable_with(alloc, &[])?;
    let mut live = String::new(alloc);
    try_handlers(alloc, source, &mut callable, registry, &mut live, counts)
}

fn try_files(
    alloc: Global,
    source: &mut Source,
    registry: &mut Registry<FullBudget>,
    counts: &mut Counts,
    files: u32,
) -> Result<Option<String>, NoMemory> {
    for nth in 0..files {
        if let Some(found) = try_file(alloc, source, registry, counts)? {
            return Ok(Some(format!(in alloc; "file {nth}: {found}")?));
        }
    }
    Ok(None)
}

// Tests this number of files over a registry with the natives.
fn try_seed_over(
    alloc: Global,
    source: Source,
    registry: &mut Registry<FullBudget>,
    files: u32,
) -> Result<String, NoMemory> {
    let mut source = source;
    let mut counts = Counts::new();
    match try_files(alloc, &mut source, registry, &mut counts, files)? {
        Some(found) => Ok(found),
        None => counts.text(alloc, source.version),
    }
}

/// Tests this number of files of random handlers, with code of this version: the counts, or the first finding
/// with the number of its file.
pub(crate) fn try_seed(
    alloc: Global,
    version: u16,
    seed: u64,
    files: u32,
) -> Result<String, NoMemory> {
    let mut registry = natives(alloc)?;
    let random = Random::new(seed);
    let output = try_seed_over(alloc, Source { random, version }, &mut registry, files);
    drop(registry);
    output
}
