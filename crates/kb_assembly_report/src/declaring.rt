//! Why no budgets and depths would do for the handlers of a text, as sentences with their places. Whether
//! some would do is decided elsewhere (`choosing`).
use crate::found::{Faults, Found};
use crate::holding::{BUDGET, DEPTH, Limits, handler_with, signature_of};
use crate::sources::Source;
use kb_assembly::Draft;
use kb_base::{Failure, FaultKind, NoMemory, Seq};
use kb_code::{CodeFault, Handler};
use kb_core::{NATIVES, Native};
use kb_verify::{Callable, VerifyFault, dearest_cost};
use std::alloc::{AllocError, Global};
use std::collections::HashMap;

/// The place of a fault of code.
fn place_of(fault: CodeFault) -> usize {
    match fault {
        CodeFault::BadOpcode(place) | CodeFault::BadOperand(place) | CodeFault::BadBlock(place) =>
            place,
        _ => 0,
    }
}

/// A handler of the largest limits, or `None`, with its fault added.
fn largest(
    alloc: Global,
    draft: &Draft,
    source: &Source,
    faults: &mut Faults,
) -> Result<Option<Handler>, NoMemory> {
    let limits = Limits {
        budget: BUDGET,
        depth: DEPTH,
    };
    match handler_with(alloc, draft, limits) {
        Ok(handler) => Ok(handler),
        Err(Failure::NoMemory) => Err(AllocError),
        Err(Failure::Fault(fault)) => {
            let line = source.line_at(place_of(fault));
            let kind = fault.kind();
            faults.add(Found::said(alloc, line, 0, kind, kind.meaning())?)?;
            Ok(None)
        }
    }
}

/// The indexes of the handlers of the file that a handler calls at places that it may reach. A name of a
/// native command stands for that one.
fn callees_of(
    alloc: Global,
    handler: &Handler,
    by_name: &HashMap<String, usize>,
) -> Result<Seq<usize>, NoMemory> {
    let mut callees = Seq::new(alloc);
    let called = handler.callees(alloc)?;
    for index in called.as_slice() {
        let name = handler.calls().get(usize::from(*index));
        if let Some(name) = name {
            if Native::named(name.as_str()).is_none() {
                if let Some(callee) = by_name.get(name.as_str()) {
                    callees.push(*callee)?;
                }
            }
        }
    }
    Ok(callees)
}

/// The index of each handler by its command.
fn by_name(alloc: Global, drafts: &[Draft]) -> Result<HashMap<String, usize>, NoMemory> {
    let mut names = HashMap::new(alloc);
    for (index, draft) in drafts.iter().enumerate() {
        names.insert(String::from_str(alloc, draft.command.as_str())?, index)?;
    }
    Ok(names)
}

/// For each handler the indexes of those that it calls. The faults of blocks are added.
fn all_callees(
    alloc: Global,
    drafts: &[Draft],
    sources: &[Source],
    faults: &mut Faults,
) -> Result<Vec<Seq<usize>>, NoMemory> {
    let names = by_name(alloc, drafts)?;
    let mut callees: Vec<Seq<usize>> = Vec::new(alloc);
    for (draft, source) in drafts.iter().zip(sources.iter()) {
        let called = match largest(alloc, draft, source, faults)? {
            Some(handler) => callees_of(alloc, &handler, &names)?,
            None => Seq::new(alloc),
        };
        callees.push(called)?;
    }
    Ok(callees)
}

/// One more than the largest depth of callees. `None` as long as that of one isn't known, and past the
/// largest depth.
fn depth_above(callees: &[usize], depths: &[Option<u32>]) -> Option<u32> {
    let mut most = 0u32;
    for callee in callees {
        match depths.get(*callee) {
            Some(Some(depth)) => most = most.max(*depth),
            _ => return None,
        }
    }
    if most < DEPTH {
        Some(most.saturating_add(1))
    } else {
        None
    }
}

/// The depth of each handler: the one that it has, or else one more than the largest of those that it calls.
/// `None` where calls nest without end, or too deep.
fn depths_of(
    alloc: Global,
    drafts: &[Draft],
    callees: &[Seq<usize>],
) -> Result<Vec<Option<u32>>, NoMemory> {
    let mut depths = Vec::new(alloc);
    for draft in drafts {
        depths.push(draft.depth)?;
    }
    for _ in 0..DEPTH {
        for (index, called) in callees.iter().enumerate() {
            let depth = match depths.get(index) {
                Some(Some(depth)) => Some(*depth),
                _ => depth_above(called.as_slice(), depths.as_slice()),
            };
            if let Some(place) = depths.get_mut(index) {
                *place = depth;
            }
        }
    }
    Ok(depths)
}

/// Adds that a handler without a depth can have none.
fn add_endless(
    alloc: Global,
    sources: &[Source],
    depths: &[Option<u32>],
    faults: &mut Faults,
) -> Result<(), NoMemory> {
    for (depth, source) in depths.iter().zip(sources.iter()) {
        if depth.is_none() {
            faults.add(Found::said(
                alloc,
                source.first,
                1,
                FaultKind::OverDepth,
                "no depth would do, since its calls nest without end, or more than 64 deep",
            )?)?;
        }
    }
    Ok(())
}

/// The native commands.
fn natives(alloc: Global) -> Result<Callable, NoMemory> {
    let mut callable = Callable::new(alloc);
    for native in &NATIVES {
        let signature = native.signature(alloc)?;
        callable.add(alloc, native.name(), &signature)?;
    }
    Ok(callable)
}

/// Adds a handler to those that may be called.
fn add(
    alloc: Global,
    draft: &Draft,
    limits: Limits,
    callable: &mut Callable,
) -> Result<(), NoMemory> {
    match signature_of(alloc, draft, limits)? {
        Some(signature) => callable.add(alloc, draft.command.as_str(), &signature),
        None => Ok(()),
    }
}

/// Why no budget would do for a handler.
fn refusal(alloc: Global, source: &Source, fault: &VerifyFault) -> Result<Found, NoMemory> {
    let kind = fault.kind();
    let meaning = match kind {
        FaultKind::UnknownCommand => {
            "it calls a command that isn't native and that no handler of this text has; if it is of another \
             extension, give `.budget` and `.depth`"
        }
        FaultKind::OverBudget => "a path costs more than 1,000,000,000",
        kind => kind.meaning(),
    };
    let sentence = format!(in alloc; "no budget would do, since {meaning}")?;
    match fault {
        VerifyFault::OverBudget(_) => Found::said(alloc, source.first, 1, kind, sentence.as_str()),
        fault => {
            let line = source.line_at(fault.place());
            Found::said(alloc, line, 0, kind, sentence.as_str())
        }
    }
}

/// The smallest budget of a handler with a depth. Where it isn't accepted the reason is added.
fn budget_of(
    alloc: Global,
    draft: &Draft,
    depth: u32,
    source: &Source,
    callable: &Callable,
    faults: &mut Faults,
) -> Result<u32, NoMemory> {
    let limits = Limits {
        budget: BUDGET,
        depth,
    };
    let handler = match handler_with(alloc, draft, limits) {
        Ok(Some(handler)) => handler,
        Err(Failure::NoMemory) => return Err(AllocError),
        _ => return Ok(BUDGET),
    };
    match dearest_cost(alloc, callable, &handler) {
        Ok(cost) => Ok(u32::try_from(cost).unwrap_or(BUDGET)),
        Err(Failure::NoMemory) => Err(AllocError),
        Err(Failure::Fault(fault)) => {
            faults.add(refusal(alloc, source, &fault)?)?;
            Ok(BUDGET)
        }
    }
}

/// Adds why handlers without a budget aren't accepted, if each one that they call costs little.
fn add_refusals(
    alloc: Global,
    drafts: &[Draft],
    sources: &[Source],
    depths: &[Option<u32>],
    faults: &mut Faults,
) -> Result<(), NoMemory> {
    let mut callable = natives(alloc)?;
    for (draft, depth) in drafts.iter().zip(depths.iter()) {
        let limits = Limits {
            budget: 1,
            depth: depth.unwrap_or(DEPTH),
        };
        add(alloc, draft, limits, &mut callable)?;
    }
    for ((draft, source), depth) in drafts.iter().zip(sources.iter()).zip(depths.iter()) {
        if let (None, Some(depth)) = (draft.budget, *depth) {
            budget_of(alloc, draft, depth, source, &callable, faults)?;
        }
    }
    Ok(())
}

/// The limits of the handlers of one depth, which may be called from then on. The reason is added where there
/// are none.
fn level(
    alloc: Global,
    drafts: &[Draft],
    sources: &[Source],
    depth: u32,
    limits: &mut [Limits],
    callable: &mut Callable,
    faults: &mut Faults,
) -> Result<(), NoMemory> {
    for (place, (draft, source)) in limits.iter_mut().zip(drafts.iter().zip(sources.iter())) {
        if place.depth == depth {
            if draft.budget.is_none() {
                place.budget = budget_of(alloc, draft, depth, source, callable, faults)?;
            }
            add(alloc, draft, *place, callable)?;
        }
    }
    Ok(())
}

/// The limits of handlers, each over those that it calls. Why a handler has none is added; then some limits
/// may be missing. Error: `NoMemory`.
fn examined(
    alloc: Global,
    drafts: &[Draft],
    sources: &[Source],
    faults: &mut Faults,
) -> Result<Vec<Limits>, NoMemory> {
    let callees = all_callees(alloc, drafts, sources, faults)?;
    if !faults.is_empty() {
        return Ok(Vec::new(alloc));
    }
    let depths = depths_of(alloc, drafts, callees.as_slice())?;
    add_endless(alloc, sources, depths.as_slice(), faults)?;
    add_refusals(alloc, drafts, sources, depths.as_slice(), faults)?;
    if !faults.is_empty() {
        return Ok(Vec::new(alloc));
    }
    by_levels(alloc, drafts, sources, depths.as_slice(), faults)
}

/// The limits of handlers with these depths. Why one costs too much is added.
fn by_levels(
    alloc: Global,
    drafts: &[Draft],
    sources: &[Source],
    depths: &[Option<u32>],
    faults: &mut Faults,
) -> Result<Vec<Limits>, NoMemory> {
    let mut limits: Vec<Limits> = Vec::new(alloc);
    for (draft, depth) in drafts.iter().zip(depths.iter()) {
        limits.push(Limits {
            budget: draft.budget.unwrap_or(BUDGET),
            depth: depth.unwrap_or(DEPTH),
        })?;
    }
    let mut callable = natives(alloc)?;
    for depth in 1..=DEPTH {
        level(
            alloc,
            drafts,
            sources,
            depth,
            limits.as_mut_slice(),
            &mut callable,
            faults,
        )?;
    }
    Ok(limits)
}

/// The limits that handlers are likely to have, if they have any: nothing rests on them but how long the
/// search for the smallest takes. Error: `NoMemory`.
pub(crate) fn likely_limits(
    alloc: Global,
    drafts: &[Draft],
    sources: &[Source],
) -> Result<Vec<Limits>, NoMemory> {
    let mut faults = Faults::none(alloc);
    examined(alloc, drafts, sources, &mut faults)
}

/// Adds why no budgets and depths would do for handlers, by their lines. Error: `NoMemory`.
pub(crate) fn add_reasons(
    alloc: Global,
    drafts: &[Draft],
    sources: &[Source],
    faults: &mut Faults,
) -> Result<(), NoMemory> {
    let _limits = examined(alloc, drafts, sources, faults)?;
    faults.sort()
}
