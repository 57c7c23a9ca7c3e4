//! The smallest budgets and depths for the handlers of a text that leaves some out.
//!
//! The first numbers are the smallest of all. Each round gives every handler what it needs over the handlers
//! as the round before left them. So no number is ever larger than in a choice that will do. Where a round
//! changes nothing the numbers are the smallest; where nothing will do for a handler then, no choice does.
ghost use Rattle.std.specs.Prelude.{◌≡◌, IfOk, IfSome, MatchOption, option_and_then, slice_get};
ghost use Rattle.std.specs.FinMap as map;
ghost use Rattle.kb_core.specs.Declaration.{Declaration};
ghost use Rattle.kb_assembly_report.specs.Choice.{AreFilled, AreLowest, EachNext, IsAcceptable, IsBudgetAt};
ghost use Rattle.kb_assembly_report.specs.Choice.{IsBudgetFor};
ghost use Rattle.kb_assembly_report.specs.Choice.{IsDepthFor, IsHoldable, IsLeastDepth, IsLow, IsNext};
ghost use Rattle.kb_assembly_report.specs.Choice.{IsSmallest, NoChoice, NoneDo, NoneDoes, NotAcceptable};
ghost use Rattle.kb_assembly_report.specs.Choice.{commands_of, handler_with, handlers_with, limits_of, need};
ghost use Rattle.kb_assembly_report.specs.Choice.{same_limits, top};

use crate::holding::{BUDGET, DEPTH, Limits, handler_held, signature_of};
use kb_assembly::Draft;
use kb_base::{Failure, NoMemory, Seq, Text};
use kb_code::Handler;
use kb_core::{NATIVES, Signature};
use kb_verify::{Callable, callable_of, dearest_cost};
use std::alloc::{AllocError, Global};

/// One more than the depth of a command that is called, or 0 if it isn't known.
fn need(callable: &Callable, calls: &[Text], index: u16) -> u32
    ensures { result ≡ need (option_and_then (map.get callable.now) (slice_get calls.now index)) }
{
    match calls.get(usize::from(index)) {
        Some(name) => match callable.get(name.as_str()) {
            Some(signature) => u32::from(signature.as_signature().depth()) + 1,
            None => 0,
        },
        None => 0,
    }
}

/// The smallest depth, at least 1, that is larger than those of commands that are called.
#[tactic(auto, using(crate::proofs::DepthLemmas::some_top))]
fn top(callable: &Callable, calls: &[Text], callees: &[u16]) -> u32
    ensures { result ≡ top callable.now calls.now callees.now }
{
    let mut depth = 1u32;
    for index in callees {
        depth = depth.max(need(callable, calls, *index));
    }
    depth
}

/// The smallest depth of a handler. Error: `NoMemory`.
#[tactic(auto, using(crate::proofs::DepthLemmas::least_depth))]
pub(crate) fn depth_above(
    alloc: Global,
    callable: &Callable,
    handler: &Handler,
) -> Result<u32, NoMemory>
    ensures { IfOk result (IsLeastDepth callable.now handler.now) }
{
    let callees = handler.callees(alloc)?;
    Ok(top(callable, handler.calls(), callees.as_slice()))
}

/// The smallest depth of a handler of a text, or `None` if a file can't hold it. Error: `NoMemory`.
fn smallest_depth(
    alloc: Global,
    callable: &Callable,
    draft: &Draft,
) -> Result<Option<u32>, NoMemory>
    ensures { IfOk result (λ depth. MatchOption depth
        (IsHoldable draft.now (limits_of 1000000000 64) → ⊥)
        (λ depth. (d : Declaration) → IsLeastDepth callable.now (handler_with draft.now d) depth)) }
{
    let limits = Limits {
        budget: BUDGET,
        depth: DEPTH,
    };
    match handler_held(alloc, draft, limits)? {
        Some(handler) => {
            let depth = depth_above(alloc, callable, &handler)?;
            Ok(Some(depth))
        }
        None => Ok(None),
    }
}

/// The depth of a handler: the one that it has, or else the smallest. `None` if no depth will do. Error:
/// `NoMemory`.
#[tactic(auto, using(crate::proofs::RaisingLemmas::none_held))]
fn depth_for(alloc: Global, callable: &Callable, draft: &Draft) -> Result<Option<u32>, NoMemory>
    ensures { IfOk result (λ depth. MatchOption depth (NoneDoes callable.now draft.now)
        (IsDepthFor callable.now draft.now)) }
{
    match draft.depth {
        Some(depth) => Ok(Some(depth)),
        None => match smallest_depth(alloc, callable, draft)? {
            Some(depth) => Ok(Some(depth)),
            None => Ok(None),
        },
    }
}

/// The smallest budget of a handler with a depth, or `None` if it isn't accepted with the largest one. Error:
/// `NoMemory`.
#[tactic(auto, using(crate::proofs::RaisingLemmas::cost_fits))]
fn budget_at(
    alloc: Global,
    callable: &Callable,
    draft: &Draft,
    depth: u32,
) -> Result<Option<u32>, NoMemory>
    ensures { IfOk result (λ budget. MatchOption budget (IsAcceptable callable.now draft.now depth → ⊥)
        (IsBudgetAt callable.now draft.now depth)) }
{
    let limits = Limits {
        budget: BUDGET,
        depth,
    };
    match handler_held(alloc, draft, limits)? {
        Some(handler) => match dearest_cost(alloc, callable, &handler) {
            Ok(cost) => match u32::try_from(cost) {
                Ok(budget) => Ok(Some(budget)),
                Err(_) => Ok(None),
            },
            Err(Failure::NoMemory) => Err(AllocError),
            Err(Failure::Fault(_)) => Ok(None),
        },
        None => Ok(None),
    }
}

/// The budget of a handler with a depth: the one that it has, or else the smallest. Error: `NoMemory`.
fn budget_for(
    alloc: Global,
    callable: &Callable,
    draft: &Draft,
    depth: u32,
) -> Result<Option<u32>, NoMemory>
    ensures { IfOk result (λ budget. MatchOption budget (NotAcceptable callable.now draft.now depth)
        (IsBudgetFor callable.now draft.now depth)) }
{
    match draft.budget {
        Some(budget) => Ok(Some(budget)),
        None => match budget_at(alloc, callable, draft, depth)? {
            Some(budget) => Ok(Some(budget)),
            None => Ok(None),
        },
    }
}

/// What a handler declares that needs as little as it can. `None` if nothing will do. Error: `NoMemory`.
fn next_of(alloc: Global, callable: &Callable, draft: &Draft) -> Result<Option<Signature>, NoMemory>
    ensures { IfOk result (λ made. MatchOption made (NoneDoes callable.now draft.now)
        (IsNext callable.now draft.now)) }
{
    match depth_for(alloc, callable, draft)? {
        Some(depth) => match budget_for(alloc, callable, draft, depth)? {
            Some(budget) => match signature_of(alloc, draft, Limits { budget, depth })? {
                Some(signature) => Ok(Some(signature)),
                None => Ok(None),
            },
            None => Ok(None),
        },
        None => Ok(None),
    }
}

/// The same of several handlers: `None` if nothing will do for one. Error: `NoMemory`.
#[tactic(auto, using(crate::proofs::RaisingLemmas::next_end))]
fn all_next(
    alloc: Global,
    callable: &Callable,
    drafts: &[Draft],
) -> Result<Option<Seq<Signature>>, NoMemory>
    ensures { IfOk result (λ made. MatchOption made (NoneDo callable.now drafts.now)
        (EachNext callable.now drafts.now)) }
{
    let mut made = Seq::new(alloc);
    let mut left = drafts;
    while let [draft, more @ ..] = left {
        match next_of(alloc, callable, draft)? {
            Some(signature) => made.push(signature)?,
            None => return Ok(None),
        }
        left = more;
    }
    Ok(Some(made))
}

/// The commands that handlers may call that declare this. Error: `NoMemory`.
fn commands_with(
    alloc: Global,
    drafts: &[Draft],
    declared: &[Signature],
) -> Result<Callable, NoMemory>
    ensures { IfOk result (λ callable. callable ≡ commands_of (handlers_with drafts.now declared.now)) }
{
    let mut callable = callable_of(alloc, &NATIVES, &[], &[], &[])?;
    let (mut left, mut others) = (drafts, declared);
    while let ([draft, more @ ..], [signature, rest @ ..]) = (left, others) {
        callable.add(alloc, draft.command.as_str(), signature)?;
        left = more;
        others = rest;
    }
    Ok(callable)
}

/// Whether budgets and depths are the same.
#[tactic(auto, using(crate::proofs::RaisingLemmas::none_same))]
fn same_limits(ones: &[Signature], others: &[Signature]) -> bool
    ensures { result ≡ same_limits ones.now others.now }
{
    let (mut left, mut right) = (ones, others);
    while let ([one, more @ ..], [other, rest @ ..]) = (left, right) {
        if one.budget() != other.budget() || one.depth() != other.depth() {
            return false;
        }
        left = more;
        right = rest;
    }
    true
}

/// The smallest numbers of all, but for those that a text gives; `None` if handlers are past the limits of a
/// file. Error: `NoMemory`.
#[tactic(auto, using(crate::proofs::RaisingLemmas::low_end))]
fn lowest(alloc: Global, drafts: &[Draft]) -> Result<Option<Seq<Signature>>, NoMemory>
    ensures { IfOk result (λ made. MatchOption made (NoChoice drafts.now) (AreLowest drafts.now)) }
{
    let mut made = Seq::new(alloc);
    let mut left = drafts;
    while let [draft, more @ ..] = left {
        let limits = Limits {
            budget: draft.budget.unwrap_or(1),
            depth: draft.depth.unwrap_or(1),
        };
        match signature_of(alloc, draft, limits)? {
            Some(signature) => made.push(signature)?,
            None => return Ok(None),
        }
        left = more;
    }
    Ok(Some(made))
}

/// The smallest choice, from declarations that are no larger. Error: `NoMemory`.
#[tactic(auto, using(crate::proofs::RaisingLemmas::raising))]
fn raised(
    alloc: Global,
    drafts: &[Draft],
    first: Seq<Signature>,
) -> Result<Option<Seq<Signature>>, NoMemory>
    requires { IsLow drafts.now first }
    ensures { IfOk result (λ made. MatchOption made (NoChoice drafts.now)
        (IsSmallest drafts.now)) }
{
    let mut declared = first;
    loop {
        let callable = commands_with(alloc, drafts, declared.as_slice())?;
        match all_next(alloc, &callable, drafts)? {
            Some(next) => {
                if same_limits(declared.as_slice(), next.as_slice()) {
                    return Ok(Some(declared));
                }
                declared = next;
            }
            None => return Ok(None),
        }
    }
}

/// The declarations of handlers with these limits, or `None` if these are too few, or past those of a file.
/// Error: `NoMemory`.
#[tactic(auto, using(crate::proofs::RaisingLemmas::fill_end))]
fn guessed(
    alloc: Global,
    drafts: &[Draft],
    limits: &[Limits],
) -> Result<Option<Seq<Signature>>, NoMemory>
    ensures { IfOk result (λ made. IfSome made (AreFilled drafts.now)) }
{
    let mut made = Seq::new(alloc);
    let mut left = drafts;
    while let [draft, more @ ..] = left {
        match limits.get(made.len()) {
            Some(limits) => match signature_of(alloc, draft, *limits)? {
                Some(signature) => made.push(signature)?,
                None => return Ok(None),
            },
            None => return Ok(None),
        }
        left = more;
    }
    Ok(Some(made))
}

/// The declarations of handlers with these limits, if they are the smallest. Error: `NoMemory`.
#[tactic(auto, using(crate::proofs::RaisingLemmas::filled_next))]
fn tried(
    alloc: Global,
    drafts: &[Draft],
    limits: &[Limits],
) -> Result<Option<Seq<Signature>>, NoMemory>
    ensures { IfOk result (λ made. IfSome made (IsSmallest drafts.now)) }
{
    let Some(declared) = guessed(alloc, drafts, limits)? else {
        return Ok(None);
    };
    let callable = commands_with(alloc, drafts, declared.as_slice())?;
    match all_next(alloc, &callable, drafts)? {
        Some(next) => {
            if same_limits(declared.as_slice(), next.as_slice()) {
                return Ok(Some(declared));
            }
            Ok(None)
        }
        None => Ok(None),
    }
}

/// The same as `smallest`, by rounds from the smallest numbers of all. Error: `NoMemory`.
#[tactic(auto, using(crate::proofs::RaisingLemmas::lowest_low))]
fn searched(alloc: Global, drafts: &[Draft]) -> Result<Option<Seq<Signature>>, NoMemory>
    ensures { IfOk result (λ made. MatchOption made (NoChoice drafts.now) (IsSmallest drafts.now)) }
{
    match lowest(alloc, drafts)? {
        Some(first) => raised(alloc, drafts, first),
        None => Ok(None),
    }
}

/// The smallest budgets and depths for the handlers of a text, but for those that it gives. `None` if no
/// choice will do. If the likely limits are the smallest, one round finds that out. Error: `NoMemory`.
pub(crate) fn smallest(
    alloc: Global,
    drafts: &[Draft],
    likely: &[Limits],
) -> Result<Option<Seq<Signature>>, NoMemory>
    ensures { IfOk result (λ made. MatchOption made (NoChoice drafts.now) (IsSmallest drafts.now)) }
{
    match tried(alloc, drafts, likely)? {
        Some(declared) => Ok(Some(declared)),
        None => {
            let made = searched(alloc, drafts)?;
            Ok(made)
        }
    }
}
