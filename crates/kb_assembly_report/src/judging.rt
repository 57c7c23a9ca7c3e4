//! Whether the text of a `handlers.json` is right: it is read as the handlers that it was written of, and
//! what was left out of them is as small as may be. Each text is tested before it is given, so that no proof
//! has to follow how it was written.
ghost use Rattle.std.specs.Prelude.{◌≡◌, IfOk, true};
ghost use Rattle.kb_assembly_report.specs.Choice.{IsSettled};
ghost use Rattle.kb_assembly_report.specs.Judging.{AreRight, AreSettled, IsCheapest, IsFileOf, IsReadAs};
ghost use Rattle.kb_assembly_report.specs.Judging.{IsShallowest, all_like, kept, like};

use crate::choosing::depth_above;
use kb_assembly::{Draft, disassemble, handler_draft};
use kb_base::{Failure, NoMemory, Seq};
use kb_code::Handler;
use kb_core::NATIVES;
use kb_files::read_handlers;
use kb_verify::{Callable, callable_of, dearest_cost};
use std::alloc::{AllocError, Global};

/// A number, unless it was left out.
fn kept(given: Option<u32>, number: u32) -> Option<u32>
    ensures { result ≡ kept given number }
{
    match given {
        Some(_) => Some(number),
        None => None,
    }
}

/// A handler as a text has it that leaves out what another one leaves out. Error: `NoMemory`.
fn like(alloc: Global, given: &Draft, handler: &Handler) -> Result<Draft, NoMemory>
    ensures { IfOk result (λ draft. draft ≡ like given.now handler.now) }
{
    let budget = handler.signature().budget();
    let depth = u32::from(handler.signature().depth());
    let Draft {
        command,
        params,
        texts,
        calls,
        code,
        ..
    } = handler_draft(alloc, handler)?;
    Ok(Draft {
        command,
        params,
        budget: kept(given.budget, budget),
        depth: kept(given.depth, depth),
        texts,
        calls,
        code,
    })
}

/// Handlers as a text has them that leaves out what others leave out. Error: `NoMemory`.
fn all_like(alloc: Global, given: &[Draft], handlers: &[Handler]) -> Result<Seq<Draft>, NoMemory>
    ensures { IfOk result (λ drafts. drafts ≡ all_like given.now handlers.now) }
{
    let mut drafts = Seq::new(alloc);
    let (mut left, mut read) = (given, handlers);
    while let ([one, more @ ..], [handler, others @ ..]) = (left, read) {
        drafts.push(like(alloc, one, handler)?)?;
        left = more;
        read = others;
    }
    Ok(drafts)
}

/// Whether handlers agree with others in all that these don't leave out. Error: `NoMemory`.
#[tactic(auto, using(crate::proofs::JudgingLemmas::reading))]
fn are_read(alloc: Global, drafts: &[Draft], handlers: &[Handler]) -> Result<bool, NoMemory>
    ensures right { IfOk result (λ yes. yes ≡ true → IsReadAs drafts.now handlers.now) }
    ensures all { IfOk result (λ yes. IsReadAs drafts.now handlers.now → yes ≡ true) }
{
    if drafts.len() != handlers.len() {
        return Ok(false);
    }
    let again = all_like(alloc, drafts, handlers)?;
    let one = disassemble(alloc, drafts)?;
    let other = disassemble(alloc, again.as_slice())?;
    Ok(one.as_slice() == other.as_slice())
}

/// Whether a handler is accepted, and costs its budget, if that was left out. Error: `NoMemory`.
#[tactic(auto, using(crate::proofs::JudgingLemmas::one_dearest))]
fn is_cheapest(
    alloc: Global,
    callable: &Callable,
    given: &Draft,
    handler: &Handler,
) -> Result<bool, NoMemory>
    ensures right { IfOk result (λ yes. yes ≡ true → IsCheapest callable.now given.now handler.now) }
    ensures all { IfOk result (λ yes. IsCheapest callable.now given.now handler.now → yes ≡ true) }
{
    match given.budget {
        Some(_) => Ok(true),
        None => match dearest_cost(alloc, callable, handler) {
            Ok(cost) => Ok(cost == u64::from(handler.signature().budget())),
            Err(Failure::NoMemory) => Err(AllocError),
            Err(Failure::Fault(_)) => Ok(false),
        },
    }
}

/// Whether a handler has the smallest depth, if that was left out. Error: `NoMemory`.
#[tactic(auto, using(crate::proofs::JudgingLemmas::one_depth))]
fn is_shallowest(
    alloc: Global,
    callable: &Callable,
    given: &Draft,
    handler: &Handler,
) -> Result<bool, NoMemory>
    ensures right { IfOk result (λ yes. yes ≡ true → IsShallowest callable.now given.now handler.now) }
    ensures all { IfOk result (λ yes. IsShallowest callable.now given.now handler.now → yes ≡ true) }
{
    match given.depth {
        Some(_) => Ok(true),
        None => {
            let depth = depth_above(alloc, callable, handler)?;
            Ok(depth == u32::from(handler.signature().depth()))
        }
    }
}

/// Whether what was left out of a handler is as small as may be. Error: `NoMemory`.
#[tactic(auto, using(crate::proofs::JudgingLemmas::settling))]
fn is_settled(
    alloc: Global,
    callable: &Callable,
    given: &Draft,
    handler: &Handler,
) -> Result<bool, NoMemory>
    ensures right { IfOk result (λ yes. yes ≡ true → IsSettled callable.now given.now handler.now) }
    ensures all { IfOk result (λ yes. IsSettled callable.now given.now handler.now → yes ≡ true) }
{
    if is_cheapest(alloc, callable, given, handler)? {
        let is_shallowest = is_shallowest(alloc, callable, given, handler)?;
        return Ok(is_shallowest);
    }
    Ok(false)
}

/// The same of several handlers.
#[tactic(auto, using(crate::proofs::JudgingLemmas::none_settled))]
fn are_settled(
    alloc: Global,
    callable: &Callable,
    given: &[Draft],
    handlers: &[Handler],
) -> Result<bool, NoMemory>
    ensures right { IfOk result (λ yes. yes ≡ true → AreSettled callable.now given.now handlers.now) }
    ensures all { IfOk result (λ yes. AreSettled callable.now given.now handlers.now → yes ≡ true) }
{
    let (mut left, mut read) = (given, handlers);
    while let ([one, more @ ..], [handler, others @ ..]) = (left, read) {
        if !is_settled(alloc, callable, one, handler)? {
            return Ok(false);
        }
        left = more;
        read = others;
    }
    Ok(true)
}

/// Whether handlers are those of a text, and what it leaves out is as small as may be. Error: `NoMemory`.
#[tactic(auto, using(crate::proofs::JudgingLemmas::judging))]
fn are_right(alloc: Global, drafts: &[Draft], handlers: &[Handler]) -> Result<bool, NoMemory>
    ensures right { IfOk result (λ yes. yes ≡ true → AreRight drafts.now handlers.now) }
    ensures all { IfOk result (λ yes. AreRight drafts.now handlers.now → yes ≡ true) }
{
    if are_read(alloc, drafts, handlers)? {
        let callable = callable_of(alloc, &NATIVES, &[], &[], handlers)?;
        let are_settled = are_settled(alloc, &callable, drafts, handlers)?;
        return Ok(are_settled);
    }
    Ok(false)
}

/// Whether the text of a file is read as these handlers, and what they leave out is as small as may be.
/// Error: `NoMemory`.
#[tactic(auto, using(crate::proofs::JudgingLemmas::filing))]
pub(crate) fn is_right(alloc: Global, drafts: &[Draft], text: &[u8]) -> Result<bool, NoMemory>
    ensures right { IfOk result (λ yes. yes ≡ true → IsFileOf drafts.now text.now) }
    ensures all { IfOk result (λ yes. IsFileOf drafts.now text.now → yes ≡ true) }
{
    match read_handlers(alloc, text) {
        Ok(handlers) => {
            let is_right = are_right(alloc, drafts, handlers.as_slice())?;
            Ok(is_right)
        }
        Err(Failure::NoMemory) => Err(AllocError),
        Err(Failure::Fault(_)) => Ok(false),
    }
}
