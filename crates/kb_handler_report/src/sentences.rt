//! Sentences on a handler.
ghost use Rattle.kb_handler_report.specs.Judgement.{IsJudged};
ghost use Rattle.kb_verify.specs.Faults.{IsFault};
ghost use Rattle.kb_verify.specs.Paths.{IsOverBudget};
ghost use Rattle.kb_verify.specs.Route.{route_of};

use crate::instruction::{Spelled, callee_name};
use crate::judgement::Judgement;
use crate::meaning::defect_sentence;
use crate::path::{Listing, Visit, visits_of};
use kb_base::NoMemory;
use kb_code::{Handler, Instr};
use kb_verify::{Callable, Step, VerifyFault};
use std::alloc::Global;

/// Lines on the result of the verifier for a handler, each with a line feed.
pub(crate) fn sentences(
    alloc: Global,
    callable: &Callable,
    handler: &Handler,
    judgement: &Judgement,
) -> Result<String, NoMemory>
    requires { IsJudged callable.now handler.now judgement.now }
{
    match judgement {
        Judgement::Accepted(cost) => accepted(alloc, handler, *cost),
        Judgement::Refused(fault) => refused(alloc, callable, handler, fault),
    }
}

/// The line of a handler that is accepted.
fn accepted(alloc: Global, handler: &Handler, cost: u64) -> Result<String, NoMemory> {
    let command = handler.command().as_str();
    let budget = handler.signature().budget();
    format!(in alloc; "{command}: accepted. It costs at most {cost} of its budget of {budget}.\n")
}

/// The lines of a handler that is not accepted: the fault, and its reason.
fn refused(
    alloc: Global,
    callable: &Callable,
    handler: &Handler,
    fault: &VerifyFault,
) -> Result<String, NoMemory>
    requires { IsFault callable.now handler.now fault.now }
{
    let mut said = refusal(alloc, handler, fault)?;
    match fault {
        VerifyFault::Wrong(_, _) | VerifyFault::OverDepth(_) => {
            let reason = reason(alloc, callable, handler, fault)?;
            write!(said, "    {reason}\n")?;
        }
        VerifyFault::OverBudget(path) => {
            add_path(alloc, callable, handler, path.as_slice(), &mut said)?;
        }
    }
    Ok(said)
}

/// The sentence on why a handler is not accepted.
pub(crate) fn reason(
    alloc: Global,
    callable: &Callable,
    handler: &Handler,
    fault: &VerifyFault,
) -> Result<String, NoMemory> {
    match fault {
        VerifyFault::Wrong(defect, place) => {
            let instr = instr_at(handler, *place);
            String::from_str(alloc, defect_sentence(handler, *defect, instr))
        }
        VerifyFault::OverDepth(place) => depths(alloc, callable, handler, *place),
        VerifyFault::OverBudget(_) => {
            let sentence = over_budget(alloc, handler)?;
            format!(in alloc; "{sentence}.")
        }
    }
}

/// The line with the fault, the place and the instruction there.
fn refusal(alloc: Global, handler: &Handler, fault: &VerifyFault) -> Result<String, NoMemory> {
    let command = handler.command().as_str();
    let kind = fault.kind();
    let place = fault.place();
    match instr_at(handler, place) {
        Some(instr) => {
            let spelled = Spelled::new(handler, instr);
            format!(in alloc; "{command}: not accepted, for {kind} at place {place}, {spelled}.\n")
        }
        None => format!(in alloc; "{command}: not accepted, for {kind} at place {place}.\n"),
    }
}

/// The instruction at a place, if there is one.
pub(crate) fn instr_at(handler: &Handler, place: usize) -> Option<Instr> {
    handler.code().instrs().get(place).copied()
}

/// A sentence on a call at a place that nests too deep.
fn depths(
    alloc: Global,
    callable: &Callable,
    handler: &Handler,
    place: usize,
) -> Result<String, NoMemory> {
    let own = handler.signature().depth();
    match depth_called(callable, handler, place) {
        Some(depth) => format!(in alloc;
            "This command declares the depth {depth}, which is not below the handler's own, {own}."
        ),
        None => format!(in alloc;
            "This command nests too deep for the handler's own depth, {own}."
        ),
    }
}

/// The depth of the command that is called at a place, if the place has a call of a known command.
pub(crate) fn depth_called(callable: &Callable, handler: &Handler, place: usize) -> Option<u8> {
    let Some(instr) = instr_at(handler, place) else {
        return None;
    };
    let Some(name) = callee_name(handler, instr) else {
        return None;
    };
    match callable.get(name) {
        Some(signature) => Some(signature.as_signature().depth()),
        None => None,
    }
}

/// A sentence on a path that costs too much, without its last sign.
fn over_budget(alloc: Global, handler: &Handler) -> Result<String, NoMemory> {
    let budget = handler.signature().budget();
    format!(in alloc; "A path costs more than the handler's budget of {budget}")
}

/// Adds a path that costs too much: each of its places with its cost and how often the path comes there,
/// and the cost of the path.
fn add_path(
    alloc: Global,
    callable: &Callable,
    handler: &Handler,
    path: &[Step],
    said: &mut String,
) -> Result<(), NoMemory>
    requires { IsOverBudget callable.now handler.now (route_of path.now) }
{
    let sentence = over_budget(alloc, handler)?;
    write!(said, "    {sentence}:\n")?;
    let Listing { visits, cost } = visits_of(alloc, callable, handler, path)?;
    for visit in visits.as_slice() {
        add_visit(handler, visit, said)?;
    }
    if cost == u64::MAX {
        write!(said, "        in all: {cost} or more\n")
    } else {
        write!(said, "        in all: {cost}\n")
    }
}

/// Adds a place of a path with its cost.
fn add_visit(handler: &Handler, visit: &Visit, said: &mut String) -> Result<(), NoMemory> {
    let place = visit.place;
    let cost = visit.cost;
    let times = visit.times;
    let spelled = Spelled::new(handler, visit.instr);
    write!(said, "        place {place}: {cost} for {spelled}")?;
    match times {
        1 => write!(said, "\n"),
        u64::MAX => write!(said, ", {times} times or more\n"),
        _ => write!(said, ", {times} times\n"),
    }
}
