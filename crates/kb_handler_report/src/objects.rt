//! Objects on handlers, as JSON.
ghost use Rattle.kb_handler_report.specs.Judgement.{IsJudged};
ghost use Rattle.kb_verify.specs.Faults.{IsFault};
ghost use Rattle.kb_verify.specs.Paths.{IsOverBudget};
ghost use Rattle.kb_verify.specs.Route.{route_of};

use crate::extension::ExtensionCode;
use crate::instruction::Spelled;
use crate::judgement::Judgement;
use crate::path::{Listing, Visit, visits_of};
use crate::sentences::{depth_called, instr_at, reason};
use kb_base::NoMemory;
use kb_code::Handler;
use kb_disk::{DirFile, path_in};
use kb_report::{add_member, add_number, add_text};
use kb_verify::{Callable, Step, VerifyFault};
use serde_json::{Map, Value, json};
use std::alloc::Global;

/// Where a handler is: its extension, and how many handlers of the extension are before it.
#[derive(Clone, Copy)]
pub(crate) struct Entry<'a> {
    pub(crate) own: &'a ExtensionCode,
    pub(crate) index: u64,
}

/// The line of an extension without handlers, with a line feed.
pub(crate) fn line_of_none(
    alloc: Global,
    own: &ExtensionCode,
    why: &str,
) -> Result<String, NoMemory> {
    let mut members = Map::new(alloc);
    add_none(alloc, own, why, &mut members)?;
    line_of(alloc, members)
}

/// The line on the result of the verifier for a handler, with a line feed.
pub(crate) fn line_of_handler(
    alloc: Global,
    callable: &Callable,
    entry: Entry<'_>,
    handler: &Handler,
    judgement: &Judgement,
) -> Result<String, NoMemory>
    requires { IsJudged callable.now handler.now judgement.now }
{
    let mut members = Map::new(alloc);
    add_handler(alloc, entry, handler, &mut members)?;
    add_judgement(alloc, callable, handler, judgement, &mut members)?;
    line_of(alloc, members)
}

/// An object as a line.
fn line_of(alloc: Global, members: Map<String, Value>) -> Result<String, NoMemory> {
    let mut line = Value::Object(members).to_string(alloc)?;
    line.push('\n')?;
    Ok(line)
}

/// Adds the identifier of an extension, and the path of its file of handlers.
fn add_extension(
    alloc: Global,
    own: &ExtensionCode,
    members: &mut Map<String, Value>,
) -> Result<(), NoMemory> {
    let path = path_in(alloc, own.dir.as_str(), DirFile::Handlers)?;
    add_text(alloc, "extension", own.id.as_str(), members)?;
    add_text(alloc, "path", path.as_str(), members)
}

/// Adds the members of an extension without handlers.
fn add_none(
    alloc: Global,
    own: &ExtensionCode,
    why: &str,
    members: &mut Map<String, Value>,
) -> Result<(), NoMemory> {
    let message = format!(in alloc; "It has no handlers, since {why}.")?;
    add_extension(alloc, own, members)?;
    add_number(alloc, "handlers", 0, members)?;
    add_text(alloc, "message", message.as_str(), members)
}

/// Adds which handler it is, and what it declares.
fn add_handler(
    alloc: Global,
    entry: Entry<'_>,
    handler: &Handler,
    members: &mut Map<String, Value>,
) -> Result<(), NoMemory> {
    let budget = handler.signature().budget();
    let depth = handler.signature().depth();
    add_extension(alloc, entry.own, members)?;
    add_number(alloc, "index", entry.index, members)?;
    add_text(alloc, "command", handler.command().as_str(), members)?;
    add_number(alloc, "budget", u64::from(budget), members)?;
    add_number(alloc, "depth", u64::from(depth), members)
}

/// Adds the result of the verifier for a handler.
fn add_judgement(
    alloc: Global,
    callable: &Callable,
    handler: &Handler,
    judgement: &Judgement,
    members: &mut Map<String, Value>,
) -> Result<(), NoMemory>
    requires { IsJudged callable.now handler.now judgement.now }
{
    match judgement {
        Judgement::Accepted(cost) => add_cost(alloc, *cost, members),
        Judgement::Refused(fault) => add_fault(alloc, callable, handler, fault, members),
    }
}

/// Adds what a handler costs that is accepted.
fn add_cost(alloc: Global, cost: u64, members: &mut Map<String, Value>) -> Result<(), NoMemory> {
    add_member(alloc, "accepted", Value::from(true), members)?;
    add_number(alloc, "cost", cost, members)
}

/// Adds why a handler is not accepted.
fn add_fault(
    alloc: Global,
    callable: &Callable,
    handler: &Handler,
    fault: &VerifyFault,
    members: &mut Map<String, Value>,
) -> Result<(), NoMemory>
    requires { IsFault callable.now handler.now fault.now }
{
    add_refusal(alloc, handler, fault, members)?;
    let message = reason(alloc, callable, handler, fault)?;
    add_text(alloc, "message", message.as_str(), members)?;
    match fault {
        VerifyFault::Wrong(_, _) => Ok(()),
        VerifyFault::OverDepth(place) => add_depth(alloc, callable, handler, *place, members),
        VerifyFault::OverBudget(path) => {
            add_path(alloc, callable, handler, path.as_slice(), members)
        }
    }
}

/// Adds the number and the name of a fault, the place, and the instruction there, if there is one.
fn add_refusal(
    alloc: Global,
    handler: &Handler,
    fault: &VerifyFault,
    members: &mut Map<String, Value>,
) -> Result<(), NoMemory> {
    let kind = fault.kind();
    let place = fault.place();
    add_member(alloc, "accepted", Value::from(false), members)?;
    add_number(alloc, "number", u64::from(kind.number()), members)?;
    add_text(alloc, "name", kind.name(), members)?;
    add_number(alloc, "place", place as u64, members)?;
    match instr_at(handler, place) {
        Some(instr) => {
            let spelled = Spelled::new(handler, instr);
            let instruction = format!(in alloc; "{spelled}")?;
            add_text(alloc, "instruction", instruction.as_str(), members)
        }
        None => Ok(()),
    }
}

/// Adds the depth of the command that is called at a place, if the place has a call of a known command.
fn add_depth(
    alloc: Global,
    callable: &Callable,
    handler: &Handler,
    place: usize,
    members: &mut Map<String, Value>,
) -> Result<(), NoMemory> {
    match depth_called(callable, handler, place) {
        Some(depth) => add_number(alloc, "called_depth", u64::from(depth), members),
        None => Ok(()),
    }
}

/// Adds the places of a path that costs too much, and the cost of the path.
fn add_path(
    alloc: Global,
    callable: &Callable,
    handler: &Handler,
    path: &[Step],
    members: &mut Map<String, Value>,
) -> Result<(), NoMemory>
    requires { IsOverBudget callable.now handler.now (route_of path.now) }
{
    let Listing { visits, cost } = visits_of(alloc, callable, handler, path)?;
    add_number(alloc, "cost", cost, members)?;
    let places = places_of(alloc, handler, visits.as_slice())?;
    add_member(alloc, "places", Value::Array(places), members)
}

/// The objects of the places of a path.
fn places_of(alloc: Global, handler: &Handler, visits: &[Visit]) -> Result<Vec<Value>, NoMemory> {
    let mut places = Vec::new(alloc);
    for visit in visits {
        places.push(place_of(alloc, handler, visit)?)?;
    }
    Ok(places)
}

/// The object of a place of a path.
fn place_of(alloc: Global, handler: &Handler, visit: &Visit) -> Result<Value, NoMemory> {
    let place = visit.place as u64;
    let cost = visit.cost;
    let times = visit.times;
    let spelled = Spelled::new(handler, visit.instr);
    let instruction = format!(in alloc; "{spelled}")?;
    let instruction = instruction.as_str();
    json!(in alloc; {"place": place, "instruction": instruction, "cost": cost, "times": times})
}
