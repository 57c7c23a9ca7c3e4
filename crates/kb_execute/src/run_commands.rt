//! `runCommands`, the command that runs a list of commands. VS Code documents a command of this name
//! with the argument `commands`. The maximum length of the list, and the refusal of a list that isn't
//! valid as a whole, are our decisions.
ghost use Rattle.std.specs.Prelude.{◌≡◌, IfOk, OnErr, map, option_map};
ghost use Rattle.serde_json.specs.View.{view, items_view};
ghost use Rattle.kb_jsonc.specs.Parts.{each, listed};
ghost use Rattle.kb_execute.specs.RunCommands.{planned, planned_for, planned_in, few, elements_given};
ghost use Rattle.kb_execute.specs.RunCommands.{plan_of};
ghost use Rattle.kb_stream.specs.Lines.{Begins};
ghost use Rattle.kb_execute.specs.Start.{started, behind, run_one, run_all, run_plan};

use crate::held_core::HeldCore;
use crate::start::{Finish, start_live};
use kb_base::NoMemory;
use kb_registry::{HostCommand, Registry};
use kb_stream::Lines;
use kb_trace::lines;
use serde_json::Value;
use std::alloc::Global;

/// The maximum number of elements of a list.
const ELEMENT_LIMIT: usize = 32;

/// A command of a list with its arguments, both borrowed from the JSON value.
#[derive(Clone, Copy, Debug)]
pub struct Step<'j> {
    pub command: &'j str,
    pub given: Option<&'j Value>,
}

/// Runs the commands of the list in `given`, in order, up to the first that is not found, whose
/// arguments don't fit, or that traps. It adds their trace lines. The whole list is read first: if it
/// is not valid, no command runs. On `NoMemory` the old lines are still there, before any new ones.
#[tactic(auto, using(kb_stream::proofs::Undoing::undoing))]
pub(crate) fn start_list<C: HostCommand>(
    alloc: Global,
    given: Option<&Value>,
    registry: &Registry<C>,
    core: &mut HeldCore,
    trace: &mut Lines,
) -> Result<Finish, NoMemory>
    ensures ok { let given = option_map (λ v. view v.now) given.entry in
        IfOk result (λ finish. started core.new trace.new finish
        ≡ behind trace.old (run_plan (plan_of given) registry.now core.old)) }
    ensures err { OnErr result (Begins trace.old trace.new) }
{
    let Some(steps) = read_steps(alloc, given)? else {
        lines::bad_arguments_line(trace, "runCommands")?;
        return Ok(Finish::BadArguments);
    };
    start_steps(alloc, steps.as_slice(), registry, core, trace)
}

/// Runs the commands in order, up to the first that fails.
#[tactic(auto, using(kb_stream::proofs::Undoing::undoing_all))]
fn start_steps<C: HostCommand>(
    alloc: Global,
    steps: &[Step<'_>],
    registry: &Registry<C>,
    core: &mut HeldCore,
    trace: &mut Lines,
) -> Result<Finish, NoMemory>
    ensures ok { IfOk result (λ finish. started core.new trace.new finish
        ≡ behind trace.old (run_all (map planned steps.now) registry.now core.old)) }
    ensures err { OnErr result (Begins trace.old trace.new) }
{
    for step in steps {
        match start_step(alloc, step, registry, core, trace)? {
            Finish::Done => {}
            broken => return Ok(broken),
        }
    }
    Ok(Finish::Done)
}

/// Runs one command of a list, after its own trace line.
#[tactic(auto, using(kb_stream::proofs::Undoing::undoing_behind))]
fn start_step<C: HostCommand>(
    alloc: Global,
    step: &Step<'_>,
    registry: &Registry<C>,
    core: &mut HeldCore,
    trace: &mut Lines,
) -> Result<Finish, NoMemory>
    ensures ok { IfOk result (λ finish. started core.new trace.new finish
        ≡ behind trace.old (run_one (planned step.now) registry.now core.old)) }
    ensures err { OnErr result (Begins trace.old trace.new) }
{
    lines::run_line(trace, step.command)?;
    start_live(alloc, step.command, step.given, registry, core, trace)
}

/// The commands of a list, or `None` if the list is not valid. A valid list is the member `commands` of
/// an object and has at most 32 elements. Each element is the identifier of a command or an object with
/// a text `command`, and none names `runCommands`.
fn read_steps(alloc: Global, given: Option<&Value>) -> Result<Option<Vec<Step<'_>>>, NoMemory>
    ensures { let given = option_map (λ v. view v.now) given.entry in
        IfOk result (λ steps. option_map (λ steps. map planned steps.items) steps ≡ plan_of given) }
{
    match elements_in(given) {
        Some(elements) => read_elements(alloc, elements),
        None => Ok(None),
    }
}

/// The elements of the list, or `None` if there is no list or if it is too long.
fn elements_in(given: Option<&Value>) -> Option<&[Value]>
    ensures { let given = option_map (λ v. view v.now) given.entry in
        option_map (λ elements. listed (items_view elements.now)) result ≡ elements_given given }
{
    few(given?.get("commands")?.as_array()?)
}

/// The elements, or `None` if they are more than 32.
#[tactic(auto, using(kb_jsonc::proofs::PartsLemmas::as_many))]
fn few(elements: &[Value]) -> Option<&[Value]>
    ensures { option_map (λ elements. listed (items_view elements.now)) result
        ≡ few (listed (items_view elements.now)) }
{
    if elements.len() > ELEMENT_LIMIT {
        return None;
    }
    Some(elements)
}

/// The commands of the elements, or `None` if an element isn't valid.
fn read_elements(alloc: Global, elements: &[Value]) -> Result<Option<Vec<Step<'_>>>, NoMemory>
    ensures { IfOk result (λ steps. option_map (λ steps. map planned steps.items) steps
        ≡ each planned_in (listed (items_view elements.now))) }
{
    let mut steps = Vec::with_capacity(alloc, elements.len())?;
    for element in elements {
        match read_step(element) {
            Some(step) => steps.push(step)?,
            None => return Ok(None),
        }
    }
    Ok(Some(steps))
}

/// The command of an element, or `None` if it isn't valid.
fn read_step(element: &Value) -> Option<Step<'_>>
    ensures { option_map planned result ≡ planned_in (view element.now) }
{
    match element {
        Value::String(command) => step_for(command.as_str(), None),
        Value::Object(_) => step_for(element.get("command")?.as_str()?, element.get("args")),
        _ => None,
    }
}

/// A step for a command, or `None` for `runCommands` itself.
fn step_for<'j>(command: &'j str, given: Option<&'j Value>) -> Option<Step<'j>>
    ensures { option_map planned result
        ≡ planned_for (option_map (λ v. view v.now) given.entry) command.now }
{
    if command == "runCommands" {
        return None;
    }
    Some(Step { command, given })
}
