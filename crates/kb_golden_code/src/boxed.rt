//! Boxed closures that are registered, disposed of and registered again.
ghost use Rattle.kb_core.specs.Native.{Fits};
ghost use Rattle.kb_core.specs.Ran.{Does};
ghost use Rattle.kb_core.specs.declared.native.Native.TheVariants.{TypeText};

use kb_base::{Failure, NoMemory, Seq, Text, TextMap};
use kb_context::{Layout, LayoutScope, Scopes};
use kb_core::{Args, Core, Native, Ran, at_budget};
use kb_execute::HeldCore;
use kb_registry::{HostCommand, NativeCommand, Registry, Run, Ticket};
use std::alloc::{AllocError, Global};

/// A core with an empty buffer and one scope, `window`.
pub(crate) fn window(alloc: Global) -> Result<HeldCore, NoMemory> {
    let mut scopes = Seq::new(alloc);
    scopes.push(LayoutScope {
        name: Text::from_str(alloc, "window")?,
        parent: None,
        keys: TextMap::new(alloc),
    })?;
    let focus = Text::from_str(alloc, "window")?;
    match Scopes::new(alloc, Layout { scopes, focus }) {
        Ok(scopes) => Ok(HeldCore::new(Core::new(alloc, scopes))),
        Err(_) => Err(AllocError),
    }
}

// Registers the first closure of the shelf: its ticket, or the number of the fault, after which the closure
// is the last one of the shelf. 98 where the shelf is empty.
fn register<C: HostCommand>(
    registry: &mut Registry<C>,
    shelf: &mut Vec<C>,
) -> Result<u64, NoMemory> {
    if shelf.is_empty() {
        return Ok(98);
    }
    let (command, failure) = match registry.register(shelf.remove(0)) {
        Ok(ticket) => return Ok(ticket.0),
        Err(refused) => refused,
    };
    shelf.push(command)?;
    match failure {
        Failure::Fault(fault) => Ok(u64::from(fault.kind().number())),
        Failure::NoMemory => Ok(5),
    }
}

// Disposes of a ticket: 0, and its closure is the last one of the shelf, or the number of the fault.
fn dispose<C: HostCommand>(
    registry: &mut Registry<C>,
    shelf: &mut Vec<C>,
    ticket: u64,
) -> Result<u64, NoMemory> {
    match registry.dispose(Ticket(ticket)) {
        Ok(command) => {
            shelf.push(command)?;
            Ok(0)
        }
        Err(fault) => Ok(u64::from(fault.kind().number())),
    }
}

// The cost of a start of `type`; 0 where it isn't live, and 5 where its closure returns `NoMemory`.
fn start<C: HostCommand>(
    alloc: Global,
    registry: &Registry<C>,
    core: &mut HeldCore,
) -> Result<u64, NoMemory> {
    let Some(command) = registry.closure(Native::TypeText) else {
        return Ok(0);
    };
    let Some(args) = command.native().read_args(alloc, None)? else {
        return Ok(0);
    };
    match core.run(&command, args) {
        Ok(cost) => Ok(u64::from(cost)),
        Err(_) => Ok(5),
    }
}

/// What the steps of a case work on.
#[derive(Drop)]
struct Bench<C: HostCommand> {
    core: HeldCore,
    registry: Registry<C>,
    shelf: Vec<C>,
}

// A bench with these closures on its shelf, whose registry takes three registrations.
fn bench_with<C: HostCommand>(alloc: Global, shelf: Vec<C>) -> Result<Bench<C>, NoMemory> {
    let registry = Registry::new(alloc, 3)?;
    let core = window(alloc)?;
    Ok(Bench {
        core,
        registry,
        shelf,
    })
}

// Runs a step: `+` registers, `t` starts `type`, and a digit disposes of its ticket.
fn run_step<C: HostCommand>(
    alloc: Global,
    bench: &mut Bench<C>,
    step: u8,
) -> Result<u64, NoMemory> {
    match step {
        b'+' => register(&mut bench.registry, &mut bench.shelf),
        b't' => start(alloc, &bench.registry, &mut bench.core),
        b'1' => dispose(&mut bench.registry, &mut bench.shelf, 1),
        b'2' => dispose(&mut bench.registry, &mut bench.shelf, 2),
        _ => dispose(&mut bench.registry, &mut bench.shelf, 3),
    }
}

fn add_steps<C: HostCommand>(
    alloc: Global,
    bench: &mut Bench<C>,
    steps: &str,
    output: &mut String,
) -> Result<(), NoMemory> {
    for step in steps.bytes() {
        if !output.is_empty() {
            output.push(' ')?;
        }
        let number = run_step(alloc, bench, step)?;
        write!(output, "{number}")?;
    }
    Ok(())
}

// Runs the steps on a new bench with this shelf.
fn add_steps_over<C: HostCommand>(
    alloc: Global,
    shelf: Vec<C>,
    steps: &str,
    output: &mut String,
) -> Result<(), NoMemory> {
    let mut bench = bench_with(alloc, shelf)?;
    add_steps(alloc, &mut bench, steps, output)
}

// Does what `type` does where memory is refused.
fn type_without_memory(core: Core, args: Args) -> Ran
    requires { Fits TypeText args }
    ensures { Does TypeText core args result }
{
    drop(args);
    Ran {
        core,
        cost: Err(AllocError),
    }
}

/// The result of each step, separated by blanks. The shelf has two closures for `type`: one that costs its
/// whole budget, and one that is refused memory. The boxes are created here, since the gate refuses a
/// function that returns boxed closures.
pub(crate) fn steps(alloc: Global, steps: &str) -> Result<String, NoMemory> {
    let costly: Run = Box::new(
        alloc,
        |core: Core, args: Args| -> Ran
            requires { Fits TypeText args }
            ensures { Does TypeText core args result }
        { at_budget(Native::TypeText, core, args) },
    )?;
    let refused: Run = Box::new(
        alloc,
        |core: Core, args: Args| -> Ran
            requires { Fits TypeText args }
            ensures { Does TypeText core args result }
        { type_without_memory(core, args) },
    )?;
    let mut shelf = Vec::new(alloc);
    shelf.push(NativeCommand::new(Native::TypeText, costly))?;
    shelf.push(NativeCommand::new(Native::TypeText, refused))?;
    let mut output = String::new(alloc);
    add_steps_over(alloc, shelf, steps, &mut output)?;
    Ok(output)
}
