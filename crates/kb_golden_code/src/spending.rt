//! What starts of handlers spend, for closures of the host that report a low or a high cost.
ghost use Rattle.kb_core.specs.Native.{Fits};
ghost use Rattle.kb_core.specs.Ran.{Does};
ghost use Rattle.kb_core.specs.declared.native.Native.TheVariants.{TypeText};

use crate::boxed::window;
use crate::verifier::handlers_in;
use kb_base::{NoMemory, Seq};
use kb_code::Handler;
use kb_core::{Args, Core, Native, Ran, at_budget, plain};
use kb_execute::{Ended, HeldCore};
use kb_handler_table::Codes;
use kb_registry::{HostCommand, NativeCommand, Registry, Run};
use kb_vm::End;
use std::alloc::Global;

fn ended_text(alloc: Global, ended: &Ended<'_>) -> Result<String, NoMemory> {
    let spent = ended.spent;
    match &ended.finish {
        End::Done => format!(in alloc; "done {spent}"),
        End::NoMemory => format!(in alloc; "no memory {spent}"),
        End::NotFound => format!(in alloc; "not found {spent}"),
        End::Trap(trap, command, place) => {
            let number = trap.kind().number();
            format!(in alloc; "{number} {command} {place} {spent}")
        }
    }
}

fn spent_on<C: HostCommand>(
    alloc: Global,
    registry: &Registry<C>,
    core: &mut HeldCore,
) -> Result<String, NoMemory> {
    let ended = core.start(alloc, registry, "x.a", Args::new(alloc));
    ended_text(alloc, &ended)
}

fn spent_in<C: HostCommand>(
    alloc: Global,
    registry: &mut Registry<C>,
    command: C,
    handlers: Seq<Handler>,
) -> Result<String, NoMemory> {
    if registry.register(command).is_err() {
        return String::from_str(alloc, "no closure");
    }
    if registry.codes(0).is_some() || registry.register_code(0, Codes::raw(handlers)).is_err() {
        return String::from_str(alloc, "no handlers");
    }
    let mut core = window(alloc)?;
    spent_on(alloc, registry, &mut core)
}

// What a start of `x.a` spends, with this closure for `type`.
fn spent_with<C: HostCommand>(
    alloc: Global,
    command: C,
    handlers: Seq<Handler>,
) -> Result<String, NoMemory> {
    let mut registry = Registry::new(alloc, 1)?;
    spent_in(alloc, &mut registry, command, handlers)
}

fn add_spent<C: HostCommand>(
    alloc: Global,
    command: C,
    bytes: &[u8],
    output: &mut String,
) -> Result<(), NoMemory> {
    let spent = spent_with(alloc, command, handlers_in(alloc, bytes))?;
    let spent = spent.as_str();
    write!(output, ", {spent}")
}

/// How a start of the handler `x.a` of a file ends and what it spends, first with a closure for `type` that
/// costs 1, then with one that costs its whole budget. The boxes are created here, since the gate refuses a
/// function that returns boxed closures.
pub(crate) fn spent(alloc: Global, bytes: &[u8]) -> Result<String, NoMemory> {
    let cheap: Run = Box::new(
        alloc,
        |core: Core, args: Args| -> Ran
            requires { Fits TypeText args }
            ensures { Does TypeText core args result }
        { plain(Native::TypeText, core, args) },
    )?;
    let costly: Run = Box::new(
        alloc,
        |core: Core, args: Args| -> Ran
            requires { Fits TypeText args }
            ensures { Does TypeText core args result }
        { at_budget(Native::TypeText, core, args) },
    )?;
    let cheap = NativeCommand::new(Native::TypeText, cheap);
    let costly = NativeCommand::new(Native::TypeText, costly);
    let mut output = spent_with(alloc, cheap, handlers_in(alloc, bytes))?;
    add_spent(alloc, costly, bytes, &mut output)?;
    Ok(output)
}
