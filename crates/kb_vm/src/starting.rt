//! The start of a command.
ghost use Rattle.std.specs.Prelude.{◌≡◌, ◌≤◌, [], IfSome, Some, true, is_ok, slice_get};
ghost use Rattle.kb_core.specs.Native.{budget_of, parameters_of};
ghost use Rattle.kb_core.specs.Signature.{fits};
ghost use Rattle.kb_vm.specs.Action.{IsCallable};
ghost use Rattle.kb_code.specs.Commands.{Coded, IsLive, declared_by};
ghost use Rattle.kb_code.specs.Found.{callee_of};
ghost use Rattle.kb_vm.specs.Meaning.{Done, first_world, native_called, run, start_callee, start_of};
ghost use Rattle.kb_vm.specs.Outcome.{Ends, Gives};
ghost use Rattle.kb_vm.specs.Position.{outset};
ghost use Rattle.kb_vm.specs.State.{fetched_at};

use crate::arena::Arena;
use crate::given::{Given, args_fit};
use crate::machine::{End, Outcome, run_handler};
use crate::trap::Trap;
use kb_code::{Commands, Found, Linked, Target};
use kb_core::{Args, Core, Native, Ran};
use kb_stream::Lines;
use std::alloc::Global;

/// Runs a command with arguments on a core. A handler runs until it returns, traps (80 to 85), or is refused
/// memory. Each instruction that begins costs 1, also if it traps, and each native command that is started or
/// called costs what its closure reports; the contract knows only that this is from 0 to the native command's
/// budget. The whole budget of a callee is taken from its caller's remaining budget, whatever the callee
/// really costs. So the cost of the run is at most the budget of the started command. Arguments that don't
/// fit the command are a trap at place 0. Memory is refused only before anything is done, or at an
/// instruction that creates a text or calls a command, and a trap takes precedence over refused memory. After
/// a trap or refused memory core, lines and cost are those of that instruction. Without a live command of the
/// name nothing is done (`NotFound`). (All of these are our decisions.)
pub fn start<'r, L: Commands>(
    alloc: Global,
    commands: &'r L,
    command: &'r str,
    args: Args,
    core: Core,
) -> Outcome<'r>
    ensures answer { Gives (start_of (L.live commands.now) command.now args core) core result }
    ensures bound { IfSome (L.live commands.now command.now)
        (λ callee. result.spent ≤ (declared_by callee).budget) }
{
    match commands.command(command, Target::of(Native::named(command))) {
        Some(callee) => start_found(alloc, commands, command, callee, args, core),
        None => unspent(alloc, core, End::NotFound),
    }
}

/// Runs a live handler with arguments that fit it, as `start` runs the command of its name. Nothing is looked
/// up, and the arguments aren't compared with its parameters again. Traps and refused memory are as there.
pub fn start_coded<'r, L: Commands>(
    alloc: Global,
    commands: &'r L,
    handler: Linked<'r>,
    args: Args,
    core: Core,
) -> Outcome<'r>
    requires live { L.live commands.now handler.command ≡ Some (Coded handler) }
    requires fit { fits handler.signature.params args ≡ true }
    ensures answer { Gives (start_of (L.live commands.now) handler.entry.command args core) core result }
    ensures bound { result.spent ≤ handler.entry.signature.budget }
{
    start_handler(alloc, commands, handler, args, core)
}

/// The outcome of a run in which nothing was executed.
fn unspent<'r>(alloc: Global, core: Core, finish: End<'r>) -> Outcome<'r>
    ensures core { result.core ≡ core }
    ensures spent { result.spent ≡ 0 }
    ensures lines { result.lines ≡ [] }
    ensures finish { result.finish ≡ finish.entry }
{
    Outcome {
        core,
        spent: 0,
        lines: Lines::new(alloc),
        finish,
    }
}

/// Runs a live command. Arguments that don't fit are reported before anything is allocated.
fn start_found<'r, L: Commands>(
    alloc: Global,
    commands: &'r L,
    command: &'r str,
    callee: Found<'r>,
    args: Args,
    core: Core,
) -> Outcome<'r>
    requires { IsCallable (L.live commands.now) (callee_of callee) }
    ensures ends { Ends core (start_callee (L.live commands.now) command.now (callee_of callee.entry) args
        (first_world core)) result result.finish }
    ensures bound { result.spent ≤ (declared_by (callee_of callee.entry)).budget }
{
    if !args_fit(&callee, &args) {
        return unspent(alloc, core, End::Trap(Trap::WrongArgument, command, 0));
    }
    match callee {
        Found::Plain(native) => start_native(alloc, commands, native, args, core),
        Found::Coded(handler) => start_handler(alloc, commands, handler, args, core),
    }
}

/// Runs a handler, with arguments that fit it.
fn start_handler<'r, L: Commands>(
    alloc: Global,
    commands: &'r L,
    handler: Linked<'r>,
    args: Args,
    core: Core,
) -> Outcome<'r>
    ensures ends { Ends core (run (L.live commands.now) handler.entry args
        handler.entry.signature.budget outset (first_world core)) result result.finish }
    ensures bound { result.spent ≤ handler.entry.signature.budget }
{
    let begun = handler.handler();
    prove!(begun.signature().budget() > 0);
    if begun.code().instrs().is_empty() {
        let command = begun.command().as_str();
        return unspent(alloc, core, End::Trap(Trap::BadCode, command, 0));
    }
    start_begun(alloc, commands, handler, args, core)
}

/// Runs a handler whose first instruction exists and is within its budget.
fn start_begun<'r, L: Commands>(
    alloc: Global,
    commands: &'r L,
    handler: Linked<'r>,
    args: Args,
    core: Core,
) -> Outcome<'r>
    requires { is_ok (fetched_at (slice_get handler.code 0) handler.signature.budget) ≡ true }
    ensures ends { Ends core (run (L.live commands.now) handler.entry args
        handler.entry.signature.budget outset (first_world core)) result result.finish }
    ensures bound { result.spent ≤ handler.entry.signature.budget }
{
    let arena = Arena::new(alloc);
    let Ok(given) = Given::lent(alloc, args.as_slice()) else {
        return unspent(alloc, core, End::NoMemory);
    };
    run_handler(alloc, &arena, commands, handler, given, core)
}

/// Runs a native command, with arguments that fit it.
fn start_native<'r, L: Commands>(
    alloc: Global,
    commands: &'r L,
    native: Native,
    args: Args,
    core: Core,
) -> Outcome<'r>
    requires live { IsLive (L.live commands.now) native }
    requires fit { fits (parameters_of native) args ≡ true }
    ensures ends { Ends core (Done (native_called native args (first_world core))) result result.finish }
    ensures bound { result.spent ≤ budget_of native }
{
    let Ran { core, cost } = commands.call(native, core, args);
    match cost {
        Ok(cost) => Outcome {
            core,
            spent: u64::from(cost),
            lines: Lines::new(alloc),
            finish: End::Done,
        },
        Err(_) => unspent(alloc, core, End::NoMemory),
    }
}
