//! The execution of a command.
ghost use Rattle.std.specs.Prelude.{◌≡◌, ℕ, List, [], IfOk, OnErr, IsTrue, Some, None, option_map};
ghost use Rattle.serde_json.specs.View.{view};
ghost use Rattle.kb_code.specs.Commands.{Table, Plain, Coded};
ghost use Rattle.kb_core.specs.Core.{Core};
ghost use Rattle.kb_core.specs.Native.{Fits, named, parameters_of};
ghost use Rattle.kb_registry.specs.Live.{callee};
ghost use Rattle.kb_execute.specs.HeldCore.{outcome};
ghost use Rattle.kb_vm.specs.Meaning.{Answer};
ghost use Rattle.kb_vm.specs.Outcome.{Ends};
ghost use Rattle.kb_stream.specs.Lines.{Begins};
ghost use Rattle.kb_execute.specs.Start.{started, started_as, started_with, behind, ran, start_of};
ghost use Rattle.kb_execute.specs.Start.{start_live, stops};

use crate::held_core::{Ended, HeldCore};
use crate::run_commands::start_list;
use kb_base::NoMemory;
use kb_code::Linked;
use kb_core::{Args, Core, Native};
use kb_registry::{HostCommand, Registered, Registry};
use kb_stream::Lines;
use kb_trace::lines;
use kb_vm::End;
use serde_json::Value;
use std::alloc::{AllocError, Global};

/// How the execution of a command ended.
#[derive(Clone, Copy, Debug, PartialEq, Eq)]
pub enum Finish {
    /// The command completed.
    Done,
    /// No live command has the identifier.
    NotFound,
    /// The arguments don't fit the command.
    BadArguments,
    /// A handler trapped.
    Trapped,
}

impl Finish {
    /// Whether a session stops behind this end: a handler trapped.
    pub fn stops(self) -> bool
        ensures { result ≡ stops self }
    {
        match self {
            Finish::Trapped => true,
            Finish::Done | Finish::NotFound | Finish::BadArguments => false,
        }
    }
}

/// Runs a command with the arguments of a rule, as JSON, and adds its trace lines. On `NoMemory` the core may
/// be half done, and the old lines are still there, before any new ones.
#[tactic(auto, using(kb_stream::proofs::Undoing::undoing), unfolding(crate::specs::Start::start_of))]
pub fn start_command<C: HostCommand>(
    alloc: Global,
    command: &str,
    given: Option<&Value>,
    registry: &Registry<C>,
    core: &mut HeldCore,
    trace: &mut Lines,
) -> Result<Finish, NoMemory>
    ensures ok { let given = option_map (λ v. view v.now) given.entry in
        IfOk result (λ finish. started core.new trace.new finish
        ≡ behind trace.old (start_of command.now given registry.now core.old)) }
    ensures err { OnErr result (Begins trace.old trace.new) }
{
    if command == "runCommands" {
        return start_list(alloc, given, registry, core, trace);
    }
    start_live(alloc, command, given, registry, core, trace)
}

/// Runs a live command and adds its trace lines. On `NoMemory` the old lines are still there, before
/// any new ones.
pub(crate) fn start_live<C: HostCommand>(
    alloc: Global,
    command: &str,
    given: Option<&Value>,
    registry: &Registry<C>,
    core: &mut HeldCore,
    trace: &mut Lines,
) -> Result<Finish, NoMemory>
    ensures ok { let given = option_map (λ v. view v.now) given.entry in
        IfOk result (λ finish. started core.new trace.new finish
        ≡ behind trace.old (start_live command.now given registry.now core.old)) }
    ensures err { OnErr result (Begins trace.old trace.new) }
{
    match Native::named(command) {
        Some(native) => start_native(alloc, command, native, given, registry, core, trace),
        None => start_handler(alloc, command, given, registry, core, trace),
    }
}

/// Runs the native command of an identifier, if it has a registered closure, and adds the trace lines. On
/// `NoMemory` the lines are unchanged.
fn start_native<C: HostCommand>(
    alloc: Global,
    command: &str,
    native: Native,
    given: Option<&Value>,
    registry: &Registry<C>,
    core: &mut HeldCore,
    trace: &mut Lines,
) -> Result<Finish, NoMemory>
    requires { named command.now ≡ Some native }
    ensures ok { let given = option_map (λ v. view v.now) given.entry in
        IfOk result (λ finish. started core.new trace.new finish
        ≡ behind trace.old (start_live command.now given registry.now core.old)) }
    ensures err { OnErr result (trace.new ≡ trace.old) }
{
    match registry.closure(native) {
        Some(closure) => run_native(alloc, command, &closure, given, core, trace),
        None => {
            lines::not_found_line(trace, command)?;
            Ok(Finish::NotFound)
        }
    }
}

/// Runs the live handler with a name that is no native command's, if there is one, and adds the trace
/// lines.
#[tactic(auto, using(crate::proofs::StartLemmas::found_by_name))]
fn start_handler<C: HostCommand>(
    alloc: Global,
    command: &str,
    given: Option<&Value>,
    registry: &Registry<C>,
    core: &mut HeldCore,
    trace: &mut Lines,
) -> Result<Finish, NoMemory>
    requires { named command.now ≡ None }
    ensures ok { let given = option_map (λ v. view v.now) given.entry in
        IfOk result (λ finish. started core.new trace.new finish
        ≡ behind trace.old (start_live command.now given registry.now core.old)) }
    ensures err { OnErr result (Begins trace.old trace.new) }
{
    match registry.linked(command) {
        Some(handler) => run_handler(alloc, command, handler, given, registry, core, trace),
        None => {
            lines::not_found_line(trace, command)?;
            Ok(Finish::NotFound)
        }
    }
}

/// Runs a host's closure, if the arguments fit, and adds the trace lines. On `NoMemory` the lines are
/// unchanged.
#[tactic(auto, using(crate::proofs::StartLemmas::bare_fits))]
fn run_native<C: HostCommand>(
    alloc: Global,
    command: &str,
    closure: &Registered<'_, C>,
    given: Option<&Value>,
    core: &mut HeldCore,
    trace: &mut Lines,
) -> Result<Finish, NoMemory>
    ensures ok { (table : Table) → let given = option_map (λ v. view v.now) given.entry in
        IfOk result (λ finish. started core.new trace.new finish ≡ behind trace.old
        (started_as table command.now (Some (Plain closure.now)) given core.old)) }
    ensures err { OnErr result (trace.new ≡ trace.old) }
{
    if is_bare(closure.native()) {
        return run_with(closure, Args::new(alloc), core, trace);
    }
    run_given(alloc, command, closure, given, core, trace)
}

/// Whether a native command has no parameters, so that any value gives it the empty list of arguments. Only
/// for speed: nothing is read then.
fn is_bare(native: Native) -> bool
    ensures { IsTrue result → parameters_of native ≡ [] }
{
    native.params().is_empty()
}

/// Reads the arguments of a host's closure, runs it if they fit, and adds the trace lines.
fn run_given<C: HostCommand>(
    alloc: Global,
    command: &str,
    closure: &Registered<'_, C>,
    given: Option<&Value>,
    core: &mut HeldCore,
    trace: &mut Lines,
) -> Result<Finish, NoMemory>
    ensures ok { (table : Table) → let given = option_map (λ v. view v.now) given.entry in
        IfOk result (λ finish. started core.new trace.new finish ≡ behind trace.old
        (started_as table command.now (Some (Plain closure.now)) given core.old)) }
    ensures err { OnErr result (trace.new ≡ trace.old) }
{
    let Some(args) = closure.native().read_args(alloc, given)? else {
        lines::bad_arguments_line(trace, command)?;
        return Ok(Finish::BadArguments);
    };
    run_with(closure, args, core, trace)
}

/// Runs a host's closure with arguments that fit, and adds the line of its end. On `NoMemory` the lines are
/// unchanged.
fn run_with<C: HostCommand>(
    closure: &Registered<'_, C>,
    args: Args,
    core: &mut HeldCore,
    trace: &mut Lines,
) -> Result<Finish, NoMemory>
    requires fits { Fits closure.now args }
    ensures ok { (table : Table) → (command : List ℕ) → IfOk result (λ finish.
        started core.new trace.new finish ≡ behind trace.old
        (started_with table command (Plain closure.now) (Some args) core.old)) }
    ensures err { OnErr result (trace.new ≡ trace.old) }
{
    core.run(closure, args)?;
    lines::done_line(trace, core.core().buffer())?;
    Ok(Finish::Done)
}

/// Runs a live handler, if the arguments fit, and adds the trace lines.
fn run_handler<'r, C: HostCommand>(
    alloc: Global,
    command: &str,
    handler: Linked<'r>,
    given: Option<&Value>,
    registry: &'r Registry<C>,
    core: &mut HeldCore,
    trace: &mut Lines,
) -> Result<Finish, NoMemory>
    requires live { callee command.now registry.now ≡ Some (Coded handler) }
    requires named { handler.command ≡ command.now }
    ensures ok { let given = option_map (λ v. view v.now) given.entry in
        IfOk result (λ finish. started core.new trace.new finish
        ≡ behind trace.old (start_live command.now given registry.now core.old)) }
    ensures err { OnErr result (Begins trace.old trace.new) }
{
    let Some(args) = handler.handler().signature().read_args(alloc, given)? else {
        lines::bad_arguments_line(trace, command)?;
        return Ok(Finish::BadArguments);
    };
    let ended = core.start_coded(alloc, registry, handler, args);
    note_end(&ended, core.core(), trace)
}

/// Adds the trace lines of a run that ended with this core.
fn note_end(ended: &Ended<'_>, core: &Core, trace: &mut Lines) -> Result<Finish, NoMemory>
    requires { (first : Core) × (answer : Answer)
        × Ends first answer (outcome core.now ended.now) ended.now.finish }
    ensures ok { (first : Core) → (answer : Answer)
        → Ends first answer (outcome core.now ended.now) ended.now.finish
        → IfOk result (λ finish. started core.now trace.new finish ≡ behind trace.old (ran answer)) }
    ensures err { OnErr result (Begins trace.old trace.new) }
{
    match ended.finish {
        End::NoMemory => Err(AllocError),
        End::NotFound => unreachable!(),
        End::Done => {
            trace.append(&ended.lines)?;
            lines::done_line(trace, core.buffer())?;
            Ok(Finish::Done)
        }
        End::Trap(trap, command, place) => {
            trace.append(&ended.lines)?;
            lines::trap_line(trace, trap.kind(), command, place)?;
            Ok(Finish::Trapped)
        }
    }
}
