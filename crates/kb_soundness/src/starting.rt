//! The start of a command among verified handlers.
ghost use Rattle.std.specs.Prelude.{◌≡◌, ◌≤◌, IfSome, Some, true};
ghost use Rattle.kb_code.specs.Commands.{Coded, declared_by};
ghost use Rattle.kb_core.specs.Signature.{fits};
ghost use Rattle.kb_vm.specs.Meaning.{start_of};
ghost use Rattle.kb_vm.specs.Outcome.{Gives};
ghost use Rattle.kb_soundness.specs.Sound.{AllVerified, Fits, IsNoTrap};

use kb_code::{Commands, Linked};
use kb_core::{Args, Core};
use kb_vm::Outcome;
use std::alloc::Global;

/// Starts a command as `kb_vm::start` does, also where memory is refused. If each live handler is verified, a
/// start with fitting arguments never ends with a trap, in each state of the core (our decision).
pub fn start<'r, L: Commands>(
    alloc: Global,
    commands: &'r L,
    command: &'r str,
    args: Args,
    core: Core,
) -> Outcome<'r>
    ensures answer { Gives (start_of (L.live commands.now) command.now args core) core result }
    ensures bound { IfSome (L.live commands.now command.now)
        (λ callee. result.spent ≤ (declared_by callee).budget) }
    ensures sound { AllVerified (L.live commands.now) → Fits (L.live commands.now) command.now args
        → IsNoTrap result.finish }
{
    kb_vm::start(alloc, commands, command, args, core)
}

/// Runs a live handler with arguments that fit it, as `kb_vm::start_coded` does, also where memory is
/// refused. If each live handler is verified, it never ends with a trap, in each state of the core (our
/// decision).
pub fn start_coded<'r, L: Commands>(
    alloc: Global,
    commands: &'r L,
    handler: Linked<'r>,
    args: Args,
    core: Core,
) -> Outcome<'r>
    requires live { L.live commands.now handler.command ≡ Some (Coded handler) }
    requires fit { fits handler.signature.params args ≡ true }
    ensures answer { Gives (start_of (L.live commands.now) handler.entry.command args core) core result }
    ensures bound { result.spent ≤ handler.entry.signature.budget }
    ensures sound { AllVerified (L.live commands.now) → IsNoTrap result.finish }
{
    kb_vm::start_coded(alloc, commands, handler, args, core)
}
