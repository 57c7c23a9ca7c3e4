//! A core that commands change in place.
ghost use Rattle.std.specs.Prelude.{◌≡◌, ◌≤◌, None, Some, OnOk, OnErr, IfOk, IfErr, IfSome, IsSome, true};
ghost use Rattle.kb_code.specs.Commands.{Coded, declared_by};
ghost use Rattle.kb_core.specs.Core.{core_after};
ghost use Rattle.kb_core.specs.Native.{Fits, budget_of};
ghost use Rattle.kb_core.specs.Signature.{fits};
ghost use Rattle.kb_execute.specs.HeldCore.{outcome};
ghost use Rattle.kb_soundness.specs.Sound as verified;
ghost use Rattle.kb_vm.specs.Meaning.{start_of};
ghost use Rattle.kb_vm.specs.Outcome.{Gives};

use kb_base::{Failure, NoMemory};
use kb_code::{Commands, Linked};
use kb_context::{ContextValue, ScopeFault, UnknownScope};
use kb_core::{Args, Core, Ran};
use kb_registry::{HostCommand, Registered};
use kb_soundness::{start, start_coded};
use kb_stream::Lines;
use kb_vm::{End, Outcome};
use std::alloc::Global;
use std::marker::Model;

/// The result of a start of a live command, without the core.
#[derive(Drop)]
pub struct Ended<'r> {
    /// The cost: the number of instructions that began, plus the costs that native commands reported.
    pub spent: u64,
    /// One trace line for each call, in order.
    pub lines: Lines,
    /// How the run ended.
    pub finish: End<'r>,
}

/// The owner of the core on which commands run. A command takes the core by value and returns it, so
/// `core` is `None` during a run. Contracts see the core, which is present between calls.
#[derive(Debug, Drop)]
pub struct HeldCore {
    core: Option<Core>,
}

impl Model for HeldCore {
    ghost use Rattle.std.specs.Prelude.{IsSome};
    ghost use Rattle.kb_core.specs.Core.{Core};
    ghost use Rattle.kb_core.specs.contracts.core_state.Core as whole;
    ghost use Rattle.kb_execute.specs.HeldCore.{held};

    ghost Value = { Core };

    ghost coded = { whole.the_row.coded };

    ghost view = { λ h. held h.core };

    ghost invariant = { λ h. IsSome h.core };
}

impl HeldCore {
    ghost use Rattle.kb_base.specs.Failure.{IsRefusalOrMemory};
    ghost use Rattle.kb_context.specs.Scopes.{place_of, set_fault, value_in, with_focus, with_value};
    ghost use Rattle.kb_context.specs.Scopes.{without_value};
    ghost use Rattle.kb_core.specs.Core.{with_scopes};

    /// Owns a core.
    pub fn new(core: Core) -> HeldCore
        ensures { result ≡ core }
    {
        HeldCore { core: Some(core) }
    }

    /// The core.
    pub fn core(&self) -> &Core
        ensures { result.now ≡ self.now }
    {
        self.core.as_ref().unwrap()
    }

    /// Runs a host's command with arguments that fit its native command. It returns the cost, in
    /// instructions, which is at most the native command's budget. On `NoMemory` the core is unchanged.
    pub fn run<C: HostCommand>(
        &mut self,
        closure: &Registered<'_, C>,
        args: Args,
    ) -> Result<u32, NoMemory>
        requires fits { Fits closure.now args }
        ensures ok { OnOk result (self.new ≡ core_after closure.now args self.old) }
        ensures err { OnErr result (self.new ≡ self.old) }
        ensures cost { IfOk result (λ cost. cost ≤ budget_of closure.now) }
    {
        let Ran { core, cost } = closure.run(self.core.take().unwrap(), args);
        self.core = Some(core);
        cost
    }

    /// Runs a live command with arguments on this core, as `kb_soundness::start` does: it costs at most the
    /// command's budget, and among verified handlers fitting arguments never end with a trap. Traps and
    /// refused memory are as there; the core is then that of the instruction at which it ended.
    pub fn start<'r, L: Commands>(
        &mut self,
        alloc: Global,
        commands: &'r L,
        command: &'r str,
        args: Args,
    ) -> Ended<'r>
        ensures answer { Gives (start_of (L.live commands.now) command.now args self.old) self.old
            (outcome self.new result) }
        ensures bound { IfSome (L.live commands.now command.now)
            (λ callee. result.spent ≤ (declared_by callee).budget) }
        ensures sound { verified.AllVerified (L.live commands.now)
            → verified.Fits (L.live commands.now) command.now args → verified.IsNoTrap result.finish }
    {
        let Outcome {
            core,
            spent,
            lines,
            finish,
        } = start(alloc, commands, command, args, self.core.take().unwrap());
        self.core = Some(core);
        Ended {
            spent,
            lines,
            finish,
        }
    }

    /// Runs a live handler with arguments that fit it on this core, as `kb_soundness::start_coded` does: it
    /// costs at most the handler's budget, and among verified handlers it never ends with a trap. Traps and
    /// refused memory are as there.
    pub fn start_coded<'r, L: Commands>(
        &mut self,
        alloc: Global,
        commands: &'r L,
        handler: Linked<'r>,
        args: Args,
    ) -> Ended<'r>
        requires live { L.live commands.now handler.command ≡ Some (Coded handler) }
        requires fit { fits handler.signature.params args ≡ true }
        ensures answer { Gives (start_of (L.live commands.now) handler.entry.command args self.old) self.old
            (outcome self.new result) }
        ensures bound { result.spent ≤ handler.entry.signature.budget }
        ensures sound { verified.AllVerified (L.live commands.now) → verified.IsNoTrap result.finish }
    {
        let Outcome {
            core,
            spent,
            lines,
            finish,
        } = start_coded(alloc, commands, handler, args, self.core.take().unwrap());
        self.core = Some(core);
        Ended {
            spent,
            lines,
            finish,
        }
    }

    /// Makes the flat map of the core's scopes, as `Scopes::refresh` does. It changes nothing else. Error:
    /// `NoMemory`.
    pub fn refresh(&mut self) -> Result<(), NoMemory>
        ensures { self.new ≡ self.old }
    {
        self.core.as_mut().unwrap().refresh()
    }

    /// Gives the focus to a scope. Error: `UnknownScope` (20) if no scope has the name; the core is then
    /// unchanged.
    pub fn focus(&mut self, scope: &str) -> Result<(), UnknownScope>
        ensures known { OnOk result (IsSome (place_of scope.now self.old.scopes.scopes)) }
        ensures ok { OnOk result (self.new ≡ with_scopes self.old (with_focus self.old.scopes scope.now)) }
        ensures unknown { OnErr result (place_of scope.now self.old.scopes.scopes ≡ None) }
        ensures unchanged { OnErr result (self.new ≡ self.old) }
    {
        self.core.as_mut().unwrap().focus(scope)
    }

    /// Sets a key in the scope that is named `scope`. Errors: `UnknownScope` (20), `TooManyKeys` (22), and
    /// `NoMemory` only if the scope lacks the key and neither of the others applies; the core is then
    /// unchanged.
    pub fn set_key(
        &mut self,
        scope: &str,
        key: &str,
        value: ContextValue,
    ) -> Result<(), Failure<ScopeFault>>
        ensures allowed { OnOk result (set_fault self.old.scopes scope.now key.now ≡ None) }
        ensures ok { OnOk result
            (self.new ≡ with_scopes self.old (with_value self.old.scopes scope.now key.now value)) }
        ensures err { IfErr result (IsRefusalOrMemory (set_fault self.old.scopes scope.now key.now)) }
        ensures unchanged { OnErr result (self.new ≡ self.old) }
        ensures absent { OnErr result (value_in self.old.scopes scope.now key.now ≡ None) }
    {
        self.core.as_mut().unwrap().set_key(scope, key, value)
    }

    /// Removes a key from the scope that is named `scope`. Error: `UnknownScope` (20) if no scope has the
    /// name; the core is then unchanged.
    pub fn unset_key(&mut self, scope: &str, key: &str) -> Result<(), UnknownScope>
        ensures known { OnOk result (IsSome (place_of scope.now self.old.scopes.scopes)) }
        ensures ok { OnOk result
            (self.new ≡ with_scopes self.old (without_value self.old.scopes scope.now key.now)) }
        ensures unknown { OnErr result (place_of scope.now self.old.scopes.scopes ≡ None) }
        ensures unchanged { OnErr result (self.new ≡ self.old) }
    {
        self.core.as_mut().unwrap().unset_key(scope, key)
    }
}
