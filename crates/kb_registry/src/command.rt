//! Native commands with the closures that a host provides for them.
ghost use Rattle.std.specs.Prelude.{◌≡◌, List};
ghost use Rattle.std.proofs.Props.{props};
ghost use Rattle.kb_core.specs.contracts.core_state.Core as whole;
ghost use Rattle.kb_core.specs.declared.arg.Arg.{Arg};
ghost use Rattle.kb_core.specs.declared.native.Native.{Native};
ghost use Rattle.kb_core.specs.Core.{Core};
ghost use Rattle.kb_core.specs.declared.run.Ran.{Ran};
ghost use Rattle.kb_core.specs.Native.{Fits};
ghost use Rattle.kb_core.specs.Ran.{Does};

use kb_core::{Args, Core, Native, Ran};
use std::marker::Model;

/// The closure that a host provides for a native command. It takes the core and the arguments. It
/// returns the core and the cost of the run, in instructions, or the unchanged core and `NoMemory`.
pub type Run = Box<dyn Fn(Core, Args) -> Ran>;

/// A native command with the host's closure.
#[derive(Drop)]
pub struct NativeCommand {
    native: Native,
    run: Run,
    ghost callable: { (core : Core) (args : List Arg) → Fits native args → Run.pre run core args },
    ghost does: { (core : Core) (args : List Arg) (ran : Ran) → Fits native args
        → Run.post run core args ran
        → Does native core args ran } by { Prim.hlevel (props, whole.the_row.coded) },
}

impl NativeCommand {
    /// A native command that runs a closure. The closure must accept every core with arguments that fit
    /// the native command. It must do what the native command does, at a cost within the native
    /// command's budget, or return the unchanged core with `NoMemory` (our decision).
    pub fn new(native: Native, run: Run) -> NativeCommand
        requires callable { (core : Core) (args : List Arg) → Fits native args → Run.pre run core args }
        requires does { (core : Core) (args : List Arg) (ran : Ran) → Fits native args
            → Run.post run core args ran → Does native core args ran }
        ensures { result.native ≡ native }
    {
        NativeCommand { native, run }
    }

    /// The native command that the closure implements.
    pub fn native(&self) -> Native
        ensures { result ≡ self.now.native }
    {
        self.native
    }
}

/// The permission to call a closure. Only [`Registered::run`] makes one. So a closure is called only while it
/// is registered (our decision).
#[derive(Debug, Drop)]
pub struct Permit(());

/// The interface of a host's command to the engine: which native command it implements, and the
/// guarantee that it does what that native command does.
pub trait HostCommand: Drop {
    ghost stands_for: { Self → Native };

    /// The native command that this command implements.
    fn native(&self) -> Native
        ensures { result ≡ stands_for self.now };

    /// Runs the command on a core, with arguments that fit its native command. The run costs at most
    /// the native command's budget, in instructions, or it returns the unchanged core with `NoMemory`.
    fn call(&self, core: Core, args: Args, permit: Permit) -> Ran
        requires { Fits (stands_for self.now) args }
        ensures { Does (stands_for self.now) core args result };
}

impl HostCommand for NativeCommand {
    ghost stands_for = { λ c. c.native };

    fn native(&self) -> Native {
        self.native
    }

    fn call(&self, core: Core, args: Args, _permit: Permit) -> Ran {
        (self.run)(core, args)
    }
}

/// A closure that is registered. The registry lends it, so it stays registered as long as this value lives.
/// Contracts see its native command.
#[derive(Drop)]
pub struct Registered<'r, C: HostCommand> {
    command: &'r C,
}

impl<'r, C: HostCommand> Model for Registered<'r, C> {
    ghost Value = { Native };

    ghost view = { λ r. C.stands_for r.command.now };
}

impl<'r, C: HostCommand> Registered<'r, C> {
    /// The closure of an entry of the registry.
    pub(crate) fn of(command: &'r C) -> Registered<'r, C>
        ensures { result ≡ C.stands_for command.now }
    {
        Registered { command }
    }

    /// The native command that the closure implements.
    pub fn native(&self) -> Native
        ensures { result ≡ self.now }
    {
        self.command.native()
    }

    /// Runs the closure on a core, with arguments that fit its native command. The run costs at most the
    /// native command's budget, in instructions, or it returns the unchanged core with `NoMemory`.
    pub fn run(&self, core: Core, args: Args) -> Ran
        requires { Fits self.now args }
        ensures { Does self.now core args result }
    {
        self.command.call(core, args, Permit(()))
    }
}
