//! The interface through which the virtual machine finds live commands.
ghost use Rattle.std.specs.Prelude.{◌≡◌, ◌<◌, ◌≤◌, ℕ, List, Option, length, slice_get, Some, option_map};
ghost use Rattle.kb_core.specs.Native.{Fits, named};
ghost use Rattle.kb_core.specs.Ran.{Does};
ghost use Rattle.kb_code.specs.Commands.{Callee, IsLive, declared_by};
ghost use Rattle.kb_code.specs.Found.{callee_of};
ghost use Rattle.kb_code.specs.Target.{natives_in, natives_of};

use crate::handler::Handler;
use crate::target::Target;
use kb_base::Text;
use kb_core::{Args, Core, Native, Ran};
use std::marker::Model;

/// A borrowed live handler with the resolved target of each name in its list of calls, so that a call
/// needs no lookup by name. Contracts see the handler.
#[derive(Drop)]
pub struct Linked<'r> {
    handler: &'r Handler,
    targets: &'r [Target],
}

impl<'r> Model for Linked<'r> {
    ghost use Rattle.std.specs.Prelude.{◌≡◌};
    ghost use Rattle.kb_code.specs.Handler.{HandlerData};
    ghost use Rattle.kb_code.specs.Target.{natives_in, natives_of};

    ghost Value = { HandlerData };

    ghost view = { λ l. l.handler.now };

    ghost invariant = { λ l. natives_in l.targets.now ≡ natives_of l.handler.now };
}

impl<'r> Linked<'r> {
    /// A handler with the target of each name in its list of calls.
    pub fn new(handler: &'r Handler, targets: &'r [Target]) -> Linked<'r>
        requires { natives_in targets.now ≡ natives_of handler.now }
        ensures { result ≡ handler.now }
    {
        Linked { handler, targets }
    }

    /// The handler.
    pub fn handler(&self) -> &'r Handler
        ensures { result.now ≡ self.now }
    {
        self.handler
    }

    /// The name at an index of the list of calls, and its target.
    pub fn call(&self, index: usize) -> (&'r Text, Target)
        requires { index < length self.now.calls }
        ensures name { slice_get self.now.calls index ≡ Some result.0.now }
        ensures native { result.1.native ≡ named result.0.now }
    {
        (&self.handler.calls()[index], self.targets[index])
    }
}

/// A live command.
#[derive(Drop)]
pub enum Found<'r> {
    /// A native command with a registered closure.
    Plain(Native),
    /// A command implemented by a handler.
    Coded(Linked<'r>),
}

impl<'r> Found<'r> {
    /// The number of the command's parameters.
    pub fn params(&self) -> usize
        ensures params { result ≡ length (declared_by (callee_of self.now)).params }
        ensures few { result ≤ 8 }
    {
        match self {
            Found::Plain(native) => native.params().len(),
            Found::Coded(linked) => linked.handler().signature().params().len(),
        }
    }

    /// The maximum cost of a run of the command, in instructions and costs of native commands.
    pub fn budget(&self) -> u32
        ensures { result ≡ (declared_by (callee_of self.now)).budget }
    {
        match self {
            Found::Plain(native) => native.budget(),
            Found::Coded(linked) => linked.handler().signature().budget(),
        }
    }

    /// The maximum nesting depth of the command's calls; 0 for a native command.
    pub fn depth(&self) -> u8
        ensures { result ≡ (declared_by (callee_of self.now)).depth }
    {
        match self {
            Found::Plain(_) => 0,
            Found::Coded(linked) => linked.handler().signature().depth(),
        }
    }
}

/// The live commands of a host.
pub trait Commands {
    ghost live: { Self → List ℕ → Option Callee };

    /// The live command with this name, or `None`. `target` is the name's resolved target.
    fn command(&self, name: &str, target: Target) -> Option<Found<'_>>
        requires { target.native ≡ named name.now }
        ensures { option_map callee_of result ≡ live self.now name.now };

    /// Runs the closure of a live native command with arguments that fit it. The cost is at most the
    /// command's budget. Error: `NoMemory`; the core is then unchanged.
    fn call(&self, native: Native, core: Core, args: Args) -> Ran
        requires live { IsLive (live self.now) native }
        requires fits { Fits native args }
        ensures { Does native core args result };
}
