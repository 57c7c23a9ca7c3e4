//! Signatures of commands.
ghost use Rattle.std.specs.Prelude.{◌≡◌, ◌≤◌, IfOk, IfSome, IsTrue, length, option_map};
ghost use Rattle.serde_json.specs.View.{view};
ghost use Rattle.kb_core.specs.Declaration.{parameter_limit, budget_limit, depth_limit};
ghost use Rattle.kb_core.specs.Reading.{arguments_for};
ghost use Rattle.kb_core.specs.Signature.{fits};

use crate::args::Args;
use crate::parameter::Param;
use crate::reading::{arguments_for, fits};
use kb_base::{NoMemory, Seq};
use serde_json::Value;
use std::alloc::Global;
use std::marker::Model;

/// What a command declares: its parameters, the maximum cost of a run, and the maximum nesting depth of
/// its calls. Contracts see the three as a record.
#[derive(Drop)]
pub struct Signature {
    params: Seq<Param>,
    budget: u32,
    depth: u8,
}

impl Model for Signature {
    ghost use Rattle.std.specs.Prelude.{◌≤◌, length};
    ghost use Rattle.kb_core.specs.Declaration.{Declaration, AreWithinLimits};

    ghost Value = { Declaration };

    ghost view = { λ s. record { params = s.params; budget = s.budget; depth = s.depth } };

    ghost invariant = { λ s. AreWithinLimits s.params s.budget s.depth };
}

impl Signature {
    /// A signature within the limits (our decision): at most eight parameters, a budget from 1 to
    /// 1,000,000,000, and a depth up to 64, which is 0 for a command that calls no others.
    pub fn new(params: Seq<Param>, budget: u32, depth: u8) -> Signature
        requires params { length params ≤ parameter_limit }
        requires some_budget { 1 ≤ budget }
        requires budget { budget ≤ budget_limit }
        requires depth { depth ≤ depth_limit }
        ensures { result ≡ record { params = params; budget = budget; depth = depth } }
    {
        Signature {
            params,
            budget,
            depth,
        }
    }

    /// The parameters, in order.
    pub fn params(&self) -> &[Param]
        ensures params { result.now ≡ self.now.params }
        ensures few { length self.now.params ≤ parameter_limit }
    {
        self.params.as_slice()
    }

    /// The maximum cost of a run: the executed instructions plus the costs of the native commands that it
    /// calls.
    pub fn budget(&self) -> u32
        ensures budget { result ≡ self.now.budget }
        ensures some { 1 ≤ result }
        ensures limit { result ≤ budget_limit }
    {
        self.budget
    }

    /// The maximum nesting depth of the command's calls; 0 if it calls no others.
    pub fn depth(&self) -> u8
        ensures depth { result ≡ self.now.depth }
        ensures limit { result ≤ depth_limit }
    {
        self.depth
    }

    /// Whether the arguments fit: one for each parameter, each of its kind.
    pub fn fits(&self, args: &Args) -> bool
        ensures { result ≡ fits self.now.params args.now }
    {
        fits(self.params(), args.as_slice())
    }

    /// Reads the command's arguments from a JSON value. `None` if the value does not fit. Error:
    /// `NoMemory`.
    ///
    /// The rules are our decision. Without parameters, any value gives the empty list. An absent value and
    /// `null` give each parameter the empty value of its kind. An object gives each parameter the member
    /// with its name; an absent member and `null` count as the empty value. A text, an integer or a
    /// boolean fits a command with one parameter. Each value must be of its parameter's kind.
    pub fn read_args(&self, alloc: Global, value: Option<&Value>) -> Result<Option<Args>, NoMemory>
        ensures value { let given = option_map (λ v. view v.now) value.entry in
            IfOk result (λ args. args ≡ arguments_for self.now.params given) }
        ensures fits { IfOk result (λ args. IfSome args (λ args. IsTrue (fits self.now.params args))) }
    {
        arguments_for(alloc, self.params(), value)
    }
}
