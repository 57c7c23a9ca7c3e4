//! The arguments of a call.
ghost use Rattle.std.specs.Prelude.{◌≡◌, ◌≤◌, [], length, map, IfOk, option_map, slice_get};
ghost use Rattle.kb_core.specs.Arg.{is_of};
ghost use Rattle.kb_core.specs.Parameter.{declared};
ghost use Rattle.kb_core.specs.Signature.{fits};
ghost use Rattle.kb_code.specs.Commands.{declared_by};
ghost use Rattle.kb_code.specs.Found.{callee_of};
ghost use Rattle.kb_vm.specs.Operand.{arg_of};

use crate::operands::Operand;
use kb_base::{NoMemory, Text};
use kb_code::Found;
use kb_core::{Arg, Args, Kind, NamedKind, Param};
use std::alloc::Global;
use std::marker::Model;

/// The largest number of arguments of a call.
const ROOM: usize = 8;

/// The arguments of a call, with borrowed texts. Contracts see their list.
#[derive(Drop)]
pub(crate) struct Given<'a> {
    items: Vec<Operand<'a>>,
}

impl<'a> Model for Given<'a> {
    ghost use Rattle.std.specs.Prelude.{◌≤◌, List, length, map, vec_capacity};
    ghost use Rattle.kb_core.specs.declared.arg.Arg.{Arg};
    ghost use Rattle.kb_vm.specs.Operand.{arg_of};

    ghost Value = { List Arg };

    ghost view = { λ g. map arg_of g.items.items };

    ghost invariant = { λ g. (8 ≤ vec_capacity g.items) × (length g.items.items ≤ 8) };
}

impl<'a> Given<'a> {
    /// No arguments, with capacity for 8.
    pub(crate) fn new(alloc: Global) -> Result<Given<'a>, NoMemory>
        ensures { IfOk result (λ given. given ≡ []) }
    {
        Ok(Given {
            items: Vec::with_capacity(alloc, ROOM)?,
        })
    }

    /// Replaces the arguments with others, at most 8.
    pub(crate) fn refill(&mut self, values: &[Operand<'a>])
        requires { length values.now ≤ 8 }
        ensures { self.new ≡ map arg_of values.now }
    {
        self.items.clear();
        self.items.extend_from_slice(values).unwrap();
    }

    /// The arguments of a list, borrowed.
    pub(crate) fn lent(alloc: Global, args: &'a [Arg]) -> Result<Given<'a>, NoMemory>
        requires { length args.now ≤ 8 }
        ensures { IfOk result (λ given. given ≡ args.now) }
    {
        let mut items = Vec::with_capacity(alloc, ROOM)?;
        for arg in args {
            items.push(lent(arg))?;
        }
        Ok(Given { items })
    }

    /// The arguments, in order.
    pub(crate) fn as_slice(&self) -> &[Operand<'a>]
        ensures items { map arg_of result.now ≡ self.now }
        ensures few { length self.now ≤ 8 }
    {
        self.items.as_slice()
    }

    /// The argument at an index, or `None` if there is no such argument.
    pub(crate) fn get(&self, index: usize) -> Option<Operand<'a>>
        ensures { option_map arg_of result ≡ slice_get self.now index }
    {
        self.items.get(index).copied()
    }

    /// The arguments with copied texts, as a closure takes them.
    pub(crate) fn owned(&self, alloc: Global) -> Result<Args, NoMemory>
        requires { length self.now ≤ 8 }
        ensures { IfOk result (λ args. args ≡ self.now) }
    {
        let mut args = Args::new(alloc);
        for item in &self.items {
            args.push(owned(alloc, *item)?)?;
        }
        Ok(args)
    }
}

/// Whether operands fit the parameters of a command.
pub(crate) fn fits(callee: &Found<'_>, values: &[Operand<'_>]) -> bool
    ensures { result ≡ fits (declared_by (callee_of callee.now)).params (map arg_of values.now) }
{
    match callee {
        Found::Plain(native) => fits_named(native.params(), values),
        Found::Coded(linked) => fits_params(linked.handler().signature().params(), values),
    }
}

/// Whether arguments fit the parameters of a command.
pub(crate) fn args_fit(callee: &Found<'_>, args: &Args) -> bool
    ensures { result ≡ fits (declared_by (callee_of callee.now)).params args.now }
{
    match callee {
        Found::Plain(native) => args_fit_named(native.params(), args.as_slice()),
        Found::Coded(linked) => linked.handler().signature().fits(args),
    }
}

/// An argument as an operand with a borrowed text.
fn lent(arg: &Arg) -> Operand<'_>
    ensures { arg_of result ≡ arg.now }
{
    match arg {
        Arg::Text(text) => Operand::Text(text.as_str()),
        Arg::Number(number) => Operand::Number(*number),
        Arg::Truth(truth) => Operand::Truth(*truth),
    }
}

/// An operand as an argument with a copied text.
fn owned(alloc: Global, operand: Operand<'_>) -> Result<Arg, NoMemory>
    ensures { IfOk result (λ arg. arg ≡ arg_of operand.entry) }
{
    match operand {
        Operand::Text(text) => Ok(Arg::Text(Text::from_str(alloc, text)?)),
        Operand::Number(number) => Ok(Arg::Number(number)),
        Operand::Truth(truth) => Ok(Arg::Truth(truth)),
    }
}

/// Whether a parameter of a kind accepts a value.
fn takes(kind: Kind, operand: Operand<'_>) -> bool
    ensures { result ≡ is_of kind (arg_of operand.entry) }
{
    match (kind, operand) {
        (Kind::Any, _) => true,
        (Kind::Text, Operand::Text(_)) => true,
        (Kind::Number, Operand::Number(_)) => true,
        (Kind::Truth, Operand::Truth(_)) => true,
        _ => false,
    }
}

/// Whether operands fit parameters.
fn fits_params(params: &[Param], given: &[Operand<'_>]) -> bool
    ensures { result ≡ fits params.now (map arg_of given.now) }
{
    if params.len() != given.len() {
        return false;
    }
    for (i, param) in params.iter().enumerate() {
        if !takes(param.kind, given[i]) {
            return false;
        }
    }
    true
}

/// Whether operands fit the parameters of a native command.
fn fits_named(params: &[NamedKind], given: &[Operand<'_>]) -> bool
    ensures { result ≡ fits (map declared params.now) (map arg_of given.now) }
{
    if params.len() != given.len() {
        return false;
    }
    for (i, param) in params.iter().enumerate() {
        if !takes(param.kind, given[i]) {
            return false;
        }
    }
    true
}

/// Whether arguments fit the parameters of a native command.
fn args_fit_named(params: &[NamedKind], args: &[Arg]) -> bool
    ensures { result ≡ fits (map declared params.now) args.now }
{
    if params.len() != args.len() {
        return false;
    }
    for (i, param) in params.iter().enumerate() {
        if !takes(param.kind, lent(&args[i])) {
            return false;
        }
    }
    true
}
