//! Reading arguments from JSON, by the parameters of a command.
ghost use Rattle.std.specs.Prelude.{◌≡◌, ◌≤◌, IfOk, [], ◌∷◌, length, map, option_map, Some};
ghost use Rattle.serde_json.specs.View.{view};
ghost use Rattle.kb_core.specs.Arg.{empty_of};
ghost use Rattle.kb_core.specs.Declaration.{parameter_limit};
ghost use Rattle.kb_core.specs.Reading.{plain_of, arg_of, member_arg, object_args, lone_arg, arguments_for};
ghost use Rattle.kb_core.specs.Signature.{fits};

use crate::arg::{Arg, Kind};
use crate::args::Args;
use crate::parameter::{Param, Parameter};
use kb_base::{NoMemory, Text};
use serde_json::Value;
use std::alloc::Global;

/// Whether the arguments fit the parameters: one for each, of its kind.
pub(crate) fn fits(params: &[Param], args: &[Arg]) -> bool
    ensures { result ≡ fits params.now args.now }
{
    if params.len() != args.len() {
        return false;
    }
    for (i, param) in params.iter().enumerate() {
        if !param.kind.takes(&args[i]) {
            return false;
        }
    }
    true
}

/// The argument for a text, an integer or a boolean; `None` for any other value. Error: `NoMemory`.
fn plain_of(alloc: Global, value: &Value) -> Result<Option<Arg>, NoMemory>
    ensures { IfOk result (λ arg. arg ≡ plain_of (view value.now)) }
{
    match value {
        Value::String(text) => Ok(Some(Arg::Text(Text::from_str(alloc, text.as_str())?))),
        Value::Number(number) => Ok(number.as_i64().map(Arg::Number)),
        Value::Bool(truth) => Ok(Some(Arg::Truth(*truth))),
        Value::Null | Value::Array(_) | Value::Object(_) => Ok(None),
    }
}

/// The argument for a value, or `None` if it is not of the kind. Error: `NoMemory`.
fn arg_of(alloc: Global, kind: Kind, value: &Value) -> Result<Option<Arg>, NoMemory>
    ensures { IfOk result (λ arg. arg ≡ arg_of kind (view value.now)) }
{
    match plain_of(alloc, value)? {
        Some(arg) if kind.takes(&arg) => Ok(Some(arg)),
        _ => Ok(None),
    }
}

/// The argument for a member of an object: the empty value of the kind if the member is absent or `null`,
/// and `None` if it is not of the kind. Error: `NoMemory`.
fn member_arg(alloc: Global, kind: Kind, member: Option<&Value>) -> Result<Option<Arg>, NoMemory>
    ensures { IfOk result (λ arg. arg ≡ member_arg kind (option_map (λ v. view v.now) member.entry)) }
{
    match member {
        None | Some(Value::Null) => Ok(Some(kind.empty(alloc))),
        Some(value) => arg_of(alloc, kind, value),
    }
}

/// The member of each parameter's name, or `None` if one is not of its kind. Error: `NoMemory`.
fn object_args<P: Parameter>(
    alloc: Global,
    params: &[P],
    object: &Value,
) -> Result<Option<Args>, NoMemory>
    requires { length params.now ≤ parameter_limit }
    ensures { IfOk result (λ args. args ≡ object_args (view object.now) (map P.declares params.now)) }
{
    let mut args = Args::new(alloc);
    for param in params {
        let member = object.get(param.name());
        match member_arg(alloc, param.kind(), member)? {
            Some(arg) => args.push(arg)?,
            None => return Ok(None),
        }
    }
    Ok(Some(args))
}

/// The empty value for each parameter. Error: `NoMemory`.
fn empty_args<P: Parameter>(alloc: Global, params: &[P]) -> Result<Args, NoMemory>
    requires { length params.now ≤ parameter_limit }
    ensures { IfOk result (λ args. args ≡ map (λ p. empty_of p.kind) (map P.declares params.now)) }
{
    let mut args = Args::new(alloc);
    for param in params {
        args.push(param.kind().empty(alloc))?;
    }
    Ok(args)
}

/// The value as the only argument, or `None` if it is not of the kind. Error: `NoMemory`.
fn only_arg(alloc: Global, kind: Kind, value: &Value) -> Result<Option<Args>, NoMemory>
    ensures { IfOk result (λ args. args ≡ option_map (λ a. a ∷ []) (arg_of kind (view value.now))) }
{
    let Some(arg) = arg_of(alloc, kind, value)? else {
        return Ok(None);
    };
    let mut args = Args::new(alloc);
    args.push(arg)?;
    Ok(Some(args))
}

/// A text, an integer or a boolean for the only parameter; `None` if it does not fit or there are more
/// parameters. Error: `NoMemory`.
fn lone_arg<P: Parameter>(
    alloc: Global,
    params: &[P],
    value: &Value,
) -> Result<Option<Args>, NoMemory>
    ensures { IfOk result (λ args. args ≡ lone_arg (map P.declares params.now) (view value.now)) }
{
    match params {
        [param] => only_arg(alloc, param.kind(), value),
        _ => Ok(None),
    }
}

/// The arguments that a JSON value gives; see `Signature::read_args` for the rules. Error: `NoMemory`.
pub(crate) fn arguments_for<P: Parameter>(
    alloc: Global,
    params: &[P],
    value: Option<&Value>,
) -> Result<Option<Args>, NoMemory>
    requires { length params.now ≤ parameter_limit }
    ensures { let given = option_map (λ v. view v.now) value.entry in
        IfOk result (λ args. args ≡ arguments_for (map P.declares params.now) given) }
{
    if params.is_empty() {
        return Ok(Some(Args::new(alloc)));
    }
    match value {
        None | Some(Value::Null) => Ok(Some(empty_args(alloc, params)?)),
        Some(value) => {
            if value.is_object() {
                return object_args(alloc, params, value);
            }
            lone_arg(alloc, params, value)
        }
    }
}
