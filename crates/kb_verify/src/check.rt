//! The check of one instruction.
ghost use Rattle.std.specs.Prelude.{◌≡◌, ◌<◌, ◌+◌, ◌^◌, ◌∷◌, Ok, length, option_copied, slice_get};
ghost use Rattle.kb_verify.specs.Callable.{declaration_at};
ghost use Rattle.kb_verify.specs.Check.{check, doubled, effect, falls_on, fitted, jumps_on, leads, put};
ghost use Rattle.kb_verify.specs.Check.{swapped, takes, with_param, with_text, without_args, without_one};
ghost use Rattle.kb_verify.specs.Check.{without_two};

use crate::callable::{Callable, SharedSignature};
use crate::fault::Defect;
use crate::shape::Shape;
use kb_base::Text;
use kb_code::{Code, Handler, Instr};
use kb_core::{Kind, Param};

/// The shape after an instruction, computed from the shape before it, or the defect of the instruction.
pub(crate) fn check_instr(
    callable: &Callable,
    handler: &Handler,
    place: usize,
    before: Shape,
    instr: Instr,
) -> Result<Shape, Defect>
    requires { place < length handler.now.code }
    ensures { result ≡ check callable.now handler.now place before instr }
{
    let code = handler.code();
    match apply(callable, handler, instr, before) {
        Ok(after) => {
            leads(code, place, instr)?;
            Ok(after)
        }
        // Control-flow defects (64, 65) take precedence over too many operands (67).
        Err(Defect::TooHigh) => {
            leads(code, place, instr)?;
            Err(Defect::TooHigh)
        }
        Err(defect) => Err(defect),
    }
}

/// The effect of an instruction on a shape, or a defect of its index, its operands or their number.
/// Each arm is one call: the compiler would prepare a temporary value of any arm for each instruction,
/// even if it takes another arm.
fn apply(
    callable: &Callable,
    handler: &Handler,
    instr: Instr,
    shape: Shape,
) -> Result<Shape, Defect>
    ensures { result ≡ fitted (effect callable.now handler.now instr shape) }
{
    match instr {
        Instr::Return => shape.fitted(),
        Instr::Text(n) => with_text(handler.texts().get(usize::from(n)), Kind::Text, shape),
        Instr::Num(_) => shape.with(Kind::Number),
        Instr::Truth(_) => shape.with(Kind::Truth),
        Instr::Arg(n) => with_param(handler.signature().params().get(usize::from(n)), shape),
        Instr::Drop => less_one(Kind::Any, shape),
        Instr::Dup => doubled(shape),
        Instr::Swap => swapped(shape),
        Instr::Add => from_two(Kind::Number, Kind::Number, shape),
        Instr::Sub => from_two(Kind::Number, Kind::Number, shape),
        Instr::Less => from_two(Kind::Number, Kind::Truth, shape),
        Instr::Same => from_two(Kind::Any, Kind::Truth, shape),
        Instr::Not => from_one(Kind::Truth, Kind::Truth, shape),
        Instr::Join => from_two(Kind::Text, Kind::Text, shape),
        Instr::Show => from_one(Kind::Any, Kind::Text, shape),
        Instr::Size => from_one(Kind::Text, Kind::Number, shape),
        Instr::IsTrue => from_one(Kind::Any, Kind::Truth, shape),
        Instr::Number => from_one(Kind::Any, Kind::Number, shape),
        Instr::Jump(_) => shape.fitted(),
        Instr::JumpIfFalse(_) => less_one(Kind::Truth, shape),
        Instr::Call(n) => less_args(signature_at(callable, handler, n), shape),
        Instr::Context(n) => with_text(handler.texts().get(usize::from(n)), Kind::Any, shape),
        Instr::Before => shape.with(Kind::Number),
        Instr::After => shape.with(Kind::Number),
        Instr::Repeat(_) => shape.fitted(),
        Instr::End => shape.fitted(),
    }
}

/// Pops the topmost operand, which must have a kind.
fn less_one(kind: Kind, shape: Shape) -> Result<Shape, Defect>
    ensures { result ≡ fitted (without_one kind shape) }
{
    without_one(kind, shape)?.fitted()
}

/// Pops the arguments of a command.
fn less_args(signature: Option<&SharedSignature>, shape: Shape) -> Result<Shape, Defect>
    ensures { result ≡ fitted (without_args (option_copied signature.entry) shape) }
{
    without_args(signature, shape)?.fitted()
}

/// Pops the topmost operand, which must have the kind `taken`, and pushes the kind `made`.
fn from_one(taken: Kind, made: Kind, shape: Shape) -> Result<Shape, Defect>
    ensures { result ≡ fitted (put made (without_one taken shape)) }
{
    without_one(taken, shape)?.with(made)
}

/// Pops the two topmost operands, which must have the kind `taken`, and pushes the kind `made`.
fn from_two(taken: Kind, made: Kind, shape: Shape) -> Result<Shape, Defect>
    ensures { result ≡ fitted (put made (without_two taken shape)) }
{
    without_two(taken, shape)?.with(made)
}

/// Checks that all exits of an instruction are later places of the code, and that a jump stays in its
/// block.
fn leads(code: &Code, place: usize, instr: Instr) -> Result<(), Defect>
    requires { place < length code.now }
    ensures { result ≡ leads code.now place instr }
{
    match instr {
        Instr::Return => Ok(()),
        Instr::Jump(to) => jumps_on(code, place, usize::from(to)),
        Instr::JumpIfFalse(to) => {
            jumps_on(code, place, usize::from(to))?;
            falls_on(code, place)
        }
        _ => falls_on(code, place),
    }
}

/// Checks that a jump goes to a later place of the code in the same block.
fn jumps_on(code: &Code, place: usize, to: usize) -> Result<(), Defect>
    ensures { result ≡ jumps_on code.now place to }
{
    if place < to && (to < code.instrs().len() && code.same_block(place, to)) {
        Ok(())
    } else {
        Err(Defect::BadJump)
    }
}

/// Checks that the next place is within the code.
fn falls_on(code: &Code, place: usize) -> Result<(), Defect>
    requires { place < length code.now }
    ensures { result ≡ falls_on code.now place }
{
    let size = code.instrs().len();
    if place + 1 < size {
        Ok(())
    } else {
        Err(Defect::FallsOff)
    }
}

/// The signature of the command at an index of the handler's list of calls. `None` if there is no such
/// index, or if the command is not callable.
pub(crate) fn signature_at<'a>(
    callable: &'a Callable,
    handler: &Handler,
    index: u16,
) -> Option<&'a SharedSignature>
    ensures { option_copied result ≡ declaration_at callable.now handler.now index }
{
    match handler.calls().get(usize::from(index)) {
        Some(name) => callable.get(name.as_str()),
        None => None,
    }
}

/// Pushes a kind, if the text exists.
fn with_text(text: Option<&Text>, kind: Kind, shape: Shape) -> Result<Shape, Defect>
    ensures { result ≡ fitted (with_text (option_copied text.entry) kind shape) }
{
    match text {
        Some(_) => shape.with(kind),
        None => Err(Defect::WrongOperand),
    }
}

/// Pushes the kind of a parameter, if the parameter exists.
fn with_param(param: Option<&Param>, shape: Shape) -> Result<Shape, Defect>
    ensures { result ≡ fitted (with_param (option_copied param.entry) shape) }
{
    match param {
        Some(param) => shape.with(param.kind),
        None => Err(Defect::WrongOperand),
    }
}

/// Pushes the topmost kind again.
fn doubled(shape: Shape) -> Result<Shape, Defect>
    ensures { result ≡ fitted (doubled shape) }
{
    match shape.split() {
        Some((kind, _)) => shape.with(kind),
        None => Err(Defect::MissingOperand),
    }
}

/// Exchanges the two topmost kinds.
fn swapped(shape: Shape) -> Result<Shape, Defect>
    ensures { result ≡ fitted (swapped shape) }
{
    let Some((y, rest)) = shape.split() else {
        return Err(Defect::MissingOperand);
    };
    let Some((x, rest)) = rest.split() else {
        return Err(Defect::MissingOperand);
    };
    rest.with(y)?.with(x)
}

/// The shape without its topmost operand, which must have a kind.
fn without_one(kind: Kind, shape: Shape) -> Result<Shape, Defect>
    ensures { result ≡ without_one kind shape }
{
    let Some((x, rest)) = shape.split() else {
        return Err(Defect::MissingOperand);
    };
    if !takes(kind, x) {
        return Err(Defect::WrongOperand);
    }
    Ok(rest)
}

/// The shape without its two topmost operands, which must have a kind.
fn without_two(kind: Kind, shape: Shape) -> Result<Shape, Defect>
    ensures { result ≡ without_two kind shape }
{
    let Some((y, rest)) = shape.split() else {
        return Err(Defect::MissingOperand);
    };
    let Some((x, rest)) = rest.split() else {
        return Err(Defect::MissingOperand);
    };
    if takes(kind, y) && takes(kind, x) {
        Ok(rest)
    } else {
        Err(Defect::WrongOperand)
    }
}

/// The shape without the arguments of a command. The last argument is on top.
fn without_args(signature: Option<&SharedSignature>, shape: Shape) -> Result<Shape, Defect>
    ensures { result ≡ without_args (option_copied signature.entry) shape }
{
    let Some(signature) = signature else {
        return Err(Defect::UnknownCommand);
    };
    let params = signature.as_signature().params();
    if shape.len() < params.len() {
        return Err(Defect::MissingOperand);
    }
    let mut rest = shape;
    for i in (0..params.len()).rev() {
        let (kind, below) = rest.split().unwrap();
        if !takes(params[i].kind, kind) {
            return Err(Defect::WrongArgument);
        }
        rest = below;
    }
    Ok(rest)
}

/// Whether a parameter of the first kind accepts an operand of the second.
fn takes(kind: Kind, operand: Kind) -> bool
    ensures { result ≡ takes kind operand }
{
    match (kind, operand) {
        (Kind::Any, _) => true,
        (Kind::Text, Kind::Text) => true,
        (Kind::Number, Kind::Number) => true,
        (Kind::Truth, Kind::Truth) => true,
        _ => false,
    }
}
