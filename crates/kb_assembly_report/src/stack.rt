//! The kinds of the values that stand on the stack at the places of a handler.
use kb_base::{NoMemory, Seq, Text};
use kb_code::{Handler, Instr};
use kb_core::{Kind, Native};
use std::alloc::Global;
use std::collections::HashMap;

/// The number of parameters of each handler of a file, by its command.
pub(crate) type Arities = HashMap<String, usize>;

/// The number of parameters of each handler. Error: `NoMemory`.
pub(crate) fn arities_of(alloc: Global, handlers: &[Handler]) -> Result<Arities, NoMemory> {
    let mut arities = HashMap::new(alloc);
    for handler in handlers {
        let count = handler.signature().params().len();
        arities.insert(String::from_str(alloc, handler.command().as_str())?, count)?;
    }
    Ok(arities)
}

/// The number of parameters of a command, if it is known.
fn arity_of(alloc: Global, arities: &Arities, name: &Text) -> Result<Option<usize>, NoMemory> {
    match Native::named(name.as_str()) {
        Some(native) => Ok(Some(native.signature(alloc)?.params().len())),
        None => Ok(arities.get(name.as_str()).copied()),
    }
}

/// How many values an instruction takes, or `None` if that isn't known.
fn taken(
    alloc: Global,
    arities: &Arities,
    handler: &Handler,
    instr: Instr,
) -> Result<Option<usize>, NoMemory> {
    match instr {
        Instr::Add | Instr::Sub | Instr::Less | Instr::Same | Instr::Join => Ok(Some(2)),
        Instr::Drop
        | Instr::Not
        | Instr::Show
        | Instr::Size
        | Instr::IsTrue
        | Instr::Number
        | Instr::JumpIfFalse(_) => Ok(Some(1)),
        Instr::Call(index) => match handler.calls().get(usize::from(index)) {
            Some(name) => arity_of(alloc, arities, name),
            None => Ok(None),
        },
        _ => Ok(Some(0)),
    }
}

/// The kind of the value that an instruction pushes.
fn pushed(handler: &Handler, instr: Instr) -> Option<Kind> {
    match instr {
        Instr::Text(_) | Instr::Join | Instr::Show => Some(Kind::Text),
        Instr::Num(_)
        | Instr::Add
        | Instr::Sub
        | Instr::Size
        | Instr::Number
        | Instr::Before
        | Instr::After => Some(Kind::Number),
        Instr::Truth(_) | Instr::Less | Instr::Same | Instr::Not | Instr::IsTrue => Some(
            Kind::Truth,
        ),
        Instr::Arg(index) => match handler.signature().params().get(usize::from(index)) {
            Some(param) => Some(param.kind),
            None => Some(Kind::Any),
        },
        Instr::Context(_) => Some(Kind::Any),
        _ => None,
    }
}

/// The kinds of a stack, the topmost last.
type Stack = Seq<Kind>;

/// The stack with two values swapped, or with the topmost one twice, or `None` if it is too low.
fn turned(alloc: Global, stack: &[Kind], instr: Instr) -> Result<Option<Stack>, NoMemory> {
    let mut made = Seq::new(alloc);
    match (instr, stack) {
        (Instr::Dup, [below @ .., top]) => {
            for kind in below {
                made.push(*kind)?;
            }
            made.push(*top)?;
            made.push(*top)?;
            Ok(Some(made))
        }
        (Instr::Swap, [below @ .., one, top]) => {
            for kind in below {
                made.push(*kind)?;
            }
            made.push(*top)?;
            made.push(*one)?;
            Ok(Some(made))
        }
        _ => Ok(None),
    }
}

/// The most values that may stand on a stack.
const LIMIT: usize = 64;

/// The stack behind an instruction, or `None` if it isn't known or has too many values.
fn behind(
    alloc: Global,
    arities: &Arities,
    handler: &Handler,
    stack: &[Kind],
    instr: Instr,
) -> Result<Option<Stack>, NoMemory> {
    match changed(alloc, arities, handler, stack, instr)? {
        Some(stack) => Ok(if stack.len() <= LIMIT {
            Some(stack)
        } else {
            None
        }),
        None => Ok(None),
    }
}

/// The stack behind an instruction, or `None` if it isn't known.
fn changed(
    alloc: Global,
    arities: &Arities,
    handler: &Handler,
    stack: &[Kind],
    instr: Instr,
) -> Result<Option<Stack>, NoMemory> {
    if instr == Instr::Dup || instr == Instr::Swap {
        return turned(alloc, stack, instr);
    }
    let Some(count) = taken(alloc, arities, handler, instr)? else {
        return Ok(None);
    };
    if stack.len() < count {
        return Ok(None);
    }
    let left = stack.len().saturating_sub(count);
    let mut made = Seq::new(alloc);
    for kind in stack.iter().take(left) {
        made.push(*kind)?;
    }
    if let Some(kind) = pushed(handler, instr) {
        made.push(kind)?;
    }
    Ok(Some(made))
}

/// Copies a stack.
fn copied(alloc: Global, stack: &[Kind]) -> Result<Stack, NoMemory> {
    let mut made = Seq::new(alloc);
    for kind in stack {
        made.push(*kind)?;
    }
    Ok(made)
}

/// Notes the stack with which a way comes to a place, unless another way came there.
fn note(
    alloc: Global,
    before: &mut Vec<Option<Stack>>,
    place: usize,
    stack: &[Kind],
) -> Result<(), NoMemory> {
    let stack = copied(alloc, stack)?;
    if let Some(noted) = before.get_mut(place) {
        if noted.is_none() {
            *noted = Some(stack);
        }
    }
    Ok(())
}

/// Notes the stack behind an instruction where it goes on.
fn go_on(
    alloc: Global,
    before: &mut Vec<Option<Stack>>,
    place: usize,
    instr: Instr,
    stack: &[Kind],
) -> Result<(), NoMemory> {
    match instr {
        Instr::Return => Ok(()),
        Instr::Jump(to) => note(alloc, before, usize::from(to), stack),
        Instr::JumpIfFalse(to) => {
            note(alloc, before, usize::from(to), stack)?;
            note(alloc, before, place.wrapping_add(1), stack)
        }
        _ => note(alloc, before, place.wrapping_add(1), stack),
    }
}

/// The stack before a place, if it is known.
fn stack_at(
    alloc: Global,
    before: &[Option<Stack>],
    place: usize,
) -> Result<Option<Stack>, NoMemory> {
    match before.get(place) {
        Some(Some(stack)) => Ok(Some(copied(alloc, stack.as_slice())?)),
        _ => Ok(None),
    }
}

/// The kinds of the values that stand on the stack behind the instruction at each place, the topmost last;
/// `None` where no way from the first place comes, or where the code isn't one that the verifier accepts.
/// Where ways differ the first counts. Error: `NoMemory`.
pub(crate) fn stacks_of(
    alloc: Global,
    arities: &Arities,
    handler: &Handler,
) -> Result<Vec<Option<Stack>>, NoMemory> {
    let instrs = handler.code().instrs();
    let mut before: Vec<Option<Stack>> = Vec::new(alloc);
    for _ in instrs {
        before.push(None)?;
    }
    note(alloc, &mut before, 0, &[])?;
    let mut stacks = Vec::new(alloc);
    for (place, instr) in instrs.iter().enumerate() {
        let made = match stack_at(alloc, before.as_slice(), place)? {
            Some(stack) => behind(alloc, arities, handler, stack.as_slice(), *instr)?,
            None => None,
        };
        if let Some(stack) = &made {
            go_on(alloc, &mut before, place, *instr, stack.as_slice())?;
        }
        stacks.push(made)?;
    }
    Ok(stacks)
}
