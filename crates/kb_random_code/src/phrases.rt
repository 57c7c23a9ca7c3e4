//! Phrases: random pieces of code, of three instructions each. Most phrases leave the stack as it was, so
//! that a jump over some of them leads to a place with the same kinds of operands.
use crate::names::{CALLS, KEYS, TEXTS, command_at};
use crate::random::Random;
use kb_code::Instr;
use kb_core::Kind;
use kb_verify::Callable;

/// The number of instructions of a phrase.
pub(crate) const SIZE: u16 = 3;

/// The first `NATIVES` names of `CALLS` are those of natives.
const NATIVES: u16 = 3;

/// The numbers of parameters, and of handlers of the same file, that code may name.
#[derive(Clone, Copy)]
pub(crate) struct Names {
    pub params: u16,
    pub handlers: u16,
}

/// The kind of the value that a phrase leaves on top of the stack, where the code so far has no jump over
/// it.
#[derive(Clone, Copy)]
pub(crate) enum Top {
    Nothing,
    Number,
    Text,
    Truth,
    Any,
}

/// A phrase, and what it leaves on top of the stack.
#[derive(Clone, Copy)]
pub(crate) struct Phrase {
    pub code: [Instr; 3],
    pub top: Top,
}

impl Phrase {
    /// Whether the phrase ends with a jump.
    pub(crate) fn jumps(&self) -> bool {
        let [_, _, last] = self.code;
        matches!(last, Instr::Jump(_) | Instr::JumpIfFalse(_))
    }
}

/// Random operands for the instructions of a phrase.
#[derive(Clone, Copy)]
struct Parts {
    key: u16,
    text: u16,
    number: u16,
    truth: bool,
    // An argument or the value of a context key.
    value: Instr,
    // The target of the phrase's jump.
    later: u16,
}

fn count_of(list: &[&str]) -> u16 {
    u16::try_from(list.len()).unwrap_or(0)
}

/// The number of a random phrase after the `nth` of `count`, or `count`, the number of the final return.
pub(crate) fn later(random: &mut Random, count: u16, nth: u16) -> u16 {
    let left = count.wrapping_sub(nth);
    nth.wrapping_add(random.below(left)).wrapping_add(1)
}

fn random_value(random: &mut Random, params: u16) -> Instr {
    if params == 0 || random.below(3) == 0 {
        Instr::Context(random.below(KEYS))
    } else {
        Instr::Arg(random.below(params))
    }
}

fn random_parts(random: &mut Random, params: u16, later: u16) -> Parts {
    Parts {
        key: random.below(KEYS),
        text: random.below(count_of(TEXTS.as_slice())),
        number: random.below(4),
        truth: random.below(2) == 0,
        value: random_value(random, params),
        later,
    }
}

// A phrase that jumps, returns or calls a native, and leaves the stack as it was.
fn leading(choice: u16, p: Parts) -> [Instr; 3] {
    let to = p.later;
    match choice {
        0 | 1 | 2 | 3 | 4 | 5 => [Instr::Context(p.key), Instr::IsTrue, Instr::JumpIfFalse(to)],
        6 | 7 => [p.value, Instr::IsTrue, Instr::JumpIfFalse(to)],
        8 => [Instr::Truth(p.truth), Instr::Not, Instr::JumpIfFalse(to)],
        9 => [Instr::Return, Instr::Num(p.number), Instr::Drop],
        10 => [Instr::Num(p.number), Instr::Drop, Instr::Jump(to)],
        11 => [Instr::Text(p.key), Instr::Truth(p.truth), Instr::Call(2)],
        12 => [Instr::Text(p.text), Instr::Show, Instr::Call(0)],
        13 => [p.value, Instr::Show, Instr::Call(0)],
        14 => [Instr::Call(1), Instr::Text(p.text), Instr::Call(0)],
        _ => [p.value, Instr::Number, Instr::Drop],
    }
}

// A phrase that pushes a value.
fn pushing(choice: u16, p: Parts) -> Phrase {
    let (code, top) = match choice {
        0 => ([Instr::Before, Instr::After, Instr::Less], Top::Truth),
        1 => ([Instr::Num(p.number), Instr::Dup, Instr::Add], Top::Number),
        2 => (
            [Instr::Text(p.text), Instr::Text(p.key), Instr::Join],
            Top::Text,
        ),
        3 => ([Instr::Context(p.key), p.value, Instr::Same], Top::Truth),
        4 => ([Instr::Num(p.number), p.value, Instr::Swap], Top::Number),
        _ => ([Instr::Call(1), Instr::Call(1), p.value], Top::Any),
    };
    Phrase { code, top }
}

// A phrase that takes a number.
fn with_number(choice: u16, p: Parts) -> Phrase {
    let (code, top) = match choice {
        0 => ([Instr::Num(p.number), Instr::Add, Instr::Show], Top::Text),
        1 => ([Instr::Num(p.number), Instr::Less, Instr::Not], Top::Truth),
        2 => ([Instr::Dup, Instr::Sub, Instr::Number], Top::Number),
        _ => ([Instr::Dup, Instr::Same, Instr::Drop], Top::Nothing),
    };
    Phrase { code, top }
}

// A phrase that takes a text.
fn with_text(choice: u16, p: Parts) -> Phrase {
    let (code, top) = match choice {
        0 => ([Instr::Text(p.text), Instr::Join, Instr::Size], Top::Number),
        1 => (
            [Instr::Text(p.text), Instr::Join, Instr::Call(0)],
            Top::Nothing,
        ),
        2 => ([Instr::Dup, Instr::Join, Instr::Show], Top::Text),
        _ => ([Instr::Size, Instr::Before, Instr::Sub], Top::Number),
    };
    Phrase { code, top }
}

// A phrase that takes a truth value.
fn with_truth(choice: u16, p: Parts) -> Phrase {
    let (code, top) = match choice {
        0 => (
            [Instr::Not, Instr::Dup, Instr::JumpIfFalse(p.later)],
            Top::Truth,
        ),
        1 => (
            [Instr::Not, Instr::Not, Instr::JumpIfFalse(p.later)],
            Top::Nothing,
        ),
        2 => (
            [Instr::Truth(p.truth), Instr::Swap, Instr::Same],
            Top::Truth,
        ),
        _ => ([Instr::Show, Instr::Text(p.text), Instr::Join], Top::Text),
    };
    Phrase { code, top }
}

// A phrase that takes a value of any kind.
fn with_any(choice: u16, p: Parts) -> Phrase {
    let (code, top) = match choice {
        0 => (
            [Instr::IsTrue, Instr::Dup, Instr::JumpIfFalse(p.later)],
            Top::Truth,
        ),
        1 => ([Instr::Show, Instr::Dup, Instr::Join], Top::Text),
        2 => ([Instr::Number, Instr::After, Instr::Add], Top::Number),
        _ => ([Instr::Dup, Instr::Swap, Instr::Drop], Top::Any),
    };
    Phrase { code, top }
}

// An instruction that pushes an argument for a parameter of this kind.
fn argument(kind: Kind, p: Parts) -> Instr {
    match kind {
        Kind::Text => Instr::Text(p.text),
        Kind::Number => Instr::Before,
        Kind::Truth => Instr::Truth(p.truth),
        Kind::Any => p.value,
    }
}

// A phrase that calls a handler of the file, or a native where that handler can't be called.
fn calling(callable: &Callable, handler: u16, p: Parts) -> [Instr; 3] {
    let call = Instr::Call(handler.wrapping_add(NATIVES));
    let Some(signature) = callable.get(command_at(handler)) else {
        return [Instr::Text(p.text), Instr::Show, Instr::Call(0)];
    };
    match signature.as_signature().params() {
        [first, second] => [argument(first.kind, p), argument(second.kind, p), call],
        [first] => [Instr::Call(1), argument(first.kind, p), call],
        _ => [Instr::Call(1), Instr::Call(1), call],
    }
}

fn with_top(random: &mut Random, top: Top, p: Parts) -> Phrase {
    match top {
        Top::Nothing => pushing(random.below(6), p),
        Top::Number => with_number(random.below(4), p),
        Top::Text => with_text(random.below(4), p),
        Top::Truth => with_truth(random.below(4), p),
        Top::Any => with_any(random.below(4), p),
    }
}

/// A random phrase for a stack with this on top; its jump, if it has one, leads to the place `later`.
pub(crate) fn random_phrase(
    random: &mut Random,
    callable: &Callable,
    names: Names,
    top: Top,
    later: u16,
) -> Phrase {
    let parts = random_parts(random, names.params, later);
    let code = match random.below(8) {
        0 | 1 | 2 | 3 => return with_top(random, top, parts),
        4 => calling(callable, random.below(names.handlers), parts),
        _ => leading(random.below(16), parts),
    };
    Phrase { code, top }
}

/// Any instruction for code of `size` instructions; its operand may be out of range.
pub(crate) fn arbitrary(random: &mut Random, size: u16) -> Instr {
    let place = random.below(size.wrapping_add(1));
    let text = random.below(count_of(TEXTS.as_slice()).wrapping_add(1));
    match random.below(24) {
        0 => Instr::Return,
        1 => Instr::Text(text),
        2 => Instr::Num(place),
        3 => Instr::Truth(random.below(2) == 0),
        4 => Instr::Arg(random.below(3)),
        5 => Instr::Drop,
        6 => Instr::Dup,
        7 => Instr::Swap,
        8 => Instr::Add,
        9 => Instr::Sub,
        10 => Instr::Less,
        11 => Instr::Same,
        12 => Instr::Not,
        13 => Instr::Join,
        14 => Instr::Show,
        15 => Instr::Size,
        16 => Instr::IsTrue,
        17 => Instr::Number,
        18 => Instr::Jump(place),
        19 => Instr::JumpIfFalse(place),
        20 => Instr::Call(random.below(count_of(CALLS.as_slice()).wrapping_add(1))),
        21 => Instr::Context(text),
        22 => Instr::Before,
        _ => Instr::After,
    }
}
