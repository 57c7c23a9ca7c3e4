//! Random handlers. A seed always gives the same ones.
use crate::blocks::random_blocks;
use crate::phrases::{Names, SIZE, Top, arbitrary, later, random_phrase};
use kb_base::NoMemory;
use kb_code::Instr;
use kb_core::Kind;
use kb_verify::Callable;
use std::alloc::Global;

/// A pseudo-random sequence of numbers.
#[derive(Clone, Copy)]
pub(crate) struct Random {
    state: u64,
}

impl Random {
    pub(crate) fn new(seed: u64) -> Random {
        Random {
            state: seed.wrapping_mul(0x9e37_79b9_7f4a_7c15),
        }
    }

    /// The next number, below a limit. It comes from the high bits, since the low bits have short periods.
    pub(crate) fn below(&mut self, limit: u16) -> u16 {
        self.state = self
            .state
            .wrapping_mul(6_364_136_223_846_793_005)
            .wrapping_add(1_442_695_040_888_963_407);
        let high = (self.state >> 33)
            .checked_rem(u64::from(limit))
            .unwrap_or(0);
        u16::try_from(high).unwrap_or(0)
    }
}

/// Where random handlers come from: a sequence of numbers, and the version of their code.
#[derive(Clone, Copy)]
pub(crate) struct Source {
    pub random: Random,
    pub version: u16,
}

/// A handler without its name and its budget.
#[derive(Drop)]
pub(crate) struct Draft {
    pub version: u16,
    pub params: Vec<Kind>,
    pub depth: u16,
    pub code: Vec<Instr>,
}

fn random_kind(random: &mut Random) -> Kind {
    match random.below(6) {
        0 => Kind::Text,
        1 => Kind::Number,
        2 => Kind::Truth,
        _ => Kind::Any,
    }
}

// At most two parameters, so that all choices of arguments can be started.
fn random_params(alloc: Global, random: &mut Random) -> Result<Vec<Kind>, NoMemory> {
    let mut params = Vec::new(alloc);
    for _ in 0..random.below(3) {
        params.push(random_kind(random))?;
    }
    Ok(params)
}

// A depth that allows calls of so many handlers, or in one of four cases a random one.
fn random_depth(random: &mut Random, handlers: u16) -> u16 {
    match random.below(4) {
        0 => random.below(3).wrapping_add(1),
        _ => handlers.wrapping_add(1),
    }
}

// Replaces one instruction by an arbitrary one in two of three handlers. Most of these are then refused.
fn spoil(random: &mut Random, code: &mut Vec<Instr>) {
    let size = u16::try_from(code.len()).unwrap_or(0);
    let place = random.below(size);
    let instr = arbitrary(random, size);
    if random.below(3) == 0 {
        return;
    }
    if let Some(spoiled) = code.get_mut(usize::from(place)) {
        *spoiled = instr;
    }
}

// Three to five phrases and a return, where the jumps of the last phrase lead. The stack at the target of
// the last jump is taken to be that at the jump. Where another path arrives there with another stack, the
// verifier has to refuse the handler.
fn random_code(
    alloc: Global,
    random: &mut Random,
    callable: &Callable,
    names: Names,
) -> Result<Vec<Instr>, NoMemory> {
    let mut code = Vec::new(alloc);
    let mut top = Top::Nothing;
    let mut jump = (0u16, Top::Nothing);
    let count = random.below(3).wrapping_add(3);
    for nth in 0..count {
        if jump.0 == nth {
            top = jump.1;
        }
        let to = later(random, count, nth);
        let phrase = random_phrase(random, callable, names, top, to.wrapping_mul(SIZE));
        code.extend_from_slice(phrase.code.as_slice())?;
        if phrase.jumps() {
            jump = (to, phrase.top);
        }
        top = phrase.top;
    }
    code.push(Instr::Return)?;
    spoil(random, &mut code);
    Ok(code)
}

/// A random handler, which may call the first `handlers` handlers of its file. Code of version 2 has blocks.
pub(crate) fn random_draft(
    alloc: Global,
    source: &mut Source,
    callable: &Callable,
    handlers: u16,
) -> Result<Draft, NoMemory> {
    let version = source.version;
    let random = &mut source.random;
    let params = random_params(alloc, random)?;
    let depth = random_depth(random, handlers);
    let names = Names {
        params: u16::try_from(params.len()).unwrap_or(0),
        handlers,
    };
    let code = match version {
        1 => random_code(alloc, random, callable, names)?,
        _ => random_blocks(alloc, random, callable, names)?,
    };
    Ok(Draft {
        version,
        params,
        depth,
        code,
    })
}
