//! Paths through code and their costs, computed from the instructions without the verifier.
use crate::names::CALLS;
use kb_base::NoMemory;
use kb_code::Instr;
use kb_verify::Callable;
use std::alloc::Global;

// The place of a path, and the branches ahead at which it jumps: the lowest bit is that of the first branch.
#[derive(Clone, Copy)]
struct Walk {
    place: usize,
    jumps: u32,
}

impl Walk {
    fn new(jumps: u32) -> Walk {
        Walk { place: 0, jumps }
    }

    // Whether the path jumps at the next branch.
    fn choose(&mut self) -> bool {
        let jumps = self.jumps % 2 == 1;
        self.jumps /= 2;
        jumps
    }

    // The instruction at the place, and whether the path jumps there. The path goes through a block once.
    fn pass(&mut self, code: &[Instr]) -> Option<(Instr, bool)> {
        let instr = *code.get(self.place)?;
        let target = match instr {
            Instr::Jump(to) => Some(to),
            Instr::JumpIfFalse(to) if self.choose() => Some(to),
            _ => None,
        };
        self.place = match target {
            Some(to) => usize::from(to),
            None => self.place.saturating_add(1),
        };
        Some((instr, target.is_some()))
    }
}

// The budget of the command that this index calls, 0 where it can't be called.
fn budget_at(callable: &Callable, index: u16) -> u32 {
    let Some(name) = CALLS.as_slice().get(usize::from(index)) else {
        return 0;
    };
    match callable.get(name) {
        Some(signature) => signature.as_signature().budget(),
        None => 0,
    }
}

// The most that an instruction costs.
fn cost_of(callable: &Callable, instr: Instr) -> u64 {
    match instr {
        Instr::Call(index) => u64::from(budget_at(callable, index)).saturating_add(1),
        _ => 1,
    }
}

// The turns of the block that an `End` at this place closes.
fn turns_closed(code: &[Instr], place: usize) -> u64 {
    let mut closed = 0u32;
    for before in (0..place).rev() {
        match code.get(before) {
            Some(Instr::Repeat(turns)) if closed == 0 => return u64::from(*turns),
            Some(Instr::Repeat(_)) => closed = closed.wrapping_sub(1),
            Some(Instr::End) => closed = closed.wrapping_add(1),
            _ => {}
        }
    }
    0
}

// How often a path comes to the place behind an instruction that it comes to so many times.
fn times_behind(code: &[Instr], place: usize, instr: Instr, times: u64) -> u64 {
    match instr {
        Instr::Repeat(turns) => times.saturating_mul(u64::from(turns)),
        Instr::End => times.checked_div(turns_closed(code, place)).unwrap_or(0),
        _ => times,
    }
}

/// The cost of the path that jumps at the branches whose bits are set (the lowest bit is that of the first
/// branch), if it ends at a return. Each turn of a block takes the same path. Each jump leads forward, so no
/// path comes to more places than the code has.
pub(crate) fn cost_by(callable: &Callable, code: &[Instr], jumps: u32) -> Option<u64> {
    let mut walk = Walk::new(jumps);
    let mut cost = 0u64;
    let mut times = 1u64;
    for _ in 0..code.len() {
        let place = walk.place;
        let (instr, _) = walk.pass(code)?;
        cost = cost.saturating_add(cost_of(callable, instr).saturating_mul(times));
        times = times_behind(code, place, instr, times);
        if instr == Instr::Return {
            return Some(cost);
        }
    }
    None
}

// The number of choices to jump or not at each branch of the code.
fn count(code: &[Instr]) -> u32 {
    let mut count = 1u32;
    for instr in code {
        if let Instr::JumpIfFalse(_) = instr {
            count = count.saturating_mul(2);
        }
    }
    count
}

/// The cost of the most expensive path that ends at a return, 0 without one.
pub(crate) fn highest_cost(callable: &Callable, code: &[Instr]) -> u64 {
    let mut highest = 0u64;
    for jumps in 0..count(code) {
        if let Some(cost) = cost_by(callable, code, jumps) {
            highest = highest.max(cost);
        }
    }
    highest
}

/// The steps of the path that jumps at the branches whose bits are set, up to its return. The text has `j`
/// for a branch that jumps, `f` for one that doesn't, and brackets around the steps in a block.
pub(crate) fn steps_by(alloc: Global, code: &[Instr], jumps: u32) -> Result<String, NoMemory> {
    let mut walk = Walk::new(jumps);
    let mut steps = String::new(alloc);
    for _ in 0..code.len() {
        match walk.pass(code) {
            Some((Instr::JumpIfFalse(_), true)) => steps.push('j')?,
            Some((Instr::JumpIfFalse(_), false)) => steps.push('f')?,
            Some((Instr::Repeat(_), _)) => steps.push('(')?,
            Some((Instr::End, _)) => steps.push(')')?,
            Some((Instr::Return, _)) | None => return Ok(steps),
            Some(_) => {}
        }
    }
    Ok(steps)
}

/// Whether blocks aren't well formed: an `End` without an open block, a ninth open block, a return inside of
/// a block, or a block that is never closed.
pub(crate) fn has_bad_blocks(code: &[Instr]) -> bool {
    let mut open = 0u32;
    for instr in code {
        match instr {
            Instr::Repeat(_) if open < 8 => open = open.wrapping_add(1),
            Instr::End if open > 0 => open = open.wrapping_sub(1),
            Instr::Repeat(_) | Instr::End => return true,
            Instr::Return if open > 0 => return true,
            _ => {}
        }
    }
    open > 0
}
