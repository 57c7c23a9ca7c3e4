//! The callees of code.
ghost use Rattle.std.specs.Prelude.{◌≡◌, ◌==◌, ◌||◌, ◌&&◌, ◌<◌, ◌++◌, ℕ, false, length, get_or, IfOk, OnOk};
ghost use Rattle.kb_code.specs.Blocks.{is_inside};
ghost use Rattle.kb_code.specs.Callees.{called, callees_from};
ghost use Rattle.kb_code.specs.Exits.{is_exit};

use crate::code::Code;
use crate::exits::Exits;
use crate::instr::Instr;
use kb_base::{NoMemory, Seq};
use std::alloc::Global;

/// The operands of `Call` instructions at reachable places of code, in order of place, where `instrs` are
/// its instructions. Operands of `calls` or more are left out. Error: `NoMemory`.
pub(crate) fn callees_from(
    alloc: Global,
    calls: usize,
    code: &Code,
    instrs: &[Instr],
) -> Result<Seq<u16>, NoMemory>
    ensures { IfOk result (λ callees. callees ≡ callees_from code.now calls 0 (λ q. q == 0) instrs.now) }
{
    let mut reached = first_alone(alloc, instrs.len())?;
    let mut callees = Vec::new(alloc);
    for place in 0..instrs.len() {
        if !reached[place] {
            continue;
        }
        let instr = instrs[place];
        add_called(calls, instr, &mut callees)?;
        reach_exits(&mut reached, code, place, Exits::of(instr, place + 1));
    }
    Ok(Seq::from_vec(callees))
}

/// Adds the operand of a `Call`, if it is less than `calls`. Error: `NoMemory`.
fn add_called(calls: usize, instr: Instr, callees: &mut Vec<u16>) -> Result<(), NoMemory>
    ensures { OnOk result (callees.new.items ≡ callees.old.items ++ called calls instr) }
{
    match instr {
        Instr::Call(index) if usize::from(index) < calls => callees.push(index)?,
        _ => {}
    }
    Ok(())
}

/// For each place, whether it is reached: only the first one is. Error: `NoMemory`.
fn first_alone(alloc: Global, size: usize) -> Result<Vec<bool>, NoMemory>
    ensures size { IfOk result (λ reached. length reached.items ≡ size) }
    ensures first { IfOk result (λ reached. (q : ℕ) → q < size → get_or reached.items q false ≡ (q == 0)) }
{
    let mut reached = Vec::with_capacity(alloc, size)?;
    for place in 0..size {
        reached.push(place == 0)?;
    }
    Ok(reached)
}

/// Marks the exits of the instruction at a place as reached, but for a place of another block.
fn reach_exits(reached: &mut Vec<bool>, code: &Code, place: usize, exits: Exits)
    ensures size { length reached.new.items ≡ length reached.old.items }
    ensures reached { (q : ℕ) → q < length reached.old.items →
        get_or reached.new.items q false
        ≡ (get_or reached.old.items q false || (is_exit exits q && is_inside code.now place q)) }
{
    match exits {
        Exits::Stop => {}
        Exits::One(next) | Exits::Around(_, next) | Exits::Close(next) => {
            reach(reached, code, place, next)
        }
        Exits::Two(next, target) => {
            reach(reached, code, place, next);
            reach(reached, code, place, target);
        }
    }
}

/// Marks an exit of the instruction at a place as reached, if it lies in the code and in no other block.
fn reach(reached: &mut Vec<bool>, code: &Code, place: usize, to: usize)
    ensures size { length reached.new.items ≡ length reached.old.items }
    ensures reached { (q : ℕ) → q < length reached.old.items →
        get_or reached.new.items q false
        ≡ (get_or reached.old.items q false || ((q == to) && is_inside code.now place q)) }
{
    if to < reached.len() && code.is_inside(place, to) {
        reached[to] = true;
    }
}
