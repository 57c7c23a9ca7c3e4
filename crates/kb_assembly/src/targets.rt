//! The places to which jumps lead.
ghost use Rattle.std.specs.Prelude.{◌≡◌, ◌<◌, ◌≤◌, ◌||◌, ◌==◌, ℕ, length, get_or, false, IfOk};
ghost use Rattle.kb_assembly.specs.Targets.{leads_to, is_target, AreTargets};

use kb_base::NoMemory;
use kb_code::Instr;
use std::alloc::Global;

/// Marks a place, if it has a mark.
fn set(marks: &mut Vec<bool>, to: usize)
    ensures size { length marks.new.items ≡ length marks.old.items }
    ensures each { (place : ℕ) → place < length marks.old.items
        → get_or marks.new.items place false ≡ (to == place) || get_or marks.old.items place false }
{
    if to < marks.len() {
        marks[to] = true;
    }
}

/// Marks the place to which an instruction jumps, if it is a jump.
fn mark(marks: &mut Vec<bool>, instr: Instr)
    ensures size { length marks.new.items ≡ length marks.old.items }
    ensures each { (place : ℕ) → place < length marks.old.items
        → get_or marks.new.items place false ≡ leads_to place instr || get_or marks.old.items place false }
{
    match instr {
        Instr::Jump(to) => set(marks, usize::from(to)),
        Instr::JumpIfFalse(to) => set(marks, usize::from(to)),
        _ => {}
    }
}

/// A mark for each place of the code, and for the one behind it: whether a jump leads there. Error:
/// `NoMemory`.
pub(crate) fn targets_of(alloc: Global, code: &[Instr]) -> Result<Vec<bool>, NoMemory>
    ensures { IfOk result (λ marks. AreTargets code.now marks.items) }
{
    let mut marks = vec![in alloc; false; code.len() + 1]?;
    for instr in code {
        mark(&mut marks, *instr);
    }
    Ok(marks)
}

/// The mark of a place.
fn mark_at(marks: &[bool], place: usize) -> bool
    ensures { result ≡ get_or marks.now place false }
{
    match marks.get(place) {
        Some(mark) => *mark,
        None => false,
    }
}

/// Whether a jump of the code leads to a place.
pub(crate) fn is_target(_code: &[Instr], marks: &[bool], place: usize) -> bool
    requires targets { AreTargets _code.now marks.now }
    requires within { place ≤ length _code.now }
    ensures { result ≡ is_target _code.now place }
{
    mark_at(marks, place)
}
