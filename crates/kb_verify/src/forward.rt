//! The forward pass, which computes shapes.
ghost use Rattle.std.specs.Prelude.{◌≡◌, ◌<◌, ◌+◌, ◌-◌, ◌^◌, ◌∷◌, [], suc, length, replicate};
ghost use Rattle.std.specs.Prelude.{IfOk, MatchResult, Some, false, true, slice_get};
ghost use Rattle.kb_code.specs.Exits.{exits_of};
ghost use Rattle.kb_verify.specs.Faults.{IsFailure, IsFault};
ghost use Rattle.kb_verify.specs.Marks.{AreWithin, ComesRound, FlowsFrom, FlowsTo, GoesWrong};
ghost use Rattle.kb_verify.specs.Marks.{IsMarked, Meets};

use crate::callable::Callable;
use crate::check::check_instr;
use crate::fault::{Defect, VerifyFault};
use crate::shape::Shape;
use kb_base::{Failure, NoMemory};
use kb_code::{Code, Exits, Handler, Instr};
use std::alloc::Global;

/// The shapes that reached a place so far: none, one, or two different ones.
#[derive(Clone, Copy, Debug)]
pub(crate) enum Mark {
    Unreached,
    Has(Shape),
    Differs,
}

/// The shapes of all reachable places, or the first defect.
pub(crate) fn assign(
    alloc: Global,
    callable: &Callable,
    handler: &Handler,
) -> Result<Vec<Mark>, Failure<VerifyFault>>
    requires { 0 < length handler.now.code }
    ensures { MatchResult result
        (λ marks. IsMarked callable.now handler.now (length handler.now.code) marks.items)
        (λ failure. IsFailure callable.now handler.now failure) }
{
    let size = handler.code().instrs().len();
    let mut marks = blank(alloc, size)?;
    for place in 0..size {
        look(callable, handler, &mut marks, place).map_err(Failure::Fault)?;
    }
    Ok(marks)
}

/// The marks of `size` places before the pass. The first place has the empty shape, since a handler
/// starts without operands.
fn blank(alloc: Global, size: usize) -> Result<Vec<Mark>, NoMemory>
    requires { 0 < size }
    ensures { IfOk result (λ marks. marks.items ≡ Mark.Has [] ∷ replicate (size - 1) Mark.Unreached) }
{
    let mut marks = vec![in alloc; Mark::Unreached; size]?;
    marks[0] = Mark::Has(Shape::new());
    Ok(marks)
}

/// Checks the instruction at a place, and propagates the shape after it to its exits.
fn look(
    callable: &Callable,
    handler: &Handler,
    marks: &mut Vec<Mark>,
    place: usize,
) -> Result<(), VerifyFault>
    requires size { length marks.old.items ≡ length handler.now.code }
    requires within { place < length handler.now.code }
    ensures marked { IsMarked callable.now handler.now place marks.old.items → MatchResult result
        (λ _. IsMarked callable.now handler.now (place + 1) marks.new.items)
        (λ fault. IsFault callable.now handler.now fault) }
    ensures size { length marks.new.items ≡ length handler.now.code }
{
    let code = handler.code();
    let instr = code.instrs()[place];
    match marks[place] {
        Mark::Unreached => Ok(()),
        Mark::Differs => Err(VerifyFault::Wrong(Defect::ShapesDiffer, place)),
        Mark::Has(before) => {
            if !comes_round(code, marks.as_slice(), place, before, instr) {
                return Err(VerifyFault::Wrong(Defect::ShapesDiffer, place));
            }
            match check_instr(callable, handler, place, before, instr) {
                Ok(after) => {
                    flow_from(marks, exits_at(instr, place), after);
                    Ok(())
                }
                Err(defect) => Err(VerifyFault::Wrong(defect, place)),
            }
        }
    }
}

/// Whether an `End` has the shape of the place after its `Repeat`. True for other instructions.
fn comes_round(code: &Code, marks: &[Mark], place: usize, before: Shape, instr: Instr) -> bool
    requires size { length marks.now ≡ length code.now }
    requires within { place < length code.now }
    requires instr { slice_get code.now place ≡ Some instr }
    ensures round { result ≡ true → ComesRound code.now marks.now place before }
    ensures wrong { result ≡ false → GoesWrong code.now marks.now place before }
{
    let Instr::End = instr else {
        return true;
    };
    let Some(start) = code.block(place) else {
        return true;
    };
    if start + 1 >= marks.len() {
        return true;
    }
    match marks[start + 1] {
        Mark::Has(first) => first.is_same(before),
        _ => true,
    }
}

/// The exits of the instruction at a place.
pub(crate) fn exits_at(instr: Instr, place: usize) -> Exits
    requires { place + 1 < 2 ^ 64 }
    ensures { result ≡ exits_of (suc place) instr }
{
    Exits::of(instr, place + 1)
}

/// Propagates a shape to all exits.
fn flow_from(marks: &mut Vec<Mark>, exits: Exits, after: Shape)
    requires { AreWithin exits (length marks.old.items) }
    ensures flows { FlowsFrom exits marks.old.items after marks.new.items }
    ensures size { length marks.new.items ≡ length marks.old.items }
{
    match exits {
        Exits::Stop => {}
        Exits::One(next) | Exits::Around(_, next) | Exits::Close(next) => {
            flow_to(marks, next, after)
        }
        Exits::Two(next, target) => {
            flow_to(marks, next, after);
            flow_to(marks, target, after);
        }
    }
}

/// Propagates a shape to one place.
fn flow_to(marks: &mut Vec<Mark>, to: usize, after: Shape)
    requires { to < length marks.old.items }
    ensures flows { FlowsTo marks.old.items to after marks.new.items }
    ensures size { length marks.new.items ≡ length marks.old.items }
{
    marks[to] = meet(marks[to], after);
}

/// The mark of a place after one more shape reaches it.
fn meet(mark: Mark, after: Shape) -> Mark
    ensures { Meets mark after result }
{
    match mark {
        Mark::Unreached => Mark::Has(after),
        Mark::Has(before) if before.is_same(after) => mark,
        _ => Mark::Differs,
    }
}
