//! The backward pass, which computes costs.
ghost use Rattle.std.specs.Prelude.{◌≡◌, ◌<◌, ◌+◌, ◌*◌, ◌^◌, ℕ, length, IfOk, option_copied};
ghost use Rattle.kb_verify.specs.Costs.{AreCosts, HasEnd, capped, dearest, later_cost};
ghost use Rattle.kb_verify.specs.Paths.{budget_in, cost};

use crate::callable::{Callable, SharedSignature};
use crate::check::signature_at;
use crate::forward::exits_at;
use kb_base::NoMemory;
use kb_code::{Exits, Handler, Instr};
use std::alloc::Global;

/// The cost of the most expensive path from each place to a return, or to the end of the place's block.
/// Costs saturate at the largest `u64`.
pub(crate) fn dearest_costs(
    alloc: Global,
    callable: &Callable,
    handler: &Handler,
) -> Result<Vec<u64>, NoMemory>
    ensures { IfOk result (λ costs. AreCosts callable.now handler.now costs.items) }
{
    let size = handler.code().instrs().len();
    let mut costs = vec![in alloc; 0; size]?;
    for place in (0..size).rev() {
        let instr = handler.code().instrs()[place];
        costs[place] = dearest_at(callable, handler, costs.as_slice(), place, instr);
    }
    Ok(costs)
}

/// The cost of the most expensive path from a place, computed from the costs of the later places.
fn dearest_at(
    callable: &Callable,
    handler: &Handler,
    costs: &[u64],
    place: usize,
    instr: Instr,
) -> u64
    requires { place + 1 < 2 ^ 64 }
    ensures { (e : ℕ) → HasEnd handler.now.code place e instr
        → result ≡ dearest callable.now handler.now costs.now place e instr }
{
    let price = instr_cost(callable, handler, instr);
    match exits_at(instr, place) {
        Exits::Stop => price,
        Exits::Close(_) => 0,
        Exits::One(next) => cost_from(costs, place, next).saturating_add(price),
        Exits::Two(next, target) => {
            let falls = cost_from(costs, place, next);
            let jumps = cost_from(costs, place, target);
            falls.max(jumps).saturating_add(price)
        }
        Exits::Around(turns, inner) => {
            let end = handler.code().end(place);
            cost_around(costs, place, turns, inner, end).saturating_add(price)
        }
    }
}

/// The cost of the most expensive path from a later place. It is 0 where `next` is not a later place of
/// the code.
pub(crate) fn cost_from(costs: &[u64], place: usize, next: usize) -> u64
    ensures { result ≡ later_cost costs.now place next }
{
    if place < next && next < costs.len() {
        costs[next]
    } else {
        0
    }
}

/// The cost from the place after a later one.
fn cost_past(costs: &[u64], place: usize, end: usize) -> u64
    ensures { result ≡ later_cost costs.now place (end + 1) }
{
    if end < costs.len() {
        cost_from(costs, place, end + 1)
    } else {
        0
    }
}

/// The cost of a block's iterations, each with its `End`.
fn cost_of_turns(turns: u16, turn: u64) -> u64
    ensures { result ≡ capped (turns * (turn + 1)) }
{
    turn.saturating_add(1).saturating_mul(u64::from(turns))
}

/// The cost of a block that begins at `inner` and ends at `end`, and of the path after it.
fn cost_around(costs: &[u64], place: usize, turns: u16, inner: usize, end: usize) -> u64
    ensures { result ≡ capped (turns * (later_cost costs.now place inner + 1)
        + later_cost costs.now place (end + 1)) }
{
    let block = cost_of_turns(turns, cost_from(costs, place, inner));
    block.saturating_add(cost_past(costs, place, end))
}

/// The cost of an instruction of a handler: 1, and for a call also the budget that the called command
/// declares. A call of a command that isn't callable costs 1.
pub fn instr_cost(callable: &Callable, handler: &Handler, instr: Instr) -> u64
    ensures { result ≡ cost callable.now handler.now instr }
{
    match instr {
        Instr::Call(index) => 1 + u64::from(budget_in(signature_at(callable, handler, index))),
        _ => 1,
    }
}

/// The budget of a signature, or 0 if there is none.
fn budget_in(signature: Option<&SharedSignature>) -> u32
    ensures { result ≡ budget_in (option_copied signature.entry) }
{
    match signature {
        Some(signature) => signature.as_signature().budget(),
        None => 0,
    }
}
