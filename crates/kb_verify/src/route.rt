//! The search for a most expensive path.
ghost use Rattle.std.specs.Prelude.{◌≡◌, IfOk};
ghost use Rattle.kb_code.specs.Reachable.{Reachable};
ghost use Rattle.kb_verify.specs.Costs.{AreCosts, IsDearestFrom};
ghost use Rattle.kb_verify.specs.Route.{route_of};
ghost use Rattle.kb_verify.specs.Shapes.{HasShapes};

use crate::backward::cost_from;
use crate::callable::Callable;
use crate::fault::Step;
use crate::forward::exits_at;
use kb_base::NoMemory;
use kb_code::{Exits, Handler};
use std::alloc::Global;

/// The steps of a most expensive path from a place to a return, or to the end of the place's block.
pub(crate) fn dearest_path(
    alloc: Global,
    callable: &Callable,
    handler: &Handler,
    costs: &[u64],
    start: usize,
) -> Result<Vec<Step>, NoMemory>
    requires reached { Reachable handler.now.code start }
    requires shapes { HasShapes callable.now handler.now }
    requires costs { AreCosts callable.now handler.now costs.now }
    ensures { IfOk result (λ steps. IsDearestFrom callable.now handler.now costs.now start
        (route_of steps.items)) }
{
    let instrs = handler.code().instrs();
    let mut steps = Vec::new(alloc);
    let mut place = start;
    'walk: loop {
        match exits_at(instrs[place], place) {
            Exits::Stop => return Ok(steps),
            Exits::Close(_past) => return Ok(steps),
            Exits::One(next) => place = next,
            Exits::Two(next, target) => {
                let jumps = cost_from(costs, place, next) < cost_from(costs, place, target);
                steps.push(Step::Choice(jumps))?;
                place = if jumps { target } else { next };
            }
            Exits::Around(_turns, inner) => {
                let turn = dearest_path(alloc, callable, handler, costs, inner)?;
                steps.push(Step::Turns(turn))?;
                let end = handler.code().end(place);
                place = end + 1;
            }
        }
    }
}
