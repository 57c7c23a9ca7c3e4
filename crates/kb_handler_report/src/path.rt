//! Lists the places of a path through code.
ghost use Rattle.std.specs.Prelude.{◌≡◌, ℕ, Bool, IfOk, if◌then◌else◌};
ghost use Rattle.kb_handler_report.specs.Visits.{IsAdded, IsListed};
ghost use Rattle.kb_verify.specs.Paths.{Choice, Path, Steps, Turns};
ghost use Rattle.kb_verify.specs.Route.{before, route_of};

use kb_base::NoMemory;
use kb_code::{Exits, Handler, Instr};
use kb_verify::{Callable, Step, instr_cost};
use std::alloc::Global;

/// A place on a path, the instruction there, its cost, and how often the path comes there: the product of
/// the iterations of the blocks around the place, at most the largest `u64`.
#[derive(Clone, Copy, Debug)]
pub(crate) struct Visit {
    pub(crate) place: usize,
    pub(crate) instr: Instr,
    pub(crate) cost: u64,
    pub(crate) times: u64,
}

/// The places of a path from the first place to a return, each once, and the cost of the path, at most the
/// largest `u64`.
#[derive(Drop)]
pub(crate) struct Listing {
    pub(crate) visits: Vec<Visit>,
    pub(crate) cost: u64,
}

/// Lists a path from the first place. Error: `NoMemory`.
pub(crate) fn visits_of(
    alloc: Global,
    callable: &Callable,
    handler: &Handler,
    path: &[Step],
) -> Result<Listing, NoMemory>
    requires { (c : ℕ) × Path callable.now handler.now 0 (route_of path.now) c }
    ensures { IfOk result (λ listing. IsListed callable.now handler.now (route_of path.now)
        listing.visits.items listing.cost) }
{
    let mut visits = Vec::new(alloc);
    let cost = add_visits(callable, handler, path, 0, 1, &mut visits)?;
    Ok(Listing { visits, cost })
}

/// Adds the places of a path from a place to a return, or to the end of the place's block, where the path
/// comes `times` times. Returns the cost of the path. Error: `NoMemory`.
fn add_visits(
    callable: &Callable,
    handler: &Handler,
    path: &[Step],
    start: usize,
    times: u64,
    visits: &mut Vec<Visit>,
) -> Result<u64, NoMemory>
    requires { (c : ℕ) × Path callable.now handler.now start (route_of path.now) c }
    ensures { IfOk result (λ cost. IsAdded callable.now handler.now times start (route_of path.now)
        visits.old.items visits.new.items cost) }
{
    let instrs = handler.code().instrs();
    let mut place = start;
    let mut left = path;
    let mut spent = 0u64;
    'walk: loop {
        let instr = instrs[place];
        let cost = instr_cost(callable, handler, instr);
        visits.push(Visit {
            place,
            instr,
            cost,
            times,
        })?;
        match Exits::of(instr, place + 1) {
            Exits::Stop => return Ok(spent.saturating_add(cost)),
            Exits::Close(_past) => return Ok(spent),
            Exits::One(next) => {
                spent = spent.saturating_add(cost);
                place = next;
            }
            Exits::Two(next, target) => {
                spent = spent.saturating_add(cost);
                let (to, rest) = branch(left, next, target);
                place = to;
                left = rest;
            }
            Exits::Around(turns, inner) => {
                let (turn, rest) = iteration(left);
                let often = times.saturating_mul(u64::from(turns));
                let one = add_visits(callable, handler, turn, inner, often, visits)?;
                let block = one.saturating_add(1).saturating_mul(u64::from(turns));
                spent = spent.saturating_add(cost).saturating_add(block);
                place = handler.code().end(place) + 1;
                left = rest;
            }
        }
    }
}

/// The next place after a branch, by the first of these steps, and the remaining steps.
fn branch(left: &[Step], next: usize, target: usize) -> (usize, &[Step])
    ensures place { (jumped : Bool) → (rest : Steps) → route_of left.now ≡ Choice jumped rest →
        result.0 ≡ (if jumped then target else next) }
    ensures rest { (jumped : Bool) → (rest : Steps) → route_of left.now ≡ Choice jumped rest →
        route_of result.1.now ≡ rest }
{
    match left {
        [Step::Choice(jumped), rest @ ..] => (if *jumped { target } else { next }, rest),
        [Step::Turns(_), rest @ ..] => (next, rest),
        [] => (next, left),
    }
}

/// The steps of a block's iteration, by the first of these steps, and the remaining steps.
fn iteration(left: &[Step]) -> (&[Step], &[Step])
    ensures turn { (turn rest : Steps) → route_of left.now ≡ Turns turn rest → route_of result.0.now ≡ turn }
    ensures rest { (turn rest : Steps) → route_of left.now ≡ Turns turn rest → route_of result.1.now ≡ rest }
{
    match left {
        [first, rest @ ..] => (steps_inside(first), rest),
        [] => (left, left),
    }
}

/// The steps of the iteration that is this step.
fn steps_inside(step: &Step) -> &[Step]
    ensures { (more turn rest : Steps) → before step.now more ≡ Turns turn rest → route_of result.now ≡ turn }
{
    match step {
        Step::Turns(turn) => turn.as_slice(),
        Step::Choice(_) => &[],
    }
}
