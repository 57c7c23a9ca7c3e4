//! The flat form of a clause, which is evaluated by one loop.
ghost use Rattle.std.specs.Prelude.{◌≡◌, ◌<◌, ◌+◌, true, not, length, map, IfOk, IfErr};
ghost use Rattle.std.specs.List.{list_any};
ghost use Rattle.kb_context.specs.Scopes.{context};
ghost use Rattle.kb_context.specs.Sights.{TellsSeen};
ghost use Rattle.kb_when.specs.Flat.{accepts, target, has_read_pattern, LeadsBack, Decides, Extends};
ghost use Rattle.kb_when.specs.Leaf.{marked_of_leaf};
ghost use Rattle.kb_when.specs.Marked as marked;
ghost use Rattle.kb_when.specs.Tree.{marked_of, markeds_of};

use crate::jump::Jump;
use crate::leaf::Leaf;
use crate::probe::Probe;
use crate::tree::Tree;
use kb_base::NoMemory;
use kb_context::{Scopes, Sight};
use std::alloc::Global;
use std::rc::Rc;

/// The place at which a clause holds.
const ACCEPT: usize = 0;

/// The place at which a clause does not hold.
const REJECT: usize = 1;

/// The place of the first jump.
const FIRST: usize = 2;

/// The jumps of a clause, the last atom first, and the place at which evaluation begins. The first atom is
/// evaluated first, and each jump leads to a lower place, so evaluation ends.
#[derive(Debug, Drop)]
pub(crate) struct Flat {
    pub(crate) jumps: Vec<Jump>,
    pub(crate) entry: usize,
}

/// The place after a jump. Error: `NoMemory`, only if its atom has a pattern that is not marked as unread.
fn next(jump: &Jump, alloc: Global, scopes: &Scopes) -> Result<usize, NoMemory>
    ensures value { IfOk result (λ place. place ≡ target (context scopes.now.seen) jump.now) }
    ensures memory { IfErr result (λ _. has_read_pattern jump.now ≡ true) }
{
    if jump.atom.holds(alloc, scopes)? {
        Ok(jump.yes)
    } else {
        Ok(jump.no)
    }
}

/// The same, where what the focus sees is at hand.
#[inline]
fn next_by(jump: &Jump, alloc: Global, scopes: &Scopes, sights: &[Sight]) -> Result<usize, NoMemory>
    requires { TellsSeen (context scopes.now.seen) sights.now }
    ensures value { IfOk result (λ place. place ≡ target (context scopes.now.seen) jump.now) }
    ensures memory { IfErr result (λ _. has_read_pattern jump.now ≡ true) }
{
    let Some(holds) = jump.probe.answer(sights) else {
        return next(jump, alloc, scopes);
    };
    if holds { Ok(jump.yes) } else { Ok(jump.no) }
}

/// Whether the jumps accept from a place, where what the focus sees is at hand. Error: `NoMemory`, only if an
/// atom has a pattern that is not marked as unread.
fn run_by(
    alloc: Global,
    jumps: &[Jump],
    entry: usize,
    scopes: &Scopes,
    sights: &[Sight],
) -> Result<bool, NoMemory>
    requires inside { entry < length jumps.now + 2 }
    requires back { LeadsBack jumps.now }
    requires seen { TellsSeen (context scopes.now.seen) sights.now }
    ensures value { IfOk result (λ holds. holds ≡ accepts jumps.now (context scopes.now.seen) entry) }
    ensures memory { IfErr result (λ _. list_any has_read_pattern jumps.now ≡ true) }
{
    let mut place = entry;
    while place >= FIRST {
        let jump = &jumps[place - FIRST];
        place = next_by(jump, alloc, scopes, sights)?;
    }
    Ok(place == ACCEPT)
}

/// Whether the jumps accept from a place. Error: `NoMemory`, only if an atom has a pattern that is not marked
/// as unread.
fn run(alloc: Global, jumps: &[Jump], entry: usize, scopes: &Scopes) -> Result<bool, NoMemory>
    requires inside { entry < length jumps.now + 2 }
    requires back { LeadsBack jumps.now }
    ensures value { IfOk result (λ holds. holds ≡ accepts jumps.now (context scopes.now.seen) entry) }
    ensures memory { IfErr result (λ _. list_any has_read_pattern jumps.now ≡ true) }
{
    let mut place = entry;
    while place >= FIRST {
        let jump = &jumps[place - FIRST];
        place = next(jump, alloc, scopes)?;
    }
    Ok(place == ACCEPT)
}

/// Adds the jump of an atom, and returns its place. Error: `NoMemory`.
fn add_atom(
    jumps: &mut Vec<Jump>,
    atom: &Rc<Leaf>,
    yes: usize,
    no: usize,
) -> Result<usize, NoMemory>
    requires yes { yes < length jumps.old.items + 2 }
    requires no { no < length jumps.old.items + 2 }
    ensures { IfOk result (λ place.
        Extends jumps.old.items jumps.new.items (marked_of_leaf atom.now.value) yes no place) }
{
    let atom = Rc::clone(atom)?;
    let probe = Probe::of(&atom);
    let place = jumps.len() + FIRST;
    jumps.push(Jump {
        atom,
        probe,
        yes,
        no,
    })?;
    Ok(place)
}

impl Tree {
    /// Adds the jumps of trees joined by `&&`, the last tree first. Error: `NoMemory`.
    #[cycle(adding)]
    fn add_all(
        trees: &[Tree],
        jumps: &mut Vec<Jump>,
        yes: usize,
        no: usize,
    ) -> Result<usize, NoMemory>
        requires yes { yes < length jumps.old.items + 2 }
        requires no { no < length jumps.old.items + 2 }
        ensures { IfOk result (λ place. Extends jumps.old.items jumps.new.items
            (marked.all_of (markeds_of (map marked_of trees.now))) yes no place) }
    {
        let mut place = yes;
        let mut i = trees.len();
        while i > 0 {
            i -= 1;
            place = trees[i].add(jumps, place, no)?;
        }
        Ok(place)
    }

    /// Adds the jumps of trees joined by `||`, the last tree first. Error: `NoMemory`.
    #[cycle(adding)]
    fn add_any(
        trees: &[Tree],
        jumps: &mut Vec<Jump>,
        yes: usize,
        no: usize,
    ) -> Result<usize, NoMemory>
        requires yes { yes < length jumps.old.items + 2 }
        requires no { no < length jumps.old.items + 2 }
        ensures { IfOk result (λ place. Extends jumps.old.items jumps.new.items
            (marked.any_of (markeds_of (map marked_of trees.now))) yes no place) }
    {
        let mut place = no;
        let mut i = trees.len();
        while i > 0 {
            i -= 1;
            place = trees[i].add(jumps, yes, place)?;
        }
        Ok(place)
    }

    /// Adds jumps that go on at `yes` if the tree holds, and at `no` if it does not. Returns the place at
    /// which they begin. Error: `NoMemory`.
    #[cycle(adding)]
    fn add(&self, jumps: &mut Vec<Jump>, yes: usize, no: usize) -> Result<usize, NoMemory>
        requires yes { yes < length jumps.old.items + 2 }
        requires no { no < length jumps.old.items + 2 }
        ensures { IfOk result (λ place.
            Extends jumps.old.items jumps.new.items (marked_of self.now) yes no place) }
    {
        match self {
            Tree::True => Ok(yes),
            Tree::False => Ok(no),
            Tree::Atom(atom) => add_atom(jumps, atom, yes, no),
            Tree::Not(tree) => tree.add(jumps, no, yes),
            Tree::And(trees) => Tree::add_all(trees, jumps, yes, no),
            Tree::Or(trees) => Tree::add_any(trees, jumps, yes, no),
        }
    }
}

impl Flat {
    /// The flat form of a tree, which shares its atoms. Error: `NoMemory`.
    pub(crate) fn new(alloc: Global, tree: &Tree) -> Result<Flat, NoMemory>
        ensures { IfOk result (λ flat. Decides flat.jumps.items (marked_of tree.now) flat.entry) }
    {
        let mut jumps = Vec::new(alloc);
        let entry = tree.add(&mut jumps, ACCEPT, REJECT)?;
        Ok(Flat { jumps, entry })
    }

    /// The flat form of the clause `false`.
    pub(crate) fn never(alloc: Global) -> Flat
        ensures { Decides result.jumps.items marked.never result.entry }
    {
        Flat {
            jumps: Vec::new(alloc),
            entry: REJECT,
        }
    }

    /// Whether the clause holds for the keys that are visible from the focus. Error: `NoMemory`, only if the
    /// clause has a pattern that is not marked as unread.
    pub(crate) fn holds(&self, alloc: Global, scopes: &Scopes) -> Result<bool, NoMemory>
        requires inside { self.now.entry < length self.now.jumps.items + 2 }
        requires back { LeadsBack self.now.jumps.items }
        ensures value { IfOk result (λ holds.
            holds ≡ accepts self.now.jumps.items (context scopes.now.seen) self.now.entry) }
        ensures memory { IfErr result (λ _. list_any has_read_pattern self.now.jumps.items ≡ true) }
    {
        match scopes.sights() {
            Some(sights) => run_by(alloc, &self.jumps, self.entry, scopes, sights),
            None => run(alloc, &self.jumps, self.entry, scopes),
        }
    }
}
