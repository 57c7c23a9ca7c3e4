//! Plans of code with blocks: where blocks open and close.
use crate::random::Random;
use kb_base::NoMemory;
use std::alloc::Global;

/// A part of a plan, three instructions long.
#[derive(Clone, Copy)]
pub(crate) enum Slot {
    /// A phrase.
    Phrase,
    /// The beginning of a block of so many turns.
    Open(u16),
    /// The end of the innermost open block.
    Close,
}

// A random number of turns. Outer blocks have one to four, inner ones one or two, and one block of twelve any
// number.
fn random_turns(random: &mut Random, open: u16) -> u16 {
    let turns = match (random.below(12), open) {
        (0, _) => random.below(u16::MAX),
        (_, 0) => random.below(4),
        _ => random.below(2),
    };
    turns.wrapping_add(1)
}

fn random_slot(random: &mut Random, open: u16) -> Slot {
    match random.below(8) {
        0 | 1 if open > 0 => Slot::Close,
        2 | 3 => Slot::Open(random_turns(random, open)),
        _ => Slot::Phrase,
    }
}

// Opens nine blocks at most, which is one too many.
fn open_some(random: &mut Random, slots: &mut Vec<Slot>, count: u16) -> Result<(), NoMemory> {
    for open in 0..count {
        slots.push(Slot::Open(random_turns(random, open)))?;
    }
    Ok(())
}

// Adds slots behind those that open so many blocks: the number of blocks that are open then.
fn add_some(
    random: &mut Random,
    slots: &mut Vec<Slot>,
    open: u16,
    count: u16,
) -> Result<u16, NoMemory> {
    let mut open = open;
    for _ in 0..count {
        let slot = random_slot(random, open);
        open = match slot {
            Slot::Phrase => open,
            Slot::Open(_) => open.wrapping_add(1),
            Slot::Close => open.wrapping_sub(1),
        };
        slots.push(slot)?;
    }
    Ok(open)
}

fn close_all(slots: &mut Vec<Slot>, open: u16) -> Result<(), NoMemory> {
    for _ in 0..open {
        slots.push(Slot::Close)?;
    }
    Ok(())
}

/// A random plan, which closes each block that it opens. One plan of eight begins with up to nine blocks.
pub(crate) fn random_plan(alloc: Global, random: &mut Random) -> Result<Vec<Slot>, NoMemory> {
    let mut slots = Vec::new(alloc);
    let deep = if random.below(8) == 0 {
        random.below(10)
    } else {
        0
    };
    open_some(random, &mut slots, deep)?;
    let count = random.below(4).wrapping_add(3);
    let open = add_some(random, &mut slots, deep, count)?;
    close_all(&mut slots, open)?;
    Ok(slots)
}

/// The numbers of the slots to which a jump of the slot `nth` may lead: the later ones beside it, and that
/// which ends its block or, outside of all blocks, the return behind the plan.
pub(crate) fn targets(alloc: Global, slots: &[Slot], nth: usize) -> Result<Vec<usize>, NoMemory> {
    let mut open = 0u16;
    let mut targets = Vec::new(alloc);
    for later in nth.saturating_add(1)..slots.len() {
        if open == 0 {
            targets.push(later)?;
        }
        match slots[later] {
            Slot::Phrase => {}
            Slot::Open(_) => open = open.wrapping_add(1),
            Slot::Close if open == 0 => return Ok(targets),
            Slot::Close => open = open.wrapping_sub(1),
        }
    }
    targets.push(slots.len())?;
    Ok(targets)
}
