//! Random code with blocks.
use crate::names::KEYS;
use crate::phrases::{Names, Phrase, SIZE, Top, arbitrary, later, random_phrase};
use crate::plan::{Slot, random_plan, targets};
use crate::random::Random;
use kb_base::NoMemory;
use kb_code::Instr;
use kb_verify::Callable;
use std::alloc::Global;

/// Code that is made from a plan, and what is on top of the stack behind it.
#[derive(Drop)]
struct PartialCode {
    code: Vec<Instr>,
    top: Top,
    // The slot to which the last jump leads, and what is on top of the stack at the jump.
    jump: (usize, Top),
    // What was on top of the stack where the open blocks began.
    opened: Vec<Top>,
}

// The place of a slot to which jumps lead. That of one which closes a block is its `End`.
fn place_of(slots: &[Slot], nth: usize) -> u16 {
    let first = u16::try_from(nth).unwrap_or(0).wrapping_mul(SIZE);
    match slots.get(nth) {
        Some(Slot::Close) => first.wrapping_add(2),
        _ => first,
    }
}

// A slot behind this one: one to which a jump may lead, or in one of eight cases any.
fn random_target(
    alloc: Global,
    random: &mut Random,
    slots: &[Slot],
    nth: usize,
) -> Result<usize, NoMemory> {
    let targets = targets(alloc, slots, nth)?;
    let count = u16::try_from(targets.len()).unwrap_or(0);
    let target = targets.get(usize::from(random.below(count))).copied();
    let any = later(
        random,
        u16::try_from(slots.len()).unwrap_or(0),
        u16::try_from(nth).unwrap_or(0),
    );
    match target {
        Some(target) if random.below(8) > 0 => Ok(target),
        _ => Ok(usize::from(any)),
    }
}

// Two instructions behind which `to` is on top of the stack in place of `from`. In one of six cases they
// leave `from` there.
fn mending(random: &mut Random, from: Top, to: Top) -> [Instr; 2] {
    let key = random.below(KEYS);
    let number = random.below(4);
    match (random.below(6), from, to) {
        (0, _, _) => [Instr::Num(number), Instr::Drop],
        (_, Top::Nothing, Top::Nothing) => [Instr::Before, Instr::Drop],
        (_, Top::Nothing, Top::Number) => [Instr::Num(number), Instr::Number],
        (_, Top::Nothing, Top::Text) => [Instr::Before, Instr::Show],
        (_, Top::Nothing, Top::Truth) => [Instr::After, Instr::IsTrue],
        (_, Top::Nothing, Top::Any) => [Instr::Call(1), Instr::Context(key)],
        (_, _, Top::Nothing) => [Instr::Show, Instr::Drop],
        (_, _, Top::Number) => [Instr::Number, Instr::Number],
        (_, _, Top::Text) => [Instr::Show, Instr::Show],
        (_, _, Top::Truth) => [Instr::IsTrue, Instr::Not],
        (_, Top::Any, Top::Any) => [Instr::Dup, Instr::Drop],
        (_, _, Top::Any) => [Instr::Drop, Instr::Context(key)],
    }
}

// The code of a phrase. A text that each turn of a block made twice as long would fill the memory.
fn without_doubling(phrase: Phrase) -> [Instr; 3] {
    match phrase.code {
        [Instr::Dup, Instr::Join, last] => [Instr::Dup, Instr::Drop, last],
        code => code,
    }
}

impl PartialCode {
    fn add_phrase(
        &mut self,
        alloc: Global,
        random: &mut Random,
        callable: &Callable,
        names: Names,
        slots: &[Slot],
        nth: usize,
    ) -> Result<(), NoMemory> {
        if self.jump.0 == nth {
            self.top = self.jump.1;
        }
        let to = random_target(alloc, random, slots, nth)?;
        let place = place_of(slots, to);
        let phrase = random_phrase(random, callable, names, self.top, place);
        let code = without_doubling(phrase);
        self.code.extend_from_slice(code.as_slice())?;
        if phrase.jumps() {
            self.jump = (to, phrase.top);
        }
        self.top = phrase.top;
        Ok(())
    }

    // Opens a block, at whose `Repeat` a jump may arrive.
    fn open(&mut self, random: &mut Random, turns: u16, nth: usize) -> Result<(), NoMemory> {
        if self.jump.0 == nth {
            self.top = self.jump.1;
        }
        let [first, second] = mending(random, self.top, self.top);
        let code = [Instr::Repeat(turns), first, second];
        self.opened.push(self.top)?;
        self.code.extend_from_slice(code.as_slice())
    }

    // Closes a block, with that on top of the stack which was there where it began.
    fn close(&mut self, random: &mut Random) -> Result<(), NoMemory> {
        let top = self.opened.pop().unwrap_or(Top::Nothing);
        let [first, second] = mending(random, self.top, top);
        let code = [first, second, Instr::End];
        self.top = top;
        self.code.extend_from_slice(code.as_slice())
    }
}

fn code_of(
    alloc: Global,
    random: &mut Random,
    callable: &Callable,
    names: Names,
    slots: &[Slot],
) -> Result<Vec<Instr>, NoMemory> {
    let mut draft = PartialCode {
        code: Vec::new(alloc),
        top: Top::Nothing,
        jump: (0, Top::Nothing),
        opened: Vec::new(alloc),
    };
    for nth in 0..slots.len() {
        match slots[nth] {
            Slot::Phrase => draft.add_phrase(alloc, random, callable, names, slots, nth)?,
            Slot::Open(turns) => draft.open(random, turns, nth)?,
            Slot::Close => draft.close(random)?,
        }
    }
    let PartialCode { mut code, .. } = draft;
    code.push(Instr::Return)?;
    Ok(code)
}

// Any instruction for code of `size` instructions, which may open or close a block.
fn arbitrary_in_blocks(random: &mut Random, size: u16) -> Instr {
    match random.below(12) {
        0 => Instr::Repeat(random.below(3).wrapping_add(1)),
        1 => Instr::End,
        _ => arbitrary(random, size),
    }
}

fn put(code: &mut Vec<Instr>, place: u16, instr: Instr) {
    if let Some(found) = code.get_mut(usize::from(place)) {
        *found = instr;
    }
}

// Replaces an instruction by an arbitrary one in one of four handlers, and exchanges it with the next one in
// another. This moves the ends of blocks, so that jumps lead into a block or out of it.
fn spoil(random: &mut Random, code: &mut Vec<Instr>) {
    let size = u16::try_from(code.len()).unwrap_or(0);
    let place = random.below(size);
    let next = place.wrapping_add(1);
    let instr = arbitrary_in_blocks(random, size);
    let here = code.get(usize::from(place)).copied();
    let beside = code.get(usize::from(next)).copied();
    match (random.below(4), here, beside) {
        (0, _, _) => put(code, place, instr),
        (1, Some(here), Some(beside)) => {
            put(code, place, beside);
            put(code, next, here);
        }
        _ => {}
    }
}

/// Random code with blocks: three to six phrases, blocks around some of them, and a return. As in code
/// without blocks, the verifier has to refuse a handler where two paths meet with other operands.
pub(crate) fn random_blocks(
    alloc: Global,
    random: &mut Random,
    callable: &Callable,
    names: Names,
) -> Result<Vec<Instr>, NoMemory> {
    let slots = random_plan(alloc, random)?;
    let mut code = code_of(alloc, random, callable, names, slots.as_slice())?;
    spoil(random, &mut code);
    Ok(code)
}
