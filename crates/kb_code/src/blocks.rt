//! Tests of the blocks of instructions, and their tables.
ghost use Rattle.std.specs.Prelude.{◌≡◌, ◌<◌, [], false, None, length, IfOk, IfSome};
ghost use Rattle.kb_code.specs.Blocks.{opened, is_bad, bad_block};
ghost use Rattle.kb_code.specs.Tables.{AreStarts, AreEnds, with_end};

use crate::instr::Instr;
use crate::nest::{BLOCK_LIMIT, Nest};
use kb_base::NoMemory;
use std::alloc::Global;

/// For each place of code the start of its block, and for each start of a block its end.
#[derive(Drop)]
pub(crate) struct Tables {
    pub starts: Vec<Option<usize>>,
    pub ends: Vec<usize>,
}

/// The first place where blocks are not well formed.
pub(crate) fn bad_block(instrs: &[Instr]) -> Option<usize>
    ensures { result ≡ bad_block 0 [] instrs.now }
{
    let mut nest = Nest::none();
    for place in 0..instrs.len() {
        let instr = instrs[place];
        if is_bad(instr, &nest) {
            return Some(place);
        }
        pass(&mut nest, place, instr);
    }
    nest.outermost()
}

/// Whether an instruction is not well formed among the open blocks: an `End` without one, a ninth one, or a
/// `Return` inside one.
fn is_bad(instr: Instr, nest: &Nest) -> bool
    ensures { result ≡ is_bad instr nest.now }
{
    match instr {
        Instr::End => nest.len() == 0,
        Instr::Repeat(_) => BLOCK_LIMIT <= nest.len(),
        Instr::Return => nest.len() > 0,
        _ => false,
    }
}

/// Opens or closes a block at a place, if the instruction there does.
fn pass(nest: &mut Nest, place: usize, instr: Instr)
    requires { is_bad instr nest.old ≡ false }
    ensures { nest.new ≡ opened place instr nest.old }
{
    match instr {
        Instr::Repeat(_) => nest.open(place),
        Instr::End => nest.close(),
        _ => {}
    }
}

/// The tables of well-formed blocks. Error: `NoMemory`.
pub(crate) fn tables_of(alloc: Global, instrs: &[Instr]) -> Result<Tables, NoMemory>
    requires { bad_block 0 [] instrs.now ≡ None }
    ensures starts { IfOk result (λ t. AreStarts instrs.now t.starts.items (length instrs.now)) }
    ensures ends { IfOk result (λ t. AreEnds instrs.now t.ends.items (length instrs.now)) }
{
    let size = instrs.len();
    let mut nest = Nest::none();
    let mut starts = Vec::with_capacity(alloc, size)?;
    let mut ends = vec![in alloc; 0; size]?;
    for place in 0..size {
        let instr = instrs[place];
        let start = nest.innermost();
        starts.push(start)?;
        note_end(&mut ends, start, place, instr);
        pass(&mut nest, place, instr);
    }
    Ok(Tables { starts, ends })
}

/// Notes the end of a block at its start, if the instruction at a place is one.
fn note_end(ends: &mut Vec<usize>, start: Option<usize>, place: usize, instr: Instr)
    requires { IfSome start (λ q. q < length ends.old.items) }
    ensures { ends.new.items ≡ with_end ends.old.items start place instr }
{
    if let (Some(start), Instr::End) = (start, instr) {
        ends[start] = place;
    }
}
