//! Instructions with well-formed blocks.
ghost use Rattle.std.specs.Prelude.{◌≡◌, ℕ, [], None, Some, IfOk, IfErr, option_map};
ghost use Rattle.kb_base.specs.Failure.{IsRefusalOrMemory};
ghost use Rattle.kb_code.specs.Blocks.{block_of, same_block, is_inside, bad_block, Closes, IsFormed};
ghost use Rattle.kb_code.specs.Code.{instr_fault, first_fault, code_fault};
ghost use Rattle.kb_code.specs.declared.fault.CodeFault.TheVariants.{BadBlock};

use crate::blocks::{Tables, bad_block, tables_of};
use crate::fault::CodeFault;
use crate::instr::Instr;
use crate::version::Version;
use kb_base::{Failure, Seq};
use std::alloc::Global;
use std::marker::Model;

/// The code of a handler: instructions whose blocks are well formed, each with at least one iteration, and
/// tables of the blocks. Contracts see the list of instructions.
#[derive(Drop)]
pub struct Code {
    instrs: Seq<Instr>,
    tables: Tables,
}

impl Model for Code {
    ghost use Rattle.std.specs.Prelude.{List, length};
    ghost use Rattle.kb_code.specs.Blocks.{IsFormed};
    ghost use Rattle.kb_code.specs.Tables.{AreStarts, AreEnds};
    ghost use Rattle.kb_code.specs.declared.instr.Instr.{Instr as TheInstr};

    ghost Value = { List TheInstr };

    ghost view = { λ c. c.instrs };

    ghost invariant = { λ c. IsFormed c.instrs
        × AreStarts c.instrs c.tables.starts.items (length c.instrs)
        × AreEnds c.instrs c.tables.ends.items (length c.instrs) };
}

impl Code {
    /// The code of these instructions. Blocks are our decision.
    ///
    /// Errors: the first instruction with a fault gives `BadOpcode` (51) for a `Repeat` or an `End` in
    /// version 1, and `BadOperand` (52) for a `Repeat` of no iteration. Then `BadBlock` (53). `NoMemory`
    /// only if the instructions have no fault.
    pub fn new(
        alloc: Global,
        instrs: Seq<Instr>,
        version: Version,
    ) -> Result<Code, Failure<CodeFault>>
        ensures code { IfOk result (λ code. code ≡ instrs) }
        ensures right { IfOk result (λ code. code_fault version instrs ≡ None) }
        ensures fault { IfErr result (IsRefusalOrMemory (code_fault version instrs)) }
    {
        if let Some(fault) = code_fault(instrs.as_slice(), version) {
            return Err(Failure::Fault(fault));
        }
        let tables = tables_of(alloc, instrs.as_slice())?;
        Ok(Code { instrs, tables })
    }

    /// The instructions. Their blocks are well formed.
    pub fn instrs(&self) -> &[Instr]
        ensures same { result.now ≡ self.now }
        ensures formed { IsFormed self.now }
    {
        self.instrs.as_slice()
    }

    /// The block of a place: the place of the innermost `Repeat` whose block the place is in. An `End` is in
    /// the block that it closes.
    pub fn block(&self, place: usize) -> Option<usize>
        ensures { result ≡ block_of self.now place }
    {
        match self.tables.starts.get(place) {
            Some(start) => *start,
            None => None,
        }
    }

    /// Whether two places have the same block.
    pub fn same_block(&self, place: usize, other: usize) -> bool
        ensures { result ≡ same_block self.now place other }
    {
        match (self.block(place), self.block(other)) {
            (Some(start), Some(other)) => start == other,
            (None, None) => true,
            _ => false,
        }
    }

    /// Whether a later place is the next one or has the same block.
    pub fn is_inside(&self, place: usize, to: usize) -> bool
        ensures { result ≡ is_inside self.now place to }
    {
        (place < to && to - place == 1) || self.same_block(place, to)
    }

    /// The place of the `End` that closes the block of the `Repeat` at a place.
    pub fn end(&self, start: usize) -> usize
        ensures { (e : ℕ) → Closes self.now start e → result ≡ e }
    {
        match self.tables.ends.get(start) {
            Some(end) => *end,
            None => 0,
        }
    }
}

/// The first fault of instructions as code of a version.
fn code_fault(instrs: &[Instr], version: Version) -> Option<CodeFault>
    ensures { result ≡ code_fault version instrs.now }
{
    match first_fault(instrs, version) {
        Some(fault) => Some(fault),
        None => bad_block(instrs).map(|place| CodeFault::BadBlock(place)),
    }
}

/// The first fault of an instruction.
fn first_fault(instrs: &[Instr], version: Version) -> Option<CodeFault>
    ensures { result ≡ first_fault version 0 instrs.now }
{
    for place in 0..instrs.len() {
        if let Some(fault) = instr_fault(version, place, instrs[place]) {
            return Some(fault);
        }
    }
    None
}

/// The fault of an instruction at a place: `BadOpcode` for a `Repeat` or an `End` in version 1, and
/// `BadOperand` for a `Repeat` of no iteration.
pub(crate) fn instr_fault(version: Version, place: usize, instr: Instr) -> Option<CodeFault>
    ensures { result ≡ instr_fault version place instr }
{
    match (version, instr) {
        (Version::One, Instr::Repeat(_) | Instr::End) => Some(CodeFault::BadOpcode(place)),
        (Version::Two, Instr::Repeat(0)) => Some(CodeFault::BadOperand(place)),
        _ => None,
    }
}
