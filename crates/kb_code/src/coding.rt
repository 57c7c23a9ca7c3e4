//! Encoding and decoding of code.
ghost use Rattle.std.specs.Prelude.{◌≡◌, ◌==◌, ◌%◌, ◌++◌, length, flat_map, IfOk, IfErr, Ok, None};
ghost use Rattle.std.specs.Result.{result_err};
ghost use Rattle.std.specs.Int.{w16, from_be_bytes};
ghost use Rattle.kb_base.specs.Failure.{Gives, IsRefusalOrMemory};
ghost use Rattle.kb_base.specs.Reading.{seen};
ghost use Rattle.kb_code.specs.Code.{first_fault};
ghost use Rattle.kb_code.specs.declared.version.Version.{Version as TheVersion};
ghost use Rattle.kb_code.specs.Coding.{bytes_of, code_from, code_of, failure_of, instr_at};

use crate::code::instr_fault;
use crate::fault::CodeFault;
use crate::instr::Instr;
use crate::version::Version;
use kb_base::{Failure, NoMemory, Seq};
use std::alloc::Global;

/// The number of bytes of an instruction: the opcode, and the operand in two bytes, high byte first.
const INSTR_BYTES: usize = 3;

/// Decodes the instructions of a version. The encoding is our decision. Encoding the result gives exactly
/// these bytes.
///
/// Errors: `BadLength` (50) takes precedence. Otherwise, the first invalid instruction gives `BadOpcode`
/// (51) or `BadOperand` (52). In version 1 `Repeat` and `End` are `BadOpcode`. `NoMemory` only if the bytes
/// have no fault.
#[tactic(auto, unfolding(crate::specs::Coding::code_of))]
pub fn decode(
    alloc: Global,
    bytes: &[u8],
    version: Version,
) -> Result<Seq<Instr>, Failure<CodeFault>>
    ensures code { Gives (λ code. code) result (code_of version bytes.now) }
    ensures memory { IfErr result (IsRefusalOrMemory (result_err (code_of version bytes.now))) }
    ensures written_again { IfOk result (λ code. bytes.now ≡ flat_map bytes_of code) }
{
    if bytes.len() % INSTR_BYTES != 0 {
        return Err(Failure::Fault(CodeFault::BadLength));
    }
    match code_from(alloc, bytes, version) {
        Ok(code) => Ok(code),
        Err(Failure::Fault(fault)) => Err(Failure::Fault(fault)),
        Err(Failure::NoMemory) => Err(failure_in(bytes, version)),
    }
}

/// The failure after a refused allocation: the first fault of the bytes, or `NoMemory` if they have none.
fn failure_in(bytes: &[u8], version: Version) -> Failure<CodeFault>
    ensures { result ≡ failure_of (code_from version 0 bytes.now) }
{
    let mut place = 0;
    let mut left = bytes;
    while let [opcode, high, low, rest @ ..] = left {
        let operand = u16::from_be_bytes([*high, *low]);
        match instr_at(version, place, *opcode, operand) {
            Ok(_instr) => place += 1,
            Err(fault) => return Failure::Fault(fault),
        }
        left = rest;
    }
    Failure::NoMemory
}

/// Decodes bytes whose length is a whole number of instructions. Errors: `BadOpcode`, `BadOperand` and
/// `NoMemory`.
fn code_from(
    alloc: Global,
    bytes: &[u8],
    version: Version,
) -> Result<Seq<Instr>, Failure<CodeFault>>
    ensures { Gives (λ code. code) result (code_from version 0 bytes.now) }
{
    let mut code = Vec::with_capacity(alloc, bytes.len() / INSTR_BYTES)?;
    let mut left = bytes;
    while let [opcode, high, low, rest @ ..] = left {
        let operand = u16::from_be_bytes([*high, *low]);
        match instr_at(version, code.len(), *opcode, operand) {
            Ok(instr) => code.push(instr)?,
            Err(fault) => return Err(Failure::Fault(fault)),
        }
        left = rest;
    }
    Ok(Seq::from_vec(code))
}

/// The instruction at a place. Errors: `BadOpcode` and `BadOperand`, with the place.
#[tactic(auto, unfolding(crate::specs::Coding::instr_at))]
fn instr_at(version: Version, place: usize, opcode: u8, operand: u16) -> Result<Instr, CodeFault>
    ensures { result ≡ instr_at version place opcode operand }
{
    let Some(instr) = Instr::of(opcode, operand) else {
        return Err(CodeFault::BadOpcode(place));
    };
    if let Some(fault) = instr_fault(version, place, instr) {
        return Err(fault);
    }
    if instr.operand() != operand {
        return Err(CodeFault::BadOperand(place));
    }
    Ok(instr)
}

/// Encodes instructions. Where they have no fault in a version, `decode` returns the same. Error: `NoMemory`.
#[tactic(auto, using(crate::proofs::CodingLemmas::all_read_again))]
pub fn encode(alloc: Global, code: &[Instr]) -> Result<Seq<u8>, NoMemory>
    ensures bytes { IfOk result (λ bytes. bytes ≡ flat_map bytes_of code.now) }
    ensures read_again { IfOk result (λ bytes. (version : TheVersion)
        → first_fault version 0 code.now ≡ None → code_of version bytes ≡ Ok code.now) }
{
    let mut bytes = Vec::new(alloc);
    for instr in code {
        let [high, low] = instr.operand().to_be_bytes();
        bytes.extend_from_slice([instr.opcode(), high, low].as_slice())?;
    }
    Ok(Seq::from_vec(bytes))
}
