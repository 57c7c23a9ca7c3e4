//! The code of a handler, as hexadecimal text.
ghost use Rattle.std.specs.Prelude.{◌≡◌};
ghost use Rattle.std.specs.Result.{result_ok};
ghost use Rattle.hex.specs.Hex.{decode_of};
ghost use Rattle.kb_base.specs.Reading.{or_fault};
ghost use Rattle.kb_jsonc.specs.Mismatch.{GivesOr};
ghost use Rattle.kb_code.specs.Code.{code_fault};
ghost use Rattle.kb_handler_file.specs.Fault.{fault_of};
ghost use Rattle.kb_handler_file.specs.Code.{bytes_in, instrs_of, formed, code_in};

use crate::fault::HandlersExpected;
use hex::FromHexError;
use kb_base::{Failure, Seq};
use kb_code::{Code, Instr, Version, decode};
use std::alloc::Global;

/// The maximum number of instructions in a handler.
const INSTR_LIMIT: usize = 10_000;

/// The number of bytes of an instruction.
const INSTR_BYTES: usize = 3;

/// Decodes hexadecimal text. Errors: `Hex` and `NoMemory`.
fn bytes_in(alloc: Global, text: &str) -> Result<Vec<u8>, Failure<HandlersExpected>>
    ensures { GivesOr fault_of (λ bytes. bytes.items) result (bytes_in text.now) }
{
    match hex::decode(alloc, text) {
        Ok(bytes) => Ok(bytes),
        Err(FromHexError::OutOfMemory) => Err(Failure::NoMemory),
        Err(_) => Err(Failure::Fault(HandlersExpected::Hex)),
    }
}

/// Decodes instructions. Errors: `AtMost` for more than `INSTR_LIMIT` instructions, `CodeWithout`, and
/// `NoMemory`.
#[tactic(auto, unfolding(crate::specs::Code::instrs_of))]
fn instrs_of(
    alloc: Global,
    bytes: &[u8],
    version: Version,
) -> Result<Seq<Instr>, Failure<HandlersExpected>>
    ensures { GivesOr fault_of (λ instrs. instrs) result (instrs_of version bytes.now) }
{
    if bytes.len() % INSTR_BYTES == 0 && bytes.len() / INSTR_BYTES > INSTR_LIMIT {
        return Err(Failure::Fault(HandlersExpected::AtMost(INSTR_LIMIT)));
    }
    decode(alloc, bytes, version).map_err(|failure| failure.map_fault(
        HandlersExpected::CodeWithout,
    ))
}

/// The code of these instructions. Errors: `CodeWithout` and `NoMemory`.
fn formed(
    alloc: Global,
    instrs: Seq<Instr>,
    version: Version,
) -> Result<Code, Failure<HandlersExpected>>
    ensures { GivesOr fault_of (λ code. code) result (formed instrs (code_fault version instrs)) }
{
    Code::new(alloc, instrs, version).map_err(|failure| failure.map_fault(
        HandlersExpected::CodeWithout,
    ))
}

/// Decodes the code of a hexadecimal text. Errors: `Hex`, `AtMost`, `CodeWithout` and
/// `NoMemory`.
pub(crate) fn read_code(
    alloc: Global,
    text: &str,
    version: Version,
) -> Result<Code, Failure<HandlersExpected>>
    ensures { GivesOr fault_of (λ code. code) result (code_in version text.now) }
{
    let bytes = bytes_in(alloc, text)?;
    let instrs = instrs_of(alloc, bytes.as_slice(), version)?;
    formed(alloc, instrs, version)
}
