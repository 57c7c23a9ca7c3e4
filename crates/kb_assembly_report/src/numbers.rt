//! The numbers of the lines of instructions.
ghost use Rattle.std.specs.Prelude.{◌≡◌, Ok, IfOk, slice_get};
ghost use Rattle.kb_assembly.specs.File.{sections_in};
ghost use Rattle.kb_assembly_report.specs.Numbers.{numbers_at, numbers_in};

use kb_assembly::{Section, is_instr, lines_in, sections_of};
use kb_base::{Failure, NoMemory, Seq};
use std::alloc::{AllocError, Global};

/// The lines of the handlers of a text without mistakes in words and in the lines that begin handlers. Error:
/// `NoMemory`.
pub(crate) fn sections_in(alloc: Global, bytes: &[u8]) -> Result<Seq<Section>, NoMemory>
    ensures { IfOk result (λ sections. sections_in bytes.now ≡ Ok sections) }
{
    match lines_in(alloc, bytes) {
        Ok(lines) => match sections_of(alloc, lines) {
            Ok(sections) => Ok(sections),
            Err(_) => Err(AllocError),
        },
        Err(_) => Err(AllocError),
    }
}

/// The numbers, from 1, of the lines of a handler's instructions. Error: `NoMemory`.
fn numbers_in(alloc: Global, section: &Section) -> Result<Seq<usize>, NoMemory>
    ensures { IfOk result (λ numbers. numbers ≡ numbers_in section.now) }
{
    let mut numbers = Seq::new(alloc);
    let mut number = section.line.saturating_add(2);
    let mut left = section.lines.as_slice();
    while let [words, rest @ ..] = left {
        if is_instr(words.as_slice()) {
            numbers.push(number)?;
        }
        number = number.saturating_add(1);
        left = rest;
    }
    Ok(numbers)
}

/// The same of the handler at an index, or none if there is no such handler. Error: `NoMemory`.
pub(crate) fn numbers_at(
    alloc: Global,
    sections: &[Section],
    index: usize,
) -> Result<Seq<usize>, NoMemory>
    ensures { IfOk result (λ numbers. numbers ≡ numbers_at (slice_get sections.now index)) }
{
    match sections.get(index) {
        Some(section) => {
            let numbers = numbers_in(alloc, section)?;
            Ok(numbers)
        }
        None => Ok(Seq::new(alloc)),
    }
}
