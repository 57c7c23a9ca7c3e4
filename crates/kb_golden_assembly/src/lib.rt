//! Golden tests of the assembly language of handlers: what `keycheck assemble` and `keycheck disassemble`
//! write.
#![tactic(auto)]

use kb_assembly_report::{Translation, assemble_file, disassemble_file};
use kb_base::NoMemory;
use std::alloc::Global;

/// The text of the other file, or the faults.
fn text_of(alloc: Global, translation: Translation) -> Result<String, NoMemory> {
    match translation {
        Translation::File(bytes) => match String::from_utf8(bytes.into_vec()) {
            Ok(text) => Ok(text),
            Err(_) => String::from_str(alloc, "no text"),
        },
        Translation::Faults(text) => Ok(text.into_string()),
    }
}

/// The output of a case of kind `assemble` or `disassemble`.
pub fn run_case(alloc: Global, kind: &str, input: &[u8]) -> Result<String, NoMemory> {
    match kind {
        "assemble" => text_of(alloc, assemble_file(alloc, "a.asm", input)?),
        "disassemble" => text_of(alloc, disassemble_file(alloc, "a.json", input)?),
        _ => String::from_str(alloc, "no kind"),
    }
}
