//! What `keycheck assemble` and `keycheck disassemble` write: the `handlers.json` of a text of assembly, or
//! all of its faults, each with its line and a caret; and the text of a `handlers.json`, with the kinds of
//! the values that stand on the stack behind each instruction.
#![tactic(auto)]

pub mod assembling;
mod carets;
mod choosing;
mod declaring;
pub mod disassembling;
pub mod entry;
mod file_limits;
mod found;
mod holding;
mod json;
mod judging;
pub mod laws;
mod line_words;
mod mistakes;
mod numbers;
mod refused;
mod sources;
mod stack;

pub use assembling::{Translation, assemble_file};
pub use disassembling::disassemble_file;
