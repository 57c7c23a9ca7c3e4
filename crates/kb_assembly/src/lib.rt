//! The assembly language of handlers: a text for handlers, in both directions.
//!
//! A line is cut into words (`words`), and a text into lines (`text`) and handlers (`sections`). The lines of
//! a handler are those of its head (`head`), labels and instructions (`code`). The words of an instruction
//! name it, and its operand by a text, a name or a number (`line`). Texts and calls that no line of the head
//! lists are added to the handler's tables in order of first use (`uses`). `file` has both directions of the
//! whole.
#![tactic(auto)]

pub mod code;
pub mod draft;
pub mod fault;
pub mod file;
pub mod head;
mod index;
pub mod line;
mod mnemonic;
pub mod names;
pub mod sections;
pub mod table;
mod targets;
pub mod text;
pub mod uses;
pub mod words;
mod write;

pub use code::{TextFault, assembled, is_instr, labels_of, line_instr, lines_of};
pub use draft::{Draft, HandlerFault, draft_of, drafts_of, handler_draft};
pub use fault::{LineFault, Mistake};
pub use file::{FileFault, assemble, canonical, disassemble};
pub use head::{Entry, Head, head_of, kind_name};
pub use line::{instr_of, written};
pub use names::Names;
pub use sections::{Cut, Section, sections_of, starts};
pub use table::{Label, Labels, Table};
pub use text::{lines_in, text_of};
pub use uses::{calls_used, texts_used};
pub use words::{Word, words_of};
