//! A text of handlers, and the handlers of a text.
ghost use Rattle.std.specs.Prelude.{◌≡◌, List, Ok, true, IfOk};
ghost use Rattle.std.specs.List.{list_all};
ghost use Rattle.kb_base.specs.Failure.{Gives};
ghost use Rattle.kb_assembly.specs.declared.draft.Draft.{Draft as TheDraft};
ghost use Rattle.kb_assembly.specs.Draft.{has_texts, has_limits};
ghost use Rattle.kb_assembly.specs.Write.{spaced_lines, file_text};
ghost use Rattle.kb_assembly.specs.File.{sections_in, assemble, in_text, in_handler, line_of, fault_of};
ghost use Rattle.kb_assembly.specs.File.{has_code, IsFile};

use crate::code::TextFault;
use crate::draft::{Draft, HandlerFault, drafts_of, is_sound};
use crate::fault::LineFault;
use crate::sections::{Section, sections_of};
use crate::text::{lines_in, text_of};
use crate::words::Word;
use crate::write::push_draft;
use kb_base::{Failure, NoMemory, Seq};
use std::alloc::Global;

/// A fault of a text.
#[derive(Clone, Copy, Debug, PartialEq, Eq)]
pub enum FileFault {
    /// A fault of the words of a line, or of a line that begins a handler or is before all handlers.
    Text(TextFault),
    /// A fault of a line of a handler.
    Handler(HandlerFault),
}

impl FileFault {
    /// The index of the line of the fault, from 0.
    pub fn line(self) -> usize
        ensures { result ≡ line_of self }
    {
        match self {
            FileFault::Text(fault) => fault.line,
            FileFault::Handler(fault) => fault
                .first
                .saturating_add(1)
                .saturating_add(fault.fault.line),
        }
    }

    /// The fault in its line.
    pub fn fault(self) -> LineFault
        ensures { result ≡ fault_of self }
    {
        match self {
            FileFault::Text(fault) => fault.fault,
            FileFault::Handler(fault) => fault.fault.fault,
        }
    }
}

/// A failure in a line.
fn in_text(failure: Failure<TextFault>) -> Failure<FileFault>
    ensures { result ≡ in_text failure }
{
    match failure {
        Failure::NoMemory => Failure::NoMemory,
        Failure::Fault(fault) => Failure::Fault(FileFault::Text(fault)),
    }
}

/// A failure in a handler.
fn in_handler(failure: Failure<HandlerFault>) -> Failure<FileFault>
    ensures { result ≡ in_handler failure }
{
    match failure {
        Failure::NoMemory => Failure::NoMemory,
        Failure::Fault(fault) => Failure::Fault(FileFault::Handler(fault)),
    }
}

/// The handlers of a text, with their lines. Errors: the first mistake in the words of a line, else in a line
/// that begins a handler or is before all handlers, and `NoMemory`.
fn sections_in(alloc: Global, text: &[u8]) -> Result<Seq<Section>, Failure<TextFault>>
    ensures { Gives (λ sections. sections) result (sections_in text.now) }
{
    let lines = lines_in(alloc, text)?;
    sections_of(alloc, lines)
}

/// Assembles the handlers of a text.
///
/// What is read is in the grammar, and what is in the grammar is read. Errors: the first mistake in the words
/// of a line; else the first one in a line that begins a handler or is before all handlers; else, of the
/// first handler with one, the first mistake in its head, else in its code; and `NoMemory`.
pub fn assemble(alloc: Global, text: &[u8]) -> Result<Seq<Draft>, Failure<FileFault>>
    ensures exact { Gives (λ drafts. drafts) result (assemble text.now) }
    ensures grammar { IfOk result (IsFile text.now) }
    ensures only { (drafts : List TheDraft) → IsFile text.now drafts
        → Gives (λ drafts. drafts) result (Ok drafts) }
{
    read_text(alloc, text)
}

/// The handlers of a text.
fn read_text(alloc: Global, text: &[u8]) -> Result<Seq<Draft>, Failure<FileFault>>
    ensures { Gives (λ drafts. drafts) result (assemble text.now) }
{
    match sections_in(alloc, text) {
        Ok(sections) => match drafts_of(alloc, sections) {
            Ok(drafts) => Ok(drafts),
            Err(failure) => Err(in_handler(failure)),
        },
        Err(failure) => Err(in_text(failure)),
    }
}

/// The lines of handlers, with a blank one before each. Error: `NoMemory`.
fn spaced_lines(alloc: Global, drafts: &[Draft]) -> Result<Seq<Seq<Word>>, NoMemory>
    ensures lines { IfOk result (λ lines. lines ≡ spaced_lines drafts.now) }
    ensures texts { IfOk result (λ lines. list_all has_texts drafts.now ≡ true) }
    ensures limits { IfOk result (λ lines. list_all has_limits drafts.now ≡ true) }
    ensures code { IfOk result (λ lines. list_all has_code drafts.now ≡ true) }
{
    let mut lines = Seq::new(alloc);
    for draft in drafts {
        is_sound(draft);
        lines.push(Seq::new(alloc))?;
        push_draft(alloc, &mut lines, draft)?;
    }
    Ok(lines)
}

/// Disassembles handlers: their text, by the names of their texts, calls and parameters, and with a label for
/// each place of their code to which a jump leads. It is assembled to the same handlers again. Error:
/// `NoMemory`.
pub fn disassemble(alloc: Global, drafts: &[Draft]) -> Result<Seq<u8>, NoMemory>
    ensures text { IfOk result (λ text. text ≡ file_text drafts.now) }
    ensures again { IfOk result (λ text. assemble text ≡ Ok drafts.now) }
{
    write_text(alloc, drafts)
}

/// The text of handlers.
fn write_text(alloc: Global, drafts: &[Draft]) -> Result<Seq<u8>, NoMemory>
    ensures text { IfOk result (λ text. text ≡ file_text drafts.now) }
    ensures texts { IfOk result (λ text. list_all has_texts drafts.now ≡ true) }
    ensures limits { IfOk result (λ text. list_all has_limits drafts.now ≡ true) }
    ensures code { IfOk result (λ text. list_all has_code drafts.now ≡ true) }
{
    let lines = spaced_lines(alloc, drafts)?;
    match lines.as_slice() {
        [_, rest @ ..] => text_of(alloc, rest),
        [] => text_of(alloc, lines.as_slice()),
    }
}

/// The canonical form of a text: that of its handlers. It is assembled to the same handlers, and is its own
/// canonical form. Errors: those of [`assemble`].
#[tactic(auto, using(crate::proofs::FileLemmas::own_form))]
pub fn canonical(alloc: Global, text: &[u8]) -> Result<Seq<u8>, Failure<FileFault>>
    ensures same { IfOk result (λ form. assemble form ≡ assemble text.now) }
    ensures itself { IfOk result (λ form. (drafts : List TheDraft) → assemble form ≡ Ok drafts
        → file_text drafts ≡ form) }
{
    let drafts = assemble(alloc, text)?;
    Ok(disassemble(alloc, drafts.as_slice())?)
}
