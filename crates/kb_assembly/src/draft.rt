//! A handler as a text has it.
ghost use Rattle.std.specs.Prelude.{◌≡◌, Ok, true, IfOk};
ghost use Rattle.kb_base.specs.Failure.{Gives};
ghost use Rattle.kb_assembly.specs.declared.draft.Draft.{Draft as TheDraft};
ghost use Rattle.kb_assembly.specs.Code.{assembled};
ghost use Rattle.kb_assembly.specs.Draft.{handler_draft, draft_of, with_code, section_draft, drafts_of};
ghost use Rattle.kb_assembly.specs.Draft.{names_of};
ghost use Rattle.kb_assembly.specs.Draft.{placed_failure, is_wide, has_texts, has_limits, IsHandler};
ghost use Rattle.kb_assembly.specs.Text.{are_utf8};

use crate::code::{TextFault, assembled};
use crate::head::{Head, head_of};
use crate::sections::Section;
use crate::table::Table;
use crate::text::{are_utf8, is_text};
use crate::uses::{calls_used, texts_used};
use crate::words::Word;
use kb_base::{Failure, NoMemory, Seq, Text};
use kb_code::{Handler, Instr};
use kb_core::Param;
use std::alloc::Global;

/// A handler as a text has it. Its budget and its depth may be left out.
#[derive(Debug, Drop)]
pub struct Draft {
    pub command: Text,
    pub params: Seq<Param>,
    pub budget: Option<u32>,
    pub depth: Option<u32>,
    pub texts: Seq<Text>,
    pub calls: Seq<Text>,
    pub code: Seq<Instr>,
}

/// Copies parameters. Error: `NoMemory`.
fn params_copied(alloc: Global, params: &[Param]) -> Result<Seq<Param>, NoMemory>
    ensures { IfOk result (λ made. made ≡ params.now) }
{
    let mut made = Seq::new(alloc);
    for param in params {
        let name = param.name.copied()?;
        let kind = param.kind;
        made.push(Param { name, kind })?;
    }
    Ok(made)
}

/// Copies instructions. Error: `NoMemory`.
fn instrs_copied(alloc: Global, instrs: &[Instr]) -> Result<Seq<Instr>, NoMemory>
    ensures { IfOk result (λ made. made ≡ instrs.now) }
{
    let mut made = Seq::new(alloc);
    for instr in instrs {
        made.push(*instr)?;
    }
    Ok(made)
}

/// A handler, as a text has it. Error: `NoMemory`.
pub fn handler_draft(alloc: Global, handler: &Handler) -> Result<Draft, NoMemory>
    ensures { IfOk result (λ draft. draft ≡ handler_draft handler.now) }
{
    let command = handler.command().copied()?;
    let params = params_copied(alloc, handler.signature().params())?;
    let budget = Some(handler.signature().budget());
    let depth = Some(u32::from(handler.signature().depth()));
    let texts = copied(alloc, handler.texts())?;
    let calls = copied(alloc, handler.calls())?;
    let code = instrs_copied(alloc, handler.code().instrs())?;
    Ok(Draft {
        command,
        params,
        budget,
        depth,
        texts,
        calls,
        code,
    })
}

/// A fault of a text: the index of the line `.handler` of its handler, and the fault in the lines behind it.
#[derive(Clone, Copy, Debug, PartialEq, Eq)]
pub struct HandlerFault {
    /// The index of the line that begins the handler, from 0.
    pub first: usize,
    /// The fault, by the index of its line among those behind it.
    pub fault: TextFault,
}

/// The names of parameters. Error: `NoMemory`.
pub(crate) fn names_of(alloc: Global, params: &[Param]) -> Result<Seq<Text>, NoMemory>
    ensures { IfOk result (λ names. names ≡ names_of params.now) }
{
    let mut names = Seq::new(alloc);
    for param in params {
        names.push(param.name.copied()?)?;
    }
    Ok(names)
}

/// The names of parameters are UTF-8.
fn are_names(params: &[Param])
    ensures { are_utf8 (names_of params.now) ≡ true }
{
    for param in params {
        is_text(param.name.as_str());
    }
}

/// A limit has 32 bits.
fn is_wide(limit: Option<u32>)
    ensures { is_wide limit ≡ true }
{
    let _limit = limit;
}

/// For proofs alone: the texts of a handler are UTF-8, and its limits have 32 bits.
pub(crate) fn is_sound(draft: &Draft)
    ensures texts { has_texts draft.now ≡ true }
    ensures limits { has_limits draft.now ≡ true }
{
    is_text(draft.command.as_str());
    are_utf8(draft.texts.as_slice());
    are_utf8(draft.calls.as_slice());
    are_names(draft.params.as_slice());
    is_wide(draft.budget);
    is_wide(draft.depth);
}

/// The handler of a command with these lines. Errors: the first mistake in its head, else in its code, and
/// `NoMemory`.
///
/// What is read is in the grammar, and what is in the grammar is read.
pub fn draft_of(
    alloc: Global,
    command: Text,
    lines: &[Seq<Word>],
) -> Result<Draft, Failure<TextFault>>
    ensures exact { Gives (λ draft. draft) result (draft_of command lines.now) }
    ensures grammar { IfOk result (IsHandler command lines.now) }
    ensures only { (draft : TheDraft) → IsHandler command lines.now draft
        → Gives (λ draft. draft) result (Ok draft) }
{
    read_draft(alloc, command, lines)
}

/// The handler of a command with these lines.
fn read_draft(
    alloc: Global,
    command: Text,
    lines: &[Seq<Word>],
) -> Result<Draft, Failure<TextFault>>
    ensures { Gives (λ draft. draft) result (draft_of command lines.now) }
{
    let head = head_of(alloc, lines)?;
    with_code(alloc, command, head, lines)
}

/// The instructions of lines, whose operands may be names of these parameters and of entries of these tables.
/// Errors: the first mistake, and `NoMemory`.
fn code_of(
    alloc: Global,
    texts: &[Text],
    calls: &[Text],
    params: &[Param],
    lines: &[Seq<Word>],
) -> Result<Seq<Instr>, Failure<TextFault>>
    ensures { Gives (λ code. code) result (assembled texts.now calls.now (names_of params.now) lines.now) }
{
    let texts = Table::of(alloc, copied(alloc, texts)?)?;
    let calls = Table::of(alloc, copied(alloc, calls)?)?;
    let params = Table::of(alloc, names_of(alloc, params)?)?;
    assembled(alloc, texts, calls, params, lines)
}

/// Copies texts. Error: `NoMemory`.
pub(crate) fn copied(alloc: Global, texts: &[Text]) -> Result<Seq<Text>, NoMemory>
    ensures { IfOk result (λ made. made ≡ texts.now) }
{
    let mut made = Seq::new(alloc);
    for text in texts {
        made.push(text.copied()?)?;
    }
    Ok(made)
}

/// The handler with a head, whose code is that of the lines.
fn with_code(
    alloc: Global,
    command: Text,
    head: Head,
    lines: &[Seq<Word>],
) -> Result<Draft, Failure<TextFault>>
    ensures { Gives (λ draft. draft) result (with_code command head lines.now) }
{
    let Head {
        params,
        budget,
        depth,
        texts,
        calls,
        ..
    } = head;
    let texts = texts_used(alloc, texts, lines)?.into_texts();
    let calls = calls_used(alloc, calls, lines)?.into_texts();
    let code = code_of(
        alloc,
        texts.as_slice(),
        calls.as_slice(),
        params.as_slice(),
        lines,
    )?;
    Ok(Draft {
        command,
        params,
        budget,
        depth,
        texts,
        calls,
        code,
    })
}

/// The failure of the handler that begins at a line.
fn placed(first: usize, failure: Failure<TextFault>) -> Failure<HandlerFault>
    ensures { result ≡ placed_failure first failure }
{
    match failure {
        Failure::NoMemory => Failure::NoMemory,
        Failure::Fault(fault) => Failure::Fault(HandlerFault { first, fault }),
    }
}

/// The handler of a section.
fn section_draft(alloc: Global, section: Section) -> Result<Draft, Failure<HandlerFault>>
    ensures { Gives (λ draft. draft) result (section_draft section) }
{
    let Section {
        command,
        line,
        lines,
    } = section;
    match draft_of(alloc, command, lines.as_slice()) {
        Ok(draft) => Ok(draft),
        Err(failure) => Err(placed(line, failure)),
    }
}

/// The handlers of sections. Errors: the first mistake of the first handler with one, and `NoMemory`.
pub fn drafts_of(alloc: Global, sections: Seq<Section>) -> Result<Seq<Draft>, Failure<HandlerFault>>
    ensures { Gives (λ drafts. drafts) result (drafts_of sections) }
{
    let mut drafts = Seq::new(alloc);
    for section in sections.into_vec() {
        drafts.push(section_draft(alloc, section)?)?;
    }
    Ok(drafts)
}
