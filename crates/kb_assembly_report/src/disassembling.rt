//! `keycheck disassemble`: the text of a `handlers.json`.
ghost use Rattle.std.specs.Prelude.{◌≡◌, IfOk, Ok, map, true};
ghost use Rattle.kb_assembly.specs.Draft.{handler_draft};
ghost use Rattle.kb_assembly.specs.File.{assemble};
ghost use Rattle.kb_assembly_report.specs.Translating.{Disassembles};

use crate::assembling::Translation;
use crate::refused::refused_text;
use crate::stack::{Arities, arities_of, stacks_of};
use kb_assembly::{
    Draft, canonical, disassemble, handler_draft, is_instr, kind_name, starts, words_of,
};
use kb_base::{Failure, NoMemory, Seq};
use kb_code::Handler;
use kb_core::Kind;
use kb_files::read_handlers;
use std::alloc::{AllocError, Global};

/// The column at which a comment begins.
const COLUMN: usize = 32;

/// The most kinds of a stack that are written.
const SHOWN: usize = 16;

/// The handlers as a text has them.
fn drafts_of(alloc: Global, handlers: &[Handler]) -> Result<Seq<Draft>, NoMemory>
    ensures { IfOk result (λ drafts. drafts ≡ map handler_draft handlers.now) }
{
    let mut drafts = Seq::new(alloc);
    for handler in handlers {
        drafts.push(handler_draft(alloc, handler)?)?;
    }
    Ok(drafts)
}

/// Writes blanks up to a column, and at least one.
fn write_gap(length: usize, text: &mut String) -> Result<(), NoMemory> {
    text.push(' ')?;
    for _ in length.saturating_add(1)..COLUMN {
        text.push(' ')?;
    }
    Ok(())
}

/// Writes the kinds of a stack as a comment, with two dots in the place of those below the topmost ones.
/// Nothing is written for an empty stack.
fn write_kinds(length: usize, stack: &[Kind], text: &mut String) -> Result<(), NoMemory> {
    if stack.is_empty() {
        return Ok(());
    }
    write_gap(length, text)?;
    text.push(';')?;
    let below = stack.len().saturating_sub(SHOWN);
    if below > 0 {
        text.push_str(" ..")?;
    }
    for kind in stack.iter().skip(below) {
        text.push(' ')?;
        text.push_str(kind_name(*kind))?;
    }
    Ok(())
}

/// Where a line of a text is: in which handler, and at which place of its code.
#[derive(Clone, Copy)]
struct Spot {
    handler: usize,
    place: usize,
}

/// The kinds behind each place of each handler.
fn all_stacks(
    alloc: Global,
    handlers: &[Handler],
) -> Result<Vec<Vec<Option<Seq<Kind>>>>, NoMemory> {
    let arities: Arities = arities_of(alloc, handlers)?;
    let mut all = Vec::new(alloc);
    for handler in handlers {
        all.push(stacks_of(alloc, &arities, handler)?)?;
    }
    Ok(all)
}

/// What a line of a text is: the begin of a handler, an instruction, or neither.
fn line_kind(alloc: Global, line: &[u8]) -> Result<(bool, bool), NoMemory> {
    match words_of(alloc, line) {
        Ok(words) => Ok((starts(words.as_slice()), is_instr(words.as_slice()))),
        Err(Failure::NoMemory) => Err(AllocError),
        Err(Failure::Fault(_)) => Ok((false, false)),
    }
}

/// Writes the lines of a text, each instruction with the kinds behind it.
fn write_lines(
    alloc: Global,
    bytes: &[u8],
    all: &[Vec<Option<Seq<Kind>>>],
    text: &mut String,
) -> Result<(), NoMemory> {
    let mut spot = Spot {
        handler: 0,
        place: 0,
    };
    let mut is_first = true;
    for line in bytes.split(|byte| *byte == b'\n') {
        if !is_first {
            text.push('\n')?;
        }
        is_first = false;
        text.push_str(str::from_utf8(line).unwrap_or(""))?;
        let (begins, is_instr) = line_kind(alloc, line)?;
        if begins {
            spot = Spot {
                handler: spot.handler.wrapping_add(1),
                place: 0,
            };
        }
        if is_instr {
            if let Some(stacks) = all.get(spot.handler.wrapping_sub(1)) {
                if let Some(Some(stack)) = stacks.get(spot.place) {
                    write_kinds(line.len(), stack.as_slice(), text)?;
                }
            }
            spot.place = spot.place.wrapping_add(1);
        }
    }
    Ok(())
}

/// The text of handlers, each instruction with the kinds of the values on the stack behind it.
fn commented(alloc: Global, handlers: &[Handler], plain: &[u8]) -> Result<Seq<u8>, NoMemory> {
    let all = all_stacks(alloc, handlers)?;
    let mut text = String::new(alloc);
    write_lines(alloc, plain, all.as_slice(), &mut text)?;
    Ok(Seq::from_vec(text.into_bytes()))
}

/// Whether a text is assembled to what its canonical form is assembled to. Error: `NoMemory`.
fn is_form(alloc: Global, text: &[u8], form: &[u8]) -> Result<bool, NoMemory>
    ensures { IfOk result (λ yes. yes ≡ true → assemble form.now ≡ assemble text.now) }
{
    match canonical(alloc, text) {
        Ok(own) => Ok(own.as_slice() == form),
        Err(Failure::NoMemory) => Err(AllocError),
        Err(Failure::Fault(_)) => Ok(false),
    }
}

/// The text of handlers, with comments. A text with comments is tested before it is given, so that no proof
/// has to follow how they were written.
fn text_of(alloc: Global, handlers: &[Handler]) -> Result<Seq<u8>, NoMemory>
    ensures { IfOk result (λ text. assemble text ≡ Ok (map handler_draft handlers.now)) }
{
    let drafts = drafts_of(alloc, handlers)?;
    let plain = disassemble(alloc, drafts.as_slice())?;
    let text = commented(alloc, handlers, plain.as_slice())?;
    if is_form(alloc, text.as_slice(), plain.as_slice())? {
        return Ok(text);
    }
    Ok(plain)
}

/// Disassembles a `handlers.json` that can be read, verified or not: the text of its handlers. Behind each
/// instruction a comment has the kinds of the values that then stand on the stack, the topmost last. If the
/// file can't be read, the fault is given instead, as `PATH:LINE:COLUMN: NUMBER NAME: SENTENCE` with the line
/// and a caret below it. Error: `NoMemory`.
///
/// The text is assembled to the same handlers.
#[tactic(auto, using(crate::proofs::TranslatingLemmas::disassembling))]
pub fn disassemble_file(alloc: Global, path: &str, bytes: &[u8]) -> Result<Translation, NoMemory>
    ensures { IfOk result (Disassembles bytes.now) }
{
    match read_handlers(alloc, bytes) {
        Ok(handlers) => Ok(Translation::File(text_of(alloc, handlers.as_slice())?)),
        Err(Failure::NoMemory) => Err(AllocError),
        Err(Failure::Fault(refusal)) => {
            let faults = refused_text(alloc, path, bytes, refusal)?;
            Ok(Translation::Faults(faults))
        }
    }
}
