//! `keycheck assemble`: the `handlers.json` of a text, or all of its faults.
ghost use Rattle.std.specs.Prelude.{◌≡◌, ◌≤◌, IfOk, Ok, length, true};
ghost use Rattle.kb_assembly.specs.File.{assemble, sections_in};
ghost use Rattle.kb_jsonc.specs.Reader.{without_mark};
ghost use Rattle.kb_assembly_report.specs.Choice.{IsSmallest};
ghost use Rattle.kb_assembly_report.specs.Judging.{IsFileOf};
ghost use Rattle.kb_assembly_report.specs.Translating.{AreEntries, Assembles, are_faults};

use crate::carets::write_all;
use crate::choosing::smallest;
use crate::declaring::{add_reasons, likely_limits};
use crate::entry::Entry;
use crate::file_limits::limit_faults;
use crate::found::{Faults, Found};
use crate::json::file_text;
use crate::judging::is_right;
use crate::mistakes::mistakes;
use crate::numbers::{numbers_at, sections_in};
use crate::sources::{Source, sources_of};
use kb_assembly::{Draft, FileFault, Section, assemble};
use kb_base::{Failure, NoMemory, Seq, Text};
use kb_core::Signature;
use kb_places::without_mark;
use std::alloc::{AllocError, Global};

/// The most bytes of a file that is loaded.
const FILE_LIMIT: usize = 16_777_216;

/// What a file is translated to.
#[derive(Debug, Drop)]
pub enum Translation {
    /// The bytes of the other file, for standard output.
    File(Seq<u8>),
    /// The faults, with their lines, for standard error.
    Faults(Text),
}

/// The faults as lines.
fn said(alloc: Global, path: &str, bytes: &[u8], faults: &Faults) -> Result<Translation, NoMemory>
    ensures { IfOk result are_faults }
{
    let mut text = String::new(alloc);
    write_all(path, bytes, faults, &mut text)?;
    Ok(Translation::Faults(Text::from_string(text)))
}

/// The handlers with what they declare.
fn entries_of<'d>(
    alloc: Global,
    sections: &[Section],
    drafts: &'d [Draft],
    declared: &[Signature],
) -> Result<Vec<Entry<'d>>, NoMemory>
    requires { length drafts.now ≡ length declared.now }
    ensures { IfOk result
        (λ entries. AreEntries sections.now 0 drafts.now declared.now entries.items) }
{
    let mut entries = Vec::new(alloc);
    let (mut left, mut others) = (drafts, declared);
    while let ([draft, more @ ..], [signature, rest @ ..]) = (left, others) {
        let lines = numbers_at(alloc, sections, entries.as_slice().len())?;
        entries.push(Entry {
            draft,
            budget: signature.budget(),
            depth: u32::from(signature.depth()),
            lines,
        })?;
        left = more;
        others = rest;
    }
    Ok(entries)
}

/// Why no budgets and depths would do for handlers of a text.
fn reasons(alloc: Global, drafts: &[Draft], sources: &[Source]) -> Result<Faults, NoMemory> {
    let mut faults = limit_faults(alloc, drafts, sources)?;
    if faults.is_empty() {
        add_reasons(alloc, drafts, sources, &mut faults)?;
    }
    Ok(faults)
}

/// That a file isn't written, with the faults for which it can't be, if there are any.
fn unwritten(
    alloc: Global,
    path: &str,
    text: &[u8],
    faults: &Faults,
    why: &str,
) -> Result<Translation, NoMemory>
    ensures { IfOk result are_faults }
{
    if !faults.is_empty() {
        return said(alloc, path, text, faults);
    }
    let text = format!(in alloc; "{path}: {why}\n")?;
    Ok(Translation::Faults(Text::from_string(text)))
}

/// Why a file that was made isn't written.
fn why_unwritten(length: usize) -> &'static str {
    if length > FILE_LIMIT {
        "44 TooLarge: its handlers.json would have more than 16,777,216 bytes"
    } else {
        "its handlers.json would not be read as its handlers, which is a mistake of this program"
    }
}

/// Whether the file of handlers can be written.
fn can_be_written(alloc: Global, drafts: &[Draft], file: &[u8]) -> Result<bool, NoMemory>
    ensures small { IfOk result (λ yes. yes ≡ true → length file.now ≤ 16777216) }
    ensures right { IfOk result (λ yes. yes ≡ true → IsFileOf drafts.now file.now) }
    ensures all { IfOk result
        (λ yes. length file.now ≤ 16777216 → IsFileOf drafts.now file.now → yes ≡ true) }
{
    if file.len() > FILE_LIMIT {
        return Ok(false);
    }
    is_right(alloc, drafts, file)
}

/// The file of handlers of a text with what they declare.
#[tactic(auto, using(crate::proofs::TranslatingLemmas::assembling))]
fn written(
    alloc: Global,
    path: &str,
    bytes: &[u8],
    sections: &[Section],
    drafts: &[Draft],
    declared: &[Signature],
) -> Result<Translation, NoMemory>
    requires cut { sections_in (without_mark bytes.now) ≡ Ok sections.now }
    requires read { assemble (without_mark bytes.now) ≡ Ok drafts.now }
    requires smallest { IsSmallest drafts.now declared.now }
    ensures { IfOk result (Assembles bytes.now) }
{
    let entries = entries_of(alloc, sections, drafts, declared)?;
    let file = file_text(alloc, entries.as_slice())?;
    if can_be_written(alloc, drafts, file.as_slice())? {
        return Ok(Translation::File(file));
    }
    let sources = sources_of(alloc, sections)?;
    let faults = limit_faults(alloc, drafts, sources.as_slice())?;
    let why = why_unwritten(file.len());
    let said = unwritten(alloc, path, without_mark(bytes), &faults, why)?;
    Ok(said)
}

/// The file of the handlers of a text, or its faults.
#[tactic(auto, using(crate::proofs::TranslatingLemmas::assembling))]
fn file_of(
    alloc: Global,
    path: &str,
    bytes: &[u8],
    drafts: &[Draft],
) -> Result<Translation, NoMemory>
    requires { assemble (without_mark bytes.now) ≡ Ok drafts.now }
    ensures { IfOk result (Assembles bytes.now) }
{
    let text = without_mark(bytes);
    let sections = sections_in(alloc, text)?;
    let sections = sections.as_slice();
    let sources = sources_of(alloc, sections)?;
    let likely = likely_limits(alloc, drafts, sources.as_slice())?;
    match smallest(alloc, drafts, likely.as_slice())? {
        Some(declared) => {
            let made = written(alloc, path, bytes, sections, drafts, declared.as_slice())?;
            Ok(made)
        }
        None => {
            let faults = reasons(alloc, drafts, sources.as_slice())?;
            let why = "no budgets and depths would do for its handlers";
            let said = unwritten(alloc, path, text, &faults, why)?;
            Ok(said)
        }
    }
}

/// The mistakes of a text that isn't assembled, of which this is the first.
fn all_mistakes(alloc: Global, bytes: &[u8], first: FileFault) -> Result<Faults, NoMemory> {
    let mut faults = mistakes(alloc, bytes)?;
    if faults.is_empty() {
        faults.add(Found::mistake(alloc, first.line(), first.fault())?)?;
    }
    Ok(faults)
}

/// Assembles the text of a file: a `handlers.json` of its handlers, one handler a block, with the number of
/// the line of each instruction in a member `lines`, which readers ignore. The version, and a budget and a
/// depth that are left out, are the smallest with which the handler is accepted. If the text has faults,
/// these are given instead, in the order of their lines, each as `PATH:LINE:COLUMN: NAME: SENTENCE` with the
/// line and carets below it. A byte order mark in front of the text is passed over. Error: `NoMemory`.
///
/// What is written is read as the handlers of the text. Those without a budget are accepted with the one that
/// is written, and with no smaller one, as handlers of an extension without dependencies.
#[tactic(auto, using(crate::proofs::TranslatingLemmas::assembling))]
pub fn assemble_file(alloc: Global, path: &str, bytes: &[u8]) -> Result<Translation, NoMemory>
    ensures { IfOk result (Assembles bytes.now) }
{
    let text = without_mark(bytes);
    match assemble(alloc, text) {
        Ok(drafts) => {
            let made = file_of(alloc, path, bytes, drafts.as_slice())?;
            Ok(made)
        }
        Err(Failure::NoMemory) => Err(AllocError),
        Err(Failure::Fault(first)) => {
            let faults = all_mistakes(alloc, text, first)?;
            let said = said(alloc, path, text, &faults)?;
            Ok(said)
        }
    }
}
