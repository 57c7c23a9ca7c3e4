//! The lines of a handler's code: labels and instructions.
ghost use Rattle.std.specs.Prelude.{◌≡◌, ◌∷◌, ◌++◌, ◌<◌, ◌≤◌, ◌+◌, ◌^◌, [], List, Ok, true, length, IfOk};
ghost use Rattle.std.specs.Prelude.{OnOk, option_map};
ghost use Rattle.std.specs.List.{list_all};
ghost use Rattle.kb_base.specs.Failure.{Gives};
ghost use Rattle.kb_code.specs.declared.instr.Instr.{Instr as TheInstr};
ghost use Rattle.kb_base.specs.Reading.{seen};
ghost use Rattle.kb_assembly.specs.Code.{before_colon, label_word, label_in, noted, part_of, behind};
ghost use Rattle.kb_assembly.specs.Code.{labels_of};
ghost use Rattle.kb_assembly.specs.Code.{is_dotted, is_head, is_quiet, is_instr};
ghost use Rattle.kb_assembly.specs.Code.{is_first, one, part_read, instrs_of, assembled};
ghost use Rattle.kb_assembly.specs.Names.{label_name};
ghost use Rattle.kb_assembly.specs.Targets.{AreTargets};
ghost use Rattle.kb_assembly.specs.Code.{label_line, made_here, next_line, made, lines_from};
ghost use Rattle.kb_assembly.specs.Code.{lines_of, has_room, names_of, IsCode};

use crate::fault::{LineFault, Mistake};
use crate::line::{instr_of, written};
use crate::names::Names;
use crate::table::{Label, Labels, Table};
use crate::targets::{is_target, targets_of};
use crate::words::Word;
use kb_base::{Failure, NoMemory, Seq, Text};
use kb_code::Instr;
use std::alloc::Global;

/// A fault of a text, and the index of its line.
#[derive(Clone, Copy, Debug, PartialEq, Eq)]
pub struct TextFault {
    /// The index of the line, from 0.
    pub line: usize,
    /// The mistake, at the index of a byte or of a word of the line.
    pub fault: LineFault,
}

/// The text before a colon at the end.
fn before_colon(text: &str) -> Option<&str>
    ensures { option_map (λ rest. rest.now) result ≡ before_colon text.now }
{
    text.strip_suffix(':')
}

/// The name of the label that a word is.
fn label_word(word: &Word) -> Option<&str>
    ensures { option_map (λ name. name.now) result ≡ label_word word.now }
{
    if word.is_quoted {
        None
    } else {
        before_colon(word.text.as_str())
    }
}

/// The name of the label that a line is.
pub(crate) fn label_in(words: &[Word]) -> Option<&str>
    ensures { option_map (λ name. name.now) result ≡ label_in words.now }
{
    match words {
        [word] => label_word(word),
        _ => None,
    }
}

/// Whether a text begins with a dot.
fn is_dotted(text: &str) -> bool
    ensures { result ≡ is_dotted text.now }
{
    match text.as_bytes() {
        [first, ..] => *first == b'.',
        _ => false,
    }
}

/// Whether a line that begins with this word is one of a handler's head.
pub(crate) fn is_head(word: &Word) -> bool
    ensures { result ≡ is_head word.now }
{
    !word.is_quoted && is_dotted(word.text.as_str())
}

/// Whether a line has no words or is one of a handler's head.
pub(crate) fn is_quiet(words: &[Word]) -> bool
    ensures { result ≡ is_quiet words.now }
{
    match words {
        [word, ..] => is_head(word),
        _ => true,
    }
}

/// Whether a line is an instruction: it is neither quiet nor a label.
pub fn is_instr(words: &[Word]) -> bool
    ensures { result ≡ is_instr (part_of words.now) }
{
    match label_in(words) {
        Some(_) => false,
        None => !is_quiet(words),
    }
}

/// Notes the label of a line, if it is one. Error: `NoMemory`.
fn note_line(
    alloc: Global,
    labels: &mut Seq<Label>,
    line: usize,
    place: usize,
    words: &[Word],
) -> Result<(), NoMemory>
    ensures { OnOk result (labels.new ≡ labels.old ++ noted (part_of words.now) line place) }
{
    if let Some(name) = label_in(words) {
        let name = Text::from_str(alloc, name)?;
        labels.push(Label { name, place, line })?;
    }
    Ok(())
}

/// The place behind a line.
fn behind(words: &[Word], place: usize) -> usize
    requires { place < 2 ^ 63 }
    ensures value { result ≡ behind (part_of words.now) place }
    ensures within { result ≤ place + 1 }
{
    match label_in(words) {
        Some(_) => place,
        None => { if is_quiet(words) { place } else { place + 1 } }
    }
}

/// The labels of lines. Error: `NoMemory`.
pub fn labels_of(alloc: Global, lines: &[Seq<Word>]) -> Result<Seq<Label>, NoMemory>
    ensures { IfOk result (λ labels. labels ≡ labels_of 0 0 lines.now) }
{
    let mut labels = Seq::new(alloc);
    let mut place = 0;
    for (line, words) in lines.iter().enumerate() {
        note_line(alloc, &mut labels, line, place, words.as_slice())?;
        place = behind(words.as_slice(), place);
    }
    Ok(labels)
}

/// Whether a label is the one of a line.
fn is_first(line: usize, label: Option<&Label>) -> bool
    ensures { result ≡ is_first line (option_map (λ label. label.now) label.entry) }
{
    match label {
        Some(label) => label.line == line,
        None => false,
    }
}

/// The instruction of a line, if it is one. Errors: `DoubleLabel`, or the first mistake of an instruction.
pub fn line_instr(names: &Names, line: usize, words: &[Word]) -> Result<Option<Instr>, TextFault>
    ensures { seen one result ≡ part_read names.now line (part_of words.now) words.now }
{
    if let Some(name) = label_in(words) {
        if is_first(line, names.labels.named(name)) {
            return Ok(None);
        }
        return Err(TextFault {
            line,
            fault: LineFault {
                at: 0,
                mistake: Mistake::DoubleLabel,
            },
        });
    }
    if is_quiet(words) {
        return Ok(None);
    }
    match instr_of(names, words) {
        Ok(instr) => Ok(Some(instr)),
        Err(fault) => Err(TextFault { line, fault }),
    }
}

/// Adds an instruction, if there is one. Error: `NoMemory`.
fn push_one(instrs: &mut Seq<Instr>, read: Option<Instr>) -> Result<(), NoMemory>
    ensures { OnOk result (instrs.new ≡ instrs.old ++ one read) }
{
    match read {
        Some(instr) => instrs.push(instr),
        None => Ok(()),
    }
}

/// The instructions of lines. Errors: the first mistake, and `NoMemory`.
fn instrs_of(
    alloc: Global,
    names: &Names,
    lines: &[Seq<Word>],
) -> Result<Seq<Instr>, Failure<TextFault>>
    ensures { Gives (λ instrs. instrs) result (instrs_of names.now 0 lines.now) }
{
    let mut instrs = Seq::new(alloc);
    for (line, words) in lines.iter().enumerate() {
        match line_instr(names, line, words.as_slice()) {
            Ok(read) => push_one(&mut instrs, read)?,
            Err(fault) => return Err(Failure::Fault(fault)),
        }
    }
    Ok(instrs)
}

/// The instructions of lines, whose operands may be names of a handler's texts, calls and parameters and of
/// the labels of these lines.
///
/// What is read is in the grammar, and what is in the grammar is read. Errors: the first mistake, from the
/// first line on, and `NoMemory`.
pub fn assembled(
    alloc: Global,
    texts: Table,
    calls: Table,
    params: Table,
    lines: &[Seq<Word>],
) -> Result<Seq<Instr>, Failure<TextFault>>
    ensures exact { Gives (λ code. code) result (assembled texts calls params lines.now) }
    ensures grammar { IfOk result (IsCode (names_of texts calls params lines.now) 0 lines.now) }
    ensures only { (code : List TheInstr) → IsCode (names_of texts calls params lines.now) 0 lines.now code
        → Gives (λ code. code) result (Ok code) }
{
    read_lines(alloc, texts, calls, params, lines)
}

/// The instructions of lines.
fn read_lines(
    alloc: Global,
    texts: Table,
    calls: Table,
    params: Table,
    lines: &[Seq<Word>],
) -> Result<Seq<Instr>, Failure<TextFault>>
    ensures { Gives (λ code. code) result (assembled texts calls params lines.now) }
{
    let labels = labels_of(alloc, lines)?;
    let names = Names {
        texts,
        calls,
        params,
        labels: Labels::of(alloc, labels)?,
    };
    instrs_of(alloc, &names, lines)
}

/// The label of a place, in a line.
fn label_for(alloc: Global, place: usize, line: usize) -> Result<Label, NoMemory>
    ensures { IfOk result (λ label. label ≡ record { name = label_name place; place = place; line = line }) }
{
    let string = format!(in alloc; "L{place}")?;
    Ok(Label {
        name: Text::from_string(string),
        place,
        line,
    })
}

/// The line of the label of a place.
fn label_line(alloc: Global, place: usize) -> Result<Seq<Word>, NoMemory>
    ensures { IfOk result (λ words. words ≡ label_line place) }
{
    let string = format!(in alloc; "L{place}:")?;
    let mut words = Seq::new(alloc);
    words.push(Word {
        is_quoted: false,
        text: Text::from_string(string),
    })?;
    Ok(words)
}

/// Adds the label of a place, if the place is a target. Error: `NoMemory`.
fn add_label(
    alloc: Global,
    labels: &mut Seq<Label>,
    is_target: bool,
    line: usize,
    place: usize,
) -> Result<(), NoMemory>
    ensures { OnOk result (labels.new ≡ labels.old ++ made_here is_target line place) }
{
    if is_target {
        labels.push(label_for(alloc, place, line)?)?;
    }
    Ok(())
}

/// The line behind the label of a place, if the place is a target.
fn next_line(is_target: bool, line: usize) -> usize
    requires { line < 2 ^ 63 }
    ensures value { result ≡ next_line is_target line }
    ensures within { result ≤ line + 1 }
{
    if is_target { line + 1 } else { line }
}

/// The labels that the lines of code need. Error: `NoMemory`.
fn made(alloc: Global, code: &[Instr], marks: &[bool]) -> Result<Seq<Label>, NoMemory>
    requires { AreTargets code.now marks.now }
    ensures labels { IfOk result (λ labels. labels ≡ made code.now 0 0 code.now) }
    ensures few { IfOk result (λ labels. length code.now < 2 ^ 64) }
{
    let mut labels = Seq::new(alloc);
    let mut line = 0;
    for place in 0..code.len() {
        let is_here = is_target(code, marks, place);
        add_label(alloc, &mut labels, is_here, line, place)?;
        line = next_line(is_here, line) + 1;
    }
    add_label(
        alloc,
        &mut labels,
        is_target(code, marks, code.len()),
        line,
        code.len(),
    )?;
    Ok(labels)
}

/// The lines of the instructions, with those names. Error: `NoMemory`.
fn lines_with(
    alloc: Global,
    code: &[Instr],
    marks: &[bool],
    names: &Names,
) -> Result<Seq<Seq<Word>>, NoMemory>
    requires { AreTargets code.now marks.now }
    ensures lines { IfOk result (λ lines. lines ≡ lines_from code.now names.now 0 code.now) }
    ensures fits { IfOk result (λ lines. list_all has_room code.now ≡ true) }
{
    let mut lines = Seq::new(alloc);
    for place in 0..code.len() {
        if is_target(code, marks, place) {
            lines.push(label_line(alloc, place)?)?;
        }
        lines.push(written(alloc, names, code[place])?)?;
    }
    if is_target(code, marks, code.len()) {
        lines.push(label_line(alloc, code.len())?)?;
    }
    Ok(lines)
}

/// The lines of code, by the names of a handler's texts, calls and parameters, and with a label for each
/// place of the code to which a jump leads. They are read as the same code again. Error: `NoMemory`.
pub fn lines_of(
    alloc: Global,
    texts: Seq<Text>,
    calls: Seq<Text>,
    params: Seq<Text>,
    code: &[Instr],
) -> Result<Seq<Seq<Word>>, NoMemory>
    ensures lines { IfOk result (λ lines. lines ≡ lines_of texts calls params code.now) }
    ensures again { IfOk result (λ lines. assembled texts calls params lines ≡ Ok code.now) }
    ensures few { IfOk result (λ lines. length code.now < 2 ^ 64) }
    ensures fits { IfOk result (λ lines. list_all has_room code.now ≡ true) }
{
    written_lines(alloc, texts, calls, params, code)
}

/// The lines of code.
fn written_lines(
    alloc: Global,
    texts: Seq<Text>,
    calls: Seq<Text>,
    params: Seq<Text>,
    code: &[Instr],
) -> Result<Seq<Seq<Word>>, NoMemory>
    ensures lines { IfOk result (λ lines. lines ≡ lines_of texts calls params code.now) }
    ensures few { IfOk result (λ lines. length code.now < 2 ^ 64) }
    ensures fits { IfOk result (λ lines. list_all has_room code.now ≡ true) }
{
    let marks = targets_of(alloc, code)?;
    let labels = made(alloc, code, marks.as_slice())?;
    let names = Names {
        texts: Table::of(alloc, texts)?,
        calls: Table::of(alloc, calls)?,
        params: Table::of(alloc, params)?,
        labels: Labels::of(alloc, labels)?,
    };
    lines_with(alloc, code, marks.as_slice(), &names)
}
