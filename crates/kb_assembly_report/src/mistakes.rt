//! All mistakes of a text. Behind a line with one the search goes on as if the line said what it may mean, so
//! that one mistake isn't told twice.
use crate::found::{Faults, Found};
use kb_assembly::{
    Cut, Head, Labels, Names, Section, Table, Word, calls_used, labels_of, line_instr, texts_used,
    words_of,
};
use kb_base::{Failure, NoMemory, Seq, Text};
use kb_core::{Kind, Param};
use std::alloc::{AllocError, Global};

/// The mistakes of a text: in words and in the lines that begin handlers, in heads, and in code.
#[derive(Drop)]
struct Groups {
    words: Faults,
    heads: Faults,
    code: Faults,
}

/// The words of a line, or none if it has a mistake, which is added.
fn line_words(
    alloc: Global,
    number: usize,
    line: &[u8],
    faults: &mut Faults,
) -> Result<Seq<Word>, NoMemory> {
    match words_of(alloc, line) {
        Ok(words) => Ok(words),
        Err(Failure::NoMemory) => Err(AllocError),
        Err(Failure::Fault(fault)) => {
            faults.add(Found::mistake(alloc, number, fault)?)?;
            Ok(Seq::new(alloc))
        }
    }
}

/// A word.
fn word(alloc: Global, is_quoted: bool, text: &str) -> Result<Word, NoMemory> {
    Ok(Word {
        is_quoted,
        text: Text::from_str(alloc, text)?,
    })
}

/// The line of a handler without a name.
fn nameless(alloc: Global) -> Result<Seq<Word>, NoMemory> {
    let mut words = Seq::new(alloc);
    words.push(word(alloc, false, ".handler")?)?;
    words.push(word(alloc, true, "")?)?;
    Ok(words)
}

/// Takes a line of a text. A mistake of it is added, and the line then begins a handler.
fn take(
    alloc: Global,
    cut: &mut Cut,
    number: usize,
    words: Seq<Word>,
    faults: &mut Faults,
) -> Result<(), NoMemory> {
    match cut.step(alloc, number, words) {
        Ok(()) => Ok(()),
        Err(Failure::NoMemory) => Err(AllocError),
        Err(Failure::Fault(fault)) => {
            faults.add(Found::mistake(alloc, number, fault.fault)?)?;
            match cut.step(alloc, number, nameless(alloc)?) {
                Err(Failure::NoMemory) => Err(AllocError),
                _ => Ok(()),
            }
        }
    }
}

/// The handlers of a text, of lines without mistakes, which are added.
fn sections(alloc: Global, bytes: &[u8], faults: &mut Faults) -> Result<Seq<Section>, NoMemory> {
    let mut cut = Cut::start(alloc);
    let mut number = 0usize;
    for line in bytes.split(|byte| *byte == b'\n') {
        let words = line_words(alloc, number, line, faults)?;
        take(alloc, &mut cut, number, words, faults)?;
        number = number.wrapping_add(1);
    }
    cut.end()
}

/// Adds the parameter of a line that has a mistake to a head, so that code may name it.
fn mend(head: &mut Head, words: &[Word]) -> Result<(), NoMemory> {
    match words {
        [first, name, ..] => {
            if !first.is_quoted && first.text.as_str() == ".param" {
                head.params.push(Param {
                    name: name.text.copied()?,
                    kind: Kind::Any,
                })?;
            }
            Ok(())
        }
        _ => Ok(()),
    }
}

/// The head of a handler, of lines without mistakes, which are added.
fn head(alloc: Global, section: &Section, faults: &mut Faults) -> Result<Head, NoMemory> {
    let mut head = Head::start(alloc);
    let mut number = section.line;
    for words in section.lines.as_slice() {
        number = number.wrapping_add(1);
        match head.step(alloc, words.as_slice()) {
            Ok(()) => {}
            Err(Failure::NoMemory) => return Err(AllocError),
            Err(Failure::Fault(fault)) => {
                faults.add(Found::mistake(alloc, number, fault)?)?;
                mend(&mut head, words.as_slice())?;
            }
        }
    }
    Ok(head)
}

/// The names of parameters.
fn names_of(alloc: Global, params: &[Param]) -> Result<Seq<Text>, NoMemory> {
    let mut names = Seq::new(alloc);
    for param in params {
        names.push(param.name.copied()?)?;
    }
    Ok(names)
}

/// The names of a handler with a head.
fn names(alloc: Global, head: Head, lines: &[Seq<Word>]) -> Result<Names, NoMemory> {
    let Head {
        params,
        texts,
        calls,
        ..
    } = head;
    Ok(Names {
        texts: texts_used(alloc, texts, lines)?,
        calls: calls_used(alloc, calls, lines)?,
        params: Table::of(alloc, names_of(alloc, params.as_slice())?)?,
        labels: Labels::of(alloc, labels_of(alloc, lines)?)?,
    })
}

/// Adds the mistakes of a handler.
fn handler(alloc: Global, section: &Section, mistakes: &mut Groups) -> Result<(), NoMemory> {
    let head = head(alloc, section, &mut mistakes.heads)?;
    let names = names(alloc, head, section.lines.as_slice())?;
    for (line, words) in section.lines.as_slice().iter().enumerate() {
        if let Err(fault) = line_instr(&names, line, words.as_slice()) {
            mistakes
                .code
                .add(Found::behind(alloc, section.line, fault)?)?;
        }
    }
    Ok(())
}

/// All mistakes of a text, by their lines. Error: `NoMemory`.
pub(crate) fn mistakes(alloc: Global, bytes: &[u8]) -> Result<Faults, NoMemory> {
    let mut mistakes = Groups {
        words: Faults::none(alloc),
        heads: Faults::none(alloc),
        code: Faults::none(alloc),
    };
    let sections = sections(alloc, bytes, &mut mistakes.words)?;
    for section in sections.as_slice() {
        handler(alloc, section, &mut mistakes)?;
    }
    let Groups { words, heads, code } = mistakes;
    let mut all = words;
    all.join(heads)?;
    all.join(code)?;
    all.sort()?;
    Ok(all)
}
