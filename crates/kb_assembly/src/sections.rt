//! The lines of each handler of a text.
ghost use Rattle.std.specs.Prelude.{◌≡◌, Ok, None, OnOk, IfOk, IfErr};
ghost use Rattle.kb_base.specs.Failure.{Gives, Fails};
ghost use Rattle.kb_base.specs.Reading.{seen};
ghost use Rattle.kb_assembly.specs.Sections.{starts, name_in, no_cut, opened, closed, added, with_last};
ghost use Rattle.kb_assembly.specs.Sections.{cut_step, sections_of};

use crate::code::TextFault;
use crate::fault::{LineFault, Mistake};
use crate::line::at_word;
use crate::words::Word;
use kb_base::{Failure, NoMemory, Seq, Text};
use std::alloc::Global;
use std::mem;

/// A handler's command, the index of its line `.handler`, and the lines behind that.
#[derive(Drop)]
pub struct Section {
    pub command: Text,
    pub line: usize,
    pub lines: Seq<Seq<Word>>,
}

/// The handlers of the lines so far; the last one is still open.
#[derive(Drop)]
pub struct Cut {
    done: Seq<Section>,
    last: Option<Section>,
}

/// Whether a line begins a handler.
pub fn starts(words: &[Word]) -> bool
    ensures { result ≡ starts words.now }
{
    match words {
        [first, ..] => !first.is_quoted && first.text.as_str() == ".handler",
        _ => false,
    }
}

/// The command of a line that begins a handler. Errors: `MissingOperand` and `ExtraWord`.
fn name_in(words: &[Word]) -> Result<&str, LineFault>
    ensures { seen (λ name. name.now) result ≡ name_in words.now }
{
    match words {
        [_, name] => Ok(name.text.as_str()),
        [_, _, _, ..] => Err(at_word(2, Mistake::ExtraWord)),
        _ => Err(at_word(1, Mistake::MissingOperand)),
    }
}

impl Cut {
    /// No lines.
    pub fn start(alloc: Global) -> Cut
        ensures { result ≡ no_cut }
    {
        Cut {
            done: Seq::new(alloc),
            last: None,
        }
    }

    /// Ends the last handler. Error: `NoMemory`.
    fn close(&mut self) -> Result<(), NoMemory>
        ensures { OnOk result (self.new ≡ record { done = closed self.old; last = None }) }
    {
        match self.last.take() {
            Some(section) => self.done.push(section),
            None => Ok(()),
        }
    }

    /// Begins a handler. Error: `NoMemory`.
    fn begin(&mut self, alloc: Global, line: usize, name: &str) -> Result<(), NoMemory>
        ensures { OnOk result (self.new ≡ opened self.old line name.now) }
    {
        self.close()?;
        self.last = Some(Section {
            command: Text::from_str(alloc, name)?,
            line,
            lines: Seq::new(alloc),
        });
        Ok(())
    }

    /// Adds a line to the last handler. Errors: `NoHandler` and `NoMemory`.
    fn add(&mut self, line: usize, words: Seq<Word>) -> Result<(), Failure<TextFault>>
        ensures ok { OnOk result (seen (with_last self.old) (added self.old.last line words) ≡ Ok self.new) }
        ensures err { IfErr result (λ failure. Fails failure (added self.old.last line words)) }
    {
        match &mut self.last {
            Some(section) => {
                section.lines.push(words)?;
                Ok(())
            }
            None => {
                if words.as_slice().is_empty() {
                    return Ok(());
                }
                let fault = at_word(0, Mistake::NoHandler);
                Err(Failure::Fault(TextFault { line, fault }))
            }
        }
    }

    /// Takes the next line. Errors: `NoHandler`, `MissingOperand`, `ExtraWord`, and `NoMemory`.
    pub fn step(
        &mut self,
        alloc: Global,
        line: usize,
        words: Seq<Word>,
    ) -> Result<(), Failure<TextFault>>
        ensures ok { OnOk result (cut_step self.old line words ≡ Ok self.new) }
        ensures err { IfErr result (λ failure. Fails failure (cut_step self.old line words)) }
    {
        if !starts(words.as_slice()) {
            return self.add(line, words);
        }
        match name_in(words.as_slice()) {
            Ok(name) => {
                self.begin(alloc, line, name)?;
                Ok(())
            }
            Err(fault) => Err(Failure::Fault(TextFault { line, fault })),
        }
    }

    /// The handlers. Error: `NoMemory`.
    pub fn end(self) -> Result<Seq<Section>, NoMemory>
        ensures { IfOk result (λ sections. sections ≡ closed self) }
    {
        let mut cut = self;
        cut.close()?;
        let Cut { done, .. } = cut;
        Ok(done)
    }
}

/// The handlers of lines. Errors: the first mistake in a line that begins a handler or is before all
/// handlers, and `NoMemory`.
pub fn sections_of(alloc: Global, lines: Seq<Seq<Word>>) -> Result<Seq<Section>, Failure<TextFault>>
    ensures { Gives (λ sections. sections) result (sections_of lines) }
{
    // (for the proof alone: the number of a line fits)
    let _count = lines.len();
    let mut cut = Cut::start(alloc);
    let mut line = 0;
    for words in lines.into_vec() {
        match cut.step(alloc, line, words) {
            Ok(()) => {}
            Err(failure) => return Err(failure),
        }
        line += 1;
    }
    Ok(cut.end()?)
}
