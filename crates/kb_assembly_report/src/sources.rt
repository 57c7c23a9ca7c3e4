//! The lines of handlers in their text.
use kb_assembly::{Section, Word, is_instr};
use kb_base::{NoMemory, Seq};
use std::alloc::Global;

/// The index of the line that begins a handler, and those of the lines of its parameters, of its budget and
/// its depth, and of its instructions.
#[derive(Drop)]
pub(crate) struct Source {
    pub(crate) first: usize,
    pub(crate) params: Seq<usize>,
    pub(crate) budget: usize,
    pub(crate) depth: usize,
    pub(crate) lines: Seq<usize>,
}

impl Source {
    /// The index of the line of the instruction at a place, or of the one that begins the handler.
    pub(crate) fn line_at(&self, place: usize) -> usize {
        self.lines
            .as_slice()
            .get(place)
            .copied()
            .unwrap_or(self.first)
    }

    /// The index of the line of a parameter, or of the one that begins the handler.
    pub(crate) fn param_at(&self, place: usize) -> usize {
        self.params
            .as_slice()
            .get(place)
            .copied()
            .unwrap_or(self.first)
    }

    /// Notes a line of the handler.
    fn note(&mut self, number: usize, words: &[Word]) -> Result<(), NoMemory> {
        if is_instr(words) {
            return self.lines.push(number);
        }
        match words {
            [first, ..] => match first.text.as_str() {
                ".param" => self.params.push(number),
                ".budget" => {
                    self.budget = number;
                    Ok(())
                }
                ".depth" => {
                    self.depth = number;
                    Ok(())
                }
                _ => Ok(()),
            },
            [] => Ok(()),
        }
    }
}

/// The lines of a handler.
fn source_of(alloc: Global, section: &Section) -> Result<Source, NoMemory> {
    let mut source = Source {
        first: section.line,
        params: Seq::new(alloc),
        budget: section.line,
        depth: section.line,
        lines: Seq::new(alloc),
    };
    let mut number = section.line;
    for words in section.lines.as_slice() {
        number = number.wrapping_add(1);
        source.note(number, words.as_slice())?;
    }
    Ok(source)
}

/// The lines of handlers. Error: `NoMemory`.
pub(crate) fn sources_of(alloc: Global, sections: &[Section]) -> Result<Vec<Source>, NoMemory> {
    let mut sources = Vec::new(alloc);
    for section in sections {
        sources.push(source_of(alloc, section)?)?;
    }
    Ok(sources)
}
