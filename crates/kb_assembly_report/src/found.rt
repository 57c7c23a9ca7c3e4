//! Faults of a text, each with its place.
use kb_assembly::{LineFault, Mistake, TextFault};
use kb_base::{FaultKind, NoMemory, Text};
use std::alloc::Global;

/// Where a fault is in its line.
#[derive(Clone, Copy, Debug, PartialEq, Eq)]
pub(crate) enum Spot {
    /// At a byte.
    Byte(usize),
    /// At a word.
    Word(usize),
    /// At the word that a byte is in.
    Around(usize),
}

/// The most faults that are shown.
pub(crate) const SHOWN: usize = 1_000;

/// A fault of a text: the index of its line, its place there, and a sentence that begins with its name.
#[derive(Drop)]
pub(crate) struct Found {
    pub(crate) line: usize,
    pub(crate) spot: Spot,
    pub(crate) sentence: Text,
}

/// The name of a mistake.
fn name_of(mistake: Mistake) -> &'static str {
    match mistake {
        Mistake::BadByte => "BadByte",
        Mistake::MissingBlank => "MissingBlank",
        Mistake::BadEscape => "BadEscape",
        Mistake::OpenQuotes => "OpenQuotes",
        Mistake::NotUtf8 => "NotUtf8",
        Mistake::UnknownInstruction => "UnknownInstruction",
        Mistake::MissingOperand => "MissingOperand",
        Mistake::ExtraWord => "ExtraWord",
        Mistake::BadNumber => "BadNumber",
        Mistake::MissingQuotes => "MissingQuotes",
        Mistake::UnknownName => "UnknownName",
        Mistake::TooMany => "44 TooLarge",
        Mistake::DoubleLabel => "DoubleLabel",
        Mistake::NoHandler => "NoHandler",
        Mistake::OutOfPlace => "OutOfPlace",
        Mistake::BadKind => "BadKind",
        Mistake::BadLimit => "BadLimit",
    }
}

/// Where a mistake is. A whole word is open or no text, though that is only seen at its end.
fn spot_of(fault: LineFault) -> Spot {
    match fault.mistake {
        Mistake::OpenQuotes | Mistake::NotUtf8 => Spot::Around(fault.at),
        mistake if mistake.is_of_bytes() => Spot::Byte(fault.at),
        _ => Spot::Word(fault.at),
    }
}

impl Found {
    /// A mistake of a line. Error: `NoMemory`.
    pub(crate) fn mistake(alloc: Global, line: usize, fault: LineFault) -> Result<Found, NoMemory> {
        let mistake = fault.mistake;
        let name = name_of(mistake);
        Ok(Found {
            line,
            spot: spot_of(fault),
            sentence: Text::from_string(format!(in alloc; "{name}: {mistake}")?),
        })
    }

    /// A mistake of a line behind the one that begins its handler. Error: `NoMemory`.
    pub(crate) fn behind(alloc: Global, first: usize, fault: TextFault) -> Result<Found, NoMemory> {
        let line = first.saturating_add(1).saturating_add(fault.line);
        Found::mistake(alloc, line, fault.fault)
    }

    /// A fault with a number, at a word. Error: `NoMemory`.
    pub(crate) fn said(
        alloc: Global,
        line: usize,
        word: usize,
        kind: FaultKind,
        sentence: &str,
    ) -> Result<Found, NoMemory> {
        Ok(Found {
            line,
            spot: Spot::Word(word),
            sentence: Text::from_string(format!(in alloc; "{kind}: {sentence}")?),
        })
    }
}

/// Faults, of which only the first are kept, and how many there are.
#[derive(Drop)]
pub(crate) struct Faults {
    pub(crate) found: Vec<Found>,
    pub(crate) count: usize,
}

impl Faults {
    /// No faults.
    pub(crate) fn none(alloc: Global) -> Faults {
        Faults {
            found: Vec::new(alloc),
            count: 0,
        }
    }

    /// Adds a fault behind those on its line and the lines before. Error: `NoMemory`.
    pub(crate) fn add(&mut self, one: Found) -> Result<(), NoMemory> {
        self.count = self.count.saturating_add(1);
        if self.found.len() < SHOWN {
            self.found.push(one)?;
        }
        Ok(())
    }

    /// Adds others. Error: `NoMemory`.
    pub(crate) fn join(&mut self, others: Faults) -> Result<(), NoMemory> {
        let Faults { found, count } = others;
        self.count = self.count.saturating_add(count);
        for one in found {
            self.found.push(one)?;
        }
        Ok(())
    }

    /// Sorts them by their lines. Error: `NoMemory`.
    pub(crate) fn sort(&mut self) -> Result<(), NoMemory> {
        self.found.sort_by(|one, other| one.line.cmp(&other.line))
    }

    /// Whether there is none.
    pub(crate) fn is_empty(&self) -> bool {
        self.found.is_empty()
    }
}
