//! The counts that a random test reports.
use kb_base::NoMemory;
use std::alloc::Global;

/// The smallest number of a fault of the verifier.
const FIRST: u32 = 60;

/// Counts of handlers and of starts.
#[derive(Clone, Copy)]
pub(crate) struct Counts {
    accepted: u32,
    // Handlers that were refused, by fault, from `FIRST` on.
    refused: [u32; 10],
    // Handlers whose blocks are not well formed.
    bad_blocks: u32,
    // Accepted handlers with a block.
    with_blocks: u32,
    pub starts: u32,
    // Accepted handlers that are too expensive to be started.
    not_started: u32,
    // Handlers of which a start spends the cost of the most expensive path.
    pub costliest: u32,
}

impl Counts {
    pub(crate) fn new() -> Counts {
        Counts {
            accepted: 0,
            refused: [0; 10],
            bad_blocks: 0,
            with_blocks: 0,
            starts: 0,
            not_started: 0,
            costliest: 0,
        }
    }

    /// Counts a handler that was accepted, and may have blocks or not be started.
    pub(crate) fn accept(&mut self, has_blocks: bool, is_started: bool) {
        self.accepted = self.accepted.wrapping_add(1);
        if has_blocks {
            self.with_blocks = self.with_blocks.wrapping_add(1);
        }
        if !is_started {
            self.not_started = self.not_started.wrapping_add(1);
        }
    }

    /// Counts a handler that was refused by this fault.
    pub(crate) fn refuse(&mut self, number: u32) {
        if number == 53 {
            self.bad_blocks = self.bad_blocks.wrapping_add(1);
            return;
        }
        let place = usize::try_from(number.wrapping_sub(FIRST)).unwrap_or(usize::MAX);
        if place < 10 {
            self.refused[place] = self.refused[place].wrapping_add(1);
        }
    }

    fn add_refused(&self, output: &mut String) -> Result<(), NoMemory> {
        let mut number = FIRST;
        for refused in self.refused.as_slice() {
            write!(output, " {refused} by {number},")?;
            number = number.wrapping_add(1);
        }
        Ok(())
    }

    fn add_all(&self, output: &mut String) -> Result<(), NoMemory> {
        let accepted = self.accepted;
        let starts = self.starts;
        let costliest = self.costliest;
        write!(output, "{accepted} accepted,")?;
        self.add_refused(output)?;
        write!(output, " {starts} starts, {costliest} as dear as can be")
    }

    fn add_blocks(&self, output: &mut String) -> Result<(), NoMemory> {
        let bad = self.bad_blocks;
        let with = self.with_blocks;
        let not_started = self.not_started;
        write!(
            output,
            ", {bad} by 53, {with} accepted with blocks, {not_started} not started"
        )
    }

    /// All counts, as the output of a case with code of this version.
    pub(crate) fn text(&self, alloc: Global, version: u16) -> Result<String, NoMemory> {
        let mut output = String::new(alloc);
        self.add_all(&mut output)?;
        if version > 1 {
            self.add_blocks(&mut output)?;
        }
        Ok(output)
    }
}
