//! The streams of a run.

use crate::voice::{Console, Voice};
use std::io::{BufWriter, Read, Write};

/// The streams of a run.
#[derive(Drop)]
pub struct Streams<I: Read + Drop, O: Write + Drop, C: Console + Drop> {
    /// The script, if the options name no file for it: standard input.
    pub input: I,
    /// The trace: standard output behind a buffer.
    pub trace: BufWriter<O>,
    /// Warnings, and the line of a run that stopped: standard error.
    pub voice: Voice<C>,
}
