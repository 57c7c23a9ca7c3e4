//! Golden tests of whole sessions and of transcripts of scripts.
#![tactic(auto)]

mod host;
mod inputs;
mod sessions;
mod streams;
mod transcripts;

use kb_base::NoMemory;
use std::alloc::Global;
use std::str;

/// Runs a block of kind `session`, or `raw` (whose handlers aren't verified), and appends its lines with the
/// actual outputs to `actual`.
pub fn run_session(
    alloc: Global,
    is_raw: bool,
    lines: &str,
    actual: &mut String,
) -> Result<(), NoMemory> {
    sessions::run(alloc, is_raw, lines, actual)
}

/// The output of a case of kind `transcript`.
pub fn run_transcript(alloc: Global, input: &[u8]) -> Result<String, NoMemory> {
    match str::from_utf8(input) {
        Ok(text) => transcripts::text(alloc, text),
        Err(_) => String::from_str(alloc, "no text"),
    }
}
