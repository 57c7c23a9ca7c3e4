//! Golden tests of the registry of closures, and of the cost of commands that are started from it.
use crate::{boxed, registries, spending};
use kb_base::NoMemory;
use std::alloc::Global;
use std::str;

fn run_text_case(alloc: Global, kind: &str, text: &str) -> Result<String, NoMemory> {
    match kind.split_once(' ') {
        Some(("registry", limit)) => registries::calls(alloc, limit, text),
        None => boxed::steps(alloc, text),
        _ => String::from_str(alloc, "no kind"),
    }
}

/// The output of a case of kind `registry LIMIT`, `boxed` or `spent`.
pub fn run_live_case(alloc: Global, kind: &str, input: &[u8]) -> Result<String, NoMemory> {
    match kind {
        "spent" => spending::spent(alloc, input),
        _ => match str::from_utf8(input) {
            Ok(text) => run_text_case(alloc, kind, text),
            Err(_) => String::from_str(alloc, "no text"),
        },
    }
}
