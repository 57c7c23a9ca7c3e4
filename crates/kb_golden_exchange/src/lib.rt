//! Golden tests of what is read beside the engine: manifests with their messages, and keyboards.
#![tactic(auto)]

mod alike;
mod keyboards;
mod manifests;

use kb_base::NoMemory;
use std::alloc::Global;
use std::str;

/// Runs a case of one of these kinds.
pub fn run_case(alloc: Global, kind: &str, input: &[u8]) -> Result<String, NoMemory> {
    let Ok(text) = str::from_utf8(input) else {
        return String::from_str(alloc, "no text");
    };
    let (word, rest) = kind.split_once(' ').unwrap_or((kind, ""));
    match word {
        "localize" => manifests::localized(alloc, text),
        "moves" => manifests::moved(alloc, rest, text),
        "respell" => keyboards::respelled(alloc, rest, text),
        "respell-file" => keyboards::respelled_file(alloc, rest, text),
        "press" => keyboards::pressed(alloc, rest, text),
        _ => String::from_str(alloc, "no kind"),
    }
}
