//! Golden tests of handlers and of what they call: signatures, files of handlers, bytecode and the verifier,
//! the registry of closures, and the cost of commands that are started from it.
#![tactic(auto)]

mod boxed;
mod codes;
mod handlers;
mod live;
mod registries;
mod signatures;
mod spending;
mod verifier;

use kb_base::NoMemory;
use kb_code::Version;
pub use live::run_live_case;
pub use signatures::signature_text;
use std::alloc::Global;
use std::str;
pub use verifier::{callable_with, handlers_in};

fn run_callees(alloc: Global, kind: &str, text: &str) -> Result<String, NoMemory> {
    match kind.split_once(' ') {
        Some(("callees", count)) => handlers::callees(alloc, count, text),
        _ => String::from_str(alloc, "no kind"),
    }
}

fn run_text_case(alloc: Global, kind: &str, text: &str) -> Result<String, NoMemory> {
    match kind {
        "native" => signatures::declared(alloc, text),
        "arguments" => signatures::arguments(alloc, text),
        "code" => handlers::code(alloc, text, Version::One),
        "code 2" => handlers::code(alloc, text, Version::Two),
        _ => run_callees(alloc, kind, text),
    }
}

/// The output of a case of kind `native`, `arguments`, `handlers`, `code`, `code 2`, `callees N` or `verify`.
pub fn run_case(alloc: Global, kind: &str, input: &[u8]) -> Result<String, NoMemory> {
    match kind {
        "handlers" => handlers::handlers(alloc, input),
        "verify" => verifier::verify_first(alloc, input),
        _ => match str::from_utf8(input) {
            Ok(text) => run_text_case(alloc, kind, text),
            Err(_) => String::from_str(alloc, "no text"),
        },
    }
}
