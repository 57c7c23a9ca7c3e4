//! A first key press: a host in Rattle over `kb_engine`, as `docs/EMBEDDING.md` shows it.
#![tactic(auto)]

use kb_engine::{Engine, Outcome, Part};
use std::process::ExitCode;
use std::str;

/// The number of the user's rules among the files of an engine.
const USER: u32 = 2;

const RULES: &[u8] = br#"[{ "key": "ctrl+h", "command": "type", "args": "hello" }]"#;

fn main(rt: HostRuntime) -> ExitCode {
    let mut engine = Engine::new(rt.alloc());
    engine.set_file(USER, RULES);
    engine.load();
    if engine.press(b"ctrl+h") != Outcome::Done {
        return ExitCode::FAILURE;
    }
    let trace = str::from_utf8(engine.part(Part::Trace)).unwrap_or("");
    match print!(rt; "{trace}") {
        Ok(()) => ExitCode::SUCCESS,
        Err(_) => ExitCode::FAILURE,
    }
}
