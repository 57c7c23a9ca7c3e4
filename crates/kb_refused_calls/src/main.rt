//! `refused-calls`: some calls of the library, and what they answer. `tools/refused-calls` runs it once for
//! each of its allocations, and refuses that one. The status is 1 if a line can't be written.
#![tactic(auto)]

mod host;
mod registries;
mod scopes;
mod sessions;

use kb_base::NoMemory;
use std::alloc::Global;
use std::io;
use std::process::ExitCode;

/// The names of the calls, in the order in which they are made.
const NAMES: [&str; 6] = ["set", "register", "code", "start", "nested", "session"];

fn line_of(alloc: Global, name: &str) -> Result<String, NoMemory> {
    match name {
        "set" => scopes::set(alloc),
        "register" => registries::register(alloc),
        "code" => registries::register_code(alloc),
        "start" => registries::start_at_once(alloc),
        "nested" => registries::start_nested(alloc),
        _ => sessions::run(alloc),
    }
}

fn print_all<R: Print + AllocGlobal>(rt: &R) -> io::Result<()> {
    for name in NAMES {
        match line_of(rt.alloc(), name) {
            Ok(line) => {
                let line = line.as_str();
                println!(rt; "{name}: {line}")?;
            }
            // Memory that the test itself is refused says nothing of the call.
            Err(_) => println!(rt; "{name}: the test is refused memory")?,
        }
    }
    Ok(())
}

fn main(rt: HostRuntime) -> ExitCode {
    match print_all(&rt) {
        Ok(()) => ExitCode::from(0),
        Err(_) => ExitCode::from(1),
    }
}
