//! Runs the golden tests of the engine: for each golden file in the current folder it prints `NAME: holds`,
//! or the file with the actual outputs. The status is 1 where a file can't be read or the report can't be
//! written.
#![tactic(auto)]

mod cases;

use cases::EngineCases;
use kb_golden_text::compare_files;
use std::process::ExitCode;

fn main(rt: HostRuntime) -> ExitCode {
    match compare_files::<EngineCases, HostRuntime>(&rt) {
        Ok(()) => ExitCode::from(0),
        Err(_) => ExitCode::from(1),
    }
}
