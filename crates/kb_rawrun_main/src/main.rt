//! `rawrun`: `keyrun` without verification of handlers, for tests and for authors of handlers who want to
//! see a trap.
#![tactic(auto)]

use kb_cli::Program;
use kb_program::run_host;
use kb_run::Verification;
use std::process::ExitCode;

// The name and the description that the help text has.
fn rawrun<'a>() -> Program<'a> {
    Program {
        name: "rawrun",
        about: "Runs a script of events against the user's keybindings, with unverified handlers, \
            for tests and for authors who want to see a trap.",
    }
}

fn main(rt: HostRuntime) -> ExitCode {
    run_host(&rt, rt.alloc(), rawrun(), Verification::Raw)
}
