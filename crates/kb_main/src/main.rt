//! `keyrun`: runs a script of events against the user's keybindings, and prints the trace.
#![tactic(auto)]

use kb_cli::Program;
use kb_program::run_host;
use kb_run::Verification;
use std::process::ExitCode;

// The name and the description that the help text has.
fn keyrun<'a>() -> Program<'a> {
    Program {
        name: "keyrun",
        about: "Runs a script of events against the user's keybindings.",
    }
}

fn main(rt: HostRuntime) -> ExitCode {
    run_host(&rt, rt.alloc(), keyrun(), Verification::Verified)
}
