//! `keycheck`: explains files of key rules, key presses, the context, the palette and handlers.
#![tactic(auto)]

use kb_keycheck::keycheck;
use std::process::ExitCode;

fn main(rt: HostRuntime) -> ExitCode {
    keycheck(&rt, rt.alloc())
}
