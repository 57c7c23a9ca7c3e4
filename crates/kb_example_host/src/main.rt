//! A small host of the engine. `docs/EMBEDDING.md` explains it. It registers closures that count how often
//! they ran, presses keys, disposes a closure and registers it again.
#![tactic(auto)]

ghost use Rattle.kb_host.specs.Native.{Fits};
ghost use Rattle.kb_host.specs.Ran.{Does};

mod host;

use crate::host::{HostFault, run_session};
use kb_host::{Args, Core, Inputs, NATIVES, NativeCommand, NoMemory, Platform, Ran, Run, plain};
use std::alloc::Global;
use std::cell::Cell;
use std::process::ExitCode;
use std::rc::Rc;

/// The user's rules, in the format of `keybindings.json`.
const RULES: &[u8] = b"[
  // a greeting, and the way back
  { \"key\": \"ctrl+h\", \"command\": \"type\", \"args\": \"hello \" },
  { \"key\": \"ctrl+b\", \"command\": \"deleteLeft\" }
]";

/// Boxes a closure for each native command and runs a session with them. The closures are boxed in a
/// function whose signature mentions no box, because the checker could not see their contracts otherwise.
fn run(rt: &HostRuntime, alloc: Global) -> Result<(), HostFault> {
    let count = Rc::new(alloc, Cell::new(0u64)).map_err(NoMemory::from)?;
    let mut natives = Vec::new(alloc);
    for native in NATIVES {
        let seen = Rc::clone(&count)?;
        let counted: Run = Box::new(
            alloc,
            move |core: Core, args: Args| -> Ran
                requires { Fits native args }
                ensures { Does native core args result }
            {
                seen.set(seen.get().saturating_add(1));
                plain(native, core, args)
            },
        )
        .map_err(NoMemory::from)?;
        natives
            .push(NativeCommand::new(native, counted))
            .map_err(NoMemory::from)?;
    }
    let inputs = Inputs {
        layout: None,
        defaults: b"[]",
        user: RULES,
        platform: Platform::Linux,
        extensions: &[],
    };
    run_session(rt, alloc, inputs, natives)?;
    let count = count.get();
    println!(rt; "closures ran {count} times")?;
    Ok(())
}

fn main(rt: HostRuntime) -> ExitCode {
    match run(&rt, rt.alloc()) {
        Ok(()) => ExitCode::SUCCESS,
        Err(_) => ExitCode::FAILURE,
    }
}
