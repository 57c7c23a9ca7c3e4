//! The host of a program, which registers closures for the native commands.
ghost use Rattle.kb_core.specs.Native.{Fits};
ghost use Rattle.kb_core.specs.Ran.{Does};
ghost use Rattle.kb_run.specs.Report.{IsStatus};
ghost use Rattle.std.specs.Prelude.{IfOk};
ghost use Rattle.std.specs.Process.{exit_status};

use crate::line::run_program;
use kb_base::NoMemory;
use kb_cli::Program;
use kb_core::{Args, Core, NATIVES, Ran, at_budget, plain};
use kb_registry::{NativeCommand, Run};
use kb_run::{HostClosures, Setup, Verification, without_memory};
use std::alloc::Global;
use std::process::ExitCode;
use std::rt::{Env, Files};

/// Runs the program with a closure of cost 1 for each native command, and a shelf of closures that cost
/// their command's whole budget. The closures are boxed in a function whose signature mentions no box,
/// because the checker could not see their contracts otherwise.
fn run_with_closures<R: Alloc<A = Global> + Env + Files + Print + Eprint + Input>(
    rt: &R,
    alloc: Global,
    program: Program<'_>,
    verification: Verification,
) -> Result<ExitCode, NoMemory>
    ensures { IfOk result (λ code. IsStatus verification (exit_status code)) }
{
    let mut natives = Vec::new(alloc);
    let mut shelf = Vec::new(alloc);
    for native in NATIVES {
        let cheap: Run = Box::new(
            alloc,
            move |core: Core, args: Args| -> Ran
                requires { Fits native args }
                ensures { Does native core args result }
            { plain(native, core, args) },
        )?;
        natives
            .push(NativeCommand::new(native, cheap))
            .map_err(NoMemory::from)?;
        let dear: Run = Box::new(
            alloc,
            move |core: Core, args: Args| -> Ran
                requires { Fits native args }
                ensures { Does native core args result }
            { at_budget(native, core, args) },
        )?;
        shelf
            .push(NativeCommand::new(native, dear))
            .map_err(NoMemory::from)?;
    }
    let setup = Setup {
        verification,
        closures: HostClosures { natives, shelf },
        takes_rules: false,
    };
    Ok(run_program(rt, alloc, program, setup))
}

/// Runs a program from its command line to its exit status, with closures of its own for the native
/// commands. A closure that the load registers costs 1, and one on the shelf costs its command's whole
/// budget (our decision). The exit status is 0, 2, 3 or 4, or 5 with raw handlers.
pub fn run_host<R: Alloc<A = Global> + Env + Files + Print + Eprint + Input>(
    rt: &R,
    alloc: Global,
    program: Program<'_>,
    verification: Verification,
) -> ExitCode
    ensures { IsStatus verification (exit_status result) }
{
    match run_with_closures(rt, alloc, program, verification) {
        Ok(status) => status,
        Err(_) => without_memory(rt),
    }
}
