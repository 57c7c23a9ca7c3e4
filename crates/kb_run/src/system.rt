//! Runs a program over the system. Golden tests of the built programs cover what no contract says of it.
ghost use Rattle.std.specs.Prelude.{◌≡◌, map};
ghost use Rattle.std.specs.Process.{exit_status};
ghost use Rattle.kb_run.specs.Report.{IsStatus, RunsOnSystem};
ghost use Rattle.kb_run.specs.Run.{hosted};

use crate::outcome::Stop;
use crate::report::{report, run_and_report};
use crate::setup::{Setup, Verification};
use crate::streams::Streams;
use crate::voice::{SystemConsole, Voice};
use kb_disk::{Options, SystemFiles};
use kb_registry::HostCommand;
use std::alloc::Global;
use std::io;
use std::io::BufWriter;
use std::process::ExitCode;
use std::rt::Files;

/// Runs what the options ask for, over the system's files and streams, as `run_and_report` does, and returns
/// the exit status: 0, 2, 3 or 4, or 5 with raw handlers.
#[tactic(auto, using(crate::proofs::ReportLemmas::status, crate::proofs::ReportLemmas::on_system))]
pub fn run_on_system<R: Files + Print + Eprint + Input, H: HostCommand>(
    rt: &R,
    alloc: Global,
    setup: Setup<H>,
    given: Options<'_>,
) -> u8
    ensures run { RunsOnSystem setup.verification given.entry
        (hosted (map H.stands_for setup.closures.natives.items)
        (map H.stands_for setup.closures.shelf.items) setup.takes_rules) result }
    ensures status { IsStatus setup.verification result }
{
    let mut voice = Voice::new(SystemConsole { rt });
    let Ok(trace) = BufWriter::new(alloc, io::writer(rt)) else {
        return report(setup.verification, &Err(Stop::NoMemory), &mut voice);
    };
    let files = SystemFiles { rt };
    let mut streams = Streams {
        input: rt.reader(),
        trace,
        voice,
    };
    run_and_report(alloc, setup, given, &files, &mut streams)
}

/// Reports that memory was refused before a program could run, and returns its exit code, 4.
pub fn without_memory<R: Eprint>(rt: &R) -> ExitCode
    ensures { exit_status result ≡ 4 }
{
    let mut voice = Voice::new(SystemConsole { rt });
    ExitCode::from(report(Verification::Verified, &Err(Stop::NoMemory), &mut voice))
}
