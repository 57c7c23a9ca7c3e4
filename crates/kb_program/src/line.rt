//! Runs a program from its command line on.
ghost use Rattle.std.specs.Prelude.{IfOk, IfErr};
ghost use Rattle.std.specs.Process.{exit_status};
ghost use Rattle.kb_program.specs.Line.{HasNoWords, IsNoWords};
ghost use Rattle.kb_run.specs.Report.{IsStatus};

use kb_base::NoMemory;
use kb_cli::{OptionsFault, Program, WordsFault, not_text, options, refuse_line, words_fault};
use kb_registry::HostCommand;
use kb_run::{Setup, run_on_system, without_memory};
use std::alloc::Global;
use std::env;
use std::process::ExitCode;
use std::rt::{Env, Files};

/// The fault of a command line whose words could not be read.
fn no_words(
    alloc: Global,
    program: Program<'_>,
    fault: WordsFault,
) -> Result<OptionsFault, NoMemory>
    ensures { IfOk result (IsNoWords fault) }
{
    match fault {
        WordsFault::NotText => Ok(OptionsFault::Line(not_text(alloc, program)?)),
        WordsFault::NoMemory => Ok(OptionsFault::NoMemory),
    }
}

/// The words of the command line, of which the first is the program's name. They are pushed one by one:
/// `collect` continues if its first reservation is refused, and each refused allocation must end the run.
fn line_words<R: Env + Alloc<A = Global>>(
    rt: &R,
    alloc: Global,
    program: Program<'_>,
) -> Result<Vec<String>, OptionsFault>
    ensures { IfErr result HasNoWords }
{
    let given = match env::args(rt) {
        Ok(given) => given,
        Err(error) => return Err(no_words(alloc, program, words_fault(&error))?),
    };
    let mut words = Vec::new(alloc);
    for word in given {
        words.push(word).map_err(NoMemory::from)?;
    }
    Ok(words)
}

/// Parses the words, and runs what they ask for.
fn run_words<R: Files + Print + Eprint + Input, H: HostCommand>(
    rt: &R,
    alloc: Global,
    program: Program<'_>,
    words: &[String],
    setup: Setup<H>,
) -> Result<u8, OptionsFault>
    ensures { IfOk result (IsStatus setup.verification) }
{
    let mut texts = Vec::new(alloc);
    for word in words {
        texts.push(word.as_str()).map_err(NoMemory::from)?;
    }
    let given = options(alloc, program, texts.as_slice())?;
    let Setup {
        verification,
        closures,
        ..
    } = setup;
    let setup = Setup {
        verification,
        closures,
        takes_rules: words.len() <= 1,
    };
    Ok(run_on_system(rt, alloc, setup, given))
}

/// Runs what the command line asks for.
fn run_line<R: Alloc<A = Global> + Env + Files + Print + Eprint + Input, H: HostCommand>(
    rt: &R,
    alloc: Global,
    program: Program<'_>,
    setup: Setup<H>,
) -> Result<u8, OptionsFault>
    ensures { IfOk result (IsStatus setup.verification) }
{
    let words = line_words(rt, alloc, program)?;
    run_words(rt, alloc, program, words.as_slice(), setup)
}

/// Runs a program: parses the command line, reads the files that it names, loads a session with the host's
/// closures, and runs the script. The exit status is 0, 2, 3 or 4, or 5 with raw handlers.
pub fn run_program<R: Alloc<A = Global> + Env + Files + Print + Eprint + Input, H: HostCommand>(
    rt: &R,
    alloc: Global,
    program: Program<'_>,
    setup: Setup<H>,
) -> ExitCode
    ensures { IsStatus setup.verification (exit_status result) }
{
    match run_line(rt, alloc, program, setup) {
        Ok(status) => ExitCode::from(status),
        Err(OptionsFault::Line(error)) => ExitCode::from(refuse_line(rt, &error)),
        Err(OptionsFault::NoMemory) => without_memory(rt),
    }
}
