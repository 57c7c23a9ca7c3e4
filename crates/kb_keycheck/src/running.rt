//! The program, from its command line to its exit status.
ghost use Rattle.std.specs.Prelude.{◌≡◌, ◌≤◌, IfErr, IfOk, map, string_bytes};
ghost use Rattle.std.specs.Process.{exit_status};
ghost use Rattle.kb_keycheck.specs.Ends.{EndsWithFault, HasNoWords, IsLineFault, IsNoWords, ObeysLine};
ghost use Rattle.kb_keycheck.specs.Ends.{RunsLine, RunsOnSystem};

use crate::dispatch::obey;
use crate::reason::Reasons;
use crate::words::{matched, not_text};
use kb_base::NoMemory;
use kb_cli::{OptionsFault, WordsFault, refuse_line, words_fault};
use kb_disk::{FileSource, SystemFiles};
use std::alloc::Global;
use std::env;
use std::process::ExitCode;
use std::rt::{Env, Files};

/// Runs the program, from its command line to its exit status: 0, 1 if it found a problem, 2 for a command
/// line that is refused, 3 for a file that can't be read or is refused, and 4 if it stopped before its end.
pub fn keycheck<R: Alloc<A = Global> + Env + Files + Print + Eprint>(
    rt: &R,
    alloc: Global,
) -> ExitCode
    ensures run { RunsOnSystem (exit_status result) }
    ensures table { exit_status result ≤ 4 }
{
    ExitCode::from(run_line(rt, alloc))
}

/// Does what the command line asks for, and returns the exit status.
#[tactic(auto, using(crate::proofs::RunLemmas::on_system))]
fn run_line<R: Alloc<A = Global> + Env + Files + Print + Eprint>(rt: &R, alloc: Global) -> u8
    ensures run { RunsOnSystem result }
    ensures table { result ≤ 4 }
{
    match line_words(rt, alloc) {
        Ok(words) => keycheck_over(rt, alloc, words.as_slice(), &SystemFiles { rt }),
        Err(fault) => refuse(rt, fault),
    }
}

/// The words of the command line. They are pushed one by one: `collect` continues if its first reservation is
/// refused, and each refused allocation must end the run.
fn line_words<R: Env + Alloc<A = Global>>(
    rt: &R,
    alloc: Global,
) -> Result<Vec<String>, OptionsFault>
    ensures { IfErr result HasNoWords }
{
    let given = match env::args(rt) {
        Ok(given) => given,
        Err(error) => return Err(no_words(alloc, words_fault(&error))?),
    };
    let mut words = Vec::new(alloc);
    for word in given {
        words.push(word).map_err(NoMemory::from)?;
    }
    Ok(words)
}

/// The fault of a command line whose words could not be read.
fn no_words(alloc: Global, fault: WordsFault) -> Result<OptionsFault, NoMemory>
    ensures { IfOk result (IsNoWords fault) }
{
    match fault {
        WordsFault::NotText => Ok(OptionsFault::Line(not_text(alloc)?)),
        WordsFault::NoMemory => Ok(OptionsFault::NoMemory),
    }
}

/// Does what the words of a command line ask for, the program's name first, over some files, and returns the
/// exit status: that of `keycheck`.
#[tactic(auto, using(crate::proofs::RunLemmas::line_status))]
pub fn keycheck_over<R: Print + Eprint, F: FileSource + Reasons>(
    rt: &R,
    alloc: Global,
    words: &[String],
    files: &F,
) -> u8
    ensures run { RunsLine (F.held files.now) (map string_bytes words.now) result }
    ensures table { result ≤ 4 }
{
    match obey_words(rt, alloc, words, files) {
        Ok(status) => status,
        Err(fault) => refuse(rt, fault),
    }
}

/// Does what the words ask for, if they can be parsed.
fn obey_words<R: Print + Eprint, F: FileSource + Reasons>(
    rt: &R,
    alloc: Global,
    words: &[String],
    files: &F,
) -> Result<u8, OptionsFault>
    ensures obeyed { IfOk result (ObeysLine (F.held files.now) (map string_bytes words.now)) }
    ensures table { IfOk result (λ status. status ≤ 4) }
    ensures refused { IfErr result (IsLineFault (map string_bytes words.now)) }
{
    let texts = texts_of(alloc, words)?;
    obey_texts(rt, alloc, texts.as_slice(), files)
}

/// The texts of the words.
fn texts_of<'w>(alloc: Global, words: &'w [String]) -> Result<Vec<&'w str>, NoMemory>
    ensures { IfOk result (λ texts. map (λ text. text.now) texts.items ≡ map string_bytes words.now) }
{
    let mut texts = Vec::new(alloc);
    for word in words {
        texts.push(word.as_str()).map_err(NoMemory::from)?;
    }
    Ok(texts)
}

/// Does what these texts ask for, if they can be parsed.
#[tactic(auto, using(crate::proofs::RunLemmas::line_ends))]
fn obey_texts<R: Print + Eprint, F: FileSource + Reasons>(
    rt: &R,
    alloc: Global,
    texts: &[&str],
    files: &F,
) -> Result<u8, OptionsFault>
    ensures obeyed { IfOk result (ObeysLine (F.held files.now) (map (λ text. text.now) texts.now)) }
    ensures table { IfOk result (λ status. status ≤ 4) }
    ensures refused { IfErr result (IsLineFault (map (λ text. text.now) texts.now)) }
{
    let matches = matched(alloc, texts)?;
    Ok(obey(rt, alloc, &matches, files))
}

/// Prints the error of a command line that is refused, the help or the version, and returns the exit status.
fn refuse<R: Print + Eprint>(rt: &R, fault: OptionsFault) -> u8
    ensures status { EndsWithFault fault result }
    ensures table { result ≤ 4 }
{
    match fault {
        OptionsFault::Line(error) => refuse_line(rt, &error),
        OptionsFault::NoMemory => {
            let _ = rt.eprintln("stopped: out of memory");
            4
        }
    }
}
