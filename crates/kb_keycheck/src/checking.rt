//! `check`: what is wrong in files.
ghost use Rattle.std.specs.Prelude.{◌≡◌, IfErr, IfOk};
ghost use Rattle.kb_keycheck.specs.Ends.{AreChecked, StopsChecking};

use crate::commands_file::commands_named;
use crate::ending::Stop;
use crate::files::{extension_sources, sources};
use crate::request::{Given, Wishes};
use kb_check_report::check;
use kb_disk::{FileSource, read_files};
use kb_problems::Choices;
use std::alloc::Global;
use std::io::{BufWriter, Write};

/// What is looked for and what is shown, with the commands that a file lists.
fn choices_of<'w>(wishes: &'w Wishes<'_>, commands: &'w [u8]) -> Choices<'w>
    ensures allowed { result.allowed.now ≡ wishes.now.allowed.items }
    ensures asked { result.asked.now ≡ wishes.now.asked.items }
    ensures only { result.only.now ≡ wishes.now.only.items }
    ensures level { result.level ≡ wishes.now.level }
    ensures commands { result.commands.now ≡ commands.entry.now }
{
    Choices {
        allowed: wishes.allowed.as_slice(),
        asked: wishes.asked.as_slice(),
        only: wishes.only.as_slice(),
        level: wishes.level,
        commands,
    }
}

/// Checks the files that a command line names, writes those of their problems that it asks for, and returns
/// whether none is shown.
///
/// Errors: the first file that can't be read, those of the load before the list of commands; then a write
/// that failed; or refused memory.
#[tactic(auto, using(crate::proofs::EndLemmas::checks))]
pub(crate) fn check_files<'m, F: FileSource, W: Write + Drop>(
    alloc: Global,
    given: &Given<'m>,
    wishes: &Wishes<'m>,
    files: &F,
    out: &mut BufWriter<W>,
) -> Result<bool, Stop<'m>>
    ensures checked { IfOk result (AreChecked (F.held files.now) given.now.options wishes.now) }
    ensures stopped { IfErr result (StopsChecking (F.held files.now) given.now.options wishes.now) }
{
    let read = read_files(alloc, &given.options, files)?;
    let commands = commands_named(alloc, wishes.commands, files)?;
    let extensions = extension_sources(alloc, &read)?;
    let sources = sources(&read, extensions.as_slice());
    let choices = choices_of(wishes, commands.as_slice());
    Ok(check(alloc, &sources, &choices, wishes.format, out)?)
}
