//! Reports the end of a run: its exit status, and its line on standard error.
//!
//! A handler that traps ends a run with raw handlers with a status and a line of its own, 5 and `trapped`
//! (our decision). Every other end is reported as `exit_status` says.
ghost use Rattle.std.specs.Prelude.{◌≡◌, map};
ghost use Rattle.std.specs.Io.Buffered.{writer_contents, writer_inner};
ghost use Rattle.kb_run.specs.Voice.{heard_by};
ghost use Rattle.kb_run.specs.Report.{RunsAndReports, Reports, is_trap, is_trapped, status_by};
ghost use Rattle.kb_run.specs.Run.{hosted};

use crate::exit_status::ending;
use crate::outcome::Stop;
use crate::run::carry_out;
use crate::setup::{Setup, Verification};
use crate::streams::Streams;
use crate::voice::{Console, Voice};
use kb_disk::{FileSource, Options};
use kb_registry::HostCommand;
use kb_script::ScriptFault;
use std::alloc::Global;
use std::io::{Read, Write};

/// Whether a run stopped because a handler trapped.
fn is_trapped(stop: &Stop<'_>) -> bool
    ensures { result ≡ is_trapped stop.now }
{
    match stop {
        Stop::Script(ScriptFault::Trapped) => true,
        Stop::Script(_) | Stop::Unread(_) | Stop::Load(_) | Stop::NoMemory => false,
    }
}

/// Whether a run with raw handlers stopped because a handler trapped.
fn is_trap(verification: Verification, stop: &Stop<'_>) -> bool
    ensures { result ≡ is_trap verification stop.now }
{
    match verification {
        Verification::Verified => false,
        Verification::Raw => is_trapped(stop),
    }
}

/// Writes the line of a run that stopped, and returns the exit status.
pub(crate) fn report<C: Console + Drop>(
    verification: Verification,
    end: &Result<(), Stop<'_>>,
    voice: &mut Voice<C>,
) -> u8
    ensures status { result ≡ status_by verification end.now }
    ensures line { Reports verification end.now
        (heard_by C.said C.broken voice.old) (heard_by C.said C.broken voice.new) }
{
    match end {
        Ok(()) => ending(end),
        Err(stop) => {
            if is_trap(verification, stop) {
                voice.say("trapped");
                5
            } else {
                voice.say(stop);
                ending(end)
            }
        }
    }
}

/// Runs what the options ask for, reports the end of the run, and returns its exit status.
pub fn run_and_report<
    F: FileSource,
    I: Read + Drop,
    O: Write + Drop,
    C: Console + Drop,
    H: HostCommand,
>(
    alloc: Global,
    setup: Setup<H>,
    given: Options<'_>,
    files: &F,
    streams: &mut Streams<I, O, C>,
) -> u8
    ensures { RunsAndReports setup.verification (F.held files.now) given.entry
        (hosted (map H.stands_for setup.closures.natives.items)
        (map H.stands_for setup.closures.shelf.items) setup.takes_rules)
        (I.remaining streams.old.input) (record {
          said_before = heard_by C.said C.broken streams.old.voice;
          said = heard_by C.said C.broken streams.new.voice;
          had = writer_contents O.contents streams.old.trace;
          has = O.contents (writer_inner streams.new.trace);
        }) result }
{
    let verification = setup.verification;
    let end = carry_out(alloc, setup, given, files, streams);
    report(verification, &end, &mut streams.voice)
}
