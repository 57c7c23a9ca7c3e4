//! Runs a program over any files, streams and console. Nothing here calls the system, so that contracts say
//! what is written, by what the files hold and the streams give.
ghost use Rattle.std.specs.Prelude.{◌≡◌, IfOk, map};
ghost use Rattle.std.specs.Io.Buffered.{writer_contents, writer_inner};
ghost use Rattle.kb_run.specs.Voice.{Says, heard_by};
ghost use Rattle.kb_run.specs.Run.{CarriesOut, Runs, Plays, PlaysAny};
ghost use Rattle.kb_run.specs.Run.{hosted, script_bytes, warning_text};
ghost use Rattle.kb_files.specs.SourceFiles.{files_in};
ghost use Rattle.kb_files.specs.Inputs.{files_of};
ghost use Rattle.kb_script.specs.Shelf.{beside};
ghost use Rattle.kb_run.specs.Headline.{IsSound};
ghost use Rattle.kb_run.specs.Run.{LoadsBy};
ghost use Rattle.kb_bindings.specs.Load.{MarksAreRight};
ghost use Rattle.kb_bindings.specs.Warning.{warnings_of};

use crate::exit_status::script_stop;
use crate::outcome::Stop;
use crate::setup::{HostClosures, Setup, Verification};
use crate::streams::Streams;
use crate::voice::{Console, Voice};
use kb_base::{Failure, WarningLine};
use kb_disk::{FileSource, Options, file_named, read_files};
use kb_files::{Inputs, LoadFault, SourceFiles};
use kb_registry::HostCommand;
use kb_script::stream_script;
use kb_session::Session;
use std::alloc::Global;
use std::io::{BufWriter, Read, Write};

/// Writes a line for each warning of a session.
fn say_warnings<H: HostCommand, C: Console + Drop>(session: &Session<H>, voice: &mut Voice<C>)
    ensures { Says (heard_by C.said C.broken voice.old) (heard_by C.said C.broken voice.new)
        (warning_text session.now.state.sources (warnings_of session.now.state.sources)) }
{
    let warnings = session.warnings();
    for warning in warnings {
        let source = session.source(warning.origin);
        voice.say(WarningLine { source, warning });
    }
}

/// Runs the script, and flushes the buffer of its trace. The session keeps no line that was written.
#[tactic(auto, using(crate::proofs::RunLemmas::playing))]
fn play<'a, I: Read, O: Write + Drop, H: HostCommand>(
    alloc: Global,
    script: &mut I,
    trace: &mut BufWriter<O>,
    session: &mut Session<H>,
    shelf: &mut Vec<H>,
) -> Result<(), Stop<'a>>
    ensures { Plays (I.remaining script.old) (I.remaining script.new)
        (beside session.old (map H.stands_for shelf.old.items))
        (writer_contents O.contents trace.old) (O.contents (writer_inner trace.new)) result }
{
    let ran = stream_script(alloc, script, trace, session, shelf);
    let is_flushed = trace.flush().is_ok();
    script_stop(ran, is_flushed)
}

/// Runs the script in a file, if there is one, or from standard input.
fn play_any<'a, S: Read + Drop, I: Read, O: Write + Drop, H: HostCommand>(
    alloc: Global,
    script: Option<S>,
    input: &mut I,
    trace: &mut BufWriter<O>,
    session: &mut Session<H>,
    shelf: &mut Vec<H>,
) -> Result<(), Stop<'a>>
    ensures { PlaysAny (script_bytes S.remaining script (I.remaining input.old))
        (beside session.old (map H.stands_for shelf.old.items))
        (writer_contents O.contents trace.old) (O.contents (writer_inner trace.new)) result }
{
    match script {
        Some(mut file) => play(alloc, &mut file, trace, session, shelf),
        None => play(alloc, input, trace, session, shelf),
    }
}

/// Loads a session from the files, with the host's closures.
#[tactic(auto, using(crate::proofs::HeadlineLemmas::is_sound))]
fn load<H: HostCommand>(
    alloc: Global,
    verification: Verification,
    inputs: Inputs<'_>,
    natives: Vec<H>,
) -> Result<Session<H>, Failure<LoadFault>>
    ensures read { LoadsBy verification (files_of inputs.entry) (map H.stands_for natives.items) result }
    ensures sound { IfOk result (λ session. IsSound verification session.state) }
    ensures right { IfOk result (λ session. MarksAreRight (files_of inputs.entry) session.state.sources) }
{
    match verification {
        Verification::Verified => Session::load(alloc, inputs, natives),
        Verification::Raw => Session::load_raw(alloc, inputs, natives),
    }
}

/// Loads a session, writes its warnings, and runs the script.
#[tactic(auto, using(crate::proofs::RunLemmas::loading))]
fn run_loaded<
    'a,
    S: Read + Drop,
    I: Read + Drop,
    O: Write + Drop,
    C: Console + Drop,
    H: HostCommand,
>(
    alloc: Global,
    setup: Setup<H>,
    inputs: Inputs<'_>,
    script: Option<S>,
    streams: &mut Streams<I, O, C>,
) -> Result<(), Stop<'a>>
    ensures { Runs setup.verification (files_of inputs.entry)
        (hosted (map H.stands_for setup.closures.natives.items)
        (map H.stands_for setup.closures.shelf.items) setup.takes_rules)
        (script_bytes S.remaining script (I.remaining streams.old.input)) (record {
          said_before = heard_by C.said C.broken streams.old.voice;
          said = heard_by C.said C.broken streams.new.voice;
          had = writer_contents O.contents streams.old.trace;
          has = O.contents (writer_inner streams.new.trace);
        }) result }
{
    let Setup {
        verification,
        closures,
        takes_rules,
    } = setup;
    let HostClosures { natives, mut shelf } = closures;
    match load(alloc, verification, inputs, natives) {
        Ok(mut session) => {
            say_warnings(&session, &mut streams.voice);
            session.take_rule_lines(takes_rules);
            let end = play_any(
                alloc,
                script,
                &mut streams.input,
                &mut streams.trace,
                &mut session,
                &mut shelf,
            );
            drop(session.into_trace());
            end
        }
        Err(failure) => Err(Stop::from(failure)),
    }
}

/// Runs the script over the files of a load.
fn run_files<
    'a,
    S: Read + Drop,
    I: Read + Drop,
    O: Write + Drop,
    C: Console + Drop,
    H: HostCommand,
>(
    alloc: Global,
    setup: Setup<H>,
    read: &SourceFiles,
    script: Option<S>,
    streams: &mut Streams<I, O, C>,
) -> Result<(), Stop<'a>>
    ensures { Runs setup.verification (files_in read.now)
        (hosted (map H.stands_for setup.closures.natives.items)
        (map H.stands_for setup.closures.shelf.items) setup.takes_rules)
        (script_bytes S.remaining script (I.remaining streams.old.input)) (record {
          said_before = heard_by C.said C.broken streams.old.voice;
          said = heard_by C.said C.broken streams.new.voice;
          had = writer_contents O.contents streams.old.trace;
          has = O.contents (writer_inner streams.new.trace);
        }) result }
{
    let extensions = read.extension_files(alloc)?;
    let inputs = read.inputs(extensions.as_slice());
    run_loaded(alloc, setup, inputs, script, streams)
}

/// Runs what the options ask for. All files are read or opened before the load, in this order: the layout,
/// the default rules, the user's rules, in each directory the manifest and then the handlers, and last the
/// script. The first file that cannot be read or opened ends the run; a directory need not have handlers.
/// The load registers the host's closures, and the script takes more of them from the shelf. Warnings of the
/// load are written before the script runs.
///
/// With verified handlers the headline of the product holds (`KeepsHeadline`): the trace is the plain
/// model's, each key starts exactly the command of the last rule whose keystrokes, clause and enablement
/// match, or opens, keeps or leaves a chord, no handler gets stuck, and nothing but refused memory stops the
/// session.
///
/// Errors: why the run stopped before its end; what was written stays.
#[tactic(auto, using(crate::proofs::RunLemmas::files))]
pub fn carry_out<
    'a,
    F: FileSource,
    I: Read + Drop,
    O: Write + Drop,
    C: Console + Drop,
    H: HostCommand,
>(
    alloc: Global,
    setup: Setup<H>,
    given: Options<'a>,
    files: &F,
    streams: &mut Streams<I, O, C>,
) -> Result<(), Stop<'a>>
    ensures { CarriesOut setup.verification (F.held files.now) given.entry
        (hosted (map H.stands_for setup.closures.natives.items)
        (map H.stands_for setup.closures.shelf.items) setup.takes_rules)
        (I.remaining streams.old.input) (record {
          said_before = heard_by C.said C.broken streams.old.voice;
          said = heard_by C.said C.broken streams.new.voice;
          had = writer_contents O.contents streams.old.trace;
          has = O.contents (writer_inner streams.new.trace);
        }) result }
{
    let read = read_files(alloc, &given, files)?;
    let script = file_named(files, given.script)?;
    run_files(alloc, setup, &read, script, streams)
}
