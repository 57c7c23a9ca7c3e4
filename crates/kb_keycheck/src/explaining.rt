//! `explain`, `list`, `context` and `palette`: what a loaded session says.
ghost use Rattle.std.specs.Prelude.{◌≡◌, [], IfErr, IfOk, map, option_map};
ghost use Rattle.std.specs.Io.Buffered.{writer_buffer};
ghost use Rattle.kb_files.specs.Inputs.{files_of};
ghost use Rattle.kb_check.specs.Problems.{files_in};
ghost use Rattle.kb_core.specs.Native.{natives};
ghost use Rattle.kb_files.specs.Extensions.{extension_bytes};
ghost use Rattle.kb_session.specs.Session.{Loads};
ghost use Rattle.kb_source_files.specs.SourceFiles.{bytes_of_extension};
ghost use Rattle.kb_keycheck.specs.Ends.{AreAccepted, AreLoaded, IsBehindLoad, StopsAnswering, StopsOver};
ghost use Rattle.kb_keycheck.specs.Ends.{keys_asked, strokes_in};
ghost use Rattle.kb_files.specs.SourceFiles as owned;

use crate::ending::Stop;
use crate::files::{extension_sources, sources};
use crate::logging::log_any;
use crate::mistakes::Mistakes;
use crate::pressing::explain;
use crate::request::{Given, Question};
use kb_base::Failure;
use kb_disk::{FileSource, Options, file_named, read_files};
use kb_engine::{Cost, PlainCommand, commands};
use kb_explain_report::{
    Listed, Named, RulePlaces, say_command, say_commands, say_context, say_rules, say_unbound,
};
use kb_files::{ExtensionFiles, Inputs, LoadFault};
use kb_keys::{Chord, KeyFault, Keystroke};
use kb_report::Form;
use kb_run::script_stop;
use kb_script::stream_script;
use kb_session::Session;
use kb_source_files::SourceFiles;
use std::alloc::Global;
use std::io::{BufWriter, Read, Write};

/// A question with its keystrokes, and how the answer is written.
#[derive(Clone, Copy, Debug)]
struct Asked<'q> {
    question: Question<'q>,
    strokes: &'q [Keystroke],
    form: Form,
}

/// The text of the keystrokes of a question, if it has one.
fn keys_of<'m>(question: Question<'m>) -> Option<&'m str>
    ensures { option_map (λ keys. keys.now) result ≡ keys_asked question.entry }
{
    match question {
        Question::Press(keys) => Some(keys),
        Question::Rules(keys, _) => keys,
        Question::Unbound | Question::Context | Question::Palette(_, _) | Question::Log => None,
    }
}

/// The keystrokes of a text, none without a text.
fn strokes_of(alloc: Global, keys: Option<&str>) -> Result<Chord, KeyFault>
    ensures { result ≡ strokes_in (option_map (λ keys. keys.now) keys.entry) }
{
    match keys {
        Some(keys) => Chord::parse(alloc, keys),
        None => Ok(Chord::new(alloc)),
    }
}

/// What a load takes of these files, with the bytes of their extensions.
fn inputs_of<'a>(files: &SourceFiles<'a>, extensions: &'a [ExtensionFiles<'a>]) -> Inputs<'a>
    requires { map extension_bytes extensions.now ≡ map bytes_of_extension files.now.extensions.now }
    ensures { files_of result ≡ files_in files.now }
{
    files.inputs(extensions)
}

/// Loads a session, whose native commands cost one instruction each.
fn load_inputs(
    alloc: Global,
    inputs: Inputs<'_>,
) -> Result<Session<PlainCommand>, Failure<LoadFault>>
    ensures { Loads (files_of inputs.entry) natives result }
{
    let made = commands(alloc, Cost::One)?;
    Session::load(alloc, inputs, made)
}

/// Loads a session from files.
fn load(alloc: Global, files: &SourceFiles<'_>) -> Result<Session<PlainCommand>, Failure<LoadFault>>
    ensures { Loads (files_in files.now) natives result }
{
    let extensions = files.extension_files(alloc)?;
    load_inputs(alloc, inputs_of(files, extensions.as_slice()))
}

/// Runs a script over a session. What it traces isn't written; its mistakes are noted.
#[tactic(auto, using(crate::proofs::EndLemmas::script_behind))]
fn play<'a, S: Read>(
    alloc: Global,
    script: &mut S,
    session: &mut Session<PlainCommand>,
    mistakes: &mut Mistakes,
) -> Result<(), kb_run::Stop<'a>>
    ensures { IfErr result (λ stop. IsBehindLoad (Stop.Run stop)) }
{
    let mut shelf = commands(alloc, Cost::Budget)?;
    let ran = stream_script(alloc, script, mistakes, session, &mut shelf);
    script_stop(ran, true)
}

/// Runs a script over a session, if there is one.
fn play_any<'a, S: Read + Drop>(
    alloc: Global,
    script: Option<S>,
    session: &mut Session<PlainCommand>,
    mistakes: &mut Mistakes,
) -> Result<(), Stop<'a>>
    ensures { IfErr result IsBehindLoad }
{
    match script {
        Some(mut script) => match play(alloc, &mut script, session, mistakes) {
            Ok(()) => Ok(()),
            Err(stop) => Err(Stop::Run(stop)),
        },
        None => Ok(()),
    }
}

/// Writes the rules in force that are listed.
#[tactic(auto, using(crate::proofs::EndLemmas::said_behind))]
fn list<'a, W: Write>(
    alloc: Global,
    session: &Session<PlainCommand>,
    files: &SourceFiles<'_>,
    listed: Listed<'_>,
    form: Form,
    out: &mut W,
) -> Result<(), Stop<'a>>
    ensures { IfErr result IsBehindLoad }
{
    let places = RulePlaces::of(alloc, files)?;
    let named = Named {
        bindings: session.bindings(),
        files: &*files,
        places: &places,
    };
    Ok(say_rules(alloc, &named, listed, form, out)?)
}

/// Writes which commands the palette lists for a query, and why not, of one command or of all.
#[tactic(auto, using(crate::proofs::EndLemmas::said_behind))]
fn palette<'a, W: Write>(
    alloc: Global,
    session: &Session<PlainCommand>,
    query: &str,
    command: Option<&str>,
    form: Form,
    out: &mut W,
) -> Result<(), Stop<'a>>
    ensures { IfErr result IsBehindLoad }
{
    let bindings = session.bindings();
    let scopes = session.core().scopes();
    match command {
        Some(command) => Ok(say_command(alloc, bindings, query, command, scopes, form, out)?),
        None => Ok(say_commands(alloc, bindings, query, scopes, form, out)?),
    }
}

/// Answers a question about a session.
#[tactic(auto, using(crate::proofs::EndLemmas::said_behind))]
fn answer<'a, W: Write>(
    alloc: Global,
    session: &mut Session<PlainCommand>,
    files: &SourceFiles<'_>,
    asked: Asked<'_>,
    out: &mut W,
) -> Result<(), Stop<'a>>
    ensures { IfErr result IsBehindLoad }
{
    let Asked {
        question,
        strokes,
        form,
    } = asked;
    match question {
        Question::Press(_) => explain(alloc, session, files, strokes, form, out),
        Question::Rules(_, command) => {
            let listed = Listed { strokes, command };
            list(alloc, session, files, listed, form, out)
        }
        Question::Unbound => Ok(say_unbound(alloc, session.bindings(), form, out)?),
        Question::Context => Ok(say_context(alloc, session.core().scopes(), form, out)?),
        Question::Palette(query, command) => palette(alloc, session, query, command, form, out),
        Question::Log => Ok(()),
    }
}

/// The files that the rules in force were read from: behind a reload by the script without the user's rules,
/// which the script has. A session has one list of unread patterns for the load, and one for each reload.
pub(crate) fn files_in_force<'s>(
    files: &SourceFiles<'s>,
    session: &Session<PlainCommand>,
) -> SourceFiles<'s> {
    let user = if session.unread().len() > 1 {
        None
    } else {
        files.user
    };
    SourceFiles {
        layout: files.layout,
        defaults: files.defaults,
        user,
        platform: files.platform,
        extensions: files.extensions,
    }
}

/// Runs the script over a session, and answers a question.
fn answer_behind<'a, S: Read + Drop, W: Write>(
    alloc: Global,
    session: &mut Session<PlainCommand>,
    files: &SourceFiles<'_>,
    script: Option<S>,
    asked: Asked<'_>,
    mistakes: &mut Mistakes,
    out: &mut W,
) -> Result<(), Stop<'a>>
    ensures { IfErr result IsBehindLoad }
{
    if let Question::Log = asked.question {
        return log_any(alloc, script, session, files, asked.form, out);
    }
    play_any(alloc, script, session, mistakes)?;
    let in_force = files_in_force(files, session);
    answer(alloc, session, &in_force, asked, out)
}

/// Loads a session from files, runs the script, and answers a question.
#[tactic(auto, using(crate::proofs::EndLemmas::over))]
fn answer_over<'a, S: Read + Drop, W: Write>(
    alloc: Global,
    files: &SourceFiles<'_>,
    script: Option<S>,
    asked: Asked<'_>,
    mistakes: &mut Mistakes,
    out: &mut W,
) -> Result<(), Stop<'a>>
    ensures answered { IfOk result (λ _. AreAccepted (files_in files.now)) }
    ensures stopped { IfErr result (StopsOver (files_in files.now)) }
{
    match load(alloc, files) {
        Ok(mut session) => {
            let end = answer_behind(alloc, &mut session, files, script, asked, mistakes, out);
            drop(session.into_trace());
            end
        }
        Err(failure) => Err(Stop::from(failure)),
    }
}

/// The same over the bytes of files that were read.
fn answer_read<'a, S: Read + Drop, W: Write>(
    alloc: Global,
    read: &kb_files::SourceFiles,
    script: Option<S>,
    asked: Asked<'_>,
    mistakes: &mut Mistakes,
    out: &mut W,
) -> Result<(), Stop<'a>>
    ensures answered { IfOk result (λ _. AreAccepted (owned.files_in read.now)) }
    ensures stopped { IfErr result (StopsOver (owned.files_in read.now)) }
{
    let extensions = extension_sources(alloc, read)?;
    let sources = sources(read, extensions.as_slice());
    answer_over(alloc, &sources, script, asked, mistakes, out)
}

/// Reads the files that options name, loads a session, runs the script, and answers a question.
#[tactic(auto, using(crate::proofs::EndLemmas::answering))]
fn answer_from<'m, F: FileSource, W: Write>(
    alloc: Global,
    options: &Options<'m>,
    asked: Asked<'_>,
    files: &F,
    mistakes: &mut Mistakes,
    out: &mut W,
) -> Result<(), Stop<'m>>
    ensures answered { IfOk result (λ _. AreLoaded (F.held files.now) options.now) }
    ensures stopped { IfErr result (StopsAnswering (F.held files.now) options.now asked.entry.question) }
{
    let read = read_files(alloc, options, files)?;
    let script = file_named(files, options.script)?;
    answer_read(alloc, &read, script, asked, mistakes, out)
}

/// Reads the files that a command line names, loads a session, runs the script, answers a question, and
/// flushes the buffer.
///
/// Errors: first that the keystrokes of the question can't be read; then the first file that can't be read
/// or opened; then why the load is refused; then that the script did not run to its end; then a write that
/// failed; or refused memory.
#[tactic(auto, using(crate::proofs::EndLemmas::answering))]
pub(crate) fn answer_question<'m, F: FileSource, W: Write + Drop>(
    alloc: Global,
    given: &Given<'m>,
    question: Question<'_>,
    files: &F,
    mistakes: &mut Mistakes,
    out: &mut BufWriter<W>,
) -> Result<(), Stop<'m>>
    ensures answered { IfOk result (λ _. AreLoaded (F.held files.now) given.now.options) }
    ensures stopped { IfErr result (StopsAnswering (F.held files.now) given.now.options question.entry) }

    // An answer is only given if no part of it is left in the buffer.
    ensures flushed { IfOk result (λ _. writer_buffer out.new ≡ []) }
{
    let strokes = match strokes_of(alloc, keys_of(question)) {
        Ok(strokes) => strokes,
        Err(fault) => return Err(Stop::Keys(fault)),
    };
    let asked = Asked {
        question,
        strokes: strokes.as_slice(),
        form: given.form,
    };
    answer_from(alloc, &given.options, asked, files, mistakes, out)?;
    match out.flush() {
        Ok(()) => Ok(()),
        Err(_) => Err(Stop::NotWritten),
    }
}
