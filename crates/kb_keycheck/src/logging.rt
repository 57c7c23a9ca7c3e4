//! `log`: what each key press of a script does, and why.
ghost use Rattle.std.specs.Prelude.{◌≡◌, ◌<◌, IfErr, IfOk, IfSome, false, length};
ghost use Rattle.kb_keycheck.specs.Ends.{IsBehindLoad};

use crate::ending::Stop;
use crate::explaining::files_in_force;
use crate::pressing::explain_press;
use kb_base::{Failure, NoMemory};
use kb_engine::{Cost, PlainCommand, commands};
use kb_explain_report::{RulePlaces, say_trace};
use kb_keys::Keystroke;
use kb_report::{Form, say_object, say_text};
use kb_script::script::split_line;
use kb_script::{SCRIPT_LIMIT, ScriptFault, ScriptLine, obey, read_line};
use kb_session::Session;
use kb_source_files::SourceFiles;
use kb_stream::{ReadFault, read_within};
use serde_json::json;
use std::alloc::{AllocError, Global};
use std::io::{Read, Write};

/// The rest of a script, with the number of its first line.
#[derive(Clone, Copy)]
struct Rest<'b> {
    bytes: &'b [u8],
    number: u64,
}

/// Why a script that could not be read stops the run.
fn unread_script<'a>(failure: Failure<ReadFault>) -> Stop<'a>
    ensures { IsBehindLoad result }
{
    match failure {
        Failure::Fault(ReadFault::TooLong) => Stop::Run(kb_run::Stop::Script(ScriptFault::TooLong)),
        Failure::Fault(ReadFault::Failed) => Stop::Run(kb_run::Stop::Script(
            ScriptFault::ReadFailed,
        )),
        Failure::NoMemory => Stop::Run(kb_run::Stop::NoMemory),
    }
}

/// The key that a line of a script presses, if it presses one.
fn key_in(said: &Option<ScriptLine<'_>>) -> Option<Keystroke> {
    match said {
        Some(ScriptLine::Key(key)) => Some(*key),
        _ => None,
    }
}

/// Writes the number of a line of the script.
#[tactic(auto, using(crate::proofs::EndLemmas::said_behind))]
fn say_number<'a, W: Write>(
    alloc: Global,
    number: u64,
    form: Form,
    out: &mut W,
) -> Result<(), Stop<'a>>
    ensures { IfErr result IsBehindLoad }
{
    match form {
        Form::Text => Ok(say_text(format!(in alloc; "line {number}")?, out)?),
        Form::Json => Ok(say_object(alloc, json!(in alloc; {"line": number})?, out)?),
    }
}

/// Writes what a line of the script added to the trace, if it added something.
#[tactic(auto, using(crate::proofs::EndLemmas::said_behind))]
fn say_added<'a, W: Write>(
    alloc: Global,
    session: &Session<PlainCommand>,
    form: Form,
    out: &mut W,
) -> Result<(), Stop<'a>>
    ensures { IfErr result IsBehindLoad }
{
    if session.trace().len() == 0 {
        return Ok(());
    }
    Ok(say_trace(alloc, session.trace(), form, out)?)
}

/// Does what a line of a script says. A session whose handlers are verified stops only for refused memory.
fn obey_line(
    said: Option<ScriptLine<'_>>,
    session: &mut Session<PlainCommand>,
    shelf: &mut Vec<PlainCommand>,
) -> Result<(), NoMemory> {
    session.truncate_trace(0);
    if session.is_stopped() {
        return Err(AllocError);
    }
    obey(said, session, shelf)?;
    Ok(())
}

/// Writes what a line of a script does, and of a press why, and does it.
fn log_line<'a, W: Write>(
    alloc: Global,
    session: &mut Session<PlainCommand>,
    shelf: &mut Vec<PlainCommand>,
    files: &SourceFiles<'_>,
    places: &RulePlaces,
    number: u64,
    line: &[u8],
    form: Form,
    out: &mut W,
) -> Result<(), Stop<'a>>
    ensures { IfErr result IsBehindLoad }
{
    let said = read_line(alloc, number, line)?;
    if let Some(key) = key_in(&said) {
        say_number(alloc, number, form, out)?;
        explain_press(alloc, session, files, places, key, true, form, out)?;
    }
    obey_line(said, session, shelf)?;
    say_added(alloc, session, form, out)
}

/// Logs the lines of a script up to one that reloads the user's rules, and returns the rest behind it, if
/// there is one.
fn log_to_reload<'a, 'b, W: Write>(
    alloc: Global,
    session: &mut Session<PlainCommand>,
    shelf: &mut Vec<PlainCommand>,
    files: &SourceFiles<'_>,
    places: &RulePlaces,
    first: Rest<'b>,
    form: Form,
    out: &mut W,
) -> Result<Option<Rest<'b>>, Stop<'a>>
    ensures shorter { IfOk result (λ rest. IfSome rest (λ rest.
        length rest.bytes.now < length first.entry.bytes.now)) }
    ensures stopped { IfErr result IsBehindLoad }
{
    let reloads = session.unread().len();
    let mut rest = first;
    loop {
        let (line, after) = split_line(rest.bytes);
        log_line(
            alloc,
            session,
            shelf,
            files,
            places,
            rest.number,
            line,
            form,
            out,
        )?;
        let Some(bytes) = after else {
            return Ok(None);
        };
        rest = Rest {
            bytes,
            number: rest.number.saturating_add(1),
        };
        if session.unread().len() != reloads {
            return Ok(Some(rest));
        }
    }
}

/// Logs the lines of a script.
fn log_lines<'a, W: Write>(
    alloc: Global,
    bytes: &[u8],
    session: &mut Session<PlainCommand>,
    files: &SourceFiles<'_>,
    form: Form,
    out: &mut W,
) -> Result<(), Stop<'a>>
    ensures { IfErr result IsBehindLoad }
{
    let mut shelf = commands(alloc, Cost::Budget)?;
    let mut left = Some(Rest { bytes, number: 1 });
    while let Some(rest) = left {
        let files = files_in_force(files, session);
        let places = RulePlaces::of(alloc, &files)?;
        left = log_to_reload(alloc, session, &mut shelf, &files, &places, rest, form, out)?;
    }
    Ok(())
}

/// Writes of each key press of a script, line by line, what it does and why, before it is pressed, and what
/// each line adds to the trace.
///
/// Errors: a script that can't be read or is too long, refused memory, or a write that failed.
pub(crate) fn log_any<'a, S: Read + Drop, W: Write>(
    alloc: Global,
    script: Option<S>,
    session: &mut Session<PlainCommand>,
    files: &SourceFiles<'_>,
    form: Form,
    out: &mut W,
) -> Result<(), Stop<'a>>
    ensures { IfErr result IsBehindLoad }
{
    let Some(mut script) = script else {
        return Ok(());
    };
    match read_within(alloc, &mut script, SCRIPT_LIMIT) {
        Ok(bytes) => log_lines(alloc, bytes.as_slice(), session, files, form, out),
        Err(failure) => Err(unread_script(failure)),
    }
}
