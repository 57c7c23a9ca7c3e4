//! Whole sessions. No other module calls a session.
//!
//! A block has the lines of the files (see `inputs`), then the lines of the script. Output lines begin with
//! `> ` and follow the line that writes them. A line that begins with `? ` is not part of the script: it is
//! another call of the session (see `run_query`).
use crate::host::{Command, Cost};
use crate::inputs::{
    Files, all_handlers, commands_in, extensions_of, files_in, is_of_file, lent, manifests_in,
};
use crate::streams::{FailingReader, LimitedWriter};
use kb_base::{EntryPattern, Failure, NoMemory, WarningLine};
use kb_core::Native;
use kb_files::{ExtensionFiles, Inputs, LoadFault};
use kb_golden_text::{escape, unescape};
use kb_keys::Keystroke;
use kb_registry::Ticket;
use kb_run::{Stop, script_stop};
use kb_script::{ScriptFault, run_script};
use kb_session::{Session, SessionFault};
use kb_trace::Event;
use std::alloc::Global;
use std::io::{Read, Write};
use std::str;

fn add_output(line: &str, actual: &mut String) -> Result<(), NoMemory> {
    write!(actual, "> {line}\n")
}

// Each line of `lines` as an output line. An end without a line feed is marked.
fn add_lines(lines: &str, actual: &mut String) -> Result<(), NoMemory> {
    for line in lines.split_inclusive('\n') {
        match line.strip_suffix('\n') {
            Some(line) => add_output(line, actual)?,
            None => write!(actual, "> {line}⟨no line feed⟩\n")?,
        }
    }
    Ok(())
}

fn add_warnings(session: &Session<Command>, actual: &mut String) -> Result<(), NoMemory> {
    for warning in session.warnings() {
        let line = WarningLine {
            source: session.source(warning.origin),
            warning,
        };
        write!(actual, "> {line}\n")?;
    }
    Ok(())
}

fn add_unread_list(
    session: &Session<Command>,
    list: usize,
    unread: &[EntryPattern],
    actual: &mut String,
) -> Result<(), NoMemory> {
    for one in unread {
        let source = session.source(one.origin);
        let part = one.part.name();
        write!(actual, "> {list}: {source} {part} ")?;
        let place = one.place;
        let number = one.unread.number;
        let pattern = one.unread.pattern.as_str();
        write!(actual, "{place} {number} {pattern}\n")?;
    }
    Ok(())
}

// The unread patterns, each behind the number of its list.
fn add_unread(session: &Session<Command>, actual: &mut String) -> Result<(), NoMemory> {
    for (list, unread) in session.unread().iter().enumerate() {
        add_unread_list(session, list, unread.as_slice(), actual)?;
    }
    Ok(())
}

fn add_trace(session: &Session<Command>, actual: &mut String) -> Result<(), NoMemory> {
    let trace = session.trace().text_from(0);
    add_lines(str::from_utf8(trace).unwrap_or("no text"), actual)
}

fn add_end(end: &Result<(), Stop<'_>>, actual: &mut String) -> Result<(), NoMemory> {
    match end {
        Ok(()) => Ok(()),
        // (a line of `rawrun`: a session with verified handlers has no such end)
        Err(Stop::Script(ScriptFault::Trapped)) => actual.push_str("> trapped\n"),
        Err(stop) => write!(actual, "> {stop}\n"),
    }
}

// Runs a script, and returns why it ended before its end, if it did.
fn run_whole<R: Read, W: Write>(
    alloc: Global,
    session: &mut Session<Command>,
    shelf: &mut Vec<Command>,
    reader: &mut R,
    writer: &mut W,
) -> Result<(), Stop<'static>> {
    script_stop(run_script(alloc, reader, writer, session, shelf), true)
}

fn run_line(
    alloc: Global,
    session: &mut Session<Command>,
    shelf: &mut Vec<Command>,
    script: &[u8],
    actual: &mut String,
) -> Result<(), NoMemory> {
    let mut written = Vec::new(alloc);
    let mut reader = script;
    let end = run_whole(alloc, session, shelf, &mut reader, &mut written);
    add_lines(
        str::from_utf8(written.as_slice()).unwrap_or("no text"),
        actual,
    )?;
    add_end(&end, actual)
}

// The bytes that a writer took, on one line.
fn add_written(alloc: Global, taken: &[u8], actual: &mut String) -> Result<(), NoMemory> {
    let taken = escape(alloc, str::from_utf8(taken).unwrap_or("no text"))?;
    add_output(taken.as_str(), actual)
}

fn run_with_failing_reader(
    alloc: Global,
    session: &mut Session<Command>,
    shelf: &mut Vec<Command>,
    left: &[u8],
    actual: &mut String,
) -> Result<(), NoMemory> {
    let mut written = Vec::new(alloc);
    let mut reader = FailingReader { left };
    let end = run_whole(alloc, session, shelf, &mut reader, &mut written);
    add_written(alloc, written.as_slice(), actual)?;
    add_end(&end, actual)
}

fn run_with_limited_writer(
    alloc: Global,
    session: &mut Session<Command>,
    shelf: &mut Vec<Command>,
    script: &[u8],
    writer: LimitedWriter,
    actual: &mut String,
) -> Result<(), NoMemory> {
    let mut writer = writer;
    let mut reader = script;
    let end = run_whole(alloc, session, shelf, &mut reader, &mut writer);
    let LimitedWriter {
        taken,
        room: _,
        fails: _,
    } = writer;
    add_written(alloc, taken.as_slice(), actual)?;
    add_end(&end, actual)
}

// Runs a script whose reader or writer fails after a number of bytes: `N SCRIPT`.
fn run_with_failing_stream(
    alloc: Global,
    session: &mut Session<Command>,
    shelf: &mut Vec<Command>,
    word: &str,
    rest: &str,
    actual: &mut String,
) -> Result<(), NoMemory> {
    let (count, script) = rest.split_once(' ').unwrap_or((rest, ""));
    let room = count.parse::<usize>().unwrap_or(0);
    let script = unescape(alloc, &[], script)?;
    if word == "read" {
        let left = &script.as_slice()[..room.min(script.len())];
        return run_with_failing_reader(alloc, session, shelf, left, actual);
    }
    let taken = Vec::new(alloc);
    let fails = word == "write";
    run_with_limited_writer(
        alloc,
        session,
        shelf,
        script.as_slice(),
        LimitedWriter { taken, room, fails },
        actual,
    )
}

// A key press, or an unread line where the word is no keystroke.
fn event_of(word: &str) -> Event {
    match Keystroke::parse(word) {
        Ok(stroke) => Event::Key(stroke),
        Err(_) => Event::Unread(0),
    }
}

fn events_of(alloc: Global, words: &str) -> Result<Vec<Event>, NoMemory> {
    let mut events = Vec::new(alloc);
    for word in words.split(' ') {
        events.push(event_of(word)).map_err(NoMemory::from)?;
    }
    Ok(events)
}

fn add_fault(fault: SessionFault, actual: &mut String) -> Result<(), NoMemory> {
    let kind = fault.kind();
    write!(actual, "> {kind}\n")
}

fn handle(session: &mut Session<Command>, word: &str, actual: &mut String) -> Result<(), NoMemory> {
    match session.handle(event_of(word)) {
        Ok(_) => Ok(()),
        Err(fault) => add_fault(fault, actual),
    }
}

fn run_events(
    alloc: Global,
    session: &mut Session<Command>,
    words: &str,
    actual: &mut String,
) -> Result<(), NoMemory> {
    match session.run(events_of(alloc, words)?) {
        Ok(()) => Ok(()),
        Err(fault) => add_fault(fault, actual),
    }
}

// Registers a closure of the host: its ticket, or the fault and the closure that is returned.
fn register(
    session: &mut Session<Command>,
    name: &str,
    is_refused: bool,
    actual: &mut String,
) -> Result<(), NoMemory> {
    let Some(native) = Native::named(name) else {
        return add_output("no native", actual);
    };
    let command = Command {
        native,
        cost: Cost::One,
        is_refused,
    };
    match session.register(command) {
        Ok(ticket) => {
            let number = ticket.0;
            write!(actual, "> ticket {number}\n")
        }
        Err((back, fault)) => {
            add_fault(fault, actual)?;
            let name = back.native.name();
            write!(actual, "> back {name}\n")
        }
    }
}

fn ticket_of(number: &str) -> Ticket {
    Ticket(number.parse::<u64>().unwrap_or(0))
}

fn dispose(
    session: &mut Session<Command>,
    number: &str,
    actual: &mut String,
) -> Result<(), NoMemory> {
    match session.dispose(ticket_of(number)) {
        Ok(command) => {
            let name = command.native.name();
            write!(actual, "> back {name}\n")
        }
        Err(fault) => add_fault(fault, actual),
    }
}

// Gives an extension the handlers of these bytes: `EXTENSION BYTES`. The trace has what it answers.
fn update(
    alloc: Global,
    session: &mut Session<Command>,
    rest: &str,
    actual: &mut String,
) -> Result<(), NoMemory> {
    let (id, text) = rest.split_once(' ').unwrap_or((rest, ""));
    let bytes = unescape(alloc, &[], text)?;
    match session.update_extension(id, bytes.as_slice()) {
        Ok(_) => Ok(()),
        Err(fault) => add_fault(fault, actual),
    }
}

// Disposes of a ticket, and registers its closure again.
fn turn(session: &mut Session<Command>, ticket: Ticket) -> Result<Ticket, SessionFault> {
    let command = session.dispose(ticket)?;
    match session.register(command) {
        Ok(ticket) => Ok(ticket),
        Err((_, fault)) => Err(fault),
    }
}

// The same `COUNT` times, beginning with ticket `N`: the last ticket.
fn turns(session: &mut Session<Command>, rest: &str, actual: &mut String) -> Result<(), NoMemory> {
    let (number, count) = rest.split_once(' ').unwrap_or((rest, ""));
    let mut ticket = ticket_of(number);
    for _ in 0..count.parse::<u32>().unwrap_or(0) {
        match turn(session, ticket) {
            Ok(next) => ticket = next,
            Err(fault) => return add_fault(fault, actual),
        }
    }
    let number = ticket.0;
    write!(actual, "> ticket {number}\n")
}

fn stop(session: &mut Session<Command>, actual: &mut String) -> Result<(), NoMemory> {
    let was_stopped = session.is_stopped();
    session.stop();
    let is_stopped = session.is_stopped();
    write!(actual, "> {was_stopped} {is_stopped}\n")
}

// Runs a line that begins with `? `:
// - `warnings`, `unread` and `trace` list the warnings, the unread patterns and the trace so far.
// - `handle KEY` and `run KEY ..` are calls with key presses.
// - `register NATIVE`, `dispose N` and `stop` are calls of the host; `stop` prints `is_stopped` before and
//   after it.
// - `update EXTENSION BYTES` is a call of the host too.
// - `lacking NATIVE` registers a closure that is refused memory in each call.
// - `turns N COUNT` disposes of a ticket and registers its closure again, `COUNT` times.
// - `read N SCRIPT` runs a script whose reader fails after N bytes, `write N SCRIPT` one whose writer fails
//   after N bytes, and `fill N SCRIPT` one whose writer takes no more than N bytes.
fn run_query(
    alloc: Global,
    session: &mut Session<Command>,
    shelf: &mut Vec<Command>,
    query: &str,
    actual: &mut String,
) -> Result<(), NoMemory> {
    let (word, rest) = query.split_once(' ').unwrap_or((query, ""));
    match word {
        "warnings" => add_warnings(session, actual),
        "unread" => add_unread(session, actual),
        "trace" => add_trace(session, actual),
        "handle" => handle(session, rest, actual),
        "run" => run_events(alloc, session, rest, actual),
        "register" => register(session, rest, false, actual),
        "lacking" => register(session, rest, true, actual),
        "dispose" => dispose(session, rest, actual),
        "update" => update(alloc, session, rest, actual),
        "turns" => turns(session, rest, actual),
        "stop" => stop(session, actual),
        "read" | "write" | "fill" => run_with_failing_stream(
            alloc, session, shelf, word, rest, actual,
        ),
        _ => add_output("no question", actual),
    }
}

fn add_file_lines(lines: &str, actual: &mut String) -> Result<(), NoMemory> {
    for line in lines.lines() {
        if is_of_file(line) {
            write!(actual, "{line}\n")?;
        }
    }
    Ok(())
}

// Runs a line of the script behind a blank line for each line that was run, or a query.
fn run_block_line(
    alloc: Global,
    session: &mut Session<Command>,
    shelf: &mut Vec<Command>,
    feeds: &mut Vec<u8>,
    line: &str,
    actual: &mut String,
) -> Result<(), NoMemory> {
    write!(actual, "{line}\n")?;
    if let Some(query) = line.strip_prefix("? ") {
        return run_query(alloc, session, shelf, query, actual);
    }
    let script = unescape(alloc, feeds.as_slice(), line)?;
    run_line(alloc, session, shelf, script.as_slice(), actual)?;
    feeds.push(b'\n').map_err(NoMemory::from)
}

// Runs the lines of the script one by one. Blank lines before each of them give it its number in the block.
fn run_block_lines(
    alloc: Global,
    session: &mut Session<Command>,
    shelf: &mut Vec<Command>,
    lines: &str,
    actual: &mut String,
) -> Result<(), NoMemory> {
    let mut feeds = Vec::new(alloc);
    for line in lines.lines() {
        if !is_of_file(line) && !line.starts_with("> ") {
            run_block_line(alloc, session, shelf, &mut feeds, line, actual)?;
        }
    }
    Ok(())
}

fn run_lines(
    alloc: Global,
    session: &mut Session<Command>,
    shelf: &mut Vec<Command>,
    lines: &str,
    actual: &mut String,
) -> Result<(), NoMemory> {
    add_warnings(session, actual)?;
    run_block_lines(alloc, session, shelf, lines, actual)
}

fn load(
    alloc: Global,
    inputs: Inputs<'_>,
    natives: Vec<Command>,
    is_raw: bool,
) -> Result<Session<Command>, Failure<LoadFault>> {
    if is_raw {
        return Session::load_raw(alloc, inputs, natives);
    }
    Session::load(alloc, inputs, natives)
}

fn load_and_run(
    alloc: Global,
    inputs: Inputs<'_>,
    is_raw: bool,
    cost: Cost,
    lines: &str,
    actual: &mut String,
) -> Result<(), NoMemory> {
    let mut shelf = commands_in(alloc, lines, "shelf", cost)?;
    let natives = commands_in(alloc, lines, "natives", cost)?;
    match load(alloc, inputs, natives, is_raw) {
        Ok(mut session) => {
            let end = run_lines(alloc, &mut session, &mut shelf, lines, actual);
            drop(session.into_trace());
            end
        }
        Err(failure) => add_end(&Err(Stop::from(failure)), actual),
    }
}

fn inputs_of<'a>(files: &'a Files, extensions: &'a [ExtensionFiles<'a>]) -> Inputs<'a> {
    Inputs {
        layout: lent(&files.layout),
        defaults: lent(&files.defaults).unwrap_or(&[]),
        user: lent(&files.user).unwrap_or(&[]),
        platform: files.platform,
        extensions,
    }
}

fn run_over_files(
    alloc: Global,
    files: &Files,
    is_raw: bool,
    cost: Cost,
    lines: &str,
    actual: &mut String,
) -> Result<(), NoMemory> {
    let manifests = manifests_in(alloc, lent(&files.extensions).unwrap_or(&[]))?;
    let handlers = all_handlers(alloc, lines, manifests.len())?;
    let extensions = extensions_of(alloc, manifests.as_slice(), handlers.as_slice())?;
    let inputs = inputs_of(files, extensions.as_slice());
    load_and_run(alloc, inputs, is_raw, cost, lines, actual)
}

// The warnings or the fault of the load, and the lines of the script with their outputs.
fn output(alloc: Global, is_raw: bool, cost: Cost, lines: &str) -> Result<String, NoMemory> {
    let mut output = String::new(alloc);
    let files = files_in(alloc, lines)?;
    run_over_files(alloc, &files, is_raw, cost, lines, &mut output)?;
    Ok(output)
}

/// Runs a session, or a raw one, and appends its lines with the actual outputs to `actual`: those of the
/// files, the warnings or the fault of the load, and those of the script. It does so with closures that cost
/// 1, and again with those that cost nothing and their whole budget: outputs that differ are appended too.
pub(crate) fn run(
    alloc: Global,
    is_raw: bool,
    lines: &str,
    actual: &mut String,
) -> Result<(), NoMemory> {
    add_file_lines(lines, actual)?;
    let usual = output(alloc, is_raw, Cost::One, lines)?;
    actual.push_str(usual.as_str())?;
    for cost in [Cost::Nothing, Cost::Budget] {
        let other = output(alloc, is_raw, cost, lines)?;
        if other != usual {
            write!(actual, "⟨with other closures⟩\n")?;
            actual.push_str(other.as_str())?;
        }
    }
    Ok(())
}
