//! A session from its load on, with an event of each kind.
use crate::host::{Plain, all};
use kb_base::{Failure, NoMemory};
use kb_context::ContextValue;
use kb_core::Native;
use kb_files::{ExtensionFiles, Inputs};
use kb_keys::Platform;
use kb_registry::Ticket;
use kb_script::{ScriptFault, run_script};
use kb_session::{Session, SessionFault};
use kb_trace::Event;
use std::alloc::Global;
use std::io::Write;
use std::{io, str};

const LAYOUT: &str = r#"{"scopes":[{"name":"window","keys":{"ready":true}},
    {"name":"editor","parent":"window"}],"focus":"editor"}"#;

const DEFAULTS: &str = r#"[{"key":"left","command":"cursorLeft"},
    {"key":"h","command":"x.hi","when":"ready && name =~ /^a/"}]"#;

const USER: &str = r#"[{"key":"ctrl+k ctrl+c x","command":"type","args":"chord"},
    {"key":"r","command":"runCommands","args":{"commands":["x.hi",{"command":"type","args":"!"}]}},
    {"key":"left","command":"-cursorLeft"}]"#;

const PACKAGE: &str = r#"{"publisher":"p","name":"e","contributes":{
    "commands":[{"command":"x.hi","title":"Say hi","category":"Words","enablement":"ready"}],
    "keybindings":[{"key":"e","command":"x.hi"}]}}"#;

const HANDLERS: &str = r#"{"version":1,"handlers":[
    {"command":"x.hi","budget":5000,"depth":2,"texts":["hi"],"calls":["type","x.lo"],
     "code":"010000300000300001000000"},
    {"command":"x.lo","budget":2000,"depth":1,"texts":["lo"],"calls":["type"],
     "code":"010000300000000000"}]}"#;

/// One event of each kind, and those whose commands start others.
const SCRIPT: [&str; 26] = [
    "key ctrl+k",
    "key ctrl+c",
    "key x",
    "set editor name \"abc\"",
    "key h",
    "key r",
    "key e",
    "key left",
    "unset editor name",
    "set nowhere name 1",
    "key ctrl+k",
    "focus window",
    "palette say",
    "choose 1",
    "choose 1",
    "dispose 4",
    "register cursorLeft",
    "disable p.e",
    "key e",
    "enable p.e",
    "update p.e {\"version\":1,\"handlers\":[]}",
    "update p.e {\"version\":1,\"handlers\":[\
     {\"command\":\"x.hi\",\"budget\":5000,\"depth\":2,\"code\":\"000000\"},\
     {\"command\":\"x.lo\",\"budget\":2000,\"depth\":1,\"code\":\"000000\"}]}",
    "key e",
    "reload [{\"key\":\"a\",\"command\":\"type\",\"args\":\"new\",\"when\":\"name =~ /(/\"}]",
    "key a",
    "what",
];

/// The calls of a session, but for `register`.
const CALLS: [&str; 7] = [
    "handle", "run", "dispose", "reload", "set", "unset", "update",
];

/// Takes all bytes and keeps none.
#[derive(Drop)]
struct Nowhere;

impl Write for Nowhere {
    fn write(&mut self, buf: &[u8]) -> io::Result<usize> {
        Ok(buf.len())
    }

    fn flush(&mut self) -> io::Result<()> {
        Ok(())
    }
}

/// What a session answers to a line.
fn answer<'a>(
    alloc: Global,
    session: &mut Session<Plain>,
    shelf: &mut Vec<Plain>,
    line: &str,
) -> &'a str {
    let mut reader = line.as_bytes();
    match run_script(alloc, &mut reader, &mut Nowhere, session, shelf) {
        Ok(()) => "ok",
        Err(Failure::NoMemory) => "5",
        Err(Failure::Fault(ScriptFault::Stopped)) => "97",
        Err(Failure::Fault(_)) => "a fault",
    }
}

/// The answer to each line, with the number of trace lines behind it, the trace, and then what calls of the
/// stopped session answer.
fn play(
    alloc: Global,
    session: &mut Session<Plain>,
    shelf: &mut Vec<Plain>,
) -> Result<String, NoMemory> {
    let mut text = String::new(alloc);
    for line in SCRIPT {
        let answer = answer(alloc, session, shelf, line);
        let lines = session.trace().len();
        write!(text, "{answer}:{lines} ")?;
    }
    let trace = str::from_utf8(session.trace().text_from(0)).unwrap_or("no text");
    for line in trace.lines() {
        write!(text, "/ {line} ")?;
    }
    let behind = calls_behind_stop(alloc, session)?;
    write!(text, "// {behind}")?;
    Ok(text)
}

fn number<'a>(fault: &SessionFault) -> &'a str {
    match fault {
        SessionFault::Stopped => "97",
        SessionFault::NoMemory => "5",
        SessionFault::Refused(_) => "a fault",
    }
}

/// What a call of a session answers.
fn answer_to<'a>(
    alloc: Global,
    session: &mut Session<Plain>,
    call: &str,
) -> Result<&'a str, NoMemory> {
    let fault = match call {
        "handle" => session.handle(Event::Choose(1)).err(),
        "run" => {
            let mut events = Vec::new(alloc);
            events.push(Event::Choose(1)).map_err(NoMemory::from)?;
            session.run(events).err()
        }
        "dispose" => session.dispose(Ticket(1)).err(),
        "reload" => session.reload_user(b"[]").err(),
        "set" => session
            .set_context("window", "k", ContextValue::Truth(true))
            .err(),
        "unset" => session.unset_context("window", "k").err(),
        _ => session.update_extension("p.e", HANDLERS.as_bytes()).err(),
    };
    match fault {
        Some(fault) => Ok(number(&fault)),
        None => Ok("ok"),
    }
}

/// What `register` answers, and the native command of the closure that comes back.
fn answer_to_register<'a>(session: &mut Session<Plain>) -> (&'a str, &'a str) {
    let native = Native::TypeText;
    let Err((back, fault)) = session.register(Plain { native }) else {
        return ("ok", "nothing");
    };
    let name = back.native.name();
    (number(&fault), name)
}

/// Whether the session was stopped, what each call answers behind a stop, the closure that comes back, and
/// the number of trace lines then.
fn calls_behind_stop(alloc: Global, session: &mut Session<Plain>) -> Result<String, NoMemory> {
    let was_stopped = session.is_stopped();
    session.stop();
    let (registered, back) = answer_to_register(session);
    let mut text = format!(in alloc; "{was_stopped} register {registered} {back} ")?;
    for call in CALLS {
        let answer = answer_to(alloc, session, call)?;
        write!(text, "{call} {answer} ")?;
    }
    let lines = session.trace().len();
    write!(text, "lines {lines}")?;
    Ok(text)
}

/// Loads a session and runs its script line by line.
pub(crate) fn run(alloc: Global) -> Result<String, NoMemory> {
    let natives = all(alloc)?;
    let mut shelf = all(alloc)?;
    let extensions = [ExtensionFiles {
        package: PACKAGE.as_bytes(),
        handlers: Some(HANDLERS.as_bytes()),
    }];
    let inputs = Inputs {
        layout: Some(LAYOUT.as_bytes()),
        defaults: DEFAULTS.as_bytes(),
        user: USER.as_bytes(),
        platform: Platform::Linux,
        extensions: extensions.as_slice(),
    };
    match Session::load(alloc, inputs, natives) {
        Ok(mut session) => {
            let text = play(alloc, &mut session, &mut shelf);
            drop(session.into_trace());
            text
        }
        Err(Failure::NoMemory) => String::from_str(alloc, "5"),
        Err(Failure::Fault(_)) => String::from_str(alloc, "a fault"),
    }
}
