//! Calls of a registry, and starts of handlers, each by itself.
use crate::host::{Plain, all};
use crate::scopes::window;
use kb_base::{Failure, NoMemory, Seq};
use kb_code::Handler;
use kb_core::{Args, Core, Native};
use kb_execute::{Ended, HeldCore};
use kb_golden_code::handlers_in;
use kb_handler_table::Codes;
use kb_registry::Registry;
use kb_vm::End;
use std::alloc::{AllocError, Global};

/// A handler that returns at once.
const AT_ONCE: &str =
    r#"{"version":1,"handlers":[{"command":"x.a","budget":1,"depth":1,"code":"000000"}]}"#;

/// `x.a` types `a`, calls `x.b` and types `b`. `x.b` types `(`, joins two texts and types them.
const NESTED: &str = r#"{"version":1,"handlers":[
    {"command":"x.a","budget":9999,"depth":2,"texts":["a","b"],"calls":["type","x.b"],
     "code":"010000300000300001010001300000000000"},
    {"command":"x.b","budget":5000,"depth":1,
     "texts":["(","longer than what a short text keeps inside itself"],
     "calls":["type"],"code":"010000300000010000010001150000300000000000"}]}"#;

fn handlers(alloc: Global, text: &str) -> Result<Seq<Handler>, NoMemory> {
    let handlers = handlers_in(alloc, text.as_bytes());
    if handlers.len() == 0 {
        return Err(AllocError);
    }
    Ok(handlers)
}

/// A registry with a closure for each native command.
fn natives(alloc: Global) -> Result<Registry<Plain>, NoMemory> {
    let mut registry = Registry::new(alloc, 9)?;
    for command in all(alloc)? {
        if registry.register(command).is_err() {
            return Err(AllocError);
        }
    }
    Ok(registry)
}

/// Registers a closure, and registers it again if the first call gives it back.
pub(crate) fn register(alloc: Global) -> Result<String, NoMemory> {
    let mut registry = Registry::new(alloc, 2)?;
    let native = Native::TypeText;
    match registry.register(Plain { native }) {
        Ok(ticket) => {
            let number = ticket.0;
            format!(in alloc; "ticket {number}")
        }
        Err((back, Failure::NoMemory)) => {
            let name = back.native.name();
            let number = registry.register(back).map_or(0, |ticket| ticket.0);
            format!(in alloc; "5 {name}, ticket {number}")
        }
        Err((_, Failure::Fault(_))) => String::from_str(alloc, "a fault"),
    }
}

/// Registers handlers, and registers them again if the first call gives them back.
pub(crate) fn register_code(alloc: Global) -> Result<String, NoMemory> {
    let mut registry = natives(alloc)?;
    let codes = Codes::raw(handlers(alloc, NESTED)?);
    if registry.codes(0).is_some() {
        return String::from_str(alloc, "not the first");
    }
    match registry.register_code(0, codes) {
        Ok(()) => {
            let is_live = registry.is_live("x.b");
            format!(in alloc; "live {is_live}")
        }
        Err((back, Failure::NoMemory)) => {
            let was_live = registry.is_live("x.b");
            let is_done = registry.register_code(0, back).is_ok();
            format!(in alloc; "5 live {was_live}, {is_done}")
        }
        Err((_, Failure::Fault(_))) => String::from_str(alloc, "a fault"),
    }
}

/// How a start ended, what it spent, the text before the caret, and the lines.
fn ended_text(alloc: Global, ended: &Ended<'_>, core: &Core) -> Result<String, NoMemory> {
    let finish = match &ended.finish {
        End::Done => "done",
        End::NoMemory => "5",
        End::NotFound | End::Trap(_, _, _) => "stuck",
    };
    let spent = ended.spent;
    let before = core.buffer().before.as_str();
    let mut text = format!(in alloc; "{finish} {spent} <{before}>")?;
    for place in 0..ended.lines.len() {
        if let Some(line) = ended.lines.get(place) {
            write!(text, " / {line}")?;
        }
    }
    Ok(text)
}

fn start(alloc: Global, text: &str) -> Result<String, NoMemory> {
    let mut registry = natives(alloc)?;
    let codes = Codes::raw(handlers(alloc, text)?);
    if registry.codes(0).is_some() || registry.register_code(0, codes).is_err() {
        return Err(AllocError);
    }
    let mut core = HeldCore::new(Core::new(alloc, window(alloc)?));
    let ended = core.start(alloc, &registry, "x.a", Args::new(alloc));
    ended_text(alloc, &ended, core.core())
}

/// Starts a handler that returns at once.
pub(crate) fn start_at_once(alloc: Global) -> Result<String, NoMemory> {
    start(alloc, AT_ONCE)
}

/// Starts a handler that calls another one.
pub(crate) fn start_nested(alloc: Global) -> Result<String, NoMemory> {
    start(alloc, NESTED)
}
