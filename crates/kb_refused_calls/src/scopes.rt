//! `Scopes::set`, by itself.
use kb_base::{Failure, NoMemory, Seq, Text, TextMap};
use kb_context::{ContextValue, Layout, LayoutScope, ScopeFault, Scopes};
use std::alloc::{AllocError, Global};

/// One scope, `window`, without keys.
pub(crate) fn window(alloc: Global) -> Result<Scopes, NoMemory> {
    let mut scopes = Seq::new(alloc);
    scopes.push(LayoutScope {
        name: Text::from_str(alloc, "window")?,
        parent: None,
        keys: TextMap::new(alloc),
    })?;
    let focus = Text::from_str(alloc, "window")?;
    match Scopes::new(alloc, Layout { scopes, focus }) {
        Ok(scopes) => Ok(scopes),
        Err(_) => Err(AllocError),
    }
}

fn answer<'a>(outcome: &Result<(), Failure<ScopeFault>>) -> &'a str {
    match outcome {
        Ok(()) => "ok",
        Err(Failure::NoMemory) => "5",
        Err(Failure::Fault(_)) => "a fault",
    }
}

/// Sets a new key twice. Says what each call answers, and whether the key is seen then.
pub(crate) fn set(alloc: Global) -> Result<String, NoMemory> {
    let mut scopes = window(alloc)?;
    let first = answer(&scopes.set("window", "key", ContextValue::Number(1)));
    let is_seen = scopes.get("key").is_some();
    let second = answer(&scopes.set("window", "key", ContextValue::Number(1)));
    let is_seen_then = scopes.get("key").is_some();
    format!(in alloc; "{first} {is_seen}, {second} {is_seen_then}")
}
