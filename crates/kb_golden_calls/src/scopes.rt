//! Scopes that cases create, change and query.
use crate::texts::{file_fault, value_text};
use kb_base::{Failure, NoMemory};
use kb_context::{ContextValue, ScopeFault, Scopes, UnknownScope};
use kb_files::{read_context_text, read_scopes};
use kb_golden_text::fault_text;
use std::alloc::{AllocError, Global};

fn result_text(
    alloc: Global,
    outcome: Result<(), Failure<ScopeFault>>,
) -> Result<String, NoMemory> {
    match outcome {
        Ok(()) => String::from_str(alloc, "ok"),
        Err(Failure::Fault(wrong)) => fault_text(alloc, wrong.kind()),
        Err(Failure::NoMemory) => Err(AllocError),
    }
}

fn known(outcome: Result<(), UnknownScope>) -> Result<(), Failure<ScopeFault>> {
    match outcome {
        Ok(()) => Ok(()),
        Err(UnknownScope) => Err(Failure::Fault(ScopeFault::UnknownScope)),
    }
}

/// Replaces the scopes by those of a layout: `ok`, or the fault of the layout.
pub(crate) fn layout(
    alloc: Global,
    bytes: &[u8],
    scopes: &mut Option<Scopes>,
) -> Result<String, NoMemory> {
    match read_scopes(alloc, Some(bytes)) {
        Ok(made) => {
            *scopes = Some(made);
            String::from_str(alloc, "ok")
        }
        Err(wrong) => file_fault(alloc, wrong),
    }
}

fn set_value(
    scopes: &mut Scopes,
    place: &str,
    value: ContextValue,
) -> Result<(), Failure<ScopeFault>> {
    match place.split_once(' ') {
        Some((scope, key)) => scopes.set(scope, key, value),
        None => scopes.set_root(place, value),
    }
}

fn set(alloc: Global, text: &str, scopes: &mut Scopes) -> Result<String, NoMemory> {
    let (place, json) = text.split_once(" := ").unwrap_or((text, ""));
    match read_context_text(alloc, json) {
        Ok(value) => result_text(alloc, set_value(scopes, place, value)),
        Err(wrong) => file_fault(alloc, wrong),
    }
}

fn get(alloc: Global, key: &str, scopes: &Scopes) -> Result<String, NoMemory> {
    match scopes.get(key) {
        Some(value) => value_text(alloc, value),
        None => String::from_str(alloc, "none"),
    }
}

/// A call of the scopes: `focus SCOPE`, `set SCOPE KEY := JSON`, `set KEY := JSON` (in the outermost scope),
/// `unset SCOPE KEY`, `get KEY` (the value that the focused scope sees), `refresh`, or `revision`.
pub(crate) fn call(alloc: Global, text: &str, scopes: &mut Scopes) -> Result<String, NoMemory> {
    let (word, rest) = text.split_once(' ').unwrap_or((text, ""));
    match word {
        "focus" => result_text(alloc, known(scopes.focus(rest))),
        "set" => set(alloc, rest, scopes),
        "unset" => {
            let (scope, key) = rest.split_once(' ').unwrap_or((rest, ""));
            result_text(alloc, known(scopes.unset(scope, key)))
        }
        "get" => get(alloc, rest, scopes),
        "refresh" => {
            scopes.refresh()?;
            String::from_str(alloc, "ok")
        }
        "revision" => {
            let revision = scopes.revision();
            format!(in alloc; "{revision}")
        }
        _ => String::from_str(alloc, "no call"),
    }
}
