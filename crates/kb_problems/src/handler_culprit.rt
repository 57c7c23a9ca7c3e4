//! What a refused `handlers.json` is wrong in.
use crate::commands::KnownCommands;
use crate::entries::{entries_at, span_of_member};
use crate::handler_sentence::{command_of, handlers_sentence};
use crate::mismatch_place::span_of_place;
use crate::refusal::Said;
use kb_base::{FaultKind, NoMemory, Refusal};
use kb_handler_file::HandlerFile;
use kb_places::{Source, Span};
use kb_source_files::ExtensionSource;
use serde_json::Value;
use std::alloc::Global;

/// What is wrong with the file of handlers of an extension, behind these extensions: where, and a sentence.
pub(crate) fn handlers_culprit(
    alloc: Global,
    earlier: &[ExtensionSource<'_>],
    source: &Source<'_>,
    refusal: &Refusal,
) -> Result<Said, NoMemory> {
    if let Some(found) = HandlerFile::mismatch(alloc, source.value().clone()?)? {
        let sentence = handlers_sentence(alloc, source.value(), found)?;
        return Ok((Some(span_of_place(alloc, source, found.place)?), sentence));
    }
    let handlers = source.value().get("handlers").and_then(Value::as_array);
    let handlers = handlers.map(Vec::as_slice).unwrap_or(&[]);
    let span = span_of_member(alloc, source, source.whole(), "handlers")?;
    let list = entries_at(alloc, source, span)?;
    match refusal.kind {
        FaultKind::AlreadyExists => taken(alloc, earlier, source, handlers, list.as_slice()),
        _ => unaccepted(alloc, source, handlers, list.as_slice(), refusal),
    }
}

/// The place of the handler of a command.
fn place_of(handlers: &[Value], command: &str) -> Option<usize> {
    for (place, handler) in handlers.iter().enumerate() {
        if handler.get("command").and_then(Value::as_str) == Some(command) {
            return Some(place);
        }
    }
    None
}

/// Where a member of the handler at a place is, or else the handler, or else the file.
fn span_in(
    alloc: Global,
    source: &Source<'_>,
    spans: &[Span],
    place: Option<usize>,
    member: &str,
) -> Result<Span, NoMemory> {
    let Some(place) = place else {
        return Ok(source.whole());
    };
    let Some(span) = spans.get(place) else {
        return Ok(source.whole());
    };
    let inner = span_of_member(alloc, source, *span, member)?;
    Ok(inner.unwrap_or(*span))
}

/// What is said of a handler that isn't accepted.
fn unaccepted(
    alloc: Global,
    source: &Source<'_>,
    handlers: &[Value],
    spans: &[Span],
    refusal: &Refusal,
) -> Result<Said, NoMemory> {
    let detail = match &refusal.detail {
        Some(detail) => detail.as_str(),
        None => "",
    };
    let (command, at) = match detail.rsplit_once(' ') {
        Some((command, at)) => (command, at),
        None => (detail, ""),
    };
    let span = span_in(alloc, source, spans, place_of(handlers, command), "code")?;
    let meaning = refusal.kind.meaning();
    let sentence = format!(in alloc;
        "the handler `{command}` isn't accepted, at place {at}: {meaning}; keycheck handlers says more"
    )?;
    Ok((Some(span), sentence))
}

/// The place of the first handler whose name is taken.
fn first_taken(handlers: &[Value], known: &KnownCommands) -> Option<usize> {
    for (place, handler) in handlers.iter().enumerate() {
        if known.has(command_of(handler)) {
            return Some(place);
        }
    }
    None
}

/// What is said of handlers of which a name is taken by a native command or in one of these extensions.
fn taken(
    alloc: Global,
    earlier: &[ExtensionSource<'_>],
    source: &Source<'_>,
    handlers: &[Value],
    spans: &[Span],
) -> Result<Said, NoMemory> {
    let known = KnownCommands::new(alloc, earlier)?;
    let place = first_taken(handlers, &known);
    let span = span_in(alloc, source, spans, place, "command")?;
    let command = match place.and_then(|place| handlers.get(place)) {
        Some(handler) => command_of(handler),
        None => "",
    };
    let sentence = format!(in alloc;
        "the handler `{command}` has the name of a native command or of another extension's handler"
    )?;
    Ok((Some(span), sentence))
}
