//! What the focus sees, said.
ghost use Rattle.std.specs.Prelude.{IfOk, OnOk, string_bytes};
ghost use Rattle.serde_json.specs.View.{view};
ghost use Rattle.kb_explain_report.specs.Said.{IsSeenJson, IsSeenText, SaysContext, SaysSeen};
ghost use Rattle.kb_explain_report.specs.Said.{WritesEach};
ghost use Rattle.kb_report.specs.Output.{WritesLine};

use crate::value_said::{value_json, value_text};
use kb_base::NoMemory;
use kb_context::Scopes;
use kb_explain::{Seen, keys_seen};
use kb_report::{Form, Stop, say_object, say_text};
use serde_json::{Value, json};
use std::alloc::Global;
use std::io::Write;

/// A key with its value and its scope, in words.
fn seen_text(alloc: Global, seen: &Seen<'_>) -> Result<String, NoMemory>
    ensures { IfOk result (λ made. IsSeenText seen.now (string_bytes made)) }
{
    let key = seen.key;
    let scope = seen.scope;
    let value = value_text(alloc, seen.value)?;
    let line = format!(in alloc; "{key}: {value} ({scope})")?;
    Ok(line)
}

/// The same as JSON.
fn seen_json(alloc: Global, seen: &Seen<'_>) -> Result<Value, NoMemory>
    ensures { IfOk result (λ made. IsSeenJson seen.now (view made)) }
{
    let key = seen.key;
    let scope = seen.scope;
    let value = value_json(alloc, seen.value)?;
    json!(in alloc; {"key": key, "value": value, "scope": scope})
}

/// Writes a key.
fn say_one<W: Write>(alloc: Global, seen: &Seen<'_>, form: Form, out: &mut W) -> Result<(), Stop>
    ensures { OnOk result (WritesLine (SaysSeen form seen.now) (W.contents out.old) (W.contents out.new)) }
{
    match form {
        Form::Text => {
            say_text(seen_text(alloc, seen)?, out)?;
            Ok(())
        }
        Form::Json => {
            say_object(alloc, seen_json(alloc, seen)?, out)?;
            Ok(())
        }
    }
}

/// Writes a line for each of these keys.
fn say_each<W: Write>(alloc: Global, all: &[Seen<'_>], form: Form, out: &mut W) -> Result<(), Stop>
    ensures { OnOk result (WritesEach (SaysSeen form) all.now (W.contents out.old) (W.contents out.new)) }
{
    let mut left = all;
    while let [first, rest @ ..] = left {
        say_one(alloc, first, form, out)?;
        left = rest;
    }
    Ok(())
}

/// Writes a line for each context key that the focus sees, those of the innermost scope first, and of one
/// scope by name.
///
/// Errors: refused memory, or a write that failed.
pub fn say_context<W: Write>(
    alloc: Global,
    scopes: &Scopes,
    form: Form,
    out: &mut W,
) -> Result<(), Stop>
    ensures { OnOk result (SaysContext form scopes.now.seen (W.contents out.old) (W.contents out.new)) }
{
    let all = keys_seen(alloc, scopes)?;
    say_each(alloc, all.as_slice(), form, out)?;
    Ok(())
}
