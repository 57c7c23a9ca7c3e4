//! Which commands the palette lists, and why not, said.
ghost use Rattle.std.specs.Prelude.{IfOk, OnOk, string_bytes};
ghost use Rattle.serde_json.specs.View.{view};
ghost use Rattle.kb_context.specs.Scopes.{context};
ghost use Rattle.kb_explain_report.specs.PaletteSaid.{IsWhyJson, IsWhyText, SaysCommand, SaysListing};
ghost use Rattle.kb_explain_report.specs.Said.{WritesEach};
ghost use Rattle.kb_report.specs.Output.{WritesLine};
ghost use Rattle.kb_palette_commands.specs.Palette.{palette_commands};

use crate::cause_said::{cause_json, cause_said};
use kb_base::NoMemory;
use kb_bindings::Bindings;
use kb_context::Scopes;
use kb_explain::{Unlisted, why_unlisted};
use kb_palette::PaletteCommand;
use kb_report::{Form, Stop, say_object, say_text};
use serde_json::{Value, json};
use std::alloc::Global;
use std::io::Write;

/// Whether the palette lists a command, or why not, in words.
fn why_text(alloc: Global, why: &Unlisted<'_>, scopes: &Scopes) -> Result<String, NoMemory>
    ensures { IfOk result (λ made. IsWhyText why.now (string_bytes made)) }
{
    match why {
        Unlisted::Listed => String::from_str(alloc, "is listed"),
        Unlisted::NotContributed => {
            String::from_str(alloc, "isn't listed: no extension contributes it")
        }
        Unlisted::ExtensionDisabled(id) => {
            format!(in alloc; "isn't listed: the extension {id} isn't enabled")
        }
        Unlisted::NoItemHolds(cause) => {
            let why = cause_said(alloc, cause, scopes)?;
            format!(in alloc; "isn't listed: no item of the palette that names it holds: {why}")
        }
        Unlisted::IsDisabled(cause) => {
            let why = cause_said(alloc, cause, scopes)?;
            format!(in alloc; "isn't listed: its enablement fails: {why}")
        }
        Unlisted::NoWord(label) => {
            format!(in alloc; "isn't listed: a word of the query begins no word of {label}")
        }
    }
}

/// Whether the palette lists a command, or why not, as JSON.
fn why_json(
    alloc: Global,
    command: &str,
    why: &Unlisted<'_>,
    scopes: &Scopes,
) -> Result<Value, NoMemory>
    ensures { IfOk result (λ made. IsWhyJson command.now why.now (view made)) }
{
    match why {
        Unlisted::Listed => json!(in alloc; {"command": command, "palette": "listed"}),
        Unlisted::NotContributed => {
            json!(in alloc; {"command": command, "palette": "not contributed"})
        }
        Unlisted::ExtensionDisabled(id) => {
            json!(in alloc; {"command": command, "palette": "extension disabled", "extension": (*id)})
        }
        Unlisted::NoItemHolds(cause) => {
            let why = cause_json(alloc, cause, scopes)?;
            json!(in alloc; {"command": command, "palette": "hidden", "because": why})
        }
        Unlisted::IsDisabled(cause) => {
            let why = cause_json(alloc, cause, scopes)?;
            json!(in alloc; {"command": command, "palette": "disabled", "because": why})
        }
        Unlisted::NoWord(label) => {
            json!(in alloc; {"command": command, "palette": "not found", "label": (*label)})
        }
    }
}

/// Writes whether the palette lists a command for a query, or why not.
///
/// Errors: refused memory, or a write that failed.
pub fn say_command<W: Write>(
    alloc: Global,
    bindings: &Bindings,
    query: &str,
    command: &str,
    scopes: &Scopes,
    form: Form,
    out: &mut W,
) -> Result<(), Stop>
    ensures { OnOk result (WritesLine
        (SaysCommand form (context scopes.now.seen) query.now bindings.now command.now)
        (W.contents out.old) (W.contents out.new)) }
{
    let why = why_unlisted(alloc, bindings, query, command, scopes)?;
    match form {
        Form::Text => {
            let said = why_text(alloc, &why, scopes)?;
            say_text(format!(in alloc; "{command}: {said}")?, out)?;
            Ok(())
        }
        Form::Json => {
            let object = why_json(alloc, command, &why, scopes)?;
            say_object(alloc, object, out)?;
            Ok(())
        }
    }
}

/// Writes the same of each of these commands.
fn say_each<W: Write>(
    alloc: Global,
    bindings: &Bindings,
    query: &str,
    commands: &[PaletteCommand],
    scopes: &Scopes,
    form: Form,
    out: &mut W,
) -> Result<(), Stop>
    ensures { OnOk result (WritesEach
        (SaysListing form (context scopes.now.seen) query.now bindings.now)
        commands.now (W.contents out.old) (W.contents out.new)) }
{
    let mut left = commands;
    while let [first, rest @ ..] = left {
        say_command(alloc, bindings, query, first.command(), scopes, form, out)?;
        left = rest;
    }
    Ok(())
}

/// Writes the same of each command of the palette, in load order.
///
/// Errors: refused memory, or a write that failed.
pub fn say_commands<W: Write>(
    alloc: Global,
    bindings: &Bindings,
    query: &str,
    scopes: &Scopes,
    form: Form,
    out: &mut W,
) -> Result<(), Stop>
    ensures { OnOk result (WritesEach
        (SaysListing form (context scopes.now.seen) query.now bindings.now)
        (palette_commands bindings.now.extensions) (W.contents out.old) (W.contents out.new)) }
{
    say_each(
        alloc,
        bindings,
        query,
        bindings.palette(),
        scopes,
        form,
        out,
    )?;
    Ok(())
}
