//! Commands without keys, said.
ghost use Rattle.std.specs.Prelude.{◌≡◌, IfOk, OnOk, string_bytes};
ghost use Rattle.serde_json.specs.View.{view};
ghost use Rattle.kb_explain.specs.Started.{without_keys};
ghost use Rattle.kb_explain_report.specs.Said.{WritesEach};
ghost use Rattle.kb_explain_report.specs.UnboundSaid.{IsUnboundJson, SaysLent, SaysUnbound, unbound_words};
ghost use Rattle.kb_report.specs.Output.{WritesLine};

use kb_base::NoMemory;
use kb_bindings::Bindings;
use kb_explain::commands_without_keys;
use kb_palette::PaletteCommand;
use kb_report::{Form, Stop, say_object, say_text};
use serde_json::{Value, json};
use std::alloc::Global;
use std::io::Write;

/// A command with its text in the palette.
fn unbound_text(alloc: Global, command: &PaletteCommand) -> Result<String, NoMemory>
    ensures { IfOk result (λ made. string_bytes made ≡ unbound_words command.now) }
{
    let name = command.command();
    let label = command.label();
    let line = format!(in alloc; "{name}: {label}")?;
    Ok(line)
}

/// The same as JSON.
fn unbound_json(alloc: Global, command: &PaletteCommand) -> Result<Value, NoMemory>
    ensures { IfOk result (λ made. IsUnboundJson command.now (view made)) }
{
    let name = command.command();
    let label = command.label();
    json!(in alloc; {"command": name, "label": label})
}

/// Writes a command without keys.
fn say_one<W: Write>(
    alloc: Global,
    command: &PaletteCommand,
    form: Form,
    out: &mut W,
) -> Result<(), Stop>
    ensures { OnOk result (WritesLine (SaysUnbound form command.now)
        (W.contents out.old) (W.contents out.new)) }
{
    match form {
        Form::Text => {
            say_text(unbound_text(alloc, command)?, out)?;
            Ok(())
        }
        Form::Json => {
            say_object(alloc, unbound_json(alloc, command)?, out)?;
            Ok(())
        }
    }
}

/// Writes these commands.
fn say_each<W: Write>(
    alloc: Global,
    all: &[&PaletteCommand],
    form: Form,
    out: &mut W,
) -> Result<(), Stop>
    ensures { OnOk result (WritesEach (SaysLent form) all.now (W.contents out.old) (W.contents out.new)) }
{
    let mut left = all;
    while let [first, rest @ ..] = left {
        say_one(alloc, *first, form, out)?;
        left = rest;
    }
    Ok(())
}

/// Writes a line for each command of the palette that no rule in force starts, in load order.
///
/// Errors: refused memory, or a write that failed.
pub fn say_unbound<W: Write>(
    alloc: Global,
    bindings: &Bindings,
    form: Form,
    out: &mut W,
) -> Result<(), Stop>
    ensures { OnOk result (WritesEach (SaysUnbound form) (without_keys bindings.now)
        (W.contents out.old) (W.contents out.new)) }
{
    let all = commands_without_keys(alloc, bindings)?;
    say_each(alloc, all.as_slice(), form, out)?;
    Ok(())
}
