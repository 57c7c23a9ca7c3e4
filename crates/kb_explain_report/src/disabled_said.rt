//! Rules of extensions that aren't enabled, said.
ghost use Rattle.std.specs.Prelude.{IfOk, OnOk, string_bytes};
ghost use Rattle.serde_json.specs.View.{view};
ghost use Rattle.kb_explain.specs.Disabled.{disabled_in};
ghost use Rattle.kb_explain_report.specs.DisabledSaid.{IsDisabledJson, IsDisabledText, SaysDisabled};
ghost use Rattle.kb_explain_report.specs.DisabledSaid.{SaysIdle};
ghost use Rattle.kb_explain_report.specs.Said.{WritesEach};
ghost use Rattle.kb_report.specs.Output.{WritesLine};

use crate::rule_said::{Named, place_text, rule_json, rule_text};
use kb_base::NoMemory;
use kb_explain::rules_disabled;
use kb_keys::Keystroke;
use kb_report::{Form, Stop, say_object, say_text};
use kb_rules::Rule;
use serde_json::{Value, json};
use std::alloc::Global;
use std::io::Write;

/// That the extension of a rule isn't enabled, in words.
fn disabled_text(alloc: Global, named: &Named<'_>, rule: &Rule) -> Result<String, NoMemory>
    ensures { IfOk result (λ made. IsDisabledText named.now rule.now (string_bytes made)) }
{
    let place = place_text(alloc, named, rule.origin, rule.place)?;
    let source = named.bindings.source(rule.origin);
    let said = rule_text(alloc, rule)?;
    let line = format!(in alloc; "{place}: {source}: {said}: its extension isn't enabled")?;
    Ok(line)
}

/// The same as JSON.
fn disabled_json(alloc: Global, named: &Named<'_>, rule: &Rule) -> Result<Value, NoMemory>
    ensures { IfOk result (λ made. IsDisabledJson rule.now (view made)) }
{
    let said = rule_json(alloc, named, rule)?;
    json!(in alloc; {"rule": said, "verdict": "disabled"})
}

/// Writes that the extension of a rule isn't enabled.
fn say_one<W: Write>(
    alloc: Global,
    named: &Named<'_>,
    rule: &Rule,
    form: Form,
    out: &mut W,
) -> Result<(), Stop>
    ensures { OnOk result (WritesLine (SaysDisabled form named.now rule.now)
        (W.contents out.old) (W.contents out.new)) }
{
    match form {
        Form::Text => {
            say_text(disabled_text(alloc, named, rule)?, out)?;
            Ok(())
        }
        Form::Json => {
            say_object(alloc, disabled_json(alloc, named, rule)?, out)?;
            Ok(())
        }
    }
}

/// Writes these rules.
fn say_each<W: Write>(
    alloc: Global,
    named: &Named<'_>,
    all: &[&Rule],
    form: Form,
    out: &mut W,
) -> Result<(), Stop>
    ensures { OnOk result (WritesEach (SaysIdle form named.now) all.now
        (W.contents out.old) (W.contents out.new)) }
{
    let mut left = all;
    while let [first, rest @ ..] = left {
        say_one(alloc, named, *first, form, out)?;
        left = rest;
    }
    Ok(())
}

/// Writes a line for each rule whose keystrokes begin with these and whose extension isn't enabled.
pub(crate) fn say_disabled<W: Write>(
    alloc: Global,
    named: &Named<'_>,
    strokes: &[Keystroke],
    form: Form,
    out: &mut W,
) -> Result<(), Stop>
    ensures { OnOk result (WritesEach (SaysDisabled form named.now)
        (disabled_in named.now.bindings.now strokes.now) (W.contents out.old) (W.contents out.new)) }
{
    let all = rules_disabled(alloc, named.bindings, strokes)?;
    say_each(alloc, named, all.as_slice(), form, out)?;
    Ok(())
}
