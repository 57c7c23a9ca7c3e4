//! Rules that a removal took, said.
ghost use Rattle.std.specs.Prelude.{IfOk, OnOk, string_bytes};
ghost use Rattle.serde_json.specs.View.{view};
ghost use Rattle.kb_explain.specs.Removed.{removed_in};
ghost use Rattle.kb_explain_report.specs.RemovedSaid.{IsRemovedJson, IsRemovedText, SaysOne, SaysRemoved};
ghost use Rattle.kb_explain_report.specs.Said.{WritesEach};
ghost use Rattle.kb_report.specs.Output.{WritesLine};

use crate::rule_said::{Named, place_json, place_text, rule_json, rule_text};
use kb_base::NoMemory;
use kb_explain::{Removed, rules_removed};
use kb_keys::Keystroke;
use kb_report::{Form, Stop, say_object, say_text};
use serde_json::{Value, json};
use std::alloc::Global;
use std::io::Write;

/// That a removal took a rule, in words.
fn removed_text(alloc: Global, named: &Named<'_>, removed: &Removed<'_>) -> Result<String, NoMemory>
    ensures { IfOk result (λ made.
        IsRemovedText named.now removed.now.rule.now removed.now.by.now (string_bytes made)) }
{
    let rule = removed.rule;
    let by = removed.by;
    let place = place_text(alloc, named, rule.origin, rule.place)?;
    let source = named.bindings.source(rule.origin);
    let said = rule_text(alloc, rule)?;
    let taker = place_text(alloc, named, by.origin, by.place)?;
    let line = format!(in alloc; "{place}: {source}: {said}: is removed, by {taker}")?;
    Ok(line)
}

/// The same as JSON.
fn removed_json(alloc: Global, named: &Named<'_>, removed: &Removed<'_>) -> Result<Value, NoMemory>
    ensures { IfOk result (λ made.
        IsRemovedJson named.now removed.now.rule.now removed.now.by.now (view made)) }
{
    let by = removed.by;
    let said = rule_json(alloc, named, removed.rule)?;
    let taker = place_json(alloc, named, by.origin, by.place)?;
    json!(in alloc; {"rule": said, "verdict": "removed", "by": taker})
}

/// Writes that a removal took a rule.
fn say_one<W: Write>(
    alloc: Global,
    named: &Named<'_>,
    removed: &Removed<'_>,
    form: Form,
    out: &mut W,
) -> Result<(), Stop>
    ensures { OnOk result (WritesLine (SaysOne form named.now removed.now)
        (W.contents out.old) (W.contents out.new)) }
{
    match form {
        Form::Text => {
            say_text(removed_text(alloc, named, removed)?, out)?;
            Ok(())
        }
        Form::Json => {
            say_object(alloc, removed_json(alloc, named, removed)?, out)?;
            Ok(())
        }
    }
}

/// Writes these rules.
fn say_each<W: Write>(
    alloc: Global,
    named: &Named<'_>,
    all: &[Removed<'_>],
    form: Form,
    out: &mut W,
) -> Result<(), Stop>
    ensures { OnOk result (WritesEach (SaysOne form named.now) all.now
        (W.contents out.old) (W.contents out.new)) }
{
    let mut left = all;
    while let [first, rest @ ..] = left {
        say_one(alloc, named, first, form, out)?;
        left = rest;
    }
    Ok(())
}

/// Writes a line for each rule that a removal took and whose keystrokes begin with these.
pub(crate) fn say_removed<W: Write>(
    alloc: Global,
    named: &Named<'_>,
    strokes: &[Keystroke],
    form: Form,
    out: &mut W,
) -> Result<(), Stop>
    ensures { OnOk result (WritesEach (SaysRemoved form named.now)
        (removed_in named.now.bindings.now strokes.now) (W.contents out.old) (W.contents out.new)) }
{
    let all = rules_removed(alloc, named.bindings, strokes)?;
    say_each(alloc, named, all.as_slice(), form, out)?;
    Ok(())
}
