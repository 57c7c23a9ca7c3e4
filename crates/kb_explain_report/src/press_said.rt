//! Why a key press does what it does, said.
ghost use Rattle.std.specs.Prelude.{◌≡◌, ◌++◌, ◌∷◌, [], ◌&&◌, All, IfOk, List, OnOk, map, not, option_map};
ghost use Rattle.std.specs.Prelude.{string_bytes};
ghost use Rattle.serde_json.specs.View.{view};
ghost use Rattle.kb_bindings.specs.Sources.{enablement, rules_of};
ghost use Rattle.kb_context.specs.Scopes.{context};
ghost use Rattle.kb_explain.specs.Press.{passed_over, IsRightlyPassed};
ghost use Rattle.kb_explain_report.specs.PressSaid.{SaysPress, SaysReasons, SaysRest};
ghost use Rattle.kb_explain_report.specs.RulesSaid.{IsStepJson, IsStepText, SaysStep};
ghost use Rattle.kb_explain_report.specs.RulesSaid as said;
ghost use Rattle.kb_explain_report.specs.RulesSaid.{any_on, lack_words, start_words, step_command, step_word};
ghost use Rattle.kb_explain_report.specs.RulesSaid.{step_words, waits};
ghost use Rattle.kb_explain_report.specs.Said.{WritesMore};
ghost use Rattle.kb_report.specs.Output.{WritesLine};
ghost use Rattle.kb_keys.specs.Chord.{chord_spelling};
ghost use Rattle.kb_keys.specs.declared.keystroke.Keystroke.{Keystroke};
ghost use Rattle.kb_resolve.specs.ChordState.{step, step_by};
ghost use Rattle.kb_resolve.specs.Pressed.{step_of};
ghost use Rattle.kb_resolve.specs.Resolver.{resolution_by};

use crate::cause_said::{cause_json, cause_said};
use crate::disabled_said::say_disabled;
use crate::dropped_said::say_dropped;
use crate::removed_said::say_removed;
use crate::rule_said::{Named, place_text, rule_json, rule_text};
use kb_base::NoMemory;
use kb_context::Scopes;
use kb_explain::{Explained, Obstacle, Passed, explain};
use kb_keys::{Keystroke, write_strokes};
use kb_report::{Form, Stop, say_object, say_text};
use kb_resolve::Pressed;
use kb_rules::Rule;
use serde_json::{Value, json};
use std::alloc::Global;
use std::io::Write;
use std::rc::Rc;

/// The situation of a press: the keystrokes of the open chord with the key, what the focus sees, and the
/// files.
#[derive(Clone, Copy)]
pub struct Situation<'s> {
    /// The keystrokes so far, with the key that is pressed.
    pub strokes: &'s [Keystroke],
    /// The scopes, whose focus counts.
    pub scopes: &'s Scopes,
    /// What binds keys, with its files.
    pub named: Named<'s>,
}

/// A press, with its reasons.
#[derive(Drop)]
pub struct Press<'s> {
    /// What it does.
    pub does: Pressed<'s>,
    /// The rules that it passes over, and the one that it takes.
    pub explained: Explained<'s>,
}

/// What a press does that completes these keystrokes, by the rule that it takes.
#[tactic(auto, using(crate::proofs::PressLemmas::unmatched))]
fn pressed_by<'s>(strokes: &[Keystroke], taken: Option<&'s Rule>) -> Pressed<'s>
    ensures { (before : List Keystroke) → (stroke : Keystroke) → strokes.now ≡ before ++ stroke ∷ []
        → step_of result
        ≡ step_by before (resolution_by strokes.now (option_map (λ rule. rule.now) taken.entry)) }
{
    match taken {
        Some(rule) => {
            if rule.chord.len() > strokes.len() {
                Pressed::More
            } else {
                Pressed::Start(rule)
            }
        }
        None => {
            if strokes.len() > 1 {
                Pressed::Left
            } else {
                Pressed::Unbound
            }
        }
    }
}

/// What a press does and why. Error: `NoMemory`.
pub fn explained_press<'s>(alloc: Global, situation: &Situation<'s>) -> Result<Press<'s>, NoMemory>
    // The press does what the engine's step does.
    ensures does { IfOk result (λ press. (before : List Keystroke) → (stroke : Keystroke)
        → situation.now.strokes.now ≡ before ++ stroke ∷ []
        → step_of press.does ≡ step before stroke (context situation.now.scopes.now.seen)
        (enablement situation.now.named.bindings.now) (rules_of situation.now.named.bindings.now)) }
    ensures passed { IfOk result (λ press. map (λ one. one.rule.now) press.explained.passed.items
        ≡ passed_over situation.now.strokes.now (context situation.now.scopes.now.seen)
        (enablement situation.now.named.bindings.now) (rules_of situation.now.named.bindings.now)) }

    // What is said of each rule that is passed over is so.
    ensures right { IfOk result (λ press. All (IsRightlyPassed (context situation.now.scopes.now.seen)
        (enablement situation.now.named.bindings.now)) press.explained.passed.items) }
{
    let bindings = situation.named.bindings;
    let explained = explain(alloc, bindings, situation.strokes, situation.scopes)?;
    let does = pressed_by(situation.strokes, explained.taken);
    Ok(Press { does, explained })
}

/// What starting a command is in words.
fn start_text(alloc: Global, command: &str) -> Result<String, NoMemory>
    ensures { IfOk result (λ made. string_bytes made ≡ start_words command.now) }
{
    if command.is_empty() {
        return String::from_str(
            alloc,
            "starts nothing, since the rule that it takes has no command",
        );
    }
    format!(in alloc; "starts {command}")
}

/// Whether the keystrokes of a rule begin with these.
fn has_rule(rules: &[Rc<Rule>], strokes: &[Keystroke]) -> bool
    ensures { result ≡ any_on strokes.now (map (λ r. r.value) rules.now) }
{
    for rule in rules {
        if rule.chord.begins_with(strokes) {
            return true;
        }
    }
    false
}

/// Why a press starts nothing: no rule has the keystrokes, or none of them holds.
fn lack_text(has_rule: bool) -> &'static str
    ensures { result.now ≡ lack_words has_rule }
{
    if has_rule {
        "no rule holds"
    } else {
        "no rule in force has these keystrokes"
    }
}

/// What a press does, in words.
fn does_text(alloc: Global, does: Pressed<'_>, has_rule: bool) -> Result<String, NoMemory>
    ensures { IfOk result (λ made. string_bytes made ≡ step_words has_rule (step_of does.entry)) }
{
    let lack = lack_text(has_rule);
    match does {
        Pressed::Start(rule) => start_text(alloc, rule.command.as_str()),
        Pressed::More => String::from_str(alloc, "waits for more keystrokes"),
        Pressed::Left => format!(in alloc; "starts nothing and ends the chord, since {lack}"),
        Pressed::Unbound => format!(in alloc; "starts nothing, since {lack}"),
    }
}

/// What starting a command is in one word.
fn start_word(command: &str) -> &'static str
    ensures { result.now ≡ said.start_word command.now }
{
    if command.is_empty() {
        "nothing"
    } else {
        "starts"
    }
}

/// What a press does, in one word, and the command that it starts.
fn does_words<'s>(does: Pressed<'s>) -> (&'static str, &'s str)
    ensures word { result.0.now ≡ step_word (step_of does.entry) }
    ensures command { result.1.now ≡ step_command (step_of does.entry) }
{
    match does {
        Pressed::Start(rule) => {
            let command = rule.command.as_str();
            (start_word(command), command)
        }
        Pressed::More => ("chord", ""),
        Pressed::Left => ("left", ""),
        Pressed::Unbound => ("unbound", ""),
    }
}

/// Whether a press only opens or keeps a chord.
fn is_more(does: Pressed<'_>) -> bool
    ensures { result ≡ waits (step_of does.entry) }
{
    matches!(does, Pressed::More)
}

/// Keystrokes as a text.
fn keys_text(alloc: Global, strokes: &[Keystroke]) -> Result<String, NoMemory>
    ensures { IfOk result (λ made. string_bytes made ≡ chord_spelling strokes.now) }
{
    let mut keys = String::new(alloc);
    write_strokes(strokes, &mut keys)?;
    Ok(keys)
}

/// What a press of these keystrokes does, in words.
fn step_text(
    alloc: Global,
    strokes: &[Keystroke],
    does: Pressed<'_>,
    has_rule: bool,
) -> Result<String, NoMemory>
    ensures { IfOk result (λ made.
        IsStepText has_rule strokes.now (step_of does.entry) (string_bytes made)) }
{
    let keys = keys_text(alloc, strokes)?;
    let said = does_text(alloc, does, has_rule)?;
    let line = format!(in alloc; "{keys}: {said}")?;
    Ok(line)
}

/// The same as JSON.
fn step_json(alloc: Global, strokes: &[Keystroke], does: Pressed<'_>) -> Result<Value, NoMemory>
    ensures { IfOk result (λ made. IsStepJson strokes.now (step_of does.entry) (view made)) }
{
    let keys = keys_text(alloc, strokes)?;
    let keys = keys.as_str();
    let (word, command) = does_words(does);
    json!(in alloc; {"keys": keys, "does": word, "command": command})
}

/// Whether the keystrokes of a rule in force begin with these.
fn is_bound(named: &Named<'_>, strokes: &[Keystroke]) -> bool
    ensures { result ≡ any_on strokes.now (rules_of named.now.bindings.now) }
{
    has_rule(named.bindings.resolver().rules(), strokes)
}

/// What a press of these keystrokes does, and whether a rule in force has them, in words.
fn does_said(
    alloc: Global,
    named: &Named<'_>,
    strokes: &[Keystroke],
    does: Pressed<'_>,
) -> Result<String, NoMemory>
    ensures { IfOk result (λ made. IsStepText (any_on strokes.now (rules_of named.now.bindings.now))
        strokes.now (step_of does.entry) (string_bytes made)) }
{
    let is_bound = is_bound(named, strokes);
    step_text(alloc, strokes, does, is_bound)
}

/// Writes what the press does.
fn say_does<W: Write>(
    alloc: Global,
    named: &Named<'_>,
    strokes: &[Keystroke],
    does: Pressed<'_>,
    form: Form,
    out: &mut W,
) -> Result<(), Stop>
    ensures { OnOk result (WritesLine
        (SaysStep form (any_on strokes.now (rules_of named.now.bindings.now)) strokes.now
        (step_of does.entry))
        (W.contents out.old) (W.contents out.new)) }
{
    match form {
        Form::Text => {
            say_text(does_said(alloc, named, strokes, does)?, out)?;
            Ok(())
        }
        Form::Json => {
            say_object(alloc, step_json(alloc, strokes, does)?, out)?;
            Ok(())
        }
    }
}

/// Why a press passes over a rule, in words.
fn obstacle_text(
    alloc: Global,
    obstacle: &Obstacle<'_>,
    scopes: &Scopes,
) -> Result<String, NoMemory> {
    match obstacle {
        Obstacle::Clause(cause) => {
            let why = cause_said(alloc, cause, scopes)?;
            format!(in alloc; "its clause fails: {why}")
        }
        Obstacle::Enablement(cause) => {
            let why = cause_said(alloc, cause, scopes)?;
            format!(in alloc; "its command's enablement fails: {why}")
        }
    }
}

/// Why a press passes over a rule, as JSON.
fn obstacle_json(
    alloc: Global,
    rule: Value,
    obstacle: &Obstacle<'_>,
    scopes: &Scopes,
) -> Result<Value, NoMemory> {
    match obstacle {
        Obstacle::Clause(cause) => {
            let why = cause_json(alloc, cause, scopes)?;
            json!(in alloc; {"rule": rule, "verdict": "clause", "because": why})
        }
        Obstacle::Enablement(cause) => {
            let why = cause_json(alloc, cause, scopes)?;
            json!(in alloc; {"rule": rule, "verdict": "enablement", "because": why})
        }
    }
}

/// Writes a rule with what is said of it.
#[tactic(auto, using(crate::proofs::SaidLemmas::more))]
fn say_rule<W: Write>(
    alloc: Global,
    named: &Named<'_>,
    rule: &Rule,
    said: &str,
    out: &mut W,
) -> Result<(), Stop>
    ensures { OnOk result (WritesMore (W.contents out.old) (W.contents out.new)) }
{
    let place = place_text(alloc, named, rule.origin, rule.place)?;
    let source = named.bindings.source(rule.origin);
    let text = rule_text(alloc, rule)?;
    say_text(format!(in alloc; "{place}: {source}: {text}: {said}")?, out)?;
    Ok(())
}

/// Writes why a press passes over a rule.
#[tactic(auto, using(crate::proofs::SaidLemmas::more))]
fn say_passed<W: Write>(
    alloc: Global,
    situation: &Situation<'_>,
    passed: &Passed<'_>,
    form: Form,
    out: &mut W,
) -> Result<(), Stop>
    ensures { OnOk result (WritesMore (W.contents out.old) (W.contents out.new)) }
{
    match form {
        Form::Text => {
            let said = obstacle_text(alloc, &passed.obstacle, situation.scopes)?;
            say_rule(alloc, &situation.named, passed.rule, said.as_str(), out)?;
            Ok(())
        }
        Form::Json => {
            let rule = rule_json(alloc, &situation.named, passed.rule)?;
            let object = obstacle_json(alloc, rule, &passed.obstacle, situation.scopes)?;
            say_object(alloc, object, out)?;
            Ok(())
        }
    }
}

/// Writes that a press takes a rule.
#[tactic(auto, using(crate::proofs::SaidLemmas::more))]
fn say_taken<W: Write>(
    alloc: Global,
    situation: &Situation<'_>,
    rule: &Rule,
    form: Form,
    out: &mut W,
) -> Result<(), Stop>
    ensures { OnOk result (WritesMore (W.contents out.old) (W.contents out.new)) }
{
    match form {
        Form::Text => {
            let said = if rule.chord.len() > situation.strokes.len() {
                "is taken, and has more keystrokes"
            } else {
                "is taken"
            };
            say_rule(alloc, &situation.named, rule, said, out)?;
            Ok(())
        }
        Form::Json => {
            let rule = rule_json(alloc, &situation.named, rule)?;
            let object = json!(in alloc; {"rule": rule, "verdict": "taken"})?;
            say_object(alloc, object, out)?;
            Ok(())
        }
    }
}

/// Writes a line for each rule that a press passes over, and for the one that it takes.
#[tactic(auto, using(crate::proofs::SaidLemmas::more))]
fn say_explained<W: Write>(
    alloc: Global,
    situation: &Situation<'_>,
    explained: &Explained<'_>,
    form: Form,
    out: &mut W,
) -> Result<(), Stop>
    ensures { OnOk result (WritesMore (W.contents out.old) (W.contents out.new)) }
{
    for passed in &explained.passed {
        say_passed(alloc, situation, passed, form, out)?;
    }
    if let Some(rule) = explained.taken {
        say_taken(alloc, situation, rule, form, out)?;
    }
    Ok(())
}

/// Writes why a press does what it does: a line for each rule whose keystrokes begin with those that are
/// pressed, from the bottom up to the one that is taken; then those that a removal took; those whose
/// extension isn't enabled; and last those that were dropped.
fn say_reasons<W: Write>(
    alloc: Global,
    situation: &Situation<'_>,
    explained: &Explained<'_>,
    form: Form,
    out: &mut W,
) -> Result<(), Stop>
    ensures { OnOk result (SaysReasons form situation.now.named situation.now.strokes.now
        (W.contents out.old) (W.contents out.new)) }
{
    say_explained(alloc, situation, explained, form, out)?;
    say_removed(alloc, &situation.named, situation.strokes, form, out)?;
    say_disabled(alloc, &situation.named, situation.strokes, form, out)?;
    say_dropped(alloc, &situation.named, situation.strokes, form, out)?;
    Ok(())
}

/// Writes why a press does what it does, unless it only opens or keeps a chord and that is left out.
fn say_rest<W: Write>(
    alloc: Global,
    situation: &Situation<'_>,
    press: &Press<'_>,
    why_it_waits: bool,
    form: Form,
    out: &mut W,
) -> Result<(), Stop>
    ensures { OnOk result (SaysRest (not why_it_waits && waits (step_of press.now.does))
        form situation.now.named situation.now.strokes.now (W.contents out.old) (W.contents out.new)) }
{
    if !why_it_waits && is_more(press.does) {
        return Ok(());
    }
    say_reasons(alloc, situation, &press.explained, form, out)
}

/// Writes what a press does and why: a line for what it does; then a line for each rule whose keystrokes
/// begin with those that are pressed, from the bottom up to the one that is taken; then those that a removal
/// took; those whose extension isn't enabled; and last those that were dropped. Of a press that only opens or
/// keeps a chord it can be left out why. [`explained_press`] has what is more than printed text.
///
/// Errors: refused memory, or a write that failed.
pub fn say_press<W: Write>(
    alloc: Global,
    situation: &Situation<'_>,
    why_it_waits: bool,
    form: Form,
    out: &mut W,
) -> Result<(), Stop>
    // The first line says what the engine's step does, and of each rule that a removal took a line says where
    // both stand.
    ensures { OnOk result ((before : List Keystroke) → (stroke : Keystroke)
        → situation.now.strokes.now ≡ before ++ stroke ∷ []
        → SaysPress form situation.now.named situation.now.strokes.now why_it_waits
        (step before stroke (context situation.now.scopes.now.seen)
        (enablement situation.now.named.bindings.now) (rules_of situation.now.named.bindings.now))
        (W.contents out.old) (W.contents out.new)) }
{
    let press = explained_press(alloc, situation)?;
    say_does(
        alloc,
        &situation.named,
        situation.strokes,
        press.does,
        form,
        out,
    )?;
    say_rest(alloc, situation, &press, why_it_waits, form, out)?;
    Ok(())
}
