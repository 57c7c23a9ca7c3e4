//! Key presses: the search for a rule, the start of its command, and the trace lines.
ghost use Rattle.std.specs.Prelude.{◌≡◌, [], ◌∷◌, ◌++◌, IfOk, OnOk, OnErr, option_map, string_bytes};
ghost use Rattle.serde_json.specs.View.{view};
ghost use Rattle.kb_stream.specs.Lines.{Begins};
ghost use Rattle.kb_bindings.specs.Sources.{IsPlaceOf, found_behind, pressed, still_pressed};
ghost use Rattle.kb_execute.specs.declared.start.Finish.TheVariants.{Done};
ghost use Rattle.kb_resolve.specs.Pressed.{step_of};
ghost use Rattle.kb_session.specs.Press.{press_started, rule_started};
ghost use Rattle.kb_trace.specs.Lines as line;

use crate::handled::EventEnd;
use kb_base::NoMemory;
use kb_bindings::Bindings;
use kb_execute::{Finish, HeldCore, start_command};
use kb_keys::Keystroke;
use kb_registry::{HostCommand, Registry};
use kb_resolve::{ChordState, Pressed};
use kb_rules::{Json, Rule};
use kb_stream::Lines;
use kb_trace::lines;
use serde_json::Value;
use std::alloc::Global;

/// Presses a key, which may start the command of a rule, and adds the trace lines. On `NoMemory` the
/// old lines are still there, before any new ones.
#[tactic(auto, using(kb_stream::proofs::Undoing::undoing))]
pub(crate) fn press_key<C: HostCommand>(
    alloc: Global,
    key: Keystroke,
    registry: &Registry<C>,
    core: &mut HeldCore,
    chord: &mut ChordState,
    bindings: &Bindings,
    trace: &mut Lines,
) -> Result<EventEnd, NoMemory>
    ensures core { let does = pressed chord.old key core.old.scopes bindings.now in
        let p = press_started (line.key_text chord.old key) does registry.now core.old in
        OnOk result (core.new ≡ p.core) }
    ensures trace { let does = pressed chord.old key core.old.scopes bindings.now in
        let p = press_started (line.key_text chord.old key) does registry.now core.old in
        OnOk result (trace.new ≡ trace.old ++ p.lines) }
    ensures finish { let does = pressed chord.old key core.old.scopes bindings.now in
        let p = press_started (line.key_text chord.old key) does registry.now core.old in
        IfOk result (λ ended. ended.finish ≡ p.finish) }
    ensures found { IfOk result (λ ended.
        IsPlaceOf bindings.now ended.found (found_behind chord.old key core.old.scopes bindings.now)) }
    ensures pressed { OnOk result (chord.new ≡ still_pressed chord.old key core.old.scopes bindings.now) }
    ensures err { OnErr result (Begins trace.old trace.new) }
{
    core.refresh()?;
    let key = &key;
    let text = lines::key_text(trace, chord.pressed(), *key)?;
    let press = bindings.press(chord, *key, core.core().scopes())?;
    let finish = carry_out(alloc, text, press.does, registry, core, trace)?;
    Ok(EventEnd {
        finish,
        found: press.found,
    })
}

/// Does what a press does, and adds its trace lines. The first line begins with `text`.
#[tactic(auto, using(kb_stream::proofs::Undoing::undoing))]
fn carry_out<C: HostCommand>(
    alloc: Global,
    text: String,
    does: Pressed<'_>,
    registry: &Registry<C>,
    core: &mut HeldCore,
    trace: &mut Lines,
) -> Result<Finish, NoMemory>
    ensures core { let p = press_started (string_bytes text) (step_of does.entry) registry.now core.old in
        OnOk result (core.new ≡ p.core) }
    ensures trace { let p = press_started (string_bytes text) (step_of does.entry) registry.now core.old in
        OnOk result (trace.new ≡ trace.old ++ p.lines) }
    ensures finish { let p = press_started (string_bytes text) (step_of does.entry) registry.now core.old in
        IfOk result (λ finish. finish ≡ p.finish) }
    ensures err { OnErr result (Begins trace.old trace.new) }
{
    match does {
        Pressed::Start(rule) => start_rule(alloc, text, rule, registry, core, trace),
        Pressed::More => done_with(trace, text, ": chord"),
        Pressed::Left => done_with(trace, text, ": left"),
        Pressed::Unbound => done_with(trace, text, ": unbound"),
    }
}

/// Adds a line that consists of the two texts. No command starts.
fn done_with(trace: &mut Lines, text: String, end: &str) -> Result<Finish, NoMemory>
    ensures ok { OnOk result (trace.new ≡ trace.old ++ (string_bytes text ++ end.now) ∷ []) }
    ensures finish { IfOk result (λ finish. finish ≡ Done) }
    ensures err { OnErr result (trace.new ≡ trace.old) }
{
    lines::ended(trace, text, end)?;
    Ok(Finish::Done)
}

/// Starts the command of a rule, and adds its trace lines. The first line begins with `text`.
#[tactic(auto, using(kb_stream::proofs::Undoing::undoing_behind))]
fn start_rule<C: HostCommand>(
    alloc: Global,
    text: String,
    rule: &Rule,
    registry: &Registry<C>,
    core: &mut HeldCore,
    trace: &mut Lines,
) -> Result<Finish, NoMemory>
    ensures core { let text = string_bytes text in
        let p = rule_started text rule.now.command rule.now.args registry.now core.old in
        OnOk result (core.new ≡ p.core) }
    ensures trace { let text = string_bytes text in
        let p = rule_started text rule.now.command rule.now.args registry.now core.old in
        OnOk result (trace.new ≡ trace.old ++ p.lines) }
    ensures finish { let text = string_bytes text in
        let p = rule_started text rule.now.command rule.now.args registry.now core.old in
        IfOk result (λ finish. finish ≡ p.finish) }
    ensures err { OnErr result (Begins trace.old trace.new) }
{
    let command = rule.command.as_str();
    if command.is_empty() {
        return done_with(trace, text, ": no action");
    }
    lines::start_line(trace, text, command)?;
    let given = value_of(rule.args.as_ref());
    start_command(alloc, command, given, registry, core, trace)
}

/// The JSON value of a rule's arguments, or `None` if it has none.
fn value_of(given: Option<&Json>) -> Option<&Value>
    ensures { option_map (λ v. view v.now) result ≡ option_map (λ json. json.now) given.entry }
{
    match given {
        Some(json) => Some(json.as_value()),
        None => None,
    }
}
