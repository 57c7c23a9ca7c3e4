//! Events for the session of an engine. Each call answers the number of its outcome: 0 if the event was
//! handled, 1 before the load, 2 without an engine, 5 for refused memory, which stops the session and empties
//! its trace, and 97 if the session was stopped before. Its comment names the other answers that it has. A
//! refused event (3) has its line in the trace, and changes nothing else.
ghost use Rattle.std.specs.Prelude.{◌≡◌, Some};
ghost use Rattle.kb_c.specs.Held.{Answers, OnEngine};
ghost use Rattle.kb_context.specs.declared.value.ContextValue.TheVariants as value;
ghost use Rattle.kb_engine.specs.Engine.{Tells, TellsIf, TellsLine, key_told, when_text};
ghost use Rattle.kb_engine.specs.Outcome.{outcome_numbered};
ghost use Rattle.kb_engine.specs.declared.outcome.Outcome.TheVariants as outcome;
ghost use Rattle.kb_trace.specs.declared.event.Event.TheVariants as event;

use crate::handle::Handle;
use kb_engine::Outcome;
use std::alloc::Global;

/// Has the session do what a line of a script says. A line has no line feed at its end. 0 also for a refused
/// event and for a line that is no event; 7 if the command isn't found, 8 if its arguments don't fit, and 103
/// for a trap, which no verified handler causes. After 5 the shelf has all its commands.
#[unsafe(no_mangle)]
#[tactic(auto, using(crate::proofs::AnswerLemmas::answering))]
pub extern "C" fn pafjirn_line(alloc: Global, h: &mut Handle, line: &[u8]) -> u32
    ensures { Answers (OnEngine (TellsLine line.now)) h.old.value (outcome_numbered result) h.new.value }
{
    let Some(mut hosted) = h.take(alloc) else {
        return Outcome::Unknown.number();
    };
    let outcome = hosted.engine.tell_line(line);
    h.put(alloc, hosted);
    outcome.number()
}

/// Presses a key, by its text as in a line `key ctrl+s`. 10 if the text is no key; nothing changes then. 7 if
/// the command isn't found, 8 if its arguments don't fit, and 103 for a trap, which no verified handler
/// causes. 0 also if no rule matches.
#[unsafe(no_mangle)]
#[tactic(auto, using(crate::proofs::AnswerLemmas::answering))]
pub extern "C" fn pafjirn_key(alloc: Global, h: &mut Handle, key: &[u8]) -> u32
    ensures { Answers (OnEngine (TellsIf outcome.NoKey (key_told key.now)))
        h.old.value (outcome_numbered result) h.new.value }
{
    let Some(mut hosted) = h.take(alloc) else {
        return Outcome::Unknown.number();
    };
    let outcome = hosted.engine.press(key);
    h.put(alloc, hosted);
    outcome.number()
}

/// Gives the focus to a scope. 3 for an unknown scope. 6 if bytes aren't UTF-8; nothing changes then.
#[unsafe(no_mangle)]
#[tactic(auto, using(crate::proofs::AnswerLemmas::answering))]
pub extern "C" fn pafjirn_focus(alloc: Global, h: &mut Handle, scope: &[u8]) -> u32
    ensures { Answers (OnEngine (TellsIf outcome.NoText (when_text scope.now (Some (event.Focus scope.now)))))
        h.old.value (outcome_numbered result) h.new.value }
{
    let Some(mut hosted) = h.take(alloc) else {
        return Outcome::Unknown.number();
    };
    let outcome = hosted.engine.focus(scope);
    h.put(alloc, hosted);
    outcome.number()
}

/// Sets a context key of a scope to a truth value. 3 for an unknown scope, and for a new key where there are
/// 10,000. 6 if bytes aren't UTF-8; nothing changes then.
#[unsafe(no_mangle)]
#[tactic(auto, using(crate::proofs::AnswerLemmas::answering))]
pub extern "C" fn pafjirn_set_truth(
    alloc: Global,
    h: &mut Handle,
    scope: &[u8],
    key: &[u8],
    truth: bool,
) -> u32
    ensures { Answers (OnEngine (TellsIf outcome.NoText (when_text scope.now (when_text key.now
        (Some (event.SetKey scope.now key.now (value.Truth truth)))))))
        h.old.value (outcome_numbered result) h.new.value }
{
    let Some(mut hosted) = h.take(alloc) else {
        return Outcome::Unknown.number();
    };
    let outcome = hosted.engine.set_truth(scope, key, truth);
    h.put(alloc, hosted);
    outcome.number()
}

/// Sets a context key of a scope to a number. 3 for an unknown scope, and for a new key where there are
/// 10,000. 6 if bytes aren't UTF-8; nothing changes then.
#[unsafe(no_mangle)]
#[tactic(auto, using(crate::proofs::AnswerLemmas::answering))]
pub extern "C" fn pafjirn_set_number(
    alloc: Global,
    h: &mut Handle,
    scope: &[u8],
    key: &[u8],
    number: i64,
) -> u32
    ensures { Answers (OnEngine (TellsIf outcome.NoText (when_text scope.now (when_text key.now
        (Some (event.SetKey scope.now key.now (value.Number number)))))))
        h.old.value (outcome_numbered result) h.new.value }
{
    let Some(mut hosted) = h.take(alloc) else {
        return Outcome::Unknown.number();
    };
    let outcome = hosted.engine.set_number(scope, key, number);
    h.put(alloc, hosted);
    outcome.number()
}

/// Sets a context key of a scope to a text. 3 for an unknown scope, and for a new key where there are 10,000.
/// 6 if bytes aren't UTF-8; nothing changes then.
#[unsafe(no_mangle)]
#[tactic(auto, using(crate::proofs::AnswerLemmas::answering))]
pub extern "C" fn pafjirn_set_text(
    alloc: Global,
    h: &mut Handle,
    scope: &[u8],
    key: &[u8],
    text: &[u8],
) -> u32
    ensures { Answers (OnEngine (TellsIf outcome.NoText (when_text scope.now (when_text key.now
        (when_text text.now (Some (event.SetKey scope.now key.now (value.Text text.now))))))))
        h.old.value (outcome_numbered result) h.new.value }
{
    let Some(mut hosted) = h.take(alloc) else {
        return Outcome::Unknown.number();
    };
    let outcome = hosted.engine.set_text(scope, key, text);
    h.put(alloc, hosted);
    outcome.number()
}

/// Removes a context key from a scope. 3 for an unknown scope. 6 if bytes aren't UTF-8; nothing changes then.
#[unsafe(no_mangle)]
#[tactic(auto, using(crate::proofs::AnswerLemmas::answering))]
pub extern "C" fn pafjirn_unset(alloc: Global, h: &mut Handle, scope: &[u8], key: &[u8]) -> u32
    ensures { Answers (OnEngine (TellsIf outcome.NoText (when_text scope.now (when_text key.now
        (Some (event.UnsetKey scope.now key.now))))))
        h.old.value (outcome_numbered result) h.new.value }
{
    let Some(mut hosted) = h.take(alloc) else {
        return Outcome::Unknown.number();
    };
    let outcome = hosted.engine.unset(scope, key);
    h.put(alloc, hosted);
    outcome.number()
}

/// Lists the commands of the palette that a query finds. 6 if bytes aren't UTF-8; nothing changes then.
#[unsafe(no_mangle)]
#[tactic(auto, using(crate::proofs::AnswerLemmas::answering))]
pub extern "C" fn pafjirn_palette(alloc: Global, h: &mut Handle, query: &[u8]) -> u32
    ensures { Answers (OnEngine (TellsIf outcome.NoText
        (when_text query.now (Some (event.Palette query.now)))))
        h.old.value (outcome_numbered result) h.new.value }
{
    let Some(mut hosted) = h.take(alloc) else {
        return Outcome::Unknown.number();
    };
    let outcome = hosted.engine.palette(query);
    h.put(alloc, hosted);
    outcome.number()
}

/// Chooses the entry with this number, counted from 1, of the last palette. 3 if there is no such entry. 7 if
/// the command isn't found, 8 if its arguments don't fit, and 103 for a trap, which no verified handler
/// causes.
#[unsafe(no_mangle)]
#[tactic(auto, using(crate::proofs::AnswerLemmas::answering))]
pub extern "C" fn pafjirn_choose(alloc: Global, h: &mut Handle, number: u32) -> u32
    ensures { Answers (OnEngine (Tells (event.Choose number)))
        h.old.value (outcome_numbered result) h.new.value }
{
    let Some(mut hosted) = h.take(alloc) else {
        return Outcome::Unknown.number();
    };
    let outcome = hosted.engine.choose(number);
    h.put(alloc, hosted);
    outcome.number()
}
