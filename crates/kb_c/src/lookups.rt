//! What C looks up before a key is pressed. No look-up changes the session. Each call answers the number of
//! one of these outcomes: 0 if it noted what it found, 1 before the load, 2 without an engine, 5 for refused
//! memory, and 97 if the session is stopped. Only behind 0 is anything noted.
ghost use Rattle.std.specs.Prelude.{◌≡◌};
ghost use Rattle.kb_c.specs.Held.{Answers, OnEngine};
ghost use Rattle.kb_engine.specs.Lookups.{Lists, ListsKeys, LooksUp};
ghost use Rattle.kb_engine.specs.Lookups.{continuations_text, stroke_told, text_told};
ghost use Rattle.kb_engine.specs.Outcome.{outcome_numbered};

use crate::handle::Handle;
use kb_engine::Outcome;
use std::alloc::Global;

/// Looks up what a press of a key would take now, by its text as in a line `key ctrl+s`, and notes it as the
/// press does. 10 if the text is no key.
#[unsafe(no_mangle)]
#[tactic(auto, using(crate::proofs::AnswerLemmas::answering))]
pub extern "C" fn pafjirn_look_up(alloc: Global, h: &mut Handle, key: &[u8]) -> u32
    ensures { Answers (OnEngine (LooksUp (stroke_told key.now)))
        h.old.value (outcome_numbered result) h.new.value }
{
    let Some(mut hosted) = h.take(alloc) else {
        return Outcome::Unknown.number();
    };
    let outcome = hosted.engine.look_up(key);
    h.put(alloc, hosted);
    outcome.number()
}

/// Looks up the keystrokes that start a command now, without an open chord, those of the lowest rule first.
/// Text 9 is then a line for each. 6 if bytes aren't UTF-8.
#[unsafe(no_mangle)]
#[tactic(auto, using(crate::proofs::AnswerLemmas::answering))]
pub extern "C" fn pafjirn_keys_of(alloc: Global, h: &mut Handle, command: &[u8]) -> u32
    ensures { Answers (OnEngine (ListsKeys (text_told command.now)))
        h.old.value (outcome_numbered result) h.new.value }
{
    let Some(mut hosted) = h.take(alloc) else {
        return Outcome::Unknown.number();
    };
    let outcome = hosted.engine.keys_of(command);
    h.put(alloc, hosted);
    outcome.number()
}

/// Looks up the keystrokes that go on from those of the open chord, or the first ones of rules if no chord is
/// open, those of the lowest rule first. Text 9 is then a line for each.
#[unsafe(no_mangle)]
#[tactic(auto, using(crate::proofs::AnswerLemmas::answering))]
pub extern "C" fn pafjirn_continuations(alloc: Global, h: &mut Handle) -> u32
    ensures { Answers (OnEngine (Lists continuations_text))
        h.old.value (outcome_numbered result) h.new.value }
{
    let Some(mut hosted) = h.take(alloc) else {
        return Outcome::Unknown.number();
    };
    let outcome = hosted.engine.continuations();
    h.put(alloc, hosted);
    outcome.number()
}
