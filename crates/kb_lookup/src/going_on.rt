//! The keystrokes that go on from others.
ghost use Rattle.std.specs.Prelude.{◌≡◌, IfOk, OnOk, Some};
ghost use Rattle.kb_bindings.specs.Sources.{enablement, rules_of};
ghost use Rattle.kb_context.specs.Scopes.{context};
ghost use Rattle.kb_lookup.specs.GoingOn.{AllGoOn, continuations, goes_on, has_key};
ghost use Rattle.kb_lookup.specs.GoingOn.{next_key, next_keys, with_key};

use kb_base::NoMemory;
use kb_bindings::Bindings;
use kb_context::Scopes;
use kb_keys::{Chord, Keystroke};
use kb_resolve::{Resolved, Resolver};
use std::alloc::Global;

/// The keystrokes that go on behind those that are pressed, in the present context, those of the lowest rule
/// first, each once: a press of any other one leaves the chord. Without pressed keystrokes these are the
/// first keystrokes of rules. An editor shows them while a chord is open; a look-up says what each finds.
/// (Our decision; VS Code shows none.)
///
/// It takes a comparison of keystrokes for each rule in force, and a search for each keystroke that is next.
/// Error: `NoMemory`.
#[tactic(auto, using(crate::proofs::GoingOnLemmas::all_go_on))]
pub fn continuations(
    alloc: Global,
    bindings: &Bindings,
    scopes: &Scopes,
    pressed: &[Keystroke],
) -> Result<Vec<Keystroke>, NoMemory>
    ensures value { IfOk result (λ made. made.items ≡ continuations
        (context scopes.now.seen) (enablement bindings.now) (rules_of bindings.now) pressed.now) }

    // Any keystroke behind which a search finds something is among them.
    ensures all { AllGoOn
        (context scopes.now.seen) (enablement bindings.now) (rules_of bindings.now) pressed.now }
{
    let keys = next_keys(alloc, bindings.resolver(), pressed)?;
    let mut made = Vec::new(alloc);
    for key in &keys {
        if goes_on(alloc, bindings, scopes, pressed, key)? {
            made.push(*key)?;
        }
    }
    Ok(made)
}

/// Whether a search for the pressed keystrokes with one more behind them finds something. Error: `NoMemory`.
fn goes_on(
    alloc: Global,
    bindings: &Bindings,
    scopes: &Scopes,
    pressed: &[Keystroke],
    key: &Keystroke,
) -> Result<bool, NoMemory>
    ensures { IfOk result (λ answer. answer ≡ goes_on
        (context scopes.now.seen) (enablement bindings.now) (rules_of bindings.now) pressed.now key.now) }
{
    let mut strokes = Vec::with_capacity(alloc, pressed.len() + 1)?;
    strokes.extend_from_slice(pressed)?;
    strokes.push(*key)?;
    match bindings.look_up(strokes.as_slice(), scopes)? {
        Resolved::Found(_) | Resolved::More => Ok(true),
        Resolved::Nothing => Ok(false),
    }
}

/// The keystrokes that rules have behind the pressed ones, those of the lowest rule first, each once. Error:
/// `NoMemory`.
fn next_keys(
    alloc: Global,
    resolver: &Resolver,
    pressed: &[Keystroke],
) -> Result<Vec<Keystroke>, NoMemory>
    ensures { IfOk result (λ made. made.items ≡ next_keys pressed.now resolver.now) }
{
    let mut made = Vec::new(alloc);
    for position in (0..resolver.rules().len()).rev() {
        if let Some(rule) = resolver.at(position) {
            if let Some(key) = next_key(&rule.chord, pressed) {
                add_key(&mut made, key)?;
            }
        }
    }
    Ok(made)
}

/// The keystroke that a chord has behind the pressed ones, if it begins with them and has more.
fn next_key(chord: &Chord, pressed: &[Keystroke]) -> Option<Keystroke>
    ensures { result ≡ next_key pressed.now chord.now }
{
    if !chord.begins_with(pressed) {
        return None;
    }
    chord.as_slice().get(pressed.len()).copied()
}

/// Adds a keystroke to these, unless it is one of them. Error: `NoMemory`; nothing is added then.
fn add_key(made: &mut Vec<Keystroke>, key: Keystroke) -> Result<(), NoMemory>
    ensures { OnOk result (made.new.items ≡ with_key (Some key) made.old.items) }
{
    if !has_key(made.as_slice(), &key) {
        made.push(key)?;
    }
    Ok(())
}

/// Whether a keystroke is one of these.
fn has_key(made: &[Keystroke], key: &Keystroke) -> bool
    ensures { result ≡ has_key made.now key.now }
{
    for other in made {
        if other == key {
            return true;
        }
    }
    false
}
