//! The keystrokes that start a command.
ghost use Rattle.std.specs.Prelude.{◌≡◌, IfOk, OnOk, map};
ghost use Rattle.kb_bindings.specs.Sources.{enablement, rules_of};
ghost use Rattle.kb_context.specs.Scopes.{context};
ghost use Rattle.kb_lookup.specs.Starting.{AreKeysOf, has_chord, is_start, keys_of, with_new};

use kb_base::NoMemory;
use kb_bindings::Bindings;
use kb_context::Scopes;
use kb_keys::Chord;
use kb_resolve::Resolved;
use kb_rules::Rule;
use kb_when::Clause;
use std::alloc::Global;

/// The rules that start a command in the present context, the lowest first: a press of the keystrokes of
/// each, without an open chord, starts the command. No two of them have the same keystrokes. The first one is
/// what a menu shows, as VS Code's `lookupKeybinding` does. A rule whose keystrokes are taken by a lower one,
/// or are the beginning of a lower one's, isn't among them. A rule of `runCommands` starts `runCommands`
/// alone.
///
/// It takes a comparison of names for each rule in force, and a search for each rule of the command. Error:
/// `NoMemory`.
#[tactic(auto, using(crate::proofs::StartingLemmas::keys_are))]
pub fn keys_of<'b>(
    alloc: Global,
    bindings: &'b Bindings,
    scopes: &Scopes,
    command: &str,
) -> Result<Vec<&'b Rule>, NoMemory>
    ensures value { IfOk result (λ made. map (λ r. r.now) made.items ≡ keys_of
        (context scopes.now.seen) (enablement bindings.entry.now) (rules_of bindings.entry.now) command.now) }

    // The same in terms of searches: their keystrokes are those whose search finds a rule of the command.
    ensures exactly { AreKeysOf
        (context scopes.now.seen) (enablement bindings.entry.now) (rules_of bindings.entry.now) command.now }
{
    let mut made = Vec::new(alloc);
    let resolver = bindings.resolver();
    for position in (0..resolver.rules().len()).rev() {
        if let Some(rule) = resolver.at(position) {
            if is_start(bindings, scopes, command, rule)? {
                add_new(&mut made, rule)?;
            }
        }
    }
    Ok(made)
}

/// Whether a rule has the command, its clause holds, and a search for its keystrokes finds a rule of the
/// command. Error: `NoMemory`.
fn is_start(
    bindings: &Bindings,
    scopes: &Scopes,
    command: &str,
    rule: &Rule,
) -> Result<bool, NoMemory>
    ensures { IfOk result (λ answer. answer ≡ is_start
        (context scopes.now.seen) (enablement bindings.now) (rules_of bindings.now) command.now rule.now) }
{
    if rule.command.as_str() != command {
        return Ok(false);
    }
    if !Clause::optional_holds(rule.when.as_ref(), scopes)? {
        return Ok(false);
    }
    match bindings.look_up(rule.chord.as_slice(), scopes)? {
        Resolved::Found(placed) => Ok(placed.rule.command.as_str() == command),
        _ => Ok(false),
    }
}

/// Adds a rule to these, unless one of them has its keystrokes. Error: `NoMemory`; nothing is added then.
fn add_new<'b>(made: &mut Vec<&'b Rule>, rule: &'b Rule) -> Result<(), NoMemory>
    ensures { OnOk result (map (λ r. r.now) made.new.items
        ≡ with_new rule.entry.now (map (λ r. r.now) made.old.items)) }
{
    if !has_chord(made.as_slice(), &rule.chord) {
        made.push(rule)?;
    }
    Ok(())
}

/// Whether one of these rules has the same keystrokes.
fn has_chord(made: &[&Rule], chord: &Chord) -> bool
    ensures { result ≡ has_chord (map (λ r. r.now) made.now) chord.now }
{
    for rule in made {
        if rule.chord.same_keys(chord) {
            return true;
        }
    }
    false
}
