//! Rules that can never start, since the first of their keystrokes never open a chord.
ghost use Rattle.std.specs.Prelude.{◌≡◌, ◌↔◌, ℕ, All, IfOk, IfSome, IsTrue, OnOk, Some};
ghost use Rattle.std.specs.Prelude.{map, option_map, slice_get};
ghost use Rattle.kb_resolve.specs.Enablements.{enablement_in};
ghost use Rattle.kb_lints.specs.CutOff.{IsCutOff, IsLonger, IsTakenAt, IsTaking, TakesAll};

use crate::condition::covers;
use crate::hidden::Hidden;
use kb_base::NoMemory;
use kb_keys::{Keystroke, write_strokes};
use kb_resolve::Enablements;
use kb_rules::Rule;
use std::alloc::Global;
use std::collections::HashMap;
use std::rc::Rc;

/// The most keystrokes that are found to be taken (each is asked of all rules).
const LIMIT: usize = 200;

/// The lowest rule of each beginning of longer keystrokes.
type Longer = HashMap<String, usize>;

/// The positions of the rules that take the beginnings of longer keystrokes, and where they are found by
/// these.
#[derive(Drop)]
struct Taking {
    positions: Vec<usize>,
    by_keys: HashMap<String, usize>,
}

/// The rules that can never start, from the top down, since a lower rule has the first of their keystrokes
/// alone, and may start whenever any rule may that these keystrokes begin, all of which are above it.
pub(crate) fn cut_off(
    alloc: Global,
    rules: &[Rc<Rule>],
    enablements: &Enablements,
) -> Result<Vec<Hidden>, NoMemory>
    ensures { IfOk result (λ found. All (λ c. IsCutOff (enablement_in enablements.now)
        (map (λ r. r.value) rules.now) c.position c.by) found.items) }
{
    let longer = longer_rules(alloc, rules)?;
    let taking = taking_rules(alloc, rules, enablements, &longer)?;
    let mut found = Vec::new(alloc);
    if taking.positions.is_empty() {
        return Ok(found);
    }
    for position in 0..rules.len() {
        if let Some(by) = taken_by(alloc, rules, position, enablements, &taking)? {
            found.push(Hidden { position, by })?;
        }
    }
    Ok(found)
}

/// The first keystrokes of a chord as a text.
pub(crate) fn beginning(
    alloc: Global,
    strokes: &[Keystroke],
    count: usize,
) -> Result<String, NoMemory> {
    let mut text = String::new(alloc);
    write_strokes(&strokes[..count.min(strokes.len())], &mut text)?;
    Ok(text)
}

/// The lowest rule of each beginning of longer keystrokes.
fn longer_rules(alloc: Global, rules: &[Rc<Rule>]) -> Result<Longer, NoMemory> {
    let mut longer = HashMap::new(alloc);
    for (position, rule) in rules.iter().enumerate() {
        note_beginnings(alloc, rule.chord.as_slice(), position, &mut longer)?;
    }
    Ok(longer)
}

/// Notes a rule under each beginning of its keystrokes.
fn note_beginnings(
    alloc: Global,
    strokes: &[Keystroke],
    position: usize,
    longer: &mut Longer,
) -> Result<(), NoMemory> {
    for count in 1..strokes.len() {
        longer.insert(beginning(alloc, strokes, count)?, position)?;
    }
    Ok(())
}

/// The rules that take beginnings of longer keystrokes, the lowest of each.
fn taking_rules(
    alloc: Global,
    rules: &[Rc<Rule>],
    enablements: &Enablements,
    longer: &Longer,
) -> Result<Taking, NoMemory>
    ensures { IfOk result (λ taking. All (IsTaking (enablement_in enablements.now)
        (map (λ r. r.value) rules.now)) taking.positions.items) }
{
    let mut taking = Taking {
        positions: Vec::new(alloc),
        by_keys: HashMap::new(alloc),
    };
    if longer.is_empty() {
        return Ok(taking);
    }
    for position in (0..rules.len()).rev() {
        if taking.positions.len() < LIMIT {
            note_taking(alloc, rules, position, enablements, longer, &mut taking)?;
        }
    }
    Ok(taking)
}

/// Notes the rule at a position under its keystrokes, if it takes them from all longer ones.
fn note_taking(
    alloc: Global,
    rules: &[Rc<Rule>],
    position: usize,
    enablements: &Enablements,
    longer: &Longer,
    taking: &mut Taking,
) -> Result<(), NoMemory>
    ensures { All (IsTaking (enablement_in enablements.now) (map (λ r. r.value) rules.now))
        taking.old.positions.items → OnOk result (All (IsTaking (enablement_in enablements.now)
        (map (λ r. r.value) rules.now)) taking.new.positions.items) }
{
    let Some(rule) = rule_at(rules, position) else {
        return Ok(());
    };
    let keys = rule.chord.text(alloc)?;
    let Some(lowest) = longer.get(keys.as_str()) else {
        return Ok(());
    };
    if *lowest < position
        && !taking.by_keys.contains_key(keys.as_str())
        && takes_all(rules, position, rule, enablements)
    {
        taking.by_keys.insert(keys, taking.positions.len())?;
        taking.positions.push(position)?;
    }
    Ok(())
}

/// The rule at a position, if there is one.
pub(crate) fn rule_at(rules: &[Rc<Rule>], position: usize) -> Option<&Rule>
    ensures { option_map (λ r. r.now) result ≡ slice_get (map (λ r. r.value) rules.now) position }
{
    match rules.get(position) {
        Some(rule) => Some(rule),
        None => None,
    }
}

/// Whether a rule has the keystrokes of another one and more.
pub(crate) fn is_longer(rule: &Rule, other: &Rule) -> bool
    ensures { IsTrue result ↔ IsLonger other.now.chord rule.now }
{
    rule.chord.len() > other.chord.len() && rule.chord.begins_with(other.chord.as_slice())
}

/// Whether a rule takes its keystrokes from another one, if that has these and more: the other one's place is
/// above its position, and the rule may start whenever the other one may.
fn is_taken(
    other: &Rule,
    place: usize,
    rule: &Rule,
    position: usize,
    enablements: &Enablements,
) -> bool
    ensures { IsTrue result → IsTakenAt (enablement_in enablements.now) position rule.now place other.now }
{
    !is_longer(other, rule) || (place < position && covers(rule, other, enablements))
}

/// Whether a rule takes its keystrokes from each rule that has these and more.
#[tactic(auto, using(crate::proofs::TakingLemmas::one_further, crate::proofs::TakingLemmas::all_taken))]
fn takes_all(rules: &[Rc<Rule>], position: usize, rule: &Rule, enablements: &Enablements) -> bool
    ensures { IsTrue result → TakesAll (enablement_in enablements.now) (map (λ r. r.value) rules.now) position
        rule.now }
{
    for (place, other) in rules.iter().enumerate() {
        if !is_taken(other, place, rule, position, enablements) {
            return false;
        }
    }
    true
}

/// The rule that takes the first keystrokes of the rule at a position from it.
fn taken_by(
    alloc: Global,
    rules: &[Rc<Rule>],
    position: usize,
    enablements: &Enablements,
    taking: &Taking,
) -> Result<Option<usize>, NoMemory>
    ensures { All (IsTaking (enablement_in enablements.now) (map (λ r. r.value) rules.now))
        taking.now.positions.items → IfOk result (λ taken. IfSome taken (IsCutOff
        (enablement_in enablements.now) (map (λ r. r.value) rules.now) position)) }
{
    let Some(rule) = rule_at(rules, position) else {
        return Ok(None);
    };
    let Some(by) = named(alloc, rule.chord.as_slice(), taking)? else {
        return Ok(None);
    };
    match rule_at(rules, by) {
        Some(lower) if lower.chord.len() > 0 && is_longer(rule, lower) => Ok(Some(by)),
        _ => Ok(None),
    }
}

/// The position of the rule that is noted under the first beginning of these keystrokes that has one.
fn named(alloc: Global, strokes: &[Keystroke], taking: &Taking) -> Result<Option<usize>, NoMemory>
    ensures { IfOk result (λ named. IfSome named (λ by.
        (place : ℕ) × (slice_get taking.now.positions.items place ≡ Some by))) }
{
    for count in 1..strokes.len() {
        let text = beginning(alloc, strokes, count)?;
        if let Some(place) = taking.by_keys.get(text.as_str()) {
            if let Some(by) = taking.positions.as_slice().get(*place) {
                return Ok(Some(*by));
            }
        }
    }
    Ok(None)
}
