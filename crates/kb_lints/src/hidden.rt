//! Rules that can never start, since lower ones take their keystrokes whenever they would.
ghost use Rattle.std.specs.Prelude.{◌≡◌, All, IfOk, IfSome, map};
ghost use Rattle.kb_resolve.specs.Enablements.{enablement_in};
ghost use Rattle.kb_lints.specs.Extended.{IsExtended};
ghost use Rattle.kb_lints.specs.Hidden.{Hides, IsHidden};
ghost use Rattle.kb_lints.specs.Shadow.{IsShadowed};

use crate::chords::{beginning, cut_off, is_longer};
use crate::condition::covers;
use crate::seen::{Conditions, Seen};
use kb_base::NoMemory;
use kb_resolve::Enablements;
use kb_rules::Rule;
use std::alloc::Global;
use std::rc::Rc;

/// What a lower rule has of the keystrokes of a rule that can never start.
#[derive(Clone, Copy, Debug, PartialEq, Eq)]
pub enum Hiding {
    /// The same keystrokes.
    SameKeys,
    /// The first of them alone, so that they never open a chord.
    FirstKeys,
    /// All of them and more, so that they only open its chord.
    MoreKeys,
}

/// A rule that can never start, and a lower one that hides it, by their positions among the rules in force.
#[derive(Clone, Copy, Debug, PartialEq, Eq)]
pub struct Hidden {
    /// The position of the rule.
    pub position: usize,
    /// The position of the lower rule.
    pub by: usize,
}

/// The rules that can never start since lower ones hide them in this way: for `FirstKeys` from the top down,
/// else from the bottom to the top. Of several lower rules with the same keystrokes, or with more, one
/// without a clause is named before one with the same clause, and of these the lowest. A rule that has the
/// first keystrokes of others alone is named if it may start whenever any rule may that these keystrokes
/// begin, all of which are above it. No clause says that it finds all of them. Error: `NoMemory`.
pub fn hidden_rules(
    alloc: Global,
    how: Hiding,
    rules: &[Rc<Rule>],
    enablements: &Enablements,
) -> Result<Vec<Hidden>, NoMemory>
    ensures { IfOk result (λ found. All (IsHidden how (enablement_in enablements.now)
        (map (λ r. r.value) rules.now)) found.items) }
{
    match how {
        Hiding::FirstKeys => cut_off(alloc, rules, enablements),
        Hiding::SameKeys | Hiding::MoreKeys => below(alloc, how, rules, enablements),
    }
}

/// The rules that a lower one hides by the same keystrokes, or by more.
fn below(
    alloc: Global,
    how: Hiding,
    rules: &[Rc<Rule>],
    enablements: &Enablements,
) -> Result<Vec<Hidden>, NoMemory>
    ensures { IfOk result (λ found. All (IsHidden how (enablement_in enablements.now)
        (map (λ r. r.value) rules.now)) found.items) }
{
    let mut seen = Seen::new(alloc);
    let mut found = Vec::new(alloc);
    for position in (0..rules.len()).rev() {
        if let Some(by) = note(alloc, how, rules, position, enablements, &mut seen)? {
            found.push(Hidden { position, by })?;
        }
    }
    Ok(found)
}

/// The lower rule that hides the rule at a position. Without one the rule is noted under the keystrokes of
/// those that it may hide.
fn note(
    alloc: Global,
    how: Hiding,
    rules: &[Rc<Rule>],
    position: usize,
    enablements: &Enablements,
    seen: &mut Seen,
) -> Result<Option<usize>, NoMemory>
    ensures { IfOk result (λ by. IfSome by (Hides how (enablement_in enablements.now)
        (map (λ r. r.value) rules.now) position)) }
{
    let Some(rule) = rules.get(position) else {
        return Ok(None);
    };
    let conditions = Conditions::of(rule, enablements);
    let lower = guess(alloc, rule, conditions, seen)?;
    if let Some(by) = lower_that_hides(how, rules, position, enablements, lower) {
        return Ok(Some(by));
    }
    note_rule(alloc, how, rule, conditions, position, seen)?;
    Ok(None)
}

/// The position of the rule that is noted under the keystrokes and conditions of a rule.
fn guess(
    alloc: Global,
    rule: &Rule,
    conditions: Conditions<'_>,
    seen: &Seen,
) -> Result<Option<usize>, NoMemory> {
    if seen.is_empty() {
        return Ok(None);
    }
    let keys = rule.chord.text(alloc)?;
    seen.covering(keys.as_str(), conditions)
}

/// A lower position, if its rule hides the rule at a position by the same keystrokes or by more.
fn lower_that_hides(
    how: Hiding,
    rules: &[Rc<Rule>],
    position: usize,
    enablements: &Enablements,
    by: Option<usize>,
) -> Option<usize>
    ensures { IfSome result
        (Hides how (enablement_in enablements.now) (map (λ r. r.value) rules.now) position) }
{
    match how {
        Hiding::SameKeys => with_same_keys(rules, position, enablements, by),
        Hiding::MoreKeys => with_more_keys(rules, position, enablements, by),
        Hiding::FirstKeys => None,
    }
}

/// A lower position, if its rule has the same keystrokes as the rule at a position, and may start whenever
/// that one may.
fn with_same_keys(
    rules: &[Rc<Rule>],
    position: usize,
    enablements: &Enablements,
    by: Option<usize>,
) -> Option<usize>
    ensures { IfSome result
        (IsShadowed (enablement_in enablements.now) (map (λ r. r.value) rules.now) position) }
{
    let by = by?;
    let rule = rules.get(position)?;
    let lower = rules.get(by)?;
    if position < by && rule.chord.same_keys(&lower.chord) && covers(lower, rule, enablements) {
        return Some(by);
    }
    None
}

/// A lower position, if its rule has the keystrokes of the rule at a position and more, and may start
/// whenever that one may.
fn with_more_keys(
    rules: &[Rc<Rule>],
    position: usize,
    enablements: &Enablements,
    by: Option<usize>,
) -> Option<usize>
    ensures { IfSome result
        (IsExtended (enablement_in enablements.now) (map (λ r. r.value) rules.now) position) }
{
    let by = by?;
    let rule = rules.get(position)?;
    let lower = rules.get(by)?;
    if position < by && is_longer(lower, rule) && covers(lower, rule, enablements) {
        return Some(by);
    }
    None
}

/// From how many of its keystrokes on, and below how many, a rule is noted: under all of them, or under each
/// number that leaves some.
fn counts(how: Hiding, length: usize) -> (usize, usize) {
    match how {
        Hiding::SameKeys => (length, length.saturating_add(1)),
        Hiding::FirstKeys | Hiding::MoreKeys => (1, length),
    }
}

/// Notes a rule under the keystrokes of those that it may hide.
fn note_rule(
    alloc: Global,
    how: Hiding,
    rule: &Rule,
    conditions: Conditions<'_>,
    position: usize,
    seen: &mut Seen,
) -> Result<(), NoMemory> {
    let strokes = rule.chord.as_slice();
    let (first, end) = counts(how, strokes.len());
    for count in first..end {
        let keys = beginning(alloc, strokes, count)?;
        seen.note(keys.as_str(), conditions, position)?;
    }
    Ok(())
}
