//! Rules that can never start.
ghost use Rattle.std.specs.Prelude.{◌≡◌, ℕ, IfSome, OnOk, Some, map, option_map, slice_get};
ghost use Rattle.kb_check.specs.Sound.{AreSound};
ghost use Rattle.kb_lints.specs.Hidden.{IsHidden};
ghost use Rattle.kb_problems.specs.Opened.{IsAtOpened};
ghost use Rattle.kb_resolve.specs.Enablements.{Enabling, enablement_in};

use kb_base::NoMemory;
use kb_lints::{Hidden, Hiding, hidden_rules};
use kb_problems::{Lint, OpenedFiles, Problem, rule_problem, spot_of};
use kb_resolve::Enablements;
use kb_rules::Rule;
use std::alloc::Global;
use std::rc::Rc;

/// The rule at a position, if there is one.
fn rule_at(rules: &[Rc<Rule>], position: usize) -> Option<&Rule>
    ensures { option_map (λ r. r.now) result ≡ slice_get (map (λ r. r.value) rules.now) position }
{
    match rules.get(position) {
        Some(rule) => Some(rule),
        None => None,
    }
}

/// One of those that were found, counted from the top down, if there are some.
fn hidden_at(found: &[Hidden], how: Hiding, number: usize) -> Option<Hidden>
    ensures { IfSome result (λ hidden. (place : ℕ) × (slice_get found.now place ≡ Some hidden)) }
{
    let place = match how {
        Hiding::FirstKeys => number,
        Hiding::SameKeys | Hiding::MoreKeys => {
            found.len().saturating_sub(1).saturating_sub(number)
        }
    };
    match found.get(place) {
        Some(hidden) => Some(*hidden),
        None => None,
    }
}

/// Adds the rules that can never start since lower ones hide them in this way, from the top down.
pub(crate) fn add_hidden(
    alloc: Global,
    files: &OpenedFiles<'_>,
    rules: &[Rc<Rule>],
    enablements: &Enablements,
    how: Hiding,
    problems: &mut Vec<Problem>,
) -> Result<(), NoMemory>
    ensures { AreSound (IsAtOpened files.now) (enablement_in enablements.now) (map (λ r. r.value) rules.now)
        problems.old.items
        → OnOk result (AreSound (IsAtOpened files.now) (enablement_in enablements.now)
        (map (λ r. r.value) rules.now) problems.new.items) }
{
    let found = hidden_rules(alloc, how, rules, enablements)?;
    for number in 0..found.len() {
        let Some(hidden) = hidden_at(found.as_slice(), how, number) else {
            continue;
        };
        add_one(alloc, files, rules, how, hidden, problems)?;
    }
    Ok(())
}

/// The lint of a rule that another one hides in this way.
fn lint_of(how: Hiding, rule: &Rule, by: &Rule) -> Lint {
    match how {
        Hiding::SameKeys if rule.origin == by.origin => Lint::NeverStarts,
        Hiding::SameKeys => Lint::Overridden,
        Hiding::FirstKeys => Lint::ChordNeverOpens,
        Hiding::MoreKeys => Lint::ChordHidesRule,
    }
}

/// The sentence on a rule that a lower one hides in this way.
fn sentence_on(
    alloc: Global,
    files: &OpenedFiles<'_>,
    how: Hiding,
    by: &Rule,
) -> Result<String, NoMemory> {
    let spot = spot_of(alloc, files, by)?;
    let keys = by.chord.text(alloc)?;
    let clause = match &by.when {
        None => "no clause",
        Some(_) => "the same clause",
    };
    match how {
        Hiding::SameKeys => format!(in alloc;
            "this rule can never start: the rule at {spot} takes the same keystrokes, and has {clause}"
        ),
        Hiding::FirstKeys => format!(in alloc;
            "this rule can never start: the rule at {spot} takes {keys}, so that no chord opens"
        ),
        Hiding::MoreKeys => format!(in alloc;
            "this rule can never start: its keystrokes open the chord {keys} of the rule at {spot}, \
                which has {clause}"
        ),
    }
}

/// Adds a rule that a lower one hides in this way.
fn add_one(
    alloc: Global,
    files: &OpenedFiles<'_>,
    rules: &[Rc<Rule>],
    how: Hiding,
    hidden: Hidden,
    problems: &mut Vec<Problem>,
) -> Result<(), NoMemory>
    ensures { (enablement : Enabling)
        → IsHidden how enablement (map (λ r. r.value) rules.now) hidden
        → AreSound (IsAtOpened files.now) enablement (map (λ r. r.value) rules.now) problems.old.items
        → OnOk result (AreSound (IsAtOpened files.now) enablement (map (λ r. r.value) rules.now)
        problems.new.items) }
{
    let Some(rule) = rule_at(rules, hidden.position) else {
        return Ok(());
    };
    let Some(by) = rule_at(rules, hidden.by) else {
        return Ok(());
    };
    let sentence = sentence_on(alloc, files, how, by)?;
    let lint = lint_of(how, rule, by);
    let problem = rule_problem(alloc, files, rule, lint, "key", sentence)?;
    problems.push(problem)?;
    Ok(())
}
