//! What a press of a key passes over, and what it takes.
ghost use Rattle.std.specs.Prelude.{◌≡◌, ◌++◌, All, IfOk, map, option_map};
ghost use Rattle.kb_bindings.specs.Sources.{enablement, rules_of};
ghost use Rattle.kb_context.specs.Scopes.{context};
ghost use Rattle.kb_explain.specs.Press.{passed_over, IsFirstObstacle, IsRightlyPassed};
ghost use Rattle.kb_resolve.specs.Enablements.{enablement_in};
ghost use Rattle.kb_resolve.specs.Resolver.{chosen};

use crate::cause::{Cause, cause_of_clause};
use kb_base::NoMemory;
use kb_bindings::Bindings;
use kb_context::Scopes;
use kb_keys::Keystroke;
use kb_resolve::Enablements;
use kb_rules::Rule;
use kb_when::{Clause, SharedClause};
use std::alloc::Global;
use std::rc::Rc;

/// Why a press passes over a rule.
#[derive(Clone, Copy, Debug)]
pub enum Obstacle<'s> {
    /// Its clause fails.
    Clause(Cause<'s>),
    /// Its clause holds, and the enablement of its command fails.
    Enablement(Cause<'s>),
}

/// A rule that a press passes over.
#[derive(Clone, Copy, Debug)]
pub struct Passed<'s> {
    /// The rule. Its keystrokes begin with those that are pressed.
    pub rule: &'s Rule,
    /// Why it is passed over.
    pub obstacle: Obstacle<'s>,
}

/// What a press makes of the rules whose keystrokes begin with those that are pressed.
#[derive(Drop)]
pub struct Explained<'s> {
    /// Those that it passes over, from the bottom up.
    pub passed: Vec<Passed<'s>>,
    /// The one that it takes, if it takes one.
    pub taken: Option<&'s Rule>,
}

/// The clause of an enablement.
pub(crate) fn clause_of<'s>(enablement: Option<&'s SharedClause>) -> Option<&'s Clause>
    ensures { option_map (λ clause. clause.now) result ≡ option_map (λ clause. clause.now) enablement.entry }
{
    match enablement {
        Some(enablement) => Some(enablement.as_clause()),
        None => None,
    }
}

/// Why a press passes over a rule whose keystrokes begin with those that are pressed, if it does.
#[tactic(auto, using(crate::proofs::PressLemmas::obstacles))]
fn first_obstacle<'s>(
    alloc: Global,
    rule: &'s Rule,
    enablements: &'s Enablements,
    scopes: &Scopes,
) -> Result<Option<Obstacle<'s>>, NoMemory>
    ensures { IfOk result (IsFirstObstacle (context scopes.now.seen) (enablement_in enablements.entry.now)
        rule.entry.now) }
{
    if let Some(cause) = cause_of_clause(alloc, rule.when.as_ref(), scopes)? {
        return Ok(Some(Obstacle::Clause(cause)));
    }
    let enablement = clause_of(enablements.of(rule.command.as_str()));
    match cause_of_clause(alloc, enablement, scopes)? {
        Some(cause) => Ok(Some(Obstacle::Enablement(cause))),
        None => Ok(None),
    }
}

/// Adds the rules that a press passes over, from the bottom up, and returns the one that it takes, if it
/// takes one.
fn pass_over<'s>(
    alloc: Global,
    rules: &'s [Rc<Rule>],
    strokes: &[Keystroke],
    enablements: &'s Enablements,
    scopes: &Scopes,
    passed: &mut Vec<Passed<'s>>,
) -> Result<Option<&'s Rule>, NoMemory>
    ensures taken { IfOk result (λ taken. option_map (λ rule. rule.now) taken
        ≡ chosen strokes.now (context scopes.now.seen) (enablement_in enablements.entry.now)
        (map (λ r. r.value) rules.entry.now)) }
    ensures passed { IfOk result (λ _. map (λ one. one.rule.now) passed.new.items
        ≡ map (λ one. one.rule.now) passed.old.items
        ++ passed_over strokes.now (context scopes.now.seen) (enablement_in enablements.entry.now)
        (map (λ r. r.value) rules.entry.now)) }
    ensures right { IfOk result (λ _.
        let enablement = enablement_in enablements.entry.now in
        All (IsRightlyPassed (context scopes.now.seen) enablement) passed.old.items
        → All (IsRightlyPassed (context scopes.now.seen) enablement) passed.new.items) }
{
    for rule in rules.iter().rev() {
        if !rule.chord.begins_with(strokes) {
            continue;
        }
        let Some(obstacle) = first_obstacle(alloc, rule, enablements, scopes)? else {
            return Ok(Some(rule));
        };
        passed.push(Passed { rule, obstacle })?;
    }
    Ok(None)
}

/// The rules that a press passes over which completes these keystrokes, and the one that it takes, over what
/// the focus sees. Error: `NoMemory`.
pub fn explain<'s>(
    alloc: Global,
    bindings: &'s Bindings,
    strokes: &[Keystroke],
    scopes: &Scopes,
) -> Result<Explained<'s>, NoMemory>
    // The rule that is taken is the one that the search chooses.
    ensures taken { IfOk result (λ made. option_map (λ rule. rule.now) made.taken
        ≡ chosen strokes.now (context scopes.now.seen) (enablement bindings.entry.now)
        (rules_of bindings.entry.now)) }
    ensures passed { IfOk result (λ made. map (λ one. one.rule.now) made.passed.items
        ≡ passed_over strokes.now (context scopes.now.seen) (enablement bindings.entry.now)
        (rules_of bindings.entry.now)) }

    // What is said of each rule that is passed over is so.
    ensures right { IfOk result (λ made.
        All (IsRightlyPassed (context scopes.now.seen) (enablement bindings.entry.now)) made.passed.items) }
{
    let mut passed = Vec::new(alloc);
    let rules = bindings.resolver().rules();
    let taken = pass_over(
        alloc,
        rules,
        strokes,
        bindings.enablements(),
        scopes,
        &mut passed,
    )?;
    Ok(Explained { passed, taken })
}
