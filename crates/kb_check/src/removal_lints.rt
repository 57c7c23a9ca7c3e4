//! Removals that take nothing.
ghost use Rattle.std.specs.Prelude.{◌≡◌, OnOk};
ghost use Rattle.kb_problems.specs.Starts.{never_said};

use kb_base::NoMemory;
use kb_bindings::Bindings;
use kb_lints::{RuleTargets, Taking};
use kb_problems::{
    KnownCommands, Lint, OpenedFiles, Problem, push_other, removal_problem, spot_of,
};
use kb_rules::{Removal, Rule};
use std::alloc::Global;
use std::rc::Rc;

/// Adds shares of rules to a list.
fn share_all(rules: &[Rc<Rule>], all: &mut Vec<Rc<Rule>>) -> Result<(), NoMemory> {
    for rule in rules {
        all.push(Rc::clone(rule)?)?;
    }
    Ok(())
}

/// The rules that removals may take: those of the default list and of extensions.
fn removable(alloc: Global, bindings: &Bindings) -> Result<Vec<Rc<Rule>>, NoMemory> {
    let mut all = Vec::new(alloc);
    share_all(bindings.defaults().rules(), &mut all)?;
    for extension in bindings.extensions() {
        share_all(extension.rules.rules(), &mut all)?;
    }
    Ok(all)
}

/// Adds the removals that take nothing.
pub(crate) fn add_idle_removals(
    alloc: Global,
    files: &OpenedFiles<'_>,
    bindings: &Bindings,
    known: &mut KnownCommands,
    problems: &mut Vec<Problem>,
) -> Result<(), NoMemory>
    ensures { OnOk result (never_said problems.new.items ≡ never_said problems.old.items) }
{
    let targets = RuleTargets::new(alloc, removable(alloc, bindings)?)?;
    let defaults = bindings.defaults().removals();
    add_idle(alloc, files, defaults, &targets, known, problems)?;
    for extension in bindings.extensions() {
        let own = extension.rules.removals();
        add_idle(alloc, files, own, &targets, known, problems)?;
    }
    let user = bindings.user().removals();
    add_idle(alloc, files, user, &targets, known, problems)?;
    Ok(())
}

/// Adds those of some removals.
fn add_idle(
    alloc: Global,
    files: &OpenedFiles<'_>,
    removals: &[Rc<Removal>],
    targets: &RuleTargets,
    known: &mut KnownCommands,
    problems: &mut Vec<Problem>,
) -> Result<(), NoMemory>
    ensures { OnOk result (never_said problems.new.items ≡ never_said problems.old.items) }
{
    for removal in removals {
        add_removal(alloc, files, removal, targets, known, problems)?;
    }
    Ok(())
}

/// Adds a removal, if it takes nothing.
fn add_removal(
    alloc: Global,
    files: &OpenedFiles<'_>,
    removal: &Removal,
    targets: &RuleTargets,
    known: &mut KnownCommands,
    problems: &mut Vec<Problem>,
) -> Result<(), NoMemory>
    ensures { OnOk result (never_said problems.new.items ≡ never_said problems.old.items) }
{
    let taking = targets.taken_by(removal)?;
    if taking == Taking::Rules {
        return Ok(());
    }
    let sentence = sentence_of(alloc, files, removal, targets, known, taking)?;
    let problem = removal_problem(alloc, files, removal, Lint::IdleRemoval, sentence)?;
    push_other(problem, problems)?;
    Ok(())
}

/// The sentence on a removal that takes nothing.
fn sentence_of(
    alloc: Global,
    files: &OpenedFiles<'_>,
    removal: &Removal,
    targets: &RuleTargets,
    known: &mut KnownCommands,
    taking: Taking,
) -> Result<String, NoMemory> {
    let command = removal.command.as_str();
    match taking {
        Taking::ButForOrder(place) => {
            let spot = spot_at(alloc, files, targets, place)?;
            format!(in alloc;
                "this removal takes no rule: the clause of the rule at {spot} has its operands in another \
                    order; write it as there"
            )
        }
        Taking::OtherRule(place) => {
            let spot = spot_at(alloc, files, targets, place)?;
            format!(in alloc;
                "this removal takes no rule: the rule of `{command}` at {spot} has other keystrokes or \
                    another clause"
            )
        }
        Taking::NoRule | Taking::Rules => no_rule_sentence(alloc, command, known),
    }
}

/// The sentence on a removal of a command of which there is no rule.
fn no_rule_sentence(
    alloc: Global,
    command: &str,
    known: &mut KnownCommands,
) -> Result<String, NoMemory> {
    if !known.has(command)
        && let Some(near) = known.near(command)
    {
        return format!(in alloc;
            "this removal takes no rule: neither the default rules nor an extension have a rule of \
                `{command}`; is `{near}` meant?"
        );
    }
    format!(in alloc;
        "this removal takes no rule: neither the default rules nor an extension have a rule of `{command}`"
    )
}

/// The place of a rule that removals may take.
fn spot_at(
    alloc: Global,
    files: &OpenedFiles<'_>,
    targets: &RuleTargets,
    place: usize,
) -> Result<String, NoMemory> {
    match targets.at(place) {
        Some(rule) => spot_of(alloc, files, rule),
        None => Ok(String::new(alloc)),
    }
}
