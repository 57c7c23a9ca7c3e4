//! Lints on the arguments of `runCommands`.
ghost use Rattle.std.specs.Prelude.{◌≡◌, OnOk};
ghost use Rattle.kb_problems.specs.Starts.{never_said};

use crate::rule_lints::{arguments_sentence, said_of_unknown};
use kb_base::NoMemory;
use kb_problems::{
    KnownCommands, LIST_COMMAND, Lint, OpenedFiles, Problem, push_other, rule_problem,
};
use kb_rules::Rule;
use serde_json::Value;
use std::alloc::Global;

/// The most commands of a list.
const LIMIT: usize = 32;

/// The elements of the list that a rule gives, if it gives one and it isn't too long.
pub(crate) fn elements_of(rule: &Rule) -> Option<&[Value]> {
    let Some(args) = &rule.args else {
        return None;
    };
    let elements = args.as_value().get("commands")?.as_array()?;
    if elements.len() > LIMIT {
        return None;
    }
    Some(elements.as_slice())
}

/// The command of an element, if it names one that may be in a list.
pub(crate) fn command_in(element: &Value) -> Option<&str> {
    let command = match element {
        Value::String(command) => command.as_str(),
        Value::Object(_) => element.get("command")?.as_str()?,
        _ => return None,
    };
    if command == LIST_COMMAND {
        return None;
    }
    Some(command)
}

/// The arguments of an element, if it has some.
fn arguments_in(element: &Value) -> Option<&Value> {
    element.get("args")
}

/// Whether each element names a command that may be in a list.
fn are_commands(elements: &[Value]) -> bool {
    for element in elements {
        if command_in(element).is_none() {
            return false;
        }
    }
    true
}

/// Adds the commands of the list that a rule runs which nobody has.
pub(crate) fn add_unknown_elements(
    alloc: Global,
    files: &OpenedFiles<'_>,
    rule: &Rule,
    known: &mut KnownCommands,
    problems: &mut Vec<Problem>,
) -> Result<(), NoMemory>
    ensures { OnOk result (never_said problems.new.items ≡ never_said problems.old.items) }
{
    let Some(elements) = elements_of(rule) else {
        return Ok(());
    };
    for element in elements {
        add_unknown_element(alloc, files, rule, element, known, problems)?;
    }
    Ok(())
}

/// Adds the command of an element of the list that a rule runs, if nobody has it.
fn add_unknown_element(
    alloc: Global,
    files: &OpenedFiles<'_>,
    rule: &Rule,
    element: &Value,
    known: &mut KnownCommands,
    problems: &mut Vec<Problem>,
) -> Result<(), NoMemory>
    ensures { OnOk result (never_said problems.new.items ≡ never_said problems.old.items) }
{
    let Some(command) = command_in(element) else {
        return Ok(());
    };
    if known.has(command) {
        return Ok(());
    }
    let (lint, sentence) = said_of_unknown(alloc, command, known)?;
    let problem = rule_problem(alloc, files, rule, lint, "args", sentence)?;
    push_other(problem, problems)?;
    Ok(())
}

/// Adds a rule that runs a list, if it gives none, and else the commands of the list that don't take their
/// arguments.
pub(crate) fn add_wrong_list(
    alloc: Global,
    files: &OpenedFiles<'_>,
    rule: &Rule,
    known: &KnownCommands,
    problems: &mut Vec<Problem>,
) -> Result<(), NoMemory>
    ensures { OnOk result (never_said problems.new.items ≡ never_said problems.old.items) }
{
    let Some(elements) = elements_of(rule) else {
        add_no_list(alloc, files, rule, problems)?;
        return Ok(());
    };
    if !are_commands(elements) {
        add_no_list(alloc, files, rule, problems)?;
        return Ok(());
    }
    add_wrong_elements(alloc, files, rule, elements, known, problems)?;
    Ok(())
}

/// Adds a rule that runs no list.
fn add_no_list(
    alloc: Global,
    files: &OpenedFiles<'_>,
    rule: &Rule,
    problems: &mut Vec<Problem>,
) -> Result<(), NoMemory>
    ensures { OnOk result (never_said problems.new.items ≡ never_said problems.old.items) }
{
    let sentence = format!(in alloc;
        "the command `runCommands` takes an object whose member `commands` is a list of at most 32 \
            commands; each is a text, or an object with `command` and `args`, and none is `runCommands`"
    )?;
    let problem = rule_problem(alloc, files, rule, Lint::WrongArguments, "args", sentence)?;
    push_other(problem, problems)?;
    Ok(())
}

/// Adds the commands of the list that a rule runs which don't take their arguments.
fn add_wrong_elements(
    alloc: Global,
    files: &OpenedFiles<'_>,
    rule: &Rule,
    elements: &[Value],
    known: &KnownCommands,
    problems: &mut Vec<Problem>,
) -> Result<(), NoMemory>
    ensures { OnOk result (never_said problems.new.items ≡ never_said problems.old.items) }
{
    for element in elements {
        add_wrong_element(alloc, files, rule, element, known, problems)?;
    }
    Ok(())
}

/// Adds the command of an element of the list that a rule runs, if it doesn't take its arguments.
fn add_wrong_element(
    alloc: Global,
    files: &OpenedFiles<'_>,
    rule: &Rule,
    element: &Value,
    known: &KnownCommands,
    problems: &mut Vec<Problem>,
) -> Result<(), NoMemory>
    ensures { OnOk result (never_said problems.new.items ≡ never_said problems.old.items) }
{
    let Some(command) = command_in(element) else {
        return Ok(());
    };
    if known.takes(alloc, command, arguments_in(element))? {
        return Ok(());
    }
    let sentence = arguments_sentence(alloc, command, known)?;
    let problem = rule_problem(alloc, files, rule, Lint::WrongArguments, "args", sentence)?;
    push_other(problem, problems)?;
    Ok(())
}
