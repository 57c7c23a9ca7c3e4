//! Lints on the rules in force: commands that nobody has, and arguments that their commands don't take.
ghost use Rattle.std.specs.Prelude.{◌≡◌, IfOk, OnOk, false};
ghost use Rattle.kb_problems.specs.Starts.{is_never, never_said};

use crate::list_lints::{add_unknown_elements, add_wrong_list};
use kb_base::NoMemory;
use kb_core::{Kind, Native, Signature};
use kb_problems::{
    KnownCommands, LIST_COMMAND, Lint, OpenedFiles, Problem, push_other, rule_problem,
};
use kb_rules::Rule;
use serde_json::Value;
use std::alloc::Global;
use std::rc::Rc;

/// Adds the rules whose command nobody has.
pub(crate) fn add_unknown_commands(
    alloc: Global,
    files: &OpenedFiles<'_>,
    rules: &[Rc<Rule>],
    known: &mut KnownCommands,
    problems: &mut Vec<Problem>,
) -> Result<(), NoMemory>
    ensures { OnOk result (never_said problems.new.items ≡ never_said problems.old.items) }
{
    for rule in rules {
        add_unknown_command(alloc, files, rule, known, problems)?;
    }
    Ok(())
}

/// Adds a rule, if nobody has its command.
fn add_unknown_command(
    alloc: Global,
    files: &OpenedFiles<'_>,
    rule: &Rule,
    known: &mut KnownCommands,
    problems: &mut Vec<Problem>,
) -> Result<(), NoMemory>
    ensures { OnOk result (never_said problems.new.items ≡ never_said problems.old.items) }
{
    let command = rule.command.as_str();
    if command == LIST_COMMAND {
        add_unknown_elements(alloc, files, rule, known, problems)?;
        return Ok(());
    }
    if command.is_empty() || known.has(command) {
        return Ok(());
    }
    let (lint, sentence) = said_of_unknown(alloc, command, known)?;
    let problem = rule_problem(alloc, files, rule, lint, "command", sentence)?;
    push_other(problem, problems)?;
    Ok(())
}

/// What is said of a command that is not known: the lint, and a sentence.
pub(crate) fn said_of_unknown(
    alloc: Global,
    command: &str,
    known: &mut KnownCommands,
) -> Result<(Lint, String), NoMemory>
    ensures { IfOk result (λ said. is_never said.0 ≡ false) }
{
    match known.near(command) {
        Some(near) => {
            let sentence = format!(in alloc;
                "there is no command `{command}`; is `{near}` meant?"
            )?;
            Ok((Lint::MisspelledCommand, sentence))
        }
        None => {
            let sentence = format!(in alloc;
                "no extension contributes the command `{command}`, no default rule starts it, and it is no \
                    native one"
            )?;
            Ok((Lint::UnknownCommand, sentence))
        }
    }
}

/// Adds the rules whose arguments their command doesn't take.
pub(crate) fn add_wrong_arguments(
    alloc: Global,
    files: &OpenedFiles<'_>,
    rules: &[Rc<Rule>],
    known: &KnownCommands,
    problems: &mut Vec<Problem>,
) -> Result<(), NoMemory>
    ensures { OnOk result (never_said problems.new.items ≡ never_said problems.old.items) }
{
    for rule in rules {
        add_wrong_argument(alloc, files, rule, known, problems)?;
    }
    Ok(())
}

/// Adds a rule, if its command doesn't take its arguments.
fn add_wrong_argument(
    alloc: Global,
    files: &OpenedFiles<'_>,
    rule: &Rule,
    known: &KnownCommands,
    problems: &mut Vec<Problem>,
) -> Result<(), NoMemory>
    ensures { OnOk result (never_said problems.new.items ≡ never_said problems.old.items) }
{
    let command = rule.command.as_str();
    if command == LIST_COMMAND {
        add_wrong_list(alloc, files, rule, known, problems)?;
        return Ok(());
    }
    let Some(args) = arguments(rule) else {
        return Ok(());
    };
    if known.takes(alloc, command, Some(args))? {
        return Ok(());
    }
    let sentence = arguments_sentence(alloc, command, known)?;
    let problem = rule_problem(alloc, files, rule, Lint::WrongArguments, "args", sentence)?;
    push_other(problem, problems)?;
    Ok(())
}

/// The arguments of a rule, if it has some.
fn arguments(rule: &Rule) -> Option<&Value> {
    match &rule.args {
        Some(args) => Some(args.as_value()),
        None => None,
    }
}

/// The sentence on arguments that a command doesn't take.
pub(crate) fn arguments_sentence(
    alloc: Global,
    command: &str,
    known: &KnownCommands,
) -> Result<String, NoMemory> {
    let mut said = format!(in alloc;
        "the command `{command}` doesn't take these arguments; it takes"
    )?;
    if let Some(native) = Native::named(command) {
        write_native(native, &mut said)?;
    } else if let Some(signature) = known.signature(command) {
        write_signature(signature, &mut said)?;
    }
    Ok(said)
}

/// Writes the parameters of a native command behind a text.
fn write_native(native: Native, said: &mut String) -> Result<(), NoMemory> {
    for (place, param) in native.params().iter().enumerate() {
        write_parameter(place, param.name, param.kind, said)?;
    }
    Ok(())
}

/// Writes the parameters of a handler behind a text.
fn write_signature(signature: &Signature, said: &mut String) -> Result<(), NoMemory> {
    for (place, param) in signature.params().iter().enumerate() {
        write_parameter(place, param.name.as_str(), param.kind, said)?;
    }
    Ok(())
}

/// Writes the name and the kind of a parameter behind a text.
fn write_parameter(
    place: usize,
    name: &str,
    kind: Kind,
    said: &mut String,
) -> Result<(), NoMemory> {
    let sign = if place == 0 { "" } else { "," };
    let kind = kind_word(kind);
    write!(said, "{sign} `{name}`, {kind}")
}

/// What a parameter of a kind takes.
fn kind_word(kind: Kind) -> &'static str {
    match kind {
        Kind::Text => "a text",
        Kind::Number => "a whole number",
        Kind::Truth => "true or false",
        Kind::Any => "a text, a whole number, true or false",
    }
}
