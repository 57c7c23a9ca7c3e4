//! A rule, said.
ghost use Rattle.std.specs.Prelude.{◌≡◌, IfOk, string_bytes};
ghost use Rattle.serde_json.specs.View.{view};
ghost use Rattle.kb_source_files.specs.SourceFiles.{file_of_origin};
ghost use Rattle.kb_explain_report.specs.RemovedSaid.{IsPlaceJson, path_words, place_in};
ghost use Rattle.kb_explain_report.specs.RulesSaid.{IsRuleJson, IsRuleText, command_words};

use crate::clauses::clause_text;
use crate::rule_places::RulePlaces;
use kb_base::{NoMemory, Origin};
use kb_bindings::Bindings;
use kb_rules::Rule;
use kb_source_files::SourceFiles;
use kb_when::Clause;
use serde_json::{Value, json};
use std::alloc::Global;

/// What lines on rules are made of besides the rules.
#[derive(Clone, Copy)]
pub struct Named<'s> {
    /// What binds keys.
    pub bindings: &'s Bindings,
    /// The files that it was read from.
    pub files: &'s SourceFiles<'s>,
    /// Where their rules stand.
    pub places: &'s RulePlaces,
}

/// The path of a file of rules, as messages name it. Only rules of a script's reload are in force without a
/// file.
fn path_of<'s>(files: &SourceFiles<'s>, origin: Origin) -> &'s str
    ensures { result.now ≡ path_words (file_of_origin files.entry.now origin) }
{
    match files.file_of_origin(origin) {
        Some(file) => file.path,
        None => "reload",
    }
}

/// `PATH:LINE:COLUMN` of the element of a file.
pub(crate) fn place_text(
    alloc: Global,
    named: &Named<'_>,
    origin: Origin,
    place: usize,
) -> Result<String, NoMemory>
    ensures { IfOk result (λ made. string_bytes made ≡ place_in named.now origin place) }
{
    let path = path_of(named.files, origin);
    let Some(position) = named.places.position(origin, place) else {
        return String::from_str(alloc, path);
    };
    let line = position.line;
    let column = position.column;
    let text = format!(in alloc; "{path}:{line}:{column}")?;
    Ok(text)
}

/// The place of the element of a file, as JSON.
pub(crate) fn place_json(
    alloc: Global,
    named: &Named<'_>,
    origin: Origin,
    place: usize,
) -> Result<Value, NoMemory>
    ensures { IfOk result (λ made. IsPlaceJson named.now origin place (view made)) }
{
    let path = path_of(named.files, origin);
    let source = named.bindings.source(origin);
    let Some(position) = named.places.position(origin, place) else {
        return json!(in alloc; {"source": source, "path": path});
    };
    let line = position.line as u64;
    let column = position.column as u64;
    json!(in alloc; {"source": source, "path": path, "line": line, "column": column})
}

/// The identifier of a command in words.
fn command_text(command: &str) -> &str
    ensures { result.now ≡ command_words command.entry.now }
{
    if command.is_empty() {
        return "(no command)";
    }
    command
}

/// A rule's clause in words, if it has one.
fn when_text(alloc: Global, clause: Option<&Clause>) -> Result<String, NoMemory> {
    match clause {
        Some(clause) => {
            let clause = clause_text(alloc, clause)?;
            format!(in alloc; " when {clause}")
        }
        None => Ok(String::new(alloc)),
    }
}

/// A rule in words: its keystrokes, its command and its clause.
pub(crate) fn rule_text(alloc: Global, rule: &Rule) -> Result<String, NoMemory>
    ensures { IfOk result (λ made. IsRuleText rule.now (string_bytes made)) }
{
    let keys = rule.chord.text(alloc)?;
    let command = command_text(rule.command.as_str());
    let when = when_text(alloc, rule.when.as_ref())?;
    let text = format!(in alloc; "{keys} {command}{when}")?;
    Ok(text)
}

/// A rule as JSON, with its place.
pub(crate) fn rule_json(alloc: Global, named: &Named<'_>, rule: &Rule) -> Result<Value, NoMemory>
    ensures { IfOk result (λ made. IsRuleJson rule.now (view made)) }
{
    let keys = rule.chord.text(alloc)?;
    let keys = keys.as_str();
    let command = rule.command.as_str();
    let place = place_json(alloc, named, rule.origin, rule.place)?;
    match &rule.when {
        Some(clause) => {
            let clause = clause_text(alloc, clause)?;
            let clause = clause.as_str();
            json!(in alloc; {"keys": keys, "command": command, "when": clause, "place": place})
        }
        None => json!(in alloc; {"keys": keys, "command": command, "place": place}),
    }
}
