//! The warnings of a load as problems.
ghost use Rattle.std.specs.Prelude.{◌≡◌, [], ◌∷◌, ◌++◌, IfOk, IfSome, OnOk, map};
ghost use Rattle.kb_source_files.specs.SourceFiles.{file_of};
ghost use Rattle.kb_source_files.specs.declared.source_files.SourceFiles.{SourceFiles};
ghost use Rattle.kb_problems.specs.Opened.{AreOpened};
ghost use Rattle.kb_problems.specs.Placed.{ArePlaced, IsEntryAt, IsEntryIn, IsPlacedWarning, list_in};
ghost use Rattle.kb_problems.specs.Starts.{file_in};
ghost use Rattle.kb_problems.specs.declared.cause.Cause.TheVariants.{Warned};

use crate::cause::Cause;
use crate::clause_mistakes::clause_sentence;
use crate::faulty::{Faulty, faulty_in, is_of_clause, is_of_keys};
use crate::key_mistakes::key_sentence;
use crate::opened::{Opened, OpenedFiles, file_of};
use crate::problem::Problem;
use kb_base::{FaultKind, NoMemory, Part, Warning};
use kb_keys::Platform;
use kb_places::Span;
use serde_json::Value;
use std::alloc::Global;

/// A problem for each warning, in order. Error: `NoMemory`.
pub fn warned(
    alloc: Global,
    files: &OpenedFiles<'_>,
    platform: Platform,
    warnings: &[Warning],
) -> Result<Vec<Problem>, NoMemory>
    ensures causes { IfOk result (λ problems. map (λ p. p.cause) problems.items ≡ map Warned warnings.now) }
    ensures placed { (sources : SourceFiles) → AreOpened sources files.now
        → IfOk result (λ problems. ArePlaced sources problems.items) }
{
    let mut problems = Vec::new(alloc);
    for warning in warnings {
        add_warned(alloc, files, platform, *warning, &mut problems)?;
    }
    Ok(problems)
}

/// Adds the problem of a warning.
#[tactic(auto, using(crate::proofs::PlacedLemmas::warned_adds))]
fn add_warned(
    alloc: Global,
    files: &OpenedFiles<'_>,
    platform: Platform,
    warning: Warning,
    problems: &mut Vec<Problem>,
) -> Result<(), NoMemory>
    ensures causes { OnOk result (map (λ p. p.cause) problems.new.items
        ≡ map (λ p. p.cause) problems.old.items ++ Warned warning ∷ []) }
    ensures placed { (sources : SourceFiles) → AreOpened sources files.now
        → ArePlaced sources problems.old.items → OnOk result (ArePlaced sources problems.new.items) }
{
    problems.push(warned_of(alloc, files, platform, warning)?)?;
    Ok(())
}

/// The problem of a warning.
fn warned_of(
    alloc: Global,
    files: &OpenedFiles<'_>,
    platform: Platform,
    warning: Warning,
) -> Result<Problem, NoMemory>
    ensures cause { IfOk result (λ problem. problem.cause ≡ Warned warning) }
    ensures placed { (sources : SourceFiles) → AreOpened sources files.now
        → IfOk result (λ problem. IsPlacedWarning sources problem warning) }
{
    let (span, sentence) = said_in(alloc, files, platform, warning)?;
    Ok(Problem {
        cause: Cause::Warned(warning),
        file: file_of(warning.origin),
        span,
        sentence,
    })
}

/// The place of a warning in its file, and what is said of it.
#[tactic(auto, using(crate::proofs::PlacedLemmas::part_there))]
fn said_in(
    alloc: Global,
    files: &OpenedFiles<'_>,
    platform: Platform,
    warning: Warning,
) -> Result<(Option<Span>, String), NoMemory>
    ensures { (sources : SourceFiles) → AreOpened sources files.now → IfOk result (λ said. IfSome said.0
        (IsEntryIn (file_of sources (file_in warning.origin)) (list_in (file_in warning.origin) warning.part)
        warning.place)) }
{
    match files.of(warning.origin) {
        Some(opened) => Ok(said_of(alloc, opened, platform, warning)?),
        None => Ok((None, String::from_str(alloc, "the entry has a fault")?)),
    }
}

/// The place of a warning, and what is said of it.
fn said_of(
    alloc: Global,
    opened: &Opened<'_>,
    platform: Platform,
    warning: Warning,
) -> Result<(Option<Span>, String), NoMemory>
    ensures { IfOk result (λ said. IfSome said.0
        (IsEntryAt opened.now.source (list_in opened.now.file warning.part) warning.place)) }
{
    let Some(entry) = opened.value(alloc, warning.part, warning.place)? else {
        return Ok((None, String::from_str(alloc, "the entry has a fault")?));
    };
    let faulty = faulty_in(entry, warning.part, warning.kind, opened.file, platform);
    let span = span_of(alloc, opened, warning, faulty)?;
    let sentence = sentence_of(alloc, entry, warning, faulty)?;
    Ok((span, sentence))
}

/// Where what is faulty stands.
fn span_of(
    alloc: Global,
    opened: &Opened<'_>,
    warning: Warning,
    faulty: Faulty,
) -> Result<Option<Span>, NoMemory>
    ensures { IfOk result (λ found. IfSome found
        (IsEntryAt opened.now.source (list_in opened.now.file warning.part) warning.place)) }
{
    match faulty {
        Faulty::Member(name) => opened.member(alloc, warning.part, warning.place, name),
        Faulty::Entry | Faulty::Missing(_) => opened.entry(alloc, warning.part, warning.place),
    }
}

/// What the entries of a part are called.
fn entry_word(part: Part) -> &'static str {
    match part {
        Part::Commands => "command",
        Part::Keybindings => "rule",
        Part::Palette => "item",
    }
}

/// What becomes of an entry with a warning.
fn outcome(warning: Warning) -> &'static str {
    match (warning.part, warning.kind) {
        (_, FaultKind::UnreadPattern) => "the entry is kept",
        (Part::Keybindings, _) => "the rule is dropped",
        (_, kind) if is_of_clause(kind) => "the clause counts as false",
        (Part::Commands, _) => "the command is dropped",
        (Part::Palette, _) => "the item is dropped",
    }
}

/// The sentence on an entry with a warning.
fn sentence_of(
    alloc: Global,
    entry: &Value,
    warning: Warning,
    faulty: Faulty,
) -> Result<String, NoMemory> {
    let outcome = outcome(warning);
    let word = entry_word(warning.part);
    match (faulty, warning.kind) {
        (Faulty::Entry, _) => {
            format!(in alloc; "this {word} is no object in {{ and }}; {outcome}")
        }
        (Faulty::Missing(name), _) => {
            format!(in alloc; "the {word} has no member `{name}`; {outcome}")
        }
        (Faulty::Member(name), kind) if is_of_keys(kind) => {
            let text = entry.get(name).and_then(Value::as_str).unwrap_or("");
            let said = key_sentence(alloc, kind, text)?;
            format!(in alloc; "{said}; {outcome}")
        }
        (Faulty::Member(name), kind) if is_of_clause(kind) => {
            let text = entry.get(name).and_then(Value::as_str).unwrap_or("");
            let said = clause_sentence(alloc, kind, text)?;
            format!(in alloc; "{said}; {outcome}")
        }
        (Faulty::Member("args"), _) => {
            format!(in alloc; "`args` has a number that isn't whole; {outcome}")
        }
        (Faulty::Member(name), _) => {
            format!(in alloc; "`{name}` has to be a text in quotes; {outcome}")
        }
    }
}
