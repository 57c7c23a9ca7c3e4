//! Problems of rules and removals, at their elements.
ghost use Rattle.std.specs.Prelude.{◌≡◌, IfOk, IfSome};
ghost use Rattle.kb_base.specs.declared.note.Part.TheVariants.{Keybindings};
ghost use Rattle.kb_problems.specs.Opened.{AreOpened, IsAtOpened, IsAtOpenedRemoval};
ghost use Rattle.kb_problems.specs.Placed.{IsEntryIn, list_in};
ghost use Rattle.kb_problems.specs.Starts.{file_in};
ghost use Rattle.kb_problems.specs.declared.cause.Cause.TheVariants.{Linted};
ghost use Rattle.kb_source_files.specs.SourceFiles.{file_of as file_in_sources};
ghost use Rattle.kb_source_files.specs.declared.source_files.SourceFiles.{SourceFiles};

use crate::cause::Lint;
use crate::opened::{OpenedFiles, file_of};
use crate::problem::{Problem, linted};
use kb_base::{NoMemory, Origin, Part};
use kb_places::Span;
use kb_rules::{Removal, Rule};
use std::alloc::Global;

/// The place of a rule as messages name it. Error: `NoMemory`.
pub fn spot_of(alloc: Global, files: &OpenedFiles<'_>, rule: &Rule) -> Result<String, NoMemory> {
    let path = match files.sources.file_of_origin(rule.origin) {
        Some(file) => file.path,
        None => "",
    };
    let line = match files.of(rule.origin) {
        Some(opened) => opened.rule_line(rule.place),
        None => None,
    };
    match line {
        Some(line) => format!(in alloc; "{path}:{line}"),
        None => String::from_str(alloc, path),
    }
}

/// Where the value of a member of an element of a list of rules is, or the element where it has no such
/// member.
#[tactic(auto, using(crate::proofs::PlacedLemmas::part_there))]
fn element_span(
    alloc: Global,
    files: &OpenedFiles<'_>,
    origin: Origin,
    place: usize,
    member: &str,
) -> Result<Option<Span>, NoMemory>
    ensures { (sources : SourceFiles) → AreOpened sources files.now → IfOk result (λ span. IfSome span
        (IsEntryIn (file_in_sources sources (file_in origin)) (list_in (file_in origin) Keybindings) place)) }
{
    match files.of(origin) {
        Some(opened) => Ok(opened.member(alloc, Part::Keybindings, place, member)?),
        None => Ok(None),
    }
}

/// A problem of a rule, at a member of it. Error: `NoMemory`.
#[tactic(auto, using(crate::proofs::PlacedLemmas::at_element))]
pub fn rule_problem(
    alloc: Global,
    files: &OpenedFiles<'_>,
    rule: &Rule,
    lint: Lint,
    member: &str,
    sentence: String,
) -> Result<Problem, NoMemory>
    ensures cause { IfOk result (λ problem. problem.cause ≡ Linted lint) }
    ensures placed { IfOk result (IsAtOpened files.now rule.now) }
{
    let span = element_span(alloc, files, rule.origin, rule.place, member)?;
    Ok(linted(file_of(rule.origin), lint, span, sentence))
}

/// A problem of a removal, at its command. Error: `NoMemory`.
#[tactic(auto, using(crate::proofs::PlacedLemmas::at_element))]
pub fn removal_problem(
    alloc: Global,
    files: &OpenedFiles<'_>,
    removal: &Removal,
    lint: Lint,
    sentence: String,
) -> Result<Problem, NoMemory>
    ensures cause { IfOk result (λ problem. problem.cause ≡ Linted lint) }
    ensures placed { IfOk result (IsAtOpenedRemoval files.now removal.now) }
{
    let span = element_span(alloc, files, removal.origin, removal.place, "command")?;
    Ok(linted(file_of(removal.origin), lint, span, sentence))
}
