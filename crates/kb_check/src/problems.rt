//! All problems of some files.
ghost use Rattle.std.specs.Prelude.{◌≡◌, ◌∷◌, IfOk, List, OnOk, map};
ghost use Rattle.std.specs.List.{filter_map};
ghost use Rattle.kb_bindings.specs.Sources.{enablement, rules_of};
ghost use Rattle.kb_bindings.specs.Warning.{warnings_of};
ghost use Rattle.kb_source_files.specs.declared.source_files.SourceFiles.{SourceFiles};
ghost use Rattle.kb_problems.specs.Placed.{ArePlaced, IsAtRule};
ghost use Rattle.kb_check.specs.Problems.{AreWanted, IsRefusal, Tells};
ghost use Rattle.kb_check.specs.Problems.{files_in, ids_in, is_wanted, warning_in};
ghost use Rattle.kb_check.specs.Sound.{AreSound};
ghost use Rattle.kb_problems.specs.declared.choices.Choices.{Choices};
ghost use Rattle.kb_problems.specs.declared.problem.Problem.{Problem};
ghost use Rattle.kb_resolve.specs.Enablements.{Enabling};
ghost use Rattle.kb_rules.specs.declared.rule.Rule.{Rule};

use crate::lints::{Loaded, linted_in};
use crate::loading::{PlainNative, load_sources};
use kb_base::{Failure, NoMemory, Text};
use kb_bindings::Bindings;
use kb_context::Scopes;
use kb_files::{Extension, LoadFault};
use kb_problems::{Cause, Choices, Problem, open_all, refused, warned};
use kb_session::Session;
use kb_source_files::SourceFiles;
use std::alloc::{AllocError, Global};

/// What a check finds.
#[derive(Drop)]
pub struct Findings {
    /// The problems, in order.
    pub problems: Vec<Problem>,
    /// The identifiers of the extensions in load order, none where the load is refused.
    pub ids: Vec<Text>,
}

/// The problems of some files: why a load refuses them, and else its warnings, in order, and then the lints
/// that are looked for. What their sentences say is tested, and in no clause. Error: `NoMemory`.
#[tactic(auto, using(crate::proofs::TellLemmas::tells_refusal, crate::proofs::TellLemmas::tells_warnings))]
pub fn find_problems(
    alloc: Global,
    files: &SourceFiles<'_>,
    choices: &Choices<'_>,
) -> Result<Findings, NoMemory>
    // They refuse what the load refuses, or have each of its warnings once, and then those that say that a
    // rule can never start are at rules that can't. The identifiers are those of the load.
    ensures tells { IfOk result (λ found.
        Tells (IsAtRule files.now) (files_in files.now) found.ids.items found.problems.items) }

    // No lint among them is silenced, and those that are off by default are asked for.
    ensures wanted { IfOk result (λ found. AreWanted choices.now found.problems.items) }

    // A refusal is in the file that the load names. A warning is in its file, and where a place is named, its
    // entry or a member of it begins there.
    ensures placed { IfOk result (λ found. ArePlaced files.now found.problems.items) }
{
    match load_sources(alloc, files) {
        Ok(session) => Ok(of_session(alloc, files, session, choices)?),
        Err(Failure::Fault(fault)) => Ok(Findings {
            problems: of_refused(alloc, files, fault)?,
            ids: Vec::new(alloc),
        }),
        Err(Failure::NoMemory) => Err(AllocError),
    }
}

/// The warnings and the lints of a session, which ends.
fn of_session(
    alloc: Global,
    files: &SourceFiles<'_>,
    session: Session<PlainNative>,
    choices: &Choices<'_>,
) -> Result<Findings, NoMemory>
    ensures named { IfOk result (λ found. found.ids.items ≡ ids_in session.state.sources) }
    ensures warnings { IfOk result (λ found.
        filter_map warning_in found.problems.items ≡ warnings_of session.state.sources) }
    ensures sound { IfOk result (λ found. AreSound (IsAtRule files.now)
        (enablement session.state.sources) (rules_of session.state.sources) found.problems.items) }
    ensures wanted { IfOk result (λ found. AreWanted choices.now found.problems.items) }
    ensures placed { IfOk result (λ found. ArePlaced files.now found.problems.items) }
{
    let found = of_bindings(
        alloc,
        files,
        session.bindings(),
        session.core().scopes(),
        choices,
    );
    drop(session.into_trace());
    Ok(found?)
}

/// The problem of a load that is refused. It is no lint.
#[tactic(auto, using(crate::proofs::CauseLemmas::refusals))]
fn of_refused(
    alloc: Global,
    files: &SourceFiles<'_>,
    fault: LoadFault,
) -> Result<Vec<Problem>, NoMemory>
    ensures refusal { IfOk result (λ problems. IsRefusal fault problems.items) }
    ensures wanted { (choices : Choices) → IfOk result (λ problems. AreWanted choices problems.items) }
    ensures placed { IfOk result (λ problems. ArePlaced files.now problems.items) }
{
    let problem = refused(alloc, files, fault)?;
    let mut problems = Vec::new(alloc);
    problems.push(problem)?;
    Ok(problems)
}

/// The identifiers of extensions, in order.
fn ids_of(alloc: Global, extensions: &[Extension]) -> Result<Vec<Text>, NoMemory>
    ensures { IfOk result (λ ids. ids.items ≡ map (λ e. e.manifest.id) extensions.now) }
{
    let mut ids = Vec::new(alloc);
    for extension in extensions {
        ids.push(Text::from_str(alloc, extension.manifest.id.as_str())?)?;
    }
    Ok(ids)
}

/// The warnings and the lints of an accepted load, with the identifiers of its extensions.
fn of_bindings<'b>(
    alloc: Global,
    files: &SourceFiles<'_>,
    bindings: &'b Bindings,
    scopes: &'b Scopes,
    choices: &Choices<'_>,
) -> Result<Findings, NoMemory>
    ensures named { IfOk result (λ found. found.ids.items ≡ ids_in bindings.now) }
    ensures warnings { IfOk result (λ found.
        filter_map warning_in found.problems.items ≡ warnings_of bindings.now) }
    ensures sound { IfOk result (λ found. AreSound (IsAtRule files.now)
        (enablement bindings.now) (rules_of bindings.now) found.problems.items) }
    ensures wanted { IfOk result (λ found. AreWanted choices.now found.problems.items) }
    ensures placed { IfOk result (λ found. ArePlaced files.now found.problems.items) }
{
    let ids = ids_of(alloc, bindings.extensions())?;
    let problems = of_accepted(alloc, files, bindings, scopes, choices)?;
    Ok(Findings { problems, ids })
}

/// The warnings and the lints of an accepted load.
#[tactic(auto, using(crate::proofs::StartLemmas::warning))]
fn of_accepted<'b>(
    alloc: Global,
    sources: &SourceFiles<'_>,
    bindings: &'b Bindings,
    scopes: &'b Scopes,
    choices: &Choices<'_>,
) -> Result<Vec<Problem>, NoMemory>
    ensures warnings { IfOk result (λ problems.
        filter_map warning_in problems.items ≡ warnings_of bindings.now) }
    ensures sound { IfOk result (λ problems. AreSound (IsAtRule sources.now)
        (enablement bindings.now) (rules_of bindings.now) problems.items) }
    ensures wanted { IfOk result (λ problems. AreWanted choices.now problems.items) }
    ensures placed { IfOk result (λ problems. ArePlaced sources.now problems.items) }
{
    let files = open_all(alloc, &*sources)?;
    let mut problems = warned(alloc, &files, sources.platform, bindings.warnings())?;
    let loaded = Loaded { bindings, scopes };
    let lints = linted_in(alloc, &files, loaded, choices)?;
    add_lints(lints, choices, &mut problems)?;
    Ok(problems)
}

/// Whether a problem is a lint that is looked for.
fn is_wanted(cause: Cause, choices: &Choices<'_>) -> bool
    ensures { result ≡ is_wanted choices.now cause }
{
    match cause {
        Cause::Linted(lint) => choices.wants(lint),
        Cause::Refused(_, _) | Cause::Warned(_) => false,
    }
}

/// Adds a lint behind other problems, if it is looked for.
#[tactic(auto, using(crate::proofs::CauseLemmas::lints))]
fn add_lint(
    lint: Problem,
    choices: &Choices<'_>,
    problems: &mut Vec<Problem>,
) -> Result<(), NoMemory>
    ensures warnings { OnOk result
        (filter_map warning_in problems.new.items ≡ filter_map warning_in problems.old.items) }
    ensures wanted { AreWanted choices.now problems.old.items
        → OnOk result (AreWanted choices.now problems.new.items) }
    ensures placed { (files : SourceFiles) → ArePlaced files problems.old.items
        → OnOk result (ArePlaced files problems.new.items) }
    ensures sound { (files : SourceFiles) (enablement : Enabling) (rules : List Rule) (rest : List Problem)
        → AreSound (IsAtRule files) enablement rules (lint ∷ rest)
        → AreSound (IsAtRule files) enablement rules problems.old.items
        → OnOk result (AreSound (IsAtRule files) enablement rules problems.new.items) }
{
    if !is_wanted(lint.cause, choices) {
        return Ok(());
    }
    problems.push(lint)?;
    Ok(())
}

/// Adds those lints that are looked for behind other problems.
fn add_lints(
    lints: Vec<Problem>,
    choices: &Choices<'_>,
    problems: &mut Vec<Problem>,
) -> Result<(), NoMemory>
    ensures warnings { OnOk result
        (filter_map warning_in problems.new.items ≡ filter_map warning_in problems.old.items) }
    ensures wanted { AreWanted choices.now problems.old.items
        → OnOk result (AreWanted choices.now problems.new.items) }
    ensures placed { (files : SourceFiles) → ArePlaced files problems.old.items
        → OnOk result (ArePlaced files problems.new.items) }
    ensures sound { (files : SourceFiles) (enablement : Enabling) (rules : List Rule)
        → AreSound (IsAtRule files) enablement rules lints.items
        → AreSound (IsAtRule files) enablement rules problems.old.items
        → OnOk result (AreSound (IsAtRule files) enablement rules problems.new.items) }
{
    for lint in lints {
        add_lint(lint, choices, problems)?;
    }
    Ok(())
}
