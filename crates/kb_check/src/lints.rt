//! All lints.
ghost use Rattle.std.specs.Prelude.{◌≡◌, IfOk, OnOk};
ghost use Rattle.kb_bindings.specs.Sources.{enablement, rules_of};
ghost use Rattle.kb_check.specs.Sound.{AreSound};
ghost use Rattle.kb_problems.specs.Opened.{IsAtOpened};
ghost use Rattle.kb_problems.specs.Starts.{never_said};

use crate::context_keys::add_unknown_keys;
use crate::hidden_lints::add_hidden;
use crate::known_commands::known_in;
use crate::pattern_lints::add_unread_patterns;
use crate::removal_lints::add_idle_removals;
use crate::rule_lints::{add_unknown_commands, add_wrong_arguments, said_of_unknown};
use kb_base::{NoMemory, Origin, Part};
use kb_bindings::Bindings;
use kb_context::Scopes;
use kb_files::Extension;
use kb_lints::Hiding;
use kb_manifest::PaletteItem;
use kb_member_lints::{add_double_quotes, add_misspelled};
use kb_problems::{Choices, KnownCommands, Lint, Opened, OpenedFiles, Problem, linted, push_other};
use std::alloc::Global;

/// What lints look at.
#[derive(Clone, Copy)]
pub struct Loaded<'a> {
    /// What binds keys.
    pub bindings: &'a Bindings,
    /// The scopes with the context keys that they have at first.
    pub scopes: &'a Scopes,
}

/// All kinds, in the order in which they are looked for. Rules that can never start are found together,
/// whichever file the lower rule is in, and unknown commands, next to a known one or not.
const KINDS: [Lint; 10] = [
    Lint::UnknownCommand,
    Lint::WrongArguments,
    Lint::NeverStarts,
    Lint::ChordNeverOpens,
    Lint::ChordHidesRule,
    Lint::UnknownContextKey,
    Lint::IdleRemoval,
    Lint::UnreadPattern,
    Lint::MisspelledMember,
    Lint::DoubleQuotes,
];

/// The lints on an accepted load, in the order of their kinds. Those of a kind that isn't looked for are
/// mostly left out, to save time.
#[tactic(auto, using(crate::proofs::StartLemmas::none_said))]
pub(crate) fn linted_in(
    alloc: Global,
    files: &OpenedFiles<'_>,
    accepted: Loaded<'_>,
    choices: &Choices<'_>,
) -> Result<Vec<Problem>, NoMemory>
    ensures { IfOk result (λ problems. AreSound (IsAtOpened files.now)
        (enablement accepted.entry.bindings.now) (rules_of accepted.entry.bindings.now) problems.items) }
{
    let mut problems = Vec::new(alloc);
    let extensions = files.sources.extensions;
    let mut known = known_in(alloc, extensions, accepted.bindings, choices.commands)?;
    add_kinds(
        alloc,
        KINDS.as_slice(),
        files,
        accepted,
        &mut known,
        choices,
        &mut problems,
    )?;
    Ok(problems)
}

/// Whether a kind is looked for, or one that is found together with it.
fn is_wanted(kind: Lint, choices: &Choices<'_>) -> bool {
    choices.wants(kind)
        || (kind == Lint::NeverStarts && choices.wants(Lint::Overridden))
        || (kind == Lint::UnknownCommand && choices.wants(Lint::MisspelledCommand))
}

/// Adds those of these kinds that are looked for.
fn add_kinds(
    alloc: Global,
    kinds: &[Lint],
    files: &OpenedFiles<'_>,
    accepted: Loaded<'_>,
    known: &mut KnownCommands,
    choices: &Choices<'_>,
    problems: &mut Vec<Problem>,
) -> Result<(), NoMemory>
    ensures { AreSound (IsAtOpened files.now) (enablement accepted.entry.bindings.now)
        (rules_of accepted.entry.bindings.now) problems.old.items
        → OnOk result (AreSound (IsAtOpened files.now) (enablement accepted.entry.bindings.now)
        (rules_of accepted.entry.bindings.now) problems.new.items) }
{
    for kind in kinds {
        if !is_wanted(*kind, choices) {
            continue;
        }
        add_kind(alloc, *kind, files, accepted, known, problems)?;
    }
    Ok(())
}

/// Adds the lints of a kind.
fn add_kind(
    alloc: Global,
    kind: Lint,
    files: &OpenedFiles<'_>,
    accepted: Loaded<'_>,
    known: &mut KnownCommands,
    problems: &mut Vec<Problem>,
) -> Result<(), NoMemory>
    ensures { AreSound (IsAtOpened files.now) (enablement accepted.entry.bindings.now)
        (rules_of accepted.entry.bindings.now) problems.old.items
        → OnOk result (AreSound (IsAtOpened files.now) (enablement accepted.entry.bindings.now)
        (rules_of accepted.entry.bindings.now) problems.new.items) }
{
    match hiding_of(kind) {
        Some(how) => add_hidden_of(alloc, how, files, accepted.bindings, problems),
        None => {
            add_other(alloc, kind, files, accepted, known, problems)?;
            Ok(())
        }
    }
}

/// How lower rules hide those that a kind is about, if it says that they can never start.
fn hiding_of(kind: Lint) -> Option<Hiding> {
    match kind {
        Lint::NeverStarts | Lint::Overridden => Some(Hiding::SameKeys),
        Lint::ChordNeverOpens => Some(Hiding::FirstKeys),
        Lint::ChordHidesRule => Some(Hiding::MoreKeys),
        _ => None,
    }
}

/// Adds the rules that can never start, since lower ones hide them in this way.
fn add_hidden_of(
    alloc: Global,
    how: Hiding,
    files: &OpenedFiles<'_>,
    bindings: &Bindings,
    problems: &mut Vec<Problem>,
) -> Result<(), NoMemory>
    ensures { AreSound (IsAtOpened files.now) (enablement bindings.now) (rules_of bindings.now)
        problems.old.items
        → OnOk result (AreSound (IsAtOpened files.now) (enablement bindings.now) (rules_of bindings.now)
        problems.new.items) }
{
    let rules = bindings.resolver().rules();
    add_hidden(alloc, files, rules, bindings.enablements(), how, problems)?;
    Ok(())
}

/// Adds the lints of a kind that doesn't say that a rule can never start.
fn add_other(
    alloc: Global,
    kind: Lint,
    files: &OpenedFiles<'_>,
    accepted: Loaded<'_>,
    known: &mut KnownCommands,
    problems: &mut Vec<Problem>,
) -> Result<(), NoMemory>
    ensures { OnOk result (never_said problems.new.items ≡ never_said problems.old.items) }
{
    let bindings = accepted.bindings;
    let rules = bindings.resolver().rules();
    match kind {
        Lint::UnknownCommand => add_all_unknown(alloc, files, bindings, known, problems),
        Lint::WrongArguments => add_wrong_arguments(alloc, files, rules, known, problems),
        Lint::UnknownContextKey => {
            let extensions = bindings.extensions();
            add_unknown_keys(alloc, files, rules, extensions, accepted.scopes, problems)
        }
        Lint::IdleRemoval => add_idle_removals(alloc, files, bindings, known, problems),
        Lint::UnreadPattern => add_all_patterns(alloc, files, bindings, problems),
        Lint::MisspelledMember => add_misspelled(alloc, files, problems),
        Lint::DoubleQuotes => add_double_quotes(alloc, files, problems),
        _ => Ok(()),
    }
}

/// Adds the commands that nobody has, of rules and of items of the palette.
fn add_all_unknown(
    alloc: Global,
    files: &OpenedFiles<'_>,
    bindings: &Bindings,
    known: &mut KnownCommands,
    problems: &mut Vec<Problem>,
) -> Result<(), NoMemory>
    ensures { OnOk result (never_said problems.new.items ≡ never_said problems.old.items) }
{
    add_unknown_commands(alloc, files, bindings.resolver().rules(), known, problems)?;
    for extension in bindings.extensions() {
        add_items(alloc, files, extension, known, problems)?;
    }
    Ok(())
}

/// Adds the items of an extension's palette whose command nobody has.
fn add_items(
    alloc: Global,
    files: &OpenedFiles<'_>,
    extension: &Extension,
    known: &mut KnownCommands,
    problems: &mut Vec<Problem>,
) -> Result<(), NoMemory>
    ensures { OnOk result (never_said problems.new.items ≡ never_said problems.old.items) }
{
    let Some(opened) = files.of(Origin::Extension(extension.number)) else {
        return Ok(());
    };
    for item in extension.manifest.palette.as_slice() {
        add_item(alloc, opened, item, known, problems)?;
    }
    Ok(())
}

/// Adds an item of a palette, if nobody has its command.
fn add_item(
    alloc: Global,
    opened: &Opened<'_>,
    item: &PaletteItem,
    known: &mut KnownCommands,
    problems: &mut Vec<Problem>,
) -> Result<(), NoMemory>
    ensures { OnOk result (never_said problems.new.items ≡ never_said problems.old.items) }
{
    let command = item.command.as_str();
    if known.has(command) {
        return Ok(());
    }
    let span = opened.member(alloc, Part::Palette, item.place, "command")?;
    let (lint, sentence) = said_of_unknown(alloc, command, known)?;
    push_other(linted(opened.file, lint, span, sentence), problems)?;
    Ok(())
}

/// Adds the patterns that aren't read.
fn add_all_patterns(
    alloc: Global,
    files: &OpenedFiles<'_>,
    bindings: &Bindings,
    problems: &mut Vec<Problem>,
) -> Result<(), NoMemory>
    ensures { OnOk result (never_said problems.new.items ≡ never_said problems.old.items) }
{
    let unread = bindings.unread(alloc)?;
    add_unread_patterns(alloc, files, unread.as_slice(), problems)?;
    Ok(())
}
