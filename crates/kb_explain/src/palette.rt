//! Why the palette doesn't list a command.
ghost use Rattle.std.specs.Prelude.{◌≡◌, [], ◌∷◌, not, is_some, IfOk, IfSome};
ghost use Rattle.std.specs.List.{list_any};
ghost use Rattle.kb_explain.specs.Cause.{cause_data};
ghost use Rattle.kb_context.specs.Scopes.{context};
ghost use Rattle.kb_explain.specs.Palette.{contributor, named_alone, IsCauseOfItems, IsItemCause, IsNamed};
ghost use Rattle.kb_explain.specs.Palette.{IsWhyAbsent, IsWhyNotShown, IsWhyUnfound, IsWhyUnlisted};
ghost use Rattle.kb_palette.specs.Command.{CommandData};
ghost use Rattle.kb_palette.specs.Listing.{is_found};
ghost use Rattle.kb_palette.specs.Words.{folded_words};
ghost use Rattle.kb_when.specs.Marks.{when_holds};

use crate::cause::{Cause, cause_of_clause, first_shown};
use crate::press::clause_of;
use kb_base::NoMemory;
use kb_bindings::Bindings;
use kb_context::Scopes;
use kb_files::Extension;
use kb_palette::{History, PaletteCommand, list};
use kb_when::SharedClause;
use std::alloc::Global;

/// Whether the palette lists a command, or why not.
#[derive(Clone, Copy, Debug)]
pub enum Unlisted<'s> {
    /// It is listed.
    Listed,
    /// No extension contributes it.
    NotContributed,
    /// The first extension that contributes it isn't enabled, and no enabled one does.
    ExtensionDisabled(&'s str),
    /// Items of the palette name it, and none of them holds; this is why the first doesn't that may hold in
    /// some context.
    NoItemHolds(Cause<'s>),
    /// Its enablement fails.
    IsDisabled(Cause<'s>),
    /// A word of the query begins no word of its label.
    NoWord(&'s str),
}

/// Why an item of the palette fails, if it does.
fn cause_of_item<'s>(
    alloc: Global,
    item: &'s Option<SharedClause>,
    scopes: &Scopes,
) -> Result<Option<Cause<'s>>, NoMemory>
    ensures { IfOk result (IsItemCause (context scopes.now.seen) item.entry.now) }
{
    cause_of_clause(alloc, clause_of(item.as_ref()), scopes)
}

/// Why none of these items holds, if none does: the first literal among their causes.
#[tactic(auto, using(crate::proofs::PaletteLemmas::one_cause_more, crate::proofs::PaletteLemmas::all_causes))]
fn cause_of_items<'s>(
    alloc: Global,
    items: &'s [Option<SharedClause>],
    scopes: &Scopes,
) -> Result<Option<Cause<'s>>, NoMemory>
    ensures cause { IfOk result (λ found. IfSome found (λ cause.
        IsCauseOfItems (context scopes.now.seen) items.entry.now (cause_data cause))) }
    ensures holds { IfOk result (λ found.
        is_some found ≡ not (list_any (when_holds (context scopes.now.seen)) items.entry.now)) }
{
    let mut first = None;
    for item in items {
        let Some(cause) = cause_of_item(alloc, item, scopes)? else {
            return Ok(None);
        };
        first = first_shown(first, Some(cause));
    }
    Ok(Some(first.unwrap_or(Cause::Never)))
}

/// Why a command of the palette isn't shown, if it isn't.
fn why_not_shown<'s>(
    alloc: Global,
    command: &'s PaletteCommand,
    scopes: &Scopes,
) -> Result<Option<Unlisted<'s>>, NoMemory>
    ensures { IfOk result (IsWhyNotShown (context scopes.now.seen) command.entry.now) }
{
    let items = command.items();
    if !items.is_empty() {
        if let Some(cause) = cause_of_items(alloc, items, scopes)? {
            return Ok(Some(Unlisted::NoItemHolds(cause)));
        }
    }
    match cause_of_clause(alloc, clause_of(command.enablement()), scopes)? {
        Some(cause) => Ok(Some(Unlisted::IsDisabled(cause))),
        None => Ok(None),
    }
}

/// Whether a query finds the only command of a list, and it is shown.
fn is_listed(
    alloc: Global,
    query: &str,
    alone: &[PaletteCommand],
    scopes: &Scopes,
) -> Result<bool, NoMemory>
    ensures { IfOk result (λ answer. (c : CommandData) → alone.now ≡ c ∷ []
        → answer ≡ is_found (context scopes.now.seen) (folded_words query.now) c) }
{
    let history = History::new(alloc)?;
    Ok(!list(alloc, query, alone, &history, scopes)?.is_empty())
}

/// Whether a query lists the only command of a list, or why not.
fn why_unfound<'s>(
    alloc: Global,
    alone: &'s [PaletteCommand],
    command: &'s PaletteCommand,
    query: &str,
    scopes: &Scopes,
) -> Result<Unlisted<'s>, NoMemory>
    requires { alone.now ≡ command.now ∷ [] }
    ensures { IfOk result (IsWhyUnfound (context scopes.now.seen) query.now command.entry.now) }
{
    if let Some(why) = why_not_shown(alloc, command, scopes)? {
        return Ok(why);
    }
    if is_listed(alloc, query, alone, scopes)? {
        Ok(Unlisted::Listed)
    } else {
        Ok(Unlisted::NoWord(command.label()))
    }
}

/// The first command of the palette with this identifier, also as a list of one.
fn command_named<'s>(
    commands: &'s [PaletteCommand],
    name: &str,
) -> Option<(&'s [PaletteCommand], &'s PaletteCommand)>
    ensures { IsNamed (named_alone name.now commands.now) result }
{
    let mut rest = commands;
    while let [first, others @ ..] = rest {
        if first.command() == name {
            return Some((&rest[..1], first));
        }
        rest = others;
    }
    None
}

/// Why no enabled extension contributes a command.
fn why_absent<'s>(extensions: &'s [Extension], command: &str) -> Unlisted<'s>
    ensures { IsWhyAbsent (contributor command.now extensions.entry.now) result }
{
    for extension in extensions {
        if extension.manifest.commands.get(command).is_some() {
            return Unlisted::ExtensionDisabled(extension.manifest.id.as_str());
        }
    }
    Unlisted::NotContributed
}

/// Whether the palette lists a command for a query, over what the focus sees, or why not. Error: `NoMemory`.
#[tactic(auto, using(crate::proofs::PaletteLemmas::why_of_one, crate::proofs::PaletteLemmas::why_of_none))]
pub fn why_unlisted<'s>(
    alloc: Global,
    bindings: &'s Bindings,
    query: &str,
    command: &str,
    scopes: &Scopes,
) -> Result<Unlisted<'s>, NoMemory>
    ensures { IfOk result
        (IsWhyUnlisted (context scopes.now.seen) query.now command.now bindings.entry.now.extensions) }
{
    match command_named(bindings.palette(), command) {
        Some((alone, one)) => Ok(why_unfound(alloc, alone, one, query, scopes)?),
        None => Ok(why_absent(bindings.extensions(), command)),
    }
}
