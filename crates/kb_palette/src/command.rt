//! A command of the palette.
ghost use Rattle.std.specs.Prelude.{◌≡◌, IfOk, option_copied};
ghost use Rattle.std.specs.List.{list_any};
ghost use Rattle.kb_context.specs.Scopes.{context};
ghost use Rattle.kb_palette.specs.Command.{is_visible, is_shown};
ghost use Rattle.kb_when.specs.Marks.{when_holds};
ghost use Rattle.kb_palette.specs.Listing.{is_found};

use crate::words::{folded_words, matches};
use kb_base::{NoMemory, Seq, Text};
use kb_context::Scopes;
use kb_when::SharedClause;
use std::alloc::Global;
use std::marker::Model;

/// A command that the palette may list. It is shown if it is visible and enabled:
/// - It is visible if no item of the palette names it, or if one of the items that name it holds (VS Code's
///   documentation of the menu `commandPalette`; that one of several items is enough is our decision).
/// - It is enabled if it has no enablement or its enablement holds (VS Code's documentation of commands).
///
/// An item without a clause holds. Contracts see all but the folded words of the label.
#[derive(Drop)]
pub struct PaletteCommand {
    command: Text,
    label: Text,
    words: Vec<Text>,
    enablement: Option<SharedClause>,
    items: Seq<Option<SharedClause>>,
}

impl Model for PaletteCommand {
    ghost use Rattle.std.specs.Prelude.{◌≡◌};
    ghost use Rattle.std.specs.Coded.{codes};
    ghost use Rattle.kb_when.specs.Marks.{coded_marked};
    ghost use Rattle.kb_palette.specs.Command.{CommandData};
    ghost use Rattle.kb_palette.specs.Words.{folded_words};

    ghost Value = { CommandData };

    ghost coded = { Prim.hlevel (codes, coded_marked) };

    ghost view = { λ c.
        record { command = c.command; label = c.label; enablement = c.enablement; items = c.items } };

    ghost invariant = { λ c. c.words.items ≡ folded_words c.label };
}

impl PaletteCommand {
    /// A command with its identifier, its label, its enablement, if it has one, and the clauses of the
    /// palette's items that name it. The words of the label are folded here, once. Error: `NoMemory`.
    pub fn new(
        alloc: Global,
        command: Text,
        label: Text,
        enablement: Option<SharedClause>,
        items: Seq<Option<SharedClause>>,
    ) -> Result<PaletteCommand, NoMemory>
        ensures { IfOk result (λ made. made
            ≡ record { command = command; label = label; enablement = enablement; items = items }) }
    {
        let words = folded_words(alloc, label.as_str())?;
        Ok(PaletteCommand {
            command,
            label,
            words,
            enablement,
            items,
        })
    }

    /// The identifier of the command.
    pub fn command(&self) -> &str
        ensures { result.now ≡ self.now.command }
    {
        self.command.as_str()
    }

    /// The text that the palette shows and searches.
    pub fn label(&self) -> &str
        ensures { result.now ≡ self.now.label }
    {
        self.label.as_str()
    }

    /// The enablement of the command, if it has one.
    pub fn enablement(&self) -> Option<&SharedClause>
        ensures { option_copied result ≡ self.now.enablement }
    {
        self.enablement.as_ref()
    }

    /// The clauses of the palette's items that name the command; an item without a clause has `None`.
    pub fn items(&self) -> &[Option<SharedClause>]
        ensures { result.now ≡ self.now.items }
    {
        self.items.as_slice()
    }

    /// Whether the folded words of a query find the command, and it is shown. The words are compared first,
    /// since a clause may read many keys.
    pub(crate) fn is_found(&self, query: &[Text], scopes: &Scopes) -> Result<bool, NoMemory>
        ensures { IfOk result (λ answer. answer ≡ is_found (context scopes.now.seen) query.now self.now) }
    {
        if !matches(query, self.words.as_slice()) {
            return Ok(false);
        }
        self.is_shown(scopes)
    }

    /// Whether the command is visible and enabled.
    fn is_shown(&self, scopes: &Scopes) -> Result<bool, NoMemory>
        ensures { IfOk result (λ answer. answer ≡ is_shown (context scopes.now.seen) self.now) }
    {
        if !self.is_visible(scopes)? {
            return Ok(false);
        }
        SharedClause::optional_holds(self.enablement.as_ref(), scopes)
    }

    /// Whether no item names the command, or one that names it holds.
    fn is_visible(&self, scopes: &Scopes) -> Result<bool, NoMemory>
        ensures { IfOk result (λ answer. answer ≡ is_visible (context scopes.now.seen) self.now) }
    {
        let items = self.items.as_slice();
        if items.is_empty() {
            return Ok(true);
        }
        one_holds(items, scopes)
    }
}

/// Whether one of the items holds.
fn one_holds(items: &[Option<SharedClause>], scopes: &Scopes) -> Result<bool, NoMemory>
    ensures { IfOk result (λ answer. answer ≡ list_any (when_holds (context scopes.now.seen)) items.now) }
{
    for item in items {
        if SharedClause::optional_holds(item.as_ref(), scopes)? {
            return Ok(true);
        }
    }
    Ok(false)
}
